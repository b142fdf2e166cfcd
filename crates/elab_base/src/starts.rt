//! What objects hold before the run (C99 6.7.8).

ghost use Rattle.std.specs.Prelude.{◌≡◌, reverse, take};
ghost use Rattle.elaboration.specs.Initializers.{no_start, trimmed, without_zeros};

use core_tree::Start;
use hs_base::Items;
use std::alloc::Global;

/// Zeros and null pointers alone.
pub fn no_start(alloc: Global) -> Start
    ensures { result ≡ no_start }
{
    Start {
        bytes: Items::new(alloc),
        pointers: Items::new(alloc),
    }
}

/// How many bytes stand in front of the zeros at the end.
fn length_without_zeros(bytes: &[u8]) -> usize
    ensures { take result bytes.now ≡ reverse (without_zeros (reverse bytes.now)) }
{
    for place in (0..bytes.len()).rev() {
        if bytes[place] != 0 {
            return place + 1;
        }
    }
    0
}

/// The same without the zeros at the end of its bytes.
pub fn trimmed(start: Start) -> Start
    ensures { result ≡ trimmed start }
{
    let Start { bytes, pointers } = start;
    let mut bytes = bytes.into_vec();
    let length = length_without_zeros(&bytes);
    bytes.truncate(length);
    Start {
        bytes: Items::from(bytes),
        pointers,
    }
}
