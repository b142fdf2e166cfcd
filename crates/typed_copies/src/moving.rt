//! Bytes that are moved or set.

ghost use Rattle.std.specs.Prelude.{◌≡◌, ◌+◌, ◌*◌, ◌^◌, ◌<◌, ◌≤◌, length, replicate, slice_index, slice_set};
ghost use Rattle.hs_base.specs.Access.{overlaid};
ghost use Rattle.byte_memory.specs.Bytes.{part};

use byte_memory::{FlatBytes, Steps};
use std::sync::ledger::Ledger;

/// Copies one byte. Two steps.
fn copy_byte<L: Ledger>(bytes: &mut FlatBytes, to: u32, from: u32, steps: &mut Steps<L>)
    requires to { to < length bytes.old }
    requires from { from < length bytes.old }
    ensures copied { bytes.new ≡ slice_set bytes.old to (slice_index bytes.old from) }
    ensures steps { steps.new ≡ steps.old + 2 }
{
    let byte = bytes.read(from, 1, steps);
    bytes.write(to, 1, byte, steps);
}

/// Moves n bytes down to an address, or to where they are: the lowest byte first, so that none is written before it is
/// read. Two steps for each.
fn move_down<L: Ledger>(bytes: &mut FlatBytes, to: u32, from: u32, n: u32, steps: &mut Steps<L>)
    requires inside { from + n ≤ length bytes.old }
    requires reach { length bytes.old < 2 ^ 32 }
    requires down { to ≤ from }
    ensures moved { bytes.new ≡ overlaid bytes.old to (part bytes.old from n) }
    ensures steps { steps.new ≡ steps.old + 2 * n }
{
    for k in 0..n {
        copy_byte(bytes, to + k, from + k, steps);
    }
}

/// Moves n bytes up to an address, or to where they are: the highest byte first, so that none is written before it is
/// read. Two steps for each.
fn move_up<L: Ledger>(bytes: &mut FlatBytes, to: u32, from: u32, n: u32, steps: &mut Steps<L>)
    requires inside { to + n ≤ length bytes.old }
    requires reach { length bytes.old < 2 ^ 32 }
    requires up { from ≤ to }
    ensures moved { bytes.new ≡ overlaid bytes.old to (part bytes.old from n) }
    ensures steps { steps.new ≡ steps.old + 2 * n }
{
    for k in (0..n).rev() {
        copy_byte(bytes, to + k, from + k, steps);
    }
}

/// Moves n bytes to an address as through a buffer (C99 7.21.2.2). Two steps for each.
pub(crate) fn move_bytes<L: Ledger>(
    bytes: &mut FlatBytes,
    to: u32,
    from: u32,
    n: u32,
    steps: &mut Steps<L>,
)
    requires to { to + n ≤ length bytes.old }
    requires from { from + n ≤ length bytes.old }
    requires reach { length bytes.old < 2 ^ 32 }
    ensures moved { bytes.new ≡ overlaid bytes.old to (part bytes.old from n) }
    ensures steps { steps.new ≡ steps.old + 2 * n }
{
    if to <= from {
        move_down(bytes, to, from, n, steps)
    } else {
        move_up(bytes, to, from, n, steps)
    }
}

/// Sets n bytes from an address on to one value (C99 7.21.6.1). A step for each.
pub(crate) fn fill<L: Ledger>(
    bytes: &mut FlatBytes,
    to: u32,
    byte: u8,
    n: u32,
    steps: &mut Steps<L>,
)
    requires inside { to + n ≤ length bytes.old }
    requires reach { length bytes.old < 2 ^ 32 }
    ensures filled { bytes.new ≡ overlaid bytes.old to (replicate n byte) }
    ensures steps { steps.new ≡ steps.old + n }
{
    for k in 0..n {
        bytes.write(to + k, 1, u64::from(byte), steps);
    }
}
