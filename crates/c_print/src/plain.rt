//! Reading plain bytes of a format.

ghost use Rattle.std.specs.Prelude.{MatchOption, IfOk};
ghost use Rattle.c_print.specs.Format.{GoesOnPlain, BeginsPlain, ReadsPlain};

use hs_base::{Items, NoMemory};
use std::alloc::Global;

/// The plain byte at the front, where there is one, and the bytes behind it.
fn split_plain(bytes: &[u8]) -> Option<(u8, &[u8])>
    ensures { MatchOption result (¬ GoesOnPlain bytes.now) (λ r. BeginsPlain bytes.now r.0 r.1.now) }
{
    match bytes {
        [b'%', b'%', rest @ ..] => Some((b'%', rest)),
        [] | [0 | b'%', ..] => None,
        [byte, rest @ ..] => Some((*byte, rest)),
    }
}

/// The plain bytes at the front as far as they go, and the bytes behind them.
pub(crate) fn read_plain(alloc: Global, bytes: &[u8]) -> Result<(Items<u8>, &[u8]), NoMemory>
    ensures { IfOk result (λ r. ReadsPlain bytes.now r.0 r.1.now) }
{
    let mut text = Items::new(alloc);
    let mut rest = bytes;
    while let Some((byte, after)) = split_plain(rest) {
        text.push(byte)?;
        rest = after;
    }
    Ok((text, rest))
}
