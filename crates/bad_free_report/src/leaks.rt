//! Leaks.

ghost use Rattle.std.specs.Prelude.{◌+◌, ◌<◌, ◌^◌};
ghost use Rattle.hs_base.specs.Outside.{CountsFaults};
ghost use Rattle.bad_free_report.specs.Report.{leak_text};
ghost use Rattle.bad_free_report.specs.Putting.{Puts};

use crate::parts::put_parts;
use hs_base::{Failed, Leak, Sink};
use itoa::Buffer;

/// Writes `leak: line LINE: K blocks, B bytes` and a line feed: the line of birth, how many heap objects of it are left,
/// and the sum of their sizes in bytes. After a failure, which is the last call on the sink, a prefix was taken.
pub(crate) fn leak_line<E: Sink>(leak: &Leak, err: &mut E) -> Result<(), Failed>
    requires { E.faults err.old + 1 < 2 ^ 64 }
    ensures bytes { Puts E.Sink err.old err.new (leak_text leak.now) result }
    ensures cause { CountsFaults (E.faults err.old) (E.faults err.new) result }
{
    let (mut line, mut blocks, mut bytes) = (Buffer::new(), Buffer::new(), Buffer::new());
    let line = line.format(leak.line).as_bytes();
    let blocks = blocks.format(leak.blocks).as_bytes();
    let bytes = bytes.format(leak.bytes).as_bytes();
    put_parts(
        err,
        &[
            b"leak: line ",
            line,
            b": ",
            blocks,
            b" blocks, ",
            bytes,
            b" bytes\n",
        ],
    )
}
