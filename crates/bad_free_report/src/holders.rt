//! The line that names the first holder of a freed object.

ghost use Rattle.std.specs.Prelude.{◌+◌, ◌<◌, ◌^◌, option_copied};
ghost use Rattle.hs_base.specs.Outside.{CountsFaults};
ghost use Rattle.bad_free_report.specs.Report.{func_name, holder_text, register_name, register_text};
ghost use Rattle.bad_free_report.specs.Putting.{Puts};

use crate::names::{func_name, local_name, register_name, static_name};
use crate::parts::put_parts;
use core_tree::Core;
use hs_base::{Failed, Holder, Sink};
use itoa::Buffer;

/// Writes where the first pointer stands that holds a freed object, and a line feed.
pub(crate) fn put_holder<E: Sink>(err: &mut E, core: &Core, holder: Holder) -> Result<(), Failed>
    requires { E.faults err.old + 1 < 2 ^ 64 }
    ensures bytes { Puts E.Sink err.old err.new (holder_text core.now holder) result }
    ensures cause { CountsFaults (E.faults err.old) (E.faults err.new) result }
{
    match holder {
        Holder::Global { index, offset } => {
            let mut digits = Buffer::new();
            let offset = digits.format(offset).as_bytes();
            put_parts(
                err,
                &[
                    b"held by global ",
                    static_name(core, index),
                    b" at ",
                    offset,
                    b"\n",
                ],
            )
        }
        Holder::Memory {
            func,
            index,
            offset,
        } => {
            let (func, local) = (func_name(core, func), local_name(core, func, index));
            let mut digits = Buffer::new();
            let offset = digits.format(offset).as_bytes();
            put_parts(
                err,
                &[
                    b"held by local ",
                    local,
                    b" of ",
                    func,
                    b" at ",
                    offset,
                    b"\n",
                ],
            )
        }
        Holder::Block { line, offset } => {
            let (mut line_digits, mut digits) = (Buffer::new(), Buffer::new());
            let line = line_digits.format(line).as_bytes();
            let offset = digits.format(offset).as_bytes();
            put_parts(
                err,
                &[b"held by block of line ", line, b" at ", offset, b"\n"],
            )
        }
        Holder::Register { func, index } => put_register(
            err,
            register_name(core, func, index),
            func_name(core, func),
        ),
    }
}

/// Writes that a local holds a freed object, or a value without a name.
fn put_register<E: Sink>(err: &mut E, name: Option<&[u8]>, func: &[u8]) -> Result<(), Failed>
    requires { E.faults err.old + 1 < 2 ^ 64 }
    ensures bytes { Puts E.Sink err.old err.new (register_text (option_copied name.entry) func.now) result }
    ensures cause { CountsFaults (E.faults err.old) (E.faults err.new) result }
{
    match name {
        Some(name) => put_parts(err, &[b"held by local ", name, b" of ", func, b"\n"]),
        None => put_parts(err, &[b"held by a value of ", func, b"\n"]),
    }
}
