//! How a run ended, as the error stream says it.

ghost use Rattle.std.specs.Prelude.{◌+◌, ◌<◌, ◌^◌};
ghost use Rattle.hs_base.specs.Outside.{CountsFaults};
ghost use Rattle.bad_free_report.specs.Report.{bad_free_text, end_report, holder_line};
ghost use Rattle.bad_free_report.specs.Putting.{Puts};

use crate::holders::put_holder;
use crate::lines::{complain, complain_at, complain_labelled};
use crate::names::local_name;
use crate::words::{reason_words, trap_word};
use core_tree::Core;
use hs_base::{BadFree, End, Failed, Holder, Reason, Sink};

/// Writes the lines that say how a run ended: nothing of an exit; for a trap, a bad free, an escape and a want of stack
/// `NAME:LINE: ` with what it is, and the source line; for a bad free that is held the first holder below them; for
/// the end of the steps and a fault of input or output one line. `name` and `text` are those of the C text, and `core` is
/// its core, from which functions, statics and locals have their names. After a failure, which is the last call on the
/// sink, a prefix was taken.
pub(crate) fn report<E: Sink>(
    end: &End,
    core: &Core,
    name: &[u8],
    text: &[u8],
    err: &mut E,
) -> Result<(), Failed>
    requires { E.faults err.old + 1 < 2 ^ 64 }
    ensures bytes { Puts E.Sink err.old err.new (end_report core.now name.now text.now end.now) result }
    ensures cause { CountsFaults (E.faults err.old) (E.faults err.new) result }
{
    match *end {
        End::Exit(_) => Ok(()),
        End::Trap(kind, line) => complain_labelled(
            err,
            name,
            line,
            b"trap: ",
            trap_word(kind),
            text,
        ),
        End::BadFree(free, holder) => report_bad_free(err, core, name, text, free, holder),
        End::Escape { func, local, line } => {
            complain_labelled(
                err,
                name,
                line,
                b"escape: ",
                local_name(core, func, local),
                text,
            )
        }
        End::Spent => complain(err, name, b"out of steps"),
        End::OutOfStack(line) => complain_at(err, name, line, b"out of stack", text),
        End::InputFault => complain(err, b"heapsafe", b"input fault"),
        End::OutputFault => complain(err, b"heapsafe", b"output fault"),
    }
}

/// Writes that a free is wrong, and the first holder where it is held.
fn report_bad_free<E: Sink>(
    err: &mut E,
    core: &Core,
    name: &[u8],
    text: &[u8],
    free: BadFree,
    holder: Option<Holder>,
) -> Result<(), Failed>
    requires { E.faults err.old + 1 < 2 ^ 64 }
    ensures bytes { Puts E.Sink err.old err.new (bad_free_text core.now name.now text.now free holder) result }
    ensures cause { CountsFaults (E.faults err.old) (E.faults err.new) result }
{
    let words = reason_words(free.reason);
    complain_labelled(err, name, free.line, b"bad free: ", words, text)?;
    put_first_holder(err, core, free.reason, holder)
}

/// Writes the first holder where a wrong free is held.
fn put_first_holder<E: Sink>(
    err: &mut E,
    core: &Core,
    reason: Reason,
    holder: Option<Holder>,
) -> Result<(), Failed>
    requires { E.faults err.old + 1 < 2 ^ 64 }
    ensures bytes { Puts E.Sink err.old err.new (holder_line core.now reason holder) result }
    ensures cause { CountsFaults (E.faults err.old) (E.faults err.new) result }
{
    match (reason, holder) {
        (Reason::Held, Some(holder)) => put_holder(err, core, holder),
        _ => Ok(()),
    }
}
