//! What a program leaves on the heap.

ghost use Rattle.std.specs.Prelude.{◌+◌, ◌<◌, ◌^◌};
ghost use Rattle.hs_base.specs.Outside.{CountsFaults};
ghost use Rattle.flat_objects.specs.Leaks.{KeepsSome};
ghost use Rattle.heapsafe.specs.Saying.{PutsLeaks, TellsLeaks};

use crate::places::told_leak;
use bad_free_report::{Form, say_leak};
use c_pre::Opened;
use flat_machine::Machine;
use hs_base::{Failed, Sink};

/// Says each leak of the heap of a machine, by ascending lines of birth over all texts, each counted in its text. A line is 1 at
/// least, so the first leak alone is above line 0. After a failure, which is the last call on the sink, a prefix was taken.
pub(crate) fn write_leaks<E: Sink>(
    machine: &Machine,
    opened: &[Opened],
    form: Form,
    err: &mut E,
) -> Result<(), Failed>
    requires kept { KeepsSome machine.now.kept.memory }
    requires err { E.faults err.old + 1 < 2 ^ 64 }
    ensures puts { PutsLeaks E.Sink form machine.now opened.now err.old err.new result }
    ensures all { TellsLeaks machine.now result }
    ensures cause { CountsFaults (E.faults err.old) (E.faults err.new) result }
{
    let mut above = 0;
    'lines: while let Some(leak) = machine.leak(above) {
        say_leak(err, form, above > 0, &told_leak(opened, leak))?;
        above = leak.line;
    }
    Ok(())
}
