//! Running the code of a core.

ghost use Rattle.std.specs.Prelude.{◌≡◌, ◌+◌, ◌<◌, ◌≤◌, ◌^◌, IfSome, None, Some};
ghost use Rattle.meaning_laws.specs.code.Laws.{HoldsBytes};
ghost use Rattle.flat_code.specs.WellFormed.{IsWellFormed};
ghost use Rattle.flat_objects.specs.Leaks.{KeepsSome};
ghost use Rattle.flat_machine.specs.Machined.{IsOf, steps_made};
ghost use Rattle.flat_machine.specs.Running.{RunCounts};
ghost use Rattle.flat_codegen.specs.Executed.{AnswersCore, MakesStepsOfCore, LeavesImageOfCore};

use flat_code::Code;
use flat_machine::Machine;
use hs_base::{End, Sink, Source};
use meaning_laws::{code_means_core, counted_means_core};

/// Runs the code of a core that is sound and has exact pins, with at most so many steps (C99 5.1.2.3, with limits of this project's
/// own). Where input and output are told, it writes exactly the bytes that the core writes in the machine's heap before its
/// first call for which the stack has no room, takes exactly the bytes that it reads, and answers its end, or that of that call. All
/// output is put before a byte of input is asked for and before the run ends. It ends by a fault of the input or the output
/// exactly where that object failed in this call. [`Machine::steps_made`] tells how many steps it made: `budget` less those that
/// are left in the last state of the core's run, cut so. At every other end the image of the machine agrees with that state, but for
/// the points of its frames: objects with their bytes, pointers and headers, the queue and the open scopes, the calls with their
/// registers, births and steps; and unless the end is a bad free or an escape, the machine counts the pointers to each object that
/// are in slots of objects that are not dead and in registers that are live behind a call that waits. [`Machine::leak`] tells which
/// objects of the heap are left then. A machine that has ended answers the same end again, and touches nothing.
pub fn execute<I: Source, O: Sink>(
    machine: &mut Machine,
    code: &Code,
    input: &mut I,
    out: &mut O,
    budget: u64,
) -> End
    requires formed { IsWellFormed code.now }
    requires bytes { HoldsBytes code.now }
    requires loaded { IsOf code.now machine.old }
    requires budget { budget ≤ 1000000000 }
    requires input { I.faults input.old + 1 < 2 ^ 64 }
    requires out { O.faults out.old + 1 < 2 ^ 64 }
    ensures told { AnswersCore code.now machine.old budget (I.left input.old) (O.taken out.old) result (I.left input.new) (O.taken out.new) }
    ensures made { MakesStepsOfCore code.now machine.old budget (I.left input.old) (O.taken out.old) result (steps_made machine.new) }
    ensures kept { machine.old.ended ≡ None → KeepsSome machine.new.kept.memory }
    ensures left { LeavesImageOfCore code.now machine.old budget (I.left input.old) (O.taken out.old) result machine.new.kept }
    ensures faults { machine.old.ended ≡ None → RunCounts result (I.faults input.old) (I.faults input.new) (O.faults out.old) (O.faults out.new) }
    ensures ends { machine.new.ended ≡ Some result }
    ensures loaded { IsOf code.now machine.new }
    ensures again { IfSome machine.old.ended (λ e. (result ≡ e) × (machine.new ≡ machine.old) × (input.new ≡ input.old) × (out.new ≡ out.old)) }
{
    code_means_core();
    counted_means_core();
    machine.run(code, input, out, budget)
}
