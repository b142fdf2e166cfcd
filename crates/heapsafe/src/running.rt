//! Running a core: on a machine, or by the evaluator of its meaning; and running the code of a file.
//!
//! What both do is known where the input and the output tell their bytes. The output is lent to them by way of [`Told`], so that
//! it is known for every output.

ghost use Rattle.std.specs.Prelude.{◌≡◌, ◌+◌, ◌<◌, ◌≤◌, ◌^◌, None, IfOk, OnErr};
ghost use Rattle.meaning_laws.specs.code.Laws.{HoldsBytes};
ghost use Rattle.core_tree.specs.Sound.{IsSound};
ghost use Rattle.flat_code.specs.WellFormed.{IsWellFormed};
ghost use Rattle.flat_machine.specs.Machined.{IsOf};
ghost use Rattle.flat_objects.specs.Leaks.{KeepsSome};
ghost use Rattle.heapsafe.specs.Running.{Counts, CountsMeant, CountsRun, MeansCore, RunsAsCore, RunsCode, RunsCore, room_of};

use crate::lent::{Lent, Told};
use core_tree::Core;
use count_insertion::{insert, listed_pins_are_exact, live_tables};
use flat_code::Code;
use flat_codegen::{compile, execute};
use flat_machine::Machine;
use hs_base::{End, Limits, NoMemory, Sink, Source};
use meaning_run::mean;
use std::alloc::Global;
use std::marker::Brand;

/// Runs a machine that was just loaded, with any output, which is handed back.
fn execute_lent<'a, I: Source, O: Sink, K: Lent>(
    machine: &mut Machine,
    code: &Code,
    steps: u64,
    input: &mut I,
    out: &'a mut O,
) -> (&'a mut O, End)
    requires formed { IsWellFormed code.now }
    requires bytes { HoldsBytes code.now }
    requires loaded { IsOf code.now machine.old }
    requires fresh { machine.old.ended ≡ None }
    requires steps { steps ≤ 1000000000 }
    requires input { I.faults input.old + 1 < 2 ^ 64 }
    requires out { O.faults out.old + 1 < 2 ^ 64 }
    requires same_loan { out.ghost_name ≡ K.name }
    requires taken { O.taken out.old ≡ K.taken }
    ensures same_reference { result.0.ghost_name ≡ out.entry.ghost_name }
    ensures ran { RunsAsCore code.now steps machine.old result.1 machine.new (I.left input.old)
        (I.left input.new) (O.taken out.old) (O.taken result.0.now) }
    ensures kept { KeepsSome machine.new.kept.memory }
    ensures faults { Counts I.faults O.faults result.1 input.old input.new out.old result.0.now }
{
    let mut told = Told::<O, K>::new(out);
    let end = execute(machine, code, input, &mut told, steps);
    let Told { sink, .. } = told;
    (sink, end)
}

/// Finds where the pointers of a core count, makes its code, loads it, and runs it: its end, and the machine behind it, which
/// tells its steps and, behind an exit, its leaks. The image of the machine agrees with the last state of the core's cut run.
/// Memory may be wanted before the first instruction alone: then the input and the output are as before.
pub(crate) fn run_code<I: Source, O: Sink>(
    alloc: Global,
    core: &Core,
    limits: Limits,
    steps: u64,
    input: &mut I,
    out: &mut O,
) -> Result<(End, Machine), NoMemory>
    requires sound { IsSound core.now }
    requires heap { limits.heap ≤ 268435456 }
    requires stack { limits.stack ≤ 67108864 }
    requires steps { steps ≤ 1000000000 }
    requires input { I.faults input.old + 1 < 2 ^ 64 }
    requires out { O.faults out.old + 1 < 2 ^ 64 }
    ensures ran { IfOk result (λ r. RunsCore core.now limits steps r.0 r.1 (I.left input.old)
        (I.left input.new) (O.taken out.old) (O.taken out.new)) }
    ensures kept { IfOk result (λ r. KeepsSome r.1.kept.memory) }
    ensures faults { IfOk result (CountsRun I.faults O.faults input.old input.new out.old out.new) }
    ensures input_stays { OnErr result (input.new ≡ input.old) }
    ensures out_stays { OnErr result (out.new ≡ out.old) }
{
    listed_pins_are_exact();
    let live = live_tables(alloc, core)?;
    let counted = insert(alloc, core, &live)?;
    let code = compile(alloc, &counted)?;
    let mut machine = Machine::load(alloc, &code, limits)?;
    let (_, end) = execute_lent::<I, O, Brand>(&mut machine, &code, steps, input, out);
    Ok((end, machine))
}

/// Does as [`run_file`] says on a machine that was just loaded, with any output, which is handed back.
fn run_lent<'a, I: Source, O: Sink, K: Lent>(
    machine: &mut Machine,
    code: &Code,
    steps: u64,
    input: &mut I,
    out: &'a mut O,
) -> (&'a mut O, End)
    requires formed { IsWellFormed code.now }
    requires bytes { HoldsBytes code.now }
    requires loaded { IsOf code.now machine.old }
    requires fresh { machine.old.ended ≡ None }
    requires steps { steps ≤ 1000000000 }
    requires input { I.faults input.old + 1 < 2 ^ 64 }
    requires out { O.faults out.old + 1 < 2 ^ 64 }
    requires same_loan { out.ghost_name ≡ K.name }
    requires taken { O.taken out.old ≡ K.taken }
    ensures same_reference { result.0.ghost_name ≡ out.entry.ghost_name }
    ensures ran { RunsCode code.now (room_of machine.old) steps result.1 machine.new (I.left input.old)
        (I.left input.new) (O.taken out.old) (O.taken result.0.now) }
    ensures kept { KeepsSome machine.new.kept.memory }
    ensures faults { Counts I.faults O.faults result.1 input.old input.new out.old result.0.now }
{
    let mut told = Told::<O, K>::new(out);
    let end = machine.run(code, input, &mut told, steps);
    let Told { sink, .. } = told;
    (sink, end)
}

/// Loads code that is well formed and runs it: its end, and the machine behind it, which behind an exit tells its leaks. The image
/// of the machine agrees with the last state of the code's run. Memory may be wanted before the first instruction alone: then the
/// input and the output are as before.
pub(crate) fn run_file<I: Source, O: Sink>(
    alloc: Global,
    code: &Code,
    limits: Limits,
    steps: u64,
    input: &mut I,
    out: &mut O,
) -> Result<(End, Machine), NoMemory>
    requires formed { IsWellFormed code.now }
    requires bytes { HoldsBytes code.now }
    requires heap { limits.heap ≤ 268435456 }
    requires stack { limits.stack ≤ 67108864 }
    requires steps { steps ≤ 1000000000 }
    requires input { I.faults input.old + 1 < 2 ^ 64 }
    requires out { O.faults out.old + 1 < 2 ^ 64 }
    ensures ran { IfOk result (λ r. RunsCode code.now limits steps r.0 r.1 (I.left input.old)
        (I.left input.new) (O.taken out.old) (O.taken out.new)) }
    ensures kept { IfOk result (λ r. KeepsSome r.1.kept.memory) }
    ensures faults { IfOk result (CountsRun I.faults O.faults input.old input.new out.old out.new) }
    ensures input_stays { OnErr result (input.new ≡ input.old) }
    ensures out_stays { OnErr result (out.new ≡ out.old) }
{
    let mut machine = Machine::load(alloc, code, limits)?;
    let (_, end) = run_lent::<I, O, Brand>(&mut machine, code, steps, input, out);
    Ok((end, machine))
}

/// Does as [`evaluate`] says, with any output, which is handed back.
fn mean_lent<'a, I: Source, O: Sink, K: Lent>(
    alloc: Global,
    core: &Core,
    steps: u64,
    heap: u32,
    input: &mut I,
    out: &'a mut O,
) -> (&'a mut O, Result<End, NoMemory>)
    requires sound { IsSound core.now }
    requires steps { steps ≤ 1000000000 }
    requires input { I.faults input.old + 1 < 2 ^ 64 }
    requires out { O.faults out.old + 1 < 2 ^ 64 }
    requires same_loan { out.ghost_name ≡ K.name }
    requires taken { O.taken out.old ≡ K.taken }
    ensures same_reference { result.0.ghost_name ≡ out.entry.ghost_name }
    ensures told { MeansCore core.now steps heap result.1 (I.left input.old) (I.left input.new)
        (O.taken out.old) (O.taken result.0.now) }
    ensures faults { CountsMeant I.faults O.faults result.1 input.old input.new out.old result.0.now }
{
    let mut told = Told::<O, K>::new(out);
    let ended = mean(alloc, core, input, &mut told, steps, heap);
    let Told { sink, .. } = told;
    (sink, ended)
}

/// Evaluates the meaning of a core in a heap of so many bytes; it knows no limit of stack. It answers its end. Memory may be
/// wanted at any time.
pub(crate) fn evaluate<I: Source, O: Sink>(
    alloc: Global,
    core: &Core,
    steps: u64,
    heap: u32,
    input: &mut I,
    out: &mut O,
) -> Result<End, NoMemory>
    requires sound { IsSound core.now }
    requires steps { steps ≤ 1000000000 }
    requires input { I.faults input.old + 1 < 2 ^ 64 }
    requires out { O.faults out.old + 1 < 2 ^ 64 }
    ensures told { MeansCore core.now steps heap result (I.left input.old) (I.left input.new)
        (O.taken out.old) (O.taken out.new) }
    ensures faults { CountsMeant I.faults O.faults result input.old input.new out.old out.new }
{
    let (_, ended) = mean_lent::<I, O, Brand>(alloc, core, steps, heap, input, out);
    ended
}
