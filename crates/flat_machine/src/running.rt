//! Runs: one instruction after another, until the end.

ghost use Rattle.std.specs.Prelude.{◌≡◌, ◌+◌, ◌<◌, ◌≤◌, ◌^◌, [], ℕ, IfOk, IfErr};
ghost use Rattle.hs_base.specs.declared.ends.End.TheVariants as end;
ghost use Rattle.flat_code.specs.WellFormed.{IsWellFormed};
ghost use Rattle.meaning_laws.specs.code.Laws.{HoldsBytes};
ghost use Rattle.flat_machine.specs.Loaded.{IsLoaded};
ghost use Rattle.flat_machine.specs.Well.{IsWell};
ghost use Rattle.flat_machine.specs.First.{IsFirst};
ghost use Rattle.flat_machine.specs.Running.{RunCounts};
ghost use Rattle.flat_objects.specs.Leaks.{KeepsSome};
ghost use Rattle.flat_machine.specs.Consoles.{CountsRun};
ghost use Rattle.flat_machine.specs.Telling.{AnswersOn, AnswersRun, BeginsRun, EndsAtOnce, LeavesAtOnce, LeavesOn, LeavesRun, LeavesWhole, TellsRun};

use crate::console::{Console, Lent};
use crate::loaded::Loaded;
use crate::state::State;
use crate::steps::one_step;
use byte_memory::{CountRight, Steps};
use flat_code::Code;
use hs_base::{End, Sink, Source};
use meaning_laws::{run_begins_well, step_leaves_less, step_stays_good};
use std::marker::Brand;
use std::sync::ledger::{Blank, Ledger};

/// Makes instructions until the run ends: groups of them in one where that can be, and else one by one.
fn end_of_run<I: Source, O: Sink, K: Lent, L: Ledger>(
    state: &mut State,
    code: &Code,
    loaded: &Loaded,
    console: &mut Console<'_, '_, I, O, K>,
    steps: &mut Steps<L>,
) -> End
    requires formed { IsWellFormed code.now }
    requires loaded { IsLoaded code.now loaded.now }
    requires well { IsWell code.now state.old }
    requires input { I.faults console.old.input.now + 1 < 2 ^ 64 }
    requires out { O.faults console.old.out.now + 1 < 2 ^ 64 }
    ensures told { TellsRun code.now console.old console.new state.old result }
    ensures settled { result ≡ end.InputFault → console.new.page.notes ≡ [] }
    ensures kept { KeepsSome state.new.memory }
    ensures left { LeavesRun code.now console.old state.old state.new result }
    ensures faults { CountsRun console.old console.new result }
{
    step_stays_good();
    step_leaves_less();
    'instructions: loop {
        state.come_on(code, loaded, steps);
        match one_step(state, code, loaded, console, steps) {
            Ok(()) => {}
            Err(end) => return end,
        }
    }
}

/// Runs code from a state that its meaning comes to, with an input and an output that are lent, and hands those back.
fn run_lent<'i, 'o, I: Source, O: Sink, K: Lent, L: Ledger>(
    state: &mut State,
    code: &Code,
    loaded: &Loaded,
    input: &'i mut I,
    out: &'o mut O,
    steps: &mut Steps<L>,
) -> (&'i mut I, &'o mut O, End)
    requires formed { IsWellFormed code.now }
    requires loaded { IsLoaded code.now loaded.now }
    requires well { IsWell code.now state.old }
    requires input { I.faults input.old + 1 < 2 ^ 64 }
    requires out { O.faults out.old + 1 < 2 ^ 64 }
    requires same_input { input.ghost_name ≡ K.input_loan }
    requires same_out { out.ghost_name ≡ K.out_loan }
    requires lent_left { I.left input.old ≡ K.left }
    requires lent_taken { O.taken out.old ≡ K.taken }
    ensures input { result.0.ghost_name ≡ input.entry.ghost_name }
    ensures out { result.1.ghost_name ≡ out.entry.ghost_name }
    ensures told { AnswersOn code.now state.old (I.left input.old) (O.taken out.old) result.2 (I.left result.0.now) (O.taken result.1.now) }
    ensures kept { KeepsSome state.new.memory }
    ensures left { LeavesOn code.now state.old (I.left input.old) result.2 state.new }
    ensures faults { RunCounts result.2 (I.faults input.old) (I.faults result.0.now) (O.faults out.old) (O.faults result.1.now) }
{
    let mut console = Console::<I, O, K>::new(input, out);
    let stopped = end_of_run(state, code, loaded, &mut console, steps);
    let end = console.finish(stopped);
    let Console { input, out, .. } = console;
    (input, out, end)
}

/// The first instruction: calls main, if a step is left and the stack has room for it, and makes its memory locals.
fn begin<L: Ledger>(
    state: &mut State,
    code: &Code,
    loaded: &Loaded,
    stack: u32,
    steps: &mut Steps<L>,
) -> Result<(), End>
    requires formed { IsWellFormed code.now }
    requires bytes { HoldsBytes code.now }
    requires loaded { IsLoaded code.now loaded.now }
    requires first { IsFirst code.now stack state.old }
    requires budget { state.old.steps ≤ 1000000000 }
    ensures well { IfOk result (λ _. IsWell code.now state.new) }
    ensures room { IfOk result (λ _. state.new.calls.room ≡ stack) }
    ensures reaches { IfOk result (λ _. BeginsRun code.now state.old stack state.new) }
    ensures ends { IfErr result (EndsAtOnce code.now state.old stack) }
    ensures left { IfErr result (λ e. LeavesAtOnce code.now state.old stack e state.new) }
    ensures faults { IfErr result (λ e. (i o : ℕ) → RunCounts e i i o o) }
    ensures kept { IfErr result (λ _. KeepsSome state.new.memory) }
{
    run_begins_well();
    let func = state.func() as usize;
    let Some(line) = code.lines.get(0) else {
        unreachable!()
    };
    let Some(main) = code.funcs.get(func) else {
        unreachable!()
    };
    let Some(cost) = loaded.costs.get(func) else {
        unreachable!()
    };
    if !state.take_step() {
        return Err(End::Spent);
    }
    if *cost > u64::from(stack) {
        return Err(End::OutOfStack(*line));
    }
    state.all_fit();
    state.begin(main.first, *cost as u32);
    state.make_locals(code, main, steps);
    Ok(())
}

/// Runs code from its first instruction on, on a stack of so many bytes. All that the run does is counted by one counter.
pub(crate) fn whole_run<I: Source, O: Sink, L: Ledger>(
    state: &mut State,
    code: &Code,
    loaded: &Loaded,
    stack: u32,
    input: &mut I,
    out: &mut O,
    right: &CountRight,
    blank: Blank,
) -> End
    requires name { blank.name ≡ L.name }
    requires parts { blank.parts ≡ L.parts }
    requires some { 0 < blank.parts }
    requires formed { IsWellFormed code.now }
    requires bytes { HoldsBytes code.now }
    requires loaded { IsLoaded code.now loaded.now }
    requires first { IsFirst code.now stack state.old }
    requires budget { state.old.steps ≤ 1000000000 }
    requires input { I.faults input.old + 1 < 2 ^ 64 }
    requires out { O.faults out.old + 1 < 2 ^ 64 }
    ensures told { AnswersRun code.now state.old stack (I.left input.old) (O.taken out.old) result (I.left input.new) (O.taken out.new) }
    ensures kept { KeepsSome state.new.memory }
    ensures left { LeavesWhole code.now state.old stack (I.left input.old) (O.taken out.old) result state.new }
    ensures faults { RunCounts result (I.faults input.old) (I.faults input.new) (O.faults out.old) (O.faults out.new) }
{
    let mut steps = Steps::<L>::new(blank, right);
    match begin(state, code, loaded, stack, &mut steps) {
        Ok(()) => {
            let (_, _, end) = run_lent::<I, O, Brand, L>(
                state, code, loaded, input, out, &mut steps,
            );
            end
        }
        Err(end) => end,
    }
}
