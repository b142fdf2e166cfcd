//! Runs: the first call of main, one statement after another, and the end.

ghost use Rattle.std.specs.Prelude.{◌≡◌, ◌≢◌, ◌+◌, ◌<◌, ◌≤◌, ◌^◌, ℕ, List, [], All, IfOk, Some};
ghost use Rattle.core_tree.specs.Sound.{IsSound, HasNumbers, element_layouts, is_main, main_of};
ghost use Rattle.object_meaning.specs.objects.Meaning.{act, step_by};
ghost use Rattle.meaning_laws.specs.objects.Good.{Good};
ghost use Rattle.meaning_state.specs.Fitting.{fits_in};
ghost use Rattle.meaning_state.specs.Making.{IsElement};
ghost use Rattle.meaning_run.specs.Leading.{AlonePlaced, Placed, Moves, Seen, Counted, with_input};
ghost use Rattle.meaning_run.specs.Groups.{IsAlone, IsOf};
ghost use Rattle.meaning_run.specs.Meant.{MeanAnswers, MeanCounts, HasNoLimit, Begins, answer_of};
ghost use Rattle.meaning_run.specs.Steps.{AnswersFrom, AnswersRun, Tells, MovesSomehow, Places, Acts, Counts, CountsRun, Holds};

use crate::halt::Halt;
use crate::machine::Machine;
use core_tree::{Core, Func, StmKind, layouts_of_types};
use hs_base::{End, Line, NoMemory, Sink, Source};
use meaning_laws::{
    core_begins_well, run_ends, statement_is_made, statement_leaves_less, statement_stays_good,
};
use meaning_state::HeldBlocks;
use std::alloc::Global;

/// Says whether a function is named main.
fn is_main(func: &Func) -> bool
    ensures { result ≡ is_main func.now }
{
    func.name.as_slice() == b"main".as_slice()
}

/// The number of the function named main.
fn main_of(core: &Core) -> usize
    ensures { result ≡ main_of core.now }
{
    let mut place = 0;
    for func in core.funcs.as_slice() {
        if is_main(func) {
            return place;
        }
        place += 1;
    }
    place
}

/// What a statement works on.
#[derive(Clone, Copy, Debug, PartialEq, Eq)]
enum Group {
    Values,
    Memory,
    Heap,
    Jump,
    Outside,
}

/// What a statement works on.
fn group_of(kind: &StmKind) -> Group
    ensures { IsOf result kind.now }
{
    match kind {
        StmKind::Set(..)
        | StmKind::Conv(..)
        | StmKind::Un(..)
        | StmKind::Bin(..)
        | StmKind::Cmp(..)
        | StmKind::Add(..)
        | StmKind::Sub(..)
        | StmKind::Off(..)
        | StmKind::Diff(..)
        | StmKind::Pcmp(..)
        | StmKind::Test(..) => Group::Values,
        StmKind::Load(..)
        | StmKind::Loadp(..)
        | StmKind::Store(..)
        | StmKind::Storep(..)
        | StmKind::Copy(..)
        | StmKind::Clear(..) => Group::Memory,
        StmKind::Malloc(..)
        | StmKind::Calloc(..)
        | StmKind::Realloc(..)
        | StmKind::Free(..)
        | StmKind::Enter
        | StmKind::Leave => Group::Heap,
        StmKind::Jump(..)
        | StmKind::Zero(..)
        | StmKind::Case(..)
        | StmKind::Loop(..)
        | StmKind::Call(..)
        | StmKind::Return(..) => Group::Jump,
        StmKind::Lib(..) | StmKind::Printf(..) => Group::Outside,
    }
}

/// A statement that calls no built-in function and no printf.
fn act_alone(
    machine: &mut Machine,
    alloc: Global,
    core: &Core,
    held: &mut HeldBlocks,
    line: Line,
    kind: &StmKind,
) -> Result<(), Halt>
    requires point { machine.old.running.point + 1 < 2 ^ 64 }
    requires alone { IsAlone kind.now }
    requires numbers { HasNumbers kind.now }
    requires elements { All IsElement (element_layouts kind.now) }
    ensures { Acts core.now line kind.now machine.old machine.new held.old held.new result }
{
    match group_of(kind) {
        Group::Values => machine.act_values(line, kind),
        Group::Memory => machine.act_memory(alloc, line, kind),
        Group::Heap => machine.act_heap(alloc, core, held, line, kind),
        Group::Jump => machine.act_jump(alloc, core, line, kind),
        Group::Outside => unreachable!(),
    }
}

/// One statement of a sound core.
fn one_step<I: Source, O: Sink>(
    machine: &mut Machine,
    alloc: Global,
    core: &Core,
    held: &mut HeldBlocks,
    input: &mut I,
    out: &mut O,
) -> Result<(), Halt>
    requires sound { IsSound core.now }
    requires good { Good core.now machine.old }
    requires input { I.faults input.old + 1 < 2 ^ 64 }
    requires out { O.faults out.old + 1 < 2 ^ 64 }
    ensures told { Tells (step_by core.now (fits_in held.old)) machine.old machine.new I.left input.old input.new O.taken out.old out.new result }
    ensures held { Holds (step_by core.now (fits_in held.old)) machine.old held.old held.new result }
    ensures faults { Counts result I.faults input.old input.new O.faults out.old out.new }
    ensures moves { MovesSomehow (λ _. step_by core.now (fits_in held.old)) machine.old machine.new result }
{
    layouts_of_types();
    statement_is_made();
    let Some(stm) = machine.statement(core) else {
        unreachable!()
    };
    match &stm.kind {
        StmKind::Lib(name, r, args) => {
            machine.act_lib(alloc, stm.line, *name, *r, args.as_slice(), input, out)
        }
        StmKind::Printf(r, k, args) => {
            machine.act_printf(alloc, core, stm.line, *r, *k, args.as_slice(), out)
        }
        kind => act_alone(machine, alloc, core, held, stm.line, kind),
    }
}

/// What an evaluation answers where the run stops.
fn answer(halt: Halt) -> Result<End, NoMemory>
    requires { halt ≢ Halt.Dangling }
    ensures { result ≡ answer_of halt }
{
    match halt {
        Halt::Exit(code) => Ok(End::Exit(code)),
        Halt::Trap(kind, line) => Ok(End::Trap(kind, line)),
        Halt::BadFree(why, holder) => Ok(End::BadFree(why, holder)),
        Halt::Escape { func, local, line } => Ok(End::Escape { func, local, line }),
        Halt::Spent => Ok(End::Spent),
        Halt::Dangling => unreachable!(),
        Halt::InputFault => Ok(End::InputFault),
        Halt::OutputFault => Ok(End::OutputFault),
        Halt::NoMemory => Err(NoMemory),
    }
}

/// Makes statements until the run ends.
fn end_of_run<I: Source, O: Sink>(
    machine: &mut Machine,
    alloc: Global,
    core: &Core,
    held: &mut HeldBlocks,
    input: &mut I,
    out: &mut O,
) -> Result<End, NoMemory>
    requires sound { IsSound core.now }
    requires good { Good core.now machine.old }
    requires none { held.old.blocks ≡ [] }
    requires input { I.faults input.old + 1 < 2 ^ 64 }
    requires out { O.faults out.old + 1 < 2 ^ 64 }
    ensures told { AnswersFrom core.now machine.old held.old.heap I.left input.old input.new O.taken out.old out.new result }
    ensures faults { CountsRun result I.faults input.old input.new O.faults out.old out.new }
    ensures limits { IfOk result HasNoLimit }
{
    statement_stays_good();
    statement_leaves_less();
    run_ends();
    'statements: loop {
        match one_step(machine, alloc, core, held, input, out) {
            Ok(()) => {}
            Err(halt) => return answer(halt),
        }
    }
}

/// Evaluates the object meaning of a sound core with at most so many steps, in a heap of so many bytes (C99 5.1.2.3). Where
/// input and output are told, it writes exactly the bytes of the meaning, takes exactly the bytes that the meaning reads,
/// and answers its end. All output is put before a byte of input is asked for and before the run ends. It ends by a fault
/// of the input or the output exactly where that object failed in this call. A call that finds no place in the heap answers
/// null (C99 7.20.3); there is no limit of stack; all pointers are read anew at each check. After want of memory the output
/// has a prefix.
pub fn mean<I: Source, O: Sink>(
    alloc: Global,
    core: &Core,
    input: &mut I,
    out: &mut O,
    budget: u64,
    heap: u32,
) -> Result<End, NoMemory>
    requires sound { IsSound core.now }
    requires budget { budget ≤ 1000000000 }
    requires input { I.faults input.old + 1 < 2 ^ 64 }
    requires out { O.faults out.old + 1 < 2 ^ 64 }
    ensures told { AnswersRun core.now budget heap I.left input.old input.new O.taken out.old out.new result }
    ensures faults { CountsRun result I.faults input.old input.new O.faults out.old out.new }
    ensures limits { IfOk result HasNoLimit }
{
    if budget == 0 {
        return Ok(End::Spent);
    }
    core_begins_well();
    let mut machine = Machine::start(alloc, core, main_of(core), budget - 1)?;
    let mut held = HeldBlocks::new(alloc, heap);
    end_of_run(&mut machine, alloc, core, &mut held, input, out)
}
