//! One instruction.

ghost use Rattle.std.specs.Prelude.{◌≡◌, ◌+◌, ◌-◌, ◌<◌, ◌<ℤ◌, ◌^◌, [], ℕ, pos, IfErr, slice_index_or};
ghost use Rattle.hs_base.specs.declared.ends.End.TheVariants as end;
ghost use Rattle.flat_code.specs.WellFormed.{IsWellFormed};
ghost use Rattle.flat_code.specs.declared.instructions.Op.TheVariants as ops;
ghost use Rattle.flat_objects.specs.Keeping.{IsKept};
ghost use Rattle.object_meaning.specs.objects.Values.{bytes_in};
ghost use Rattle.flat_machine.specs.Words.{address_at, no_word, integer_at};
ghost use Rattle.flat_machine.specs.Groups.{IsHanding, IsMemory, IsPointers, IsMaking, IsRanges, IsAlone};
ghost use Rattle.flat_machine.specs.Growing.{IsBefore};
ghost use Rattle.flat_machine.specs.Loaded.{HasPins, IsLoaded};
ghost use Rattle.flat_machine.specs.Pinning.{IsReturning, IsStanding};
ghost use Rattle.flat_machine.specs.Well.{IsWell};
ghost use Rattle.flat_machine.specs.Leading.{WaitsAtCall, HasAllLocals, MayHand, MayMake, MayCall};
ghost use Rattle.flat_machine.specs.Consoles.{CountsStep};
ghost use Rattle.flat_machine.specs.Instructions.{CallsStep, StepsAlone, StopsAtCallStep, StopsAtStep};
ghost use Rattle.flat_machine.specs.Telling.{MovesStep, StopsAfter, TellsStep};
ghost use Rattle.flat_machine.specs.StateMemory.{KeepsHanded};

use crate::calling::chosen;
use crate::console::{Console, Lent};
use crate::loaded::Loaded;
use crate::packed::PackedWord;
use crate::state::State;
use byte_memory::Steps;
use c_print::Piece;
use flat_code::{Code, Instr, Op};
use hs_base::{End, IntKind, Items, Line, Sink, Source};
use meaning_laws::running_pins_are_fresh;
use std::sync::ledger::Ledger;

/// The pieces at a place, and none where there are none.
fn pieces_at(formats: &[Items<Piece>], k: u32) -> &[Piece]
    ensures { result.now ≡ slice_index_or formats.now k [] }
{
    let k = k as usize;
    if k < formats.len() {
        formats[k].as_slice()
    } else {
        &[]
    }
}

/// Calls a function.
fn call<L: Ledger>(
    state: &mut State,
    code: &Code,
    loaded: &Loaded,
    line: Line,
    instr: Instr,
    steps: &mut Steps<L>,
) -> Result<(), End>
    requires point { state.old.calls.running.point + 1 < 2 ^ 64 }
    requires formed { IsWellFormed code.now }
    requires loaded { IsLoaded code.now loaded.now }
    requires may { MayCall code.now instr state.old }
    requires standing { IsStanding state.old }
    ensures alone { CallsStep code.now state.old state.new line instr result }
    ensures image { StopsAtCallStep code.now state.old state.new line instr result }
{
    let f = instr.b as usize;
    let Some(callee) = code.funcs.get(f) else {
        unreachable!()
    };
    let Some(cost) = loaded.costs.get(f) else {
        unreachable!()
    };
    state.act_call(code, line, instr, callee, *cost, steps)
}

/// An instruction that neither writes nor reads a byte.
fn act_alone<L: Ledger>(
    state: &mut State,
    code: &Code,
    loaded: &Loaded,
    line: Line,
    instr: Instr,
    op: Op,
    steps: &mut Steps<L>,
) -> Result<(), End>
    requires point { state.old.calls.running.point + 1 < 2 ^ 64 }
    requires formed { IsWellFormed code.now }
    requires alone { IsAlone op }
    requires loaded { IsLoaded code.now loaded.now }
    requires hands { IsHanding op → MayHand instr op state.old }
    requires kept { IsMemory op → IsKept state.old.memory (address_at state.old.handed 0) }
    requires pointers { IsPointers op → KeepsHanded state.old }
    requires element { op ≡ ops.Diff → pos 0 <ℤ instr.imm }
    requires makes { IsMaking op → MayMake code.now instr state.old }
    requires grows { op ≡ ops.Realloc → MayMake code.now instr state.old }
    requires small { IsRanges op → (k : ℕ) → bytes_in (integer_at state.old.handed k) < 2 ^ 64 }
    requires may { op ≡ ops.Call → MayCall code.now instr state.old }
    requires waits { WaitsAtCall code.now state.old.calls.waiting }
    requires locals { HasAllLocals code.now state.old.calls }
    requires standing { IsBefore instr op state.old }
    requires returns { op ≡ ops.Return → IsReturning state.old no_word }
    requires gives { op ≡ ops.Give → IsReturning state.old (slice_index_or state.old.handed 0 no_word) }
    requires pins { HasPins code.now state.old.pins }
    requires deep { state.old.memory.scopes.depth < 2 ^ 64 - 1 }
    requires open { op ≡ ops.Leave → 0 < state.old.memory.scopes.depth }
    ensures alone { StepsAlone code.now state.old state.new line instr op result }
    ensures image { StopsAtStep code.now state.old state.new line instr op result }
{
    match op {
        Op::HandReg
        | Op::HandInt
        | Op::HandUnsigned
        | Op::HandNull
        | Op::HandStatic
        | Op::HandLocal => {
            state.act_hand(instr, op);
            Ok(())
        }
        Op::Set | Op::Conv(..) | Op::Un(..) | Op::Bin(..) | Op::Cmp(..) | Op::Test => {
            state.act_values(line, instr, op)
        }
        Op::Jump | Op::Zero | Op::Case | Op::Loop => state.act_jump(line, instr, op),
        Op::Load(..) | Op::Loadp | Op::Store(..) | Op::Storep => {
            state.act_memory(line, instr, op, steps)
        }
        Op::Add | Op::Sub | Op::Diff | Op::Pcmp(..) => state.act_pointers(line, instr, op, steps),
        Op::Copy | Op::Clear => state.act_ranges(line, op, steps),
        Op::Malloc | Op::Calloc => {
            state.act_making(line, instr, op, steps);
            Ok(())
        }
        Op::Realloc => state.act_growing(line, instr, steps),
        Op::Free | Op::Enter | Op::Leave => state.act_freeing(line, instr, op, steps),
        Op::Call => call(state, code, loaded, line, instr, steps),
        Op::Return => state.act_return(code, line, PackedWord::number(IntKind::I32, 0), steps),
        Op::Give => {
            let answer = state.word(0);
            state.act_return(code, line, answer, steps)
        }
        _ => unreachable!(),
    }
}

/// One instruction of well formed code.
pub(crate) fn one_step<I: Source, O: Sink, K: Lent, L: Ledger>(
    state: &mut State,
    code: &Code,
    loaded: &Loaded,
    console: &mut Console<'_, '_, I, O, K>,
    steps: &mut Steps<L>,
) -> Result<(), End>
    requires formed { IsWellFormed code.now }
    requires loaded { IsLoaded code.now loaded.now }
    requires well { IsWell code.now state.old }
    requires input { I.faults console.old.input.now + 1 < 2 ^ 64 }
    requires out { O.faults console.old.out.now + 1 < 2 ^ 64 }
    ensures told { TellsStep code.now console.old console.new state.old state.new result }
    ensures faults { CountsStep console.old console.new result }
    ensures settled { IfErr result (λ e. e ≡ end.InputFault → console.new.page.notes ≡ []) }
    ensures image { StopsAfter code.now state.old state.new result }
    ensures moves { MovesStep code.now state.old state.new result }
{
    running_pins_are_fresh();
    state.all_fit();
    let point = state.point();
    let Some(instr) = code.instrs.get(point) else {
        unreachable!()
    };
    let Some(line) = code.lines.get(point) else {
        unreachable!()
    };
    let instr = *instr;
    match instr.op {
        Op::Lib(name) => state.act_built_in(*line, name, chosen(instr), console, steps),
        Op::Printf => {
            let pieces = pieces_at(loaded.formats.as_slice(), instr.b);
            state.act_printf(*line, instr.a, pieces, console, steps)
        }
        op => act_alone(state, code, loaded, *line, instr, op, steps),
    }
}
