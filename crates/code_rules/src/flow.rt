//! Where the run goes on: the rules of edges, and of what instructions name.

ghost use Rattle.std.specs.Prelude.{◌≡◌, ◌↔◌, ◌<◌, ◌≤◌, ◌+◌, ◌^◌, ℕ, [], All, IsTrue};
ghost use Rattle.core_tree.specs.Statements.{leads_to};
ghost use Rattle.flat_code.specs.Table.{edges, hands};
ghost use Rattle.flat_code.specs.WellFormed.{IsElement, IsElementSize, LeadsOn, NamesWhatIsThere, end_of, handed_before};

use crate::instrs::edges;
use crate::rules::{Rule, end_of};
use core_tree::Edges;
use flat_code::{Code, Entry, Instr, Op};
use hs_base::NoMemory;
use std::alloc::Global;

/// Says whether edges lead only to instructions in a range.
fn lead_into(edges: Edges, point: usize, first: usize, end: usize) -> bool
    requires { point + 1 < 2 ^ 64 }
    ensures { IsTrue result ↔ All (λ next. (first ≤ next) × (next < end)) (leads_to edges point) }
{
    let on = !edges.next || (first <= point + 1 && point + 1 < end);
    let away = match edges.target {
        Some(target) => first <= target as usize && (target as usize) < end,
        None => true,
    };
    on && away
}

/// Says whether edges lead only to later instructions.
fn lead_on(edges: Edges, point: usize) -> bool
    requires { point + 1 < 2 ^ 64 }
    ensures { IsTrue result ↔ All (λ next. point < next) (leads_to edges point) }
{
    match edges.target {
        Some(target) => point < target as usize,
        None => true,
    }
}

/// The run does not leave the function.
pub(crate) struct Inside;

impl Rule for Inside {
    ghost holds = { λ rule code f entry point i. All (λ next. (entry.first ≤ next) × (next < end_of code f)) (edges i i.op point) };

    ghost suits = { λ _ _. Unit {0} };

    fn check(
        &self,
        _alloc: Global,
        code: &Code,
        function: usize,
        entry: &Entry,
        point: usize,
        instr: Instr,
    ) -> Result<bool, NoMemory> {
        Ok(lead_into(
            edges(instr),
            point,
            entry.first as usize,
            end_of(code, function),
        ))
    }
}

/// Only a loop goes back.
pub(crate) struct Ahead;

impl Rule for Ahead {
    ghost holds = { λ rule code f entry point i. LeadsOn point i i.op };

    ghost suits = { λ _ _. Unit {0} };

    fn check(
        &self,
        _alloc: Global,
        _code: &Code,
        _function: usize,
        _entry: &Entry,
        point: usize,
        instr: Instr,
    ) -> Result<bool, NoMemory> {
        Ok(match instr.op {
            Op::Loop => true,
            _ => lead_on(edges(instr), point),
        })
    }
}

/// Says whether the elements of a layout have a size.
fn is_element(code: &Code, layout: u32) -> bool
    ensures { IsTrue result ↔ IsElement code.now layout }
{
    match code.layouts.get(layout as usize) {
        Some(layout) => layout.size >= 1,
        None => false,
    }
}

/// Says whether a number is a size by which pointers are moved and subtracted.
fn is_element_size(size: i64) -> bool
    ensures { IsTrue result ↔ IsElementSize size }
{
    size >= 1 && size <= 268_435_456
}

/// Says whether what an instruction names beside registers is there, and its numbers are in range.
pub fn names_what_is_there(code: &Code, instr: Instr) -> bool
    ensures { IsTrue result ↔ NamesWhatIsThere code.now instr instr.op }
{
    match instr.op {
        Op::Start => false,
        Op::Add | Op::Sub | Op::Diff => is_element_size(instr.imm),
        Op::Call => code.funcs.get(instr.b as usize).is_some(),
        Op::Malloc | Op::Calloc | Op::Realloc => is_element(code, instr.b),
        Op::Printf => code.formats.get(instr.b as usize).is_some(),
        _ => true,
    }
}

/// What an instruction names is there.
pub(crate) struct Names;

impl Rule for Names {
    ghost holds = { λ rule code f entry point i. NamesWhatIsThere code i i.op };

    ghost suits = { λ _ _. Unit {0} };

    fn check(
        &self,
        _alloc: Global,
        code: &Code,
        _function: usize,
        _entry: &Entry,
        _point: usize,
        instr: Instr,
    ) -> Result<bool, NoMemory> {
        Ok(names_what_is_there(code, instr))
    }
}

/// Says whether an operation hands a value over.
pub(crate) fn hands(op: Op) -> bool
    ensures { result ≡ hands op }
{
    match op {
        Op::HandReg
        | Op::HandInt
        | Op::HandUnsigned
        | Op::HandNull
        | Op::HandStatic
        | Op::HandLocal => true,
        _ => false,
    }
}

/// Says whether nothing is handed over directly before an instruction.
pub(crate) fn nothing_is_handed_before(code: &Code, entry: &Entry, point: usize) -> bool
    ensures { IsTrue result ↔ (handed_before code.now entry.now point ≡ []) }
{
    if point == 0 {
        return true;
    }
    match code.instrs.get(point - 1) {
        Some(instr) => !hands(instr.op),
        None => true,
    }
}
