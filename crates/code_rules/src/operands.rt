//! What is handed over and what is taken.

ghost use Rattle.std.specs.Prelude.{◌≡◌, ◌↔◌, ◌<◌, ◌≤◌, ◌+◌, ◌^◌, [], ◌∷◌, map, All, IfOk, IsTrue, slice_get};
ghost use Rattle.std.specs.List.{flat_map};
ghost use Rattle.core_tree.specs.Sorts.{Sort, lib_gives, lib_takes, piece_takes};
ghost use Rattle.core_tree.specs.Statements.{leads_to};
ghost use Rattle.flat_code.specs.Table.{all_there, call_takes, gives, handed_sort, hands, sort_of};
ghost use Rattle.flat_code.specs.WellFormed.{GivesTo, StartsAfresh, handed_before};
ghost use Rattle.code_rules.specs.Operands.{HasOperands, HasRegister, sort_told, sorts_told, TakesTold, FormatTakes};
ghost use Rattle.code_rules.specs.Deciding.{Decides};

use crate::flow::{hands, nothing_is_handed_before};
use crate::instrs::{chosen, edges, written};
use crate::rules::Rule;
use c_print::{FormatError, Piece, read_format};
use core_tree::{Edges, LibName};
use flat_code::{Code, Entry, Instr, Op};
use hs_base::NoMemory;
use std::alloc::Global;

/// An integer.
const INT: Option<bool> = Some(false);

/// A pointer.
const PTR: Option<bool> = Some(true);

/// Whether what an instruction hands over is a pointer, where what it names is there.
fn handed_sort(code: &Code, entry: &Entry, instr: Instr) -> Option<bool>
    ensures { sort_told result ≡ handed_sort code.now entry.now instr instr.op }
{
    match instr.op {
        Op::HandReg => entry.kinds.get(instr.a as usize).copied(),
        Op::HandInt | Op::HandUnsigned => Some(false),
        Op::HandNull => Some(true),
        Op::HandStatic => code.statics.get(instr.a as usize).map(|_| true),
        Op::HandLocal => entry.mems.get(instr.a as usize).map(|_| true),
        _ => None,
    }
}

/// Where the instructions begin that hand over directly before an instruction.
fn group_start(code: &Code, entry: &Entry, point: usize) -> usize
    ensures before { result ≤ point }
    ensures first { handed_before code.now entry.now result ≡ [] }
{
    let mut first = point;
    while !nothing_is_handed_before(code, entry, first) {
        first -= 1;
    }
    first
}

/// What is handed over directly before an instruction, in order.
pub(crate) fn handed_before(
    alloc: Global,
    code: &Code,
    entry: &Entry,
    point: usize,
) -> Result<Vec<Option<bool>>, NoMemory>
    ensures { IfOk result (λ told. sorts_told told.items ≡ handed_before code.now entry.now point) }
{
    let mut told = Vec::new(alloc);
    for place in group_start(code, entry, point)..point {
        match code.instrs.get(place) {
            Some(instr) if hands(instr.op) => told.push(handed_sort(code, entry, *instr))?,
            _ => told.clear(),
        }
    }
    Ok(told)
}

/// Says whether sorts are the same.
fn are_sorts(told: &[Option<bool>], expected: &[Option<bool>]) -> bool
    ensures { IsTrue result ↔ (sorts_told told.now ≡ sorts_told expected.now) }
{
    told == expected
}

/// The sorts of registers.
fn register_sorts(alloc: Global, kinds: &[bool]) -> Result<Vec<Option<bool>>, NoMemory>
    ensures { IfOk result (λ told. sorts_told told.items ≡ all_there (map sort_of kinds.now)) }
{
    let mut told = Vec::new(alloc);
    for kind in kinds {
        told.push(Some(*kind))?;
    }
    Ok(told)
}

/// The sorts of a function's parameters.
fn parameter_sorts(alloc: Global, code: &Code, function: u32) -> Result<Vec<Option<bool>>, NoMemory>
    ensures { IfOk result (λ told. sorts_told told.items ≡ all_there (call_takes (slice_get code.now.funcs function))) }
{
    match code.funcs.get(function as usize) {
        Some(callee) => {
            let kinds = callee.kinds.as_slice();
            let count = kinds.len().min(callee.params as usize);
            register_sorts(alloc, &kinds[..count])
        }
        None => Ok(Vec::new(alloc)),
    }
}

/// Says whether a built-in function takes what is handed over.
fn lib_takes_handed(name: LibName, told: &[Option<bool>]) -> bool
    ensures { IsTrue result ↔ (sorts_told told.now ≡ all_there (lib_takes name)) }
{
    match name {
        LibName::Exit | LibName::Putchar => are_sorts(told, &[INT]),
        LibName::Abort | LibName::Getchar => are_sorts(told, &[]),
        LibName::Memcpy | LibName::Memmove => are_sorts(told, &[PTR, PTR, INT]),
        LibName::Memset => are_sorts(told, &[PTR, INT, INT]),
        LibName::Strlen | LibName::Puts => are_sorts(told, &[PTR]),
        LibName::Strcmp => are_sorts(told, &[PTR, PTR]),
    }
}

/// The sorts that the pieces of a format take.
fn piece_sorts(alloc: Global, pieces: &[Piece]) -> Result<Vec<Option<bool>>, NoMemory>
    ensures { IfOk result (λ told. sorts_told told.items ≡ all_there (flat_map piece_takes pieces.now)) }
{
    let mut told = Vec::new(alloc);
    for piece in pieces {
        match piece {
            Piece::Plain(_) => (),
            Piece::Item { conv, .. } => told.push(Some(*conv == b's'))?,
        }
    }
    Ok(told)
}

/// What an operation gives: whether it is a pointer, where the operation has a result.
fn gives(entry: &Entry, instr: Instr) -> Option<bool>
    ensures { sort_told result ≡ gives entry.now instr instr.op }
{
    match instr.op {
        Op::Set => entry.kinds.get(instr.a as usize).copied(),
        Op::Conv(_)
        | Op::Un(_, _)
        | Op::Bin(_, _)
        | Op::Cmp(_)
        | Op::Diff
        | Op::Pcmp(_)
        | Op::Test
        | Op::Load(_)
        | Op::Printf => INT,
        Op::Add | Op::Sub | Op::Loadp | Op::Malloc | Op::Calloc | Op::Realloc => PTR,
        Op::Lib(name) => lib_gives(name),
        _ => None,
    }
}

/// What a built-in function gives.
fn lib_gives(name: LibName) -> Option<bool>
    ensures { sort_told result ≡ lib_gives name }
{
    match name {
        LibName::Exit | LibName::Abort => None,
        LibName::Memcpy | LibName::Memmove | LibName::Memset => PTR,
        LibName::Strlen | LibName::Strcmp | LibName::Getchar | LibName::Putchar | LibName::Puts =>
            INT,
    }
}

/// Says whether a register that takes a result is there and of its sort, if one takes it.
pub(crate) fn gives_to(entry: &Entry, told: Option<bool>, register: Option<u32>) -> bool
    ensures { IsTrue result ↔ GivesTo entry.now (sort_told told) register }
{
    match (told, register) {
        (_, None) => true,
        (None, Some(_)) => false,
        (Some(is_pointer), Some(register)) => match entry.kinds.get(register as usize) {
            Some(kind) => *kind == is_pointer,
            None => false,
        },
    }
}

/// Says whether the register of a result is there, and of its sort where it is no call's.
fn has_register(entry: &Entry, instr: Instr) -> bool
    ensures { IsTrue result ↔ HasRegister entry.now instr instr.op }
{
    match instr.op {
        Op::Call => match chosen(instr) {
            Some(register) => (register as usize) < entry.kinds.len(),
            None => true,
        },
        _ => gives_to(entry, gives(entry, instr), written(instr)),
    }
}

/// Says whether an operation takes what is handed over, and whether a format that it names is one.
fn takes_handed(
    alloc: Global,
    code: &Code,
    entry: &Entry,
    instr: Instr,
    told: &[Option<bool>],
) -> Result<bool, NoMemory>
    ensures { Decides (TakesTold code.now entry.now instr told.now) result }
{
    Ok(match instr.op {
        Op::Set => are_sorts(told, &[entry.kinds.get(instr.a as usize).copied()]),
        Op::Conv(_) | Op::Un(_, _) | Op::Zero | Op::Malloc => are_sorts(told, &[INT]),
        Op::Bin(_, _) | Op::Cmp(_) | Op::Case | Op::Calloc => are_sorts(told, &[INT, INT]),
        Op::Add | Op::Sub | Op::Store(_) | Op::Clear | Op::Realloc => are_sorts(told, &[PTR, INT]),
        Op::Diff | Op::Pcmp(_) | Op::Storep => are_sorts(told, &[PTR, PTR]),
        Op::Test | Op::Load(_) | Op::Loadp | Op::Free => are_sorts(told, &[PTR]),
        Op::Copy => are_sorts(told, &[PTR, PTR, INT]),
        Op::Call => are_sorts(told, &parameter_sorts(alloc, code, instr.b)?),
        Op::Lib(name) => lib_takes_handed(name, told),
        Op::Printf => return format_takes_handed(alloc, code, instr.b, told),
        Op::Give => gives_handed(told),
        _ => are_sorts(told, &[]),
    })
}

/// Says whether one value of either sort is handed over.
fn gives_handed(told: &[Option<bool>]) -> bool
    ensures { IsTrue result ↔ ((sort : Sort) × (sorts_told told.now ≡ Some sort ∷ [])) }
{
    are_sorts(told, &[INT]) | are_sorts(told, &[PTR])
}

/// Says whether a format that is named is one, and takes what is handed over.
fn format_takes_handed(
    alloc: Global,
    code: &Code,
    format: u32,
    told: &[Option<bool>],
) -> Result<bool, NoMemory>
    ensures { Decides (FormatTakes (slice_get code.now.formats format) told.now) result }
{
    let Some(bytes) = code.formats.get(format as usize) else {
        return Ok(told.is_empty());
    };
    match read_format(alloc, bytes.as_slice()) {
        Ok(pieces) => Ok(are_sorts(told, &piece_sorts(alloc, pieces.as_slice())?)),
        Err(FormatError::Bad) => Ok(false),
        Err(FormatError::NoMemory) => Err(NoMemory),
    }
}

/// What an instruction hands over or takes is there.
pub(crate) struct Operands;

impl Rule for Operands {
    ghost holds = { λ rule code f entry point i. HasOperands code entry point i };

    ghost suits = { λ _ _. Unit {0} };

    fn check(
        &self,
        alloc: Global,
        code: &Code,
        _function: usize,
        entry: &Entry,
        point: usize,
        instr: Instr,
    ) -> Result<bool, NoMemory> {
        if hands(instr.op) {
            return Ok(handed_sort(code, entry, instr).is_some());
        }
        let told = handed_before(alloc, code, entry, point)?;
        takes_handed(alloc, code, entry, instr, &told)
    }
}

/// The register of a result is there.
pub(crate) struct Registers;

impl Rule for Registers {
    ghost holds = { λ rule code f entry point i. HasRegister entry i i.op };

    ghost suits = { λ _ _. Unit {0} };

    fn check(
        &self,
        _alloc: Global,
        _code: &Code,
        _function: usize,
        entry: &Entry,
        _point: usize,
        instr: Instr,
    ) -> Result<bool, NoMemory> {
        Ok(has_register(entry, instr))
    }
}

/// Says whether nothing is handed over where the run may go from an instruction.
fn lead_to_afresh(code: &Code, entry: &Entry, edges: Edges, point: usize) -> bool
    requires { point + 1 < 2 ^ 64 }
    ensures { IsTrue result ↔ All (λ next. handed_before code.now entry.now next ≡ []) (leads_to edges point) }
{
    let on = !edges.next || nothing_is_handed_before(code, entry, point + 1);
    let away = match edges.target {
        Some(target) => nothing_is_handed_before(code, entry, target as usize),
        None => true,
    };
    on && away
}

/// The run does not go between what is handed over and what takes it.
pub(crate) struct Afresh;

impl Rule for Afresh {
    ghost holds = { λ rule code f entry point i. StartsAfresh code entry point i (hands i.op) };

    ghost suits = { λ _ _. Unit {0} };

    fn check(
        &self,
        _alloc: Global,
        code: &Code,
        _function: usize,
        entry: &Entry,
        point: usize,
        instr: Instr,
    ) -> Result<bool, NoMemory> {
        Ok(hands(instr.op) || lead_to_afresh(code, entry, edges(instr), point))
    }
}
