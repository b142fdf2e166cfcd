//! Operators on pointers, and on operands of any types (C99 6.5.2.3, 6.5.6, 6.5.8, 6.5.9, 6.5.16.2).

ghost use Rattle.std.specs.Prelude.{◌≡◌, IfOk};
ghost use Rattle.c_types.specs.Types.{plain};
ghost use Rattle.c_types.specs.TagTable.{members_in};
ghost use Rattle.c_decls.specs.Typed.{operand, plain_operand};
ghost use Rattle.elab_base.specs.Marks.{cut};
ghost use Rattle.elaboration.specs.Operations.{changed_to, offset_of, offset_among, member_address, working};
ghost use Rattle.elab_rules.specs.PlainWorking.{plain_working};
ghost use Rattle.elab_base.specs.Outcomes.{Emits};
ghost use Rattle.elab_rules.specs.Steps.{beside_integer, between_pointers, change, combine, move_pointer, pointer_beside};

use crate::integers::on_integers;
use crate::working::{Working, works};
use c_decls::{Operand, operand_of, result_type};
use c_tree::BinaryOp;
use c_types::{CType, Tags, member_named};
use core_tree::{Atom, StmKind};
use elab_base::{Elaborator, Mark};
use hs_base::{Line, NoMemory};

/// A pointer moved by an integer times the size of what it points to.
#[tactic(auto, unfolding(elaboration::specs::Operations::move_pointer))]
fn move_pointer(
    state: &mut Elaborator,
    line: Line,
    op: BinaryOp,
    target: &CType,
    pointer: Atom,
    number: Atom,
) -> Result<Atom, NoMemory>
    ensures { Emits state.new result (move_pointer line op target.now pointer number state.old) }
{
    let size = i128::from(state.size_or_zero(target)?);
    let to = state.take_pointer()?;
    let kind = match op {
        BinaryOp::Subtract => StmKind::Sub(to, pointer, number, size),
        _ => StmKind::Add(to, pointer, number, size),
    };
    state.emit(line, kind)?;
    Ok(Atom::Reg(to))
}

/// Two pointers: their difference, or a comparison.
fn between_pointers(
    state: &mut Elaborator,
    line: Line,
    working: Working,
    target: &CType,
    left: Atom,
    right: Atom,
) -> Result<Atom, NoMemory>
    ensures { Emits state.new result (between_pointers line working target.now left right state.old) }
{
    match working {
        Working::Compares(op) => {
            let to = state.take_integer()?;
            state.emit(line, StmKind::Pcmp(op, to, left, right))?;
            Ok(Atom::Reg(to))
        }
        Working::Calculates(_) | Working::Shifts(_) | Working::Branches => {
            let size = i128::from(state.size_or_zero(target)?);
            let to = state.take_integer()?;
            state.emit(line, StmKind::Diff(to, left, right, size))?;
            Ok(Atom::Reg(to))
        }
    }
}

/// A pointer and an integer: a comparison with a null pointer constant, whose code is forgotten, or a moved pointer.
fn pointer_beside(
    state: &mut Elaborator,
    line: Line,
    op: BinaryOp,
    before: Mark,
    target: &CType,
    pointer: Atom,
    number: Atom,
) -> Result<Atom, NoMemory>
    ensures { Emits state.new result (pointer_beside line op before target.now pointer number state.old) }
{
    match works(op) {
        Working::Compares(test) => {
            state.forget(before);
            let to = state.take_integer()?;
            state.emit(line, StmKind::Pcmp(test, to, pointer, Atom::Null))?;
            Ok(Atom::Reg(to))
        }
        Working::Calculates(_) | Working::Shifts(_) | Working::Branches => {
            move_pointer(state, line, op, target, pointer, number)
        }
    }
}

/// An integer and a pointer: a comparison of a null pointer constant, whose code is forgotten already, or a moved pointer.
fn beside_integer(
    state: &mut Elaborator,
    line: Line,
    op: BinaryOp,
    target: &CType,
    number: Atom,
    pointer: Atom,
) -> Result<Atom, NoMemory>
    ensures { Emits state.new result (beside_integer line op target.now number pointer state.old) }
{
    match works(op) {
        Working::Compares(test) => {
            let to = state.take_integer()?;
            state.emit(line, StmKind::Pcmp(test, to, Atom::Null, pointer))?;
            Ok(Atom::Reg(to))
        }
        Working::Calculates(_) | Working::Shifts(_) | Working::Branches => {
            move_pointer(state, line, op, target, pointer, number)
        }
    }
}

/// An operator between two values; the mark stands in front of the right one's code.
pub fn combined(
    state: &mut Elaborator,
    line: Line,
    op: BinaryOp,
    before: Mark,
    x_type: &CType,
    x: Atom,
    y_type: &CType,
    y: Atom,
) -> Result<Atom, NoMemory>
    ensures { Emits state.new result (combine line op before x_type.now y_type.now x y state.old) }
{
    match operand_of(x_type) {
        Operand::Number(left) => match operand_of(y_type) {
            Operand::Number(right) => on_integers(state, line, op, left, x, right, y),
            Operand::PointerTo(target) => beside_integer(state, line, op, target, x, y),
            Operand::Neither => Ok(x),
        },
        Operand::PointerTo(target) => match operand_of(y_type) {
            Operand::Number(_) => pointer_beside(state, line, op, before, target, x, y),
            Operand::PointerTo(_) => between_pointers(state, line, works(op), target, x, y),
            Operand::Neither => Ok(x),
        },
        Operand::Neither => Ok(x),
    }
}

/// An operator with `=` on what was read of a place of a type: the result is converted back.
pub fn changed_to(
    state: &mut Elaborator,
    line: Line,
    op: BinaryOp,
    ty: &CType,
    old: Atom,
    y_type: &CType,
    y: Atom,
) -> Result<Atom, NoMemory>
    ensures { Emits state.new result (change line op ty.now y_type.now old y state.old) }
{
    match operand_of(ty) {
        Operand::Number(left) => match operand_of(y_type) {
            Operand::Number(right) => {
                let result = on_integers(state, line, op, left, old, right, y)?;
                state.convert_integer(line, left, result_type(op, left, right), result)
            }
            Operand::PointerTo(_) | Operand::Neither => Ok(old),
        },
        Operand::PointerTo(target) => match operand_of(y_type) {
            Operand::Number(_) => move_pointer(state, line, op, target, old, y),
            Operand::PointerTo(_) | Operand::Neither => Ok(old),
        },
        Operand::Neither => Ok(old),
    }
}

/// The offset of a member among those of a tag, or 0.
fn offset_among(tags: &Tags, tag: u32, name: &[u8]) -> u32
    ensures { result ≡ offset_among name.now (members_in tags.now tag) }
{
    match member_named(tags, tag, name) {
        Some(member) => member.offset,
        None => 0,
    }
}

/// The offset of a member.
#[tactic(auto, unfolding(elaboration::specs::Operations::offset_of))]
pub fn offset_of(tags: &Tags, name: &[u8], ty: &CType) -> u32
    ensures { result ≡ offset_of tags.now name.now (plain ty.now) }
{
    match ty {
        CType::Struct(tag) | CType::Union(tag) => offset_among(tags, *tag, name),
        CType::Void | CType::Int(_) | CType::Pointer(_) | CType::Array(_, _) | CType::Function(_) =>
            0,
    }
}

/// The address of a member of an object at an address.
pub fn member_address(
    state: &mut Elaborator,
    line: Line,
    offset: u32,
    address: Atom,
) -> Result<Atom, NoMemory>
    ensures { Emits state.new result (member_address line offset address state.old) }
{
    let to = state.take_pointer()?;
    state.emit(line, StmKind::Off(to, address, i128::from(offset)))?;
    Ok(Atom::Reg(to))
}
