//! `&&`, `||` and `?:`, whose operands are evaluated only where they are needed (C99 6.5.13 to 6.5.15).

ghost use Rattle.std.specs.Prelude.{◌≡◌, ◌+◌, IfOk};
ghost use Rattle.c_types.specs.Types.{plain};
ghost use Rattle.c_tree.specs.declared.operator.BinaryOp.TheVariants as b;
ghost use Rattle.c_tree.specs.StatementView.{expr_view};
ghost use Rattle.c_decls.specs.Typed.{plain_typed, operand};
ghost use Rattle.elab_base.specs.Marks.{cut};
ghost use Rattle.elab_base.specs.PlainFound.{plain_spot, plain_found};
ghost use Rattle.elaboration.specs.Context.{new_label};
ghost use Rattle.elaboration.specs.Conversions.{Found as PlainFound, code_line, tested_value};
ghost use Rattle.elaboration.specs.Rules.{set_again, compare_again, and_ends, and_ended, or_ends, or_ended, choose_last, choice_spot, chosen};
ghost use Rattle.elab_base.specs.Outcomes.{Emits, Finds, at};
ghost use Rattle.c_decls.specs.Refusals.{Meets};
ghost use Rattle.elab_rules.specs.Steps.{AndEnds, Chooses, OrEnds, and_then, choose_first, chosen_by, or_else, tested};

use c_decls::{TypeError, Typed, binary, line_of};
use c_tree::{BinaryOp, Expr};
use c_types::CType;
use c_typing::choice;
use core_tree::{Atom, CmpOp, StmKind};
use elab_base::{Elaborator, Fixed, Found, Mark, Spot};
use hs_base::{Line, NoMemory};

/// A label behind another.
pub fn next_label(label: u32) -> Result<u32, NoMemory>
    ensures { IfOk result (λ next. next ≡ label + 1) }
{
    label.checked_add(1).ok_or(NoMemory)
}

/// An operand of that tree as an integer that is 0 or not.
pub(crate) fn tested_atom(
    state: &mut Elaborator,
    tree: &Expr,
    ty: &CType,
    value: Atom,
) -> Result<Atom, NoMemory>
    ensures { Emits state.new result (tested tree.now ty.now value state.old) }
{
    state.tested(line_of(tree), ty, value)
}

/// A value of that tree as an integer that is 0 or not.
pub fn tested_value(state: &mut Elaborator, tree: &Expr, found: &Found) -> Result<Atom, NoMemory>
    ensures { Emits state.new result (tested_value (expr_view tree.now) (at state.old found.now)) }
{
    tested_atom(state, tree, &found.typed.ty, found.atom())
}

/// Writes a register in hand again.
fn set_again(state: &mut Elaborator, line: Line, to: Atom, value: Atom) -> Result<(), NoMemory>
    ensures { IfOk result (λ _. state.new ≡ set_again line to value state.old) }
{
    match to {
        Atom::Reg(register) => state.emit(line, StmKind::Set(register, value)),
        Atom::Int(_) | Atom::Null | Atom::Static(_) | Atom::Mem(_) => Ok(()),
    }
}

/// Writes to a register in hand whether a value is not 0.
fn compare_again(state: &mut Elaborator, line: Line, to: Atom, value: Atom) -> Result<(), NoMemory>
    ensures { IfOk result (λ _. state.new ≡ compare_again line to value state.old) }
{
    match to {
        Atom::Reg(register) => {
            state.emit(line, StmKind::Cmp(CmpOp::Ne, register, value, Atom::Int(0)))
        }
        Atom::Int(_) | Atom::Null | Atom::Static(_) | Atom::Mem(_) => Ok(()),
    }
}

/// Behind the left operand of `&&`, and behind the test of `?:`: goes on at a new label where it is 0, and answers this
/// label, behind which stands another.
#[tactic(auto, using(crate::proofs::Tested::tested_labels))]
pub fn and_then(
    state: &mut Elaborator,
    line: Line,
    tree: &Expr,
    found: &Found,
) -> Result<u32, NoMemory>
    ensures label { IfOk result (λ label. label ≡ new_label state.old) }
    ensures code { IfOk result (λ _. state.new ≡ and_then line tree.now found.now state.old) }
{
    let truth = tested_value(state, tree, found)?;
    let label = state.take_labels(2)?;
    state.emit(line, StmKind::Zero(truth, label))?;
    Ok(label)
}

/// Behind the right operand of `&&`: its truth, or 0 where the left operand was 0.
fn and_ends(
    state: &mut Elaborator,
    line: Line,
    false_label: u32,
    truth: Atom,
) -> Result<Atom, NoMemory>
    ensures { Emits state.new result (and_ends line false_label (state.old, truth)) }
{
    let end = next_label(false_label)?;
    let to = state.take_integer()?;
    state.emit(line, StmKind::Cmp(CmpOp::Ne, to, truth, Atom::Int(0)))?;
    state.emit(line, StmKind::Jump(end))?;
    state.here(false_label)?;
    state.emit(line, StmKind::Set(to, Atom::Int(0)))?;
    state.here(end)?;
    Ok(Atom::Reg(to))
}

/// `&&` behind its right operand.
pub fn and_ended(
    state: &mut Elaborator,
    line: Line,
    false_label: u32,
    tree: &Expr,
    x: Typed,
    y: Found,
) -> Result<Found, TypeError>
    ensures { AndEnds line false_label tree.now x y state.old state.new result }
{
    let value = y.atom();
    let ty = y.typed.ty;
    let typed = binary(line, BinaryOp::And, state.tags(), x, y.typed)?;
    let truth = tested_atom(state, tree, &ty, value)?;
    let value = and_ends(state, line, false_label, truth)?;
    Ok(Found::valued(typed, value))
}

/// Behind the left operand of `||`: 1, and on to the end, unless it is 0. Answers the label of the end and the register.
#[tactic(auto, using(crate::proofs::Tested::tested_labels))]
pub fn or_else(
    state: &mut Elaborator,
    line: Line,
    tree: &Expr,
    found: &Found,
) -> Result<(u32, Atom), NoMemory>
    ensures label { IfOk result (λ r. r.0 ≡ new_label state.old + 1) }
    ensures code { IfOk result (λ r. (state.new, r.1) ≡ or_else line tree.now found.now state.old) }
{
    let truth = tested_value(state, tree, found)?;
    let next = state.take_labels(2)?;
    let end = next_label(next)?;
    state.emit(line, StmKind::Zero(truth, next))?;
    let to = state.take_integer()?;
    state.emit(line, StmKind::Set(to, Atom::Int(1)))?;
    state.emit(line, StmKind::Jump(end))?;
    state.here(next)?;
    Ok((end, Atom::Reg(to)))
}

/// `||` behind its right operand.
pub fn or_ended(
    state: &mut Elaborator,
    line: Line,
    end: u32,
    tree: &Expr,
    to: Atom,
    x: Typed,
    y: Found,
) -> Result<Found, TypeError>
    ensures { OrEnds line end tree.now to x y state.old state.new result }
{
    let value = y.atom();
    let ty = y.typed.ty;
    let typed = binary(line, BinaryOp::Or, state.tags(), x, y.typed)?;
    let truth = tested_atom(state, tree, &ty, value)?;
    compare_again(state, line, to, truth)?;
    state.here(end)?;
    Ok(Found::valued(typed, to))
}

/// The middle part of `?:` converted to the type of the whole, in a new temporary.
fn chosen_by(
    state: &mut Elaborator,
    line: Line,
    before: Mark,
    ty: &CType,
    source: &Typed,
    value: Atom,
) -> Result<Atom, NoMemory>
    ensures { Emits state.new result (chosen_by line before ty.now source.now value state.old) }
{
    match ty {
        CType::Int(_) => {
            let value = state.convert(line, before, ty, &source.ty, value)?;
            let to = state.take_integer()?;
            state.emit(line, StmKind::Set(to, value))?;
            Ok(Atom::Reg(to))
        }
        CType::Pointer(_) => {
            let value = state.convert(line, before, ty, &source.ty, value)?;
            let to = state.take_pointer()?;
            state.emit(line, StmKind::Set(to, value))?;
            Ok(Atom::Reg(to))
        }
        CType::Void
        | CType::Array(_, _)
        | CType::Struct(_)
        | CType::Union(_)
        | CType::Function(_) => Ok(Atom::Null),
    }
}

/// Behind the middle part of `?:`, whose code stands behind the mark: its value goes to the register of the whole, and on
/// to the end.
pub fn choose_first(
    state: &mut Elaborator,
    line: Line,
    other: u32,
    before: Mark,
    ty: &CType,
    x: &Found,
) -> Result<Atom, NoMemory>
    ensures { Emits state.new result (choose_first line other before ty.now x.now state.old) }
{
    let end = next_label(other)?;
    let to = chosen_by(state, line, before, ty, &x.typed, x.atom())?;
    state.emit(line, StmKind::Jump(end))?;
    state.here(other)?;
    Ok(to)
}

/// Where the whole of `?:` is.
fn choice_spot(ty: &CType, value: Atom) -> Spot
    ensures { plain_spot result ≡ choice_spot (plain ty.now) value }
{
    match ty {
        CType::Void => Spot::Empty,
        CType::Int(_)
        | CType::Pointer(_)
        | CType::Array(_, _)
        | CType::Struct(_)
        | CType::Union(_)
        | CType::Function(_) => Spot::Value(value),
    }
}

/// Behind the last part of `?:`, whose code stands behind the mark: its value goes to the same register.
pub fn chosen(
    state: &mut Elaborator,
    line: Line,
    end: u32,
    before: Mark,
    to: Atom,
    test: &Typed,
    x: Typed,
    y: Found,
) -> Result<Found, TypeError>
    ensures { Chooses line end before to test.now x y state.old state.new result }
{
    let value = y.atom();
    let ty = y.typed.ty;
    let typed = choice(line, test, x, y.typed)?;
    let value = state.convert(line, before, &typed.ty, &ty, value)?;
    set_again(state, line, to, value)?;
    state.here(end)?;
    let spot = choice_spot(&typed.ty, to);
    Ok(Found {
        typed,
        spot,
        fixed: Fixed::Unknown,
    })
}
