//! Assignments, and what reads a place and writes it (C99 6.5.2.4, 6.5.3.1, 6.5.16).

ghost use Rattle.std.specs.Prelude.{◌≡◌, IfOk, Ok};
ghost use Rattle.c_tree.specs.StatementView.{expr_view};
ghost use Rattle.c_decls.specs.Expressions.{line_of};
ghost use Rattle.c_decls.specs.PlaceRules.{held_place};
ghost use Rattle.c_decls.specs.Refusals.{Meets, then};
ghost use Rattle.c_decls.specs.Typed.{plain_typed};
ghost use Rattle.elab_base.specs.Marks.{cut, mark_of};
ghost use Rattle.elab_base.specs.PlainFound.{plain_spot, plain_found};
ghost use Rattle.elab_rules.specs.Behind.{Behind};
ghost use Rattle.elaboration.specs.Context.{Code};
ghost use Rattle.elaboration.specs.Conversions.{Unknown, found_as, atom_of};
ghost use Rattle.elaboration.specs.Assignments.{scalar_assigned, old_value, stepped};
ghost use Rattle.elab_base.specs.Outcomes.{Emits, Finds, Yields, at};
ghost use Rattle.c_types.specs.Types.{plain};
ghost use Rattle.elab_rules.specs.Steps.{AssignsScalar, change_place, changed_by, changing, record_assigned, set_to};

use crate::copies::copied;
use crate::pointers::changed_to;
use crate::working::operator_of;
use c_decls::{TypeError, Typed, line_of};
use c_tree::{AssignOp, BinaryOp, Expr};
use c_typing::{assigned, changed, held_place};
use core_tree::{Atom, StmKind};
use elab_base::{Elaborator, Fixed, Found, Mark, Spot};
use hs_base::{Line, NoMemory};

/// `=` to a struct or a union (C99 6.5.16.1).
pub fn record_assigned(
    state: &mut Elaborator,
    line: Line,
    right: Line,
    target: Found,
    e: Found,
) -> Result<Found, TypeError>
    ensures { Finds state.new result (record_assigned line right target e state.old) }
{
    let (to, from) = (target.atom(), e.atom());
    let typed = assigned(line, right, state.tags(), target.typed, e.typed)?;
    let size = i128::from(state.size_or_zero(&typed.ty)?);
    state.emit(line, StmKind::Copy(to, from, size))?;
    Ok(Found {
        typed,
        spot: Spot::Empty,
        fixed: Fixed::Unknown,
    })
}

/// Writes a converted value to a scalar.
fn set_to(
    state: &mut Elaborator,
    line: Line,
    before: Mark,
    typed: Typed,
    spot: Spot,
    value: &Found,
) -> Result<Found, NoMemory>
    ensures { Yields state.new result (set_to line before typed spot value.now state.old) }
{
    let converted = state.convert(line, before, &typed.ty, &value.typed.ty, value.atom())?;
    state.write(line, &typed.ty, spot, converted)?;
    Ok(Found::valued(typed, converted))
}

/// `=` to a scalar: the answer is the converted value (C99 6.5.16.1). The mark stands in front of the right side's code,
/// which has grown since.
pub fn scalar_assigned(
    state: &mut Elaborator,
    line: Line,
    before: Mark,
    tree: &Expr,
    target: Found,
    e: Found,
) -> Result<Found, TypeError>
    ensures { AssignsScalar line before tree.now target e state.old state.new result }
{
    let spot = target.spot;
    let copy = copied(state.alloc(), &e.typed)?;
    let typed = assigned(line, line_of(tree), state.tags(), target.typed, copy)?;
    let value = state.valued_from(tree, e)?;
    Ok(set_to(state, line, before, typed, spot, &value)?)
}

/// What a place that is read and written holds must be a value (C99 6.3.2.1).
pub fn changing(state: &Elaborator, tree: &Expr, found: Found) -> Result<Found, TypeError>
    ensures { Meets plain_found result (changing tree.now found state.now) }
{
    let Found { typed, spot, fixed } = found;
    let typed = held_place(line_of(tree), state.tags(), typed)?;
    Ok(Found { typed, spot, fixed })
}

/// What a place that is read and written holds.
pub fn old_value(state: &mut Elaborator, line: Line, place: &Found) -> Result<Atom, NoMemory>
    ensures { Emits state.new result (old_value line (at state.old place.now)) }
{
    state.read_spot(line, &place.typed.ty, place.spot)
}

/// `l OP= r` once both sides are in hand: the operation, the conversion back and the write (C99 6.5.16.2).
fn change_place(
    state: &mut Elaborator,
    line: Line,
    op: BinaryOp,
    typed: &Typed,
    spot: Spot,
    old: Atom,
    y: &Found,
) -> Result<Atom, NoMemory>
    ensures { Emits state.new result (change_place line op typed.now spot old y.now state.old) }
{
    let value = changed_to(state, line, op, &typed.ty, old, &y.typed.ty, y.atom())?;
    state.write(line, &typed.ty, spot, value)?;
    Ok(value)
}

/// `l OP= r`: the answer is the converted value, or the old one where it is kept.
pub fn changed_by(
    state: &mut Elaborator,
    line: Line,
    op: AssignOp,
    keeps_old: bool,
    target: Found,
    old: Atom,
    y: Found,
) -> Result<Found, TypeError>
    ensures { Finds state.new result (changed_by line op keeps_old target old y state.old) }
{
    let spot = target.spot;
    let typed = changed(line, op, state.tags(), target.typed, &y.typed)?;
    let value = change_place(state, line, operator_of(op), &typed, spot, old, &y)?;
    if keeps_old {
        Ok(Found::valued(typed, old))
    } else {
        Ok(Found::valued(typed, value))
    }
}

/// `++` and `--`: as `+= 1` and `-= 1` (C99 6.5.2.4, 6.5.3.1).
pub fn stepped(
    state: &mut Elaborator,
    line: Line,
    op: AssignOp,
    keeps_old: bool,
    target: Found,
) -> Result<Found, TypeError>
    ensures { Finds state.new result (stepped line op keeps_old (at state.old target)) }
{
    let old = old_value(state, line, &target)?;
    let one = Found::valued(Typed::int(), Atom::Int(1));
    changed_by(state, line, op, keeps_old, target, old, one)
}
