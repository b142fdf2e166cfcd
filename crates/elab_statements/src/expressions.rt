//! Full expressions in statements (C99 6.8).

ghost use Rattle.std.specs.Prelude.{option_copied, ◌≡◌, Some, None};
ghost use Rattle.c_tree.specs.StatementView.{expr_view};
ghost use Rattle.c_types.specs.Types.{plain};
ghost use Rattle.elaboration.specs.Statements.{evaluated, maybe_evaluated, condition, leaves_if_zero, maybe_leaves, return_from};
ghost use Rattle.elab_base.specs.Marks.{cut};
ghost use Rattle.elab_statements.specs.Held.{held};
ghost use Rattle.elab_base.specs.Outcomes.{Becomes, Gives, at};
ghost use Rattle.c_decls.specs.Refusals.{Meets};
ghost use Rattle.elab_base.specs.PlainFound.{plain_found};
ghost use Rattle.elab_base.specs.MaybeNames.{given};
ghost use Rattle.elab_statements.specs.Stepping.{return_of, return_value};

use crate::jumps::returned;
use c_decls::{TypeError, TypeKind, is_scalar, is_void, line_of, refused};
use c_tree::Expr;
use c_types::CType;
use c_typing::unconverted;
use core_tree::{Atom, StmKind};
use elab_base::{Elaborator, Found, Mark};
use elab_rules::tested_value;
use elab_values::{closed, opened, unused_of, value_of};
use hs_base::Line;

/// An expression as a statement: its value is not used (C99 6.8.3).
pub(crate) fn evaluated(state: &mut Elaborator, e: &Expr) -> Result<(), TypeError>
    ensures { Becomes state.new result (evaluated (expr_view e.now) state.old) }
{
    opened(state, e)?;
    unused_of(state, e, &CType::Void)?;
    closed(state, e)?;
    Ok(())
}

/// The same where there may be none.
pub(crate) fn maybe_evaluated(state: &mut Elaborator, e: Option<&Expr>) -> Result<(), TypeError>
    ensures { Becomes state.new result (maybe_evaluated (held (given e.entry)) state.old) }
{
    match e {
        Some(e) => evaluated(state, e),
        None => Ok(()),
    }
}

/// A condition, as an integer that is 0 or not (C99 6.8.4.1, 6.8.5).
fn condition(state: &mut Elaborator, e: &Expr) -> Result<Atom, TypeError>
    ensures { Gives state.new result (condition (expr_view e.now) state.old) }
{
    opened(state, e)?;
    let found = value_of(state, e, &CType::Void)?;
    if !is_scalar(&found.typed.ty) {
        return refused(TypeKind::Operands, line_of(e));
    }
    let truth = tested_value(state, e, &found)?;
    closed(state, e)?;
    Ok(truth)
}

/// Goes on at a label where a condition is 0.
pub(crate) fn leaves_if_zero(
    state: &mut Elaborator,
    line: Line,
    label: u32,
    e: &Expr,
) -> Result<(), TypeError>
    ensures { Becomes state.new result (leaves_if_zero line label (expr_view e.now) state.old) }
{
    let truth = condition(state, e)?;
    state.emit(line, StmKind::Zero(truth, label))?;
    Ok(())
}

/// The same where there may be no condition.
pub(crate) fn maybe_leaves(
    state: &mut Elaborator,
    line: Line,
    label: u32,
    e: Option<&Expr>,
) -> Result<(), TypeError>
    ensures { Becomes state.new result (maybe_leaves line label (held (given e.entry)) state.old) }
{
    match e {
        Some(e) => leaves_if_zero(state, line, label, e),
        None => Ok(()),
    }
}

/// The value of a `return` converted to the type that the function answers, and the end of its full expression; the code of
/// the value stands behind the mark.
fn return_value(
    state: &mut Elaborator,
    line: Line,
    delays: u32,
    e: &Expr,
    ty: &CType,
    before: Mark,
    found: &Found,
) -> Result<(), TypeError>
    ensures { Becomes state.new result (return_value line delays e.now ty.now before found.now state.old) }
{
    let value = state.convert(line, before, ty, &found.typed.ty, found.atom())?;
    closed(state, e)?;
    returned(state, line, delays, Some(value))?;
    Ok(())
}

/// `return` with a value, from a function that answers a type (C99 6.8.6.4).
#[tactic(auto, using(crate::proofs::Cuts::cut_value))]
fn return_of(
    state: &mut Elaborator,
    line: Line,
    delays: u32,
    e: &Expr,
    ty: &CType,
) -> Result<(), TypeError>
    ensures { Becomes state.new result (return_of line delays e.now ty.now state.old) }
{
    opened(state, e)?;
    let before = state.mark();
    let found = value_of(state, e, ty)?;
    if is_void(ty) {
        return refused(TypeKind::Assignment, line);
    }
    match unconverted(ty, &found.typed) {
        Some(kind) => refused(kind, line),
        None => return_value(state, line, delays, e, ty, before, &found),
    }
}

/// `return`, with a value or without one (C99 6.8.6.4).
pub(crate) fn return_from(
    state: &mut Elaborator,
    line: Line,
    delays: u32,
    e: Option<&Expr>,
) -> Result<(), TypeError>
    ensures { Becomes state.new result (return_from line delays (held (given e.entry)) state.old) }
{
    let ty = *state.running().answer();
    match e {
        Some(e) => return_of(state, line, delays, e, &ty),
        None => {
            if !is_void(&ty) {
                return refused(TypeKind::Assignment, line);
            }
            returned(state, line, delays, None)?;
            Ok(())
        }
    }
}
