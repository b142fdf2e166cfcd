//! Types of parts that come later, where the code of a part hangs on them (C99 6.3.2.3, 6.5.9, 6.5.15).

ghost use Rattle.std.specs.Prelude.{◌≡◌, IfOk, option_map};
ghost use Rattle.c_types.specs.Types.{plain};
ghost use Rattle.c_tree.specs.StatementView.{expr_view};
ghost use Rattle.c_decls.specs.Typed.{plain_typed};
ghost use Rattle.elab_base.specs.Marks.{cut};
ghost use Rattle.elaboration.specs.Rules.{ahead, tells_equal, is_pointer_ahead, left_operand, choice_ahead};
ghost use Rattle.elab_base.specs.Outcomes.{Yields, at};
ghost use Rattle.elab_base.specs.PlainFound.{plain_found};
ghost use Rattle.elab_values.specs.Leaves.{left_of, type_before};

use c_decls::{Operand, TypeError, Typed, operand_of};
use c_tree::{BinaryOp, Expr};
use c_types::CType;
use c_typing::{choice, value_ahead};
use core_tree::Atom;
use elab_base::{Elaborator, Fixed, Found, Mark, Spot};
use elab_rules::copied;
use hs_base::{Line, NoMemory};

/// What a tree that comes next will be as a value, where it is not refused.
fn ahead(state: &Elaborator, tree: &Expr) -> Result<Option<Typed>, NoMemory>
    ensures { IfOk result (λ e. option_map plain_typed e ≡ ahead (expr_view tree.now) state.now) }
{
    match value_ahead(state.alloc(), state.scopes(), state.tags(), tree) {
        Ok(e) => Ok(Some(e)),
        Err(TypeError::Bad { .. }) => Ok(None),
        Err(TypeError::NoMemory) => Err(NoMemory),
    }
}

/// Whether it will be a pointer.
fn is_pointer_ahead(state: &Elaborator, tree: &Expr) -> Result<bool, NoMemory>
    ensures { IfOk result (λ is. is ≡ is_pointer_ahead (ahead (expr_view tree.now) state.now)) }
{
    match ahead(state, tree)? {
        Some(e) => match operand_of(&e.ty) {
            Operand::PointerTo(_) => Ok(true),
            Operand::Number(_) | Operand::Neither => Ok(false),
        },
        None => Ok(false),
    }
}

/// Whether an operator tells whether two values are equal.
fn tells_equal(op: BinaryOp) -> bool
    ensures { result ≡ tells_equal op }
{
    matches!(op, BinaryOp::Equal | BinaryOp::NotEqual)
}

/// A left operand in front of its right one: a null pointer constant beside a pointer is null, and its code, which stands
/// behind the mark, is forgotten.
pub(crate) fn left_operand(
    state: &mut Elaborator,
    op: BinaryOp,
    before: Mark,
    right: &Expr,
    left: Found,
) -> Result<Found, NoMemory>
    ensures { Yields state.new result (left_of op before (expr_view right.now) (at state.old left)) }
{
    if !tells_equal(op) || !left.typed.is_null_constant() {
        return Ok(left);
    }
    if !is_pointer_ahead(state, right)? {
        return Ok(left);
    }
    state.forget(before);
    Ok(Found {
        typed: left.typed,
        spot: Spot::Value(Atom::Null),
        fixed: Fixed::Nowhere,
    })
}

/// The type of the whole of `?:` before its last part, by which its middle part is converted.
pub(crate) fn type_ahead(
    state: &Elaborator,
    line: Line,
    last: &Expr,
    test: &Typed,
    x: &Typed,
) -> Result<CType, NoMemory>
    ensures { IfOk result (λ ty. plain ty ≡ type_before line test.now x.now last.now state.now) }
{
    let Some(y) = ahead(state, last)? else {
        return Ok(CType::Void);
    };
    let x = copied(state.alloc(), x)?;
    match choice(line, test, x, y) {
        Ok(whole) => Ok(whole.ty),
        Err(TypeError::Bad { .. }) => Ok(CType::Void),
        Err(TypeError::NoMemory) => Err(NoMemory),
    }
}
