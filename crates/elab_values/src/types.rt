//! What is known by types alone: the operands of `sizeof`, and the names of types (C99 6.5.3.4, 6.7.6).

ghost use Rattle.c_tree.specs.StatementView.{expr_view, typename_view};
ghost use Rattle.c_decls.specs.Refusals.{Meets};
ghost use Rattle.c_decls.specs.Typed.{plain_typed};
ghost use Rattle.c_decls.specs.Expressions as types;
ghost use Rattle.elab_values.specs.Told.{told_with, typed_in, typename_in, unevaluated_in};
ghost use Rattle.elaboration.specs.Context.{asked};
ghost use Rattle.elaboration.specs.Expressions.{unevaluated};
ghost use Rattle.elab_base.specs.Outcomes.{Finds, Types};
ghost use Rattle.std.specs.Prelude.{◌≡◌};
ghost use Rattle.c_types.specs.Types.{plain};
ghost use Rattle.elab_base.specs.PlainFound.{plain_found};
ghost use Rattle.elab_values.specs.Outcomes.{FindsTyped};

use c_decls::{TypeError, Typed};
use c_tree::{Expr, TypeName};
use c_types::CType;
use elab_base::{Elaborator, Found};
use elab_rules::constant_found;

/// The type of an expression. The tags that are first named in it are made.
fn typed(state: &mut Elaborator, e: &Expr) -> Result<Typed, TypeError>
    ensures { FindsTyped state.new result (typed_in (expr_view e.now) state.old) }
{
    let alloc = state.alloc();
    let (mut scopes, mut tags) = state.take_names()?;
    let typed = c_typing::typed(alloc, &mut scopes, &mut tags, e)?;
    state.put_names(scopes, tags);
    Ok(typed)
}

/// The name of a type. The tags that are first named in it are made.
pub(crate) fn typename(state: &mut Elaborator, name: &TypeName) -> Result<CType, TypeError>
    ensures { Types state.new result (typename_in (typename_view name.now) state.old) }
{
    let alloc = state.alloc();
    let (mut scopes, mut tags) = state.take_names()?;
    let ty = c_typing::typename(alloc, &mut scopes, &mut tags, name)?;
    state.put_names(scopes, tags);
    Ok(ty)
}

/// An expression that is a constant by its type alone, as `sizeof`.
pub(crate) fn unevaluated(state: &mut Elaborator, e: &Expr) -> Result<Found, TypeError>
    ensures { Finds state.new result (unevaluated_in (expr_view e.now) state.old) }
{
    Ok(constant_found(typed(state, e)?))
}
