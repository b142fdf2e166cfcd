//! Initializers that initialize nothing (C99 6.7.8 paragraph 2).

ghost use Rattle.std.specs.Prelude.{◌≡◌, Ok};
ghost use Rattle.c_types.specs.Types.{Void};
ghost use Rattle.c_tree.specs.StatementView.{trees, expr_view, init_view};
ghost use Rattle.c_decls.specs.Refusals.{Meets, then};
ghost use Rattle.elaboration.specs.Expressions.{found};
ghost use Rattle.elaboration.specs.Reallocates.{opened};
ghost use Rattle.elaboration.specs.Initializers as rules;
ghost use Rattle.elab_base.specs.Outcomes.{Becomes};
ghost use Rattle.elab_statements.specs.Initializing.{gone_through};

use c_decls::TypeError;
use c_tree::{Expr, Init, InitKind};
use c_types::CType;
use elab_base::Elaborator;
use elab_values::{found, opened};

/// Goes through an expression that initializes nothing.
fn expression(state: &mut Elaborator, e: &Expr) -> Result<(), TypeError>
    ensures { Becomes state.new result (gone_through e.now state.old) }
{
    opened(state, e)?;
    let _ = found(state, e, &CType::Void)?;
    Ok(())
}

/// Goes through an initializer that initializes nothing.
///
/// # Errors
///
/// The first refusal in it, or want of memory.
#[cycle(surplus)]
#[tactic(auto, using(crate::proofs::Forms::surplus_expr, crate::proofs::Forms::surplus_list))]
pub fn surplus(state: &mut Elaborator, init: &Init) -> Result<(), TypeError>
    ensures { Becomes state.new result (rules.surplus (init_view init.now) state.old) }
{
    match &init.kind {
        InitKind::Expr(e) => expression(state, e),
        InitKind::List(list, _) => all_surplus(state, list),
    }
}

/// Goes through initializers in turn that initialize nothing.
#[cycle(surplus)]
pub(crate) fn all_surplus(state: &mut Elaborator, list: &[Init]) -> Result<(), TypeError>
    ensures { Becomes state.new result (rules.all_surplus (trees init_view list.now) state.old) }
{
    for init in list {
        surplus(state, init)?;
    }
    Ok(())
}
