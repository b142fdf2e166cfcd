//! The start and the end of a full expression (C99 6.8).

ghost use Rattle.std.specs.Prelude.{◌≡◌, IfOk};
ghost use Rattle.c_tree.specs.StatementView.{expr_view};
ghost use Rattle.elaboration.specs.Reallocates.{opened, closed};

use crate::reallocating::reallocates;
use c_decls::line_of;
use c_tree::Expr;
use core_tree::StmKind;
use elab_base::Elaborator;
use hs_base::NoMemory;

/// A full expression begins: its temporaries are numbered anew, and one that reallocates opens a scope.
///
/// # Errors
///
/// [`NoMemory`] only for want of memory.
pub fn opened(state: &mut Elaborator, e: &Expr) -> Result<(), NoMemory>
    ensures { IfOk result (λ _. state.new ≡ opened (expr_view e.now) state.old) }
{
    state.begin_expression();
    if reallocates(state.scopes(), e) {
        state.emit(line_of(e), StmKind::Enter)?;
    }
    Ok(())
}

/// A full expression ends, and with it the scope of one that reallocates.
///
/// # Errors
///
/// [`NoMemory`] only for want of memory.
pub fn closed(state: &mut Elaborator, e: &Expr) -> Result<(), NoMemory>
    ensures { IfOk result (λ _. state.new ≡ closed (expr_view e.now) state.old) }
{
    if reallocates(state.scopes(), e) {
        state.emit(line_of(e), StmKind::Leave)?;
    }
    Ok(())
}
