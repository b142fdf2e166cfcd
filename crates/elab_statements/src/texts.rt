//! Whole texts (C99 6.9).

ghost use Rattle.c_tree.specs.StatementView.{trees, decl_view, unit_view};
ghost use Rattle.c_decls.specs.Refusals.{Meets};
ghost use Rattle.elaboration.specs.Externals.{externals, ended};
ghost use Rattle.elaboration.specs.Elaboration.{walked};
ghost use Rattle.elab_base.specs.Idle.{idle, idled};
ghost use Rattle.elab_base.specs.Outcomes.{Becomes};
ghost use Rattle.std.specs.Prelude.{◌≡◌};
ghost use Rattle.elab_statements.specs.Declaring.{walked_externals};

use crate::declared::external;
use crate::mains::has_main;
use c_decls::{TypeError, TypeKind, refused};
use c_tree::{Decl, Unit};
use elab_base::Elaborator;
use std::alloc::Global;

/// External declarations in turn.
fn externals(state: &mut Elaborator, decls: &[Decl]) -> Result<(), TypeError>
    ensures { Becomes (idle state.new) result (walked_externals decls.now state.old) }
{
    for decl in decls {
        external(state, decl)?;
    }
    Ok(())
}

/// The end of a text: each function that is called has a body, and so has `main` (C99 5.1.2.2.1).
fn ended(state: &Elaborator) -> Result<(), TypeError>
    ensures { Becomes state.now result (ended state.now) }
{
    state.calls_defined()?;
    if !has_main(state) {
        return refused(TypeKind::NoMain, 1);
    }
    Ok(())
}

/// What is known behind the external declarations of a text: all that its core is made of.
///
/// # Errors
///
/// [`TypeError::Bad`] with the first refusal; [`TypeError::NoMemory`] only for want of memory.
#[tactic(auto, using(crate::proofs::WholeTexts::text_ok, crate::proofs::WholeTexts::text_err, crate::proofs::WholeTexts::end_err))]
pub fn walked(alloc: Global, unit: &Unit) -> Result<Elaborator, TypeError>
    ensures { Meets (λ state. idle state) result (idled (walked (unit_view unit.now))) }
{
    let mut state = Elaborator::new(alloc)?;
    externals(&mut state, unit.decls.as_slice())?;
    ended(&state)?;
    Ok(state)
}
