//! The elaboration of whole texts (C99 6.5 to 6.9): from the syntax tree of a text to its core, or to the first refusal of
//! its types.
//!
//! [`elab`] gives the core: each object at file scope and each function with its body, whose expressions, declarations and
//! statements have become statements of the core language. [`tags`] gives the structs and unions of the text alone, with the
//! members of those that are completed. `elaboration/specs` says what both are.
//!
//! Both refuse the same texts: those that break a rule of C99 6.5 to 6.9, and those with a form that is no part of this
//! language. The refusal has its kind and its line, and is the first in the order of the text. Both may want memory at any
//! time, and say nothing of the text then.
#![tactic(auto)]

ghost use Rattle.std.specs.Prelude.{IfOk};
ghost use Rattle.c_tree.specs.StatementView.{unit_view};
ghost use Rattle.c_decls.specs.Refusals.{Meets};
ghost use Rattle.elaboration.specs.Elaboration.{tags_of};
ghost use Rattle.core_tree.specs.Sound.{IsSound};
ghost use Rattle.core_soundness.specs.Texts.{IsOfTexts};
ghost use Rattle.c_elab.specs.Core.{core_in};

use c_decls::TypeError;
use c_tree::Unit;
use c_types::Tags;
use core_soundness::cores_are_sound;
use core_tree::Core;
use elab_core::core_of;
use elab_statements::walked;
use std::alloc::Global;

/// The core of a text, or of texts whose trees were made one (C99 6.5 to 6.9). It is sound, as the runners of cores want it.
///
/// # Errors
///
/// [`TypeError::Bad`] with the first refusal, which says what is wrong and at which line; [`TypeError::NoMemory`] only for
/// want of memory.
#[tactic(auto, using(crate::proofs::Finished::core_ok, crate::proofs::Finished::core_err))]
pub fn elab(alloc: Global, unit: &Unit) -> Result<Core, TypeError>
    ensures core { Meets (λ core. core) result (core_in (unit_view unit.now)) }
    ensures sound { IfOk result (λ core. IsOfTexts (unit_view unit.now) → IsSound core) }
{
    cores_are_sound();
    let (core, _) = core_of(walked(alloc, unit)?)?;
    Ok(core)
}

/// The structs and unions of a text in the order of their tags (C99 6.7.2.1), if nothing in the whole text is refused.
///
/// # Errors
///
/// Those of [`elab`].
#[tactic(auto, using(crate::proofs::Finished::tags_ok, crate::proofs::Finished::tags_err))]
pub fn tags(alloc: Global, unit: &Unit) -> Result<Tags, TypeError>
    ensures { Meets (λ tags. tags) result (tags_of (unit_view unit.now)) }
{
    let finished = walked(alloc, unit)?;
    Ok(finished.into_parts().tags)
}
