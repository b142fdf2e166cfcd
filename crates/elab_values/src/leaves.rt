//! Names, constants and literals (C99 6.4.4, 6.4.5, 6.5.1).

ghost use Rattle.std.specs.Prelude.{◌≡◌, Ok, IfOk};
ghost use Rattle.c_tree.specs.View.{literal_leaves};
ghost use Rattle.c_decls.specs.ScopeList.{found as declaration};
ghost use Rattle.c_decls.specs.Typed.{constant};
ghost use Rattle.c_decls.specs.Expressions as types;
ghost use Rattle.elab_base.specs.PlainFound.{plain_found};
ghost use Rattle.elaboration.specs.Rules.{constant_found};
ghost use Rattle.elaboration.specs.Expressions.{name_answer, literal_answer};
ghost use Rattle.elab_base.specs.Outcomes.{Finds};
ghost use Rattle.c_decls.specs.Refusals.{Meets};
ghost use Rattle.elab_values.specs.Leaves.{character_found, integer_found, literal_value, name_value};

use c_decls::{TypeError, Typed};
use c_typing::{char_constant, int_constant, joined, named, string};
use elab_base::{Elaborator, Found};
use elab_rules::{constant_found, literal_found, name_found};
use hs_base::{Items, Line, NoMemory};
use std::alloc::Global;

/// A name.
pub(crate) fn name(state: &Elaborator, line: Line, name: &[u8]) -> Result<Found, TypeError>
    ensures { Finds state.now result (name_value line name.now state.now) }
{
    let declared = state.scopes().find(name);
    let typed = named(state.alloc(), line, declared)?;
    Ok(name_found(typed, state.is_inner(name), declared)?)
}

/// An integer constant.
pub(crate) fn integer(bytes: &[u8]) -> Result<Found, NoMemory>
    ensures { IfOk result (λ e. plain_found e ≡ integer_found bytes.now) }
{
    Ok(constant_found(Typed::constant(int_constant(bytes)?)))
}

/// A character constant.
pub(crate) fn character(alloc: Global, bytes: &[u8]) -> Result<Found, NoMemory>
    ensures { IfOk result (λ e. plain_found e ≡ character_found bytes.now) }
{
    Ok(constant_found(Typed::constant(char_constant(alloc, bytes)?)))
}

/// String literals, which stand for an object.
pub(crate) fn literal(
    state: &mut Elaborator,
    line: Line,
    parts: &[Items<u8>],
) -> Result<Found, TypeError>
    ensures { Finds state.new result (literal_value line parts.now state.old) }
{
    let alloc = state.alloc();
    let bytes = joined(alloc, parts)?;
    let typed = string(alloc, line, bytes.as_slice())?;
    let object = state.with_literal(line, bytes)?;
    Ok(literal_found(state, typed, object))
}
