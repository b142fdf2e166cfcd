//! Enumerators and enums with braces (C99 6.7.2.2).

ghost use Rattle.std.specs.Prelude.{◌≡◌, pos, option_copied, option_map};
ghost use Rattle.c_types.specs.Types.{plain};
ghost use Rattle.c_tree.specs.View.{enumerator_tree};
ghost use Rattle.c_tree.specs.StatementView.{trees};
ghost use Rattle.elaboration.specs.Declarators as plain;
ghost use Rattle.elab_types.specs.Steps.{enum_body, enumerator_by, enumerator_step, held};
ghost use Rattle.elab_base.specs.Outcomes.{Becomes, Types, Gives};
ghost use Rattle.c_decls.specs.Refusals.{Meets};
ghost use Rattle.elab_types.specs.Parts.{all_enumerators, enum_of};
ghost use Rattle.elab_base.specs.MaybeNames.{given};

use crate::asked::constant;
use c_decls::{Named, TypeError, tag_name};
use c_tree::{Enumerator, Expr};
use c_types::{CType, IntType};
use elab_base::Elaborator;
use hs_base::{IntKind, Line, NoMemory};

/// Declares an enumerator, a constant of type int, and answers the value that comes next.
fn enumerator(
    state: &mut Elaborator,
    line: Line,
    name: &[u8],
    value: i128,
) -> Result<i128, TypeError>
    ensures { Gives state.new result (plain.enumerator line name.now value state.old) }
{
    let value = IntKind::I32.wrap(value);
    let named = Named::Constant {
        ty: IntType::Int,
        value,
    };
    state.declared_as(line, name, named)?;
    Ok(value.checked_add(1).ok_or(NoMemory)?)
}

/// Declares an enumerator with the value that is given, or else with the next one.
fn enumerator_by(
    state: &mut Elaborator,
    line: Line,
    name: &[u8],
    value: Option<&Expr>,
    next: i128,
) -> Result<i128, TypeError>
    ensures { Gives state.new result (enumerator_by line name.now (held (given value.entry)) next state.old) }
{
    match value {
        Some(value) => {
            let given = constant(state, value)?;
            enumerator(state, line, name, given.value)
        }
        None => enumerator(state, line, name, next),
    }
}

/// An expression that may be left out.
fn inside(value: &Option<Box<Expr>>) -> Option<&Expr>
    ensures { option_copied result ≡ option_map (λ b. b.value) value.now }
{
    match value {
        Some(value) => Some(value),
        None => None,
    }
}

/// Declares an enumerator of the tree.
fn enumerator_of(state: &mut Elaborator, part: &Enumerator, next: i128) -> Result<i128, TypeError>
    ensures { Gives state.new result (enumerator_step (enumerator_tree part.now) next state.old) }
{
    let value = inside(&part.value);
    enumerator_by(state, part.line, part.name.as_slice(), value, next)
}

/// Declares the enumerators in braces; each without a value is one more than the one before it.
#[tactic(auto, using(crate::proofs::Enumerators::enumerators_next))]
fn enumerators(state: &mut Elaborator, list: &[Enumerator]) -> Result<(), TypeError>
    ensures { Becomes state.new result (all_enumerators list.now state.old) }
{
    let mut next = 0i128;
    for part in list {
        next = enumerator_of(state, part, next)?;
    }
    Ok(())
}

/// Declares an enum, which has a name that its scope does not have, or none: its type is int.
#[tactic(auto, using(crate::proofs::Enumerators::tag_declared))]
fn enum_named(state: &mut Elaborator, line: Line, name: Option<&[u8]>) -> Result<CType, TypeError>
    ensures { Types state.new result (plain.enum_named line (given name.entry) state.old) }
{
    if let Some(name) = name {
        let tag = tag_name(state.alloc(), name)?;
        let ty = CType::Int(IntType::Int);
        state.declared_as(line, tag.as_slice(), Named::Tag { ty })?;
    }
    Ok(CType::Int(IntType::Int))
}

/// An enum with braces.
pub(crate) fn enum_body(
    state: &mut Elaborator,
    line: Line,
    name: Option<&[u8]>,
    list: &[Enumerator],
) -> Result<CType, TypeError>
    ensures { Types state.new result (enum_of line (given name.entry) list.now state.old) }
{
    enumerators(state, list)?;
    enum_named(state, line, name)
}
