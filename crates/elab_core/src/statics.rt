//! Statics: variables and literals.

ghost use Rattle.std.specs.Prelude.{◌≡◌, IfOk, length, map};
ghost use Rattle.elaboration.specs.Context.{Context};
ghost use Rattle.elaboration.specs.Resolving.{start_by, variable_static, literal_static};
ghost use Rattle.elab_core.specs.StaticsBy.{pointer_by};
ghost use Rattle.elab_core.specs.Programs.{WithVariables};

use crate::names::plain_name;
use crate::numbers::static_number;
use c_types::Layout;
use core_tree::{Start, Static};
use elab_base::{Variable, no_start, trimmed};
use hs_base::{Items, NoMemory};
use std::alloc::Global;

/// A pointer of an initializer, with its static by its number in the core.
fn pointer(variables: u32, pointer: (u32, u32, u32)) -> Result<(u32, u32, u32), NoMemory>
    ensures { IfOk result (λ r. r ≡ pointer_by variables pointer) }
{
    let object = static_number(variables, pointer.1)?;
    Ok((pointer.0, object, pointer.2))
}

/// The pointers of an initializer.
fn pointers(
    alloc: Global,
    variables: u32,
    list: &[(u32, u32, u32)],
) -> Result<Items<(u32, u32, u32)>, NoMemory>
    ensures { IfOk result (λ r. r ≡ map (pointer_by variables) list.now) }
{
    let mut numbered = Items::new(alloc);
    for item in list {
        numbered.push(pointer(variables, *item)?)?;
    }
    Ok(numbered)
}

/// An initializer, where so many statics are variables.
fn start(alloc: Global, variables: u32, start: Start) -> Result<Start, NoMemory>
    ensures { (c : Context) → length c.variables ≡ variables → IfOk result (λ r. r ≡ start_by c start) }
{
    let Start {
        bytes,
        pointers: list,
    } = start;
    Ok(Start {
        bytes,
        pointers: pointers(alloc, variables, list.as_slice())?,
    })
}

/// A variable, where so many statics are variables.
pub(crate) fn variable(
    alloc: Global,
    variables: u32,
    variable: Variable,
) -> Result<Static, NoMemory>
    ensures { WithVariables variables (λ c. IfOk result (λ r. r ≡ variable_static c variable)) }
{
    let (name, layout, first) = variable.into_parts();
    let first = match first {
        Some(first) => start(alloc, variables, first)?,
        None => no_start(alloc),
    };
    Ok(Static {
        name: Some(plain_name(name)),
        layout,
        start: first,
    })
}

/// A literal, which has its bytes and a zero (C99 6.4.5).
#[tactic(auto, using(crate::proofs::ByteLayouts::byte_layouts))]
pub(crate) fn literal(alloc: Global, bytes: Items<u8>) -> Result<Static, NoMemory>
    ensures { IfOk result (λ r. r ≡ literal_static bytes) }
{
    let length = u32::try_from(bytes.len()).map_err(|_| NoMemory)?;
    let size = length.checked_add(1).ok_or(NoMemory)?;
    let layout = Layout {
        size,
        align: 1,
        slots: Items::new(alloc),
    };
    Ok(Static {
        name: None,
        layout,
        start: trimmed(Start {
            bytes,
            pointers: Items::new(alloc),
        }),
    })
}
