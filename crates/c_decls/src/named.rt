//! What names stand for.

ghost use Rattle.std.specs.Prelude.{◌≡◌, ◌↔◌, IsTrue, IfOk};
ghost use Rattle.c_decls.specs.Named.{plain_named};
ghost use Rattle.c_decls.specs.ScopeList.{IsSameAgain, tag_name};

use crate::layered::LayeredType;
use c_types::{CType, IntType, same_type};
use hs_base::{Items, NoMemory};
use std::alloc::Global;

/// What a declared name stands for (C99 6.2.1, 6.2.3).
#[derive(Drop)]
pub enum Named {
    /// A static by its number, or in an inner scope a memory local by its number in its function.
    Object { ty: CType, index: u32 },
    /// A local or parameter that is kept in a register, by its number in its function.
    Register { ty: CType, index: u32 },
    /// A function, by its number in the order of first declaration.
    Function { ty: CType, index: u32 },
    /// A name of a type.
    Typedef { ty: LayeredType },
    /// An enumerator.
    Constant { ty: IntType, value: i128 },
    /// A name that stands in every text, by its place in [`BuiltIn::ALL`](crate::BuiltIn::ALL).
    BuiltIn { index: u32 },
    /// A struct, a union or an enum, declared under the name that [`tag_name`] makes. The type of an enum is `int`.
    Tag { ty: CType },
}

/// Whether a second declaration is of the same sort with the same type (C99 6.7, 6.9.2).
pub(crate) fn is_same_again(before: &Named, again: &Named) -> bool
    ensures { IsTrue result ↔ IsSameAgain (plain_named before.now) (plain_named again.now) }
{
    match (before, again) {
        (Named::Object { ty, .. }, Named::Object { ty: other, .. }) => same_type(ty, other),
        (Named::Function { ty, .. }, Named::Function { ty: other, .. }) => same_type(ty, other),
        (Named::Typedef { ty }, Named::Typedef { ty: other }) => {
            same_type(&ty.ty(), &other.ty())
        }
        _ => false,
    }
}

/// The name under which a tag is declared and found: a byte 32 in front, so that tags stand apart from all other names
/// (C99 6.2.3).
pub fn tag_name(alloc: Global, name: &[u8]) -> Result<Items<u8>, NoMemory>
    ensures { IfOk result (λ made. made ≡ tag_name name.now) }
{
    let mut made = Vec::new(alloc);
    made.push(b' ')?;
    made.extend_from_slice(name)?;
    Ok(Items::from(made))
}
