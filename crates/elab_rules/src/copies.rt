//! Copies of what is known of an expression.

ghost use Rattle.std.specs.Prelude.{◌≡◌, IfOk};
ghost use Rattle.c_decls.specs.Typed.{plain_typed};

use c_decls::Typed;
use hs_base::NoMemory;
use std::alloc::Global;

/// A copy.
pub fn copied(alloc: Global, typed: &Typed) -> Result<Typed, NoMemory>
    ensures { IfOk result (λ copy. plain_typed copy ≡ plain_typed typed.now) }
{
    Ok(Typed {
        ty: typed.ty,
        is_place: typed.is_place,
        folded: typed.folded,
        is_null: typed.is_null,
    })
}
