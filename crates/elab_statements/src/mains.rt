//! The function with which a program begins (C99 5.1.2.2.1).

ghost use Rattle.std.specs.Prelude.{◌≡◌, codes};
ghost use Rattle.c_types.specs.declared.types.IntType.TheVariants as i;
ghost use Rattle.c_types.specs.Types.{plain, Int, Function, none};
ghost use Rattle.c_decls.specs.ScopeList.{named_in};
ghost use Rattle.c_decls.specs.Typed.{same};
ghost use Rattle.elaboration.specs.Externals.{is_main};

use c_decls::{Named, is_same};
use c_types::{CType, IntType};
use elab_base::Elaborator;

/// Whether a type is that of functions that answer an int and have no parameters.
#[tactic(auto, unfolding(c_decls::specs::Typed::same), using(crate::proofs::MainTypes::main_type))]
fn is_main_type(ty: &CType) -> bool
    ensures { result ≡ same (plain ty.now) (Function (Int i.Int) none) }
{
    match ty {
        CType::Function(signature) => {
            is_same(&signature.result, &CType::Int(IntType::Int)) && signature.params.is_empty()
        }
        CType::Void
        | CType::Int(_)
        | CType::Pointer(_)
        | CType::Array(_, _)
        | CType::Struct(_)
        | CType::Union(_) => false,
    }
}

/// Whether `main` has a body, answers an int and has no parameters.
pub(crate) fn has_main(state: &Elaborator) -> bool
    ensures { result ≡ is_main state.now.functions (named_in (codes "main") state.now.scopes.file) }
{
    match state.find_in_file(b"main") {
        Some(Named::Function { ty, index }) => is_main_type(ty) && state.is_defined(*index),
        Some(
            Named::Object { .. }
            | Named::Register { .. }
            | Named::Typedef { .. }
            | Named::Constant { .. }
            | Named::BuiltIn { .. }
            | Named::Tag { .. },
        )
        | None => false,
    }
}
