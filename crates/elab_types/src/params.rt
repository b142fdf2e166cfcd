//! Parameters (C99 6.7.5.3).

ghost use Rattle.std.specs.Prelude.{◌≡◌, option_copied};
ghost use Rattle.c_types.specs.Types.{plain};
ghost use Rattle.elaboration.specs.Declarators as plain;
ghost use Rattle.elab_base.specs.Outcomes.{Types};
ghost use Rattle.c_decls.specs.Refusals.{Meets};
ghost use Rattle.elab_base.specs.MaybeNames.{given};

use c_decls::{TypeError, TypeKind, is_function, is_record, is_void, refused};
use c_types::CType;
use elab_base::Elaborator;
use hs_base::{Items, Line};

/// The bytes of a name that may be left out.
fn bytes(name: Option<&Items<u8>>) -> Option<&[u8]>
    ensures { option_copied result ≡ option_copied name.entry }
{
    match name {
        Some(name) => Some(name.as_slice()),
        None => None,
    }
}

/// Declares a parameter of a type: not void, no struct, union or function, and with a name that is not there yet.
#[tactic(auto, using(crate::proofs::Free::free_name))]
pub(crate) fn param(
    state: &mut Elaborator,
    line: Line,
    name: Option<&Items<u8>>,
    ty: CType,
) -> Result<CType, TypeError>
    ensures { Types state.new result (plain.param line (given name.entry) (plain ty) state.old) }
{
    if is_void(&ty) {
        return refused(TypeKind::Incomplete, line);
    }
    if is_record(&ty) || is_function(&ty) {
        return refused(TypeKind::LeftOut, line);
    }
    let name = bytes(name);
    if state.is_declared(name) {
        return refused(TypeKind::DeclaredTwice, line);
    }
    state.with_param(name, ty)?;
    Ok(ty)
}
