//! Members of structs and unions (C99 6.7.2.1).

ghost use Rattle.std.specs.Prelude.{◌≡◌, option_copied};
ghost use Rattle.c_types.specs.Types.{plain};
ghost use Rattle.c_decls.specs.Refusals.{Meets};
ghost use Rattle.elaboration.specs.Declarators.{with_member, member};
ghost use Rattle.elab_base.specs.Outcomes.{Gives};
ghost use Rattle.elab_base.specs.MaybeNames.{given};

use crate::member_table::MemberTable;
use c_decls::{TypeError, TypeKind, has_no_size, is_function, refused};
use c_types::CType;
use elab_base::Elaborator;
use hs_base::{Items, Line};

/// Members with one more, which may have no name.
fn with_member(
    line: Line,
    name: Option<&Items<u8>>,
    ty: CType,
    before: MemberTable,
) -> Result<MemberTable, TypeError>
    ensures { Meets (λ all. all) result (with_member line (given name.entry) (plain ty) before) }
{
    let Some(name) = name else {
        return Ok(before);
    };
    let name = name.as_slice();
    if before.has(name) {
        return refused(TypeKind::DeclaredTwice, line);
    }
    let mut all = before;
    all.insert(name, ty)?;
    Ok(all)
}

/// Members with one more of a type: no function, of a known size, and with a name that is not there yet.
pub(crate) fn member(
    state: &Elaborator,
    line: Line,
    name: Option<&Items<u8>>,
    ty: CType,
    before: MemberTable,
) -> Result<MemberTable, TypeError>
    ensures { Gives state.now result (member line (given name.entry) (plain ty) before state.now) }
{
    if is_function(&ty) {
        return refused(TypeKind::LeftOut, line);
    }
    if has_no_size(state.tags(), &ty) {
        return refused(TypeKind::Incomplete, line);
    }
    let all = with_member(line, name, ty, before)?;
    Ok(all)
}
