//! The bodies of functions (C99 6.9.1).

ghost use Rattle.std.specs.Prelude.{◌≡◌};
ghost use Rattle.c_types.specs.Types.{plain};
ghost use Rattle.c_tree.specs.StatementView.{body_view};
ghost use Rattle.elaboration.specs.Externals.{last_answer, body_ended};
ghost use Rattle.elab_base.specs.Idle.{idled};
ghost use Rattle.elab_base.specs.Outcomes.{Becomes};
ghost use Rattle.c_decls.specs.Refusals.{Meets};
ghost use Rattle.elab_statements.specs.Declaring.{body, defined};

use crate::around::Around;
use crate::statements::items;
use c_decls::{TypeError, TypeKind, is_function, refused};
use c_tree::Stmt;
use c_types::CType;
use core_tree::{Atom, StmKind};
use elab_base::Elaborator;
use hs_base::Line;

/// What is returned where the end of a body is reached: zero or null, or nothing.
fn last_answer(ty: &CType) -> Option<Atom>
    ensures { result ≡ last_answer (plain ty.now) }
{
    match ty {
        CType::Void => None,
        CType::Pointer(_) => Some(Atom::Null),
        CType::Int(_)
        | CType::Array(_, _)
        | CType::Struct(_)
        | CType::Union(_)
        | CType::Function(_) => Some(Atom::Int(0)),
    }
}

/// The end of the body of a function, at the line of its brace; the other line is that of its declaration.
#[tactic(auto, using(crate::proofs::Ends::closed_is))]
fn body_ended(
    state: &mut Elaborator,
    line: Line,
    name: &[u8],
    ty: &CType,
    end: Line,
) -> Result<(), TypeError>
    ensures { Becomes state.new result (idled (body_ended line name.now (plain ty.now) end state.old)) }
{
    let value = last_answer(state.running().answer());
    state.emit(end, StmKind::Return(value))?;
    state.end_body(line, name, ty)
}

/// The body of a function, which has begun.
fn body(
    state: &mut Elaborator,
    line: Line,
    name: &[u8],
    ty: &CType,
    list: &[Stmt],
    end: Line,
) -> Result<(), TypeError>
    ensures { Becomes state.new result (body line name.now ty.now list.now end state.old) }
{
    items(state, list, Around::body())?;
    body_ended(state, line, name, ty, end)
}

/// A function with its body. Its name is declared before its body; a second body is refused before it is gone through.
pub(crate) fn defined(
    state: &mut Elaborator,
    line: Line,
    name: &[u8],
    ty: CType,
    list: &[Stmt],
    end: Line,
) -> Result<(), TypeError>
    ensures { Becomes state.new result (defined line name.now ty list.now end state.old) }
{
    if !is_function(&ty) {
        return refused(TypeKind::LeftOut, line);
    }
    let index = state.function_number(name)?;
    state.declared_function(line, name, ty)?;
    if state.is_defined(index) {
        return refused(TypeKind::DeclaredTwice, line);
    }
    state.begin_body(index, &ty)?;
    body(state, line, name, &ty, list, end)
}
