//! The types of expressions and the values of constants, for whoever has scopes and tags.

ghost use Rattle.std.specs.Prelude.{◌≡◌, Ok, OnOk};
ghost use Rattle.c_types.specs.Types.{plain};
ghost use Rattle.c_tree.specs.View.{spec_tree};
ghost use Rattle.c_tree.specs.StatementView.{expr_view, typename_view};
ghost use Rattle.c_decls.specs.Refusals.{Answers, Meets, then};
ghost use Rattle.c_decls.specs.Typed.{plain_typed};
ghost use Rattle.c_decls.specs.TypeNames.{special_type};
ghost use Rattle.c_decls.specs.Expressions as rules;
ghost use Rattle.c_typing.specs.Walks.{Walks, here, with_new};

use crate::lent::Around;
use crate::typer::{Typer, is_made};
use c_decls::{
    Constant, Folded, LayeredType, Scopes, TypeError, TypeKind, Typed, line_of, refused,
};
use c_tree::{Expr, Spec, TypeName};
use c_types::{CType, TagInfo, Tags};
use hs_base::{Line, NoMemory};
use std::alloc::Global;
use std::mem;

/// Makes tags in turn. An error may leave some of them made.
fn make_tags(tags: &mut Tags, new: Vec<TagInfo>) -> Result<(), NoMemory>
    ensures { OnOk result (tags.new ≡ with_new tags.old new.items) }
{
    for info in new {
        if is_made(tags, u32::MAX - 1) {
            return Err(NoMemory);
        }
        tags.make(info.is_union, info.name)?;
    }
    Ok(())
}

/// An expression at a place of a text (C99 6.5): its type, whether it is a place, and its value where it is constant. A tag
/// that is named first in it is made, and declared in the innermost scope. After a refusal nothing is said of the scopes.
pub fn typed(
    alloc: Global,
    scopes: &mut Scopes,
    tags: &mut Tags,
    e: &Expr,
) -> Result<Typed, TypeError>
    ensures { Walks plain_typed (here scopes.new tags.new) result (rules.typed (expr_view e.now) (here scopes.old tags.old)) }
{
    let mut typer = Typer {
        alloc,
        scopes: Around::own(mem::replace(scopes, Scopes::none(alloc))),
        new_tags: Vec::new(alloc),
    };
    let answer = typer.typed(&*tags, e)?;
    let Typer {
        scopes: after,
        new_tags,
        ..
    } = typer;
    *scopes = after.into_own()?;
    make_tags(tags, new_tags)?;
    Ok(answer)
}

/// A tag without braces, or the name of a type, at a line (C99 6.7.2): the type that it says. A tag that is named first here
/// is made, and declared in the innermost scope. After a refusal nothing is said of the scopes.
pub fn special_type(
    alloc: Global,
    scopes: &mut Scopes,
    tags: &mut Tags,
    line: Line,
    word: &Spec,
) -> Result<LayeredType, TypeError>
    ensures { Walks (λ type. type) (here scopes.new tags.new) result (special_type line (spec_tree word.now) (here scopes.old tags.old)) }
{
    let mut typer = Typer {
        alloc,
        scopes: Around::own(mem::replace(scopes, Scopes::none(alloc))),
        new_tags: Vec::new(alloc),
    };
    let answer = typer.special_type(&*tags, line, word)?;
    let Typer {
        scopes: after,
        new_tags,
        ..
    } = typer;
    *scopes = after.into_own()?;
    make_tags(tags, new_tags)?;
    Ok(answer)
}

/// The name of a type at a place of a text (C99 6.7.6). A tag that is named first in it is made, and declared in the
/// innermost scope. After a refusal nothing is said of the scopes.
pub fn typename(
    alloc: Global,
    scopes: &mut Scopes,
    tags: &mut Tags,
    name: &TypeName,
) -> Result<CType, TypeError>
    ensures { Walks plain (here scopes.new tags.new) result (rules.typename (typename_view name.now) (here scopes.old tags.old)) }
{
    let mut typer = Typer {
        alloc,
        scopes: Around::own(mem::replace(scopes, Scopes::none(alloc))),
        new_tags: Vec::new(alloc),
    };
    let answer = typer.typename(&*tags, name)?;
    let Typer {
        scopes: after,
        new_tags,
        ..
    } = typer;
    *scopes = after.into_own()?;
    make_tags(tags, new_tags)?;
    Ok(answer.ty())
}

/// An expression whose value is wanted, at a place whose scopes and tags are only lent: what it declares is forgotten.
pub fn value_ahead(
    alloc: Global,
    scopes: &Scopes,
    tags: &Tags,
    e: &Expr,
) -> Result<Typed, TypeError>
    ensures { Meets plain_typed result (then (rules.wanted (expr_view e.now) (rules.typed (expr_view e.now) (here scopes.now tags.now))) (λ d. Ok d.1)) }
{
    let mut typer = Typer {
        alloc,
        scopes: Around::lent(alloc, scopes),
        new_tags: Vec::new(alloc),
    };
    typer.wanted(tags, e)
}

/// The value of an expression at a line that must be constant, once it has its type (C99 6.6).
pub fn constant_from(line: Line, e: &Typed) -> Result<Constant, TypeError>
    ensures { Answers (λ k. k) result (rules.constant_from line (plain e.now.ty) e.now.folded) }
{
    match (&e.ty, e.folded) {
        (CType::Int(ty), Folded::Is(value)) => Ok(Constant { ty: *ty, value }),
        _ => refused(TypeKind::NotConstant, line),
    }
}

/// An integer constant expression (C99 6.6): its type and value, for scopes and tags that stay as they are. A tag that is
/// named first in it stands in the expression alone.
pub fn constant(
    alloc: Global,
    scopes: &Scopes,
    tags: &Tags,
    e: &Expr,
) -> Result<Constant, TypeError>
    ensures { Meets (λ k. k) result (rules.constant_value scopes.now tags.now (expr_view e.now)) }
{
    let x = value_ahead(alloc, scopes, tags, e)?;
    let constant = constant_from(line_of(e), &x)?;
    Ok(constant)
}
