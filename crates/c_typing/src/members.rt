//! The members of structs and unions (C99 6.5.2.3).

ghost use Rattle.c_types.specs.Types.{plain};
ghost use Rattle.c_types.specs.TagTable.{members_in};
ghost use Rattle.c_decls.specs.Refusals.{Meets};
ghost use Rattle.c_decls.specs.Typed.{plain_typed, operand};
ghost use Rattle.c_decls.specs.PlaceRules as rules;

use c_decls::{Operand, TypeError, TypeKind, Typed, operand_of, refused};
use c_types::{CType, TagId, Tags, member_named, members};
use hs_base::Line;
use std::alloc::Global;

/// The member of that name of a struct or union, as a place.
fn member_among(
    alloc: Global,
    line: Line,
    name: &[u8],
    tags: &Tags,
    tag: TagId,
) -> Result<Typed, TypeError>
    ensures { Meets plain_typed result (rules.member_among line name.now (members_in tags.now tag)) }
{
    if members(tags, tag).is_none() {
        return refused(TypeKind::Incomplete, line);
    }
    match member_named(tags, tag, name) {
        Some(member) => Ok(Typed::place(member.ty)),
        None => refused(TypeKind::NoMember, line),
    }
}

/// The member of that name of a type.
fn member_of(
    alloc: Global,
    line: Line,
    name: &[u8],
    tags: &Tags,
    ty: &CType,
) -> Result<Typed, TypeError>
    ensures { Meets plain_typed result (rules.member_of line name.now tags.now (plain ty.now)) }
{
    match ty {
        CType::Struct(tag) => member_among(alloc, line, name, tags, *tag),
        CType::Union(tag) => member_among(alloc, line, name, tags, *tag),
        CType::Void | CType::Int(_) | CType::Pointer(_) | CType::Array(_, _) | CType::Function(_) =>
            refused(TypeKind::Operands, line),
    }
}

/// `e.name` on a place.
pub fn dot(
    alloc: Global,
    line: Line,
    name: &[u8],
    tags: &Tags,
    e: &Typed,
) -> Result<Typed, TypeError>
    ensures { Meets plain_typed result (rules.dot line name.now tags.now (plain_typed e.now)) }
{
    if e.is_place {
        member_of(alloc, line, name, tags, &e.ty)
    } else {
        refused(TypeKind::Operands, line)
    }
}

/// `e->name` on a value.
pub fn arrow(
    alloc: Global,
    line: Line,
    name: &[u8],
    tags: &Tags,
    e: &Typed,
) -> Result<Typed, TypeError>
    ensures { Meets plain_typed result (rules.arrow line name.now tags.now (plain_typed e.now)) }
{
    match operand_of(&e.ty) {
        Operand::PointerTo(target) => member_of(alloc, line, name, tags, target),
        Operand::Number(_) | Operand::Neither => refused(TypeKind::Operands, line),
    }
}
