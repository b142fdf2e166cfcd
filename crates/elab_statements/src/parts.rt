//! What initializers in braces are for (C99 6.7.8 paragraphs 16 to 20).

ghost use Rattle.std.specs.Prelude.{◌≡◌, IfOk, map, option_copied, slice_get, take};
ghost use Rattle.c_types.specs.Types.{plain};
ghost use Rattle.c_types.specs.TagTable.{members_in, plain_member};
ghost use Rattle.elaboration.specs.Initializers as rules;
ghost use Rattle.elab_statements.specs.PlainParts.{plain_part, member_part};

use c_types::{CType, Member, TagId, Tags, members};
use hs_base::NoMemory;
use std::alloc::Global;

/// A part of what is initialized: its type, and its offset there.
#[derive(Drop)]
pub(crate) struct Part {
    pub(crate) ty: CType,
    pub(crate) offset: u32,
}

/// Whether a type has initializers in braces, which a scalar in the braces of a scalar has not.
pub(crate) fn takes_braces(ty: &CType, in_scalar: bool) -> bool
    ensures { result ≡ rules.takes_braces (plain ty.now) in_scalar }
{
    match ty {
        CType::Array(_, _) | CType::Struct(_) | CType::Union(_) => true,
        CType::Void | CType::Int(_) | CType::Pointer(_) | CType::Function(_) => !in_scalar,
    }
}

/// The part at a place, where there is one.
pub(crate) fn part_at(parts: &[Part], place: usize) -> Option<&Part>
    ensures { option_copied result ≡ slice_get parts.now place }
{
    parts.get(place)
}

/// A member of what stands at an offset.
fn member_part(alloc: Global, offset: u32, member: &Member) -> Result<Part, NoMemory>
    ensures { IfOk result (λ part. plain_part part ≡ member_part offset (plain_member member.now)) }
{
    Ok(Part {
        ty: member.ty,
        offset: offset.checked_add(member.offset).ok_or(NoMemory)?,
    })
}

/// So many members, from the first on, of what stands at an offset.
#[tactic(auto, using(crate::proofs::ListRules::list_rules))]
fn member_parts(
    alloc: Global,
    offset: u32,
    members: &[Member],
    most: usize,
) -> Result<Vec<Part>, NoMemory>
    ensures { IfOk result (λ parts. map plain_part parts.items ≡ map (member_part offset) (take most (map plain_member members.now))) }
{
    let mut parts = Vec::new(alloc);
    for (place, member) in members.iter().enumerate() {
        if place == most {
            return Ok(parts);
        }
        parts.push(member_part(alloc, offset, member)?)?;
    }
    Ok(parts)
}

/// So many members, from the first on, of a struct or union at an offset; none of an incomplete one.
#[tactic(auto, using(crate::proofs::ListRules::list_rules))]
pub(crate) fn parts_of(
    alloc: Global,
    tags: &Tags,
    tag: TagId,
    offset: u32,
    most: usize,
) -> Result<Vec<Part>, NoMemory>
    ensures { IfOk result (λ parts. map plain_part parts.items ≡ take most (rules.struct_parts offset (members_in tags.now tag))) }
{
    match members(tags, tag) {
        Some(list) => member_parts(alloc, offset, list, most),
        None => Ok(Vec::new(alloc)),
    }
}
