//! Members, and where they stand in their struct or union.

ghost use Rattle.std.specs.Prelude.{◌≡◌, ◌≢◌, ◌∷◌, ◌++◌, [], map, find, bytes_eq, option_map, option_and_then, All, IfOk, IfErr, OnOk};
ghost use Rattle.c_types.specs.Types.{plain};
ghost use Rattle.c_types.specs.TagTable.{PlainMember, known, members_in, plain_member, tag_layout, new_tag, IsSizedIn, IsTooLarge};
ghost use Rattle.c_types.specs.Bodies.{IsPlaced, completed_tag};

use crate::layouts::MAX_SIZE;
use crate::member_list::MemberList;
use crate::sizes::{align_of, size_of};
use crate::tags::{TagError, Tags};
use crate::types::{CType, TagId};
use hs_base::Items;
use std::alloc::Global;

/// A member of a struct or union: its name, its type, and its offset in bytes.
#[derive(Drop)]
pub struct Member {
    pub name: Items<u8>,
    pub ty: CType,
    pub offset: u32,
}

/// The members of a completed tag, with its size and alignment.
#[derive(Drop)]
pub(crate) struct Body {
    pub(crate) tag: TagId,
    pub(crate) is_union: bool,
    pub(crate) members: MemberList,
    pub(crate) size: u32,
    pub(crate) align: u32,
}

/// The members of a completed tag, or `None` where it is incomplete.
pub fn members(tags: &Tags, tag: TagId) -> Option<&[Member]>
    ensures { option_map (λ list. map plain_member list.now) result ≡ members_in tags.now tag }
{
    match tags.body(tag) {
        Some((_, body)) => Some(body.members.as_slice()),
        None => None,
    }
}

/// The member of that name of a completed tag, or `None` where it has none or is incomplete.
pub fn member_named<'a>(tags: &'a Tags, tag: TagId, name: &[u8]) -> Option<&'a Member>
    ensures { option_map (λ m. plain_member m.now) result ≡
        option_and_then (find (λ (m : PlainMember). bytes_eq name.now m.name)) (members_in tags.now tag) }
{
    match tags.body(tag) {
        Some((_, body)) => body.members.find(name),
        None => None,
    }
}

/// Members that are placed one after another.
#[derive(Drop)]
struct Placing {
    members: Vec<Member>,
    end: u32,
    align: u32,
}

impl Placing {
    ghost use Rattle.c_types.specs.Placing.{IsPlacedSoFar, IsPastLimit, pairs};

    /// Places the next member: a union's at 0, a struct's at the lowest offset after the member before it that its
    /// alignment divides (C99 6.7.2.1).
    fn add(
        &mut self,
        tags: &Tags,
        is_union: bool,
        name: Items<u8>,
        ty: CType,
    ) -> Result<(), TagError>
        requires so_far { IsPlacedSoFar (known tags.now.completed) is_union self.old }
        requires sized { IsSizedIn tags.now (plain ty) }
        ensures ok { OnOk result (IsPlacedSoFar (known tags.now.completed) is_union self.new) }
        ensures more { OnOk result (pairs self.new ≡ pairs self.old ++ (name, plain ty) ∷ []) }
        ensures refused { IfErr result (λ e. e ≢ TagError.NoMemory →
            IsPastLimit (known tags.now.completed) is_union (pairs self.old ++ (name, plain ty) ∷ []) e) }
    {
        let size = size_of(tags, &ty).unwrap();
        let align = align_of(tags, &ty).unwrap();
        let offset = if is_union {
            0
        } else {
            self.end.next_multiple_of(align)
        };
        let end = self.end.max(offset + size);
        if end > MAX_SIZE {
            return Err(TagError::TooLarge);
        }
        self.members.push(Member { name, ty, offset })?;
        self.end = end;
        self.align = self.align.max(align);
        Ok(())
    }
}

/// Places members, and rounds the size up to the alignment. A struct that is too large is refused.
pub(crate) fn place_members(
    alloc: Global,
    tags: &Tags,
    tag: TagId,
    is_union: bool,
    members: Items<(Items<u8>, CType)>,
) -> Result<Body, TagError>
    requires { All (λ m. IsSizedIn tags.now (plain m.1)) members }
    ensures body { IfOk result (λ body. completed_tag body ≡ new_tag tag is_union members) }
    ensures placed { IfOk result (IsPlaced (known tags.now.completed)) }
    ensures refused { IfErr result (λ e. e ≢ TagError.NoMemory → IsTooLarge tags.now (new_tag tag is_union members) e) }
{
    let mut placing = Placing {
        members: Vec::new(alloc),
        end: 0,
        align: 1,
    };
    for (name, ty) in members.into_vec() {
        placing.add(tags, is_union, name, ty)?;
    }
    let Placing {
        members,
        end,
        align,
    } = placing;
    Ok(Body {
        tag,
        is_union,
        members: MemberList::new(alloc, members)?,
        size: end.next_multiple_of(align),
        align,
    })
}
