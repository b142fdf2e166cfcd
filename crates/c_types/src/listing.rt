//! The slots of a type, one part after another. The parts that are left stand in a list, so that a type may be as deep as
//! memory allows.

ghost use Rattle.std.specs.Prelude.{◌≡◌, ◌≤◌, ◌+◌, ◌++◌, ℕ, List, slice_get, IfOk};
ghost use Rattle.c_types.specs.Layouts.{moved};
ghost use Rattle.c_types.specs.TagTable.{tag_layout};
ghost use Rattle.c_types.specs.Bodies.{IsPlaced, KeepsRule, completed_tag};
ghost use Rattle.c_types.specs.Slots.{first_known};
ghost use Rattle.c_types.specs.Listing.{CanList, IsListed, IsListable, listed, members_work, tag_work, work_of};
ghost use Rattle.c_types.specs.declared.listing.Left.TheVariants as left;

use crate::bodies::{Body, Member};
use crate::sizes::size_of;
use crate::slots::repeat_slots;
use crate::tags::Tags;
use crate::types::CType;
use crate::unions::largest_member;
use hs_base::NoMemory;

/// A type of some size that stands at an offset. Its tags are among the first completed ones.
#[derive(Clone, Copy)]
pub(crate) struct TypeLeft {
    pub(crate) ty: CType,
    pub(crate) first: usize,
    pub(crate) offset: u32,
    pub(crate) size: u32,
}

/// Members of a struct that stands at an offset.
#[derive(Clone, Copy)]
pub(crate) struct MembersLeft<'a> {
    members: &'a [Member],
    first: usize,
    offset: u32,
}

/// The elements of an array but its first, whose slots are the list from a place on.
#[derive(Clone, Copy)]
pub(crate) struct CopiesLeft {
    start: usize,
    count: u32,
    size: u32,
}

/// A part whose slots are left to list.
#[derive(Clone, Copy)]
pub(crate) enum Left<'a> {
    Type(TypeLeft),
    Members(MembersLeft<'a>),
    Copies(CopiesLeft),
}

/// The slots that are listed, and the parts that are left, the next one last.
#[derive(Drop)]
pub(crate) struct Listing<'a> {
    pub(crate) slots: Vec<u32>,
    pub(crate) left: Vec<Left<'a>>,
}

impl<'a> Listing<'a> {
    /// Lists the slots of a part, or leaves smaller parts in its place.
    pub(crate) fn list(&mut self, tags: &'a Tags, next: Left<'a>) -> Result<(), NoMemory>
        requires { CanList tags.now next self.old }
        ensures { IfOk result (λ _. IsListed tags.now next.entry self.old self.new) }
    {
        match next {
            Left::Type(part) => self.list_type(tags, part),
            Left::Members(part) => self.list_member(tags, part),
            Left::Copies(part) => {
                repeat_slots(&mut self.slots, part.start, part.count, part.size)
            }
        }
    }

    /// A pointer is a slot. An array leaves its first element and the others, a struct its members, a union its largest member.
    fn list_type(&mut self, tags: &'a Tags, part: TypeLeft) -> Result<(), NoMemory>
        requires { CanList tags.now (left.Type part) self.old }
        ensures { IfOk result (λ _. IsListed tags.now (left.Type part) self.old self.new) }
    {
        match part.ty {
            CType::Void | CType::Int(_) | CType::Function(_) => Ok(()),
            CType::Pointer(_) => {
                self.slots.push(part.offset)?;
                Ok(())
            }
            CType::Array(element, length) => {
                if length == 0 {
                    return Ok(());
                }
                let size = part.size / length;
                let start = self.slots.len();
                self.left.push(Left::Copies(CopiesLeft {
                    start,
                    count: length,
                    size,
                }))?;
                self.left.push(Left::Type(TypeLeft {
                    ty: *element,
                    size,
                    ..part
                }))?;
                Ok(())
            }
            CType::Struct(tag) | CType::Union(tag) => {
                let (place, body) = tags.body(tag).unwrap();
                self.left.push(body_left(tags, place, body, part.offset))?;
                Ok(())
            }
        }
    }

    /// Leaves the first member, and the others.
    fn list_member(&mut self, tags: &'a Tags, part: MembersLeft<'a>) -> Result<(), NoMemory>
        requires { CanList tags.now (left.Members part) self.old }
        ensures { IfOk result (λ _. IsListed tags.now (left.Members part.entry) self.old self.new) }
    {
        match part.members {
            [] => Ok(()),
            [member, members @ ..] => {
                let size = size_of(tags, &member.ty).unwrap();
                self.left
                    .push(Left::Members(MembersLeft { members, ..part }))?;
                self.left.push(Left::Type(TypeLeft {
                    ty: member.ty,
                    first: part.first,
                    offset: part.offset + member.offset,
                    size,
                }))?;
                Ok(())
            }
        }
    }
}

/// What a struct or union that stands at an offset and was completed after the first tags leaves. A union has the slots
/// of its largest member, by the union rule.
fn body_left<'a>(tags: &'a Tags, first: usize, body: &'a Body, offset: u32) -> Left<'a>
    requires stands { slice_get tags.now.completed first ≡ Some (completed_tag body.now) }
    requires placed { IsPlaced (first_known tags.now first) body.now }
    requires rule { KeepsRule (first_known tags.now first) body.now }
    requires room { offset + body.now.size ≤ 268435456 }
    ensures listable { (slots : List ℕ) → IsListable tags.now result slots }
    ensures slots { (slots : List ℕ) →
        listed tags.now result slots ≡ slots ++ moved offset (tag_layout (first_known tags.now first) (completed_tag body.now)).slots }
    ensures work { work_of tags.now result ≤ members_work (tag_work tags.now.completed first) (completed_tag body.now).members }
{
    let members = body.members.as_slice();
    if !body.is_union || members.is_empty() {
        return Left::Members(MembersLeft {
            members,
            first,
            offset,
        });
    }
    let member = &members[largest_member(tags, members)];
    let size = size_of(tags, &member.ty).unwrap();
    Left::Type(TypeLeft {
        ty: member.ty,
        first,
        offset,
        size,
    })
}
