//! Which unions are allowed.

ghost use Rattle.std.specs.Prelude.{◌≡◌, ◌<◌, ◌↔◌, length, map, slice_get, All, take_while, nat_lt, IfOk, IsSomeAnd, IsTrue};
ghost use Rattle.c_types.specs.Types.{plain};
ghost use Rattle.c_types.specs.Layouts.{keeps_union_rule};
ghost use Rattle.c_types.specs.TagTable.{known, member_layout, IsSizedIn};
ghost use Rattle.c_types.specs.Bodies.{IsPlaced, completed_tag};
ghost use Rattle.c_types.specs.Slots.{IsLargest};

use crate::bodies::{Body, Member};
use crate::sizes::size_of;
use crate::slots::slots_of;
use crate::tags::Tags;
use hs_base::NoMemory;
use std::alloc::Global;

/// The place of the first member of the greatest size.
pub(crate) fn largest_member(tags: &Tags, members: &[Member]) -> usize
    requires some { 0 < length members.now }
    requires sized { All (λ m. IsSizedIn tags.now (plain m.ty)) members.now }
    ensures { IsSomeAnd (slice_get members.now result) (IsLargest (known tags.now.completed) members.now) }
{
    let mut largest = 0;
    let mut greatest = size_of(tags, &members[0].ty).unwrap();
    for (place, member) in members.iter().enumerate() {
        let size = size_of(tags, &member.ty).unwrap();
        if size > greatest {
            largest = place;
            greatest = size;
        }
    }
    largest
}

/// Whether for each slot of each member every other member ends at or before it or has a slot at the same offset. That
/// holds where each member has exactly the slots of the largest one that stand before its end. It takes memory for the
/// slots of two members at a time, and time for those of all.
pub(crate) fn follows_union_rule(alloc: Global, tags: &Tags, body: &Body) -> Result<bool, NoMemory>
    requires { IsPlaced (known tags.now.completed) body.now }
    ensures { IfOk result (λ follows.
        follows ≡ keeps_union_rule (map (member_layout (known tags.now.completed)) (completed_tag body.now).members)) }
{
    let members = body.members.as_slice();
    if members.is_empty() {
        return Ok(true);
    }
    let largest = largest_member(tags, members);
    let all = slots_of(alloc, tags, &members[largest].ty)?;
    for member in members {
        let slots = slots_of(alloc, tags, &member.ty)?;
        let size = size_of(tags, &member.ty).unwrap();
        if !is_front_below(&slots, &all, size) {
            return Ok(false);
        }
    }
    Ok(true)
}

/// Whether the slots are those at the front of a list that stand below a size.
fn is_front_below(slots: &[u32], all: &[u32], size: u32) -> bool
    ensures { IsTrue result ↔ (slots.now ≡ take_while (λ slot. nat_lt slot size) all.now) }
{
    let front = &all[..front_len(all, size)];
    slots == front
}

/// How many slots at the front of a list stand below a size.
fn front_len(all: &[u32], size: u32) -> usize
    ensures { result ≡ length (take_while (λ slot. nat_lt slot size) all.now) }
{
    all.iter().take_while(|slot| **slot < size).count()
}
