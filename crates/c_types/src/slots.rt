//! The layout of a type: its size, its alignment and the list of its slots.

ghost use Rattle.std.specs.Prelude.{◌≡◌, ◌≤◌, ◌<◌, ◌+◌, ◌-◌, ◌*◌, ◌^◌, ◌++◌, Some, length, drop, slice_range, All, IfOk};
ghost use Rattle.std.specs.List.{flat_map, range_with_len};
ghost use Rattle.c_types.specs.Types.{plain};
ghost use Rattle.c_types.specs.Layouts.{moved, IsSound};
ghost use Rattle.c_types.specs.TagTable.{known, layout_in, layout_or, IsSizedIn};

use crate::layouts::Layout;
use crate::listing::{Left, Listing, TypeLeft};
use crate::sizes::{align_of, size_of};
use crate::tags::Tags;
use crate::types::CType;
use hs_base::{Items, NoMemory};
use std::alloc::Global;

/// The layout of a type that has a size. It takes memory for each slot.
pub fn layout(alloc: Global, tags: &Tags, ty: &CType) -> Result<Layout, NoMemory>
    requires { IsSizedIn tags.now (plain ty.now) }
    ensures value { IfOk result (λ layout. layout_in tags.now (plain ty.now) ≡ Some layout) }
    ensures sound { IfOk result IsSound }
{
    let size = size_of(tags, ty).unwrap();
    let align = align_of(tags, ty).unwrap();
    let slots = slots_of(alloc, tags, ty)?;
    Ok(Layout {
        size,
        align,
        slots: Items::from(slots),
    })
}

/// The slots of a type that has a size.
pub(crate) fn slots_of<'a>(alloc: Global, tags: &'a Tags, ty: &CType) -> Result<Vec<u32>, NoMemory>
    requires sized { IsSizedIn tags.now (plain ty.now) }
    requires room { (layout_or (known tags.now.completed) (plain ty.now)).size ≤ 268435456 }
    ensures { IfOk result (λ slots. slots.items ≡ (layout_or (known tags.now.completed) (plain ty.now)).slots) }
{
    let size = size_of(tags, ty).unwrap();
    let mut listing: Listing<'a> = Listing {
        slots: Vec::new(alloc),
        left: Vec::new(alloc),
    };
    listing.left.push(Left::Type(TypeLeft {
        ty: *ty,
        first: tags.completed().len(),
        offset: 0,
        size,
    }))?;
    while let Some(next) = listing.left.pop() {
        listing.list(tags, next)?;
    }
    Ok(listing.slots)
}

/// The list from a place on is the slots of the first element of an array. Adds those of the others.
pub(crate) fn repeat_slots(
    slots: &mut Vec<u32>,
    start: usize,
    count: u32,
    size: u32,
) -> Result<(), NoMemory>
    requires start { start ≤ length slots.old.items }
    requires some { 0 < count }
    requires room { count * size < 2 ^ 32 }
    requires fits { All (λ slot. slot + count * size < 2 ^ 32) (drop start slots.old.items) }
    ensures { IfOk result (λ _. slots.new.items ≡
        slots.old.items ++ flat_map (λ k. moved (k * size) (drop start slots.old.items)) (range_with_len 1 (count - 1))) }
{
    let end = slots.len();
    if start == end {
        return Ok(());
    }
    for k in 1..count {
        copy_slots(slots, start, end, k * size)?;
    }
    Ok(())
}

/// Adds the slots in a range once more, moved up.
fn copy_slots(slots: &mut Vec<u32>, start: usize, end: usize, by: u32) -> Result<(), NoMemory>
    requires start { start ≤ end }
    requires end { end ≤ length slots.old.items }
    requires fits { All (λ slot. slot + by < 2 ^ 32) (slice_range slots.old.items start end) }
    ensures { IfOk result (λ _. slots.new.items ≡ slots.old.items ++ moved by (slice_range slots.old.items start end)) }
{
    for place in start..end {
        let slot = by + slots[place];
        slots.push(slot)?;
    }
    Ok(())
}
