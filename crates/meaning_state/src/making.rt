//! New objects: statics, memory locals and heap objects.

ghost use Rattle.std.specs.Prelude.{◌≡◌, ◌+◌, ◌*◌, ◌<◌, ◌≤◌, ◌^◌, ◌++◌, ◌∷◌, [], IfOk, All, length, map};
ghost use Rattle.std.specs.List.{enumerate_from};
ghost use Rattle.c_types.specs.Layouts.{AreSlots, moved, array_layout};
ghost use Rattle.object_meaning.specs.objects.Making.{blank, heap_object, local_object, local_objects, first_pointer, static_object, static_objects};
ghost use Rattle.meaning_state.specs.Kinds.{sort_of};
ghost use Rattle.meaning_state.specs.Making.{IsElement};

use crate::bytes::overlay_bytes;
use crate::object::{Object, Sort, Standing};
use crate::objects::Objects;
use c_types::Layout;
use core_tree::{Mem, Start, Static};
use hs_base::{Line, NoMemory, Pointer};
use std::alloc::Global;

/// An object with all bytes zero and all pointers null.
fn blank(alloc: Global, sort: Sort, size: u32, slots: Vec<u32>) -> Result<Object, NoMemory>
    ensures { IfOk result (λ o. o ≡ blank (sort_of sort) size slots.items) }
{
    let bytes = vec![in alloc; 0; size as usize]?;
    let pointers = vec![in alloc; Pointer::Null; slots.len()]?;
    Ok(Object {
        sort,
        size,
        slots,
        bytes,
        pointers,
        standing: Standing::Live,
    })
}

/// Adds slots that are moved up.
fn add_moved(all: &mut Vec<u32>, by: u32, slots: &[u32]) -> Result<(), NoMemory>
    requires { All (λ slot. by + slot < 2 ^ 32) slots.now }
    ensures { IfOk result (λ _. all.new.items ≡ all.old.items ++ moved by slots.now) }
{
    for slot in slots {
        all.push(by + *slot)?;
    }
    Ok(())
}

/// The slots of so many elements side by side.
fn element_slots(alloc: Global, count: u32, element: &Layout) -> Result<Vec<u32>, NoMemory>
    requires element { IsElement element.now }
    requires fits { count * element.now.size < 2 ^ 32 }
    ensures { IfOk result (λ slots. slots.items ≡ (array_layout count element.now).slots) }
{
    let mut all = Vec::new(alloc);
    for k in 0..count {
        add_moved(&mut all, k * element.size, element.slots.as_slice())?;
    }
    Ok(all)
}

/// A new heap object of so many bytes, with the slots of its whole elements.
fn heap_object(alloc: Global, line: Line, size: u32, element: &Layout) -> Result<Object, NoMemory>
    requires { IsElement element.now }
    ensures { IfOk result (λ o. o ≡ heap_object line size element.now) }
{
    let slots = element_slots(alloc, size / element.size, element)?;
    blank(alloc, Sort::Heap(line), size, slots)
}

/// A new memory local of a function.
fn local_object(alloc: Global, func: u32, index: u32, mem: &Mem) -> Result<Object, NoMemory>
    ensures { IfOk result (λ o. o ≡ local_object func (index, mem.now)) }
{
    let slots = Vec::from_slice(alloc, mem.layout.slots.as_slice())?;
    blank(alloc, Sort::Local { func, index }, mem.layout.size, slots)
}

/// The pointer at a slot, from the list of those that are not null.
fn first_pointer(pointers: &[(u32, u32, u32)], slot: u32) -> Pointer
    ensures { result ≡ first_pointer pointers.now slot }
{
    for p in pointers {
        if p.0 == slot {
            return Pointer::At {
                birth: u64::from(p.1),
                offset: p.2,
            };
        }
    }
    Pointer::Null
}

/// The pointers at some slots before the run.
fn first_pointers(alloc: Global, start: &Start, slots: &[u32]) -> Result<Vec<Pointer>, NoMemory>
    ensures items { IfOk result (λ all. all.items ≡ map (first_pointer start.now.pointers) slots.now) }
    ensures len { IfOk result (λ all. length all.items ≡ length slots.now) }
{
    let mut all = Vec::new(alloc);
    for slot in slots {
        all.push(first_pointer(start.pointers.as_slice(), *slot))?;
    }
    Ok(all)
}

/// A static as it is before the run.
fn static_object(alloc: Global, index: u32, static_: &Static) -> Result<Object, NoMemory>
    requires { length static_.now.start.bytes ≤ static_.now.layout.size }
    ensures { IfOk result (λ o. o ≡ static_object (index, static_.now)) }
{
    let size = static_.layout.size;
    let slots = Vec::from_slice(alloc, static_.layout.slots.as_slice())?;
    let mut bytes = vec![in alloc; 0; size as usize]?;
    overlay_bytes(&mut bytes, 0, static_.start.bytes.as_slice());
    let pointers = first_pointers(alloc, &static_.start, slots.as_slice())?;
    Ok(Object {
        sort: Sort::Static(index),
        size,
        slots,
        bytes,
        pointers,
        standing: Standing::Live,
    })
}

impl Objects {
    /// The statics, in their order.
    pub fn of_statics(alloc: Global, statics: &[Static]) -> Result<Objects, NoMemory>
        requires short { length statics.now < 2 ^ 32 }
        requires bytes { All (λ (s : Static). length s.start.bytes ≤ s.layout.size) statics.now }
        ensures { IfOk result (λ objects. objects ≡ static_objects statics.now) }
    {
        let mut list = Vec::new(alloc);
        for i in 0..statics.len() {
            list.push(static_object(alloc, i as u32, &statics[i])?)?;
        }
        Ok(Objects { list })
    }

    /// Makes the memory locals of a call, in the order of their declarations.
    pub fn add_locals(&mut self, alloc: Global, func: u32, mems: &[Mem]) -> Result<(), NoMemory>
        requires { length mems.now < 2 ^ 32 }
        ensures { IfOk result (λ _. self.new ≡ self.old ++ local_objects func mems.now) }
    {
        for i in 0..mems.len() {
            self.list
                .push(local_object(alloc, func, i as u32, &mems[i])?)?;
        }
        Ok(())
    }

    /// Makes a heap object, which is the youngest.
    pub fn add_heap(
        &mut self,
        alloc: Global,
        line: Line,
        size: u32,
        element: &Layout,
    ) -> Result<(), NoMemory>
        requires { IsElement element.now }
        ensures { IfOk result (λ _. self.new ≡ self.old ++ heap_object line size element.now ∷ []) }
    {
        self.list.push(heap_object(alloc, line, size, element)?)?;
        Ok(())
    }
}
