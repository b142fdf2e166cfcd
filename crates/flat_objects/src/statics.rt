//! A new memory, and the statics in it.

ghost use Rattle.std.specs.Prelude.{◌≡◌, ◌+◌, ◌%◌, ◌^◌, ◌<◌, ◌≤◌, ℕ, [], All, IfOk, IfNone, length, map};
ghost use Rattle.adjusters.specs.ObjectSlots.{element_of};
ghost use Rattle.flat_objects.specs.Memory.{IsForm, SameFrame, Statics, pin_room};
ghost use Rattle.flat_objects.specs.Keeping.{Keeps};
ghost use Rattle.flat_objects.specs.Adding.{AddsStatic, IsFirstFit, TracksStatic};
ghost use Rattle.flat_objects.specs.Counting.{Tracks, no_frees};
ghost use Rattle.flat_objects.specs.Starting.{HasRanges, IsSlotFor, IsTaking, IsTakingPointers, IsWritten, SetsSlot, StartsBytes, StartsPointers, TracksBytes, TracksPointers, TracksSlot};

use crate::marking::mark;
use crate::memory::FlatObjects;
use adjusters::Adjuster;
use byte_marks::Marks;
use byte_memory::{FlatBytes, Steps};
use c_types::Layout;
use count_table::Counts;
use delay_scopes::Scopes;
use heap_blocks::Heap;
use hs_base::{Items, NoMemory};
use std::alloc::Global;
use std::sync::ledger::Ledger;

/// The slots of the elements of each layout.
fn forms_of(alloc: Global, layouts: &[Layout]) -> Result<Items<Adjuster>, NoMemory>
    requires { All (λ l. IsForm (element_of l)) layouts.now }
    ensures { IfOk result (λ forms. forms ≡ map element_of layouts.now) }
{
    let mut forms = Items::new(alloc);
    for layout in layouts {
        forms.push(Adjuster::of(alloc, layout)?)?;
    }
    Ok(forms)
}

/// Writes bytes from an address on.
fn write_bytes<L: Ledger>(memory: &mut FlatBytes, start: u32, bytes: &[u8], steps: &mut Steps<L>)
    requires inside { start + length bytes.now ≤ length memory.old }
    requires fits { start + length bytes.now < 2 ^ 32 }
    ensures { IsWritten memory.old memory.new start bytes.now }
{
    for (k, byte) in bytes.iter().enumerate() {
        memory.write(start + k as u32, 1, u64::from(*byte), steps);
    }
}

impl FlatObjects {
    /// A memory without objects, with so many bytes for the statics, the memory locals and the heap, for elements of
    /// these layouts, and for at most so many pointers that are pinned at once. It takes all memory that later calls need.
    pub fn new(
        alloc: Global,
        layouts: &[Layout],
        statics: u32,
        locals: u32,
        heap: u32,
        pins: u32,
    ) -> Result<FlatObjects, NoMemory>
        requires layouts { All (λ l. IsForm (element_of l)) layouts.now }
        requires statics { statics % 16 ≡ 0 }
        requires locals { locals % 16 ≡ 0 }
        requires fits { statics + locals + heap < 2 ^ 32 }
        requires pins { pins < 2 ^ 31 }
        ensures keeps { IfOk result (λ o. (places : ℕ → ℕ) → Keeps o places []) }
        ensures tracks { IfOk result (λ o. (places : ℕ → ℕ) → Tracks o places [] no_frees) }
        ensures room { IfOk result (λ o. pin_room o ≡ pins) }
        ensures forms { IfOk result (λ o. o.forms ≡ map element_of layouts.now) }
        ensures bounds { IfOk result (λ o. HasRanges o statics locals heap) }
    {
        let heap_from = statics + locals;
        let end = heap_from + heap;
        Ok(FlatObjects {
            bytes: FlatBytes::new(alloc, end)?,
            statics: Heap::new(alloc, 0, statics)?,
            locals: Heap::new(alloc, statics, locals)?,
            heap: Heap::new(alloc, heap_from, heap)?,
            counts: Counts::new(alloc, end / 16 + 1, end / 4 + pins)?,
            scopes: Scopes::new(),
            locals_from: statics,
            heap_from,
            forms: forms_of(alloc, layouts)?,
            marks: Marks::new(alloc, end)?,
        })
    }

    /// Places a static of a number by first fit and answers its address: one element of the layout of a number. All its
    /// bytes are 0 and its pointers null. Where it has no place nothing changes.
    pub fn new_static<L: Ledger>(
        &mut self,
        size: u32,
        layout: u32,
        index: u32,
        steps: &mut Steps<L>,
    ) -> Option<u32>
        ensures place { IsFirstFit self.old Statics size result }
        ensures added { AddsStatic self.old self.new index layout size result }
        ensures tracks { TracksStatic self.old self.new index layout size result }
        ensures none { IfNone result (self.new ≡ self.old) }
        ensures frame { SameFrame self.old self.new }
    {
        let bytes = u64::from(size);
        let birth = u64::from(index);
        let placed = self
            .statics
            .place(&mut self.bytes, bytes, layout, 0, birth, steps);
        mark(&mut self.marks, &self.forms, placed, bytes, layout);
        placed
    }

    /// Writes the first bytes of a static at an address, which has only zeros and null pointers.
    pub fn start_bytes<L: Ledger>(&mut self, addr: u32, bytes: &[u8], steps: &mut Steps<L>)
        requires { IsTaking self.old addr bytes.now }
        ensures changes { StartsBytes self.old self.new addr bytes.now }
        ensures tracks { TracksBytes self.old self.new addr bytes.now }
        ensures frame { SameFrame self.old self.new }
    {
        write_bytes(&mut self.bytes, addr, bytes, steps);
    }

    /// Writes the address of an offset of an object into a slot of another.
    fn set_slot<L: Ledger>(
        &mut self,
        start: u32,
        slot: u32,
        target: u32,
        offset: u32,
        steps: &mut Steps<L>,
    )
        requires { IsSlotFor self.old start slot target offset }
        ensures changes { SetsSlot self.old self.new start slot target offset }
        ensures tracks { TracksSlot self.old self.new start slot target offset }
        ensures frame { SameFrame self.old self.new }
    {
        let _ = &self.bytes;
        let addr = start + slot;
        let value = target + offset;
        self.put_pointer(addr, value, steps);
    }

    /// Writes the first pointers of a static at an address, whose pointers are null: the offset of each slot, the static
    /// that is pointed to and the offset in that one. All statics stand at these addresses.
    pub fn start_pointers<L: Ledger>(
        &mut self,
        addr: u32,
        pointers: &[(u32, u32, u32)],
        starts: &[u32],
        steps: &mut Steps<L>,
    )
        requires { IsTakingPointers self.old addr pointers.now starts.now }
        ensures changes { StartsPointers self.old self.new addr pointers.now starts.now }
        ensures tracks { TracksPointers self.old self.new addr pointers.now starts.now }
        ensures frame { SameFrame self.old self.new }
    {
        let _ = &self.bytes;
        for pointer in pointers {
            let (slot, target, offset) = *pointer;
            self.set_slot(addr, slot, starts[target as usize], offset, steps);
        }
    }
}
