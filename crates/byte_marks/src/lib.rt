//! What stands in each byte of memory, in one byte beside it.
//!
//! An access is tried by one look at the marks of its bytes. [`Marks::are_bytes`] says whether so many bytes from an address
//! on all belong to objects and to no slot, [`Marks::is_slot`] whether a slot starts at an address. [`Marks::mark`] marks the
//! bytes of a new object by the slots of its elements, and the byte behind its end as one of no object: so an access that runs
//! past the end of its object never finds the marks that it wants. `specs/Marks.antt` says which marks an object has.
//!
//! Beside them stands for each 16 bytes where the object in them ends ([`Marks::end`]), so that an address is moved up within its
//! object with one look.
//!
//! The marks of what is no object do not matter, and those of an object that is dead stay until another one takes its place.
//! All memory is taken by [`Marks::new`].
#![tactic(auto)]

mod ends;

ghost use Rattle.std.specs.Prelude.{◌≡◌, ◌↔◌, ◌⊎◌, ◌+◌, ◌/◌, ◌<◌, ◌≤◌, ◌^◌, ℕ, AllPairs, IfOk, IsTrue, length, slice_index};
ghost use Rattle.adjusters.specs.ObjectSlots.{object_slots};
ghost use Rattle.byte_marks.specs.Ends.{IsKnown};
ghost use Rattle.byte_marks.specs.Marks.{AreBytes, ChangesMarks, ChangesOnly, Filled, HasMarks, IsMarked, IsSlotAt, IsSlotMarked, mark_in, no_marks};

use crate::ends::Ends;
use adjusters::Adjuster;
use byte_memory::reach;
use hs_base::NoMemory;
use std::alloc::Global;
use std::marker::Model;

/// The mark of what is no byte of an object.
pub const NOTHING: u8 = 0;

/// The mark of a byte of an object outside of slots.
pub const BYTE: u8 = 1;

/// The mark of the first byte of a slot.
pub const SLOT: u8 = 2;

/// The mark of a later byte of a slot.
pub const LATER: u8 = 3;

/// Sets so many marks from a place on.
fn fill(marks: &mut [u8], from: usize, count: usize, mark: u8)
    requires { from + count ≤ length marks.old }
    ensures { Filled marks.old marks.new from count mark }
{
    for place in from..from + count {
        marks[place] = mark;
    }
}

/// Marks the four bytes of a slot.
fn mark_slot(marks: &mut [u8], at: usize)
    requires { at + 4 ≤ length marks.old }
    ensures { IsSlotMarked marks.old marks.new at }
{
    marks[at] = SLOT;
    marks[at + 1] = LATER;
    marks[at + 2] = LATER;
    marks[at + 3] = LATER;
}

/// Marks the slots of an object of a size at a place, all of whose bytes are marked as bytes.
fn mark_slots(marks: &mut [u8], start: usize, size: u32, form: &Adjuster)
    requires inside { start + size ≤ length marks.old }
    requires bytes { (k : ℕ) → k < size → slice_index marks.old (start + k) ≡ BYTE }
    requires apart { AllPairs (λ a b. a + 4 ≤ b) (object_slots form.now size) }
    ensures marked { (k : ℕ) → k < size → slice_index marks.new (start + k) ≡ mark_in (object_slots form.now size) k }
    ensures outside { ChangesOnly marks.old marks.new start size }
{
    for k in 0..form.count(size) {
        mark_slot(marks, start + form.slot(size, k) as usize);
    }
}

/// Marks an object of a size at a place, and the byte behind its end.
fn mark_object(marks: &mut [u8], start: usize, size: u32, form: &Adjuster)
    requires inside { start + size < length marks.old }
    requires apart { AllPairs (λ a b. a + 4 ≤ b) (object_slots form.now size) }
    ensures marked { HasMarks marks.new start size (object_slots form.now size) }
    ensures outside { ChangesOnly marks.old marks.new start (size + 1) }
{
    fill(marks, start, size as usize, BYTE);
    marks[start + size as usize] = NOTHING;
    mark_slots(marks, start, size, form);
}

/// Says whether 1, 2, 4 or 8 marks from a place on are all those of bytes outside of slots: one read and one comparison.
#[inline(always)]
fn all_bytes(marks: &[u8], at: usize, n: u32) -> bool
    requires width { (n ≡ 1) ⊎ ((n ≡ 2) ⊎ ((n ≡ 4) ⊎ (n ≡ 8))) }
    requires inside { at + n ≤ length marks.now }
    ensures { IsTrue result ↔ AreBytes marks.now at n }
{
    match n {
        1 => marks[at] == BYTE,
        2 => u16::from_le_bytes([marks[at], marks[at + 1]]) == 0x0101,
        4 => {
            u32::from_le_bytes([marks[at], marks[at + 1], marks[at + 2], marks[at + 3]])
                == 0x0101_0101
        }
        _ => {
            u64::from_le_bytes([
                marks[at],
                marks[at + 1],
                marks[at + 2],
                marks[at + 3],
                marks[at + 4],
                marks[at + 5],
                marks[at + 6],
                marks[at + 7],
            ]) == 0x0101_0101_0101_0101
        }
    }
}

/// A mark for each byte of memory, by its address, and for each 16 bytes the end of the object in them. The memory of all of them
/// is taken at once, and touched as far as objects were marked.
#[derive(Debug, Drop)]
pub struct Marks {
    /// The marks up to some place behind the last one that was set. Those from there on are of no object.
    list: Vec<u8>,
    size: u32,
    ends: Ends,
}

impl Model for Marks {
    ghost use Rattle.std.specs.Prelude.{◌≤◌, length, vec_capacity};
    ghost use Rattle.byte_memory.specs.Filled.{filled_up};
    ghost use Rattle.byte_marks.specs.declared.TheConstants.{NOTHING};
    ghost use Rattle.byte_marks.specs.Marks.{MarksModel};

    ghost Value = { MarksModel };

    ghost view = { λ m. record { bytes = filled_up m.list.items m.size NOTHING; ends = m.ends } };

    ghost invariant = { λ m. (length m.list.items ≤ m.size) × (m.size ≤ vec_capacity m.list) };
}

impl Marks {
    /// The marks of so many bytes, none of which is one of an object.
    pub fn new(alloc: Global, n: u32) -> Result<Marks, NoMemory>
        ensures { IfOk result (λ marks. marks ≡ no_marks n) }
    {
        Ok(Marks {
            list: Vec::with_capacity(alloc, n as usize)?,
            size: n,
            ends: Ends::new(alloc, n)?,
        })
    }

    /// Marks an object of a size at an address, with elements of a form whose slots do not overlap, and the byte behind its end.
    pub fn mark(&mut self, start: u32, size: u32, form: &Adjuster)
        requires inside { start + size < length self.old.bytes }
        requires granules { (start + size) / 16 < length self.old.ends }
        requires fits { start + size < 2 ^ 32 }
        requires apart { AllPairs (λ a b. a + 4 ≤ b) (object_slots form.now size) }
        ensures marked { IsMarked self.new start size (object_slots form.now size) }
        ensures outside { ChangesMarks self.old self.new start size }
    {
        let at = start as usize;
        reach(&mut self.list, at + size as usize + 1, self.size, NOTHING);
        mark_object(self.list.as_mut_slice(), at, size, form);
        self.ends.put(start, size);
    }

    /// Says whether 1, 2, 4 or 8 bytes from an address on are all bytes of objects outside of slots.
    #[inline(always)]
    pub fn are_bytes(&self, addr: u32, n: u32) -> bool
        requires { (n ≡ 1) ⊎ ((n ≡ 2) ⊎ ((n ≡ 4) ⊎ (n ≡ 8))) }
        ensures { IsTrue result ↔ AreBytes self.now.bytes addr n }
    {
        let marks = self.list.as_slice();
        let at = addr as usize;
        at + n as usize <= marks.len() && all_bytes(marks, at, n)
    }

    /// Says whether a slot starts at an address.
    #[inline(always)]
    pub fn is_slot(&self, addr: u32) -> bool
        ensures { IsTrue result ↔ IsSlotAt self.now.bytes addr }
    {
        let marks = self.list.as_slice();
        let at = addr as usize;
        at < marks.len() && marks[at] == SLOT
    }

    /// The end of the object to which an address leads, or 0 of null: the address behind its last byte.
    #[inline(always)]
    pub fn end(&self, addr: u32) -> u32
        requires { IsKnown self.now.ends addr }
        ensures { result ≡ slice_index self.now.ends (addr / 16) }
    {
        let _ = &self.list;
        self.ends.get(addr)
    }
}
