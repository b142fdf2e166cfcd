//! The heap: which of its bytes are held.

ghost use Rattle.std.specs.Prelude.{◌≡◌, ℕ, ◌+◌, ◌*◌, ◌/◌, ◌%◌, ◌^◌, ◌<◌, ◌≤◌, List, [], length, replicate, Contains, IfOk, IfSome, IfNone, MatchOption, option_map};
ghost use Rattle.byte_memory.specs.Bytes.{part};
ghost use Rattle.hs_base.specs.Place.{Block, block_size, rounded_up, with_block, without_block};
ghost use Rattle.heap_blocks.specs.Bytes.{ChangesOnly};
ghost use Rattle.heap_blocks.specs.Heads.{new_header};
ghost use Rattle.heap_blocks.specs.Runs.{HasNoRun, IsFirstRun};
ghost use Rattle.heap_blocks.specs.Held.{Holds, HasAddress, HasBounds, HasHeaders, HaveOwnBirths, IsHeap, IsHeldObject, IsNewObject, IsObject, IsPlaced, IsWithin, address_of, fit_of, owner_of};
ghost use Rattle.heap_blocks.specs.Calls.{EachHeaded, EachHeld, FindsRun, StepsIfFound, address_for, held_with, AnswersOwner, ChangesBlock, ForOwner, GainsHeader, IsPlacedObject};

use crate::headers::{HEADER_SIZE, Header};
use crate::marks::{Mark, Marks};
use byte_memory::{FlatBytes, Steps};
use hole_tree::Holes;
use hs_base::{Line, NoMemory};
use std::alloc::Global;
use std::marker::Model;
use std::sync::ledger::Ledger;

/// Sets so many words of 8 bytes to 0, with a step for each.
fn clear<L: Ledger>(bytes: &mut FlatBytes, from: u32, words: u32, steps: &mut Steps<L>)
    requires inside { from + 8 * words ≤ length bytes.old }
    requires fits { from + 8 * words < 2 ^ 32 }
    ensures zero { part bytes.new from (8 * words) ≡ replicate (8 * words) 0 }
    ensures outside { ChangesOnly bytes.old bytes.new from (8 * words) }
    ensures steps { steps.new ≡ steps.old + words }
{
    for word in 0..words {
        bytes.write(from + 8 * word, 8, 0, steps);
    }
}

/// Writes a header at the start of a block and sets the rest of the block to 0.
fn write_block<L: Ledger>(bytes: &mut FlatBytes, block: u32, header: &Header, steps: &mut Steps<L>)
    requires inside { block + block_size header.now.size ≤ length bytes.old }
    requires fits { block + block_size header.now.size < 2 ^ 32 }
    ensures placed { IsPlaced bytes.old bytes.new (block + HEADER_SIZE) (block_size header.now.size) header.now }
    ensures steps { steps.new ≡ steps.old + (7 + rounded_up (header.now.size + 1) / 8) }
{
    header.write(bytes, block, steps);
    clear(
        bytes,
        block + HEADER_SIZE,
        2 * (header.size / 16 + 1),
        steps,
    );
}

/// A range of addresses, and which of its bytes are held by blocks.
#[derive(Debug, Drop)]
pub struct Heap {
    base: u32,
    len: u32,
    marks: Marks,
    holes: Holes,
}

impl Model for Heap {
    ghost use Rattle.heap_blocks.specs.Held.{HeapModel, IsHeapWithHoles};

    ghost Value = { HeapModel };

    ghost view = { λ h. record { base = h.base; len = h.len; marks = h.marks } };

    ghost invariant = { λ h. IsHeapWithHoles h.base h.len h.marks h.holes };
}

impl Heap {
    /// A heap of so many bytes from a base address on, all of them free. It takes all memory that later calls need.
    pub fn new(alloc: Global, base: u32, len: u32) -> Result<Heap, NoMemory>
        requires aligned { base % 16 ≡ 0 }
        requires fits { base + len < 2 ^ 32 }
        ensures bounds { IfOk result (HasBounds base len) }
        ensures free { IfOk result (λ heap. Holds heap []) }
    {
        Ok(Heap {
            base,
            len,
            marks: Marks::new(alloc, len / 16)?,
            holes: Holes::new(alloc, len / 16)?,
        })
    }

    /// The address at which it begins, a multiple of 16.
    pub fn base(&self) -> u32
        ensures base { result ≡ self.now.base }
        ensures aligned { result % 16 ≡ 0 }
    {
        self.base
    }

    /// The address behind its last byte.
    pub fn end(&self) -> u32
        ensures { result ≡ self.now.base + self.now.len }
    {
        self.base + self.len
    }

    /// The lowest place for an object of a size, in 16 bytes from the base on. The heap stays.
    fn room(&mut self, size: u64) -> Option<u32>
        ensures same { self.new ≡ self.old }
        ensures shape { IsHeap self.old.base self.old.len self.old.marks }
        ensures place { FindsRun self.old.marks (size / 16 + 3) result }
    {
        if size >= u64::from(self.len) {
            return None;
        }
        let count = size as u32 / 16 + 3;
        self.holes.settle(count);
        self.holes.first(count)
    }

    /// Places a block by first fit and answers the address of its object, all of whose bytes are 0. Nothing changes
    /// where no place is free. Seven steps for the header, and one for each 8 bytes behind it.
    pub fn place<L: Ledger>(
        &mut self,
        bytes: &mut FlatBytes,
        size: u64,
        layout: u32,
        line: Line,
        birth: u64,
        steps: &mut Steps<L>,
    ) -> Option<u32>
        requires reach { self.old.base + self.old.len ≤ length bytes.old }

        // What is held, for each list of blocks that the heap holds.
        ensures bounds { HasBounds self.old.base self.old.len self.new }
        ensures address { EachHeld self.old (λ held. result ≡ address_for self.old held size) }
        ensures held { EachHeld self.old (λ held. Holds self.new (held_with self.old held birth size)) }
        ensures headers { GainsHeader self.old self.new bytes.old bytes.new birth size }
        ensures object { EachHeaded self.old bytes.old (λ held. IfSome result (IsNewObject self.new bytes.new held birth size)) }

        // The bytes.
        ensures long { length bytes.new ≡ length bytes.old }
        ensures aligned { IfSome result (λ addr. addr % 16 ≡ 0) }
        ensures within { IfSome result (IsWithin self.old size) }
        ensures placed { IfSome result (IsPlacedObject bytes.old bytes.new birth size layout line) }
        ensures beside { ChangesOnly bytes.old bytes.new self.old.base self.old.len }
        ensures none { IfNone result ((self.new ≡ self.old) × (bytes.new ≡ bytes.old)) }
        ensures steps { StepsIfFound result steps.old steps.new (7 + rounded_up (size + 1) / 8) }
    {
        let Some(from) = self.room(size) else {
            return None;
        };
        let count = size as u32 / 16 + 3;
        self.holes.take(from, count);
        self.marks.fill(from, count, Mark::Of(from));
        let block = self.base + 16 * from;
        let header = Header::new(birth, size as u32, layout, line);
        write_block(bytes, block, &header, steps);
        Some(block + HEADER_SIZE)
    }

    /// Gives back the block of the object at an address. No byte outside the block changes. At most four steps.
    pub fn release<L: Ledger>(&mut self, bytes: &mut FlatBytes, addr: u32, steps: &mut Steps<L>)
        requires reach { self.old.base + self.old.len ≤ length bytes.old }
        requires object { IsHeldObject self.old bytes.old addr }
        ensures bounds { HasBounds self.old.base self.old.len self.new }
        ensures held { ForOwner self.old bytes.old addr (λ held b. HaveOwnBirths held → Holds self.new (without_block held b.birth)) }
        ensures headers { ForOwner self.old bytes.old addr (λ held b. HasHeaders self.new.base bytes.new (without_block held b.birth)) }
        ensures long { length bytes.new ≡ length bytes.old }
        ensures outside { ForOwner self.old bytes.old addr (λ _ b. ChangesBlock self.old b bytes.old bytes.new) }
        ensures beside { ChangesOnly bytes.old bytes.new self.old.base self.old.len }
        ensures least { steps.old ≤ steps.new }
        ensures most { steps.new ≤ steps.old + 4 }
    {
        let block = addr - HEADER_SIZE;
        let size = Header::read_size(bytes, block, steps);
        let from = (block - self.base) / 16;
        let count = size / 16 + 3;
        self.holes.give(from, count);
        self.marks.fill(from, count, Mark::Free);
    }

    /// The address of the object whose block holds the byte at an address, if one does. It reads one mark, and no byte.
    /// At most four steps.
    #[inline(always)]
    pub fn owner<L: Ledger>(
        &self,
        bytes: &FlatBytes,
        addr: u32,
        steps: &mut Steps<L>,
    ) -> Option<u32>
        ensures owner { EachHeld self.now (λ held. result ≡ owner_of self.now held addr) }
        ensures held { AnswersOwner self.now addr result }
        ensures reach { self.now.base + self.now.len < 2 ^ 32 }
        ensures least { steps.old ≤ steps.new }
        ensures most { steps.new ≤ steps.old + 4 }
    {
        if addr < self.base {
            return None;
        }
        let place = (addr - self.base) as usize / 16;
        match self.marks.get(place) {
            Mark::Of(start) => Some(self.base + 16 * start + HEADER_SIZE),
            Mark::Free => None,
        }
    }
}
