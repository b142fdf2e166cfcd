//! The first pointer inside an object that leads to another, read anew. It is sought once, behind a bad free at the end of a
//! run: over all objects, and without any memory.

ghost use Rattle.std.specs.Prelude.{◌≡◌, ◌+◌, ◌<◌, ◌≤◌, IfSome};
ghost use Rattle.hs_base.specs.Object.{object_at};
ghost use Rattle.flat_objects.specs.Holders.{ForObject, IsIn, IsSomeObject, older, storage_of};
ghost use Rattle.flat_objects.specs.Searching.{IsFirstHolder, IsFirstSlotOf, IsHoldingIn, IsSomeSized, IsSomeSlots};

use crate::memory::FlatObjects;
use byte_memory::Steps;
use heap_blocks::{HEADER_SIZE, Header, STATE_QUEUED};
use hs_base::Line;
use std::sync::ledger::Ledger;

/// What an object is, by the range of addresses in which it stands (C99 6.2.4 has a storage duration for each).
#[derive(Clone, Copy, Debug, PartialEq, Eq)]
pub enum Storage {
    /// A static, which lives as long as the run.
    Static,
    /// A memory local, which lives as long as its call.
    Local,
    /// A block of the heap, which lives until it is freed.
    Block,
}

/// A pointer inside an object: the birth number of the object, its storage, its line of birth if it is a block of the heap,
/// and the offset of the slot in it.
#[derive(Clone, Copy, Debug, PartialEq, Eq)]
pub struct Holding {
    pub birth: u64,
    pub storage: Storage,
    pub line: Line,
    pub offset: u32,
}

/// The one in the older object.
fn older(one: Option<Holding>, other: Option<Holding>) -> Option<Holding>
    ensures { result ≡ older one other }
{
    match (one, other) {
        (Some(one), Some(other)) if other.birth < one.birth => Some(other),
        (Some(one), _) => Some(one),
        (None, other) => other,
    }
}

impl FlatObjects {
    /// The first slot of the object at a start, of a size and with the layout of a number, that holds a pointer to the object
    /// at a target address, of a size of its own.
    fn first_slot<L: Ledger>(
        &self,
        start: u32,
        size: u32,
        layout: u32,
        target: u32,
        target_size: u32,
        steps: &mut Steps<L>,
    ) -> Option<u32>
        requires { IsSomeSlots self.now start size layout target target_size }
        ensures { IsFirstSlotOf self.now start size layout target target_size result }
    {
        let form = &self.forms.as_slice()[layout as usize];
        for k in 0..form.count(size) {
            let slot = form.slot(size, k);
            let pointer = self.bytes.read(start + slot, 4, steps) as u32;
            if target <= pointer && pointer <= target + target_size {
                return Some(slot);
            }
        }
        None
    }

    /// The storage of the object at an address.
    fn storage(&self, addr: u32) -> Storage
        ensures { ForObject self.now addr (λ _ all birth. result ≡ storage_of (object_at all birth).sort) }
    {
        if addr < self.locals_from {
            Storage::Static
        } else if addr < self.heap_from {
            Storage::Local
        } else {
            Storage::Block
        }
    }

    /// The first pointer to the object at a target address, of a size, inside the object whose block begins at an address, if
    /// one does and it is not queued.
    fn holding_at<L: Ledger>(
        &self,
        block: u32,
        target: u32,
        size: u32,
        steps: &mut Steps<L>,
    ) -> Option<Holding>
        requires { IsSomeSized self.now target size }
        ensures { IsHoldingIn self.now target size block result }
    {
        let _ = &self.bytes;
        let Some(start) = self.owner(block, steps) else {
            return None;
        };
        if start < block || start - block != HEADER_SIZE {
            return None;
        }
        let header = Header::read(&self.bytes, block, steps);
        if header.state == STATE_QUEUED {
            return None;
        }
        match self.first_slot(start, header.size, header.layout, target, size, steps) {
            Some(offset) => Some(Holding {
                birth: header.birth,
                storage: self.storage(start),
                line: header.line,
                offset,
            }),
            None => None,
        }
    }

    /// The first pointer to the object at an address inside objects that are neither dead nor queued, by their births and
    /// then by slots; none where only pointers outside of objects lead to it.
    pub fn first_holder<L: Ledger>(&self, target: u32, steps: &mut Steps<L>) -> Option<Holding>
        requires { IsSomeObject self.now target }
        ensures first { IsFirstHolder self.now target result }
        ensures inside { ForObject self.now target (λ _ all _. IfSome result (IsIn all)) }
    {
        let size = Header::read_size(&self.bytes, target - HEADER_SIZE, steps);
        let mut first = None;
        for granule in 0..self.heap.end() / 16 {
            let found = self.holding_at(16 * granule, target, size, steps);
            first = older(first, found);
        }
        first
    }
}
