//! The object of an address.

ghost use Rattle.std.specs.Prelude.{◌+◌, ◌^◌, ◌<◌, ◌≤◌, length};
ghost use Rattle.flat_objects.specs.Keeping.{IsKept};
ghost use Rattle.flat_objects.specs.Reaching.{IsFoundAt, IsOwner, IsOwnerInSome, IsSpotAt};

use crate::memory::FlatObjects;
use byte_memory::Steps;
use heap_blocks::{HEADER_SIZE, Header};
use std::sync::ledger::Ledger;

/// An offset in an object: the address of the object's first byte, the offset, and the object's size in bytes.
#[derive(Clone, Copy, Debug, PartialEq, Eq)]
pub(crate) struct Spot {
    pub(crate) start: u32,
    pub(crate) offset: u32,
    pub(crate) size: u32,
}

/// An offset in an object, as in [`Spot`], and the number of the layout of the object's elements.
#[derive(Clone, Copy, Debug, PartialEq, Eq)]
pub(crate) struct Found {
    pub(crate) start: u32,
    pub(crate) offset: u32,
    pub(crate) size: u32,
    pub(crate) layout: u32,
}

impl FlatObjects {
    /// The start of the object whose block holds the byte at an address of a range. The answer is that of one of the ranges.
    #[inline(always)]
    pub(crate) fn owner<L: Ledger>(&self, addr: u32, steps: &mut Steps<L>) -> Option<u32>
        ensures owner { IsOwner self.now addr result }
        ensures from { IsOwnerInSome self.now addr result }
        ensures work { steps.new ≤ steps.old + 4 }
    {
        if addr < self.locals_from {
            self.statics.owner(&self.bytes, addr, steps)
        } else if addr < self.heap_from {
            self.locals.owner(&self.bytes, addr, steps)
        } else {
            self.heap.owner(&self.bytes, addr, steps)
        }
    }

    /// The object of an address that is not null, and its offset in it. At most ten steps.
    #[inline(always)]
    pub(crate) fn spot<L: Ledger>(&self, addr: u32, steps: &mut Steps<L>) -> Spot
        requires kept { IsKept self.now addr }
        requires some { 0 < addr }
        ensures spot { IsSpotAt self.now addr result }
        ensures inside { result.offset ≤ result.size }
        ensures header { HEADER_SIZE ≤ result.start }
        ensures reach { result.start + result.size < length self.now.bytes }
        ensures small { result.start + result.size < 2 ^ 32 }
        ensures work { steps.new ≤ steps.old + 10 }
    {
        let Some(start) = self.owner(addr, steps) else {
            unreachable!()
        };
        let block = start - HEADER_SIZE;
        Spot {
            start,
            offset: addr - start,
            size: Header::read_size(&self.bytes, block, steps),
        }
    }

    /// The object of an address that is not null, with its layout, and its offset in it. At most eleven steps.
    #[inline(always)]
    pub(crate) fn find<L: Ledger>(&self, addr: u32, steps: &mut Steps<L>) -> Found
        requires kept { IsKept self.now addr }
        requires some { 0 < addr }
        ensures found { IsFoundAt self.now addr result }
        ensures inside { result.offset ≤ result.size }
        ensures small { result.start + result.size < 2 ^ 32 }
        ensures work { steps.new ≤ steps.old + 11 }
    {
        let spot = self.spot(addr, steps);
        let block = spot.start - HEADER_SIZE;
        Found {
            start: spot.start,
            offset: spot.offset,
            size: spot.size,
            layout: Header::read_layout(&self.bytes, block, steps),
        }
    }
}
