//! The pointers that count: those inside objects, and those that the caller pins.

ghost use Rattle.std.specs.Prelude.{◌≡◌, ◌+◌, ◌/◌, ◌<◌, ◌≤◌, length, slice_index, sum};
ghost use Rattle.flat_objects.specs.Memory.{SameFrame};
ghost use Rattle.flat_objects.specs.Keeping.{StillKeeps};
ghost use Rattle.flat_objects.specs.Counting.{IsPinnable, IsUnpinnable, Pins, Unpins, count_at, counts_without, one_less, one_more, target_in, with_target};

use crate::memory::FlatObjects;
use byte_memory::Steps;
use count_table::Counts;
use std::sync::ledger::Ledger;

/// One more for the granule of an address. Null is in none.
#[inline(always)]
fn count<L: Ledger>(counts: &mut Counts, addr: u32, steps: &mut Steps<L>)
    requires granule { addr / 16 < length counts.old.counts }
    requires room { sum counts.old.counts < counts.old.most }
    ensures count { counts.new ≡ one_more counts.old addr }
    ensures work { steps.new ≤ steps.old + 1 }
{
    if addr != 0 {
        counts.inc(addr / 16, steps);
    }
}

/// One less for the granule of an address. Null is in none.
#[inline(always)]
fn uncount<L: Ledger>(counts: &mut Counts, addr: u32, steps: &mut Steps<L>)
    requires granule { addr / 16 < length counts.old.counts }
    requires some { 0 < addr → 0 < slice_index counts.old.counts (addr / 16) }
    ensures count { counts.new ≡ one_less counts.old addr }
    ensures work { steps.new ≤ steps.old + 1 }
{
    if addr != 0 {
        counts.dec(addr / 16, steps);
    }
}

impl FlatObjects {
    /// Writes an address over that in a slot: the one that stood there counts no longer, and the new one does. At most four
    /// steps.
    #[inline(always)]
    pub(crate) fn put_pointer<L: Ledger>(&mut self, slot: u32, target: u32, steps: &mut Steps<L>)
        requires inside { slot + 4 ≤ length self.old.bytes }
        requires goes_from { target_in self.old slot / 16 < length self.old.counts.counts }
        requires goes { 0 < target_in self.old slot → 0 < count_at self.old (target_in self.old slot) }
        requires comes_to { target / 16 < length self.old.counts.counts }
        requires room { sum (counts_without self.old slot).counts < self.old.counts.most }
        ensures put { self.new ≡ with_target self.old slot target }
        ensures work { steps.new ≤ steps.old + 4 }
    {
        let old = self.bytes.read(slot, 4, steps) as u32;
        uncount(&mut self.counts, old, steps);
        count(&mut self.counts, target, steps);
        self.bytes.write(slot, 4, u64::from(target), steps);
    }

    /// Counts a pointer that stands outside of all objects, by its address. Null counts nowhere. At most one step.
    #[inline(always)]
    pub fn pin<L: Ledger>(&mut self, addr: u32, steps: &mut Steps<L>)
        requires { IsPinnable self.old addr }
        ensures keeps { StillKeeps self.old self.new }
        ensures tracks { Pins self.old self.new addr }
        ensures frame { SameFrame self.old self.new }
        ensures work { steps.new ≤ steps.old + 1 }
    {
        count(&mut self.counts, addr, steps);
    }

    /// Counts a pinned pointer no longer, by its address. At most one step.
    #[inline(always)]
    pub fn unpin<L: Ledger>(&mut self, addr: u32, steps: &mut Steps<L>)
        requires { IsUnpinnable self.old addr }
        ensures keeps { StillKeeps self.old self.new }
        ensures tracks { Unpins self.old self.new addr }
        ensures frame { SameFrame self.old self.new }
        ensures work { steps.new ≤ steps.old + 1 }
    {
        uncount(&mut self.counts, addr, steps);
    }
}
