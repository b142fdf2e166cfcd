//! Counts that follow the pointers in slots.

ghost use Rattle.std.specs.Prelude.{◌+◌, ◌*◌, ◌/◌, ◌^◌, ◌<◌, ◌≤◌, ℕ, ◌∷◌, [], All, length, sum, slice_index};
ghost use Rattle.c_types.specs.Layouts.{AreSlots};
ghost use Rattle.adjusters.specs.ObjectSlots.{object_slots};
ghost use Rattle.typed_copies.specs.Pointers.{Follow, HaveRoom, into_granule, words_in, Cover};
ghost use Rattle.typed_copies.specs.Ranges.{HasGranules, range_words};

use crate::Ranged;
use crate::slots::Within;
use adjusters::Adjuster;
use byte_memory::{FlatBytes, Steps};
use count_table::Counts;
use std::sync::ledger::Ledger;

/// Takes a pointer off the counts by its address; 0 is null, which does not count. At most one step.
fn take_one<L: Ledger>(counts: &mut Counts, addr: u32, steps: &mut Steps<L>)
    requires { 0 < addr → 0 < slice_index counts.old.counts (addr / 16) }
    ensures follow { Follow counts.old counts.new (addr ∷ []) [] }
    ensures work { steps.new ≤ steps.old + 1 }
{
    if addr != 0 {
        counts.dec(addr / 16, steps);
    }
}

/// Adds a pointer to the counts by its address; 0 is null, which does not count. At most one step.
fn add_one<L: Ledger>(counts: &mut Counts, addr: u32, steps: &mut Steps<L>)
    requires granule { addr / 16 < length counts.old.counts }
    requires room { 0 < addr → sum counts.old.counts < counts.old.most }
    ensures follow { Follow counts.old counts.new [] (addr ∷ []) }
    ensures work { steps.new ≤ steps.old + 1 }
{
    if addr != 0 {
        counts.inc(addr / 16, steps);
    }
}

/// Takes the pointers in some slots of an object off the counts. At most two steps for each slot.
pub(crate) fn take_off<L: Ledger>(
    bytes: &FlatBytes,
    counts: &mut Counts,
    form: &Adjuster,
    range: Ranged,
    within: Within,
    steps: &mut Steps<L>,
)
    requires form { AreSlots 0 form.now.size form.now.slots }
    requires within { within.first + within.count ≤ length (object_slots form.now range.size) }
    requires inside { range.start + range.size ≤ length bytes.now }
    requires reach { length bytes.now < 2 ^ 32 }
    requires covered { Cover counts.old (range_words form.now bytes.now range within) }
    ensures follow { Follow counts.old counts.new (range_words form.now bytes.now range within) [] }
    ensures work { steps.new ≤ steps.old + 2 * within.count }
{
    for k in 0..within.count {
        let slot = form.slot(range.size, within.first + k);
        let addr = bytes.read(range.start + slot, 4, steps) as u32;
        take_one(counts, addr, steps);
    }
}

/// Adds the pointers in some slots of an object to the counts. At most two steps for each slot.
pub(crate) fn put_on<L: Ledger>(
    bytes: &FlatBytes,
    counts: &mut Counts,
    form: &Adjuster,
    range: Ranged,
    within: Within,
    steps: &mut Steps<L>,
)
    requires form { AreSlots 0 form.now.size form.now.slots }
    requires within { within.first + within.count ≤ length (object_slots form.now range.size) }
    requires inside { range.start + range.size ≤ length bytes.now }
    requires reach { length bytes.now < 2 ^ 32 }
    requires granules { HasGranules counts.old (range_words form.now bytes.now range within) }
    requires room { HaveRoom counts.old [] (range_words form.now bytes.now range within) }
    ensures follow { Follow counts.old counts.new [] (range_words form.now bytes.now range within) }
    ensures work { steps.new ≤ steps.old + 2 * within.count }
{
    for k in 0..within.count {
        let slot = form.slot(range.size, within.first + k);
        let addr = bytes.read(range.start + slot, 4, steps) as u32;
        add_one(counts, addr, steps);
    }
}
