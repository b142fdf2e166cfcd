//! The check at the end of the outermost scope.

ghost use Rattle.std.specs.Prelude.{◌≡◌, ◌+◌, ◌*◌, ◌≤◌, ◌∷◌, [], ℕ, List, length, not, nat_eq, slice_index};
ghost use Rattle.std.specs.List.{sum_by};
ghost use Rattle.byte_memory.specs.Bytes.{word};
ghost use Rattle.hs_base.specs.Freeing.{first_held};
ghost use Rattle.delay_scopes.specs.Pointers.{LowersBy, into_granule, slots_of, words_in, words_inside};
ghost use Rattle.delay_scopes.specs.Check.{granules_of, checked};
ghost use Rattle.delay_scopes.specs.Walks.{AreCovered, IsChain, IsCovered, IsInside};
ghost use Rattle.delay_scopes.specs.Ends.{Checks, ChecksWithin, Cover, FindsHeld, FindsWithin, TakesOff, TakesOffWithin, has_counts};

use crate::scopes::Scopes;
use adjusters::Adjuster;
use byte_memory::{FlatBytes, Steps};
use count_table::Counts;
use heap_blocks::{HEADER_SIZE, Header};
use hs_base::Items;
use std::sync::ledger::Ledger;

/// Takes the pointers in the slots of an object off the counts of the granules that they lead into. At most two steps, and
/// two for each slot.
pub fn take_off_object<L: Ledger>(
    bytes: &FlatBytes,
    counts: &mut Counts,
    forms: &Items<Adjuster>,
    addr: u32,
    steps: &mut Steps<L>,
)
    requires { IsCovered bytes.now counts.old forms.now addr }
    ensures counts { LowersBy (words_in forms.now bytes.now addr) counts.old counts.new }
    ensures work { steps.new ≤ steps.old + (2 + 2 * length (slots_of forms.now bytes.now addr)) }
{
    let block = addr - HEADER_SIZE;
    let size = Header::read_size(bytes, block, steps);
    let layout = Header::read_layout(bytes, block, steps);
    let Some(form) = forms.get(layout as usize) else {
        unreachable!()
    };
    for k in 0..form.count(size) {
        take_off(bytes, counts, addr + form.slot(size, k), steps);
    }
}

/// Takes the pointer in a slot at an address off the count of the granule that it leads into, where it is not null.
fn take_off<L: Ledger>(bytes: &FlatBytes, counts: &mut Counts, slot: u32, steps: &mut Steps<L>)
    requires inside { slot + 4 ≤ length bytes.now }
    requires covered { Cover counts.old (word bytes.now slot 4 ∷ []) }
    ensures counts { LowersBy (word bytes.now slot 4 ∷ []) counts.old counts.new }
    ensures work { steps.new ≤ steps.old + 2 }
{
    let pointer = bytes.read(slot, 4, steps) as u32;
    if pointer != 0 {
        counts.dec(pointer / 16, steps);
    }
}

/// Says whether counts are left for the block of an object. One step, and one for each granule of the block.
pub fn is_held<L: Ledger>(
    bytes: &FlatBytes,
    counts: &Counts,
    addr: u32,
    steps: &mut Steps<L>,
) -> bool
    requires inside { IsInside bytes.now addr }
    requires granules { length bytes.now ≤ 16 * length counts.now.counts }
    ensures held { result ≡ has_counts counts.now.counts bytes.now addr }
    ensures work { steps.new ≤ steps.old + (1 + length (granules_of bytes.now addr)) }
{
    let block = addr - HEADER_SIZE;
    let size = Header::read_size(bytes, block, steps);
    counts.total(block / 16, size / 16 + 3, steps) != 0
}

impl Scopes {
    /// Takes the pointers in the slots of all queued objects off the counts.
    fn take_off_all<L: Ledger>(
        &self,
        bytes: &FlatBytes,
        counts: &mut Counts,
        forms: &Items<Adjuster>,
        steps: &mut Steps<L>,
    )
        requires { (queue : List ℕ) × AreCovered self.now bytes.now counts.old forms.now queue }
        ensures counts { TakesOff self.now bytes.now counts.old forms.now counts.new }
        ensures work { TakesOffWithin self.now bytes.now counts.old forms.now steps.old steps.new }
    {
        let mut block = self.first;
        for _place in 0..self.waiting {
            take_off_object(bytes, counts, forms, block + HEADER_SIZE, steps);
            block = Header::read_next(bytes, block, steps);
        }
    }

    /// The first queued object for whose block counts are left.
    fn find_held<L: Ledger>(
        &self,
        bytes: &FlatBytes,
        counts: &Counts,
        steps: &mut Steps<L>,
    ) -> Option<u32>
        requires chain { (queue : List ℕ) × IsChain self.now bytes.now queue }
        requires granules { length bytes.now ≤ 16 * length counts.now.counts }
        ensures held { FindsHeld self.now bytes.now counts.now result }
        ensures work { FindsWithin self.now bytes.now steps.old steps.new }
    {
        let mut block = self.first;
        for _place in 0..self.waiting {
            if is_held(bytes, counts, block + HEADER_SIZE, steps) {
                return Some(block + HEADER_SIZE);
            }
            block = Header::read_next(bytes, block, steps);
        }
        None
    }

    /// Takes the pointers inside the queued objects off the counts, and answers the first queued object for whose block
    /// counts are left.
    pub(crate) fn check<L: Ledger>(
        &self,
        bytes: &FlatBytes,
        counts: &mut Counts,
        forms: &Items<Adjuster>,
        steps: &mut Steps<L>,
    ) -> Option<u32>
        requires covered { (queue : List ℕ) × AreCovered self.now bytes.now counts.old forms.now queue }
        requires granules { length bytes.now ≤ 16 * length counts.old.counts }
        ensures answer { Checks self.now bytes.now counts.old forms.now result }
        ensures counts { TakesOff self.now bytes.now counts.old forms.now counts.new }
        ensures work { ChecksWithin self.now bytes.now counts.old forms.now steps.old steps.new }
    {
        self.take_off_all(bytes, counts, forms, steps);
        self.find_held(bytes, counts, steps)
    }
}
