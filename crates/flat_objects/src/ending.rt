//! The end of the memory locals of a call. The rule is this language's own (C99 6.2.4p2 leaves a pointer to an ended local
//! indeterminate).

ghost use Rattle.std.specs.Prelude.{◌≡◌, ◌*◌, ◌^◌, ◌<◌, ◌≤◌, All, length};
ghost use Rattle.std.specs.List.{position};
ghost use Rattle.delay_scopes.specs.Ends.{has_counts};
ghost use Rattle.delay_scopes.specs.Pointers.{LowersBy, words_inside};
ghost use Rattle.delay_scopes.specs.Walks.{IsInside};
ghost use Rattle.flat_objects.specs.Memory.{SameFrame};
ghost use Rattle.flat_objects.specs.Ending.{AreEndable, EndsLocals};
ghost use Rattle.flat_objects.specs.EndingSteps.{AreCheckable, AreCoveredAt, AreReturnable, ChangesLocals, CountsBeside, GivesAllBack, GivesNextBack, IsFirstHeld, IsNextLocal};

use crate::memory::FlatObjects;
use adjusters::Adjuster;
use byte_memory::{FlatBytes, Steps};
use count_table::Counts;
use delay_scopes::{is_held, take_off_object};
use hs_base::Items;
use std::sync::ledger::Ledger;

/// Takes the pointers in the slots of the objects at these addresses off the counts.
fn take_off_all<L: Ledger>(
    bytes: &FlatBytes,
    counts: &mut Counts,
    forms: &Items<Adjuster>,
    locals: &[u32],
    steps: &mut Steps<L>,
)
    requires { AreCoveredAt bytes.now counts.old forms.now locals.now }
    ensures { LowersBy (words_inside forms.now bytes.now locals.now) counts.old counts.new }
{
    for local in locals {
        take_off_object(bytes, counts, forms, *local, steps);
    }
}

/// The number of the first of the objects at these addresses for whose block counts are left.
fn first_held<L: Ledger>(
    bytes: &FlatBytes,
    counts: &Counts,
    locals: &[u32],
    steps: &mut Steps<L>,
) -> Option<u32>
    requires inside { All (IsInside bytes.now) locals.now }
    requires granules { length bytes.now ≤ 16 * length counts.now.counts }
    requires few { length locals.now < 2 ^ 32 }
    ensures { result ≡ position (has_counts counts.now.counts bytes.now) locals.now }
{
    for (number, local) in locals.iter().enumerate() {
        if is_held(bytes, counts, *local, steps) {
            return Some(number as u32);
        }
    }
    None
}

impl FlatObjects {
    /// Takes the pointers inside these locals off the counts, and answers the number of the first to which one is left.
    fn check_locals<L: Ledger>(&mut self, locals: &[u32], steps: &mut Steps<L>) -> Option<u32>
        requires { AreCheckable self.old locals.now }
        ensures first { IsFirstHeld self.old locals.now result }
        ensures counts { CountsBeside self.old self.new locals.now }
        ensures same { self.new ≡ record self.old { counts = self.new.counts } }
        ensures frame { SameFrame self.old self.new }
    {
        take_off_all(&self.bytes, &mut self.counts, &self.forms, locals, steps);
        first_held(&self.bytes, &self.counts, locals, steps)
    }

    /// Gives the block of the next local back.
    fn give_back<L: Ledger>(&mut self, local: u32, steps: &mut Steps<L>)
        requires { IsNextLocal self.old local }
        ensures given { GivesNextBack self.old self.new local }
        ensures changes { ChangesLocals self.old self.new }
    {
        self.locals.release(&mut self.bytes, local, steps);
    }

    /// Gives the blocks of these locals back.
    fn give_back_all<L: Ledger>(&mut self, locals: &[u32], steps: &mut Steps<L>)
        requires { AreReturnable self.old locals.now }
        ensures keeps { GivesAllBack self.old self.new locals.now }
        ensures changes { ChangesLocals self.old self.new }
    {
        for local in locals {
            self.give_back(*local, steps);
        }
    }

    /// The memory locals at these addresses end, with an answer that is returned: the address of a pointer, 0 for null or
    /// for a number. It answers the number of the first local that escapes, if one does: to which a pointer counts that is
    /// not inside one of these locals, the answer among them. Then the objects, the queue and the open scopes are as they
    /// were, and the counts are of no more use. With none, all these locals are dead, the pointers inside them count no
    /// longer, and their blocks are given back.
    pub fn end_locals<L: Ledger>(
        &mut self,
        locals: &[u32],
        answer: u32,
        steps: &mut Steps<L>,
    ) -> Option<u32>
        requires { AreEndable self.old locals.now answer }
        ensures answer { EndsLocals self.old self.new locals.now answer result }
        ensures frame { SameFrame self.old self.new }
    {
        self.pin(answer, steps);
        let _ = &self.bytes;
        if let Some(number) = self.check_locals(locals, steps) {
            return Some(number);
        }
        self.give_back_all(locals, steps);
        self.unpin(answer, steps);
        None
    }
}
