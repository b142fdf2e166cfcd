//! Scopes, frees, and the check at the end of the outermost scope. The rules are this language's own (C99 7.20.3.2 leaves a
//! pointer to a freed object indeterminate).

ghost use Rattle.std.specs.Prelude.{◌≡◌, ◌+◌, ◌-◌, ◌^◌, ◌<◌, ◌≤◌};
ghost use Rattle.flat_objects.specs.Memory.{SameFrame};
ghost use Rattle.flat_objects.specs.Keeping.{StillKeeps};
ghost use Rattle.flat_objects.specs.Freeing.{ChecksWithin, ClosesInner, ClosesOutermost, ForScopes, FreesAt, IsFreeable, IsInScope, OpensScope};

use crate::memory::FlatObjects;
use byte_memory::Steps;
use delay_scopes::laws::other_bytes_stay;
use hs_base::{BadFree, Line};
use std::sync::ledger::Ledger;

impl FlatObjects {
    /// Opens a scope.
    pub fn enter(&mut self)
        requires { self.old.scopes.depth < 2 ^ 64 - 1 }
        ensures keeps { StillKeeps self.old self.new }
        ensures tracks { OpensScope self.old self.new }
        ensures frame { SameFrame self.old self.new }
    {
        self.scopes.enter();
    }

    /// How many scopes are open.
    pub fn scopes(&self) -> u64
        ensures { result ≡ self.now.scopes.depth }
    {
        self.scopes.depth()
    }

    /// Queues the heap object that starts at an address, which a free at a line frees. The free is bad, and nothing
    /// changes, where no heap object starts there or where it is queued already. At most nine steps.
    pub fn free<L: Ledger>(
        &mut self,
        addr: u32,
        line: Line,
        steps: &mut Steps<L>,
    ) -> Result<(), BadFree>
        requires { IsFreeable self.old addr }
        ensures answer { FreesAt self.old self.new addr line result }
        ensures frame { SameFrame self.old self.new }
        ensures work { steps.new ≤ steps.old + 9 }
    {
        self.scopes
            .queue(&self.heap, &mut self.bytes, addr, line, steps)
    }

    /// Closes a scope. At the end of the outermost one the check is made: the first queued object to which a pointer
    /// counts that is not inside a queued object is a bad free, at the line of its own free. With none, all queued objects
    /// are dead and their blocks are given back in the order of their frees. After a bad free the objects, the
    /// queue and the open scopes are as they were, and the counts are of no more use.
    ///
    /// The end of an inner scope takes no step, and the check for each queued object at most 16, 2 for each granule of its block
    /// and 4 for each of its slots.
    pub fn leave<L: Ledger>(&mut self, steps: &mut Steps<L>) -> Result<(), BadFree>
        requires { IsInScope self.old }
        ensures inner { ClosesInner self.old self.new result }
        ensures outermost { ClosesOutermost self.old self.new result }
        ensures frame { SameFrame self.old self.new }
        ensures idle { ForScopes self.old (λ _ _ frees. 1 < frees.scopes → steps.new ≡ steps.old) }
        ensures work { ChecksWithin self.old steps.old steps.new }
    {
        other_bytes_stay();
        self.scopes.leave(
            &mut self.heap,
            &mut self.bytes,
            &mut self.counts,
            &self.forms,
            steps,
        )
    }

    /// The address of the object that [`FlatObjects::leave`] found held, if it found one.
    pub fn held(&self) -> Option<u32>
        ensures { result ≡ self.now.scopes.named }
    {
        self.scopes.held()
    }
}
