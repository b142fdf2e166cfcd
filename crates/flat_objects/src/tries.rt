//! Tries of frees, which change nothing. The rules are this language's own (C99 7.20.3.2 leaves undefined what a second free of
//! an object does, and a free of what no allocation answered).

ghost use Rattle.std.specs.Prelude.{◌+◌, ◌≤◌, ◌↔◌, IsTrue};
ghost use Rattle.flat_objects.specs.Keeping.{ForKept, IsKept};
ghost use Rattle.flat_objects.specs.Tries.{AnswersTryAt, IsHeapStart};

use crate::memory::FlatObjects;
use byte_memory::Steps;
use heap_blocks::{HEADER_SIZE, Header, STATE_QUEUED};
use hs_base::Reason;
use std::sync::ledger::Ledger;

impl FlatObjects {
    /// Says whether an object of the heap starts at an address. At most four steps.
    pub(crate) fn is_heap_start<L: Ledger>(&self, addr: u32, steps: &mut Steps<L>) -> bool
        ensures start { ForKept self.now (λ places all. IsTrue result ↔ IsHeapStart places all addr) }
        ensures work { steps.new ≤ steps.old + 4 }
    {
        self.heap.owner(&self.bytes, addr, steps) == Some(addr)
    }

    /// Says whether the object at an address that is not null may be freed: `NotStart` where no object of the heap starts
    /// there, and `Again` where it is queued already. At most five steps.
    pub fn may_free<L: Ledger>(&self, addr: u32, steps: &mut Steps<L>) -> Result<(), Reason>
        requires { IsKept self.now addr }
        ensures answer { AnswersTryAt self.now addr result }
        ensures work { steps.new ≤ steps.old + 5 }
    {
        if !self.is_heap_start(addr, steps) {
            return Err(Reason::NotStart);
        }
        if Header::read_state(&self.bytes, addr - HEADER_SIZE, steps) == STATE_QUEUED {
            return Err(Reason::Again);
        }
        Ok(())
    }
}
