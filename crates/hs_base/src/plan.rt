//! Planned failures: the calls, counted from 1, that are to fail.

ghost use Rattle.std.specs.Prelude.{◌≡◌, ◌+◌, ◌<◌, ◌^◌, ◌↔◌, [], IsTrue};
ghost use Rattle.hs_base.specs.Plan.{IsPlanned, with_call, with_fault};

use crate::items::Items;
use std::marker::Model;

/// Which calls are to fail, how many were made, and how many failed.
#[derive(Drop)]
pub(crate) struct Plan {
    fails: Items<u64>,
    calls: u64,
    faults: u64,
}

impl Model for Plan {
    ghost use Rattle.hs_base.specs.Plan.{Planned};

    ghost Value = { Planned };

    ghost view = { λ p. record { fails = p.fails; calls = p.calls; faults = p.faults } };
}

impl Plan {
    /// No call was made yet.
    pub(crate) fn new(fails: Items<u64>) -> Plan
        ensures { result ≡ record { fails = fails; calls = 0; faults = 0 } }
    {
        Plan {
            fails,
            calls: 0,
            faults: 0,
        }
    }

    /// Whether no call is to fail.
    pub(crate) fn is_empty(&self) -> bool
        ensures { IsTrue result ↔ (self.now.fails ≡ []) }
    {
        self.fails.is_empty()
    }

    /// Counts a call, and says whether it is to fail.
    pub(crate) fn call(&mut self) -> bool
        ensures calls { self.new ≡ with_call self.old }
        ensures planned { IsTrue result ↔ IsPlanned self.old }
    {
        self.calls = self.calls.saturating_add(1);
        self.fails.as_slice().contains(&self.calls)
    }

    /// Counts a fault.
    pub(crate) fn fault(&mut self)
        requires { self.old.faults + 1 < 2 ^ 64 }
        ensures { self.new ≡ with_fault self.old }
    {
        self.faults += 1;
    }
}
