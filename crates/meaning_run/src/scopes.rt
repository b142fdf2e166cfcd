//! Scopes, and the check where the outermost one is closed.

ghost use Rattle.std.specs.Prelude.{◌≡◌, ◌+◌, ◌<◌, ◌^◌, ℕ, List, None, Some, IfOk, MatchOption};
ghost use Rattle.hs_base.specs.Freeing.{first_held};
ghost use Rattle.hs_base.specs.State as state;
ghost use Rattle.hs_base.specs.Trace.{Event};
ghost use Rattle.meaning_state.specs.Fitting.{Held, held_after};
ghost use Rattle.object_meaning.specs.objects.Holding.{holders, first_of};
ghost use Rattle.object_meaning.specs.objects.Scoping.{is_held, bury, checked, in_scope, enter, leave};
ghost use Rattle.meaning_run.specs.Leading.{Alone, AlonePlaced, IsSilent, with_input};
ghost use Rattle.meaning_run.specs.Steps.{IsFirstHeld, PlacesBehind, Leads, Places};

use crate::halt::Halt;
use crate::machine::Machine;
use core_tree::Core;
use hs_base::{BadFree, Holder, NoMemory, Reason};
use meaning_state::HeldBlocks;
use std::alloc::Global;

impl Machine {
    /// The first queued object that is held, with its first holder.
    fn first_held(&self, alloc: Global, core: &Core) -> Result<Option<(u64, Holder)>, NoMemory>
        ensures { IfOk result (IsFirstHeld core.now self.now) }
    {
        for i in 0..self.queue.len() {
            let birth = self.queue[i];
            if let Some(holder) = self.holder(alloc, core, birth)? {
                return Ok(Some((birth, holder)));
            }
        }
        Ok(None)
    }

    /// All queued objects die.
    fn bury(&mut self, alloc: Global)
        ensures { self.new ≡ bury self.old }
    {
        self.objects.bury();
        self.queue = Vec::new(alloc);
        self.scopes = 0;
    }

    /// The check: the queued objects die, or the first that is held stops the run.
    #[tactic(auto, using(crate::proofs::Silent::out_gone, crate::proofs::Silent::in_gone))]
    fn check(&mut self, alloc: Global, core: &Core, held: &mut HeldBlocks) -> Result<(), Halt>
        requires { self.old.running.point + 1 < 2 ^ 64 }
        ensures { PlacesBehind (checked core.now) self.old self.new held.old held.new result }
    {
        match self.first_held(alloc, core)? {
            None => {
                held.release(self.queue.as_slice());
                self.bury(alloc);
                self.go_on();
                Ok(())
            }
            Some((birth, holder)) => {
                let why = BadFree {
                    reason: Reason::Held,
                    line: self.objects.line_of_free(birth),
                };
                Err(Halt::BadFree(why, Some(holder)))
            }
        }
    }

    /// One scope is open.
    fn open(&mut self)
        ensures { self.new ≡ record self.old { scopes = 1 } }
    {
        self.scopes = 1;
    }

    /// Goes on behind a free, which has a scope of its own where none is open.
    pub(crate) fn in_scope(
        &mut self,
        alloc: Global,
        core: &Core,
        held: &mut HeldBlocks,
    ) -> Result<(), Halt>
        requires { self.old.running.point + 1 < 2 ^ 64 }
        ensures { PlacesBehind (in_scope core.now self.old.scopes) self.old self.new held.old held.new result }
    {
        if self.scopes == 0 {
            self.open();
            return self.check(alloc, core, held);
        }
        self.go_on();
        Ok(())
    }

    /// A scope is opened.
    pub(crate) fn enter_scope(&mut self) -> Result<(), Halt>
        requires { self.old.running.point + 1 < 2 ^ 64 }
        ensures { Leads enter self.old self.new result }
    {
        if self.scopes == u64::MAX {
            return Err(Halt::NoMemory);
        }
        self.scopes += 1;
        self.go_on();
        Ok(())
    }

    /// A scope is closed, the outermost one with a check.
    pub(crate) fn leave_scope(
        &mut self,
        alloc: Global,
        core: &Core,
        held: &mut HeldBlocks,
    ) -> Result<(), Halt>
        requires { self.old.running.point + 1 < 2 ^ 64 }
        ensures { Places (leave core.now self.old.scopes) self.old self.new held.old held.new result }
    {
        match self.scopes {
            0 => Err(Halt::Dangling),
            1 => self.check(alloc, core, held),
            _ => {
                self.scopes -= 1;
                self.go_on();
                Ok(())
            }
        }
    }
}
