//! Instructions that free objects, and the scopes in which a free waits (this project's own: C99 7.20.3.2 leaves a pointer to a
//! freed object indeterminate).

ghost use Rattle.std.specs.Prelude.{◌≡◌, ◌+◌, ◌-◌, ◌<◌, ◌^◌};
ghost use Rattle.flat_code.specs.declared.instructions.Op.TheVariants as ops;
ghost use Rattle.flat_machine.specs.Words.{address_at};
ghost use Rattle.flat_machine.specs.Pinning.{IsStanding};
ghost use Rattle.flat_machine.specs.Groups.{IsFreeing};
ghost use Rattle.flat_machine.specs.Instructions.{ActsFreeing, FreesHanded, LeavesScope, PassesCheck, StopsAtCheck, StopsAtFree, StopsAtFreeing, StopsAtLeave};

use crate::state::State;
use byte_memory::Steps;
use flat_code::{Instr, Op};
use hs_base::{BadFree, End, Holder, Line};
use std::sync::ledger::Ledger;

impl State {
    /// Closes the outermost scope, and goes on. The pointers that count at the instruction are pinned for the time of the check. Where
    /// an object is held, it answers the bad free and the first holder.
    fn check<L: Ledger>(&mut self, steps: &mut Steps<L>) -> Result<(), (BadFree, Option<Holder>)>
        requires point { self.old.calls.running.point + 1 < 2 ^ 64 }
        requires open { self.old.memory.scopes.depth ≡ 1 }
        requires standing { IsStanding self.old }
        ensures checks { PassesCheck self.old self.new result }
        ensures image { StopsAtCheck self.old self.new result }
    {
        self.pin(steps);
        match self.close_scope(steps) {
            Ok(()) => {
                self.unpin(steps);
                self.go_on();
                Ok(())
            }
            Err(bad) => Err((bad, self.first_holder(steps))),
        }
    }

    /// Frees the object at an address where no scope is open: the free has one of its own, which a free that is bad does not
    /// open.
    fn free_alone<L: Ledger>(
        &mut self,
        line: Line,
        addr: u32,
        steps: &mut Steps<L>,
    ) -> Result<(), End>
        requires point { self.old.calls.running.point + 1 < 2 ^ 64 }
        requires open { self.old.memory.scopes.depth ≡ 0 }
        requires standing { IsStanding self.old }
        requires address { addr ≡ address_at self.old.handed 0 }
        requires some { 0 < addr }
        ensures alone { FreesHanded self.old self.new line result }
        ensures image { StopsAtFree self.old self.new line result }
    {
        if let Err(reason) = self.may_free(addr, steps) {
            return Err(End::BadFree(BadFree { reason, line }, None));
        }
        self.open_scope();
        let Ok(()) = self.queue(addr, line, steps) else {
            unreachable!()
        };
        match self.check(steps) {
            Ok(()) => Ok(()),
            Err((bad, holder)) => Err(End::BadFree(bad, holder)),
        }
    }

    /// Frees the object at an address where a scope is open: it waits for the end of that.
    fn free_in_scope<L: Ledger>(
        &mut self,
        line: Line,
        addr: u32,
        steps: &mut Steps<L>,
    ) -> Result<(), End>
        requires point { self.old.calls.running.point + 1 < 2 ^ 64 }
        requires open { 0 < self.old.memory.scopes.depth }
        requires standing { IsStanding self.old }
        requires address { addr ≡ address_at self.old.handed 0 }
        requires some { 0 < addr }
        ensures alone { FreesHanded self.old self.new line result }
        ensures image { StopsAtFree self.old self.new line result }
    {
        if let Err(bad) = self.queue(addr, line, steps) {
            return Err(End::BadFree(bad, None));
        }
        self.go_on();
        Ok(())
    }

    /// Frees the object at an address, which was handed over. A free of null does nothing.
    pub(crate) fn free<L: Ledger>(
        &mut self,
        line: Line,
        addr: u32,
        steps: &mut Steps<L>,
    ) -> Result<(), End>
        requires point { self.old.calls.running.point + 1 < 2 ^ 64 }
        requires standing { IsStanding self.old }
        requires address { addr ≡ address_at self.old.handed 0 }
        ensures alone { FreesHanded self.old self.new line result }
        ensures image { StopsAtFree self.old self.new line result }
    {
        if addr == 0 {
            self.go_on();
            return Ok(());
        }
        if self.scopes() == 0 {
            self.free_alone(line, addr, steps)
        } else {
            self.free_in_scope(line, addr, steps)
        }
    }

    /// Closes a scope, the outermost one with a check.
    fn leave<L: Ledger>(&mut self, steps: &mut Steps<L>) -> Result<(), End>
        requires point { self.old.calls.running.point + 1 < 2 ^ 64 }
        requires open { 0 < self.old.memory.scopes.depth }
        requires standing { IsStanding self.old }
        ensures alone { LeavesScope self.old self.new result }
        ensures image { StopsAtLeave self.old self.new result }
    {
        if self.scopes() == 1 {
            return match self.check(steps) {
                Ok(()) => Ok(()),
                Err((bad, holder)) => Err(End::BadFree(bad, holder)),
            };
        }
        let _ = self.close_scope(steps);
        self.go_on();
        Ok(())
    }

    /// An instruction that frees an object, or opens or closes a scope.
    pub(crate) fn act_freeing<L: Ledger>(
        &mut self,
        line: Line,
        instr: Instr,
        op: Op,
        steps: &mut Steps<L>,
    ) -> Result<(), End>
        requires point { self.old.calls.running.point + 1 < 2 ^ 64 }
        requires freeing { IsFreeing op }
        requires deep { self.old.memory.scopes.depth < 2 ^ 64 - 1 }
        requires open { op ≡ ops.Leave → 0 < self.old.memory.scopes.depth }
        requires standing { IsStanding self.old }
        ensures alone { ActsFreeing self.old self.new line instr op result }
        ensures image { StopsAtFreeing self.old self.new line instr op result }
    {
        match op {
            Op::Free => self.free(line, self.address(0), steps),
            Op::Enter => {
                self.open_scope();
                self.go_on();
                Ok(())
            }
            Op::Leave => self.leave(steps),
            _ => unreachable!(),
        }
    }
}
