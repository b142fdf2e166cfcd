//! Objects that grow (C99 7.20.3.4).

ghost use Rattle.std.specs.Prelude.{◌≡◌, ◌+◌, ◌<◌, ◌^◌};
ghost use Rattle.flat_code.specs.declared.instructions.Op.TheVariants as ops;
ghost use Rattle.flat_machine.specs.Words.{address_at};
ghost use Rattle.flat_machine.specs.Growing.{IsBefore};
ghost use Rattle.flat_machine.specs.Instructions.{ActsGrowing, GrowsHanded, StopsAtGrowing, StopsAtGrowth};
ghost use Rattle.flat_machine.specs.StateMemory.{HasForm};

use crate::making::size_in;
use crate::state::State;
use byte_memory::Steps;
use flat_code::Instr;
use hs_base::{BadFree, End, Line};
use std::sync::ledger::Ledger;

impl State {
    /// Grows the object at an address that is not null. A new object of another size takes the first bytes of the old one, as
    /// many as both have, and a register its address; then the old object is freed, in a scope of its own where none is open.
    /// The pointers that count in that check are those behind the instruction, with the new address. Where the heap has no place
    /// for the new object the register takes null, and the old object stays as it was.
    fn grow_object<L: Ledger>(
        &mut self,
        line: Line,
        instr: Instr,
        size: u64,
        from: u32,
        steps: &mut Steps<L>,
    ) -> Result<(), End>
        requires point { self.old.calls.running.point + 1 < 2 ^ 64 }
        requires births { self.old.births + 1 < 2 ^ 64 }
        requires form { HasForm self.old.memory instr.b }
        requires standing { IsBefore instr ops.Realloc self.old }
        requires address { from ≡ address_at self.old.handed 0 }
        requires some { 0 < from }
        ensures alone { GrowsHanded self.old self.new line instr size result }
        ensures image { StopsAtGrowth self.old self.new line instr size result }
    {
        if let Err(reason) = self.may_free(from, steps) {
            return Err(End::BadFree(BadFree { reason, line }, None));
        }
        let Some(to) = self.new_object(size, instr.b, line, steps) else {
            self.give_address(Some(instr.a), 0);
            return Ok(());
        };
        if let Err(kind) = self.grow(to, from, steps) {
            return Err(End::Trap(kind, line));
        }
        // The check of the free counts the new address.
        self.put_address(instr.a, to);
        self.free(line, from, steps)?;
        Ok(())
    }

    /// An instruction that grows an object; one that grows null makes an object.
    pub(crate) fn act_growing<L: Ledger>(
        &mut self,
        line: Line,
        instr: Instr,
        steps: &mut Steps<L>,
    ) -> Result<(), End>
        requires point { self.old.calls.running.point + 1 < 2 ^ 64 }
        requires births { self.old.births + 1 < 2 ^ 64 }
        requires form { HasForm self.old.memory instr.b }
        requires standing { IsBefore instr ops.Realloc self.old }
        ensures alone { ActsGrowing self.old self.new line instr result }
        ensures image { StopsAtGrowing self.old self.new line instr result }
    {
        let size = size_in(self.integer(1));
        let from = self.address(0);
        if from == 0 {
            self.make(line, instr.a, size, instr.b, steps);
            Ok(())
        } else {
            self.grow_object(line, instr, size, from, steps)
        }
    }
}
