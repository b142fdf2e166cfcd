//! Strings that are read and written (C99 7.19.7.10, 7.21.4.2, 7.21.6.3).

ghost use Rattle.std.specs.Prelude.{◌≡◌, ◌+◌, ◌<◌, ◌≤◌, ◌^◌, ℕ, IfErr};
ghost use Rattle.hs_base.specs.Outside.{CountsFaults};
ghost use Rattle.flat_objects.specs.Keeping.{IsKept};
ghost use Rattle.flat_machine.specs.Groups.{IsStringLib};
ghost use Rattle.flat_machine.specs.Leading.{Counted};
ghost use Rattle.flat_machine.specs.Putting.{CountsPut};
ghost use Rattle.flat_machine.specs.Writing.{HasString};
ghost use Rattle.flat_machine.specs.Instructions.{LeadsAlone, plain_next};
ghost use Rattle.flat_machine.specs.Telling.{IsChunk, PutsLine, PutsString};
ghost use Rattle.flat_machine.specs.StateMemory.{KeepsHanded};

use crate::put_error::PutError;
use crate::state::State;
use byte_memory::Steps;
use core_tree::LibName;
use hs_base::{End, Failed, IntKind, Line, Sink, put_all};
use std::sync::ledger::Ledger;

/// How many bytes of a string are written at once.
const CHUNK: usize = 64;

impl State {
    /// The bytes of the string at an address from a place on, as many as are asked for.
    fn chunk<L: Ledger>(
        &self,
        addr: u32,
        from: u32,
        count: u32,
        steps: &mut Steps<L>,
    ) -> [u8; CHUNK]
        requires short { count ≤ 64 }
        requires fits { from + count < 2 ^ 32 }
        requires string { (len : ℕ) × HasString self.now.memory addr len × (from + count ≤ len) }
        ensures { IsChunk self.now.memory addr from count result }
    {
        let mut chunk = [0; CHUNK];
        for i in 0..count {
            chunk[i as usize] = self.string_byte(addr, from + i, steps);
        }
        chunk
    }

    /// Writes the string of so many bytes at an address. After a failure, which is the last call on the sink, a part of it
    /// was taken.
    pub(crate) fn put_string<O: Sink, L: Ledger>(
        &self,
        addr: u32,
        len: u32,
        out: &mut O,
        steps: &mut Steps<L>,
    ) -> Result<(), Failed>
        requires count { O.faults out.old + 1 < 2 ^ 64 }
        requires string { HasString self.now.memory addr len }
        ensures bytes { PutsString (O.taken out.old) (O.taken out.new) self.now.memory addr len result }
        ensures cause { CountsFaults (O.faults out.old) (O.faults out.new) result }
    {
        let mut done = 0;
        while done < len {
            let count = (len - done).min(CHUNK as u32);
            let chunk = self.chunk(addr, done, count, steps);
            put_all(out, &chunk[..count as usize])?;
            done += count;
        }
        Ok(())
    }

    /// Writes the string at an address and a line end. Nothing is written where the string traps.
    pub(crate) fn put_line<O: Sink, L: Ledger>(
        &self,
        addr: u32,
        out: &mut O,
        steps: &mut Steps<L>,
    ) -> Result<(), PutError>
        requires count { O.faults out.old + 1 < 2 ^ 64 }
        requires kept { IsKept self.now.memory addr }
        ensures puts { PutsLine (O.taken out.old) (O.taken out.new) self.now.memory addr result }
        ensures cause { CountsPut (O.faults out.old) (O.faults out.new) result }
    {
        let len = match self.string_length(addr, steps) {
            Ok(len) => len,
            Err(kind) => return Err(PutError::Trapped(kind)),
        };
        self.put_string(addr, len, out, steps)?;
        put_all(out, b"\n")?;
        Ok(())
    }

    /// A call of a built-in function that reads strings; a register takes its answer.
    pub(crate) fn act_string<L: Ledger>(
        &mut self,
        line: Line,
        name: LibName,
        r: Option<u32>,
        steps: &mut Steps<L>,
    ) -> Result<(), End>
        requires point { self.old.calls.running.point + 1 < 2 ^ 64 }
        requires name { IsStringLib name }
        requires kept { KeepsHanded self.old }
        ensures leads { LeadsAlone self.old self.new (plain_next line name r) result }
        ensures faults { (i o : ℕ) → Counted result i i o o }
        ensures unchanged { IfErr result (λ _. self.new ≡ self.old) }
    {
        let p = self.address(0);
        match name {
            LibName::Strlen => match self.string_length(p, steps) {
                Ok(n) => {
                    self.give_number(r, IntKind::U32, i128::from(n));
                    Ok(())
                }
                Err(kind) => Err(End::Trap(kind, line)),
            },
            LibName::Strcmp => match self.string_order(p, self.address(1), steps) {
                Ok(n) => {
                    self.give_number(r, IntKind::I32, n);
                    Ok(())
                }
                Err(kind) => Err(End::Trap(kind, line)),
            },
            _ => unreachable!(),
        }
    }
}
