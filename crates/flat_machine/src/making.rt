//! Instructions that make objects of the heap (C99 7.20.3.1, 7.20.3.3).

ghost use Rattle.std.specs.Prelude.{◌≡◌, ◌+◌, ◌<◌, ◌^◌};
ghost use Rattle.object_meaning.specs.objects.Values.{size_in};
ghost use Rattle.flat_machine.specs.Groups.{IsMaking};
ghost use Rattle.flat_machine.specs.Instructions.{ActsMaking, MakesObject};

use crate::state::State;
use byte_memory::Steps;
use flat_code::{Instr, Op};
use hs_base::Line;
use std::sync::ledger::Ledger;

/// A number converted to `size_t`.
pub(crate) fn size_in(n: i128) -> u64
    ensures value { result ≡ size_in n }
    ensures bound { result < 2 ^ 32 }
{
    n.rem_euclid(1 << 32) as u64
}

impl State {
    /// Makes an object of so many bytes; a register takes its address, or null where the heap has no place for it.
    pub(crate) fn make<L: Ledger>(
        &mut self,
        line: Line,
        r: u32,
        size: u64,
        layout: u32,
        steps: &mut Steps<L>,
    )
        requires point { self.old.calls.running.point + 1 < 2 ^ 64 }
        requires births { self.old.births + 1 < 2 ^ 64 }
        ensures { MakesObject self.old self.new line r layout size }
    {
        match self.new_object(size, layout, line, steps) {
            Some(addr) => self.give_address(Some(r), addr),
            None => self.give_address(Some(r), 0),
        }
    }

    /// An instruction that makes an object: all its bytes are zero, and its pointers are null.
    pub(crate) fn act_making<L: Ledger>(
        &mut self,
        line: Line,
        instr: Instr,
        op: Op,
        steps: &mut Steps<L>,
    )
        requires point { self.old.calls.running.point + 1 < 2 ^ 64 }
        requires making { IsMaking op }
        requires births { self.old.births + 1 < 2 ^ 64 }
        ensures { ActsMaking self.old self.new line instr op }
    {
        let size = size_in(self.integer(0));
        match op {
            Op::Malloc => self.make(line, instr.a, size, instr.b, steps),
            Op::Calloc => {
                let element = size_in(self.integer(1));
                self.make(line, instr.a, size * element, instr.b, steps)
            }
            _ => unreachable!(),
        }
    }
}
