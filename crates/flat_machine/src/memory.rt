//! Instructions that read and write objects (C99 6.5.3.2, 6.5.16).

ghost use Rattle.std.specs.Prelude.{◌≡◌, ◌+◌, ◌<◌, ◌^◌, IfErr};
ghost use Rattle.flat_code.specs.declared.instructions.Op.TheVariants as ops;
ghost use Rattle.flat_objects.specs.Keeping.{IsKept};
ghost use Rattle.flat_machine.specs.Words.{address_at};
ghost use Rattle.flat_machine.specs.Groups.{IsMemory};
ghost use Rattle.flat_machine.specs.Instructions.{ActsAlone};
ghost use Rattle.flat_machine.specs.StateMemory.{MayStoreHanded};

use crate::state::State;
use byte_memory::Steps;
use flat_code::{Instr, Op};
use hs_base::{End, Line};
use std::sync::ledger::Ledger;

impl State {
    /// An instruction that reads or writes an object.
    pub(crate) fn act_memory<L: Ledger>(
        &mut self,
        line: Line,
        instr: Instr,
        op: Op,
        steps: &mut Steps<L>,
    ) -> Result<(), End>
        requires point { self.old.calls.running.point + 1 < 2 ^ 64 }
        requires memory { IsMemory op }
        requires kept { IsKept self.old.memory (address_at self.old.handed 0) }
        requires stores { op ≡ ops.Storep → MayStoreHanded self.old }
        ensures alone { ActsAlone self.old self.new line instr op result }
        ensures unchanged { IfErr result (λ _. self.new ≡ self.old) }
    {
        let addr = self.address(0);
        match op {
            Op::Load(kind) => match self.load(kind, addr, steps) {
                Ok(n) => {
                    self.give_number(Some(instr.a), kind, n);
                    Ok(())
                }
                Err(kind) => Err(End::Trap(kind, line)),
            },
            Op::Loadp => match self.load_pointer(addr, steps) {
                Ok(target) => {
                    self.give_address(Some(instr.a), target);
                    Ok(())
                }
                Err(kind) => Err(End::Trap(kind, line)),
            },
            Op::Store(kind) => {
                let n = self.integer(1);
                match self.store(kind, addr, n, steps) {
                    Ok(()) => {
                        self.go_on();
                        Ok(())
                    }
                    Err(kind) => Err(End::Trap(kind, line)),
                }
            }
            Op::Storep => {
                let target = self.address(1);
                match self.store_pointer(addr, target, steps) {
                    Ok(()) => {
                        self.go_on();
                        Ok(())
                    }
                    Err(kind) => Err(End::Trap(kind, line)),
                }
            }
            _ => unreachable!(),
        }
    }
}
