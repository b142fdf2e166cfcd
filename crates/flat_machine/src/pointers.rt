//! Instructions that move, subtract and compare pointers (C99 6.5.6, 6.5.8, 6.5.9).

ghost use Rattle.std.specs.Prelude.{◌≡◌, ◌+◌, ◌<◌, ◌<ℤ◌, ◌^◌, IfErr, pos};
ghost use Rattle.flat_code.specs.declared.instructions.Op.TheVariants as ops;
ghost use Rattle.flat_machine.specs.Groups.{IsPointers};
ghost use Rattle.flat_machine.specs.Instructions.{ActsAlone};
ghost use Rattle.flat_machine.specs.StateMemory.{KeepsHanded};

use crate::state::State;
use byte_memory::Steps;
use flat_code::{Instr, Op};
use hs_base::{End, IntKind, Line};
use std::sync::ledger::Ledger;

impl State {
    /// An instruction that moves, subtracts or compares pointers.
    pub(crate) fn act_pointers<L: Ledger>(
        &mut self,
        line: Line,
        instr: Instr,
        op: Op,
        steps: &mut Steps<L>,
    ) -> Result<(), End>
        requires point { self.old.calls.running.point + 1 < 2 ^ 64 }
        requires pointers { IsPointers op }
        requires kept { KeepsHanded self.old }
        requires element { op ≡ ops.Diff → pos 0 <ℤ instr.imm }
        ensures alone { ActsAlone self.old self.new line instr op result }
        ensures unchanged { IfErr result (λ _. self.new ≡ self.old) }
    {
        let p = self.address(0);
        match op {
            Op::Add => match self.moved_up(p, self.integer(1), i128::from(instr.imm), steps) {
                Ok(addr) => {
                    self.give_address(Some(instr.a), addr);
                    Ok(())
                }
                Err(kind) => Err(End::Trap(kind, line)),
            },
            Op::Sub => match self.moved_down(p, self.integer(1), i128::from(instr.imm), steps) {
                Ok(addr) => {
                    self.give_address(Some(instr.a), addr);
                    Ok(())
                }
                Err(kind) => Err(End::Trap(kind, line)),
            },
            Op::Diff => match self.difference(p, self.address(1), i128::from(instr.imm), steps) {
                Ok(n) => {
                    self.give_number(Some(instr.a), IntKind::I32, n);
                    Ok(())
                }
                Err(kind) => Err(End::Trap(kind, line)),
            },
            Op::Pcmp(op) => match self.compare(op, p, self.address(1), steps) {
                Ok(n) => {
                    self.give_number(Some(instr.a), IntKind::I32, n);
                    Ok(())
                }
                Err(kind) => Err(End::Trap(kind, line)),
            },
            _ => unreachable!(),
        }
    }
}
