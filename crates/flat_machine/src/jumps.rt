//! Instructions that go to another instruction of the same function (C99 6.8.4, 6.8.5).

ghost use Rattle.std.specs.Prelude.{◌≡◌, ◌+◌, ◌<◌, ◌^◌, IfErr};
ghost use Rattle.flat_machine.specs.Kept.{branched};
ghost use Rattle.flat_machine.specs.Groups.{IsJump};
ghost use Rattle.flat_machine.specs.Instructions.{ActsAlone};

use crate::arithmetic::is_zero;
use crate::state::State;
use core_tree::CmpOp;
use flat_code::{Instr, Op};
use hs_base::{End, Line};
use meaning_state::compared;

impl State {
    /// Goes to an instruction where a test holds, and else on.
    fn branch(&mut self, holds: bool, point: u32)
        requires { self.old.calls.running.point + 1 < 2 ^ 64 }
        ensures { self.new ≡ branched holds self.old point }
    {
        if holds {
            self.go_to(point);
        } else {
            self.go_on();
        }
    }

    /// An instruction that goes to another one of its function.
    pub(crate) fn act_jump(&mut self, line: Line, instr: Instr, op: Op) -> Result<(), End>
        requires point { self.old.calls.running.point + 1 < 2 ^ 64 }
        requires jump { IsJump op }
        ensures alone { ActsAlone self.old self.new line instr op result }
        ensures unchanged { IfErr result (λ _. self.new ≡ self.old) }
    {
        match op {
            Op::Jump => {
                self.go_to(instr.b);
                Ok(())
            }
            Op::Zero => {
                let holds = is_zero(self.integer(0));
                self.branch(holds, instr.b);
                Ok(())
            }
            Op::Case => {
                let holds = compared(CmpOp::Eq, self.integer(0), self.integer(1));
                self.branch(holds, instr.b);
                Ok(())
            }
            Op::Loop => {
                if !self.take_step() {
                    return Err(End::Spent);
                }
                self.go_to(instr.b);
                Ok(())
            }
            _ => unreachable!(),
        }
    }
}
