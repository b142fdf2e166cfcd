//! Instructions that hand a value over.

ghost use Rattle.std.specs.Prelude.{◌≡◌, ◌+◌, ◌<◌, ◌^◌, length};
ghost use Rattle.flat_code.specs.declared.instructions.Op.TheVariants as ops;
ghost use Rattle.hs_base.specs.Arithmetic.{IsInRange};
ghost use Rattle.object_meaning.specs.code.CodeMeaning.{unsigned};
ghost use Rattle.flat_machine.specs.Groups.{IsHanding};
ghost use Rattle.flat_machine.specs.Instructions.{HandsAlone};

use crate::state::State;
use flat_code::{Instr, Op};
use hs_base::IntKind;

/// The integer whose low 64 bits are those of a number.
fn unsigned(n: i64) -> i128
    ensures value { result ≡ unsigned n }
    ensures in_range { IsInRange IntKind.U64 result }
{
    IntKind::U64.wrap(i128::from(n))
}

impl State {
    /// Hands over what an instruction names.
    #[inline(always)]
    pub(crate) fn act_hand(&mut self, instr: Instr, op: Op)
        requires point { self.old.calls.running.point + 1 < 2 ^ 64 }
        requires room { length self.old.handed < self.old.most }
        requires handing { IsHanding op }
        requires here { op ≡ ops.HandStatic → instr.a < length self.old.statics }
        requires local { op ≡ ops.HandLocal → instr.a < length self.old.calls.running.locals }
        ensures { HandsAlone self.old self.new instr op }
    {
        match op {
            Op::HandReg => {
                let word = self.register(instr.a);
                self.hand(word);
            }
            Op::HandInt => self.hand_number(IntKind::I64, i128::from(instr.imm)),
            Op::HandUnsigned => self.hand_number(IntKind::U64, unsigned(instr.imm)),
            Op::HandNull => self.hand_address(0),
            Op::HandStatic => {
                let addr = self.static_address(instr.a);
                self.hand_address(addr);
            }
            Op::HandLocal => {
                let addr = self.local_address(instr.a);
                self.hand_address(addr);
            }
            _ => unreachable!(),
        }
    }
}
