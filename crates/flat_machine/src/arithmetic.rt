//! Instructions that work on integers and registers (C99 6.3.1.3, 6.5.3.3, 6.5.5 to 6.5.14).

ghost use Rattle.std.specs.Prelude.{◌≡◌, ◌+◌, ◌<◌, ◌^◌, IfErr, IfOk, not, nat_eq};
ghost use Rattle.object_meaning.specs.objects.Arithmetic.{on_one, on_two, is_zero};
ghost use Rattle.hs_base.specs.Arithmetic.{IsInRange};
ghost use Rattle.flat_machine.specs.Words.{truth_word};
ghost use Rattle.flat_machine.specs.Groups.{IsValues};
ghost use Rattle.flat_machine.specs.Instructions.{ActsAlone};
ghost use Rattle.flat_machine.specs.Leading.{Operates};

use crate::packed::PackedWord;
use crate::state::State;
use core_tree::{BinOp, UnOp};
use flat_code::{Instr, Op};
use hs_base::{End, IntKind, Line, TrapKind};
use meaning_state::compared;

/// The result of an operation on two integers (C99 6.5.5 to 6.5.7, 6.5.10 to 6.5.12). It traps at a zero divisor, and at a
/// count that is below 0 or not below the width.
#[inline(always)]
pub(crate) fn on_two(op: BinOp, kind: IntKind, a: i128, b: i128) -> Result<i128, TrapKind>
    ensures operates { Operates result (on_two op kind a b) }
    ensures in_range { IfOk result (IsInRange kind) }
{
    match op {
        BinOp::Add => Ok(kind.add(a, b)),
        BinOp::Sub => Ok(kind.sub(a, b)),
        BinOp::Mul => Ok(kind.mul(a, b)),
        BinOp::Div => kind.divide(a, b).ok_or(TrapKind::Divide),
        BinOp::Rem => kind.remainder(a, b).ok_or(TrapKind::Divide),
        BinOp::And => Ok(kind.and(a, b)),
        BinOp::Or => Ok(kind.or(a, b)),
        BinOp::Xor => Ok(kind.xor(a, b)),
        BinOp::Shl => kind.shift_left(a, b).ok_or(TrapKind::Shift),
        BinOp::Shr => kind.shift_right(a, b).ok_or(TrapKind::Shift),
    }
}

/// The result of an operation on one integer (C99 6.5.3.3).
#[inline(always)]
pub(crate) fn on_one(op: UnOp, kind: IntKind, a: i128) -> i128
    ensures value { result ≡ on_one op kind a }
    ensures in_range { IsInRange kind result }
{
    match op {
        UnOp::Neg => kind.negate(a),
        UnOp::Not => kind.complement(a),
    }
}

/// 1 or 0.
#[inline(always)]
pub(crate) fn truth(holds: bool) -> PackedWord
    ensures { result ≡ truth_word holds }
{
    if holds {
        PackedWord::number(IntKind::I32, 1)
    } else {
        PackedWord::number(IntKind::I32, 0)
    }
}

/// Says whether an integer is 0.
#[inline(always)]
pub(crate) fn is_zero(n: i128) -> bool
    ensures { result ≡ is_zero n }
{
    n == 0
}

/// Says whether an address is not that of null.
#[inline(always)]
pub(crate) fn is_some(addr: u32) -> bool
    ensures { result ≡ not (nat_eq addr 0) }
{
    addr != 0
}

impl State {
    /// A register takes the result of an operation on two integers.
    fn operate(&mut self, line: Line, instr: Instr, op: BinOp, kind: IntKind) -> Result<(), End>
        requires { self.old.calls.running.point + 1 < 2 ^ 64 }
        ensures alone { ActsAlone self.old self.new line instr (Op.Bin op kind) result }
        ensures unchanged { IfErr result (λ _. self.new ≡ self.old) }
    {
        match on_two(op, kind, self.integer(0), self.integer(1)) {
            Ok(n) => {
                self.give_number(Some(instr.a), kind, n);
                Ok(())
            }
            Err(kind) => Err(End::Trap(kind, line)),
        }
    }

    /// An instruction of integers and registers.
    pub(crate) fn act_values(&mut self, line: Line, instr: Instr, op: Op) -> Result<(), End>
        requires point { self.old.calls.running.point + 1 < 2 ^ 64 }
        requires values { IsValues op }
        ensures alone { ActsAlone self.old self.new line instr op result }
        ensures unchanged { IfErr result (λ _. self.new ≡ self.old) }
    {
        match op {
            Op::Set => {
                let word = self.word(0);
                self.give(Some(instr.a), word);
                Ok(())
            }
            Op::Conv(kind) => {
                let n = kind.wrap(self.integer(0));
                self.give_number(Some(instr.a), kind, n);
                Ok(())
            }
            Op::Un(op, kind) => {
                let n = on_one(op, kind, self.integer(0));
                self.give_number(Some(instr.a), kind, n);
                Ok(())
            }
            Op::Bin(op, kind) => self.operate(line, instr, op, kind),
            Op::Cmp(op) => {
                let holds = compared(op, self.integer(0), self.integer(1));
                self.give(Some(instr.a), truth(holds));
                Ok(())
            }
            Op::Test => {
                let holds = is_some(self.address(0));
                self.give(Some(instr.a), truth(holds));
                Ok(())
            }
            _ => unreachable!(),
        }
    }
}
