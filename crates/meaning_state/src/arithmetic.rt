//! Integers and pointers as operands: values in, values out (C99 6.3.1.3, 6.5.3.3, 6.5.5 to 6.5.12).

ghost use Rattle.std.specs.Prelude.{◌≡◌, ◌≢◌, ◌+ℤ◌, ◌-ℤ◌, ◌*ℤ◌, pos, neg_ℤ};
ghost use Rattle.object_meaning.specs.objects.Values.{number_in, pointer_in, size_in, bytes_in};
ghost use Rattle.object_meaning.specs.objects.Arithmetic.{on_one, on_two, or_traps, truth, compared, within_object, difference, offsets, same_pointer, ordered, pointers_compared};
ghost use Rattle.meaning_state.specs.Refusing.{Answers};

use crate::refusal::Refusal;
use core_tree::{BinOp, CmpOp, UnOp};
use hs_base::{IntKind, Pointer, TrapKind, Value};

/// The number of a value. A pointer has 0, which no sound core asks for.
pub fn number(value: Value) -> i128
    ensures { result ≡ number_in value }
{
    match value {
        Value::Number(n) => n,
        Value::Pointer(_) => 0,
    }
}

/// The pointer of a value. A number has null, which no sound core asks for.
pub fn pointer(value: Value) -> Pointer
    ensures { result ≡ pointer_in value }
{
    match value {
        Value::Number(_) => Pointer::Null,
        Value::Pointer(p) => p,
    }
}

/// A number converted to `size_t`.
pub fn size_in(n: i128) -> u32
    ensures { result ≡ size_in n }
{
    n.rem_euclid(1 << 32) as u32
}

/// A number of bytes. There are none below 0.
pub fn bytes_in(n: i128) -> u128
    ensures { result ≡ bytes_in n }
{
    if n < 0 { 0 } else { n as u128 }
}

/// The result of an operation on one integer (C99 6.5.3.3).
#[inline(always)]
pub fn on_one(op: UnOp, kind: IntKind, a: i128) -> i128
    ensures { result ≡ on_one op kind a }
{
    match op {
        UnOp::Neg => kind.negate(a),
        UnOp::Not => kind.complement(a),
    }
}

/// A result as a value, and a trap where there is none.
fn or_traps(kind: TrapKind, n: Option<i128>) -> Result<Value, Refusal>
    ensures { Answers result (or_traps kind n) }
{
    match n {
        Some(n) => Ok(Value::Number(n)),
        None => Err(Refusal::Trapped(kind)),
    }
}

/// The result of an operation on two integers (C99 6.5.5 to 6.5.7, 6.5.10 to 6.5.12). It traps at a zero divisor, and at a
/// count that is below 0 or not below the width.
pub fn on_two(op: BinOp, kind: IntKind, a: i128, b: i128) -> Result<Value, Refusal>
    ensures { Answers result (on_two op kind a b) }
{
    match op {
        BinOp::Add => Ok(Value::Number(kind.add(a, b))),
        BinOp::Sub => Ok(Value::Number(kind.sub(a, b))),
        BinOp::Mul => Ok(Value::Number(kind.mul(a, b))),
        BinOp::Div => or_traps(TrapKind::Divide, kind.divide(a, b)),
        BinOp::Rem => or_traps(TrapKind::Divide, kind.remainder(a, b)),
        BinOp::And => Ok(Value::Number(kind.and(a, b))),
        BinOp::Or => Ok(Value::Number(kind.or(a, b))),
        BinOp::Xor => Ok(Value::Number(kind.xor(a, b))),
        BinOp::Shl => or_traps(TrapKind::Shift, kind.shift_left(a, b)),
        BinOp::Shr => or_traps(TrapKind::Shift, kind.shift_right(a, b)),
    }
}

/// 1 or 0.
pub fn truth(holds: bool) -> Value
    ensures { result ≡ truth holds }
{
    Value::Number(if holds { 1 } else { 0 })
}

/// Says whether a comparison of two integers holds (C99 6.5.8, 6.5.9).
#[inline(always)]
pub fn compared(op: CmpOp, a: i128, b: i128) -> bool
    ensures { result ≡ compared op a b }
{
    match op {
        CmpOp::Eq => a == b,
        CmpOp::Ne => a != b,
        CmpOp::Lt => a < b,
        CmpOp::Gt => a > b,
        CmpOp::Le => a <= b,
        CmpOp::Ge => a >= b,
    }
}
