//! The operators of conditions (C99 6.5).

ghost use Rattle.std.specs.Prelude.{◌≡◌, ◌<◌, IfSome, ℤ, pos, ◌*ℤ◌, ◌^◌};
ghost use Rattle.c_conditions.specs.Operands.{held};
ghost use Rattle.c_conditions.specs.Operators.{signed_result, unsigned_result, is_comparison, signed_test, unsigned_test, compared, computed, shifted_left, shifted_right, and_also, or_else, binary, unary, choice};

use crate::operand::Operand;
use c_tree::{BinaryOp, UnaryOp};

/// Arithmetic of signed numbers: nothing where the result overflows, or the divisor is 0.
fn signed_result(op: BinaryOp, a: i64, c: i64) -> Option<i64>
    ensures { result ≡ signed_result op a c }
{
    match op {
        BinaryOp::Multiply => a.checked_mul(c),
        BinaryOp::Divide => a.checked_div(c),
        BinaryOp::Remainder => a.checked_rem(c),
        BinaryOp::Add => a.checked_add(c),
        BinaryOp::Subtract => a.checked_sub(c),
        BinaryOp::BitAnd => Some(a & c),
        BinaryOp::BitXor => Some(a ^ c),
        BinaryOp::BitOr => Some(a | c),
        _ => None,
    }
}

/// Arithmetic of unsigned numbers, modulo 2 to the 64: nothing where the divisor is 0.
fn unsigned_result(op: BinaryOp, a: u64, c: u64) -> Option<u64>
    ensures { result ≡ unsigned_result op a c }
{
    match op {
        BinaryOp::Multiply => Some(a.wrapping_mul(c)),
        BinaryOp::Divide => a.checked_div(c),
        BinaryOp::Remainder => a.checked_rem(c),
        BinaryOp::Add => Some(a.wrapping_add(c)),
        BinaryOp::Subtract => Some(a.wrapping_sub(c)),
        BinaryOp::BitAnd => Some(a & c),
        BinaryOp::BitXor => Some(a ^ c),
        BinaryOp::BitOr => Some(a | c),
        _ => None,
    }
}

/// Whether an operator compares its operands.
fn is_comparison(op: BinaryOp) -> bool
    ensures { result ≡ is_comparison op }
{
    matches!(
        op,
        BinaryOp::Equal
            | BinaryOp::NotEqual
            | BinaryOp::Less
            | BinaryOp::Greater
            | BinaryOp::LessEqual
            | BinaryOp::GreaterEqual
    )
}

/// A comparison of signed numbers.
fn signed_test(op: BinaryOp, a: i64, c: i64) -> Option<bool>
    ensures { result ≡ signed_test op a c }
{
    match op {
        BinaryOp::Equal => Some(a == c),
        BinaryOp::NotEqual => Some(a != c),
        BinaryOp::Less => Some(a < c),
        BinaryOp::Greater => Some(a > c),
        BinaryOp::LessEqual => Some(a <= c),
        BinaryOp::GreaterEqual => Some(a >= c),
        _ => None,
    }
}

/// A comparison of unsigned numbers.
fn unsigned_test(op: BinaryOp, a: u64, c: u64) -> Option<bool>
    ensures { result ≡ unsigned_test op a c }
{
    match op {
        BinaryOp::Equal => Some(a == c),
        BinaryOp::NotEqual => Some(a != c),
        BinaryOp::Less => Some(a < c),
        BinaryOp::Greater => Some(a > c),
        BinaryOp::LessEqual => Some(a <= c),
        BinaryOp::GreaterEqual => Some(a >= c),
        _ => None,
    }
}

/// A comparison of operands that are converted to their common type.
fn compared(op: BinaryOp, x: Operand, y: Operand) -> Operand
    ensures { result ≡ compared op x y }
{
    Operand::truth(match (x, y) {
        (Operand::Signed(a), Operand::Signed(c)) => match (a, c) {
            (Some(a), Some(c)) => signed_test(op, a, c),
            _ => None,
        },
        _ => match (x.as_unsigned(), y.as_unsigned()) {
            (Some(a), Some(c)) => unsigned_test(op, a, c),
            _ => None,
        },
    })
}

/// Arithmetic of operands that are converted to their common type.
fn computed(op: BinaryOp, x: Operand, y: Operand) -> Operand
    ensures { result ≡ computed op x y }
{
    match (x, y) {
        (Operand::Signed(a), Operand::Signed(c)) => Operand::Signed(match (a, c) {
            (Some(a), Some(c)) => signed_result(op, a, c),
            _ => None,
        }),
        _ => Operand::Unsigned(match (x.as_unsigned(), y.as_unsigned()) {
            (Some(a), Some(c)) => unsigned_result(op, a, c),
            _ => None,
        }),
    }
}

/// A signed number times a power of two, where 64 bits hold it.
fn scaled(number: i64, places: u32) -> Option<i64>
    requires { places < 64 }
    ensures { result ≡ held (number *ℤ pos (2 ^ places)) }
{
    let product = i128::from(number).checked_mul(i128::from(1u64 << places))?;
    i64::try_from(product).ok()
}

/// A left shift, which has the type of its left operand.
fn shifted_left(x: Operand, places: Option<u32>) -> Operand
    requires { IfSome places (λ places. places < 64) }
    ensures { result ≡ shifted_left x places }
{
    match (x, places) {
        (Operand::Signed(Some(number)), Some(places)) => Operand::Signed(scaled(number, places)),
        (Operand::Signed(_), _) => Operand::Signed(None),
        (Operand::Unsigned(Some(number)), Some(places)) => Operand::Unsigned(Some(
            number << places,
        )),
        (Operand::Unsigned(_), _) => Operand::Unsigned(None),
    }
}

/// A right shift, which has the type of its left operand: a negative number is rounded down.
fn shifted_right(x: Operand, places: Option<u32>) -> Operand
    requires { IfSome places (λ places. places < 64) }
    ensures { result ≡ shifted_right x places }
{
    match (x, places) {
        (Operand::Signed(Some(number)), Some(places)) => Operand::Signed(Some(number >> places)),
        (Operand::Signed(_), _) => Operand::Signed(None),
        (Operand::Unsigned(Some(number)), Some(places)) => Operand::Unsigned(Some(
            number >> places,
        )),
        (Operand::Unsigned(_), _) => Operand::Unsigned(None),
    }
}

/// `&&`: its right operand counts only where the left one holds.
fn and_also(left: Option<bool>, right: Option<bool>) -> Option<bool>
    ensures { result ≡ and_also left right }
{
    if left? { right } else { Some(false) }
}

/// `||`: its right operand counts only where the left one does not hold.
fn or_else(left: Option<bool>, right: Option<bool>) -> Option<bool>
    ensures { result ≡ or_else left right }
{
    if left? { Some(true) } else { right }
}

/// An operator between two operands.
#[tactic(auto, unfolding(crate::specs::Operators::binary))]
pub(crate) fn binary(op: BinaryOp, x: Operand, y: Operand) -> Operand
    ensures { result ≡ binary op x y }
{
    match op {
        BinaryOp::And => Operand::truth(and_also(x.is_true(), y.is_true())),
        BinaryOp::Or => Operand::truth(or_else(x.is_true(), y.is_true())),
        BinaryOp::ShiftLeft => shifted_left(x, y.places()),
        BinaryOp::ShiftRight => shifted_right(x, y.places()),
        _ if is_comparison(op) => compared(op, x, y),
        _ => computed(op, x, y),
    }
}

/// `-` before a number.
#[tactic(auto, unfolding(crate::specs::Operators::unary))]
fn negated(x: Operand) -> Operand
    ensures { Some result ≡ unary UnaryOp.Minus x }
{
    match x {
        Operand::Signed(Some(number)) => Operand::Signed(number.checked_neg()),
        Operand::Signed(None) => x,
        Operand::Unsigned(number) => Operand::Unsigned(number.map(|number| 0u64.wrapping_sub(
            number,
        ))),
    }
}

/// `~` before a number.
#[tactic(auto, unfolding(crate::specs::Operators::unary))]
fn complement(x: Operand) -> Operand
    ensures { Some result ≡ unary UnaryOp.Complement x }
{
    match x {
        Operand::Signed(number) => Operand::Signed(number.map(|number| !number)),
        Operand::Unsigned(number) => Operand::Unsigned(number.map(|number| !number)),
    }
}

/// An operator before its operand, but for `&` and `*`.
#[tactic(auto, unfolding(crate::specs::Operators::unary))]
pub(crate) fn unary(op: UnaryOp, x: Operand) -> Option<Operand>
    ensures { result ≡ unary op x }
{
    match op {
        UnaryOp::Plus => Some(x),
        UnaryOp::Minus => Some(negated(x)),
        UnaryOp::Complement => Some(complement(x)),
        UnaryOp::Not => Some(Operand::truth(x.is_true().map(|holds| !holds))),
        UnaryOp::Address | UnaryOp::Deref => None,
    }
}

/// `?:`, whose value is that of one of its last two operands, converted to the type of both.
#[tactic(auto, unfolding(crate::specs::Operators::choice))]
pub(crate) fn choice(test: Operand, x: Operand, y: Operand) -> Operand
    ensures { result ≡ choice test x y }
{
    match (x, y) {
        (Operand::Signed(a), Operand::Signed(c)) => Operand::Signed(match test.is_true() {
            None => None,
            Some(holds) => if holds { a } else { c },
        }),
        _ => Operand::Unsigned(match test.is_true() {
            None => None,
            Some(holds) => if holds {
                x.as_unsigned()
            } else {
                y.as_unsigned()
            },
        }),
    }
}
