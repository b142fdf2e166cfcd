//! The values of constants and literals in expressions (C99 6.4.4, 6.4.5).

ghost use Rattle.std.specs.Prelude.{◌≡◌, ℕ, ◌+◌, ◌*◌, ◌<◌, ◌≤◌, length, IfOk, IfSome};
ghost use Rattle.std.specs.List.{prefix_len};
ghost use Rattle.c_lexer.specs.Bytes.{digit_value};
ghost use Rattle.c_lexer.specs.Numbers.{base_of, prefix_length, radix, is_digit_of, digits_value, digits_of, behind_digits, suffix_of};
ghost use Rattle.c_tree.specs.View.{expr_tree, literal_leaves};
ghost use Rattle.c_decls.specs.Refusals.{Meets};
ghost use Rattle.c_decls.specs.Typed.{plain_typed};
ghost use Rattle.c_tree.specs.StatementView.{trees, expr_view};
ghost use Rattle.c_decls.specs.Expressions.{int_constant, char_constant, joined, string, literal, first_literal};

use c_decls::{Constant, TypeError, TypeKind, Typed, number_type, refused};
use c_lexer::{Base, Number, Suffix, literal_values};
use c_tree::{Expr, ExprKind};
use c_types::{CType, IntType};
use hs_base::{IntKind, Items, Line, NoMemory};
use std::alloc::Global;

/// The base of a number, by what it begins with.
#[tactic(auto, unfolding(c_lexer::specs::Numbers::base_of))]
fn base_of(number: &[u8]) -> Base
    ensures base { result ≡ base_of number.now }
    ensures bound { prefix_length result ≤ length number.now }
{
    match number {
        [b'0', b'x' | b'X', ..] => Base::Hexadecimal,
        [b'0', ..] => Base::Octal,
        _ => Base::Decimal,
    }
}

/// How many bytes stand before the digits.
fn prefix_length(base: Base) -> usize
    ensures { result ≡ prefix_length base }
{
    match base {
        Base::Octal | Base::Decimal => 0,
        Base::Hexadecimal => 2,
    }
}

/// The value of the digits `10`.
fn radix(base: Base) -> u64
    ensures value { result ≡ radix base }
{
    match base {
        Base::Octal => 8,
        Base::Decimal => 10,
        Base::Hexadecimal => 16,
    }
}

/// Whether a byte is a digit of a base.
#[tactic(auto, unfolding(c_lexer::specs::Bytes::is_octal_digit, c_lexer::specs::Bytes::is_digit, c_lexer::specs::Bytes::is_hexadecimal_digit))]
fn is_digit_of(base: Base, byte: u8) -> bool
    ensures { result ≡ is_digit_of base byte }
{
    match base {
        Base::Octal => matches!(byte, b'0'..=b'7'),
        Base::Decimal => matches!(byte, b'0'..=b'9'),
        Base::Hexadecimal => matches!(byte, b'0'..=b'9' | b'a'..=b'f' | b'A'..=b'F'),
    }
}

/// How many digits of a base a text begins with.
fn digit_count(base: Base, text: &[u8]) -> usize
    ensures count { result ≡ prefix_len (is_digit_of base) text.now }
    ensures bound { result ≤ length text.now }
{
    text.iter()
        .take_while(|byte| is_digit_of(base, **byte))
        .count()
}

/// The value of a digit, a hexadecimal one too.
#[tactic(auto, unfolding(c_lexer::specs::Bytes::digit_value))]
fn digit_value(byte: u8) -> u8
    ensures { result ≡ digit_value byte }
{
    if byte <= b'9' {
        byte.saturating_sub(b'0')
    } else if byte <= b'F' {
        byte.saturating_sub(b'7')
    } else {
        byte.saturating_sub(b'W')
    }
}

/// The value of digits that have one digit more behind them, where 64 bits hold it.
fn with_digit(value: u64, radix: u64, digit: u8) -> Option<u64>
    ensures { IfSome result (λ longer. longer ≡ value * radix + digit_value digit) }
{
    let shifted = value.checked_mul(radix)?;
    shifted.checked_add(u64::from(digit_value(digit)))
}

/// The value of digits, where 64 bits hold it.
#[tactic(auto, using(crate::proofs::DigitSteps::digit_steps))]
fn digits_value(radix: u64, digits: &[u8]) -> Option<u64>
    ensures { IfSome result (λ value. value ≡ digits_value radix digits.now) }
{
    let mut value: u64 = 0;
    for digit in digits {
        value = with_digit(value, radix, *digit)?;
    }
    Some(value)
}

/// The suffix that these bytes are, where they are one.
#[tactic(auto, unfolding(c_lexer::specs::Numbers::suffix_of))]
fn suffix_of(bytes: &[u8]) -> Option<Suffix>
    ensures { result ≡ suffix_of bytes.now }
{
    match bytes {
        [] => Some(Suffix::Plain),
        [b'u' | b'U'] => Some(Suffix::U),
        [b'l' | b'L'] => Some(Suffix::L),
        [b'u' | b'U', b'l' | b'L'] | [b'l' | b'L', b'u' | b'U'] => Some(Suffix::Ul),
        b"ll" | b"LL" => Some(Suffix::Ll),
        [b'u' | b'U', b'l', b'l'] | [b'u' | b'U', b'L', b'L'] => Some(Suffix::Ull),
        [b'l', b'l', b'u' | b'U'] | [b'L', b'L', b'u' | b'U'] => Some(Suffix::Ull),
        _ => None,
    }
}

/// The parts of a number: its base, its digits, and what stands behind them.
#[derive(Clone, Copy)]
struct Parts<'a> {
    base: Base,
    digits: &'a [u8],
    suffix: &'a [u8],
}

/// Takes a number apart.
fn parts_of(number: &[u8]) -> Parts<'_>
    ensures base { result.base ≡ base_of number.now }
    ensures digits { result.digits.now ≡ digits_of number.now }
    ensures suffix { result.suffix.now ≡ behind_digits number.now }
{
    let base = base_of(number);
    let behind_prefix = &number[prefix_length(base)..];
    let (digits, suffix) = behind_prefix.split_at(digit_count(base, behind_prefix));
    Parts {
        base,
        digits,
        suffix,
    }
}

/// An integer constant: its type is the first of its list that holds its value (C99 6.4.4.1). Bytes that are no constant
/// are read as far as they are one; a value of more than 64 bits, which no constant has, is answered by want of memory.
pub fn int_constant(bytes: &[u8]) -> Result<Constant, NoMemory>
    ensures { IfOk result (λ constant. constant ≡ int_constant bytes.now) }
{
    let parts = parts_of(bytes);
    let suffix = if parts.digits.is_empty() {
        Suffix::Plain
    } else {
        suffix_of(parts.suffix).unwrap_or(Suffix::Plain)
    };
    let value = digits_value(radix(parts.base), parts.digits).ok_or(NoMemory)?;
    let number = Number {
        base: parts.base,
        suffix,
        value,
    };
    Ok(Constant {
        ty: number_type(number).unwrap_or(IntType::Int),
        value: i128::from(value),
    })
}

/// A character constant: its byte as char, of type int (C99 6.4.4.4).
pub fn char_constant(alloc: Global, bytes: &[u8]) -> Result<Constant, NoMemory>
    ensures { IfOk result (λ constant. constant ≡ char_constant bytes.now) }
{
    let values = literal_values(alloc, bytes)?;
    let value = values.get(0).copied().unwrap_or(0);
    Ok(Constant {
        ty: IntType::Int,
        value: IntKind::I8.wrap(i128::from(value)),
    })
}

/// The bytes of string literals one behind another (C99 6.4.5).
pub fn joined(alloc: Global, parts: &[Items<u8>]) -> Result<Items<u8>, NoMemory>
    ensures { IfOk result (λ bytes. bytes ≡ joined (literal_leaves parts.now)) }
{
    let mut bytes = Vec::new(alloc);
    for part in parts {
        let values = literal_values(alloc, part.as_slice())?;
        bytes.extend_from_slice(values.as_slice())?;
    }
    Ok(Items::from(bytes))
}

/// String literals, an array of their bytes and a zero (C99 6.4.5), as a place.
pub fn string(alloc: Global, line: Line, bytes: &[u8]) -> Result<Typed, TypeError>
    ensures { Meets plain_typed result (string line bytes.now) }
{
    let length = bytes.len() + 1;
    if length > 268_435_456 {
        return refused(TypeKind::TypeTooLarge, line);
    }
    let element = CType::Int(IntType::Char);
    Ok(Typed::place(CType::array_of(alloc, element, length as u32)?))
}

/// The bytes of string literals at a line, through parentheses; `None` where an expression is anything else.
#[tactic(auto, unfolding(c_tree::specs::View::expr_tree))]
fn literal(alloc: Global, kind: &ExprKind) -> Result<Option<Items<u8>>, NoMemory>
    ensures { (line : ℕ) → IfOk result (λ bytes. bytes ≡ literal (expr_tree kind.now line)) }
{
    match kind {
        ExprKind::Str(parts) => Ok(Some(joined(alloc, parts.as_slice())?)),
        ExprKind::Paren(inner) => literal(alloc, &inner.kind),
        _ => Ok(None),
    }
}

/// The same of the first of some expressions, where there is one.
pub fn first_literal(alloc: Global, list: &[Expr]) -> Result<Option<Items<u8>>, NoMemory>
    ensures { IfOk result (λ bytes. bytes ≡ first_literal (trees expr_view list.now)) }
{
    match list {
        [] => Ok(None),
        [first, ..] => literal(alloc, &first.kind),
    }
}
