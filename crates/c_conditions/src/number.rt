//! The values of constants (C99 6.4.4), as conditions have them.

ghost use Rattle.std.specs.Prelude.{◌≡◌, ◌+◌, ◌*◌, ◌<◌, ◌≤◌, ◌^◌, length, option_map, SomeIff, IfOk, IfSome, ℕ, None, ◌==◌, if◌then◌else◌};
ghost use Rattle.std.specs.List.{prefix_len};
ghost use Rattle.c_lexer.specs.Bytes.{digit_value};
ghost use Rattle.c_lexer.specs.Numbers.{base_of, prefix_length, radix, is_digit_of, digits_value, digits_of, behind_digits, suffix_of, form_of, number_value};
ghost use Rattle.c_conditions.specs.Values.{has_u, number, int_constant, char_constant};

use crate::operand::Operand;
use c_lexer::{Base, Suffix, literal_values};
use hs_base::NoMemory;
use std::alloc::Global;

/// The base of a number, by what it begins with.
#[tactic(auto, unfolding(c_lexer::specs::Numbers::base_of))]
fn base_of(number: &[u8]) -> Base
    ensures base { result ≡ base_of number.now }
    ensures bound { prefix_length result ≤ length number.now }
{
    match number {
        [b'0', b'x' | b'X', ..] => Base::Hexadecimal,
        [b'0', ..] => Base::Octal,
        _ => Base::Decimal,
    }
}

/// How many bytes stand before the digits.
fn prefix_length(base: Base) -> usize
    ensures { result ≡ prefix_length base }
{
    match base {
        Base::Octal | Base::Decimal => 0,
        Base::Hexadecimal => 2,
    }
}

/// The value of the digits `10`.
fn radix(base: Base) -> u64
    ensures value { result ≡ radix base }
    ensures positive { 0 < result }
{
    match base {
        Base::Octal => 8,
        Base::Decimal => 10,
        Base::Hexadecimal => 16,
    }
}

/// Whether a byte is a digit of a base.
#[tactic(auto, unfolding(c_lexer::specs::Bytes::is_octal_digit, c_lexer::specs::Bytes::is_digit, c_lexer::specs::Bytes::is_hexadecimal_digit))]
fn is_digit_of(base: Base, byte: u8) -> bool
    ensures { result ≡ is_digit_of base byte }
{
    match base {
        Base::Octal => matches!(byte, b'0'..=b'7'),
        Base::Decimal => matches!(byte, b'0'..=b'9'),
        Base::Hexadecimal => matches!(byte, b'0'..=b'9' | b'a'..=b'f' | b'A'..=b'F'),
    }
}

/// How many digits of a base a text begins with.
fn digit_count(base: Base, text: &[u8]) -> usize
    ensures count { result ≡ prefix_len (is_digit_of base) text.now }
    ensures bound { result ≤ length text.now }
{
    text.iter()
        .take_while(|byte| is_digit_of(base, **byte))
        .count()
}

/// The value of a digit, a hexadecimal one too.
#[tactic(auto, unfolding(c_lexer::specs::Bytes::digit_value))]
fn digit_value(byte: u8) -> u8
    ensures { result ≡ digit_value byte }
{
    if byte <= b'9' {
        byte.saturating_sub(b'0')
    } else if byte <= b'F' {
        byte.saturating_sub(b'7')
    } else {
        byte.saturating_sub(b'W')
    }
}

/// The value of digits that have one digit more behind them, where 64 bits hold it.
fn with_digit(value: u64, radix: u64, digit: u8) -> Option<u64>
    ensures { SomeIff result (value * radix + digit_value digit < 2 ^ 64) (value * radix + digit_value digit) }
{
    let shifted = value.checked_mul(radix)?;
    shifted.checked_add(u64::from(digit_value(digit)))
}

/// The value of digits, where 64 bits hold it.
#[tactic(auto, using(crate::proofs::Digits::digit_steps))]
fn digits_value(radix: u64, digits: &[u8]) -> Option<u64>
    requires { 0 < radix }
    ensures { SomeIff result (digits_value radix digits.now < 2 ^ 64) (digits_value radix digits.now) }
{
    let mut value: u64 = 0;
    for digit in digits {
        match with_digit(value, radix, *digit) {
            Some(longer) => value = longer,
            None => return None,
        }
    }
    Some(value)
}

/// The suffix that these bytes are, where they are one.
#[tactic(auto, unfolding(c_lexer::specs::Numbers::suffix_of))]
fn suffix_of(bytes: &[u8]) -> Option<Suffix>
    ensures { result ≡ suffix_of bytes.now }
{
    match bytes {
        [] => Some(Suffix::Plain),
        [b'u' | b'U'] => Some(Suffix::U),
        [b'l' | b'L'] => Some(Suffix::L),
        [b'u' | b'U', b'l' | b'L'] | [b'l' | b'L', b'u' | b'U'] => Some(Suffix::Ul),
        b"ll" | b"LL" => Some(Suffix::Ll),
        [b'u' | b'U', b'l', b'l'] | [b'u' | b'U', b'L', b'L'] => Some(Suffix::Ull),
        [b'l', b'l', b'u' | b'U'] | [b'L', b'L', b'u' | b'U'] => Some(Suffix::Ull),
        _ => None,
    }
}

/// The parts of a number: its base, its digits, and what stands behind them.
#[derive(Clone, Copy)]
struct Parts<'a> {
    base: Base,
    digits: &'a [u8],
    suffix: &'a [u8],
}

/// Takes a number apart.
fn parts_of(number: &[u8]) -> Parts<'_>
    ensures base { result.base ≡ base_of number.now }
    ensures digits { result.digits.now ≡ digits_of number.now }
    ensures suffix { result.suffix.now ≡ behind_digits number.now }
{
    let base = base_of(number);
    let behind_prefix = &number[prefix_length(base)..];
    let (digits, suffix) = behind_prefix.split_at(digit_count(base, behind_prefix));
    Parts {
        base,
        digits,
        suffix,
    }
}

/// Whether the suffix of these digits, if they are a number, has a `u`.
fn has_u(parts: Parts<'_>) -> bool
    ensures { result ≡ has_u (if length parts.entry.digits.now == 0 then None else suffix_of parts.entry.suffix.now) }
{
    if parts.digits.is_empty() {
        return false;
    }
    matches!(
        suffix_of(parts.suffix),
        Some(Suffix::U | Suffix::Ul | Suffix::Ull)
    )
}

/// A number from 0 on, where 64 bits hold it: unsigned where it is written so, or where no signed type holds it.
fn number(is_unsigned: bool, value: Option<u64>) -> Operand
    requires { IfSome value (λ n. n < 2 ^ 64) }
    ensures { (n : ℕ) → SomeIff value (n < 2 ^ 64) n → result ≡ number is_unsigned n }
{
    match value {
        Some(value) if !is_unsigned && value <= i64::MAX as u64 => Operand::Signed(Some(
            value as i64,
        )),
        value => Operand::Unsigned(value),
    }
}

/// An integer constant: all signed types act as `intmax_t` does, and all unsigned ones as `uintmax_t` (C99 6.4.4.1, 6.10.1). Bytes
/// that are no constant are read as far as they are one.
pub(crate) fn int_constant(bytes: &[u8]) -> Operand
    ensures { result ≡ int_constant bytes.now }
{
    let parts = parts_of(bytes);
    number(has_u(parts), digits_value(radix(parts.base), parts.digits))
}

/// A character constant: its byte as char (C99 6.4.4.4).
pub(crate) fn char_constant(alloc: Global, bytes: &[u8]) -> Result<Operand, NoMemory>
    ensures { IfOk result (λ constant. constant ≡ char_constant bytes.now) }
{
    let values = literal_values(alloc, bytes)?;
    let value = values.get(0).copied().unwrap_or(0);
    Ok(Operand::Signed(Some(i64::from(value.cast_signed()))))
}
