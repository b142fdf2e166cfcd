//! Integer constants (C99 6.4.4.1).

ghost use Rattle.std.specs.Prelude.{◌≡◌, ◌+◌, ◌*◌, ◌^◌, ◌<◌, ◌≤◌, length, SomeIff, Some, IsTrue};
ghost use Rattle.std.specs.List.{prefix_len};
ghost use Rattle.c_lexer.specs.Numbers.{base_of, prefix_length, radix, is_digit_of, digits_value, digits_of, behind_digits, suffix_of, form_of, number_value, is_held};
ghost use Rattle.c_lexer.specs.Bytes.{digit_value, is_hexadecimal_digit};
ghost use Rattle.c_lexer.specs.Pieces.{number_kind, IsToken};

use crate::bytes::{is_digit, is_hexadecimal_digit, is_octal_digit};
use crate::piece::PieceKind;
use crate::token::{LexKind, TokenKind};

/// The base of a number.
#[derive(Clone, Copy, Debug, PartialEq, Eq)]
pub enum Base {
    Octal,
    Decimal,
    Hexadecimal,
}

/// The suffix of a number: an optional `u`, with no `l`, one or two.
#[derive(Clone, Copy, Debug, PartialEq, Eq)]
pub enum Suffix {
    Plain,
    U,
    L,
    Ul,
    Ll,
    Ull,
}

/// An integer constant, read.
#[derive(Clone, Copy, Debug, PartialEq, Eq)]
pub struct Number {
    pub base: Base,
    pub suffix: Suffix,
    pub value: u64,
}

impl Base {
    /// How many bytes stand before the digits.
    fn prefix_length(self) -> usize
        ensures { result ≡ prefix_length self }
    {
        match self {
            Base::Octal | Base::Decimal => 0,
            Base::Hexadecimal => 2,
        }
    }

    /// The value of the digits `10`.
    fn radix(self) -> u64
        ensures { result ≡ radix self }
    {
        match self {
            Base::Octal => 8,
            Base::Decimal => 10,
            Base::Hexadecimal => 16,
        }
    }

    /// Whether a byte is a digit of this base.
    fn is_digit(self, byte: u8) -> bool
        ensures { result ≡ is_digit_of self byte }
    {
        match self {
            Base::Octal => is_octal_digit(byte),
            Base::Decimal => is_digit(byte),
            Base::Hexadecimal => is_hexadecimal_digit(byte),
        }
    }

    /// How many digits of this base a text begins with.
    fn digit_count(self, text: &[u8]) -> usize
        ensures count { result ≡ prefix_len (is_digit_of self) text.now }
        ensures bound { result ≤ length text.now }
    {
        text.iter().take_while(|byte| self.is_digit(**byte)).count()
    }
}

/// The base of a number, by what it begins with.
#[tactic(auto, unfolding(crate::specs::Numbers::base_of))]
pub(crate) fn base_of(number: &[u8]) -> Base
    ensures base { result ≡ base_of number.now }
    ensures bound { prefix_length result ≤ length number.now }
{
    match number {
        [b'0', b'x' | b'X', ..] => Base::Hexadecimal,
        [b'0', ..] => Base::Octal,
        _ => Base::Decimal,
    }
}

/// The value of a digit, a hexadecimal one too.
#[tactic(auto, unfolding(crate::specs::Bytes::digit_value))]
fn digit_value(byte: u8) -> u8
    ensures { result ≡ digit_value byte }
{
    if byte <= b'9' {
        byte.saturating_sub(b'0')
    } else if byte <= b'F' {
        byte.saturating_sub(b'7')
    } else {
        byte.saturating_sub(b'W')
    }
}

/// The value of digits that have one digit more behind them, where 64 bits hold it.
fn with_digit(value: u64, radix: u64, digit: u8) -> Option<u64>
    ensures { SomeIff result (value * radix + digit_value digit < 2 ^ 64) (value * radix + digit_value digit) }
{
    let shifted = value.checked_mul(radix)?;
    shifted.checked_add(u64::from(digit_value(digit)))
}

/// The value of digits, where 64 bits hold it.
#[tactic(auto, using(crate::proofs::Digits::digit_steps))]
pub(crate) fn digits_value(radix: u64, digits: &[u8]) -> Option<u64>
    requires { 0 < radix }
    ensures { SomeIff result (digits_value radix digits.now < 2 ^ 64) (digits_value radix digits.now) }
{
    let mut value: u64 = 0;
    for digit in digits {
        match with_digit(value, radix, *digit) {
            Some(longer) => value = longer,
            None => return None,
        }
    }
    Some(value)
}

/// The suffix that these bytes are, where they are one.
#[tactic(auto, unfolding(crate::specs::Numbers::suffix_of))]
pub(crate) fn suffix_of(bytes: &[u8]) -> Option<Suffix>
    ensures { result ≡ suffix_of bytes.now }
{
    match bytes {
        [] => Some(Suffix::Plain),
        [b'u' | b'U'] => Some(Suffix::U),
        [b'l' | b'L'] => Some(Suffix::L),
        [b'u' | b'U', b'l' | b'L'] | [b'l' | b'L', b'u' | b'U'] => Some(Suffix::Ul),
        b"ll" | b"LL" => Some(Suffix::Ll),
        [b'u' | b'U', b'l', b'l'] | [b'u' | b'U', b'L', b'L'] => Some(Suffix::Ull),
        [b'l', b'l', b'u' | b'U'] | [b'L', b'L', b'u' | b'U'] => Some(Suffix::Ull),
        _ => None,
    }
}

/// Whether a type of the list of C99 6.4.4.1 holds the value. Only a decimal number without `u` has no unsigned type.
#[tactic(auto, unfolding(crate::specs::Numbers::is_held))]
fn is_held(base: Base, suffix: Suffix, value: u64) -> bool
    ensures { result ≡ is_held base suffix value }
{
    match (base, suffix) {
        (Base::Decimal, Suffix::Plain | Suffix::L | Suffix::Ll) => value <= i64::MAX as u64,
        _ => true,
    }
}

/// Whether a type of the list of C99 6.4.4.1 holds the value of these digits.
#[tactic(auto, using(crate::proofs::Held::is_held_over))]
fn has_type(base: Base, suffix: Suffix, digits: &[u8]) -> bool
    ensures { result ≡ is_held base suffix (digits_value (radix base) digits.now) }
{
    match digits_value(base.radix(), digits) {
        Some(value) => is_held(base, suffix, value),
        None => false,
    }
}

/// The parts of a number: its base, its digits, and what stands behind them.
#[derive(Clone, Copy)]
struct Parts<'a> {
    base: Base,
    digits: &'a [u8],
    suffix: &'a [u8],
}

/// Takes a number apart.
fn parts_of(number: &[u8]) -> Parts<'_>
    ensures base { result.base ≡ base_of number.now }
    ensures digits { result.digits.now ≡ digits_of number.now }
    ensures suffix { result.suffix.now ≡ behind_digits number.now }
{
    let base = base_of(number);
    let behind_prefix = &number[base.prefix_length()..];
    let (digits, suffix) = behind_prefix.split_at(base.digit_count(behind_prefix));
    Parts {
        base,
        digits,
        suffix,
    }
}

/// What a digit and the run of letters, digits, underscores and points behind it are.
pub(crate) fn number_kind(run: &[u8]) -> PieceKind
    ensures { result ≡ number_kind run.now }
{
    let parts = parts_of(run);
    if parts.digits.is_empty() {
        return PieceKind::Refused(LexKind::BadNumber);
    }
    match suffix_of(parts.suffix) {
        None => PieceKind::Refused(LexKind::BadNumber),
        Some(suffix) if has_type(parts.base, suffix, parts.digits) => {
            PieceKind::Token(TokenKind::Int)
        }
        Some(_) => PieceKind::Refused(LexKind::LiteralTooWide),
    }
}

/// The base, the suffix and the value of an integer constant. A type of the list of C99 6.4.4.1 holds the value.
pub fn read_number(bytes: &[u8]) -> Number
    requires { IsToken TokenKind.Int bytes.now }
    ensures base { result.base ≡ base_of bytes.now }
    ensures suffix { form_of bytes.now ≡ Some result.suffix }
    ensures value { result.value ≡ number_value bytes.now }
    ensures held { IsTrue (is_held result.base result.suffix result.value) }
{
    let parts = parts_of(bytes);
    let suffix = suffix_of(parts.suffix).unwrap();
    let value = digits_value(parts.base.radix(), parts.digits).unwrap();
    Number {
        base: parts.base,
        suffix,
        value,
    }
}
