//! Character constants and string literals (C99 6.4.4.4 and 6.4.5).

ghost use Rattle.std.specs.Prelude.{◌≡◌, ◌<◌, ◌≤◌, ◌^◌, length, take, nat_le, SomeIff, IfSome, IfOk};
ghost use Rattle.std.specs.List.{prefix_len};
ghost use Rattle.c_lexer.specs.Bytes.{is_octal_digit, is_hexadecimal_digit};
ghost use Rattle.c_lexer.specs.Literals.{is_simple_escape, simple_value, escape_length, escape_value, character_length, character_value, constant_end, string_end, values_from, literal_values};

use crate::bytes::{is_hexadecimal_digit, is_octal_digit};
use crate::number::digits_value;
use hs_base::{Items, NoMemory};
use std::alloc::{AllocError, Global};

/// Whether a byte behind a backslash is an escape by itself.
#[tactic(auto, unfolding(crate::specs::Literals::is_simple_escape))]
fn is_simple_escape(byte: u8) -> bool
    ensures { result ≡ is_simple_escape byte }
{
    b"'\"?\\abfnrtv".contains(&byte)
}

/// How many octal digits a text begins with.
fn octal_count(text: &[u8]) -> usize
    ensures count { result ≡ prefix_len is_octal_digit text.now }
    ensures bound { result ≤ length text.now }
{
    text.iter()
        .take_while(|byte| is_octal_digit(**byte))
        .count()
}

/// How many hexadecimal digits a text begins with.
fn hexadecimal_count(text: &[u8]) -> usize
    ensures count { result ≡ prefix_len is_hexadecimal_digit text.now }
    ensures bound { result ≤ length text.now }
{
    text.iter()
        .take_while(|byte| is_hexadecimal_digit(**byte))
        .count()
}

/// How many bytes the longest escape has that stands behind a backslash, 0 where none does.
#[tactic(auto, unfolding(crate::specs::Literals::escape_length))]
fn escape_length(text: &[u8]) -> usize
    ensures length { result ≡ escape_length text.now }
    ensures bound { result ≤ length text.now }
{
    match text {
        [] => 0,
        [first, ..] if is_simple_escape(*first) => 1,
        [first, rest @ ..] if is_octal_digit(*first) => 1 + octal_count(rest).min(2),
        [b'x', rest @ ..] => {
            let digits = hexadecimal_count(rest);
            if digits == 0 { 0 } else { 1 + digits }
        }
        _ => 0,
    }
}

/// The value of a simple escape.
#[tactic(auto, unfolding(crate::specs::Literals::simple_value))]
fn simple_value(byte: u8) -> u8
    ensures { result ≡ simple_value byte }
{
    match byte {
        b'a' => 7,
        b'b' => 8,
        b'f' => 12,
        b'n' => b'\n',
        b'r' => b'\r',
        b't' => b'\t',
        b'v' => 11,
        other => other,
    }
}

/// The value of an escape that stands behind a backslash, where 64 bits hold it.
#[tactic(auto, unfolding(crate::specs::Literals::escape_value))]
fn escape_value(escape: &[u8]) -> Option<u64>
    ensures { SomeIff result (escape_value escape.now < 2 ^ 64) (escape_value escape.now) }
{
    match escape {
        [] => Some(0),
        [first, ..] if is_simple_escape(*first) => Some(u64::from(simple_value(*first))),
        [first, ..] if is_octal_digit(*first) => digits_value(8, escape),
        [_, digits @ ..] => digits_value(16, digits),
    }
}

/// Whether an escape that stands behind a backslash has a value of at most 255.
fn is_byte_escape(escape: &[u8]) -> bool
    ensures { result ≡ nat_le (escape_value escape.now) 255 }
{
    match escape_value(escape) {
        Some(value) => value <= 255,
        None => false,
    }
}

/// How many bytes the longest character has that a text begins with, 0 where none does.
#[tactic(auto, unfolding(crate::specs::Literals::character_length))]
fn character_length(quote: u8, text: &[u8]) -> usize
    ensures length { result ≡ character_length quote text.now }
    ensures bound { result ≤ length text.now }
    ensures fits { character_value (take result text.now) < 256 }
{
    match text {
        [] => 0,
        [b'\\', escape @ ..] => {
            let n = escape_length(escape);
            if n != 0 && is_byte_escape(&escape[..n]) {
                1 + n
            } else {
                0
            }
        }
        [first, ..] if *first == quote || *first == b'\n' => 0,
        _ => 1,
    }
}

/// How many bytes a character constant has behind its opening quote, where it has its form.
#[tactic(auto, unfolding(crate::specs::Literals::constant_end))]
pub(crate) fn constant_end(text: &[u8]) -> Option<usize>
    ensures end { result ≡ constant_end text.now }
    ensures bound { IfSome result (λ end. end ≤ length text.now) }
{
    let n = character_length(b'\'', text);
    if n != 0 && n < text.len() && text[n] == b'\'' {
        Some(1 + n)
    } else {
        None
    }
}

/// How many bytes a string literal has behind its opening quote, where it has its form.
pub(crate) fn string_end(text: &[u8]) -> Option<usize>
    ensures end { result ≡ string_end 0 text.now }
    ensures bound { IfSome result (λ end. end ≤ length text.now) }
{
    let mut at = 0;
    while at < text.len() {
        if text[at] == b'"' {
            return Some(1 + at);
        }
        let n = character_length(b'"', &text[at..]);
        if n == 0 {
            return None;
        }
        at += n;
    }
    None
}

/// The value of a character.
fn character_value(character: &[u8]) -> u8
    requires { character_value character.now < 256 }
    ensures { result ≡ character_value character.now }
{
    match character {
        [] => 0,
        [b'\\', escape @ ..] => escape_value(escape).unwrap() as u8,
        [first, ..] => *first,
    }
}

/// The values of the characters that a text begins with.
fn values_from(alloc: Global, quote: u8, text: &[u8]) -> Result<Vec<u8>, AllocError>
    ensures { IfOk result (λ values. values.items ≡ values_from quote 0 text.now) }
{
    let mut values = Vec::new(alloc);
    let mut at = 0;
    while at < text.len() {
        let n = character_length(quote, &text[at..]);
        if n == 0 {
            return Ok(values);
        }
        values.push(character_value(&text[at..at + n]))?;
        at += n;
    }
    Ok(values)
}

/// The values of the characters of a character constant or a string literal, one byte each, without a zero behind them.
pub fn literal_values(alloc: Global, bytes: &[u8]) -> Result<Items<u8>, NoMemory>
    ensures { IfOk result (λ values. values ≡ literal_values bytes.now) }
{
    match bytes {
        [] => Ok(Items::new(alloc)),
        [quote, rest @ ..] => Ok(Items::from(values_from(alloc, *quote, rest)?)),
    }
}
