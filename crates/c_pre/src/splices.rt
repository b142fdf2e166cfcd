//! Lines that a backslash joins with the next one (C99 5.1.1.2, phase 2).

ghost use Rattle.std.specs.Prelude.{◌≡◌, ◌+◌, ◌≤◌, ◌<◌, ◌++◌, IfOk, IfSome, OnOk, length, option_copied, option_map, replicate};
ghost use Rattle.c_lexer.specs.Bytes.{is_number_byte};
ghost use Rattle.c_pre.specs.Comments.{next_mode};
ghost use Rattle.c_pre.specs.Lines.{directive_rest, lines_of};
ghost use Rattle.c_pre.specs.Splices.{mode_behind, is_sign_byte, touch, touch_at, is_bare, may_follow, before_backslash, going_on, joined, unmarked};

use crate::comments::{Mode, next_mode};
use crate::lines::{behind_spaces, directive_rest, first_line};
use c_lexer::is_name_byte;
use hs_base::NoMemory;
use std::alloc::Global;

/// The byte order mark of a text in UTF-8.
const MARK: [u8; 3] = [0xEF, 0xBB, 0xBF];

/// Where the byte behind some bytes stands, the first of which stands outside comments and literals.
fn mode_behind(bytes: &[u8]) -> Mode
    ensures { result ≡ mode_behind Mode.Code bytes.now }
{
    let mut mode = Mode::Code;
    for (at, byte) in bytes.iter().enumerate() {
        mode = next_mode(mode, *byte, &bytes[at + 1..]);
    }
    mode
}

/// Whether a byte may stand in a sign of several bytes.
#[tactic(auto, unfolding(crate::specs::Splices::is_sign_byte))]
fn is_sign_byte(byte: u8) -> bool
    ensures { result ≡ is_sign_byte byte }
{
    b"+-*/%&|^<>=!#.:".iter().any(|other| *other == byte)
}

/// Whether a byte goes on with a number: a letter, a digit, an underscore or a dot.
#[tactic(auto, unfolding(c_lexer::specs::Bytes::is_number_byte))]
fn is_number_byte(byte: u8) -> bool
    ensures { result ≡ is_number_byte byte }
{
    is_name_byte(byte) || byte == b'.'
}

/// Whether two bytes may stand next to each other in one token.
fn touch(last: u8, first: u8) -> bool
    ensures { result ≡ touch last first }
{
    is_number_byte(last) && is_number_byte(first) || is_sign_byte(last) && is_sign_byte(first)
}

/// Whether a line is a `#` with nothing but white space behind it.
fn is_bare(line: &[u8]) -> bool
    ensures { result ≡ is_bare (directive_rest line.now) }
{
    match directive_rest(line) {
        Some(rest) => behind_spaces(rest).is_empty(),
        None => false,
    }
}

/// Whether a line may follow a part of the line before: it is no directive, it does not give one its word, and no token
/// stands on both.
fn may_follow(part: &[u8], next: &[u8]) -> bool
    ensures { result ≡ may_follow part.now next.now }
{
    if directive_rest(next).is_some() {
        return false;
    }
    if is_bare(part) {
        return false;
    }
    match (part.last(), next.first()) {
        (None, _) => false,
        (Some(_), None) => true,
        (Some(last), Some(first)) => !touch(*last, *first),
    }
}

/// The part of a line before a backslash that ends it, outside comments and literals, with its byte 10.
#[tactic(auto, unfolding(crate::specs::Splices::before_backslash))]
fn before_backslash(line: &[u8]) -> Option<&[u8]>
    ensures part { option_map (λ part. part.now) result ≡ before_backslash line.now }
    ensures len { IfSome result (λ part. length part.now + 2 ≡ length line.now) }
{
    if line.len() < 2 {
        return None;
    }
    let part = &line[..line.len() - 2];
    if &line[line.len() - 2..] == b"\\\n".as_slice() && matches!(mode_behind(part), Mode::Code) {
        Some(part)
    } else {
        None
    }
}

/// The part of a line that goes on in the next one, by the text behind the line.
fn going_on<'a>(line: &'a [u8], behind: &[u8]) -> Option<&'a [u8]>
    ensures part { option_map (λ part. part.now) result ≡ going_on (before_backslash line.now) (lines_of behind.now) }
    ensures len { IfSome result (λ part. length part.now + 2 ≡ length line.now) }
{
    let part = before_backslash(line)?;
    if behind.is_empty() {
        return None;
    }
    if may_follow(part, first_line(behind)) {
        Some(part)
    } else {
        None
    }
}

/// Puts so many bytes 10 behind a text.
fn end_lines(text: &mut Vec<u8>, count: usize) -> Result<(), NoMemory>
    ensures { OnOk result (text.new.items ≡ text.old.items ++ replicate count 10) }
{
    for i in 0..count {
        text.push(b'\n')?;
    }
    Ok(())
}

/// A text whose lines are joined where they go on. It has as many bytes and lines as before.
pub(crate) fn joined(alloc: Global, text: &[u8]) -> Result<Vec<u8>, NoMemory>
    ensures bytes { IfOk result (λ whole. whole.items ≡ joined 0 (lines_of text.now)) }
    ensures len { IfOk result (λ whole. length whole.items ≡ length text.now) }
{
    let mut whole = Vec::new(alloc);
    let mut taken = 0;
    let mut at = 0;
    'lines: while at < text.len() {
        let line = first_line(&text[at..]);
        at += line.len();
        if let Some(part) = going_on(line, &text[at..]) {
            whole.extend_from_slice(part)?;
            whole.push(b' ')?;
            taken += 1;
        } else {
            whole.extend_from_slice(line)?;
            end_lines(&mut whole, taken)?;
            taken = 0;
        }
    }
    end_lines(&mut whole, taken)?;
    Ok(whole)
}

/// Puts spaces in place of a byte order mark at the front of a text.
pub(crate) fn unmark(text: &mut Vec<u8>)
    ensures { text.new.items ≡ unmarked text.old.items }
{
    if text.as_slice().starts_with(MARK.as_slice()) {
        text[0] = b' ';
        text[1] = b' ';
        text[2] = b' ';
    }
}
