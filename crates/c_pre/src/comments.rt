//! Comments, which become spaces before anything else is read.

ghost use Rattle.std.specs.Prelude.{◌≡◌, ◌+◌, ◌<◌, ◌≤◌, ◌^◌, IfOk, IfSome, length};
ghost use Rattle.c_pre.specs.Comments.{begins_with, behind_code, behind_quoted, next_mode, is_comment, is_open, is_opened, shown, blanked, open_comment};

use hs_base::{Line, NoMemory};
use std::alloc::Global;

/// Where a byte of a text stands.
#[derive(Clone, Copy, Debug, PartialEq, Eq)]
pub(crate) enum Mode {
    /// Outside comments and literals.
    Code,
    /// In a literal, before this closing quote.
    Quoted(u8),
    /// In a literal with this closing quote, right behind a backslash.
    Escaped(u8),
    /// In a comment up to the end of its line, behind its first `/`.
    LineComment,
    /// In a comment up to `*/`, right behind its first `/`.
    Opened,
    /// In a comment up to `*/`, behind its first two bytes. The flag says whether a `*` of them stands right before.
    Inside { star: bool },
}

/// Whether a text begins with this byte.
pub(crate) fn begins_with(first: u8, text: &[u8]) -> bool
    ensures { result ≡ begins_with first text.now }
{
    match text {
        [] => false,
        [byte, ..] => *byte == first,
    }
}

/// Where the byte behind one outside comments and literals stands (C99 6.4.4.4, 6.4.5 and 6.4.9).
fn behind_code(byte: u8, rest: &[u8]) -> Mode
    ensures { result ≡ behind_code byte rest.now }
{
    if byte == b'\'' || byte == b'"' {
        Mode::Quoted(byte)
    } else if byte == b'/' && begins_with(b'/', rest) {
        Mode::LineComment
    } else if byte == b'/' && begins_with(b'*', rest) {
        Mode::Opened
    } else {
        Mode::Code
    }
}

/// Where the byte behind one of a literal with this closing quote stands.
fn behind_quoted(quote: u8, byte: u8) -> Mode
    ensures { result ≡ behind_quoted quote byte }
{
    if byte == b'\n' || byte == quote {
        Mode::Code
    } else if byte == b'\\' {
        Mode::Escaped(quote)
    } else {
        Mode::Quoted(quote)
    }
}

/// Where the byte behind this one stands.
pub(crate) fn next_mode(mode: Mode, byte: u8, rest: &[u8]) -> Mode
    ensures { result ≡ next_mode mode byte rest.now }
{
    match mode {
        Mode::Code => behind_code(byte, rest),
        Mode::Quoted(quote) => behind_quoted(quote, byte),
        Mode::Escaped(quote) => {
            if byte == b'\n' {
                Mode::Code
            } else {
                Mode::Quoted(quote)
            }
        }
        Mode::LineComment => {
            if byte == b'\n' {
                Mode::Code
            } else {
                Mode::LineComment
            }
        }
        Mode::Opened => Mode::Inside { star: false },
        Mode::Inside { star } => {
            if star && byte == b'/' {
                Mode::Code
            } else {
                Mode::Inside { star: byte == b'*' }
            }
        }
    }
}

/// Whether a byte there belongs to a comment.
fn is_comment(mode: Mode) -> bool
    ensures { result ≡ is_comment mode }
{
    matches!(mode, Mode::LineComment | Mode::Opened | Mode::Inside { .. })
}

/// Whether a byte there belongs to a comment up to `*/`.
fn is_open(mode: Mode) -> bool
    ensures { result ≡ is_open mode }
{
    matches!(mode, Mode::Opened | Mode::Inside { .. })
}

/// Whether a comment up to `*/` begins right before a byte there.
fn is_opened(mode: Mode) -> bool
    ensures { result ≡ is_opened mode }
{
    matches!(mode, Mode::Opened)
}

/// What a byte becomes, by where it and the byte behind it stand.
fn shown(mode: Mode, next: Mode, byte: u8) -> u8
    ensures { result ≡ shown mode next byte }
{
    if byte == b'\n' {
        byte
    } else if is_comment(mode) || is_comment(next) {
        b' '
    } else {
        byte
    }
}

/// A text with spaces in place of its comments. Each byte 10 is kept.
pub(crate) fn blanked(alloc: Global, text: &[u8]) -> Result<Vec<u8>, NoMemory>
    ensures bytes { IfOk result (λ plain. plain.items ≡ blanked Mode.Code text.now) }
    ensures len { IfOk result (λ plain. length plain.items ≡ length text.now) }
{
    let mut plain = Vec::new(alloc);
    let mut mode = Mode::Code;
    for (at, byte) in text.iter().enumerate() {
        let next = next_mode(mode, *byte, &text[at + 1..]);
        plain.push(shown(mode, next, *byte))?;
        mode = next;
    }
    Ok(plain)
}

/// The line of the `/*` that no `*/` follows, where a text has one.
pub(crate) fn open_comment(text: &[u8]) -> Option<Line>
    requires { length text.now + 1 < 2 ^ 32 }
    ensures { result ≡ open_comment text.now }
{
    let mut mode = Mode::Code;
    let mut line = 1;
    let mut start = 1;
    for (at, byte) in text.iter().enumerate() {
        mode = next_mode(mode, *byte, &text[at + 1..]);
        if is_opened(mode) {
            start = line;
        }
        if *byte == b'\n' {
            line += 1;
        }
    }
    is_open(mode).then_some(start)
}
