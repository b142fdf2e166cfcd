//! Writing JSON (RFC 8259).

ghost use Rattle.std.specs.Prelude.{◌≡◌, ◌+◌, ◌<◌, ◌^◌, option_copied};
ghost use Rattle.std.specs.List.{flat_map};
ghost use Rattle.hs_base.specs.Outside.{CountsFaults};
ghost use Rattle.bad_free_report.specs.Json.{control, escaped, hex_digit, number_or_null, quoted, text_or_null, written};
ghost use Rattle.bstr.specs.Utf8.{lossy_chars};
ghost use Rattle.bad_free_report.specs.Pieces.{piece_text};
ghost use Rattle.bad_free_report.specs.Putting.{Puts};

use bstr::ByteSlice;
use hs_base::{Failed, Sink, put_all};
use itoa::Buffer;

/// A piece of an object: a value without parts, or what stands between values.
#[derive(Clone, Copy)]
pub(crate) enum Piece<'a> {
    /// Names, brackets and commas, as they stand.
    Between(&'static [u8]),
    Null,
    Truth(bool),
    Number(u64),
    /// A string of these bytes, with U+FFFD for what is no UTF-8.
    Text(&'a [u8]),
}

/// A string, and null where there is none.
pub(crate) fn text_or_null(text: Option<&[u8]>) -> Piece<'_>
    ensures { piece_text result ≡ written (text_or_null (option_copied text.entry)) }
{
    match text {
        Some(text) => Piece::Text(text),
        None => Piece::Null,
    }
}

/// A number, and null where there is none.
pub(crate) fn number_or_null<'a>(number: Option<u32>) -> Piece<'a>
    ensures { piece_text result ≡ written (number_or_null number) }
{
    match number {
        Some(number) => Piece::Number(u64::from(number)),
        None => Piece::Null,
    }
}

/// A hexadecimal digit.
fn hex_digit(digit: u8) -> u8
    requires { digit < 16 }
    ensures { result ≡ hex_digit digit }
{
    if digit < 10 {
        b'0' + digit
    } else {
        b'a' - 10 + digit
    }
}

/// Writes a control character by its number.
fn put_control<E: Sink>(err: &mut E, number: u8) -> Result<(), Failed>
    requires low { number < 32 }
    requires room { E.faults err.old + 1 < 2 ^ 64 }
    ensures bytes { Puts E.Sink err.old err.new (control number) result }
    ensures cause { CountsFaults (E.faults err.old) (E.faults err.new) result }
{
    if number < 16 {
        put_all(err, &[b'\\', b'u', b'0', b'0', b'0', hex_digit(number)])
    } else {
        put_all(
            err,
            &[b'\\', b'u', b'0', b'0', b'1', hex_digit(number - 16)],
        )
    }
}

/// Writes a character within a string.
fn put_char<E: Sink>(err: &mut E, c: char) -> Result<(), Failed>
    requires { E.faults err.old + 1 < 2 ^ 64 }
    ensures bytes { Puts E.Sink err.old err.new (escaped c) result }
    ensures cause { CountsFaults (E.faults err.old) (E.faults err.new) result }
{
    let number = c as u32;
    if number == 34 {
        return put_all(err, b"\\\"");
    }
    if number == 92 {
        return put_all(err, b"\\\\");
    }
    if number < 32 {
        return put_control(err, number as u8);
    }
    let mut buffer = [0; 4];
    put_all(err, c.encode_utf8(&mut buffer).as_bytes())
}

/// Writes the characters of a string.
fn put_chars<E: Sink>(err: &mut E, text: &[u8]) -> Result<(), Failed>
    requires { E.faults err.old + 1 < 2 ^ 64 }
    ensures bytes { Puts E.Sink err.old err.new
        (flat_map escaped (lossy_chars text.now)) result }
    ensures cause { CountsFaults (E.faults err.old) (E.faults err.new) result }
{
    let mut chars = text.chars();
    'chars: while let Some(c) = chars.next() {
        put_char(err, c)?;
    }
    Ok(())
}

/// Writes a string.
fn put_text<E: Sink>(err: &mut E, text: &[u8]) -> Result<(), Failed>
    requires { E.faults err.old + 1 < 2 ^ 64 }
    ensures bytes { Puts E.Sink err.old err.new (quoted text.now) result }
    ensures cause { CountsFaults (E.faults err.old) (E.faults err.new) result }
{
    put_all(err, b"\"")?;
    put_chars(err, text)?;
    put_all(err, b"\"")
}

/// Writes a piece of an object.
fn put_piece<E: Sink>(err: &mut E, piece: Piece<'_>) -> Result<(), Failed>
    requires { E.faults err.old + 1 < 2 ^ 64 }
    ensures bytes { Puts E.Sink err.old err.new (piece_text piece.entry) result }
    ensures cause { CountsFaults (E.faults err.old) (E.faults err.new) result }
{
    match piece {
        Piece::Between(bytes) => put_all(err, bytes),
        Piece::Null => put_all(err, b"null"),
        Piece::Truth(true) => put_all(err, b"true"),
        Piece::Truth(false) => put_all(err, b"false"),
        Piece::Number(number) => {
            let mut digits = Buffer::new();
            put_all(err, digits.format(number).as_bytes())
        }
        Piece::Text(text) => put_text(err, text),
    }
}

/// Writes all of these pieces to the sink, in order. After a failure, which is the last call on the sink, a prefix of
/// their bytes was taken.
pub(crate) fn put_pieces<E: Sink>(err: &mut E, pieces: &[Piece<'_>]) -> Result<(), Failed>
    requires { E.faults err.old + 1 < 2 ^ 64 }
    ensures bytes { Puts E.Sink err.old err.new
        (flat_map piece_text pieces.now) result }
    ensures cause { CountsFaults (E.faults err.old) (E.faults err.new) result }
{
    for piece in pieces {
        put_piece(err, *piece)?;
    }
    Ok(())
}
