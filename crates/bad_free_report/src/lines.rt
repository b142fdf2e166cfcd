//! Complaints, and the source line below one.

ghost use Rattle.std.specs.Prelude.{◌≡◌, ◌++◌, ◌+◌, ◌<◌, ◌^◌, option_copied};
ghost use Rattle.hs_base.specs.Outside.{CountsFaults};
ghost use Rattle.bad_free_report.specs.Notice.{lines, name_of, word_text};
ghost use Rattle.bad_free_report.specs.Told.{refused_of};
ghost use Rattle.bad_free_report.specs.Report.{complaint, complaint_at, heading, source_line, shown_part, whole_line};
ghost use Rattle.bad_free_report.specs.Putting.{Puts};

use crate::facts::{Refused, Spot};
use crate::parts::put_parts;
use bstr::ByteSlice;
use hs_base::{Failed, Line, Sink};
use itoa::Buffer;

/// How many bytes of a source line are shown.
const SHOWN: usize = 200;

/// What is shown of a text's line, whose number counts from 1: its first bytes, without the bytes that end it. `None`
/// where the text has no byte there.
pub(crate) fn shown_part(text: &[u8], line: Line) -> Option<&[u8]>
    ensures { option_copied result ≡ shown_part (whole_line text.now line) }
{
    let before = (line as usize).checked_sub(1)?;
    let found = text.lines().nth(before)?;
    Some(&found[..found.len().min(SHOWN)])
}

/// Writes two spaces, what is shown of the text's line of that number, and a line feed; nothing where the text has no
/// byte there.
fn put_source_line<E: Sink>(err: &mut E, line: Line, text: &[u8]) -> Result<(), Failed>
    requires { E.faults err.old + 1 < 2 ^ 64 }
    ensures bytes { Puts E.Sink err.old err.new (source_line text.now line) result }
    ensures cause { CountsFaults (E.faults err.old) (E.faults err.new) result }
{
    match shown_part(text, line) {
        Some(part) => put_parts(err, &[b"  ", part, b"\n"]),
        None => Ok(()),
    }
}

/// Writes `NAME: WORDS` and a line feed. After a failure, which is the last call on the sink, a prefix was taken.
pub(crate) fn complain<E: Sink>(err: &mut E, name: &[u8], words: &[u8]) -> Result<(), Failed>
    requires { E.faults err.old + 1 < 2 ^ 64 }
    ensures bytes { Puts E.Sink err.old err.new (complaint name.now words.now) result }
    ensures cause { CountsFaults (E.faults err.old) (E.faults err.new) result }
{
    put_parts(err, &[name, b": ", words, b"\n"])
}

/// Writes `NAME:LINE: ` with a label and words behind it, and a line feed.
fn put_heading<'a, E: Sink>(
    err: &mut E,
    name: &'a [u8],
    line: Line,
    label: &'a [u8],
    words: &'a [u8],
) -> Result<(), Failed>
    requires { E.faults err.old + 1 < 2 ^ 64 }
    ensures bytes { Puts E.Sink err.old err.new (heading name.now line (label.now ++ words.now)) result }
    ensures cause { CountsFaults (E.faults err.old) (E.faults err.new) result }
{
    let mut digits = Buffer::new();
    let number = digits.format(line).as_bytes();
    put_parts(err, &[name, b":", number, b": ", label, words, b"\n"])
}

/// What [`complain_at`] does, with words that begin with a label, as `trap: `.
pub(crate) fn complain_labelled<E: Sink>(
    err: &mut E,
    name: &[u8],
    line: Line,
    label: &[u8],
    words: &[u8],
    text: &[u8],
) -> Result<(), Failed>
    requires { E.faults err.old + 1 < 2 ^ 64 }
    ensures bytes { Puts E.Sink err.old err.new (complaint_at name.now line (label.now ++ words.now) text.now) result }
    ensures cause { CountsFaults (E.faults err.old) (E.faults err.new) result }
{
    put_heading(err, name, line, label, words)?;
    put_source_line(err, line, text)
}

/// Writes `NAME:LINE: WORDS` and a line feed, and below it two spaces, the text's line of that number, and a line feed.
/// The line is shown without the bytes that end it (byte 10 and a byte 13 before it) and cut after 200 bytes; where the
/// text has no byte there, nothing is written below. After a failure, which is the last call on the sink, a prefix was
/// taken.
pub(crate) fn complain_at<E: Sink>(
    err: &mut E,
    name: &[u8],
    line: Line,
    words: &[u8],
    text: &[u8],
) -> Result<(), Failed>
    requires { E.faults err.old + 1 < 2 ^ 64 }
    ensures bytes { Puts E.Sink err.old err.new (complaint_at name.now line words.now text.now) result }
    ensures cause { CountsFaults (E.faults err.old) (E.faults err.new) result }
{
    complain_labelled(err, name, line, b"", words, text)
}

/// What stands behind the kind of a refusal: its word, behind a colon, where it has one.
fn behind_kind<'a>(word: Option<&'a [u8]>) -> (&'static [u8], &'a [u8])
    ensures { word_text (option_copied word.entry) ≡ result.0.now ++ result.1.now }
{
    match word {
        Some(word) => (b": ", word),
        None => (b"", b""),
    }
}

/// The name by which a line begins: that of a file, or the program's.
fn name_of<'a>(file: Option<&'a [u8]>) -> &'a [u8]
    ensures { result.now ≡ name_of (option_copied file.entry) }
{
    match file {
        Some(file) => file,
        None => b"heapsafe",
    }
}

/// Writes the line of a refusal that is at no line of a text: a name, and the words in three pieces.
fn put_refusal_line<'a, E: Sink>(
    err: &mut E,
    name: &'a [u8],
    kind: &'a [u8],
    colon: &'a [u8],
    word: &'a [u8],
) -> Result<(), Failed>
    requires { E.faults err.old + 1 < 2 ^ 64 }
    ensures bytes { Puts E.Sink err.old err.new
        (complaint name.now (kind.now ++ (colon.now ++ word.now))) result }
    ensures cause { CountsFaults (E.faults err.old) (E.faults err.new) result }
{
    put_parts(err, &[name, b": ", kind, colon, word, b"\n"])
}

/// The same at a line of a text.
fn put_refusal_heading<'a, E: Sink>(
    err: &mut E,
    name: &'a [u8],
    line: Line,
    kind: &'a [u8],
    colon: &'a [u8],
    word: &'a [u8],
) -> Result<(), Failed>
    requires { E.faults err.old + 1 < 2 ^ 64 }
    ensures bytes { Puts E.Sink err.old err.new
        (heading name.now line (kind.now ++ (colon.now ++ word.now))) result }
    ensures cause { CountsFaults (E.faults err.old) (E.faults err.new) result }
{
    let mut digits = Buffer::new();
    let number = digits.format(line).as_bytes();
    put_parts(err, &[name, b":", number, b": ", kind, colon, word, b"\n"])
}

/// Writes the same, and below it the line of the text.
fn put_refusal_at<'a, E: Sink>(
    err: &mut E,
    name: &'a [u8],
    kind: &'a [u8],
    colon: &'a [u8],
    word: &'a [u8],
    spot: Spot<'_>,
) -> Result<(), Failed>
    requires { E.faults err.old + 1 < 2 ^ 64 }
    ensures bytes { Puts E.Sink err.old err.new
        (complaint_at name.now spot.entry.line (kind.now ++ (colon.now ++ word.now)) spot.entry.text.now) result }
    ensures cause { CountsFaults (E.faults err.old) (E.faults err.new) result }
{
    put_refusal_heading(err, name, spot.line, kind, colon, word)?;
    put_source_line(err, spot.line, spot.text)
}

/// Writes the line of a refusal, and below it the line of the text, if it is at one.
pub(crate) fn put_refusal_lines<E: Sink>(err: &mut E, refused: &Refused<'_>) -> Result<(), Failed>
    requires { E.faults err.old + 1 < 2 ^ 64 }
    ensures bytes { Puts E.Sink err.old err.new
        (lines (refused_of refused.now)) result }
    ensures cause { CountsFaults (E.faults err.old) (E.faults err.new) result }
{
    let name = name_of(refused.file);
    let (colon, word) = behind_kind(refused.word);
    match refused.spot {
        Some(spot) => put_refusal_at(err, name, refused.kind, colon, word, spot),
        None => put_refusal_line(err, name, refused.kind, colon, word),
    }
}
