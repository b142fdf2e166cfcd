//! Answers that are not of a run: of each something is said on the error stream, and it has a status.

ghost use Rattle.std.specs.Prelude.{◌≡◌, ◌+◌, ◌<◌, ◌^◌, option_copied};
ghost use Rattle.heapsafe.specs.Shown.{untokened};
ghost use Rattle.heapsafe.specs.Saying.{SaysAt, SaysIn, SaysOnly, file_of, words_of, status_in, shown_of, unmade, untyped};

use crate::places::text_of;
use crate::streams::Streams;
use crate::units::ProgramError;
use bad_free_report::{Refused, Spot, say_refused};
use c_decls::TypeError;
use c_pre::{Opened, PreError};
use hs_base::{Line, Sink, Source};

/// Why nothing is run, or why nothing is written.
#[derive(Clone, Copy)]
pub(crate) enum Refusal<'a> {
    /// The words are not taken.
    Usage,
    /// The text could not be read.
    TextFault(&'a [u8]),
    /// The text has more bytes than a text may have.
    TextTooLong(&'a [u8]),
    /// The bytes are those of no code file.
    BadCode(&'a [u8]),
    /// The code of the file is not well formed.
    Unverified(&'a [u8]),
    /// Memory was wanted and there was none.
    NoMemory,
    /// The output failed.
    OutputFault,
}

impl<'a> Refusal<'a> {
    /// The file that it is of.
    fn file(&self) -> Option<&'a [u8]>
        ensures { option_copied result ≡ file_of self.now }
    {
        match self {
            Refusal::TextFault(file)
            | Refusal::TextTooLong(file)
            | Refusal::BadCode(file)
            | Refusal::Unverified(file) => Some(file),
            Refusal::Usage | Refusal::NoMemory | Refusal::OutputFault => None,
        }
    }

    /// What it is.
    fn words(&self) -> &'static [u8]
        ensures { result.now ≡ words_of self.now }
    {
        match self {
            Refusal::Usage => b"bad command line",
            Refusal::TextFault(_) => b"cannot read",
            Refusal::TextTooLong(_) => b"text too long",
            Refusal::BadCode(_) => b"bad code",
            Refusal::Unverified(_) => b"unverified",
            Refusal::NoMemory => b"no memory",
            Refusal::OutputFault => b"output fault",
        }
    }

    /// The status.
    fn status(&self) -> u8
        ensures { result ≡ status_in self.now }
    {
        match self {
            Refusal::Usage => 120,
            Refusal::TextFault(_) => 121,
            Refusal::TextTooLong(_) => 122,
            Refusal::OutputFault => 133,
            Refusal::NoMemory => 134,
            Refusal::BadCode(_) => 136,
            Refusal::Unverified(_) => 137,
        }
    }
}

/// The status where a write to the error stream failed.
pub(crate) const OUTPUT_FAULT: u8 = 133;

/// The status of a text with a line that the preprocessor refuses.
pub(crate) const BAD_LINE: u8 = 138;

/// The status of a text with a place that the lexer refuses.
pub(crate) const BAD_TOKENS: u8 = 123;

/// The status of a text whose tokens have no tree.
pub(crate) const BAD_TREE: u8 = 124;

/// The status of a text whose types are refused.
pub(crate) const BAD_TYPES: u8 = 125;

/// The status of a program of which two units say what may not be said of one name twice.
pub(crate) const CONFLICT: u8 = 139;

/// Says what a refusal is and answers its status, or that of a failed write.
pub(crate) fn refuse<I: Source, O: Sink, E: Sink>(
    io: &mut Streams<I, O, E>,
    refusal: Refusal<'_>,
) -> u8
    requires { io.old.err_faults + 1 < 2 ^ 64 }
    ensures { SaysOnly (shown_of refusal.entry) io.old io.new result }
{
    let status = refusal.status();
    let refused = Refused {
        kind: refusal.words(),
        word: None,
        file: refusal.file(),
        spot: None,
        status,
    };
    match say_refused(&mut io.err, io.form, &refused) {
        Ok(()) => status,
        Err(_) => OUTPUT_FAULT,
    }
}

/// Says what a refusal at a line of a text is, with that line, and answers this status, or that of a failed write.
fn refuse_at<I: Source, O: Sink, E: Sink>(
    io: &mut Streams<I, O, E>,
    name: &[u8],
    line: Line,
    text: &[u8],
    kind: &'static [u8],
    word: Option<&[u8]>,
    status: u8,
) -> u8
    requires { io.old.err_faults + 1 < 2 ^ 64 }
    ensures { SaysAt name.now line text.now kind.now (option_copied word.entry) status io.old io.new result }
{
    let refused = Refused {
        kind,
        word,
        file: Some(name),
        spot: Some(Spot { line, text }),
        status,
    };
    match say_refused(&mut io.err, io.form, &refused) {
        Ok(()) => status,
        Err(_) => OUTPUT_FAULT,
    }
}

/// The same at a line that is counted over all texts.
fn refuse_in<I: Source, O: Sink, E: Sink>(
    io: &mut Streams<I, O, E>,
    opened: &[Opened],
    line: Line,
    kind: &'static [u8],
    word: Option<&[u8]>,
    status: u8,
) -> u8
    requires { io.old.err_faults + 1 < 2 ^ 64 }
    ensures { SaysIn opened.now line kind.now (option_copied word.entry) status io.old io.new result }
{
    match text_of(opened, line) {
        Some(text) => {
            refuse_at(
                io,
                text.name.as_slice(),
                line.saturating_sub(text.base),
                text.text.as_slice(),
                kind,
                word,
                status,
            )
        }
        None => refuse_at(io, b"", line, b"", kind, word, status),
    }
}

/// Says why a text has no tokens, and answers the status of that.
pub(crate) fn refuse_text<I: Source, O: Sink, E: Sink>(
    io: &mut Streams<I, O, E>,
    error: &PreError,
) -> u8
    requires { io.old.err_faults + 1 < 2 ^ 64 }
    ensures { SaysOnly (untokened error.now) io.old io.new result }
{
    match error {
        PreError::Bad { kind, at } => {
            refuse_at(
                io,
                at.name.as_slice(),
                at.line,
                at.text.as_slice(),
                b"preprocess",
                Some(kind.word().as_bytes()),
                BAD_LINE,
            )
        }
        PreError::Lex { kind, at } => {
            refuse_at(
                io,
                at.name.as_slice(),
                at.line,
                at.text.as_slice(),
                b"lex",
                Some(kind.word().as_bytes()),
                BAD_TOKENS,
            )
        }
        PreError::Fault { name } => refuse(io, Refusal::TextFault(name.as_slice())),
        PreError::TooLong { name } => refuse(io, Refusal::TextTooLong(name.as_slice())),
        PreError::NoMemory => refuse(io, Refusal::NoMemory),
    }
}

/// Says why the types of a text are refused, and answers the status of that.
pub(crate) fn refuse_types<I: Source, O: Sink, E: Sink>(
    io: &mut Streams<I, O, E>,
    error: TypeError,
    opened: &[Opened],
) -> u8
    requires { io.old.err_faults + 1 < 2 ^ 64 }
    ensures { SaysOnly (untyped error opened.now) io.old io.new result }
{
    match error {
        TypeError::Bad { kind, line } => {
            refuse_in(
                io,
                opened,
                line,
                b"type",
                Some(kind.word().as_bytes()),
                BAD_TYPES,
            )
        }
        TypeError::NoMemory => refuse(io, Refusal::NoMemory),
    }
}

/// Says why a program was not read, and answers the status of that.
pub(crate) fn refuse_program<I: Source, O: Sink, E: Sink>(
    io: &mut Streams<I, O, E>,
    error: &ProgramError,
) -> u8
    requires { io.old.err_faults + 1 < 2 ^ 64 }
    ensures { SaysOnly (unmade error.now) io.old io.new result }
{
    match error {
        ProgramError::Text(error) => refuse_text(io, error),
        ProgramError::Syntax { texts, line } => {
            refuse_in(io, texts.as_slice(), *line, b"syntax", None, BAD_TREE)
        }
        ProgramError::Conflict { texts, name, line } => {
            refuse_in(
                io,
                texts.as_slice(),
                *line,
                b"conflict",
                Some(name.as_slice()),
                CONFLICT,
            )
        }
        ProgramError::NoMemory => refuse(io, Refusal::NoMemory),
    }
}
