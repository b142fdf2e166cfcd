//! What preprocessing answers.

ghost use Rattle.std.specs.Prelude.{◌≡◌, Some};
ghost use Rattle.c_pre.specs.Words.{word_of};
ghost use Rattle.c_pre.specs.Conditions.{moved_to};
ghost use Rattle.c_pre.specs.Texts.{no_sources};

use c_lexer::{LexKind, Token};
use hs_base::{Items, Line, NoMemory};
use std::alloc::{AllocFailed, Global};
use std::fmt;
use thiserror::Error;

/// What is wrong with the lines of a text.
#[derive(Clone, Copy, Debug, PartialEq, Eq)]
pub enum PreKind {
    /// A directive that has none of the forms.
    Directive,
    /// An `#error` (C99 6.10.5).
    Error,
    /// An `#if` or `#elif` whose rest is no condition, or one that has no number.
    Condition,
    /// An `#elif`, `#else` or `#endif` without its group, an `#elif` or `#else` behind an `#else`, or a group that the end of its
    /// text leaves open.
    Unbalanced,
    /// A macro that is defined again with other parameters or other tokens.
    Redefined,
    /// Another number of arguments than parameters, of a macro with `...` fewer than the named ones, or no `)` behind them.
    Arguments,
    /// An include that would open a text at depth 17.
    Depth,
    /// More than 4,000,000 replacements and tokens put in.
    Work,
}

impl PreKind {
    /// The words that a report has for it.
    pub fn word(self) -> &'static str
        ensures { result.now ≡ word_of self }
    {
        match self {
            PreKind::Directive => "bad directive",
            PreKind::Error => "error",
            PreKind::Condition => "bad condition",
            PreKind::Unbalanced => "unbalanced",
            PreKind::Redefined => "redefined",
            PreKind::Arguments => "arguments",
            PreKind::Depth => "too deep",
            PreKind::Work => "too much",
        }
    }
}

impl fmt::Display for PreKind {
    ghost output = { λ kind. Some (word_of kind) };

    fn fmt<W: fmt::Write>(&self, f: &mut fmt::Formatter<W>) -> fmt::Result {
        f.write_str(self.word())
    }
}

/// A text that was opened.
#[derive(Debug, Drop)]
pub struct Opened {
    pub name: Items<u8>,
    /// The number of lines of the texts that were opened before. A token's line is this base and its line in the text.
    pub base: Line,
    /// Its bytes as they were read.
    pub text: Items<u8>,
}

/// A line of a text.
#[derive(Debug, Drop)]
pub struct Place {
    pub name: Items<u8>,
    /// Counted from 1.
    pub line: Line,
    /// The whole text, as it was read.
    pub text: Items<u8>,
}

/// The tokens of a text and of the texts that it includes.
#[derive(Debug, Drop)]
pub struct Pre {
    pub tokens: Items<Token>,
    /// The texts, in the order in which they were opened.
    pub texts: Items<Opened>,
    /// How many bytes were read so far, with those that were read before the call.
    pub used: u32,
}

/// The texts that were opened so far, in their order, with the number of their lines. So many bytes were read so far.
#[derive(Debug, Drop)]
pub struct Sources {
    pub texts: Items<Opened>,
    pub lines: Line,
    pub used: u32,
}

impl Sources {
    /// No texts, behind so many bytes that were read.
    pub fn new(alloc: Global, used: u32) -> Sources
        ensures { result ≡ no_sources used }
    {
        Sources {
            texts: Items::new(alloc),
            lines: 0,
            used,
        }
    }
}

/// Why a text gives no tokens.
#[derive(Debug, Drop)]
pub enum PreError {
    /// A line is refused.
    Bad { kind: PreKind, at: Place },
    /// A place in a line is refused by the lexer.
    Lex { kind: LexKind, at: Place },
    /// The text of this name was not read.
    Fault { name: Items<u8> },
    /// The text of this name passes the most bytes of all texts.
    TooLong { name: Items<u8> },
    NoMemory,
}

impl From<NoMemory> for PreError {
    ghost use Rattle.std.specs.Prelude.{◌≡◌};
    ghost use Rattle.c_pre.specs.declared.answer.PreError.TheVariants.{NoMemory};

    ghost from_gives = { λ _ e. e ≡ NoMemory };

    fn from(_: NoMemory) -> PreError {
        PreError::NoMemory
    }
}

/// Why a line is refused, with its number in the text.
#[derive(Clone, Copy, Debug, PartialEq, Eq, Error)]
pub(crate) enum Refusal {
    #[error("line {line}: {kind}")]
    Bad { kind: PreKind, line: Line },
    #[error("line {line}: lex: {kind}")]
    Lex { kind: LexKind, line: Line },
    #[error("no memory")]
    NoMemory,
}

impl Refusal {
    /// The refusal, as one of this line.
    pub(crate) fn on_line(self, line: Line) -> Refusal
        ensures { result ≡ moved_to line self }
    {
        match self {
            Refusal::Bad { kind, .. } => Refusal::Bad { kind, line },
            Refusal::Lex { kind, .. } => Refusal::Lex { kind, line },
            Refusal::NoMemory => Refusal::NoMemory,
        }
    }
}

impl From<NoMemory> for Refusal {
    ghost use Rattle.std.specs.Prelude.{◌≡◌};
    ghost use Rattle.c_pre.specs.declared.answer.Refusal.TheVariants.{NoMemory};

    ghost from_gives = { λ _ e. e ≡ NoMemory };

    fn from(_: NoMemory) -> Refusal {
        Refusal::NoMemory
    }
}

impl<T: Drop> From<AllocFailed<T>> for Refusal {
    ghost use Rattle.std.specs.Prelude.{◌≡◌};
    ghost use Rattle.c_pre.specs.declared.answer.Refusal.TheVariants.{NoMemory};

    ghost from_gives = { λ _ e. e ≡ NoMemory };

    fn from(_: AllocFailed<T>) -> Refusal {
        Refusal::NoMemory
    }
}
