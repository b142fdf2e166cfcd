//! Tokens, and why a text has none.

ghost use Rattle.std.specs.Prelude.{◌≡◌, Some};
ghost use Rattle.c_lexer.specs.Words.{word_of};

use hs_base::{Items, Line, NoMemory};
use std::fmt;
use thiserror::Error;

/// What a token is (C99 6.4).
#[derive(Clone, Copy, Debug, PartialEq, Eq)]
pub enum TokenKind {
    /// A keyword of C99 6.4.1, or `__delay_frees`.
    Keyword,
    /// A name (C99 6.4.2).
    Name,
    /// An integer constant (C99 6.4.4.1).
    Int,
    /// A character constant (C99 6.4.4.4).
    Char,
    /// A string literal (C99 6.4.5).
    Str,
    /// A sign, which C99 6.4.6 calls a punctuator.
    Sign,
}

/// A token of a text.
#[derive(Debug, Drop)]
pub struct Token {
    /// The line of its first byte.
    pub line: Line,
    pub kind: TokenKind,
    /// Its spelling.
    pub bytes: Items<u8>,
}

/// What is wrong at a place where no token and no gap begins.
#[derive(Clone, Copy, Debug, PartialEq, Eq)]
pub enum LexKind {
    /// A byte that begins no token and no gap.
    BadByte,
    /// A `/*` that no `*/` follows.
    OpenComment,
    /// A character constant or a string literal that does not have its form.
    Literal,
    /// A digit and what follows it that does not have the form of a number.
    BadNumber,
    /// A number that no type of its list holds (C99 6.4.4.1).
    LiteralTooWide,
    /// A `#` first on its line that begins no accepted `#include`.
    Directive,
}

impl LexKind {
    /// The words that a report has for it.
    pub fn word(self) -> &'static str
        ensures { result.now ≡ word_of self }
    {
        match self {
            LexKind::BadByte => "bad byte",
            LexKind::OpenComment => "open comment",
            LexKind::Literal => "literal",
            LexKind::BadNumber => "bad number",
            LexKind::LiteralTooWide => "literal too wide",
            LexKind::Directive => "directive",
        }
    }
}

impl fmt::Display for LexKind {
    ghost output = { λ kind. Some (word_of kind) };

    fn fmt<W: fmt::Write>(&self, f: &mut fmt::Formatter<W>) -> fmt::Result {
        f.write_str(self.word())
    }
}

/// Why a text gives no tokens.
#[derive(Clone, Copy, Debug, PartialEq, Eq, Error)]
pub enum LexError {
    /// The first bad place of the text: its kind, and the line where the bad piece begins.
    #[error("line {line}: lex: {kind}")]
    Bad { kind: LexKind, line: Line },
    #[error("no memory")]
    NoMemory,
}

impl From<NoMemory> for LexError {
    ghost use Rattle.std.specs.Prelude.{◌≡◌};
    ghost use Rattle.c_lexer.specs.declared.token.LexError.TheVariants.{NoMemory};

    ghost from_gives = { λ _ e. e ≡ NoMemory };

    fn from(_: NoMemory) -> LexError {
        LexError::NoMemory
    }
}
