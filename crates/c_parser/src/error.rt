//! Why tokens have no tree.

ghost use Rattle.std.specs.Prelude.{◌≡◌};

use hs_base::{Line, NoMemory};
use thiserror::Error;

/// Why tokens have no tree.
#[derive(Clone, Copy, Debug, PartialEq, Eq, Error)]
pub enum ParseError {
    /// The line of the first token of the first external declaration that has no tree.
    #[error("line {line}: syntax")]
    Syntax { line: Line },
    #[error("no memory")]
    NoMemory,
}

impl From<NoMemory> for ParseError {
    ghost use Rattle.std.specs.Prelude.{◌≡◌};
    ghost use Rattle.c_parser.specs.declared.error.ParseError.TheVariants.{NoMemory};

    ghost from_gives = { λ _ e. e ≡ NoMemory };

    fn from(_: NoMemory) -> ParseError {
        ParseError::NoMemory
    }
}
