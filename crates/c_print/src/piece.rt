//! The pieces of a format.

ghost use Rattle.std.specs.Prelude.{◌≡◌};

use hs_base::{IntKind, Items, NoMemory};
use thiserror::Error;

/// A piece of a format.
#[derive(Debug, Drop)]
pub enum Piece {
    /// Bytes that are printed as they are. They are not empty, and no plain byte follows them in the format.
    Plain(Items<u8>),
    /// What prints an argument.
    Item {
        /// A flag `-` is there: spaces go to the right, and flags `0` change nothing.
        left: bool,
        /// A flag `0` is there.
        zeros: bool,
        /// How many bytes are printed at least, 0 where the format has no width.
        width: u32,
        /// The conversion: `d`, `i`, `o`, `u`, `x`, `X`, `c` or `s`.
        conv: u8,
        /// The kind that the number is converted to when it is printed: `U8` for `c`, and for `s`, which prints none.
        kind: IntKind,
    },
}

/// Why a format has no pieces.
#[derive(Clone, Copy, Debug, PartialEq, Eq, Error)]
pub enum FormatError {
    /// No pieces spell its bytes.
    #[error("not a format")]
    Bad,
    /// Memory was wanted and there was none.
    #[error("no memory")]
    NoMemory,
}

impl From<NoMemory> for FormatError {
    ghost use Rattle.c_print.specs.declared.piece.FormatError.TheVariants as error;

    ghost from_gives = { λ _ e. e ≡ error.NoMemory };

    fn from(_: NoMemory) -> FormatError {
        FormatError::NoMemory
    }
}
