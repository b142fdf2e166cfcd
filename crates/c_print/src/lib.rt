//! The formats of `printf`, and what its numbers print (C99 7.19.6.1, narrowed).
//!
//! - [`read_format`] takes the bytes of a format and gives its pieces: plain text, with `%%` as one byte `%`, and
//!   items. An item is `%`, any number of flags `-` and `0`, a width from 1 to 4095, a length `hh`, `h`, `l`, `ll` or
//!   `z`, and a conversion `d`, `i`, `o`, `u`, `x`, `X`, `c` or `s`. It refuses every other form with
//!   [`FormatError::Bad`]. Its contract is `IsFormat`: the pieces spell the bytes, and no other pieces do. The function
//!   `pieces_of` gives them too ([`pieces_of_format`]); what it gives of bytes that are no format means nothing.
//! - [`put_number`] writes an item with its number to a sink. Its contract is `item_bytes`, a function from a piece
//!   and a number to bytes. [`put_repeated`] writes the spaces around a string.
#![tactic(auto)]

mod format;
mod item;
mod laws;
mod length;
mod numeral;
mod piece;
mod plain;
mod print;

pub use format::read_format;
pub use laws::{numeral_of_its_number, one_format, pieces_of_format};
pub use piece::{FormatError, Piece};
pub use print::{put_number, put_repeated};
