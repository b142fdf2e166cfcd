//! The tokens of a C text (C99 6.4, narrowed to the language of HeapSafe).
//!
//! [`lex`] takes the bytes of a text, fewer than 2 to the 32, and gives its tokens, each with its spelling, its kind and
//! the line of its first byte. White space, comments and the accepted `#include` lines are gaps. A text that has a place
//! where nothing begins that may stand there is refused by [`LexError::Bad`], with the kind and the line of the first
//! such place; want of memory is [`LexError::NoMemory`].
//!
//! The contract of `lex` is the definition `Tokens` of `specs/`: a text is cut into pieces, each the longest at its place
//! (`Pieces`), and its answer is the list of the tokens among them, or the first piece that is refused. Every text has
//! exactly one answer ([`every_text_has_one_answer`]). The forms of the pieces stand in `Names`, `Numbers`, `Literals`,
//! `Signs` and `Gaps`; `IsToken` says that bytes are a token of a kind.
//!
//! [`read_number`] and [`literal_values`] give the values of constants and literals. [`include_end`] says where an accepted
//! `#include` line ends, and [`is_space`] and [`is_name_byte`] what a byte is.
#![tactic(auto)]

mod bytes;
mod gap;
mod laws;
mod lexer;
mod literal;
mod name;
mod number;
mod piece;
mod place;
mod sign;
mod token;
mod words;

pub use bytes::{is_name_byte, is_space};
pub use gap::include_end;
pub use laws::{
    constants_fit, every_text_has_one_answer, literals_are_characters, pieces_are_the_cut,
    tokens_are_longest, written_tokens_are_read_again,
};
pub use lexer::lex;
pub use literal::literal_values;
pub use number::{Base, Number, Suffix, read_number};
pub use token::{LexError, LexKind, Token, TokenKind};
