//! The text of the command `self N`: a C text with N functions, made by the program itself, and the line that says how its
//! run went.
//!
//! [`generate`] makes the text. Each of its functions makes two objects that hold each other, adds a number of its own to its
//! argument by way of them, and frees both inside one `__delay_frees`; main calls all functions in turn and prints the sum.
//! [`put_summary`] writes the line `self N: text B bytes, output C bytes, steps S, status X`. `specs/Text.antt` and
//! `specs/Summary.antt` define both.
#![tactic(auto)]

mod parts;
mod summary;
mod text;

pub use summary::{Summary, put_summary};
pub use text::generate;
