//! Code files: code in bytes, with the names that a report of its run shows.
//!
//! A [`CodeFile`] has a [`flat_code::Code`], and the names of its statics, functions, registers and memory locals in a core
//! whose bodies are empty ([`names_of`]). [`write_code`] gives the bytes of a file, and [`read_code`] the file of bytes.
//! `specs/CodeFile.antt` is the form of the bytes.
#![tactic(auto)]

mod bare;
mod code;
mod file;
mod names;
mod ops;
mod part;
mod reader;
mod shortness;
mod verifier;
mod whole;

pub use bare::names_of;
pub use file::{CodeError, CodeFile};
pub use shortness::has_short_lists;
pub use verifier::verify;
pub use whole::{read_code, write_code};
