//! The words of the command line: `run FILE.. [--heap N] [--stack N] [--steps N] [--leaks]`, `exec FILE` with the same options,
//! `mean FILE.. [--heap N] [--steps N]`, `print FILE`, `layout FILE..`, `list FILE..`, `live FILE..`, `compile FILE..` and
//! `self N`.
//!
//! [`read`] gives what the words ask for. They are read by `clap` for the one set of commands that
//! `specs/CommandSet.antt` has; then the values have rules of their own (`specs/Commands.antt`): there are at most 64 files, and
//! one for `print`; a file's name is not empty and does not begin with a dash; and a number is 1 to 18 decimal digits and within
//! its limits.
#![tactic(auto)]

mod command;
mod error;
mod set;
mod values;

pub use command::{Command, Task, read};
pub use error::WordsError;
