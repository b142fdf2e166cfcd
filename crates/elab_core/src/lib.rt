//! The core of a text whose walk is finished: labels become points, and registers, statics and functions get their places
//! in its lists.
//!
//! [`core_of`] takes what the walk kept and gives the core of the definition, with the tags. Want of memory is the only
//! error.
#![tactic(auto)]

mod names;
mod numbers;
mod points;
mod program;
mod statements;
mod statics;

pub use program::core_of;
