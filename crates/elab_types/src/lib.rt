//! Specs, tags with braces and declarators outside expressions, as elaboration walks over them (C99 6.7.2, 6.7.5).
//!
//! [`specs`] is the type that specs say, [`layers`] are those of a declarator, from the name towards the specs, and
//! [`constant`] is an expression that must be constant. Each is one word of the definition of elaboration: it changes the
//! scopes and tags, answers what the definition says, or refuses at its line. After an error nothing is said of the state.
#![tactic(auto)]

mod asked;
mod enums;
mod member_table;
mod members;
mod params;
mod walk;

pub use asked::{constant, special_type, typed, wanted};
pub use walk::{layers, specs};
