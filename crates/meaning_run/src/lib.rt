//! The evaluator of the object meaning.
//!
//! [`mean`] makes the statements of a sound core one after another, over the objects of `meaning_state`. Its contract says
//! what the meaning says (`object_meaning/specs/objects/Meaning.antt`): the bytes written and read, and the end. `machine.rt` has
//! the state, and each other file a family of statements, whose functions have one clause each: what the statement of the
//! definition leads to.
#![tactic(auto)]

mod calls;
mod evaluate;
mod halt;
mod heap;
mod holders;
mod library;
mod machine;
mod memory;
mod printf;
mod scopes;
mod values;

pub use evaluate::mean;
