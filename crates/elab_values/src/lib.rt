//! The walk of elaboration over expressions (C99 6.5).
//!
//! [`found`] adds the code of an expression to the state and answers what it is: a place, or a value where it is none, or
//! its first refusal; [`value_of`] answers its value, and [`unused_of`] evaluates it without wanting one. The parts are
//! gone through from left to right, and the whole after its parts, by the rules of `elab_rules`. Where the code of one
//! part hangs on the type of a part behind it, this type is asked for ahead, from scopes and tags that are only lent.
//!
//! [`opened`] and [`closed`] stand round the code of a full expression, which opens a scope of its own where a call of
//! `realloc` stands in it.
#![tactic(auto)]

mod ahead;
mod calls;
mod full;
mod leaves;
mod reallocating;
mod types;
mod walk;

pub use full::{closed, opened};
pub use walk::{found, unused_of, value_of};
