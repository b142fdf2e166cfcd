//! One unit from several (C99 5.1.1.1, 6.2.2, 6.9).
//!
//! [`merge`] takes the trees of the texts of one program and gives the tree of a single unit, which means the same. What a unit
//! declares `static` it has for itself: such an object or function gets a suffix, a dot and the number of the unit, wherever
//! the unit's own scopes bind a name to it. A declaration without a body and without an initializer that an earlier unit has in
//! the same words is left out. All else stands in order, and all units share its names. Two units may not both define one of
//! these, nor may one have as a typedef name what another has as another name: that is a conflict
//! ([`MergeError::Conflict`]), and the first is answered.
//!
//! In contracts the merge is `merged` of `specs/Merge.antt`: `Names` says what a name is bound to at a place of a unit,
//! `Externals` goes over its external declarations, and `Mentions` says what two units may not both say of a name.
//!
//! What names are bound to is defined over the tree alone (`Binding`). [`units_keep_their_bindings`] says that a unit keeps its
//! bindings as its names change, and [`merge_keeps_inner_bindings`] that a merge keeps those in inner scopes, whatever other
//! units declare.
#![tactic(auto)]

mod declarations;
mod error;
mod expressions;
mod externals;
mod laws;
mod mention;
mod name_set;
mod names;
mod program;
mod said;
mod statements;
mod statics;
mod taken;
mod walk;

pub use error::MergeError;
pub use laws::{
    merge_keeps_declarations, merge_keeps_file_bindings, merge_keeps_inner_bindings, merges_rename,
    units_keep_their_bindings,
};
pub use program::merge;
