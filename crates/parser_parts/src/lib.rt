//! What the readers of `c_parser` are made of: tokens from left to right, and trees with how deep they are.
//!
//! A [`Reader`] stands at a token, with the names that are declared in front of it, of which it tells in near constant time
//! whether one is a type; contracts see it as the `State` of `grammar_reading`. `kind`, `operators` and `tally` decide what a
//! token, a sign and the words of specs are. The types of `deep` are trees of `c_tree` with their depths, so that no depth is
//! counted twice; `nodes`, `lists`, `layers` and `words` make them.
//!
//! `Reads` (`specs/Gives.antt`) says that a reader in code gives what a reader of `grammar_reading` reads; of want of memory
//! nothing is said.
#![tactic(auto)]

mod declared;
mod deep;
mod error;
mod kind;
mod known;
mod layers;
mod lists;
mod nodes;
mod operators;
mod reader;
mod tally;
mod words;

pub use deep::{
    DeepBase, DeepDeclarator, DeepDeclarators, DeepEnumerator, DeepEnumerators, DeepExpr,
    DeepExprs, DeepMaybeExpr, DeepMember, DeepMembers, DeepParam, DeepParams, DeepSpecs,
    DeepSuffix, DeepSuffixes, DeepTag, DeepTypename, DeepWords,
};
pub use error::ReadError;
pub use kind::is_mark;
pub use operators::{
    Postfix, Prefix, assign, assign_sign, before_operand, behind_operand, binary, binary_sign,
    operand_level, unary_sign,
};
pub use reader::{Outer, Params, Reader};
pub use tally::{Tally, has_type_word, may_stand, with_keyword, with_whole};
