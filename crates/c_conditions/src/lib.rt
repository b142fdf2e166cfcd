//! Conditions of the preprocessor (C99 6.10.1).
//!
//! [`condition_holds`] says whether a condition holds, by its tokens as they are once macros are replaced and names have become 0. Its tree
//! is the one that `c_parser` reads, of one constant expression (6.6); `value` of `specs/Values.antt` is its value, by the tables of
//! `specs/Operators.antt`. Numbers have 64 bits, signed or unsigned (`specs/Operands.antt`); a number is missing where evaluation
//! has none, and what C does not evaluate may miss its number.
#![tactic(auto)]

mod condition;
mod number;
mod operand;
mod operators;
mod value;

pub use condition::condition_holds;
