//! Which parameters and locals of a function are taken the address of, by `&` before their name, also inside `sizeof`.
//!
//! [`addressed_in`] walks over a definition before its code is made. What is known on the way is a [`Taken`]: the names at
//! a place, and the numbers of those whose address was taken so far.
#![tactic(auto)]

mod bodies;
mod expressions;
mod taken;

pub use bodies::addressed_in;
