//! Which granules of a row are taken, and the first hole that is large enough.
//!
//! A granule is the smallest amount that is given out, as 16 bytes of a heap. [`Holes`] has a row of them, each taken or
//! free. [`Holes::first`] answers the lowest place at which so many granules in a row are free; [`Holes::take`] and
//! [`Holes::give`] take and give back granules. The rule is first fit at the lowest place, this project's own.
//!
//! Beside the row stands a binary tree. Each of its nodes knows of its part of the row the longest free run, the free run
//! at the front and the one at the end ([`node`]). So a search goes down one path of the tree, and a change of a run
//! counts again only the nodes whose parts it meets ([`tree`]).
//!
//! Contracts speak of a row as the list that says of each granule whether it is taken.
#![tactic(auto)]

mod holes;
mod node;
mod tree;

pub use holes::Holes;
