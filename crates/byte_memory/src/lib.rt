//! The memory that a run reads and writes, and the count of what it does there.
//!
//! [`FlatBytes`] is memory as a list of bytes. Each read and each write is one step of a count, [`Steps`], which takes no
//! room and no time. Only who has a [`CountRight`] begins a count, and it takes an allocator to have one.
//!
//! The memory of a run is taken at once, but touched only as far as bytes were written; [`reach`] serves other lists in the
//! same way.
#![tactic(auto)]

mod flat_bytes;
mod steps;
mod taken;

pub use flat_bytes::FlatBytes;
pub use steps::{CountRight, Steps};
pub use taken::reach;
