//! The objects that the object meaning speaks of, in code: a plain program whose contracts are its definitions.
//!
//! [`Objects`] is the list of all objects that were ever made, by birth. Its methods are the operations of
//! `object_meaning/specs`: accesses, copies and sets, strings, new objects, frees and the end of locals, printing, and the
//! first pointer inside objects that holds one. A method answers what the definition says, or [`Refusal::NoMemory`].
//! [`HeldBlocks`] are the blocks of the heap objects that are not dead, and say where a new one is placed.
//! Arithmetic, comparisons and [`put_piece`] work on values alone. [`is_live`] says whether a register is live after a
//! point.
#![tactic(auto)]

mod arithmetic;
mod blocks;
mod bytes;
mod freeing;
mod holding;
mod liveness;
mod making;
mod object;
mod objects;
mod pointers;
mod printing;
mod ranges;
mod refusal;
mod slots;
mod strings;

pub use arithmetic::{bytes_in, compared, number, on_one, on_two, pointer, size_in, truth};
pub use blocks::HeldBlocks;
pub use holding::is_pointer_to;
pub use liveness::is_live;
pub use object::{Object, Place, Sort, Standing};
pub use objects::Objects;
pub use pointers::{difference, pointers_compared, same_pointer};
pub use printing::{Printed, put_piece};
pub use refusal::Refusal;
