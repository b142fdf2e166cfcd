//! Blocks of the heap in byte memory: where they are placed, their headers, and how they are given back.
//!
//! A [`Heap`] is a range of addresses of a memory of bytes ([`byte_memory::FlatBytes`]). [`Heap::place`] places a block by
//! first fit, at the lowest multiple of 16 from the heap's start where it is free: a header of 32 bytes, the object, all
//! of whose bytes are 0, and at least one byte more. [`Heap::release`] gives a block back, and [`Heap::owner`] answers
//! the object whose block holds an address, by one mark: each 16 bytes of the heap have a mark that names the start of
//! their block. All memory is taken by [`Heap::new`].
//!
//! Contracts speak of the blocks that are held as a list in the order of placing, as the definitions of placement in
//! `hs_base` do. `Holds` (`specs/Held.antt`) says that a heap holds exactly these blocks, and every clause stands for
//! each list that it holds. `HasHeaders` says that the bytes have the headers of these blocks. A [`Header`] is read and
//! written as a whole, and its single fields as far as a queue of freed objects needs them; a block's address is that of
//! its header, and its object's address is [`HEADER_SIZE`] more.
//!
//! Several heaps may share one memory, side by side: no call changes bytes outside the heap. What holds of blocks between
//! calls is in [`laws`]: which writes leave all headers, and that blocks of which none is given back stand one behind the
//! other with no gap.
#![tactic(auto)]

mod blocks;
mod headers;
pub mod laws;
mod marks;

pub use blocks::Heap;
pub use headers::{HEADER_SIZE, Header, STATE_LIVE, STATE_QUEUED};
