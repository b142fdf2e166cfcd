//! Delayed-free scopes: a queue of freed objects, and the check at the end of the outermost scope.
//!
//! Freeing is this language's own (C99 7.20.3.2 leaves a pointer to a freed object indeterminate). While a scope is open
//! ([`Scopes::enter`]), a free queues the object of a heap block ([`Scopes::queue`]), unless the address is the start of
//! none or its object is queued already. The end of an inner scope checks nothing. At the end of the outermost one
//! ([`Scopes::leave`]) the pointers inside the queued objects are taken off the counts of their granules, 16 bytes each.
//! The first queued object to whose block a count is left is then a bad free, at the line of its own free. With none,
//! all queued blocks are given back.
//!
//! The queue lives in the headers of the blocks: a state, the line of the free, and the next queued block. A [`Scopes`]
//! has the first and the last block and how many there are, and takes no memory. `specs/Queue.antt` ties it to the list of
//! the queued objects' addresses (`HasQueue`), and each clause stands for every list of blocks that the heap holds and
//! every queue that the scopes have. `specs/Freed.antt` says what a free answers and which bytes it changes,
//! `specs/Check.antt` what the check answers and leaves.
//!
//! What the check does with one object, [`take_off_object`] and [`is_held`], serves for other objects that end, too. What
//! writes between two calls leave of the queue is in [`laws`].
#![tactic(auto)]

mod checking;
pub mod laws;
mod releasing;
mod scopes;

pub use checking::{is_held, take_off_object};
pub use scopes::Scopes;
