//! The objects of a run, kept in flat bytes with addresses.
//!
//! [`FlatObjects`] is one memory of bytes with three ranges side by side: the statics from address 0 on, then the memory
//! locals, then the heap. Each object that is not dead has a block in the range of its sort: a header of 32 bytes, and
//! behind it the object. A pointer is the address of an object's first byte plus an offset, 0 is the null pointer, and a
//! slot holds an address of 4 bytes. What a register of the machine holds is a [`Word`].
//!
//! A run calls this crate for every effect on objects. Each method answers what the definition of that operation over
//! objects by birth answers (`hs_base` and `object_meaning`), and traps for the same cause. No work of an access grows
//! with the program: the object of an address is found by the marks of its range, and its size and the number of its
//! layout stand in its header.
//!
//! `specs/Keeping.antt` says which objects a memory keeps, and at which places; `specs/Standing.antt` which addresses and
//! words stand for which pointers and values. Every clause stands for all places and objects that the memory keeps and
//! for each pointer that the address stands for, which is never one to a dead object. Where an address comes in, some
//! objects are kept and it stands for some pointer (`IsKept`). A write leaves a memory that keeps the definition's objects
//! at the same places, and each address still stands for what it did (`IsChanged`).
//! Contracts name such facts: `specs/Keeping.antt` has what is said of whatever is kept (`ForKept`, `ForPointer`), and
//! `specs/Answering.antt` and `specs/Counting.antt` what a call answers, changes and tracks at an address (`AnswersNumberAt`,
//! `ChangesAt`, `TracksAt`).
//!
//! A memory also tracks what may be freed (`specs/Counting.antt`): each 16 bytes have a count of the pointers that lead into
//! them, of those inside objects and of those that the caller pins, and the scopes that are open have a queue of freed
//! objects. Every call that changes objects keeps this (`Tracks`). `specs/Freeing.antt` says what a free and the end of a
//! scope answer and leave, `specs/Holders.antt` which pointer inside an object is the first that holds another,
//! `specs/Tries.antt` what a try of a free tells, `specs/Ending.antt` what the end of the memory locals of a call answers and
//! leaves, `specs/Leaks.antt` which objects of the heap are left, by their lines of birth, and `specs/Waiting.antt` which wait. Copies and sets of ranges of
//! bytes (`specs/Ranges.antt`) go through `typed_copies`, where the counts follow the pointers.
#![tactic(auto)]

mod access;
mod arithmetic;
mod counting;
mod ending;
mod finding;
mod forms;
mod frees;
mod holders;
mod leaks;
mod marking;
mod memory;
mod new_objects;
mod ranges;
mod statics;
mod strings;
mod tries;
mod waiting;
mod words;

pub use holders::{Holding, Storage};
pub use memory::FlatObjects;
pub use waiting::Waiting;
pub use words::Word;
