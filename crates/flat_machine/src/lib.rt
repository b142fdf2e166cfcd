//! The machine that runs flat code over flat bytes.
//!
//! [`Machine::run`] makes the instructions of a code one after another, over objects that are kept in bytes with addresses
//! (`flat_objects`), on a stack and with a heap of so many bytes. Its contract says what the meaning of code says
//! (`object_meaning/specs/code/CodeMeaning.antt`) in a heap of that size, cut at the first call that does not fit the stack
//! (`hs_base/specs/Cut.antt`): the bytes written and read, and the end.
//!
//! [`Machine::load`] makes one before its first instruction: with the statics of the code in its memory, and with all memory that
//! the run takes. Behind a run its image agrees with the last state of the meaning (`specs/Image.antt`, `specs/Lasting.antt`).
//!
//! A word is a number or an address. `specs/Standing.antt` says which state of the meaning the machine stands for: its words
//! stand for the values of that state, one by one, and its memory keeps the objects. Each instruction is proved over all
//! states that the machine stands for, and leads to a machine that stands for the state behind it. No instruction takes
//! memory of the host, and none searches but one that makes an object, for its place in the heap.
//!
//! Contracts name such facts: what single instructions lead to in `specs/Instructions.antt`, what they write and read in
//! `specs/Telling.antt`, and what the calls of a state do with its memory in `specs/StateMemory.antt`.
//!
//! What is written waits (`console.rt`) until the source has no byte at hand or the run ends. Where the output then fails, the input is
//! moved to the place of the byte that failed, so that both stand at one front of the trace.
#![tactic(auto)]

mod accessing;
mod arithmetic;
mod call;
mod calling;
mod calls;
mod console;
mod fault;
mod freeing;
mod gathering;
mod going;
mod growing;
mod handing;
mod holding;
mod jumps;
mod linking;
mod load;
mod loaded;
mod locals;
mod log;
mod machine;
mod making;
mod memory;
mod memory_operations;
mod note;
mod operands;
mod operating;
mod operation;
mod output;
mod packed;
mod page;
mod pinning;
mod pointers;
mod printing;
mod put_error;
mod ranges;
mod running;
mod sites;
mod state;
mod statics;
mod steps;
mod strings;
mod value_operations;
mod words;

pub use machine::Machine;
