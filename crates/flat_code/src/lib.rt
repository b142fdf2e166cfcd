//! Flat code: what a core becomes before the machine runs it.
//!
//! A [`Code`] is one list of instructions for all functions, with the tables that they name: entries of functions, statics,
//! layouts, formats, sites of freeing, and a line for each instruction. An [`Instr`] has an [`Op`] and the numbers that
//! belong to it. Operands are handed over one by one, each by an instruction of its own that stands directly before the
//! instruction that takes them; so each instruction has one effect, and no operand is decoded twice.
//!
//! `specs/Table.antt` is the table of the operations: what each takes and gives, and where the run goes on behind it.
//! `specs/WellFormed.antt` says which code is well formed. What an instruction does is said by the meaning of code, in
//! `object_meaning`.
#![tactic(auto)]

mod instructions;
mod program;
mod registers;

pub use instructions::{Instr, Op};
pub use program::{Code, Entry, Site, StaticInit};
pub use registers::{RegisterIter, Registers};
