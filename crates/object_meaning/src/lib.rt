//! The meanings: what a core does and what flat code does, over named objects (C99 5.1.2.3, for the C profile), and which
//! code is that of a core. The crate has definitions alone; their laws are in `meaning_laws`.
//!
//! - `specs/objects` is the object meaning of a core. `Meaning.antt` says what each statement does to a state (`act`), and
//!   what a run is: a trace of events, an end and a last state (`meaning`). The other modules have what the statements do:
//!   integers and pointers, reading and writing objects, new objects, scopes and the check at their end, calls and the end
//!   of memory locals, built-in functions and printf. Whether an object may be freed is decided by its holders
//!   (`Holding.antt`): all pointers are read anew at each check. There are no addresses, no counts, and no limit of stack; of
//!   the heap it knows which sizes have a place, by first fit over its own trace (`has_place` of `hs_base`).
//! - `specs/counted` is the same meaning with a number for each object beside the state: how many pointers to it are in the
//!   slots of objects that are not dead, and in the pinned registers of frames that wait. `CountedMeaning.antt` has one rule
//!   for each statement word, over the functions of the object meaning: it says how the numbers change, and the check at the
//!   end of the outermost scope and the end of memory locals ask the numbers alone. Which registers are pinned is given by a
//!   table of [`Pin`]s; `Pinning.antt` says when it is exact.
//! - `specs/code` is the meaning of flat code. `CodeMeaning.antt` says what each instruction does to a state (`act`), and
//!   what a run is (`meaning`). Objects, arithmetic, accesses, copies, strings and printing are those of the object meaning;
//!   the points of a state are instructions here. Beside the state there is what was handed over and not yet taken, and the
//!   number of each object (`counted/Counting.antt`), which decides whether it may be freed.
//! - `specs/compiled` says which code is that of a core with its pins, statement by statement (`Compiled.antt`). Each operand
//!   of a statement is handed over by an instruction of its own, and behind them stands the one that does what the statement
//!   does. Statements stand in their order, and functions in theirs, behind the first instruction, which calls main.
#![tactic(auto)]

mod pins;

pub use core_tree::Core;
pub use flat_code::{Code, Instr, Op};
pub use pins::Pin;
