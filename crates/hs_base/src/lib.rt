//! What every other crate of HeapSafe stands on.
//!
//! - [`Items`] is the list of public types: contracts see it as a list.
//! - [`Texts`], [`Source`] and [`Sink`] are the outside of a run: where C texts and input come from, and where
//!   output goes to. Each keeps a count of its faults. There are three families of implementations: in memory with
//!   planned failures ([`MemTexts`], [`MemSource`], [`MemSink`]), in memory without any ([`SureTexts`],
//!   [`SureSource`], [`SureSink`]), and the real files and streams ([`FileTexts`], [`StdSource`], [`StdSink`]).
//!   [`put_all`] writes a whole slice to a sink, and [`read_all`] reads a whole text.
//! - [`End`] says how a run ends, with [`TrapKind`], [`BadFree`], [`Holder`] and the rest of its parts.
//! - [`IntKind`] is a kind of integer, with its range and its arithmetic.
//!
//! `specs/` has the definitions that several crates speak of: objects, states, access, freeing, placement, cost,
//! events, ends, and how a finished trace is cut by the size of the stack.
#![tactic(auto)]

mod ends;
mod items;
mod memory;
mod numbers;
mod output;
mod outside;
mod plan;
mod reading;
mod real;
mod sure;
mod values;

pub use ends::{BadFree, End, Holder, IntKind, Leak, Limits, Line, Reason, TrapKind};
pub use items::{Items, NoMemory};
pub use memory::{MemSink, MemSource, MemTexts};
pub use output::put_all;
pub use outside::{Failed, Sink, Source, Texts};
pub use reading::{ReadError, read_all};
pub use real::{FileTexts, StdSink, StdSource};
pub use sure::{SureSink, SureSource, SureTexts};
pub use values::{Pointer, Value};
