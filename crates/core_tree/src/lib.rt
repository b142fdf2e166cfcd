//! The core language: what a C text becomes before it runs.
//!
//! A [`Core`] has the statics and the functions of a program. A function's body is a list of statements ([`StmKind`]), and
//! a point is an index into it. A statement works on [`Atom`]s: registers and memory locals, which are numbered within
//! their function, statics, integers and null. Only [`StmKind::Loop`] goes back to an earlier point.
//!
//! A point, a register, a memory local, a static and a function are each a `u32` that counts from 0 in its list.
//! `specs/Statements.antt` says what a statement writes, reads and leads to, and `specs/Lives.antt` which registers are
//! live after a point. [`list`] gives the text of `specs/Listing.antt`.
#![tactic(auto)]

mod flow;
mod laws;
mod listing;
mod program;
mod statements;
mod text;
mod words;

pub use flow::Edges;
pub use laws::{layouts_of_types, live_by_paths};
pub use listing::list;
pub use program::{Core, Func, Mem, Reg, Start, Static};
pub use statements::{Atom, BinOp, CmpOp, LibName, Stm, StmKind, UnOp};
