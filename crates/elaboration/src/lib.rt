//! Elaboration of C: from the tree of a text to its core, or the first refusal of its types (C99 6.5 to 6.9).
//!
//! `specs/Elaboration.antt` defines it: one walk over the tree with a context (`specs/Context.antt`), by cases on the form
//! of a node. The parts of a node are gone through from left to right and the whole after its parts, so the first refusal
//! in this order stands. While a text is walked, labels, registers, statics and functions have numbers of their own; one
//! map at the end gives the numbers of the core (`specs/Resolving.antt`).
//!
//! - `specs/Conversions.antt` reads places and converts values, `specs/Operations.antt` has the operators, and
//!   `specs/Calls.antt` the calls; `specs/Expressions.antt` has the forms of expressions.
//! - `specs/Declarators.antt` has specs, tags and the layers of declarators, `specs/Initializers.antt` initializers, and
//!   `specs/Declarations.antt` local and file-scope names.
//! - `specs/Addressed.antt` says which locals are objects in memory because their address is taken.
//! - `specs/Statements.antt` has the statements, and `specs/Externals.antt` functions and texts.
//!
//! `proofs/Rows.antt` has texts whose core or refusal was worked out by hand. The kinds of refusals are those of `c_decls`.
//! The crate has definitions alone; `core_soundness` has laws of every core that a text has.
#![tactic(auto)]

pub use c_decls::{TypeError, TypeKind};
