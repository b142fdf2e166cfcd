//! The rules of the forms of expressions, on parts that are elaborated (C99 6.5).
//!
//! Each function checks the types of the parts, adds the code that the definition of elaboration gives for the form, and
//! answers what the whole is; or it refuses at the line of the form. The parts come from the walk over the tree. The code
//! of operators and calls on operands in hand (`pointers`, `integers`, `fixed`, `calls`) refuses nothing: want of memory
//! is its only error.
#![tactic(auto)]

mod assignments;
mod branches;
mod calls;
mod copies;
mod fixed;
mod integers;
mod names;
mod operators;
mod places;
mod pointers;
mod working;

pub use assignments::{changed_by, changing, old_value, record_assigned, scalar_assigned, stepped};
pub use branches::{
    and_ended, and_then, choose_first, chosen, next_label, or_else, or_ended, tested_value,
};
pub use calls::{Argument, Called, call_named};
pub use copies::copied;
pub use names::{address_of, constant_found, literal_found, name_found};
pub use operators::{applied, between, cast_to};
pub use places::{dotted, indexed, pointed};
