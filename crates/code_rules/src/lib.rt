//! Whether flat code is well formed.
//!
//! [`is_well_formed`] decides it for any code. Each rule of `flat_code/specs/WellFormed.antt` is decided by a function of its
//! own: the rules of tables, of functions, and of each instruction. Two of them speak of paths over the edges of code: which
//! registers are live at a site, and how many scopes are open. For these, what is known of each instruction grows until
//! nothing is added.
#![tactic(auto)]

mod answers;
mod flow;
mod functions;
mod instrs;
mod live;
mod operands;
mod pins;
mod rules;
mod scopes;
mod tables;
mod whole;

pub use whole::is_well_formed;
