//! The text of `heapsafe live`: which registers are live after each point of each function.
//!
//! [`list_live`] writes `func NAME` for each function, and below it for each point `POINT:`, followed by a space and `rK` for
//! each register of the function that is live after the point, in ascending order. `specs/Listing.antt` defines the text. The
//! one error is want of memory.
#![tactic(auto)]

mod lines;

pub use lines::list_live;
