//! The bytes of the error stream: complaints with the source line that they name, leaks, and how a run ended.
//!
//! [`say_refused`] says what a refusal or a failure is, and [`say_ended`] how a program ended; where leaks are told of,
//! [`say_before_leaks`], [`say_leak`] and [`say_behind_leaks`] say the same in parts. Each says it in one of two forms: by lines, as
//! a report with the source line that it names, or in their place by one object of JSON. All write to any sink, take no memory,
//! refuse nothing, and fail only where the sink fails: what it took is then a prefix of what was to be written, and no further call
//! is made. `specs/Notice.antt` says what is said in each form, by `specs/Report.antt` and `specs/Explanation.antt` for lines and
//! by `specs/Json.antt` for the object.
#![tactic(auto)]

mod ends;
mod explanation;
mod facts;
mod form;
mod holders;
mod json;
mod leaks;
mod lines;
mod names;
mod parts;
mod said;
mod words;

pub use explanation::{Freed, InForce, Known};
pub use facts::{Ending, Refused, Spot};
pub use form::Form;
pub use said::{
    ends_are_said_in_parts, say_before_leaks, say_behind_leaks, say_ended, say_leak, say_refused,
};
