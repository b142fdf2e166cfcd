//! Elaboration of declarations (C99 6.7, 6.9.2), statements (C99 6.8), external declarations and whole texts (C99 6.9): their
//! code and what statics hold before the run, or the first refusal.
//!
//! Each function adds the code that the definition of elaboration gives for a form, or refuses at the line of the form;
//! after an error nothing is said of the state. [`walked`] is what is known behind the external declarations of a text.
//! Between external declarations no function runs, and nothing is kept of the last one but what a core has of it (`Idle`
//! of `elab_base`).
//!
//! An initializer (C99 6.7.8) fills a target, a local or a static (`braces`, `targets`); one that initializes nothing is
//! gone through too (`unwanted`). A declarator whose array has no length takes it from its initializer (`lengths`).
#![tactic(auto)]

mod around;
mod bodies;
mod braces;
mod declared;
mod expressions;
mod files;
mod jumps;
mod lengths;
mod locals;
mod mains;
mod names;
mod parts;
mod starts;
mod statements;
mod strings;
mod switches;
mod targets;
mod texts;
mod unwanted;
mod values;
mod words;

pub use texts::walked;
