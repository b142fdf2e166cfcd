//! The preprocessor (C99 6.10, narrowed).
//!
//! [`pre`] takes texts by name and the name of the first, and gives the tokens of that text and of all that it includes, with
//! its directives obeyed and its macros replaced. It also gives the texts that were opened, each with the number of lines
//! of those before it, and the number of bytes read: a token's line is counted over all of them. It refuses the first line
//! that has no form or breaks a rule ([`PreError::Bad`] with its [`PreKind`]) or that the lexer refuses
//! ([`PreError::Lex`]), each with its place; a text that cannot be read ([`PreError::Fault`]) or passes the most bytes of
//! all texts ([`PreError::TooLong`]); and it answers [`PreError::NoMemory`] for want of memory. [`pre_behind`] does the same
//! behind other texts, whose lines and bytes are counted first.
//!
//! The contract of `pre` is the definition `preprocessed` of `specs/Texts`. A text is read whole and its comments become
//! spaces (`Comments`); its lines are taken one after another (`Lines`, `Reading`), by what a directive says (`Directives`),
//! the groups that are open (`Groups`), the conditions that they ask (`Conditions`) and the macros that are defined (`Macros`). The text lines between two directives
//! are one run: the lexer reads it, and its macros are replaced (`Expansion`). At last `const` takes the place of each word
//! without effect (`Qualifiers`).
#![tactic(auto)]

mod answer;
mod calls;
mod comments;
mod conditions;
mod copies;
mod directive;
mod groups;
mod here;
mod hidden;
mod laws;
mod lines;
mod macros;
mod marked;
mod memo;
mod parameters;
mod preprocessor;
mod progress;
mod qualifiers;
mod queue;
mod rest;
mod row;
mod scan;
mod splices;
mod stack;
mod substitute;
mod text_name;

pub use answer::{Opened, Place, Pre, PreError, PreKind, Sources};
pub use laws::replacement_ends;
pub use preprocessor::{pre, pre_behind};
