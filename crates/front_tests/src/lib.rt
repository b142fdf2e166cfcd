//! Tests of what no command shows: the tokens of preprocessed texts, merged units, the listing of each statement, and the
//! generated text.
//! They stand apart from the crates that they try, since a crate with tests is proved twice.
#![tactic(auto)]

#[cfg(test)]
mod listing;
#[cfg(test)]
mod merged;
#[cfg(test)]
mod preprocessed;
#[cfg(test)]
mod replaced;
#[cfg(test)]
mod text_of_self;
