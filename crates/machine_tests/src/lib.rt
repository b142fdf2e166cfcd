//! Tests of what no command shows: the outside in memory and the real one, and code files. They stand apart from the crates that
//! they try, since a crate with tests is proved twice.
#![tactic(auto)]

#[cfg(test)]
mod code_files;
#[cfg(test)]
mod outside;
