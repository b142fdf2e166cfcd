//! Tests of the call `heapsafe` where a text, the input or a stream fails, or tells nothing. They stand apart from it, since a
//! crate with tests is proved twice. What programs write where nothing fails is shown by `rows`.
#![tactic(auto)]

#[cfg(test)]
mod answers;
#[cfg(test)]
mod faults;
#[cfg(test)]
mod untold;
