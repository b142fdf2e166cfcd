//! The pins of a core: which registers count at the points where an object may be freed.
//!
//! [`insert`] takes a core and the live registers of its functions ([`live_tables`]), and gives a copy of the core with the pins
//! of each function. [`FuncPins`] keeps the registers of each point that has any; contracts see a list with one `Pin` (of
//! `object_meaning`) for each register that counts at a point. The pins are exact (`AreExact` in
//! `object_meaning/specs/counted/Pinning.antt`): at a call, at the end of a scope and where an object is freed or grown they are
//! the pointer registers that are live behind it, without the one that takes the answer of the call, and no other point has any.
//! With such pins counts are holders (`meaning_laws`).
#![tactic(auto)]

mod copies;
mod laws;
mod listed;
mod pinning;

pub use laws::listed_pins_are_exact;
pub use listed::{FuncPins, PinsLeft};
pub use pinning::{Counted, insert, live_tables};
