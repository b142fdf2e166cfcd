//! Which registers of a function are live after each of its points.
//!
//! [`live_at`] makes a [`LiveTable`] of a function. [`none_live`] and [`LiveTable::step_back`] give from it, from the last
//! point to the first, the [`RegisterSet`] of each point: exactly the registers that are live by `IsLive` in
//! `core_tree/specs/Lives.antt`, which speaks of paths (`HasLive` in `specs/Tables.antt`). A set is read register by register, or, with
//! another, by the runs of neighbours that both have ([`RegisterSet::next_common_run`]).
//!
//! The table has a set for each point to which some statement jumps: what is live in front of it. What is live elsewhere follows
//! from the next point and these sets. All are empty first, and a sweep adds to each, from the last point to the first, what
//! is live in front of it as far as is known. The bits that are set are live ones at all times, and one sweep more than there are
//! points sets all of them; where one sets none, none is left.
#![tactic(auto)]

mod register_set;
mod runs;
mod sweeps;
mod table;

pub use register_set::RegisterSet;
pub use runs::Run;
pub use table::{LiveTable, live_at, none_live};
