//! The text of `heapsafe layout`: a line for each completed struct and union, in the order of completion.
//!
//! [`list_layouts`] writes `struct TAG size S align A slots` or `union ..`, sizes and alignments in bytes, followed by a space
//! and the offset for each pointer in it; a tag without a name is `-`. `specs/Listing.antt` defines the text. The one error is
//! want of memory.
#![tactic(auto)]

mod lines;

pub use lines::list_layouts;
