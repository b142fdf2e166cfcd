//! C types: what a type is in memory.
//!
//! A [`CType`] is a type of the C profile (C99 6.2.5). Structs and unions are named by a number, their tag; [`Tags`] keeps
//! for each tag what it was made with and, from its completion on, its members. Sizes, alignments, the offsets of members
//! and the offsets of all pointers inside a type, its slots, are those of `specs/Layouts.antt` (C99 6.7.2.1, for a machine
//! whose pointers have 4 bytes and whose `long long` is aligned to 8): the layout of a type by recursion on the type, over
//! the tags that were completed before it. `specs/TagTable.antt` says what the tags are, and when one is completed.
//!
//! - [`Tags::complete`] refuses a union in which a slot of one member is other bytes of another one, and a struct of
//!   more than [`MAX_SIZE`] bytes. After a refusal the tags are as before.
//! - [`size_of`], [`align_of`] and [`members`] answer `None` for what is incomplete. They take no memory, and time in the
//!   depth of a type. [`member_named`] finds a member by its name, in a time that does not grow with the members.
//! - [`layout`] lists the slots, ascending: it takes memory for each of them. Completing a struct lists none; completing a
//!   union lists those of two members at a time.
//!
//! Contracts see a type as a `PlainType` (`specs/Types.antt`), since the shared references inside a `CType` have addresses.
#![tactic(auto)]

mod bodies;
mod laws;
mod layouts;
mod listing;
mod member_list;
mod sizes;
mod slots;
mod tags;
mod types;
mod unions;

pub use bodies::{Member, member_named, members};
pub use laws::layouts_are_sound;
pub use layouts::{Layout, MAX_SIZE};
pub use sizes::{align_of, size_of};
pub use slots::layout;
pub use tags::{TagError, TagInfo, Tags};
pub use types::{CType, IntType, Signature, TagId, same_type};
