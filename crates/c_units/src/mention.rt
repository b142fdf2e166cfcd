//! What units say of the names that they share.

use hs_base::{Items, Line};
use std::marker::Model;

/// What a name is at the file scope of a unit.
#[derive(Clone, Copy, Debug, PartialEq, Eq)]
pub(crate) enum Role {
    /// A typedef name.
    Typedef,
    /// An enumerator, a function with its body, or an object with its initializer.
    Defined,
    /// A function without a body, or an object without an initializer.
    Declared,
    /// A name in an expression that no inner declaration takes.
    Used,
    /// A tag with braces.
    Tagged,
}

/// A name in its role, at a line.
#[derive(Drop)]
pub(crate) struct Mention {
    pub(crate) role: Role,
    pub(crate) name: Items<u8>,
    pub(crate) line: Line,
}

impl Model for Mention {
    ghost use Rattle.c_units.specs.Mentions.{Mention as PlainMention};

    ghost Value = { PlainMention };

    ghost view = { λ m. record { role = m.role; name = m.name; line = m.line } };
}
