//! Expressions that are elaborated.

ghost use Rattle.std.specs.Prelude.{◌≡◌};
ghost use Rattle.c_decls.specs.Typed.{plain_typed};
ghost use Rattle.elaboration.specs.Conversions.{atom_of, found_as, valued_as};
ghost use Rattle.elab_base.specs.PlainFound.{plain_spot, plain_fixed, plain_found};

use c_decls::Typed;
use core_tree::Atom;

/// Where an expression is.
#[derive(Clone, Copy)]
pub enum Spot {
    /// A local in a register.
    Local(u32),
    /// An object at an address.
    Memory(Atom),
    /// A value.
    Value(Atom),
    /// Nowhere, since it has no value.
    Empty,
}

impl Spot {
    /// The operand that stands for it.
    pub fn atom(self) -> Atom
        ensures { result ≡ atom_of (plain_spot self) }
    {
        match self {
            Spot::Local(register) => Atom::Reg(register),
            Spot::Memory(address) => address,
            Spot::Value(value) => value,
            Spot::Empty => Atom::Null,
        }
    }
}

/// An address that is known before the run (C99 6.6).
#[derive(Clone, Copy)]
pub enum Fixed {
    Unknown,
    /// Null.
    Nowhere,
    /// A static, and an offset in it.
    Inside(u32, i128),
}

/// An elaborated expression: its type and its constant value; where it is; and, where it is a place at a fixed address or
/// a fixed pointer, this address.
#[derive(Drop)]
pub struct Found {
    pub typed: Typed,
    pub spot: Spot,
    pub fixed: Fixed,
}

impl Found {
    /// A value that is not fixed.
    pub fn valued(typed: Typed, value: Atom) -> Found
        ensures { plain_found result ≡ valued_as (plain_typed typed) value }
    {
        Found {
            typed,
            spot: Spot::Value(value),
            fixed: Fixed::Unknown,
        }
    }

    /// The operand that stands for it.
    pub fn atom(&self) -> Atom
        ensures { result ≡ atom_of (plain_spot self.now.spot) }
    {
        self.spot.atom()
    }
}
