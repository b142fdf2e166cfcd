//! Registers, statics and functions by their numbers in the core.

ghost use Rattle.std.specs.Prelude.{◌≡◌, ◌+◌, List, IfOk, option_map};
ghost use Rattle.elaboration.specs.Context.{Piece as PlainPiece};
ghost use Rattle.elaboration.specs.Resolving.{register_by, static_by, function_by, atom_by, atoms_by};
ghost use Rattle.elab_core.specs.NumbersBy.{point_at, numbers_by, AreAtoms, IsAtom, register_in};

use core_tree::Atom;
use elab_base::Declared;
use hs_base::{Items, NoMemory};
use std::alloc::Global;

/// How a function's registers and labels, and the statics and functions, are numbered in the core: how many registers are
/// parameters and locals, how many integer temporaries there are, the points of the labels and the point behind the last
/// statement, how many statics are variables, and the functions as they were declared.
#[derive(Clone, Copy)]
pub(crate) struct Numbers<'a> {
    pub(crate) alloc: Global,
    pub(crate) locals: u32,
    pub(crate) integers: u32,
    pub(crate) variables: u32,
    pub(crate) functions: &'a [Declared],
    pub(crate) points: &'a [u32],
    pub(crate) total: u32,
}

/// The sum of two numbers. No memory holds what does not fit.
fn sum(a: u32, b: u32) -> Result<u32, NoMemory>
    ensures { IfOk result (λ r. r ≡ a + b) }
{
    a.checked_add(b).ok_or(NoMemory)
}

/// A static by its number in the walk: variables, then literals.
pub(crate) fn static_number(variables: u32, number: u32) -> Result<u32, NoMemory>
    ensures { IfOk result (λ r. r ≡ static_by variables number) }
{
    if number % 2 == 0 {
        Ok(number / 2)
    } else {
        sum(variables, number / 2)
    }
}

impl Numbers<'_> {
    /// A register: parameters and locals, then integer temporaries, then pointer temporaries.
    pub(crate) fn register(&self, number: u32) -> Result<u32, NoMemory>
        ensures { IfOk result (λ r. r ≡ register_by self.now.locals self.now.integers number) }
    {
        if number % 3 == 0 {
            Ok(number / 3)
        } else if number % 3 == 1 {
            sum(self.locals, number / 3)
        } else {
            sum(sum(self.locals, self.integers)?, number / 3)
        }
    }

    /// A function by the number of its definition.
    pub(crate) fn function(&self, number: u32) -> u32
        ensures { result ≡ function_by self.now.functions.now number }
    {
        match self.functions.get(number as usize) {
            Some(declared) => declared.defined().unwrap_or(0),
            None => 0,
        }
    }

    /// The point of a label.
    pub(crate) fn point(&self, label: u32) -> u32
        ensures { result ≡ point_at self.now.points.now self.now.total label }
    {
        match self.points.get(label as usize) {
            Some(point) => *point,
            None => self.total,
        }
    }

    /// An operand.
    pub(crate) fn atom(&self, atom: Atom) -> Result<Atom, NoMemory>
        ensures { IsAtom self.now atom result }
    {
        match atom {
            Atom::Reg(register) => Ok(Atom::Reg(self.register(register)?)),
            Atom::Int(number) => Ok(Atom::Int(number)),
            Atom::Null => Ok(Atom::Null),
            Atom::Static(number) => Ok(Atom::Static(static_number(self.variables, number)?)),
            Atom::Mem(mem) => Ok(Atom::Mem(mem)),
        }
    }

    /// Operands in turn.
    pub(crate) fn atoms(&self, atoms: Items<Atom>) -> Result<Items<Atom>, NoMemory>
        ensures { AreAtoms self.now atoms result }
    {
        let mut numbered = Items::new(self.alloc);
        for atom in atoms.as_slice() {
            numbered.push(self.atom(*atom)?)?;
        }
        Ok(numbered)
    }

    /// A register, where there is one.
    pub(crate) fn maybe_register(&self, register: Option<u32>) -> Result<Option<u32>, NoMemory>
        ensures { IfOk result (λ r. r ≡ option_map (register_in self.now) register) }
    {
        match register {
            Some(register) => Ok(Some(self.register(register)?)),
            None => Ok(None),
        }
    }
}
