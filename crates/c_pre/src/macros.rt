//! The macros that are defined at a line (C99 6.10.3).

ghost use Rattle.std.specs.Prelude.{◌≡◌, [], IsTrue, OnOk, option_copied};
ghost use Rattle.c_pre.specs.Macros.{same_spellings, same_parameters, same_macro, no_macros, found, defined, with_macro, undefined};
ghost use Rattle.c_pre.specs.After.{at_line};
ghost use Rattle.c_pre.specs.Answering.{Leaves};

use crate::answer::{PreKind, Refusal};
use crate::parameters::{Parameters, same_words};
use c_lexer::Token;
use hs_base::{Items, Line, NoMemory};
use indexmap::IndexMap;
use std::alloc::Global;
use std::marker::Model;

/// A macro.
#[derive(Drop)]
pub(crate) struct Macro {
    pub(crate) name: Items<u8>,
    /// The parameters of a function-like macro.
    pub(crate) parameters: Option<Parameters>,
    /// Whether the last of them stands for `...` (C99 6.10.3): its argument keeps its commas.
    pub(crate) variadic: bool,
    /// What stands in its place.
    pub(crate) replacement: Items<Token>,
}

/// A macro that is defined.
#[derive(Drop)]
pub(crate) struct Defined {
    /// How many were defined before.
    pub(crate) number: u32,
    pub(crate) it: Macro,
}

/// Whether two lists of tokens have the same spellings.
fn same_spellings(left: &[Token], right: &[Token]) -> bool
    ensures { result ≡ same_spellings left.now right.now }
{
    if left.len() != right.len() {
        return false;
    }
    for at in 0..left.len() {
        if left[at].bytes.as_slice() != right[at].bytes.as_slice() {
            return false;
        }
    }
    true
}

/// Whether two macros have the same parameters, or both have none and take no arguments.
fn same_parameters(left: &Option<Parameters>, right: &Option<Parameters>) -> bool
    ensures { result ≡ same_parameters left.now right.now }
{
    match left {
        None => right.is_none(),
        Some(left) => match right {
            None => false,
            Some(right) => same_words(left, right),
        },
    }
}

/// Whether two macros have the same parameters, both or neither of them with `...`, and the same tokens (C99 6.10.3).
fn same_macro(left: &Macro, right: &Macro) -> bool
    ensures { result ≡ same_macro left.now right.now }
{
    same_parameters(&left.parameters, &right.parameters)
        && left.variadic == right.variadic
        && same_spellings(left.replacement.as_slice(), right.replacement.as_slice())
}

/// Macros by their names.
#[derive(Drop)]
pub(crate) struct Macros {
    /// How many were defined.
    count: u32,
    names: IndexMap<Vec<u8>, Option<Defined>>,
}

impl Model for Macros {
    ghost use Rattle.c_pre.specs.Table.{Table};

    ghost Value = { Table };

    ghost use Rattle.c_pre.specs.Held.{table_of};

    ghost view = { table_of };
}

impl Macros {
    /// No macro.
    pub(crate) fn new(alloc: Global) -> Macros
        ensures { result ≡ no_macros }
    {
        Macros {
            count: 0,
            names: IndexMap::new(alloc),
        }
    }

    /// Whether there is none, and none was.
    pub(crate) fn is_empty(&self) -> bool
        ensures { IsTrue result → self.now.names ≡ [] }
    {
        self.names.is_empty()
    }

    /// The macro of a name.
    pub(crate) fn find(&self, name: &[u8]) -> Option<&Defined>
        ensures { option_copied result ≡ found name.now self.now }
    {
        match self.names.get(name) {
            Some(held) => held.as_ref(),
            None => None,
        }
    }

    /// Adds a macro to a name that has none.
    fn add(&mut self, alloc: Global, it: Macro) -> Result<(), NoMemory>
        ensures { OnOk result (self.new ≡ with_macro it self.old) }
    {
        let Some(count) = self.count.checked_add(1) else {
            return Err(NoMemory);
        };
        let name = Vec::from_slice(alloc, it.name.as_slice())?;
        let number = self.count;
        self.names.insert(name, Some(Defined { number, it }))?;
        self.count = count;
        Ok(())
    }

    /// Defines a macro.
    pub(crate) fn define(&mut self, alloc: Global, line: Line, it: Macro) -> Result<(), Refusal>
        ensures { Leaves (at_line line (defined it self.old)) self.new result }
    {
        match self.find(it.name.as_slice()) {
            Some(before) if same_macro(&before.it, &it) => Ok(()),
            Some(_) => Err(Refusal::Bad {
                kind: PreKind::Redefined,
                line,
            }),
            None => {
                self.add(alloc, it)?;
                Ok(())
            }
        }
    }

    /// Takes the macro of a name away.
    pub(crate) fn undefine(&mut self, alloc: Global, name: &[u8]) -> Result<(), NoMemory>
        ensures { OnOk result (self.new ≡ undefined name.now self.old) }
    {
        self.names.insert(Vec::from_slice(alloc, name)?, None)?;
        Ok(())
    }
}
