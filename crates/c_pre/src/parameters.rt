//! The parameters of function-like macros.

ghost use Rattle.std.specs.Prelude.{◌≡◌, [], ◌∷◌, ◌++◌, false, length, OnOk};
ghost use Rattle.c_pre.specs.Directives.{is_among};
ghost use Rattle.c_pre.specs.Expansion.{place_of};
ghost use Rattle.c_pre.specs.Macros.{same_words};

use hs_base::NoMemory;
use indexmap::IndexSet;
use std::alloc::Global;
use std::marker::Model;

/// The parameters of a function-like macro, in order. No two have the same name.
#[derive(Drop)]
pub(crate) struct Parameters {
    names: IndexSet<Vec<u8>>,
}

impl Model for Parameters {
    ghost use Rattle.std.specs.Prelude.{List, ℕ, map};

    ghost Value = { List (List ℕ) };

    ghost view = { λ p. map (λ name. name.items) p.names.keys };
}

impl Parameters {
    /// No parameter.
    pub(crate) fn new(alloc: Global) -> Parameters
        ensures { result ≡ [] }
    {
        Parameters {
            names: IndexSet::new(alloc),
        }
    }

    /// How many there are.
    pub(crate) fn len(&self) -> usize
        ensures { result ≡ length self.now }
    {
        self.names.len()
    }

    /// Whether there is one of this name.
    pub(crate) fn has(&self, name: &[u8]) -> bool
        ensures { result ≡ is_among self.now name.now }
    {
        self.names.contains(name)
    }

    /// The place of a parameter, where there is one of this name.
    pub(crate) fn place(&self, name: &[u8]) -> Option<usize>
        ensures { result ≡ place_of self.now name.now }
    {
        self.names.get_index_of(name)
    }

    /// Adds a parameter behind the others.
    pub(crate) fn add(&mut self, alloc: Global, name: &[u8]) -> Result<(), NoMemory>
        requires { is_among self.old name.now ≡ false }
        ensures { OnOk result (self.new ≡ self.old ++ name.now ∷ []) }
    {
        self.names.insert(Vec::from_slice(alloc, name)?)?;
        Ok(())
    }
}

/// Whether two lists of parameters are the same.
pub(crate) fn same_words(left: &Parameters, right: &Parameters) -> bool
    ensures { result ≡ same_words left.now right.now }
{
    left.names.as_slice() == right.names.as_slice()
}
