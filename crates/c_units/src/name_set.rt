//! Names without repeats, of which it is known in near constant time whether they have one.

ghost use Rattle.std.specs.Prelude.{◌≡◌, [], OnOk};
ghost use Rattle.c_units.specs.Mentions.{all_noted, is_among, noted};

use hs_base::{Items, NoMemory};
use indexmap::IndexSet;
use std::alloc::Global;
use std::marker::Model;

/// Names without repeats, in the order in which they were noted.
#[derive(Drop)]
pub(crate) struct NameSet {
    names: IndexSet<Vec<u8>>,
}

impl Model for NameSet {
    ghost use Rattle.std.specs.Prelude.{List, ℕ};
    ghost use Rattle.c_units.specs.Sets.{texts_of};

    ghost Value = { List (List ℕ) };

    ghost view = { λ s. texts_of s.names.keys };
}

impl NameSet {
    /// No names.
    pub(crate) fn new(alloc: Global) -> NameSet
        ensures { result ≡ [] }
    {
        NameSet {
            names: IndexSet::new(alloc),
        }
    }

    /// Whether a name is among them.
    pub(crate) fn contains(&self, name: &[u8]) -> bool
        ensures { result ≡ is_among self.now name.now }
    {
        self.names.contains(name)
    }

    /// Notes a name.
    pub(crate) fn note(&mut self, alloc: Global, name: &[u8]) -> Result<(), NoMemory>
        ensures { OnOk result (self.new ≡ noted self.old name.now) }
    {
        self.names.insert(Vec::from_slice(alloc, name)?)?;
        Ok(())
    }

    /// Notes some names.
    #[tactic(auto, using(crate::proofs::StaticNames::name_next, crate::proofs::StaticNames::name_end))]
    pub(crate) fn note_all(&mut self, alloc: Global, names: &[Items<u8>]) -> Result<(), NoMemory>
        ensures { OnOk result (self.new ≡ all_noted self.old names.now) }
    {
        for name in names {
            self.note(alloc, name.as_slice())?;
        }
        Ok(())
    }
}
