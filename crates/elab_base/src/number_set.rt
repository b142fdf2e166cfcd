//! Sets of numbers that come as lists.

ghost use Rattle.std.specs.Prelude.{◌≡◌, IfOk, nat_eq};
ghost use Rattle.std.specs.List.{list_any};

use hs_base::NoMemory;
use std::alloc::Global;
use std::collections::HashSet;
use std::marker::Model;

/// Numbers in the order in which they came, and as a set.
#[derive(Drop)]
pub(crate) struct NumberSet {
    list: Vec<u32>,
    set: HashSet<u32>,
}

impl Model for NumberSet {
    ghost use Rattle.std.specs.Prelude.{List, ℕ};
    ghost use Rattle.elab_base.specs.Sets.{HasNumbers};

    ghost Value = { List ℕ };

    ghost view = { λ s. s.list.items };

    ghost invariant = { HasNumbers };
}

impl NumberSet {
    /// These numbers.
    pub(crate) fn new(alloc: Global, list: Vec<u32>) -> Result<NumberSet, NoMemory>
        ensures { IfOk result (λ numbers. numbers ≡ list.items) }
    {
        let mut set = HashSet::new(alloc);
        for number in &list {
            set.insert(*number)?;
        }
        Ok(NumberSet { list, set })
    }

    /// Whether a number is among them. Its time does not grow with the numbers.
    pub(crate) fn contains(&self, number: u32) -> bool
        ensures { result ≡ list_any (λ other. nat_eq other number) self.now }
    {
        self.set.contains(&number)
    }
}
