//! The cases of a switch.

ghost use Rattle.std.specs.Prelude.{◌≡◌, ◌++◌, ◌∷◌, [], IfOk, length, take, drop};
ghost use Rattle.std.specs.List.{list_any};
ghost use Rattle.std.specs.Ordering.{int_eq};
ghost use Rattle.elab_base.specs.Changes.{with_case_at};

use hs_base::NoMemory;
use std::alloc::Global;
use std::collections::HashSet;
use std::marker::Model;

/// The cases of a switch in order, each a value with its label. Their values are a set too, so that a case of a value is
/// found in a time that does not grow with the cases.
#[derive(Drop)]
pub struct CaseList {
    cases: Vec<(i128, u32)>,
    values: HashSet<i128>,
}

impl Model for CaseList {
    ghost use Rattle.std.specs.Prelude.{List, ℤ, ℕ};
    ghost use Rattle.elab_base.specs.Sets.{HasValues};

    ghost Value = { List (ℤ × ℕ) };

    ghost view = { λ s. s.cases.items };

    ghost invariant = { HasValues };
}

impl CaseList {
    /// No cases. It takes no memory.
    pub fn new(alloc: Global) -> CaseList
        ensures { result ≡ [] }
    {
        CaseList {
            cases: Vec::new(alloc),
            values: HashSet::new(alloc),
        }
    }

    /// The cases in order.
    pub fn as_slice(&self) -> &[(i128, u32)]
        ensures { result.now ≡ self.now }
    {
        self.cases.as_slice()
    }

    /// How many cases there are.
    pub fn len(&self) -> usize
        ensures { result ≡ length self.now }
    {
        self.cases.len()
    }

    /// Whether there is a case of that value.
    pub fn contains(&self, value: i128) -> bool
        ensures { result ≡ list_any (λ x. int_eq x.0 value) self.now }
    {
        self.values.contains(&value)
    }

    /// Puts a case at a place, or behind all others where there are fewer. An error leaves the cases as they were, or none.
    pub fn insert(&mut self, place: usize, value: i128, label: u32) -> Result<(), NoMemory>
        ensures { IfOk result (λ _. self.new ≡ with_case_at place value label self.old) }
    {
        let place = place.min(self.cases.len());
        self.cases.insert(place, (value, label))?;
        match self.values.insert(value) {
            Ok(_) => Ok(()),
            Err(_) => {
                self.cases.clear();
                self.values.clear();
                Err(NoMemory)
            }
        }
    }
}
