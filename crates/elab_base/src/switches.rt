//! The running function, and the cases of its running switch (C99 6.8.4.2).

ghost use Rattle.std.specs.Prelude.{◌≡◌, ◌++◌, Some, None, [], IfOk, length, is_some};
ghost use Rattle.elaboration.specs.Context.{with_pieces};
ghost use Rattle.elaboration.specs.Statements.{has_case, with_case, no_cases};
ghost use Rattle.elab_base.specs.Changes.{with_cases, with_default};

use crate::cases::CaseList;
use crate::elaborator::Elaborator;
use crate::pieces::Pieces;
use crate::running::{Cases, Running};
use hs_base::NoMemory;

impl Elaborator {
    /// The running function.
    pub fn running(&self) -> &Running
        ensures { result.now ≡ self.now.running }
    {
        &self.running
    }

    /// How many cases the running switch has so far.
    pub fn case_count(&self) -> usize
        ensures { result ≡ length self.now.running.cases }
    {
        self.running.case_count()
    }

    /// Whether the running switch has a case of this value.
    pub fn has_case(&self, value: i128) -> bool
        ensures { result ≡ has_case value self.now }
    {
        self.running.has_case(value)
    }

    /// Puts a case at a place among those of the running switch.
    pub fn add_case(&mut self, place: usize, value: i128, label: u32) -> Result<(), NoMemory>
        ensures { IfOk result (λ _. self.new ≡ with_case place value label self.old) }
    {
        self.running.add_case(place, value, label)
    }

    /// Whether the running switch has a default.
    pub fn has_default(&self) -> bool
        ensures { result ≡ is_some self.now.running.otherwise }
    {
        self.running.has_default()
    }

    /// The default of the running switch.
    pub fn set_default(&mut self, label: u32)
        ensures { self.new ≡ with_default label self.old }
    {
        self.running.set_default(label);
    }

    /// A switch begins, which has no cases yet: the cases of the one around it.
    pub fn begin_cases(&mut self) -> Cases
        ensures cases { result.cases ≡ self.old.running.cases }
        ensures otherwise { result.otherwise ≡ self.old.running.otherwise }
        ensures with { self.new ≡ no_cases self.old }
    {
        let none = CaseList::new(self.alloc);
        self.running.swap_cases(Cases {
            cases: none,
            otherwise: None,
        })
    }

    /// Puts other cases in place of those of the running switch, which it gives.
    pub fn swap_cases(&mut self, cases: Cases) -> Cases
        ensures cases { result.cases ≡ self.old.running.cases }
        ensures otherwise { result.otherwise ≡ self.old.running.otherwise }
        ensures with { self.new ≡ with_cases cases.cases cases.otherwise self.old }
    {
        self.running.swap_cases(cases)
    }

    /// Adds pieces of code that were made apart.
    pub fn append(&mut self, more: Pieces) -> Result<(), NoMemory>
        ensures { IfOk result (λ _. self.new ≡ with_pieces (self.old.code.pieces ++ more) self.old) }
    {
        self.code.append(more)
    }
}
