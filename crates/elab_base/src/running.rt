//! The running function.

ghost use Rattle.std.specs.Prelude.{◌≡◌, ◌++◌, ◌∷◌, ◌+◌, [], None, Some, IfOk, length, take, drop, nat_eq, is_some, OnOk};
ghost use Rattle.std.specs.List.{list_any};
ghost use Rattle.std.specs.Ordering.{int_eq};
ghost use Rattle.c_types.specs.Types.{plain};
ghost use Rattle.elaboration.specs.Context.{Running as PlainRunning, running_at};
ghost use Rattle.elab_base.specs.Changes.{with_case_in};

use crate::cases::CaseList;
use crate::number_set::NumberSet;
use crate::numbers::fit;
use c_types::CType;
use core_tree::{Mem, Reg};
use hs_base::{Items, Line, NoMemory};
use std::alloc::Global;
use std::marker::Model;

/// The running function: its line; the type that it answers; which of its parameters and locals are taken the address of,
/// and how many are declared so far; its registers without temporaries; its memory locals; the formats of its calls of
/// `printf`; and the cases of the running switch, each with its label, and its default.
#[derive(Drop)]
pub struct Running {
    line: Line,
    answer: CType,
    addressed: NumberSet,
    declared: u32,
    locals: Vec<Reg>,
    mems: Vec<Mem>,
    formats: Vec<Items<u8>>,
    cases: CaseList,
    otherwise: Option<u32>,
}

impl Model for Running {
    ghost use Rattle.c_types.specs.Types.{plain};
    ghost use Rattle.elaboration.specs.Context.{Running as PlainRunning};
    ghost use Rattle.elab_base.specs.Stored.{running_code};

    ghost Value = { PlainRunning };

    ghost coded = { running_code };

    ghost view = { λ s. record { line = s.line; answer = plain s.answer; addressed = s.addressed; declared = s.declared; locals = s.locals.items; mems = s.mems.items; formats = s.formats.items; cases = s.cases; otherwise = s.otherwise } };
}

/// The cases of a switch, each with its label, and its default.
#[derive(Drop)]
pub struct Cases {
    pub cases: CaseList,
    pub otherwise: Option<u32>,
}

impl Running {
    /// A function at a line, of which these parameters and locals are taken the address of.
    pub fn new(alloc: Global, line: Line, addressed: Vec<u32>) -> Result<Running, NoMemory>
        ensures { IfOk result (λ running. running ≡ running_at line addressed.items) }
    {
        let addressed = NumberSet::new(alloc, addressed)?;
        Ok(Running {
            line,
            answer: CType::Void,
            addressed,
            declared: 0,
            locals: Vec::new(alloc),
            mems: Vec::new(alloc),
            formats: Vec::new(alloc),
            cases: CaseList::new(alloc),
            otherwise: None,
        })
    }

    /// Its line.
    pub fn line(&self) -> Line
        ensures { result ≡ self.now.line }
    {
        self.line
    }

    /// The type that it answers.
    pub fn answer(&self) -> &CType
        ensures { plain result.now ≡ self.now.answer }
    {
        &self.answer
    }

    /// Its parameters are known, and so is the type that it answers.
    pub fn set_answer(&mut self, answer: CType)
        ensures { self.new ≡ record self.old { answer = plain answer } }
    {
        self.answer = answer;
    }

    /// Whether the parameter or local that is declared next is taken the address of.
    pub fn is_next_addressed(&self) -> bool
        ensures { result ≡ list_any (λ number. nat_eq number self.now.declared) self.now.addressed }
    {
        self.addressed.contains(self.declared)
    }

    /// One parameter or local more is declared.
    pub fn count_declared(&mut self) -> Result<(), NoMemory>
        ensures { IfOk result (λ _. self.new ≡ record self.old { declared = self.old.declared + 1 }) }
    {
        self.declared = self.declared.checked_add(1).ok_or(NoMemory)?;
        Ok(())
    }

    /// How many parameters and locals are in registers.
    pub fn local_count(&self) -> Result<u32, NoMemory>
        ensures { IfOk result (λ count. count ≡ length self.now.locals) }
    {
        fit(self.locals.len())
    }

    /// How many are objects in memory.
    pub fn mem_count(&self) -> Result<u32, NoMemory>
        ensures { IfOk result (λ count. count ≡ length self.now.mems) }
    {
        fit(self.mems.len())
    }

    /// How many formats there are.
    pub fn format_count(&self) -> Result<u32, NoMemory>
        ensures { IfOk result (λ count. count ≡ length self.now.formats) }
    {
        fit(self.formats.len())
    }

    /// Adds a register.
    pub fn add_local(&mut self, local: Reg) -> Result<(), NoMemory>
        ensures { IfOk result (λ _. self.new ≡ record self.old { locals = self.old.locals ++ local ∷ [] }) }
    {
        self.locals.push(local)?;
        Ok(())
    }

    /// Adds a memory local.
    pub fn add_mem(&mut self, mem: Mem) -> Result<(), NoMemory>
        ensures { IfOk result (λ _. self.new ≡ record self.old { mems = self.old.mems ++ mem ∷ [] }) }
    {
        self.mems.push(mem)?;
        Ok(())
    }

    /// Adds a format.
    pub fn add_format(&mut self, bytes: Items<u8>) -> Result<(), NoMemory>
        ensures { OnOk result (self.new ≡ record self.old { formats = self.old.formats ++ bytes ∷ [] }) }
    {
        self.formats.push(bytes)?;
        Ok(())
    }

    /// How many cases the running switch has so far.
    pub fn case_count(&self) -> usize
        ensures { result ≡ length self.now.cases }
    {
        self.cases.len()
    }

    /// Whether the running switch has a case of this value.
    pub fn has_case(&self, value: i128) -> bool
        ensures { result ≡ list_any (λ x. int_eq x.0 value) self.now.cases }
    {
        self.cases.contains(value)
    }

    /// Puts a case at a place among those of the running switch.
    pub fn add_case(&mut self, place: usize, value: i128, label: u32) -> Result<(), NoMemory>
        ensures { IfOk result (λ _. self.new ≡ with_case_in place value label self.old) }
    {
        self.cases.insert(place, value, label)
    }

    /// Whether the running switch has a default.
    pub fn has_default(&self) -> bool
        ensures { result ≡ is_some self.now.otherwise }
    {
        self.otherwise.is_some()
    }

    /// The default of the running switch.
    pub fn set_default(&mut self, label: u32)
        ensures { self.new ≡ record self.old { otherwise = Some label } }
    {
        self.otherwise = Some(label);
    }

    /// Puts other cases in place of those of the running switch, which it gives.
    pub fn swap_cases(&mut self, cases: Cases) -> Cases
        ensures cases { result.cases ≡ self.old.cases }
        ensures otherwise { result.otherwise ≡ self.old.otherwise }
        ensures with { self.new ≡ record self.old { cases = cases.cases; otherwise = cases.otherwise } }
    {
        let otherwise = self.otherwise;
        self.otherwise = cases.otherwise;
        let before = std::mem::replace(&mut self.cases, cases.cases);
        Cases {
            cases: before,
            otherwise,
        }
    }

    /// What a function of the core keeps of it: its line, its registers without temporaries, its memory locals and its
    /// formats.
    pub fn into_parts(self) -> (Line, Vec<Reg>, Vec<Mem>, Vec<Items<u8>>)
        ensures line { result.0 ≡ self.line }
        ensures locals { result.1.items ≡ self.locals }
        ensures mems { result.2.items ≡ self.mems }
        ensures formats { result.3.items ≡ self.formats }
    {
        let Running {
            line,
            locals,
            mems,
            formats,
            ..
        } = self;
        (line, locals, mems, formats)
    }
}
