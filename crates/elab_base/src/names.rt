//! What a text declares outside functions, and the functions that were walked.

ghost use Rattle.std.specs.Prelude.{◌≡◌, Some, None, is_some};
ghost use Rattle.elaboration.specs.Context.{Variable as PlainVariable, Declared as PlainDeclared, Walked as PlainWalked};

use crate::code::Code;
use crate::running::Running;
use c_types::Layout;
use core_tree::Start;
use hs_base::Items;
use std::marker::Model;

/// A file-scope variable; its initializer, where it has one so far (C99 6.9.2).
#[derive(Drop)]
pub struct Variable {
    name: Items<u8>,
    layout: Layout,
    start: Option<Start>,
}

impl Model for Variable {
    ghost use Rattle.elaboration.specs.Context.{Variable as PlainVariable};

    ghost Value = { PlainVariable };

    ghost view = { λ s. record { name = s.name; layout = s.layout; start = s.start } };
}

impl Variable {
    /// A variable without an initializer.
    pub fn new(name: Items<u8>, layout: Layout) -> Variable
        ensures { result ≡ record { name = name; layout = layout; start = None } }
    {
        Variable {
            name,
            layout,
            start: None,
        }
    }

    /// Its name.
    pub fn name(&self) -> &Items<u8>
        ensures { result.now ≡ self.now.name }
    {
        &self.name
    }

    /// Its layout.
    pub fn layout(&self) -> &Layout
        ensures { result.now ≡ self.now.layout }
    {
        &self.layout
    }

    /// Whether it has an initializer.
    pub fn is_started(&self) -> bool
        ensures { result ≡ is_some self.now.start }
    {
        self.start.is_some()
    }

    /// Gives it an initializer.
    pub fn set_start(&mut self, start: Start)
        ensures { self.new ≡ record self.old { start = Some start } }
    {
        self.start = Some(start);
    }

    /// Its parts: the name, the layout and the initializer.
    pub fn into_parts(self) -> (Items<u8>, Layout, Option<Start>)
        ensures { result ≡ (self.name, self.layout, self.start) }
    {
        let Variable {
            name,
            layout,
            start,
        } = self;
        (name, layout, start)
    }
}

/// A declared function; the number of its definition, where it has one so far (C99 6.9.1).
#[derive(Drop)]
pub struct Declared {
    name: Items<u8>,
    defined: Option<u32>,
}

impl Model for Declared {
    ghost use Rattle.elaboration.specs.Context.{Declared as PlainDeclared};

    ghost Value = { PlainDeclared };

    ghost view = { λ s. record { name = s.name; defined = s.defined } };
}

impl Declared {
    /// A function without a definition.
    pub fn new(name: Items<u8>) -> Declared
        ensures { result ≡ record { name = name; defined = None } }
    {
        Declared {
            name,
            defined: None,
        }
    }

    /// The number of its definition.
    pub fn defined(&self) -> Option<u32>
        ensures { result ≡ self.now.defined }
    {
        self.defined
    }

    /// Gives it a definition of that number.
    pub fn define(&mut self, number: u32)
        ensures { self.new ≡ record self.old { defined = Some number } }
    {
        self.defined = Some(number);
    }
}

/// A function that was walked, with how many parameters it has.
#[derive(Drop)]
pub struct Walked {
    name: Items<u8>,
    params: u32,
    running: Running,
    code: Code,
}

impl Model for Walked {
    ghost use Rattle.elaboration.specs.Context.{Walked as PlainWalked};
    ghost use Rattle.elab_base.specs.Stored.{walked_code};

    ghost Value = { PlainWalked };

    ghost coded = { walked_code };

    ghost view = { λ s. record { name = s.name; params = s.params; running = s.running; code = s.code } };
}

impl Walked {
    /// A function with its parts.
    pub fn new(name: Items<u8>, params: u32, running: Running, code: Code) -> Walked
        ensures { result ≡ record { name = name; params = params; running = running; code = code } }
    {
        Walked {
            name,
            params,
            running,
            code,
        }
    }

    /// Its parts: the name, how many parameters it has, what is kept of it, and its code.
    pub fn into_parts(self) -> (Items<u8>, u32, Running, Code)
        ensures { result ≡ (self.name, self.params, self.running, self.code) }
    {
        let Walked {
            name,
            params,
            running,
            code,
        } = self;
        (name, params, running, code)
    }
}
