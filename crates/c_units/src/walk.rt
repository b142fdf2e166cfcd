//! What is known at a place of a unit.

ghost use Rattle.std.specs.Prelude.{◌≡◌, [], false, length, option_copied, true, OnOk};
ghost use Rattle.c_units.specs.Names.{Names, binding_at, binding_of, declare, mention, name_by};
ghost use Rattle.c_units.specs.Externals.{binding_as, names_at_start};
ghost use Rattle.c_units.specs.Sets.{back_to};
ghost use Rattle.c_units.specs.Turns.{back_if};

use crate::mention::{Mention, Role};
use crate::name_set::NameSet;
use crate::names::{Binding, Scope};
use hs_base::{Items, Line, NoMemory};
use std::alloc::Global;
use std::marker::Model;
use std::mem;

/// What is known at a place of a unit.
#[derive(Drop)]
pub(crate) struct Walk {
    pub(crate) alloc: Global,
    /// The objects and functions that the unit has for itself.
    own: NameSet,
    /// What is added to their names.
    suffix: Items<u8>,
    /// The declarations that hold.
    scope: Scope,
    /// Whether an inner scope is open.
    inside: bool,
    /// What was said so far of the names that all units share.
    mentions: Vec<Mention>,
}

/// How many declarations hold outside of a scope, and whether that is an inner scope itself.
#[derive(Clone, Copy, Debug, Drop)]
pub(crate) struct Outer {
    count: usize,
    inside: bool,
}

impl Model for Walk {
    ghost use Rattle.c_units.specs.Names.{Names};

    ghost Value = { Names };

    ghost view = { λ w. record { own = w.own; suffix = w.suffix; known = w.scope; inside = w.inside; mentions = w.mentions.items } };
}

impl Walk {
    /// Before the first external declaration of a unit.
    pub(crate) fn new(alloc: Global, own: NameSet, suffix: Items<u8>) -> Walk
        ensures { result ≡ names_at_start own suffix }
    {
        Walk {
            alloc,
            own,
            suffix,
            scope: Scope::new(alloc),
            inside: false,
            mentions: Vec::new(alloc),
        }
    }

    /// What was said so far of the names that all units share, which is forgotten.
    pub(crate) fn take_mentions(&mut self) -> Vec<Mention>
        ensures result { result.items ≡ self.old.mentions }
        ensures rest { self.new ≡ record self.old { mentions = [] } }
    {
        mem::replace(&mut self.mentions, Vec::new(self.alloc))
    }

    /// These were the mentions so far.
    pub(crate) fn put_mentions(&mut self, mentions: Vec<Mention>)
        ensures { self.new ≡ record self.old { mentions = mentions.items } }
    {
        self.mentions = mentions;
    }

    /// Takes the suffix away, so that nothing is renamed.
    pub(crate) fn take_suffix(&mut self) -> Items<u8>
        ensures result { result ≡ self.old.suffix }
        ensures rest { self.new ≡ record self.old { suffix = [] } }
    {
        mem::replace(&mut self.suffix, Items::new(self.alloc))
    }

    /// This is the suffix again.
    pub(crate) fn put_suffix(&mut self, suffix: Items<u8>)
        ensures { self.new ≡ record self.old { suffix = suffix } }
    {
        self.suffix = suffix;
    }

    /// Gives a name that is bound so the form that it has in the program.
    pub(crate) fn rename(&self, binding: Binding, name: &mut Items<u8>) -> Result<(), NoMemory>
        ensures { OnOk result (name.new ≡ name_by binding self.now.suffix name.old) }
    {
        if let Binding::Own = binding {
            let mut bytes = mem::replace(name, Items::new(self.alloc)).into_vec();
            bytes.extend_from_slice(self.suffix.as_slice())?;
            *name = Items::from(bytes);
        }
        Ok(())
    }

    /// What a name is bound to.
    pub(crate) fn binding(&self, name: &[u8]) -> Binding
        ensures { result ≡ binding_of self.now.known name.now }
    {
        self.scope.binding(name)
    }

    /// What is declared here, unless it is in a declarator of file scope.
    pub(crate) fn binding_here(&self) -> Binding
        ensures { result ≡ binding_at self.now }
    {
        if self.inside {
            Binding::Inner
        } else {
            Binding::Shared
        }
    }

    /// What a name is bound to that file scope declares.
    pub(crate) fn binding_as(&self, role: Role, name: &[u8]) -> Binding
        ensures { result ≡ binding_as role self.now.own name.now }
    {
        match role {
            Role::Typedef => Binding::Shared,
            _ => {
                if self.own.contains(name) {
                    Binding::Own
                } else {
                    Binding::Shared
                }
            }
        }
    }

    /// Mentions a name, if all units share it.
    pub(crate) fn mention(
        &mut self,
        binding: Binding,
        role: Role,
        name: &[u8],
        line: Line,
    ) -> Result<(), NoMemory>
        ensures { OnOk result (self.new ≡ mention binding role name.now line self.old) }
    {
        if let Binding::Shared = binding {
            let name = Items::from(Vec::from_slice(self.alloc, name)?);
            self.mentions.push(Mention { role, name, line })?;
        }
        Ok(())
    }

    /// Declares a name, where there is one.
    pub(crate) fn declare(
        &mut self,
        name: Option<&Items<u8>>,
        binding: Binding,
    ) -> Result<(), NoMemory>
        ensures { OnOk result (self.new ≡ declare (option_copied name.entry) binding self.old) }
    {
        match name {
            Some(name) => self.scope.declare(name.as_slice(), binding),
            None => Ok(()),
        }
    }

    /// What holds outside of a scope that begins here.
    pub(crate) fn outer(&self) -> Outer
        ensures { result ≡ record { count = length self.now.known; inside = self.now.inside } }
    {
        Outer {
            count: self.scope.len(),
            inside: self.inside,
        }
    }

    /// An inner scope begins.
    pub(crate) fn enter(&mut self)
        ensures { self.new ≡ record self.old { inside = true } }
    {
        self.inside = true;
    }

    /// A scope ends.
    pub(crate) fn leave(&mut self, outer: Outer) -> Result<(), NoMemory>
        ensures { OnOk result (self.new ≡ back_to outer self.old) }
    {
        self.scope.cut(outer.count)?;
        self.inside = outer.inside;
        Ok(())
    }

    /// The same, if it is one.
    pub(crate) fn leave_if(&mut self, is_scope: bool, outer: Outer) -> Result<(), NoMemory>
        ensures { OnOk result (self.new ≡ back_if is_scope outer self.old) }
    {
        if is_scope {
            return self.leave(outer);
        }
        Ok(())
    }
}
