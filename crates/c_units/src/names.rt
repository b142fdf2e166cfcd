//! The declarations that hold at a place of a unit.

ghost use Rattle.std.specs.Prelude.{◌≡◌, ◌∷◌, [], length, OnOk, OnErr};
ghost use Rattle.c_units.specs.Names.{binding_of};
ghost use Rattle.c_units.specs.Sets.{Binds, oldest, without_latest};

use hs_base::NoMemory;
use smallvec::SmallVec;
use std::alloc::Global;
use std::collections::HashMap;
use std::marker::Model;

/// What a name is bound to.
#[derive(Clone, Copy, Debug, Drop, PartialEq, Eq)]
pub(crate) enum Binding {
    /// A declaration in an inner scope.
    Inner,
    /// An object or function that the unit has for itself.
    Own,
    /// What all units share.
    Shared,
}

/// A declaration, and what its name was bound to before it.
#[derive(Drop)]
pub(crate) struct Entry {
    /// Most names are short: they take no memory of their own.
    name: SmallVec<u8, 24>,
    binding: Binding,
    before: Binding,
}

/// The declarations that hold at a place.
#[derive(Drop)]
pub(crate) struct Scope {
    alloc: Global,
    /// The declarations, the latest last.
    log: Vec<Entry>,
    /// What each name is bound to that was declared.
    bindings: HashMap<Vec<u8>, Binding>,
}

impl Model for Scope {
    ghost use Rattle.std.specs.Prelude.{List, reverse};
    ghost use Rattle.c_units.specs.Names.{Known};
    ghost use Rattle.c_units.specs.Sets.{TellBefore, AreBound, entries_known};

    ghost Value = { List Known };

    ghost view = { λ s. entries_known (reverse s.log.items) };

    ghost invariant = { λ s. TellBefore (reverse s.log.items) × AreBound s.bindings (entries_known (reverse s.log.items)) };
}

impl Scope {
    /// No declarations.
    pub(crate) fn new(alloc: Global) -> Scope
        ensures { result ≡ [] }
    {
        Scope {
            alloc,
            log: Vec::new(alloc),
            bindings: HashMap::new(alloc),
        }
    }

    /// How many declarations there are.
    pub(crate) fn len(&self) -> usize
        ensures { result ≡ length self.now }
    {
        self.log.len()
    }

    /// What a name is bound to.
    pub(crate) fn binding(&self, name: &[u8]) -> Binding
        ensures { result ≡ binding_of self.now name.now }
    {
        match self.bindings.get(name) {
            Some(binding) => *binding,
            None => Binding::Shared,
        }
    }

    /// Declares a name.
    pub(crate) fn declare(&mut self, name: &[u8], binding: Binding) -> Result<(), NoMemory>
        ensures { OnOk result (self.new ≡ record { name = name.now; binding = binding } ∷ self.old) }
    {
        let entry = Entry {
            name: SmallVec::from_slice(self.alloc, name)?,
            binding,
            before: self.binding(name),
        };
        self.log.push(entry)?;
        if let Err(error) = bind(self.alloc, &mut self.bindings, name, binding) {
            let _ = self.log.pop();
            return Err(error);
        }
        Ok(())
    }

    /// Takes the latest declaration back. Want of memory leaves none.
    fn undo(&mut self) -> Result<(), NoMemory>
        ensures { OnOk result (self.new ≡ without_latest self.old) }
    {
        if let Some(entry) = self.log.pop() {
            let name = entry.name.as_slice();
            if let Err(error) = bind(self.alloc, &mut self.bindings, name, entry.before) {
                self.log.clear();
                self.bindings.clear();
                return Err(error);
            }
        }
        Ok(())
    }

    /// Takes all declarations but the oldest so many back.
    pub(crate) fn cut(&mut self, count: usize) -> Result<(), NoMemory>
        ensures { OnOk result (self.new ≡ oldest count self.old) }
    {
        'cut: while self.len() > count {
            self.undo()?;
        }
        Ok(())
    }
}

/// Says what a name is bound to. An error changes nothing.
fn bind(
    alloc: Global,
    bindings: &mut HashMap<Vec<u8>, Binding>,
    name: &[u8],
    binding: Binding,
) -> Result<(), NoMemory>
    ensures ok { OnOk result (Binds name.now binding bindings.old bindings.new) }
    ensures err { OnErr result (bindings.new.entries ≡ bindings.old.entries) }
{
    if let Some(bound) = bindings.get_mut(name) {
        *bound = binding;
        return Ok(());
    }
    bindings.insert(Vec::from_slice(alloc, name)?, binding)?;
    Ok(())
}
