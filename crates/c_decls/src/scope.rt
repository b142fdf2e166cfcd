//! One scope.

ghost use Rattle.std.specs.Prelude.{◌≡◌, ◌∷◌, ◌++◌, [], None, option_map, OnOk, OnErr};
ghost use Rattle.c_decls.specs.Named.{plain_named};
ghost use Rattle.c_decls.specs.ScopeList.{named_in};

use crate::named::Named;
use hs_base::NoMemory;
use indexmap::IndexMap;
use std::alloc::Global;
use std::marker::Model;

/// The names of one scope, in order of declaration.
#[derive(Drop)]
pub struct Scope {
    names: IndexMap<Vec<u8>, Named>,
}

impl Model for Scope {
    ghost use Rattle.c_decls.specs.ScopeList.{Table};
    ghost use Rattle.c_decls.specs.Codes.{table_code};

    ghost Value = { Table };

    ghost coded = { table_code };

    ghost use Rattle.c_decls.specs.Held.{table_of};

    ghost view = { table_of };
}

impl Scope {
    /// A scope without names.
    pub fn new(alloc: Global) -> Scope
        ensures { result ≡ [] }
    {
        Scope {
            names: IndexMap::new(alloc),
        }
    }

    /// What the scope declares a name as.
    pub(crate) fn find(&self, name: &[u8]) -> Option<&Named>
        ensures { option_map (λ found. plain_named found.now) result ≡ named_in name.now self.now }
    {
        self.names.get(name)
    }

    /// Adds a name that the scope does not have. An error changes nothing.
    pub(crate) fn add(&mut self, name: Vec<u8>, named: Named) -> Result<(), NoMemory>
        requires { named_in name.items self.old ≡ None }
        ensures ok { OnOk result (self.new ≡ self.old ++ (name.items, plain_named named) ∷ []) }
        ensures err { OnErr result (self.new ≡ self.old) }
    {
        self.names.insert(name, named)?;
        Ok(())
    }
}
