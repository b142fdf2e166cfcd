//! The members of a struct or union whose braces are open (C99 6.7.2.1).

ghost use Rattle.std.specs.Prelude.{◌≡◌, ◌++◌, ◌∷◌, [], map, false, IfOk};
ghost use Rattle.c_types.specs.Types.{plain};
ghost use Rattle.c_types.specs.TagTable.{plain_pair};
ghost use Rattle.elaboration.specs.Declarators.{has_member};

use c_types::CType;
use hs_base::{Items, NoMemory};
use indexmap::IndexMap;
use std::alloc::Global;
use std::marker::Model;

/// Members with their types, in order of declaration. A member is found by its name without a scan.
#[derive(Drop)]
pub(crate) struct MemberTable {
    alloc: Global,
    types: IndexMap<Vec<u8>, CType>,
}

impl Model for MemberTable {
    ghost use Rattle.elaboration.specs.Declarators.{Members};
    ghost use Rattle.elab_types.specs.MemberTable.{members_code, members_of};

    ghost Value = { Members };

    ghost coded = { members_code };

    ghost view = { members_of };
}

impl MemberTable {
    /// No members.
    pub(crate) fn new(alloc: Global) -> MemberTable
        ensures { result ≡ [] }
    {
        MemberTable {
            alloc,
            types: IndexMap::new(alloc),
        }
    }

    /// Whether one of the members has a name.
    pub(crate) fn has(&self, name: &[u8]) -> bool
        ensures { result ≡ has_member name.now self.now }
    {
        self.types.contains_key(name)
    }

    /// Adds a member, whose name is not there yet.
    pub(crate) fn insert(&mut self, name: &[u8], ty: CType) -> Result<(), NoMemory>
        requires { has_member name.now self.old ≡ false }
        ensures { IfOk result (λ _. self.new ≡ self.old ++ (name.now, plain ty) ∷ []) }
    {
        let name = name.to_vec(self.alloc)?;
        self.types.insert(name, ty)?;
        Ok(())
    }

    /// The members as a list.
    pub(crate) fn into_pairs(self) -> Result<Vec<(Items<u8>, CType)>, NoMemory>
        ensures { IfOk result (λ pairs. map plain_pair pairs.items ≡ self) }
    {
        let MemberTable { alloc, types } = self;
        let mut pairs = Vec::new(alloc);
        for (name, ty) in types {
            pairs.push((Items::from(name), ty))?;
        }
        Ok(pairs)
    }
}
