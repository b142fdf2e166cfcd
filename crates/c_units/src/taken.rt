//! The names that units have so far.

ghost use Rattle.std.specs.Prelude.{◌≡◌, option_copied, OnOk};
ghost use Rattle.c_units.specs.Mentions.{first_taken, is_taken, nothing_taken, with_mentions, with_role};

use crate::mention::{Mention, Role};
use crate::name_set::NameSet;
use hs_base::NoMemory;
use std::alloc::Global;
use std::marker::Model;

/// The names that units have so far: typedef names, names that are defined as something else, others, and tags with braces.
#[derive(Drop)]
pub(crate) struct Taken {
    typedefs: NameSet,
    defined: NameSet,
    others: NameSet,
    tags: NameSet,
}

impl Model for Taken {
    ghost use Rattle.c_units.specs.Mentions.{Taken as PlainTaken};

    ghost Value = { PlainTaken };

    ghost view = { λ t. record { typedefs = t.typedefs; defined = t.defined; others = t.others; tags = t.tags } };
}

impl Taken {
    /// No names.
    pub(crate) fn new(alloc: Global) -> Taken
        ensures { result ≡ nothing_taken }
    {
        Taken {
            typedefs: NameSet::new(alloc),
            defined: NameSet::new(alloc),
            others: NameSet::new(alloc),
            tags: NameSet::new(alloc),
        }
    }

    /// Whether another unit may not have a name in a role.
    fn is_taken(&self, role: Role, name: &[u8]) -> bool
        ensures { result ≡ is_taken self.now role name.now }
    {
        match role {
            Role::Typedef => {
                self.typedefs.contains(name)
                    || self.defined.contains(name)
                    || self.others.contains(name)
            }
            Role::Defined => self.typedefs.contains(name) || self.defined.contains(name),
            Role::Declared | Role::Used => self.typedefs.contains(name),
            Role::Tagged => self.tags.contains(name),
        }
    }

    /// The first of some mentions that is taken.
    #[tactic(auto, using(crate::proofs::TakenNames::taken_next, crate::proofs::TakenNames::taken_found, crate::proofs::TakenNames::taken_end))]
    pub(crate) fn first<'a>(&self, mentions: &'a [Mention]) -> Option<&'a Mention>
        ensures { option_copied result ≡ first_taken self.now mentions.now }
    {
        for mention in mentions {
            if self.is_taken(mention.role, mention.name.as_slice()) {
                return Some(mention);
            }
        }
        None
    }

    /// A unit has a name in a role.
    fn note(&mut self, alloc: Global, role: Role, name: &[u8]) -> Result<(), NoMemory>
        ensures { OnOk result (self.new ≡ with_role role name.now self.old) }
    {
        match role {
            Role::Typedef => self.typedefs.note(alloc, name),
            Role::Defined => self.defined.note(alloc, name),
            Role::Declared | Role::Used => self.others.note(alloc, name),
            Role::Tagged => self.tags.note(alloc, name),
        }
    }

    /// A unit has some names.
    #[tactic(auto, using(crate::proofs::TakenNames::noted_next, crate::proofs::TakenNames::noted_end))]
    pub(crate) fn note_all(&mut self, alloc: Global, mentions: &[Mention]) -> Result<(), NoMemory>
        ensures { OnOk result (self.new ≡ with_mentions mentions.now self.old) }
    {
        for mention in mentions {
            self.note(alloc, mention.role, mention.name.as_slice())?;
        }
        Ok(())
    }
}
