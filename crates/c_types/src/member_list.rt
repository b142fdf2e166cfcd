//! Members, which are found by their names.

ghost use Rattle.std.specs.Prelude.{◌≡◌, ℕ, List, bytes_eq, find, option_copied, IfOk};
ghost use Rattle.indexmap.specs.IndexMap.{get_by};
ghost use Rattle.c_types.specs.MemberPlaces.{place_of};

use crate::bodies::Member;
use hs_base::NoMemory;
use indexmap::IndexMap;
use std::alloc::Global;
use std::marker::Model;

/// Members in order, with the place of the first of each name.
#[derive(Drop)]
pub(crate) struct MemberList {
    list: Vec<Member>,
    places: IndexMap<Vec<u8>, usize>,
}

impl Model for MemberList {
    ghost use Rattle.std.specs.Prelude.{List};
    ghost use Rattle.c_types.specs.declared.bodies.Member.{Member};
    ghost use Rattle.std.specs.Coded.{codes};
    ghost use Rattle.c_types.specs.contracts.types.CType as type;
    ghost use Rattle.c_types.specs.MemberPlaces.{HasPlaces};

    ghost Value = { List Member };

    ghost coded = { Prim.hlevel (codes, type.the_row.coded) };

    ghost view = { λ s. s.list.items };

    ghost invariant = { HasPlaces };
}

/// The place of the first member of each name.
fn places_of(alloc: Global, list: &[Member]) -> Result<IndexMap<Vec<u8>, usize>, NoMemory>
    ensures { IfOk result (λ places. (name : List ℕ) → get_by (λ k. bytes_eq name k.items) places ≡ place_of name list.now) }
{
    let mut places = IndexMap::new(alloc);
    for (place, member) in list.iter().enumerate() {
        let name = member.name.as_slice();
        if !places.contains_key(name) {
            places.insert(name.to_vec(alloc)?, place)?;
        }
    }
    Ok(places)
}

impl MemberList {
    /// These members.
    pub(crate) fn new(alloc: Global, list: Vec<Member>) -> Result<MemberList, NoMemory>
        ensures { IfOk result (λ members. members ≡ list.items) }
    {
        let places = places_of(alloc, &list)?;
        Ok(MemberList { list, places })
    }

    /// The members.
    pub(crate) fn as_slice(&self) -> &[Member]
        ensures { result.now ≡ self.now }
    {
        self.list.as_slice()
    }

    /// The first member of that name. Its time does not grow with the members.
    pub(crate) fn find(&self, name: &[u8]) -> Option<&Member>
        ensures { option_copied result ≡ find (λ (m : Member). bytes_eq name.now m.name) self.now }
    {
        match self.places.get(name) {
            Some(place) => self.list.get(*place),
            None => None,
        }
    }
}
