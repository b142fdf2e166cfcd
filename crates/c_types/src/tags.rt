//! Structs and unions by their tags.

ghost use Rattle.std.specs.Prelude.{◌≡◌, ◌≢◌, ◌+◌, ◌<◌, ◌^◌, length, map, slice_get, option_copied, All, IfOk, IfErr, IfSome, IfNone, OnOk, OnErr, Ok, Err, option_and_then};
ghost use Rattle.c_types.specs.declared.tags.TagError.TheVariants.{NoMemory};
ghost use Rattle.c_types.specs.Types.{plain};
ghost use Rattle.c_types.specs.TagTable.{TagTable, completion, known, IsIncomplete, IsSizedIn, plain_pair, no_tags, with_tag, with_completed};
ghost use Rattle.c_types.specs.Bodies.{IsBodyOf, IsPlaced, KeepsRule, completed_tag};

use crate::bodies::{Body, place_members};
use crate::types::{CType, TagId};
use crate::unions::follows_union_rule;
use hs_base::{Items, NoMemory};
use std::alloc::{AllocFailed, Global};
use std::marker::Model;
use thiserror::Error;

/// What is known of a tag from its making on: whether it is a union, and its name, empty where it has none.
#[derive(Debug, Drop)]
pub struct TagInfo {
    pub is_union: bool,
    pub name: Items<u8>,
}

/// Why a tag is not completed.
#[derive(Clone, Copy, Debug, PartialEq, Eq, Error)]
pub enum TagError {
    /// A slot of one member of a union is other bytes in another member.
    #[error("pointer in union")]
    PointerInUnion,
    /// The size is above 268,435,456 bytes.
    #[error("too large")]
    TooLarge,
    /// Memory was wanted and there was none.
    #[error("no memory")]
    NoMemory,
}

impl From<NoMemory> for TagError {
    ghost from_gives = { λ _ e. e ≡ NoMemory };

    fn from(_: NoMemory) -> TagError {
        TagError::NoMemory
    }
}

impl<T: Drop> From<AllocFailed<T>> for TagError {
    ghost from_gives = { λ _ e. e ≡ NoMemory };

    fn from(_: AllocFailed<T>) -> TagError {
        TagError::NoMemory
    }
}

/// A tag that was made, and where its body stands, once it has one.
#[derive(Drop)]
pub(crate) struct Made {
    info: TagInfo,
    place: Option<usize>,
}

/// Where the body of a tag stands, if it has one.
fn place_of(made: &[Made], tag: TagId) -> Option<usize>
    ensures { result ≡ option_and_then (λ (m : Made). m.place) (slice_get made.now tag) }
{
    match made.get(tag as usize) {
        Some(made) => made.place,
        None => None,
    }
}

/// The tags of structs and unions, numbered from 0 in the order of making, and the members of the completed ones.
#[derive(Drop)]
pub struct Tags {
    alloc: Global,
    made: Vec<Made>,
    bodies: Vec<Body>,
    completed: Vec<TagId>,
}

impl Model for Tags {
    ghost use Rattle.c_types.specs.TagTable.{TagTable};
    ghost use Rattle.c_types.specs.Codes.{table_code};

    ghost Value = { TagTable };

    ghost coded = { table_code };

    ghost use Rattle.c_types.specs.Bodies.{table_of, IsConsistent};

    ghost view = { table_of };

    ghost invariant = { IsConsistent };
}

impl Tags {
    /// No tags.
    pub fn new(alloc: Global) -> Result<Tags, NoMemory>
        ensures { IfOk result (λ tags. tags ≡ no_tags) }
    {
        Ok(Tags {
            alloc,
            made: Vec::new(alloc),
            bodies: Vec::new(alloc),
            completed: Vec::new(alloc),
        })
    }

    /// Makes a tag, which is incomplete. An empty name stands for none. An error changes nothing.
    pub fn make(&mut self, is_union: bool, name: Items<u8>) -> Result<TagId, NoMemory>
        requires { length self.old.made + 1 < 2 ^ 32 }
        ensures number { IfOk result (λ tag. tag ≡ length self.old.made) }
        ensures ok { IfOk result (λ _. self.new ≡ with_tag self.old is_union name) }
        ensures err { OnErr result (self.new ≡ self.old) }
    {
        let tag = self.made.len() as u32;
        let info = TagInfo { is_union, name };
        self.made.push(Made { info, place: None })?;
        Ok(tag)
    }

    /// What a tag was made with, or `None` where it was not made.
    pub fn info(&self, tag: TagId) -> Option<&TagInfo>
        ensures { option_copied result ≡ slice_get self.now.made tag }
    {
        match self.made.get(tag as usize) {
            Some(made) => Some(&made.info),
            None => None,
        }
    }

    /// The completed tags in the order of completion.
    pub fn completed(&self) -> &[TagId]
        ensures { result.now ≡ map (λ done. done.tag) self.now.completed }
    {
        self.completed.as_slice()
    }

    /// The body of a completed tag, and its place in the order of completion.
    pub(crate) fn body(&self, tag: TagId) -> Option<(usize, &Body)>
        ensures none { IfNone result (known self.now.completed tag ≡ None) }
        ensures some { IfSome result (λ r. IsBodyOf self.now.completed tag r.0 r.1.now) }
    {
        match place_of(&self.made, tag) {
            Some(place) => Some((place, &self.bodies[place])),
            None => None,
        }
    }

    /// Completes a tag that was made, with members that each have a size.
    pub fn complete(
        &mut self,
        tag: TagId,
        members: Items<(Items<u8>, CType)>,
    ) -> Result<(), TagError>
        requires made { tag < length self.old.made }
        requires incomplete { IsIncomplete self.old tag }
        requires sized { All (λ m. IsSizedIn self.old (plain m.1)) members }
        ensures ok { OnOk result (completion self.old tag (map plain_pair members) ≡ Ok self.new) }
        ensures refused { IfErr result (λ e. e ≢ TagError.NoMemory → completion self.old tag (map plain_pair members) ≡ Err e) }
        ensures unchanged { OnErr result (self.new ≡ self.old) }
    {
        let is_union = self.made[tag as usize].info.is_union;
        // A union is never too large, since none of its members is.
        let body = place_members(self.alloc, self, tag, is_union, members)?;
        if is_union && !follows_union_rule(self.alloc, self, &body)? {
            return Err(TagError::PointerInUnion);
        }
        self.keep(body)
    }

    /// Keeps a body as the newest.
    fn keep(&mut self, body: Body) -> Result<(), TagError>
        requires made { body.tag < length self.old.made }
        requires incomplete { IsIncomplete self.old body.tag }
        requires placed { IsPlaced (known self.old.completed) body }
        requires rule { KeepsRule (known self.old.completed) body }
        ensures ok { OnOk result (self.new ≡ with_completed self.old (completed_tag body)) }
        ensures err { IfErr result (λ e. e ≡ TagError.NoMemory) }
        ensures unchanged { OnErr result (self.new ≡ self.old) }
    {
        let tag = body.tag;
        let place = self.bodies.len();
        self.completed.push(tag)?;
        if self.bodies.push(body).is_err() {
            let _ = self.completed.pop();
            return Err(TagError::NoMemory);
        }
        self.made[tag as usize].place = Some(place);
        Ok(())
    }
}
