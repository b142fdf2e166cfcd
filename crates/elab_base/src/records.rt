//! Structs and unions with braces: their tags are made, and get their members (C99 6.7.2.1, 6.7.2.3).

ghost use Rattle.std.specs.Prelude.{◌≡◌, ◌<◌, ◌↔◌, None, All, IfOk, IsTrue, is_some, length, map, option_copied, Some};
ghost use Rattle.c_types.specs.Types.{PlainType, plain};
ghost use Rattle.c_types.specs.TagTable.{IsSizedIn, known, plain_pair, with_tag};
ghost use Rattle.c_decls.specs.Refusals.{Meets};
ghost use Rattle.c_decls.specs.ScopeList.{innermost, named_in, tag_name};
ghost use Rattle.c_decls.specs.TypeNames as types;
ghost use Rattle.elaboration.specs.Declarators.{unnamed, newly_named, begun, begun_as, complete, ended};
ghost use Rattle.elab_base.specs.Outcomes.{Types, MakesType, Completes};

use crate::elaborator::Elaborator;
use crate::locals::copied;
use crate::sizes::fits;
use c_decls::{Named, TypeError, TypeKind, refused, tag_name};
use c_tree::RecordSort;
use c_types::{CType, TagError, TagId, Tags, size_of};
use hs_base::{Items, Line, NoMemory};

/// Whether a struct or a union is meant.
fn is_union(sort: RecordSort) -> bool
    ensures { result ≡ types.is_union sort }
{
    match sort {
        RecordSort::Struct => false,
        RecordSort::Union => true,
    }
}

/// The struct or union of that number.
fn record_type(sort: RecordSort, tag: TagId) -> CType
    ensures { plain result ≡ types.record_type sort tag }
{
    match sort {
        RecordSort::Struct => CType::Struct(tag),
        RecordSort::Union => CType::Union(tag),
    }
}

/// Whether a tag of that number was made.
fn is_made(tags: &Tags, tag: TagId) -> bool
    ensures { IsTrue result ↔ (tag < length tags.now.made) }
{
    tags.info(tag).is_some()
}

/// Whether a tag of that number has its members.
fn is_complete(tags: &Tags, tag: TagId) -> bool
    ensures { result ≡ is_some (known tags.now.completed tag) }
{
    size_of(tags, &CType::Struct(tag)).is_some()
}

/// Whether a type has a size.
fn is_sized(tags: &Tags, ty: &CType) -> bool
    ensures { IsTrue result → IsSizedIn tags.now (plain ty.now) }
{
    fits(tags, ty) && size_of(tags, ty).is_some()
}

/// Whether each member has a size.
fn are_sized(tags: &Tags, members: &[(Items<u8>, CType)]) -> bool
    ensures { IsTrue result → All (λ m. IsSizedIn tags.now (plain m.1)) members.now }
{
    for member in members {
        if !is_sized(tags, &member.1) {
            return false;
        }
    }
    true
}

/// Makes a struct or union without members, if 32 bits number it.
fn make(tags: &mut Tags, sort: RecordSort, name: Items<u8>) -> Result<CType, NoMemory>
    ensures ty { IfOk result (λ ty. plain ty ≡ types.record_type sort (length tags.old.made)) }
    ensures made { IfOk result (λ _. tags.new ≡ with_tag tags.old (types.is_union sort) name) }
{
    if is_made(tags, u32::MAX - 1) {
        return Err(NoMemory);
    }
    let tag = tags.make(is_union(sort), name)?;
    Ok(record_type(sort, tag))
}

impl Elaborator {
    /// A struct or union without a name.
    fn unnamed(&mut self, sort: RecordSort) -> Result<CType, NoMemory>
        ensures { MakesType self.new result (unnamed sort self.old) }
    {
        let name = Items::new(self.alloc);
        make(&mut self.tags, sort, name)
    }

    /// A struct or union whose tag the innermost scope does not have: it is declared there.
    fn newly_named(&mut self, sort: RecordSort, name: &[u8], tag: &[u8]) -> Result<CType, NoMemory>
        requires named { tag.now ≡ tag_name name.now }
        requires new { named_in tag.now (innermost self.old.scopes) ≡ None }
        ensures { MakesType self.new result (newly_named sort name.now self.old) }
    {
        let copy = copied(self.alloc, name)?;
        let ty = make(&mut self.tags, sort, copy)?;
        let named = Named::Tag { ty };
        self.scopes.declare(tag, named).map_err(|_| NoMemory)?;
        Ok(ty)
    }

    /// A named struct or union begins. Under the name of a tag nothing but a tag is declared; where something else were,
    /// there is no memory for another.
    fn begun_as(&mut self, sort: RecordSort, name: &[u8]) -> Result<CType, NoMemory>
        ensures { MakesType self.new result (begun sort (Some name.now) self.old) }
    {
        let tag = tag_name(self.alloc, name)?;
        match self.scopes.find_innermost(tag.as_slice()) {
            Some(Named::Tag { ty }) => Ok(*ty),
            Some(_) => Err(NoMemory),
            None => self.newly_named(sort, name, tag.as_slice()),
        }
    }

    /// A struct or union with braces begins: a name that its scope does not have is declared; one that it has stands for
    /// what it was declared as (C99 6.7.2.3).
    pub fn begin_record(&mut self, sort: RecordSort, name: Option<&[u8]>) -> Result<CType, NoMemory>
        ensures { MakesType self.new result (begun sort (option_copied name.entry) self.old) }
    {
        match name {
            Some(name) => self.begun_as(sort, name),
            None => self.unnamed(sort),
        }
    }

    /// A tag of that number gets its members, unless it has some already. The tag was made and each member has a size where
    /// elaboration comes from; where not, there is no memory for it.
    fn complete(
        &mut self,
        line: Line,
        tag: TagId,
        members: Items<(Items<u8>, CType)>,
    ) -> Result<(), TypeError>
        ensures { Completes line tag (map plain_pair members) self.old self.new result }
    {
        if is_complete(&self.tags, tag) {
            return refused(TypeKind::DeclaredTwice, line);
        }
        if !is_made(&self.tags, tag) || !are_sized(&self.tags, members.as_slice()) {
            return Err(TypeError::NoMemory);
        }
        match self.tags.complete(tag, members) {
            Ok(()) => Ok(()),
            Err(TagError::PointerInUnion) => refused(TypeKind::PointerInUnion, line),
            Err(TagError::TooLarge) => refused(TypeKind::TypeTooLarge, line),
            Err(TagError::NoMemory) => Err(TypeError::NoMemory),
        }
    }

    /// A struct or union with braces ends: it gets its members, unless it has some already or is another sort of tag.
    pub fn end_record(
        &mut self,
        line: Line,
        sort: RecordSort,
        ty: &CType,
        members: Items<(Items<u8>, CType)>,
    ) -> Result<CType, TypeError>
        ensures { Types self.new result (ended line sort (plain ty.now) self.old (map plain_pair members)) }
    {
        match (sort, ty) {
            (RecordSort::Struct, CType::Struct(tag)) => {
                self.complete(line, *tag, members)?;
                Ok(CType::Struct(*tag))
            }
            (RecordSort::Union, CType::Union(tag)) => {
                self.complete(line, *tag, members)?;
                Ok(CType::Union(*tag))
            }
            _ => refused(TypeKind::DeclaredTwice, line),
        }
    }
}
