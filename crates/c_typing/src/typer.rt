//! What an expression declares: the tags that it names first, and parameters (C99 6.7.2.3, 6.7.5.3).

ghost use Rattle.std.specs.Prelude.{◌≡◌, ◌<◌, ◌↔◌, ℕ, Ok, None, length, option_copied, IsTrue, IfOk, IfSome};
ghost use Rattle.c_types.specs.Types.{plain};
ghost use Rattle.c_tree.specs.View.{spec_tree, tag_tree};
ghost use Rattle.c_tree.specs.StatementView.{trees};
ghost use Rattle.c_decls.specs.ScopeList.{found, tag_name};
ghost use Rattle.c_decls.specs.Refusals.{Meets};
ghost use Rattle.c_decls.specs.TypeNames as rules;
ghost use Rattle.c_decls.specs.TypeNames.{Context};
ghost use Rattle.c_typing.specs.Walks.{Walks, context_of};

use crate::lent::Around;
use crate::words::{special_word, word_type};
use c_decls::{
    LayeredType, Named, TypeError, TypeKind, is_function, is_record, is_void, refused, tag_name,
};
use c_tree::{RecordSort, Spec, Specs, TagKind};
use c_types::{CType, IntType, TagId, TagInfo, Tags};
use hs_base::{Items, Line, NoMemory};
use std::alloc::Global;

/// The scopes at a place of an expression, and the tags that were first named in it, which come behind those that were
/// made before.
#[derive(Drop)]
pub struct Typer<'a> {
    pub alloc: Global,
    pub scopes: Around<'a>,
    pub new_tags: Vec<TagInfo>,
}

/// A name of its own.
fn copied(alloc: Global, name: &[u8]) -> Result<Items<u8>, NoMemory>
    ensures { IfOk result (λ copy. copy ≡ name.now) }
{
    Ok(Items::from(name.to_vec(alloc)?))
}

/// Whether a struct or a union is named.
fn is_union(sort: RecordSort) -> bool
    ensures { result ≡ rules.is_union sort }
{
    match sort {
        RecordSort::Struct => false,
        RecordSort::Union => true,
    }
}

/// The struct or union of that number.
fn record_type(sort: RecordSort, tag: TagId) -> CType
    ensures { plain result ≡ rules.record_type sort tag }
{
    match sort {
        RecordSort::Struct => CType::Struct(tag),
        RecordSort::Union => CType::Union(tag),
    }
}

/// Whether a number is that of a tag that was made.
pub(crate) fn is_made(tags: &Tags, tag: TagId) -> bool
    ensures { IsTrue result ↔ (tag < length tags.now.made) }
{
    tags.info(tag).is_some()
}

/// How many tags were made, where 32 bits number one more: found by halving, since the tags do not tell.
fn count(tags: &Tags) -> Option<u32>
    ensures { IfSome result (λ count. count ≡ length tags.now.made) }
{
    let mut low = 0;
    let mut high = u32::MAX;
    if is_made(tags, high) {
        return None;
    }
    while low < high {
        let middle = low + (high - low) / 2;
        if is_made(tags, middle) {
            low = middle + 1;
        } else {
            high = middle;
        }
    }
    Some(low)
}

/// A struct or a union that was declared as this type.
fn same_sort(line: Line, sort: RecordSort, ty: &CType) -> Result<CType, TypeError>
    ensures { (context : Context) → Meets (λ ty. (context, plain ty)) result (rules.same_sort line sort context (plain ty.now)) }
{
    match (sort, ty) {
        (RecordSort::Struct, CType::Struct(tag)) => Ok(CType::Struct(*tag)),
        (RecordSort::Union, CType::Union(tag)) => Ok(CType::Union(*tag)),
        _ => refused(TypeKind::DeclaredTwice, line),
    }
}

impl Typer<'_> {
    /// The number of the next tag.
    fn next_tag(&self, tags: &Tags) -> Result<TagId, NoMemory>
        ensures { IfOk result (λ tag. tag ≡ length (context_of self.now tags.now).tags.made) }
    {
        let made = count(tags).ok_or(NoMemory)?;
        let new = u32::try_from(self.new_tags.len()).map_err(|_| NoMemory)?;
        made.checked_add(new).ok_or(NoMemory)
    }

    /// Makes a tag that is named first here: it is incomplete, and declared in the innermost scope (C99 6.7.2.3).
    fn new_tag(
        &mut self,
        tags: &Tags,
        line: Line,
        sort: RecordSort,
        name: &[u8],
        tag: &[u8],
    ) -> Result<CType, TypeError>
        requires named { tag.now ≡ tag_name name.now }
        requires new { found self.old.scopes tag.now ≡ None }
        ensures { Walks plain (context_of self.new tags.now) result
            (Ok (rules.with_new_tag sort name.now (context_of self.old tags.now))) }
    {
        let number = self.next_tag(tags)?;
        let ty = record_type(sort, number);
        self.scopes.declare(line, tag, Named::Tag { ty })?;
        let name = copied(self.alloc, name)?;
        let is_union = is_union(sort);
        self.new_tags.push(TagInfo { is_union, name })?;
        Ok(record_type(sort, number))
    }

    /// A struct or a union by its name (C99 6.7.2.3).
    fn tag_named(
        &mut self,
        tags: &Tags,
        line: Line,
        sort: RecordSort,
        name: &[u8],
    ) -> Result<CType, TypeError>
        ensures { Walks plain (context_of self.new tags.now) result
            (rules.tag_named line sort name.now (context_of self.old tags.now) (found self.old.scopes (tag_name name.now))) }
    {
        let tag = tag_name(self.alloc, name)?;
        match self.scopes.find(tag.as_slice()) {
            Some(Named::Tag { ty }) => same_sort(line, sort, ty),
            Some(_) => refused(TypeKind::DeclaredTwice, line),
            None => self.new_tag(tags, line, sort, name, tag.as_slice()),
        }
    }

    /// An enum by its name: its type is int (C99 6.7.2.2).
    fn enum_named(&self, line: Line, name: &[u8]) -> Result<CType, TypeError>
        ensures { (context : Context) → Meets (λ ty. (context, plain ty)) result
            (rules.enum_named line context (found self.now.scopes (tag_name name.now))) }
    {
        let tag = tag_name(self.alloc, name)?;
        match self.scopes.find(tag.as_slice()) {
            Some(
                Named::Tag {
                    ty: CType::Int(int),
                },
            ) => Ok(CType::Int(*int)),
            Some(Named::Tag { .. }) => refused(TypeKind::DeclaredTwice, line),
            _ => refused(TypeKind::Undeclared, line),
        }
    }

    /// The name of a type; `size_t` is the first of the built-in names.
    fn type_named(&self, line: Line, name: &[u8]) -> Result<LayeredType, TypeError>
        ensures { (context : Context) → Meets (λ type. (context, type)) result
            (rules.type_named line context (found self.now.scopes name.now)) }
    {
        match self.scopes.find(name) {
            Some(Named::Typedef { ty }) => Ok(ty.copied()),
            Some(Named::BuiltIn { index: 0 }) => Ok(LayeredType::of(CType::Int(IntType::UInt))),
            _ => refused(TypeKind::Undeclared, line),
        }
    }

    /// A tag without braces at a line.
    #[tactic(auto, unfolding(c_tree::specs::View::tag_tree))]
    fn tag_type(&mut self, tags: &Tags, line: Line, kind: &TagKind) -> Result<CType, TypeError>
        ensures { (at : ℕ) → Walks plain (context_of self.new tags.now) result
            (rules.special_type at (tag_tree kind.now line) (context_of self.old tags.now)) }
    {
        match kind {
            TagKind::Record(sort, name) => self.tag_named(tags, line, *sort, name.as_slice()),
            TagKind::Enum(name) => self.enum_named(line, name.as_slice()),
            TagKind::RecordBody(_, _, _) => refused(TypeKind::LeftOut, line),
            TagKind::EnumBody(_, _, _) => refused(TypeKind::LeftOut, line),
        }
    }

    /// A tag without braces, or the name of a type (C99 6.7.2).
    #[tactic(auto, unfolding(c_tree::specs::View::spec_tree))]
    pub fn special_type(
        &mut self,
        tags: &Tags,
        line: Line,
        word: &Spec,
    ) -> Result<LayeredType, TypeError>
        ensures { Walks (λ type. type) (context_of self.new tags.now) result
            (rules.special_type line (spec_tree word.now) (context_of self.old tags.now)) }
    {
        match word {
            Spec::Named(name) => self.type_named(line, name.as_slice()),
            Spec::Tag(tag) => {
                let ty = self.tag_type(tags, tag.line, &tag.kind)?;
                Ok(LayeredType::of(ty))
            }
            Spec::Static
            | Spec::Extern
            | Spec::Typedef
            | Spec::Const
            | Spec::Void
            | Spec::Char
            | Spec::Short
            | Spec::Int
            | Spec::Long
            | Spec::Signed
            | Spec::Unsigned => refused(TypeKind::LeftOut, line),
        }
    }

    /// The type of specs.
    pub(crate) fn specs_type(
        &mut self,
        tags: &Tags,
        specs: &Specs,
    ) -> Result<LayeredType, TypeError>
        ensures { Walks (λ type. type) (context_of self.new tags.now) result
            (rules.specs_type specs.now.line (trees spec_tree specs.now.words.items) (trees spec_tree specs.now.words.items)
            (context_of self.old tags.now)) }
    {
        match special_word(&specs.words) {
            Some(word) => self.special_type(tags, specs.line, word),
            None => Ok(word_type(&specs.words)),
        }
    }

    /// A parameter of a function type, declared in its scope (C99 6.7.5.3).
    pub(crate) fn declared_param(
        &mut self,
        tags: &Tags,
        line: Line,
        name: Option<&Items<u8>>,
        ty: CType,
    ) -> Result<CType, TypeError>
        ensures { Walks plain (context_of self.new tags.now) result
            (rules.declared_param line (context_of self.old tags.now) (option_copied name.entry) (plain ty)) }
    {
        if is_void(&ty) {
            return refused(TypeKind::Incomplete, line);
        }
        if is_record(&ty) || is_function(&ty) {
            return refused(TypeKind::LeftOut, line);
        }
        if let Some(name) = name {
            let named = Named::Register { ty, index: 0 };
            self.scopes.declare(line, name.as_slice(), named)?;
        }
        Ok(ty)
    }
}
