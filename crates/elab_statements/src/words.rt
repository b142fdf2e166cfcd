//! What the words of a declaration say beside its type (C99 6.7.1, 6.7.2.3).

ghost use Rattle.std.specs.Prelude.{◌≡◌, Some, IfOk, option_copied};
ghost use Rattle.std.specs.List.{list_any};
ghost use Rattle.c_types.specs.Types.{plain};
ghost use Rattle.c_tree.specs.Scopes.{has_typedef};
ghost use Rattle.c_tree.specs.StatementView.{trees, specs_view, entry_view};
ghost use Rattle.c_tree.specs.View.{spec_tree, tag_tree};
ghost use Rattle.c_decls.specs.ScopeList.{named_in, innermost, tag_name};
ghost use Rattle.c_decls.specs.TypeNames.{has, tag_named};
ghost use Rattle.c_typing.specs.SpecWords.{keyword, passes};
ghost use Rattle.elaboration.specs.Context.{asked};
ghost use Rattle.elaboration.specs.Declarations as rules;
ghost use Rattle.elaboration.specs.Declarators.{with_type};
ghost use Rattle.elab_statements.specs.Alone.{lone_tag, is_typedef_word, is_no_tag, is_of_sort};
ghost use Rattle.elab_statements.specs.PlainStorage.{plain_storage};
ghost use Rattle.elab_base.specs.Outcomes.{Gives, Types};
ghost use Rattle.c_decls.specs.Refusals.{Meets};
ghost use Rattle.elab_statements.specs.Declaring.{has_no_tag, specs_before, tag_here};

use c_decls::{LayeredType, Named, TypeError, TypeKind, refused, tag_name};
use c_tree::{Declarator, Init, RecordSort, Spec, Specs, Tag, TagKind};
use c_types::CType;
use elab_base::Elaborator;
use elab_types::specs;
use hs_base::{Line, NoMemory};

/// A declaration of names: of types, with `static` or `extern`, or without these.
#[derive(Clone, Copy)]
pub(crate) enum Storage {
    Typedef,
    Outside,
    Plain,
}

/// Whether a word is `static` or `extern`.
fn is_outside(word: &Spec) -> bool
    ensures { result ≡ passes rules.is_outside_word (keyword word.now) }
{
    matches!(word, Spec::Static | Spec::Extern)
}

/// Whether one of some words is `static` or `extern`.
fn any_outside(words: &[Spec]) -> bool
    ensures { result ≡ list_any (λ word. passes rules.is_outside_word (keyword word)) words.now }
{
    words.iter().any(|word| is_outside(word))
}

/// Whether `static` or `extern` stands among words.
fn has_outside(words: &[Spec]) -> bool
    ensures { result ≡ has rules.is_outside_word (trees spec_tree words.now) }
{
    any_outside(words)
}

/// Whether a word is `typedef`.
fn is_typedef(word: &Spec) -> bool
    ensures { result ≡ passes is_typedef_word (keyword word.now) }
{
    matches!(word, Spec::Typedef)
}

/// Whether one of some words is `typedef`.
fn any_typedef(words: &[Spec]) -> bool
    ensures { result ≡ list_any (λ word. passes is_typedef_word (keyword word)) words.now }
{
    words.iter().any(|word| is_typedef(word))
}

/// Whether `typedef` stands among words.
fn has_typedef(words: &[Spec]) -> bool
    ensures { result ≡ has_typedef (trees spec_tree words.now) }
{
    any_typedef(words)
}

/// What a declaration with these words is of.
pub(crate) fn storage_of(words: &Specs) -> Storage
    ensures { plain_storage result ≡ rules.storage_of (specs_view words.now) }
{
    if has_typedef(&words.words) {
        Storage::Typedef
    } else if has_outside(&words.words) {
        Storage::Outside
    } else {
        Storage::Plain
    }
}

/// Whether the innermost scope has anything but a tag under the name of a tag.
fn has_no_tag(state: &Elaborator, name: &[u8]) -> Result<bool, NoMemory>
    ensures { IfOk result (λ other. other ≡ has_no_tag name.now state.now) }
{
    let tag = tag_name(state.alloc(), name)?;
    match state.scopes().find_innermost(tag.as_slice()) {
        None | Some(Named::Tag { .. }) => Ok(false),
        Some(
            Named::Object { .. }
            | Named::Register { .. }
            | Named::Function { .. }
            | Named::Typedef { .. }
            | Named::Constant { .. }
            | Named::BuiltIn { .. },
        ) => Ok(true),
    }
}

/// Whether a type is a struct.
fn is_struct(ty: &CType) -> bool
    ensures { result ≡ is_of_sort RecordSort.Struct (plain ty.now) }
{
    match ty {
        CType::Struct(_) => true,
        CType::Void
        | CType::Int(_)
        | CType::Pointer(_)
        | CType::Array(_, _)
        | CType::Union(_)
        | CType::Function(_) => false,
    }
}

/// Whether a type is a union.
fn is_union(ty: &CType) -> bool
    ensures { result ≡ is_of_sort RecordSort.Union (plain ty.now) }
{
    match ty {
        CType::Union(_) => true,
        CType::Void
        | CType::Int(_)
        | CType::Pointer(_)
        | CType::Array(_, _)
        | CType::Struct(_)
        | CType::Function(_) => false,
    }
}

/// Whether a type is a struct or union of that sort.
fn is_of_sort(sort: RecordSort, ty: &CType) -> bool
    ensures { result ≡ is_of_sort sort (plain ty.now) }
{
    match sort {
        RecordSort::Struct => is_struct(ty),
        RecordSort::Union => is_union(ty),
    }
}

/// A struct or union by its name in the innermost scope alone; one that is not there is declared there.
#[tactic(auto, using(crate::proofs::SpecWords::tag_by_begin, crate::proofs::SpecWords::tag_other))]
fn tag_here(
    state: &mut Elaborator,
    line: Line,
    sort: RecordSort,
    name: &[u8],
) -> Result<CType, TypeError>
    ensures { Types state.new result (tag_here line sort name.now state.old) }
{
    if has_no_tag(state, name)? {
        return refused(TypeKind::DeclaredTwice, line);
    }
    let ty = state.begin_record(sort, Some(name))?;
    if is_of_sort(sort, &ty) {
        Ok(ty)
    } else {
        refused(TypeKind::DeclaredTwice, line)
    }
}

/// The tag that is the only one of some words.
fn lone_tag(words: &[Spec]) -> Option<&Tag>
    ensures { option_copied result ≡ lone_tag words.now }
{
    if words.len() == 1 {
        if let Spec::Tag(tag) = &words[0] {
            return Some(tag);
        }
    }
    None
}

/// The type of specs that are one tag: `struct s;` alone declares the tag in its scope, whatever stands outside.
#[tactic(auto, using(crate::proofs::SpecWords::alone_record, crate::proofs::SpecWords::alone_body, crate::proofs::SpecWords::alone_enum, crate::proofs::SpecWords::alone_enum_body))]
fn tag_alone(state: &mut Elaborator, words: &Specs, tag: &Tag) -> Result<LayeredType, TypeError>
    requires { lone_tag words.now.words.items ≡ Some tag.now }
    ensures { Gives state.new result (rules.specs_alone (specs_view words.now) state.old) }
{
    match &tag.kind {
        TagKind::Record(sort, name) => {
            let ty = tag_here(state, tag.line, *sort, name.as_slice())?;
            Ok(LayeredType::of(ty))
        }
        TagKind::RecordBody(_, _, _) => specs(state, words),
        TagKind::Enum(_) => specs(state, words),
        TagKind::EnumBody(_, _, _) => specs(state, words),
    }
}

/// The type of specs without names.
#[tactic(auto, using(crate::proofs::SpecWords::none_alone))]
fn specs_alone(state: &mut Elaborator, words: &Specs) -> Result<LayeredType, TypeError>
    ensures { Gives state.new result (rules.specs_alone (specs_view words.now) state.old) }
{
    match lone_tag(&words.words) {
        Some(tag) => tag_alone(state, words, tag),
        None => specs(state, words),
    }
}

/// The type of the specs of a declaration of names, or of specs alone.
#[tactic(auto, using(crate::proofs::Entries::specs_none, crate::proofs::Entries::specs_some))]
pub(crate) fn specs_before(
    state: &mut Elaborator,
    words: &Specs,
    names: &[(Declarator, Option<Init>)],
) -> Result<LayeredType, TypeError>
    ensures { Gives state.new result (specs_before words.now names.now state.old) }
{
    if names.len() == 0 {
        specs_alone(state, words)
    } else {
        specs(state, words)
    }
}
