//! Specs, tags, declarators and initializers, made of their parts.
#![tactic(auto, unfolding(crate::specs::View::spec_tree, crate::specs::View::tag_tree, crate::specs::View::enumerator_tree, crate::specs::View::declarator_tree, crate::specs::View::base_tree, crate::specs::View::suffix_tree, crate::specs::View::held_trees, crate::specs::Grammar::keyword_home))]

ghost use Rattle.std.specs.Prelude.{◌≡◌, IfOk, IfSome, IsNone, option_map};
ghost use Rattle.c_tree.specs.Forms as form;
ghost use Rattle.c_tree.specs.Places.{Nowhere};
ghost use Rattle.c_tree.specs.Grammar.{keyword_home};
ghost use Rattle.c_tree.specs.Tree.{At, Node, none, ◌▹◌};
ghost use Rattle.c_tree.specs.View.{name_leaf, spec_tree, declarator_tree, base_tree};
ghost use Rattle.c_tree.specs.StatementView.{maybe_value, maybe_length, tag_view, record_body_view, enum_body_view, suffix_view, function_suffix_view, pointer_view, parens_view, direct_view};
ghost use Rattle.c_tree.specs.Made.{IsSpecWord, MakesNode, MakesEnumerator};

use crate::operator::RecordSort;
use crate::tree::{
    Base, Declarator, Enumerator, Expr, Member, Param, Spec, Suffix, SuffixKind, Tag, TagKind,
};
use crate::word::Keyword;
use hs_base::{Items, Line, NoMemory};
use std::alloc::Global;

/// An expression, where there is one, in a box.
fn boxed(alloc: Global, value: Option<Expr>) -> Result<Option<Box<Expr>>, NoMemory>
    ensures { IfOk result (λ boxed. option_map (λ b. b.value) boxed ≡ value) }
{
    match value {
        Some(value) => Ok(Some(Box::new(alloc, value)?)),
        None => Ok(None),
    }
}

impl Spec {
    /// The word of specs that a keyword is, or `None` where it is none.
    pub fn of_keyword(keyword: Keyword) -> Option<Spec>
        ensures some { IfSome result (IsSpecWord keyword) }
        ensures none { IsNone result → keyword_home keyword ≡ Nowhere }
    {
        match keyword {
            Keyword::Static => Some(Spec::Static),
            Keyword::Extern => Some(Spec::Extern),
            Keyword::Typedef => Some(Spec::Typedef),
            Keyword::Const => Some(Spec::Const),
            Keyword::Void => Some(Spec::Void),
            Keyword::Char => Some(Spec::Char),
            Keyword::Short => Some(Spec::Short),
            Keyword::Int => Some(Spec::Int),
            Keyword::Long => Some(Spec::Long),
            Keyword::Signed => Some(Spec::Signed),
            Keyword::Unsigned => Some(Spec::Unsigned),
            Keyword::Struct
            | Keyword::Union
            | Keyword::Enum
            | Keyword::DelayFrees
            | Keyword::If
            | Keyword::Else
            | Keyword::While
            | Keyword::Do
            | Keyword::For
            | Keyword::Switch
            | Keyword::Case
            | Keyword::Default
            | Keyword::Break
            | Keyword::Continue
            | Keyword::Return
            | Keyword::Sizeof => None,
        }
    }

    /// The name of a type.
    pub fn named(name: Items<u8>) -> Spec
        ensures { spec_tree result ≡ Node form.TypedefName (name_leaf name ▹ none) }
    {
        Spec::Named(name)
    }

    /// A tag.
    pub fn tag(tag: Tag) -> Spec
        ensures { spec_tree result ≡ tag_view tag }
    {
        Spec::Tag(tag)
    }
}

impl Tag {
    /// `struct name` or `union name`
    pub fn record(line: Line, sort: RecordSort, name: Items<u8>) -> Tag
        ensures { tag_view result ≡ Node (form.RecordTag sort) (At line ▹ name_leaf name ▹ none) }
    {
        Tag {
            line,
            kind: TagKind::Record(sort, name),
        }
    }

    /// A struct or union with its members.
    #[tactic(auto, using(crate::specs::ViewEquations::record_body_tree))]
    pub fn record_body(
        line: Line,
        sort: RecordSort,
        name: Option<Items<u8>>,
        members: Vec<Member>,
    ) -> Tag
        ensures { tag_view result ≡ record_body_view line sort name members.items }
    {
        Tag {
            line,
            kind: TagKind::RecordBody(sort, name, members),
        }
    }

    /// `enum name`
    pub fn enumeration(line: Line, name: Items<u8>) -> Tag
        ensures { tag_view result ≡ Node form.EnumTag (At line ▹ name_leaf name ▹ none) }
    {
        Tag {
            line,
            kind: TagKind::Enum(name),
        }
    }

    /// An enum with its enumerators, behind which a comma may stand.
    #[tactic(auto, using(crate::specs::ViewEquations::enum_body_tree))]
    pub fn enum_body(
        line: Line,
        name: Option<Items<u8>>,
        enumerators: Vec<Enumerator>,
        trailing: bool,
    ) -> Tag
        ensures { tag_view result ≡ enum_body_view line name enumerators.items trailing }
    {
        Tag {
            line,
            kind: TagKind::EnumBody(name, enumerators, trailing),
        }
    }
}

impl Enumerator {
    /// An enumerator with its value, where one is given.
    #[tactic(auto, using(crate::specs::ViewEquations::enumerator_value_tree))]
    pub fn new(
        alloc: Global,
        line: Line,
        name: Items<u8>,
        value: Option<Expr>,
    ) -> Result<Enumerator, NoMemory>
        ensures { MakesEnumerator result line (name_leaf name ▹ maybe_value value ▹ none) }
    {
        Ok(Enumerator {
            line,
            name,
            value: boxed(alloc, value)?,
        })
    }
}

impl Declarator {
    /// `*` with so many `const` behind it, before a declarator.
    pub fn pointer(
        alloc: Global,
        line: Line,
        consts: usize,
        target: Declarator,
    ) -> Result<Declarator, NoMemory>
        ensures { IfOk result (λ d. declarator_tree d ≡ pointer_view line consts target) }
    {
        Ok(Declarator::Pointer(line, consts, Box::new(alloc, target)?))
    }

    /// What suffixes stand behind, and the suffixes.
    #[tactic(auto, using(crate::specs::ViewEquations::direct_tree))]
    pub fn direct(base: Base, suffixes: Vec<Suffix>) -> Declarator
        ensures { declarator_tree result ≡ direct_view base suffixes.items }
    {
        Declarator::Direct(base, suffixes)
    }
}

impl Base {
    /// The name is left out.
    pub fn nothing() -> Base
        ensures { base_tree result ≡ Node form.Nothing none }
    {
        Base::Nothing
    }

    /// A name.
    pub fn name(name: Items<u8>) -> Base
        ensures { base_tree result ≡ name_leaf name }
    {
        Base::Name(name)
    }

    /// Parentheses around a declarator.
    pub fn parens(alloc: Global, line: Line, declarator: Declarator) -> Result<Base, NoMemory>
        ensures { IfOk result (λ b. base_tree b ≡ parens_view line declarator) }
    {
        Ok(Base::Parens(line, Box::new(alloc, declarator)?))
    }
}

impl Suffix {
    /// `[length]`, where the length may be left out.
    #[tactic(auto, using(crate::specs::ViewEquations::array_tree))]
    pub fn array(alloc: Global, line: Line, length: Option<Expr>) -> Result<Suffix, NoMemory>
        ensures { MakesNode suffix_view result line form.ArraySuffix (maybe_length length ▹ none) }
    {
        Ok(Suffix {
            line,
            kind: SuffixKind::Array(boxed(alloc, length)?),
        })
    }

    /// `(void)`
    pub fn void(line: Line) -> Suffix
        ensures { suffix_view result ≡ Node form.VoidSuffix (At line ▹ none) }
    {
        Suffix {
            line,
            kind: SuffixKind::Void,
        }
    }

    /// `(params)`
    #[tactic(auto, using(crate::specs::ViewEquations::params_tree))]
    pub fn params(line: Line, params: Vec<Param>) -> Suffix
        ensures { suffix_view result ≡ function_suffix_view line params.items }
    {
        Suffix {
            line,
            kind: SuffixKind::Params(params),
        }
    }
}
