//! The words of specs, and a tally of them.

ghost use Rattle.std.specs.Prelude.{◌≡◌, ◌<◌, max, [], IfOk};
ghost use Rattle.c_tree.specs.Forms as form;
ghost use Rattle.c_tree.specs.Depth.{depth as depth_of};
ghost use Rattle.c_tree.specs.Tree.{Node, none, ◌▹◌};
ghost use Rattle.c_tree.specs.View.{spec_tree, key_leaf, name_leaf};
ghost use Rattle.c_tree.specs.StatementView.{tag_view};
ghost use Rattle.grammar_reading.specs.Declarators as spec;
ghost use Rattle.parser_parts.specs.Trees.{Adds, spec_words_of};
ghost use Rattle.grammar_reading.specs.declared.kind.SpecStart.TheVariants as starts;

use crate::deep::{DeepTag, DeepWords};
use c_tree::{Keyword, Spec};
use hs_base::{Items, NoMemory};
use std::alloc::Global;

impl DeepWords {
    /// No words yet.
    #[tactic(auto, unfolding(c_tree::specs::Depth::greatest_depth))]
    pub fn none(alloc: Global) -> DeepWords
        ensures list { result.list.items ≡ [] }
        ensures depth { result.depth ≡ 0 }
    {
        DeepWords {
            list: Vec::new(alloc),
            depth: 0,
        }
    }

    /// With a keyword or a typedef name, which have no depth.
    #[tactic(auto, using(crate::specs::TreesEquations::trees_behind, crate::proofs::Parts::depth_behind))]
    fn with_flat(self, word: Spec) -> Result<DeepWords, NoMemory>
        requires { depth_of (spec_tree word) ≡ 0 }
        ensures list { Adds spec_words_of result self (spec_tree word) }
        ensures depth { IfOk result (λ x. x.depth ≡ self.depth) }
    {
        let mut list = self.list;
        let depth = self.depth;
        list.push(word)?;
        Ok(DeepWords { list, depth })
    }

    /// With a tag.
    #[tactic(auto, using(crate::specs::TreesEquations::trees_behind, crate::proofs::Parts::depth_behind))]
    pub fn with_tag(self, tag: DeepTag) -> Result<DeepWords, NoMemory>
        ensures list { Adds spec_words_of result self (tag_view tag.tree) }
        ensures depth { IfOk result (λ x. x.depth ≡ max self.depth tag.depth) }
    {
        let mut list = self.list;
        let depth = self.depth.max(tag.depth);
        list.push(Spec::tag(tag.tree))?;
        Ok(DeepWords { list, depth })
    }

    /// With a typedef name.
    #[tactic(auto, unfolding(c_tree::specs::Depth::below, c_tree::specs::Depth::layers, c_tree::specs::Depth::greatest_depth, c_tree::specs::Depth::is_of_declarator, c_tree::specs::Depth::weight, c_tree::specs::Grammar::form_home))]
    pub fn with_name(self, name: Items<u8>) -> Result<DeepWords, NoMemory>
        ensures list { Adds spec_words_of result self (Node form.TypedefName (name_leaf name ▹ none)) }
        ensures depth { IfOk result (λ x. x.depth ≡ self.depth) }
    {
        self.with_flat(Spec::named(name))
    }

    /// With a keyword.
    #[tactic(auto, unfolding(c_tree::specs::Depth::below, c_tree::specs::Depth::layers))]
    pub fn with_keyword(self, keyword: Keyword) -> Result<DeepWords, NoMemory>
        requires { spec.spec_key keyword ≡ starts.Word }
        ensures list { Adds spec_words_of result self (key_leaf keyword) }
        ensures depth { IfOk result (λ x. x.depth ≡ self.depth) }
    {
        self.with_flat(key_spec(keyword))
    }
}

/// The word of specs that a keyword is.
#[tactic(auto, unfolding(grammar_reading::specs::Declarators::spec_key, c_tree::specs::View::spec_tree))]
fn key_spec(keyword: Keyword) -> Spec
    requires { spec.spec_key keyword ≡ starts.Word }
    ensures { spec_tree result ≡ key_leaf keyword }
{
    match keyword {
        Keyword::Static => Spec::Static,
        Keyword::Extern => Spec::Extern,
        Keyword::Typedef => Spec::Typedef,
        Keyword::Const => Spec::Const,
        Keyword::Void => Spec::Void,
        Keyword::Char => Spec::Char,
        Keyword::Short => Spec::Short,
        Keyword::Int => Spec::Int,
        Keyword::Long => Spec::Long,
        Keyword::Signed => Spec::Signed,
        Keyword::Unsigned => Spec::Unsigned,
        _ => unreachable!(),
    }
}
