//! Sorts of declarators, and the words of tags.

ghost use Rattle.std.specs.Prelude.{◌≡◌};
ghost use Rattle.c_tree.specs.Operators as tree;

use c_tree::{Keyword, RecordSort};

/// Whether a declarator has a name.
#[derive(Clone, Copy, Debug, PartialEq, Eq)]
pub enum NameSort {
    Named,
    Abstract,
    Either,
}

/// The word before the tag of a struct or a union.
#[tactic(auto, unfolding(c_tree::specs::Operators::record_word))]
pub fn record_word(sort: RecordSort) -> Keyword
    ensures { result ≡ tree.record_word sort }
{
    match sort {
        RecordSort::Struct => Keyword::Struct,
        RecordSort::Union => Keyword::Union,
    }
}
