//! What stands among the words of specs (C99 6.7.1).

ghost use Rattle.std.specs.Prelude.{◌≡◌};
ghost use Rattle.c_tree.specs.Scopes.{has_typedef};
ghost use Rattle.c_tree.specs.StatementView.{trees};
ghost use Rattle.c_tree.specs.View.{spec_tree};
ghost use Rattle.c_tree.specs.SpecWords.{has_static, is_static_spec, is_typedef_spec};

use crate::tree::{Spec, Specs};

impl Specs {
    /// Whether `typedef` is one of the words.
    pub fn has_typedef(&self) -> bool
        ensures { result ≡ has_typedef (trees spec_tree self.now.words.items) }
    {
        has_typedef(&self.words)
    }

    /// Whether `static` is one of the words.
    pub fn has_static(&self) -> bool
        ensures { result ≡ has_static (trees spec_tree self.now.words.items) }
    {
        has_static(&self.words)
    }
}

/// Whether a word of specs is `typedef`.
fn is_typedef(word: &Spec) -> bool
    ensures { result ≡ is_typedef_spec word.now }
{
    match word {
        Spec::Typedef => true,
        _ => false,
    }
}

/// Whether `typedef` is one of the words of specs.
#[tactic(auto, using(crate::proofs::SpecWords::typedef_next, crate::proofs::SpecWords::typedef_found, crate::proofs::SpecWords::typedef_end))]
fn has_typedef(list: &[Spec]) -> bool
    ensures { result ≡ has_typedef (trees spec_tree list.now) }
{
    for word in list {
        if is_typedef(word) {
            return true;
        }
    }
    false
}

/// Whether a word of specs is `static`.
fn is_static(word: &Spec) -> bool
    ensures { result ≡ is_static_spec word.now }
{
    match word {
        Spec::Static => true,
        _ => false,
    }
}

/// Whether `static` is one of the words of specs.
#[tactic(auto, using(crate::proofs::SpecWords::static_next, crate::proofs::SpecWords::static_found, crate::proofs::SpecWords::static_end))]
fn has_static(list: &[Spec]) -> bool
    ensures { result ≡ has_static (trees spec_tree list.now) }
{
    for word in list {
        if is_static(word) {
            return true;
        }
    }
    false
}
