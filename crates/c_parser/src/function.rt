//! Declarators of functions (C99 6.7.5.3 and 6.9.1).

ghost use Rattle.std.specs.Prelude.{◌≡◌, is_some};
ghost use Rattle.c_tree.specs.Scopes.{params_of, suffix_params};
ghost use Rattle.c_tree.specs.Tree.{none, ◌▹◌};
ghost use Rattle.c_tree.specs.View.{declarator_tree};
ghost use Rattle.c_tree.specs.StatementView.{suffixes_view};

use c_tree::{Base, Declarator, Suffix, SuffixKind};

/// Says whether what stands next to the name of a declarator is a parameter list.
#[tactic(auto, using(crate::proofs::Functions::pointer_params, crate::proofs::Functions::nothing_params, crate::proofs::Functions::parens_params, c_tree::specs::ViewEquations::direct_tree), unfolding(c_tree::specs::View::declarator_tree, c_tree::specs::View::base_tree))]
pub fn is_function(declarator: &Declarator) -> bool
    ensures { result ≡ is_some (params_of (declarator_tree declarator.now)) }
{
    match declarator {
        Declarator::Pointer(_, _, target) => is_function(target),
        Declarator::Direct(base, suffixes) => match base {
            Base::Nothing => false,
            Base::Name(_) => begins_with_params(suffixes),
            Base::Parens(_, inner) => is_function(inner),
        },
    }
}

/// Says whether the first of these suffixes is a parameter list.
#[tactic(auto, unfolding(c_tree::specs::Scopes::suffix_params, c_tree::specs::View::suffix_tree))]
fn begins_with_params(suffixes: &[Suffix]) -> bool
    ensures { result ≡ is_some (suffix_params (suffixes_view suffixes.now ▹ none)) }
{
    match suffixes {
        [] => false,
        [first, ..] => match first.kind {
            SuffixKind::Array(_) => false,
            SuffixKind::Void | SuffixKind::Params(_) => true,
        },
    }
}
