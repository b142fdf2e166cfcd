//! Declarators by their names, and the parameters of functions that are defined.

ghost use Rattle.std.specs.Prelude.{◌≡◌, ℕ, [], option_copied, OnOk};
ghost use Rattle.c_tree.specs.Scopes.{name_of};
ghost use Rattle.c_tree.specs.StatementView.{trees, suffix_view, direct_view};
ghost use Rattle.c_tree.specs.View.{declarator_tree, base_tree, suffix_tree};
ghost use Rattle.c_units.specs.Externals.{with_name, with_params};
ghost use Rattle.c_units.specs.Turns.{kind_params};
ghost use Rattle.c_units.specs.Rewriting.{RewritesName, RewritesDeclaratorName, list_params, behind_params};

use crate::names::Binding;
use crate::walk::Walk;
use c_tree::{Base, Declarator, Suffix, SuffixKind};
use hs_base::{Items, NoMemory};

/// The name of a declarator, which may be left out.
#[cycle(declared)]
#[tactic(auto, unfolding(c_tree::specs::View::declarator_tree, c_tree::specs::View::base_tree, c_tree::specs::Scopes::name_of, c_tree::specs::Scopes::name_among, c_tree::specs::Scopes::leads_to_name))]
pub(crate) fn declared_name(declarator: &Declarator) -> Option<&Items<u8>>
    ensures { option_copied result ≡ name_of (declarator_tree declarator.now) }
{
    match declarator {
        Declarator::Pointer(_, _, target) => declared_name(target),
        Declarator::Direct(base, _) => base_name(base),
    }
}

/// The name that suffixes stand behind, which may be left out.
#[cycle(declared)]
#[tactic(auto, unfolding(c_tree::specs::View::declarator_tree, c_tree::specs::View::base_tree, c_tree::specs::Scopes::name_of, c_tree::specs::Scopes::name_among, c_tree::specs::Scopes::leads_to_name))]
fn base_name(base: &Base) -> Option<&Items<u8>>
    ensures { option_copied result ≡ name_of (base_tree base.now) }
{
    match base {
        Base::Nothing => None,
        Base::Name(name) => Some(name),
        Base::Parens(_, declarator) => declared_name(declarator),
    }
}

impl Walk {
    /// Declares the parameters of a function that is defined: those of the layer next to its name. Without a suffix this renames
    /// nothing.
    #[cycle(parameters)]
    #[tactic(auto, unfolding(c_tree::specs::View::declarator_tree), using(crate::proofs::DefinedParams::pointer_params, crate::proofs::DefinedParams::direct_params))]
    pub(crate) fn defined_params(&mut self, declarator: &mut Declarator) -> Result<(), NoMemory>
        requires { self.old.suffix ≡ [] }
        ensures same { OnOk result (declarator_tree declarator.new ≡ declarator_tree declarator.old) }
        ensures names { OnOk result (self.new ≡ behind_params (declarator_tree declarator.old) self.old) }
    {
        match declarator {
            Declarator::Pointer(_, _, target) => self.defined_params(target),
            Declarator::Direct(base, list) => self.base_params(base, list),
        }
    }

    /// The same of what suffixes stand behind, and these suffixes.
    #[cycle(parameters)]
    #[tactic(auto, unfolding(c_tree::specs::View::base_tree), using(crate::proofs::DefinedParams::nothing_params, crate::proofs::DefinedParams::name_params, crate::proofs::DefinedParams::parens_params))]
    fn base_params(&mut self, base: &mut Base, list: &mut [Suffix]) -> Result<(), NoMemory>
        requires { self.old.suffix ≡ [] }
        ensures base { OnOk result (base_tree base.new ≡ base_tree base.old) }
        ensures list { OnOk result (trees suffix_view list.new ≡ trees suffix_view list.old) }
        ensures names { OnOk result (self.new ≡ behind_params (direct_view base.old list.old) self.old) }
    {
        match base {
            Base::Nothing => Ok(()),
            Base::Name(_) => self.first_params(list),
            Base::Parens(_, declarator) => self.defined_params(declarator),
        }
    }

    /// The parameters of the first of some suffixes.
    #[tactic(auto, using(crate::proofs::DefinedParams::first_is, crate::proofs::DefinedParams::first_same, crate::proofs::DefinedParams::none_is))]
    fn first_params(&mut self, list: &mut [Suffix]) -> Result<(), NoMemory>
        requires { self.old.suffix ≡ [] }
        ensures same { OnOk result (trees suffix_view list.new ≡ trees suffix_view list.old) }
        ensures names { OnOk result (self.new ≡ with_params (list_params list.old) self.old) }
    {
        if list.len() > 0 {
            return self.kind_params(&mut list[0].kind);
        }
        Ok(())
    }

    /// The parameters of a suffix of that kind, if it has some.
    #[tactic(auto, using(crate::proofs::DefinedParams::array_params, crate::proofs::DefinedParams::void_params, crate::proofs::DefinedParams::list_params))]
    fn kind_params(&mut self, kind: &mut SuffixKind) -> Result<(), NoMemory>
        requires { self.old.suffix ≡ [] }
        ensures same { (line : ℕ) → OnOk result (suffix_tree kind.new line ≡ suffix_tree kind.old line) }
        ensures names { OnOk result (self.new ≡ with_params (kind_params kind.old) self.old) }
    {
        match kind {
            SuffixKind::Array(_) | SuffixKind::Void => Ok(()),
            SuffixKind::Params(list) => self.params(list),
        }
    }

    /// Gives a declarator, the name of which is bound so, the name that it has in the program.
    #[cycle(named)]
    #[tactic(auto, unfolding(c_tree::specs::View::declarator_tree, crate::specs::Externals::with_name, crate::specs::Externals::all_with_name, c_tree::specs::Scopes::name_of, c_tree::specs::Scopes::name_among, c_tree::specs::Scopes::leads_to_name), using(crate::proofs::FileNames::first_alone))]
    pub(crate) fn rename_declared(
        &self,
        binding: Binding,
        declarator: &mut Declarator,
    ) -> Result<(), NoMemory>
        ensures { RewritesDeclaratorName binding self.now.suffix declarator.old declarator.new result }
    {
        match declarator {
            Declarator::Pointer(_, _, target) => self.rename_declared(binding, target),
            Declarator::Direct(base, _) => self.rename_base(binding, base),
        }
    }

    /// The same of what suffixes stand behind.
    #[cycle(named)]
    #[tactic(auto, unfolding(c_tree::specs::View::base_tree, crate::specs::Externals::with_name, crate::specs::Externals::all_with_name, c_tree::specs::Scopes::name_of, c_tree::specs::Scopes::name_among, c_tree::specs::Scopes::leads_to_name), using(crate::proofs::FileNames::first_alone))]
    fn rename_base(&self, binding: Binding, base: &mut Base) -> Result<(), NoMemory>
        ensures { RewritesName base_tree binding self.now.suffix base.old base.new result }
    {
        match base {
            Base::Nothing => Ok(()),
            Base::Name(name) => self.rename(binding, name),
            Base::Parens(_, inner) => self.rename_declared(binding, inner),
        }
    }
}
