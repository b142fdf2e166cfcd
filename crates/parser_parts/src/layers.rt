//! Declarators, made of their layers.
#![tactic(auto, unfolding(c_tree::specs::Depth::below, c_tree::specs::Depth::layers, c_tree::specs::Depth::layers_all, c_tree::specs::Depth::greatest_depth, c_tree::specs::Depth::greatest_below, c_tree::specs::Depth::is_of_declarator, c_tree::specs::Depth::layer, c_tree::specs::Scopes::name_of, c_tree::specs::Scopes::name_among, c_tree::specs::Scopes::leads_to_name, c_tree::specs::Scopes::params_of, c_tree::specs::Scopes::params_among, c_tree::specs::Scopes::suffix_params))]

ghost use Rattle.std.specs.Prelude.{◌≡◌, ◌<◌, ◌+◌, ◌^◌, max, [], IfOk};
ghost use Rattle.c_tree.specs.View.{declarator_tree, base_tree};
ghost use Rattle.c_tree.specs.StatementView.{suffix_view, pointer_view, parens_view, direct_view};
ghost use Rattle.parser_parts.specs.Trees.{Adds, suffixes_of, declarators_of, whole_depth};

use crate::deep::{DeepBase, DeepDeclarator, DeepDeclarators, DeepSuffix, DeepSuffixes};
use c_tree::{Base, Declarator};
use hs_base::{Line, NoMemory};
use std::alloc::Global;

impl<'a> DeepDeclarator<'a> {
    /// Behind `*` and so many `const`.
    pub fn pointed(
        self,
        alloc: Global,
        line: Line,
        consts: usize,
    ) -> Result<DeepDeclarator<'a>, NoMemory>
        requires { self.layers < 1000 }
        ensures { IfOk result (λ d. declarator_tree d.tree ≡ pointer_view line consts self.entry.tree) }
    {
        let tree = Declarator::pointer(alloc, line, consts, self.tree)?;
        Ok(DeepDeclarator {
            tree,
            layers: self.layers + 1,
            inside: self.inside,
            name: self.name,
            is_function: self.is_function,
        })
    }

    /// In parentheses.
    pub fn in_parens(self, alloc: Global, line: Line) -> Result<DeepBase<'a>, NoMemory>
        requires { self.layers < 1000 }
        ensures { IfOk result (λ b. base_tree b.tree ≡ parens_view line self.entry.tree) }
    {
        let tree = Base::parens(alloc, line, self.tree)?;
        Ok(DeepBase {
            tree,
            layers: self.layers + 1,
            inside: self.inside,
            name: self.name,
            is_function: self.is_function,
            is_name: false,
        })
    }
}

impl<'a> DeepBase<'a> {
    /// With suffixes behind.
    pub fn with_suffixes(self, suffixes: DeepSuffixes) -> DeepDeclarator<'a>
        requires { self.layers + suffixes.layers < 2 ^ 64 }
        ensures tree { declarator_tree result.tree ≡ direct_view self.entry.tree suffixes.list.items }
        ensures layers { result.layers ≡ self.entry.layers + suffixes.layers }
    {
        let is_function = if self.is_name {
            suffixes.is_function
        } else {
            self.is_function
        };
        DeepDeclarator {
            tree: Declarator::direct(self.tree, suffixes.list),
            layers: self.layers + suffixes.layers,
            inside: self.inside.max(suffixes.inside),
            name: self.name,
            is_function,
        }
    }
}

impl DeepSuffixes {
    /// No suffixes yet.
    pub fn none(alloc: Global) -> DeepSuffixes
        ensures list { result.list.items ≡ [] }
        ensures layers { result.layers ≡ 0 }
        ensures inside { result.inside ≡ 0 }
    {
        DeepSuffixes {
            list: Vec::new(alloc),
            layers: 0,
            inside: 0,
            is_function: false,
        }
    }

    /// With one suffix more.
    #[tactic(auto, using(crate::specs::TreesEquations::trees_behind, crate::proofs::Parts::layers_behind, crate::proofs::Parts::below_behind, crate::proofs::Parts::behind_some, crate::proofs::Parts::behind_none), unfolding(c_tree::specs::Depth::below, c_tree::specs::Depth::layers, c_tree::specs::Depth::layers_all, c_tree::specs::Depth::greatest_depth, c_tree::specs::Depth::greatest_below, c_tree::specs::Depth::is_of_declarator, c_tree::specs::Depth::layer, c_tree::specs::Scopes::name_of, c_tree::specs::Scopes::name_among, c_tree::specs::Scopes::leads_to_name, c_tree::specs::Scopes::params_of, c_tree::specs::Scopes::params_among))]
    pub fn with(self, suffix: DeepSuffix) -> Result<DeepSuffixes, NoMemory>
        requires { self.layers + 1 < 2 ^ 64 }
        ensures list { Adds suffixes_of result self (suffix_view suffix.tree) }
        ensures layers { IfOk result (λ x. x.layers ≡ self.layers + 1) }
        ensures inside { IfOk result (λ x. x.inside ≡ max self.inside suffix.inside) }
    {
        let mut list = self.list;
        let layers = self.layers + 1;
        let inside = self.inside.max(suffix.inside);
        if list.is_empty() {
            list.push(suffix.tree)?;
            return Ok(DeepSuffixes {
                list,
                layers,
                inside,
                is_function: suffix.is_function,
            });
        }
        list.push(suffix.tree)?;
        Ok(DeepSuffixes {
            list,
            layers,
            inside,
            is_function: self.is_function,
        })
    }
}

impl DeepDeclarators {
    /// No declarators yet.
    pub fn none(alloc: Global) -> DeepDeclarators
        ensures list { result.list.items ≡ [] }
        ensures depth { result.depth ≡ 0 }
    {
        DeepDeclarators {
            list: Vec::new(alloc),
            depth: 0,
        }
    }

    /// With one declarator more.
    #[tactic(auto, using(crate::specs::TreesEquations::trees_behind, crate::proofs::Parts::depth_behind))]
    pub fn with(self, next: DeepDeclarator) -> Result<DeepDeclarators, NoMemory>
        requires { next.layers + next.inside < 2 ^ 64 }
        ensures list { Adds declarators_of result self (declarator_tree next.entry.tree) }
        ensures depth { IfOk result (λ x. x.depth ≡ max self.depth (whole_depth next.entry)) }
    {
        let mut list = self.list;
        let depth = self.depth.max(next.layers + next.inside);
        list.push(next.tree)?;
        Ok(DeepDeclarators { list, depth })
    }
}
