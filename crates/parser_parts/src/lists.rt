//! Lists of trees of the code, with how deep they are.

ghost use Rattle.std.specs.Prelude.{◌≡◌, max, [], IfOk};
ghost use Rattle.c_tree.specs.View.{enumerator_tree};
ghost use Rattle.c_tree.specs.StatementView.{expr_view, member_view, param_view};
ghost use Rattle.parser_parts.specs.Trees.{Adds, arguments_of, members_of, enumerators_of, parameters_of};

use crate::deep::{
    DeepEnumerator, DeepEnumerators, DeepExpr, DeepExprs, DeepMember, DeepMembers, DeepParam,
    DeepParams,
};
use hs_base::NoMemory;
use std::alloc::Global;

impl DeepExprs {
    /// Nothing yet.
    #[tactic(auto, unfolding(c_tree::specs::Depth::greatest_depth))]
    pub fn none(alloc: Global) -> DeepExprs
        ensures list { result.list.items ≡ [] }
        ensures depth { result.depth ≡ 0 }
    {
        DeepExprs {
            list: Vec::new(alloc),
            depth: 0,
        }
    }

    /// With one more.
    #[tactic(auto, using(crate::specs::TreesEquations::trees_behind, crate::proofs::Parts::depth_behind))]
    pub fn with(self, next: DeepExpr) -> Result<DeepExprs, NoMemory>
        ensures list { Adds arguments_of result self (expr_view next.tree) }
        ensures depth { IfOk result (λ x. x.depth ≡ max self.depth next.depth) }
    {
        let mut list = self.list;
        let depth = self.depth.max(next.depth);
        list.push(next.tree)?;
        Ok(DeepExprs { list, depth })
    }
}

impl DeepMembers {
    /// Nothing yet.
    #[tactic(auto, unfolding(c_tree::specs::Depth::greatest_depth))]
    pub fn none(alloc: Global) -> DeepMembers
        ensures list { result.list.items ≡ [] }
        ensures depth { result.depth ≡ 0 }
    {
        DeepMembers {
            list: Vec::new(alloc),
            depth: 0,
        }
    }

    /// With one more.
    #[tactic(auto, using(crate::specs::TreesEquations::trees_behind, crate::proofs::Parts::depth_behind))]
    pub fn with(self, next: DeepMember) -> Result<DeepMembers, NoMemory>
        ensures list { Adds members_of result self (member_view next.tree) }
        ensures depth { IfOk result (λ x. x.depth ≡ max self.depth next.depth) }
    {
        let mut list = self.list;
        let depth = self.depth.max(next.depth);
        list.push(next.tree)?;
        Ok(DeepMembers { list, depth })
    }
}

impl DeepEnumerators {
    /// Nothing yet.
    #[tactic(auto, unfolding(c_tree::specs::Depth::greatest_depth))]
    pub fn none(alloc: Global) -> DeepEnumerators
        ensures list { result.list.items ≡ [] }
        ensures depth { result.depth ≡ 0 }
    {
        DeepEnumerators {
            list: Vec::new(alloc),
            depth: 0,
        }
    }

    /// With one more.
    #[tactic(auto, using(crate::specs::TreesEquations::trees_behind, crate::proofs::Parts::depth_behind))]
    pub fn with(self, next: DeepEnumerator) -> Result<DeepEnumerators, NoMemory>
        ensures list { Adds enumerators_of result self (enumerator_tree next.tree) }
        ensures depth { IfOk result (λ x. x.depth ≡ max self.depth next.depth) }
    {
        let mut list = self.list;
        let depth = self.depth.max(next.depth);
        list.push(next.tree)?;
        Ok(DeepEnumerators { list, depth })
    }
}

impl DeepParams {
    /// Nothing yet.
    #[tactic(auto, unfolding(c_tree::specs::Depth::greatest_depth))]
    pub fn none(alloc: Global) -> DeepParams
        ensures list { result.list.items ≡ [] }
        ensures depth { result.depth ≡ 0 }
    {
        DeepParams {
            list: Vec::new(alloc),
            depth: 0,
        }
    }

    /// With one more.
    #[tactic(auto, using(crate::specs::TreesEquations::trees_behind, crate::proofs::Parts::depth_behind))]
    pub fn with(self, next: DeepParam) -> Result<DeepParams, NoMemory>
        ensures list { Adds parameters_of result self (param_view next.tree) }
        ensures depth { IfOk result (λ x. x.depth ≡ max self.depth next.depth) }
    {
        let mut list = self.list;
        let depth = self.depth.max(next.depth);
        list.push(next.tree)?;
        Ok(DeepParams { list, depth })
    }
}
