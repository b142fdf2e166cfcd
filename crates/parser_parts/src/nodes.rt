//! Expressions of the code, made of their parts, with how deep they are.
#![tactic(auto, unfolding(c_tree::specs::Depth::below, c_tree::specs::Depth::layers, c_tree::specs::Depth::greatest_depth, c_tree::specs::Depth::is_of_declarator, c_tree::specs::Depth::layer, c_tree::specs::Depth::weight, c_tree::specs::Grammar::form_home))]

ghost use Rattle.std.specs.Prelude.{◌≡◌, ◌<◌, ◌+◌, max, IfOk};
ghost use Rattle.c_tree.specs.Forms as form;
ghost use Rattle.c_tree.specs.Tree.{At, Leaf, Node, none, ◌▹◌};
ghost use Rattle.c_tree.specs.View.{name_leaf};
ghost use Rattle.c_tree.specs.StatementView.{strings_view, call_parts, expr_view, typename_view};
ghost use Rattle.c_tree.specs.Words.{Char, Int};
ghost use Rattle.parser_parts.specs.Trees.{MakesExpr, operands, cast_parts};

use crate::deep::{DeepExpr, DeepExprs, DeepTypename};
use c_tree::{AssignOp, BinaryOp, Expr, UnaryOp};
use hs_base::{Items, Line, NoMemory};
use std::alloc::Global;

impl DeepExpr {
    /// A name.
    pub fn name(line: Line, spelling: Items<u8>) -> DeepExpr
        ensures tree { expr_view result.tree ≡ Node form.Name (At line ▹ name_leaf spelling ▹ none) }
        ensures depth { result.depth ≡ 1 }
    {
        DeepExpr {
            tree: Expr::name(line, spelling),
            depth: 1,
        }
    }

    /// An integer constant.
    pub fn int(line: Line, spelling: Items<u8>) -> DeepExpr
        ensures tree { expr_view result.tree ≡ Node form.Int (At line ▹ Leaf (Int spelling) ▹ none) }
        ensures depth { result.depth ≡ 1 }
    {
        DeepExpr {
            tree: Expr::int(line, spelling),
            depth: 1,
        }
    }

    /// A character constant.
    pub fn char(line: Line, spelling: Items<u8>) -> DeepExpr
        ensures tree { expr_view result.tree ≡ Node form.Char (At line ▹ Leaf (Char spelling) ▹ none) }
        ensures depth { result.depth ≡ 1 }
    {
        DeepExpr {
            tree: Expr::char(line, spelling),
            depth: 1,
        }
    }

    /// String literals.
    #[tactic(auto, using(crate::proofs::Parts::leaves_flat), unfolding(c_tree::specs::Depth::below, c_tree::specs::Depth::layers, c_tree::specs::Depth::greatest_depth, c_tree::specs::Depth::is_of_declarator, c_tree::specs::Depth::layer, c_tree::specs::Depth::weight, c_tree::specs::Grammar::form_home))]
    pub fn str(line: Line, spellings: Items<Items<u8>>) -> DeepExpr
        ensures tree { expr_view result.tree ≡ Node form.Str (At line ▹ strings_view spellings ▹ none) }
        ensures depth { result.depth ≡ 1 }
    {
        DeepExpr {
            tree: Expr::str(line, spellings),
            depth: 1,
        }
    }

    /// `(inner)`
    pub fn paren(alloc: Global, line: Line, inner: DeepExpr) -> Result<DeepExpr, NoMemory>
        requires { inner.depth < 1000 }
        ensures tree { MakesExpr result line form.Paren (expr_view inner.tree ▹ none) }
        ensures depth { IfOk result (λ x. x.depth ≡ inner.depth + 1) }
    {
        let depth = inner.depth + 1;
        let tree = Expr::paren(alloc, line, inner.tree)?;
        Ok(DeepExpr { tree, depth })
    }

    /// `left[index]`
    pub fn index(
        alloc: Global,
        line: Line,
        left: DeepExpr,
        index: DeepExpr,
    ) -> Result<DeepExpr, NoMemory>
        requires left { left.depth < 1000 }
        requires index { index.depth < 1000 }
        ensures tree { MakesExpr result line form.Index (operands left index) }
        ensures depth { IfOk result (λ x. x.depth ≡ max left.depth index.depth + 1) }
    {
        let depth = left.depth.max(index.depth) + 1;
        let tree = Expr::index(alloc, line, left.tree, index.tree)?;
        Ok(DeepExpr { tree, depth })
    }

    /// `left(arguments)`
    pub fn call(
        alloc: Global,
        line: Line,
        left: DeepExpr,
        arguments: DeepExprs,
    ) -> Result<DeepExpr, NoMemory>
        requires left { left.depth < 1000 }
        requires arguments { arguments.depth < 1000 }
        ensures tree { MakesExpr result line form.Call (call_parts left.tree arguments.list.items) }
        ensures depth { IfOk result (λ x. x.depth ≡ max left.depth arguments.depth + 1) }
    {
        let depth = left.depth.max(arguments.depth) + 1;
        let tree = Expr::call(alloc, line, left.tree, arguments.list)?;
        Ok(DeepExpr { tree, depth })
    }

    /// `left.name`
    pub fn dot(
        alloc: Global,
        line: Line,
        left: DeepExpr,
        name: Items<u8>,
    ) -> Result<DeepExpr, NoMemory>
        requires { left.depth < 1000 }
        ensures tree { MakesExpr result line form.Dot (expr_view left.tree ▹ name_leaf name ▹ none) }
        ensures depth { IfOk result (λ x. x.depth ≡ left.depth + 1) }
    {
        let depth = left.depth + 1;
        let tree = Expr::dot(alloc, line, left.tree, name)?;
        Ok(DeepExpr { tree, depth })
    }

    /// `left->name`
    pub fn arrow(
        alloc: Global,
        line: Line,
        left: DeepExpr,
        name: Items<u8>,
    ) -> Result<DeepExpr, NoMemory>
        requires { left.depth < 1000 }
        ensures tree { MakesExpr result line form.Arrow (expr_view left.tree ▹ name_leaf name ▹ none) }
        ensures depth { IfOk result (λ x. x.depth ≡ left.depth + 1) }
    {
        let depth = left.depth + 1;
        let tree = Expr::arrow(alloc, line, left.tree, name)?;
        Ok(DeepExpr { tree, depth })
    }

    /// `left++`
    pub fn post_inc(alloc: Global, line: Line, left: DeepExpr) -> Result<DeepExpr, NoMemory>
        requires { left.depth < 1000 }
        ensures tree { MakesExpr result line form.PostInc (expr_view left.tree ▹ none) }
        ensures depth { IfOk result (λ x. x.depth ≡ left.depth + 1) }
    {
        let depth = left.depth + 1;
        let tree = Expr::post_inc(alloc, line, left.tree)?;
        Ok(DeepExpr { tree, depth })
    }

    /// `left--`
    pub fn post_dec(alloc: Global, line: Line, left: DeepExpr) -> Result<DeepExpr, NoMemory>
        requires { left.depth < 1000 }
        ensures tree { MakesExpr result line form.PostDec (expr_view left.tree ▹ none) }
        ensures depth { IfOk result (λ x. x.depth ≡ left.depth + 1) }
    {
        let depth = left.depth + 1;
        let tree = Expr::post_dec(alloc, line, left.tree)?;
        Ok(DeepExpr { tree, depth })
    }

    /// `++operand`
    pub fn pre_inc(alloc: Global, line: Line, operand: DeepExpr) -> Result<DeepExpr, NoMemory>
        requires { operand.depth < 1000 }
        ensures tree { MakesExpr result line form.PreInc (expr_view operand.tree ▹ none) }
        ensures depth { IfOk result (λ x. x.depth ≡ operand.depth + 1) }
    {
        let depth = operand.depth + 1;
        let tree = Expr::pre_inc(alloc, line, operand.tree)?;
        Ok(DeepExpr { tree, depth })
    }

    /// `--operand`
    pub fn pre_dec(alloc: Global, line: Line, operand: DeepExpr) -> Result<DeepExpr, NoMemory>
        requires { operand.depth < 1000 }
        ensures tree { MakesExpr result line form.PreDec (expr_view operand.tree ▹ none) }
        ensures depth { IfOk result (λ x. x.depth ≡ operand.depth + 1) }
    {
        let depth = operand.depth + 1;
        let tree = Expr::pre_dec(alloc, line, operand.tree)?;
        Ok(DeepExpr { tree, depth })
    }

    /// An operator before its operand.
    pub fn unary(
        alloc: Global,
        line: Line,
        op: UnaryOp,
        operand: DeepExpr,
    ) -> Result<DeepExpr, NoMemory>
        requires { operand.depth < 1000 }
        ensures tree { MakesExpr result line (form.Unary op) (expr_view operand.tree ▹ none) }
        ensures depth { IfOk result (λ x. x.depth ≡ operand.depth + 1) }
    {
        let depth = operand.depth + 1;
        let tree = Expr::unary(alloc, line, op, operand.tree)?;
        Ok(DeepExpr { tree, depth })
    }

    /// `sizeof operand`
    pub fn sizeof_expr(alloc: Global, line: Line, operand: DeepExpr) -> Result<DeepExpr, NoMemory>
        requires { operand.depth < 1000 }
        ensures tree { MakesExpr result line form.SizeofExpr (expr_view operand.tree ▹ none) }
        ensures depth { IfOk result (λ x. x.depth ≡ operand.depth + 1) }
    {
        let depth = operand.depth + 1;
        let tree = Expr::sizeof_expr(alloc, line, operand.tree)?;
        Ok(DeepExpr { tree, depth })
    }

    /// `sizeof (name)`
    pub fn sizeof_type(alloc: Global, line: Line, name: DeepTypename) -> Result<DeepExpr, NoMemory>
        requires { name.depth < 1000 }
        ensures tree { MakesExpr result line form.SizeofType (typename_view name.tree ▹ none) }
        ensures depth { IfOk result (λ x. x.depth ≡ name.depth + 1) }
    {
        let depth = name.depth + 1;
        let tree = Expr::sizeof_type(alloc, line, name.tree)?;
        Ok(DeepExpr { tree, depth })
    }

    /// `(name)operand`
    pub fn cast(
        alloc: Global,
        line: Line,
        name: DeepTypename,
        operand: DeepExpr,
    ) -> Result<DeepExpr, NoMemory>
        requires name { name.depth < 1000 }
        requires operand { operand.depth < 1000 }
        ensures tree { MakesExpr result line form.Cast (cast_parts name operand) }
        ensures depth { IfOk result (λ x. x.depth ≡ max name.depth operand.depth + 1) }
    {
        let depth = name.depth.max(operand.depth) + 1;
        let tree = Expr::cast(alloc, line, name.tree, operand.tree)?;
        Ok(DeepExpr { tree, depth })
    }

    /// An operator between its operands.
    pub fn binary(
        alloc: Global,
        line: Line,
        op: BinaryOp,
        left: DeepExpr,
        right: DeepExpr,
    ) -> Result<DeepExpr, NoMemory>
        requires left { left.depth < 1000 }
        requires right { right.depth < 1000 }
        ensures tree { MakesExpr result line (form.Binary op) (operands left right) }
        ensures depth { IfOk result (λ x. x.depth ≡ max left.depth right.depth + 1) }
    {
        let depth = left.depth.max(right.depth) + 1;
        let tree = Expr::binary(alloc, line, op, left.tree, right.tree)?;
        Ok(DeepExpr { tree, depth })
    }

    /// `left ? yes : no`
    pub fn cond(
        alloc: Global,
        line: Line,
        left: DeepExpr,
        yes: DeepExpr,
        no: DeepExpr,
    ) -> Result<DeepExpr, NoMemory>
        requires left { left.depth < 1000 }
        requires yes { yes.depth < 1000 }
        requires no { no.depth < 1000 }
        ensures tree { MakesExpr result line form.Cond (expr_view left.tree ▹ operands yes no) }
        ensures depth { IfOk result (λ x. x.depth ≡ max (max left.depth yes.depth) no.depth + 1) }
    {
        let depth = left.depth.max(yes.depth).max(no.depth) + 1;
        let tree = Expr::cond(alloc, line, left.tree, yes.tree, no.tree)?;
        Ok(DeepExpr { tree, depth })
    }

    /// An assignment.
    pub fn assign(
        alloc: Global,
        line: Line,
        op: AssignOp,
        left: DeepExpr,
        right: DeepExpr,
    ) -> Result<DeepExpr, NoMemory>
        requires left { left.depth < 1000 }
        requires right { right.depth < 1000 }
        ensures tree { MakesExpr result line (form.Assign op) (operands left right) }
        ensures depth { IfOk result (λ x. x.depth ≡ max left.depth right.depth + 1) }
    {
        let depth = left.depth.max(right.depth) + 1;
        let tree = Expr::assign(alloc, line, op, left.tree, right.tree)?;
        Ok(DeepExpr { tree, depth })
    }

    /// `left, right`
    pub fn comma(
        alloc: Global,
        line: Line,
        left: DeepExpr,
        right: DeepExpr,
    ) -> Result<DeepExpr, NoMemory>
        requires left { left.depth < 1000 }
        requires right { right.depth < 1000 }
        ensures tree { MakesExpr result line form.Comma (operands left right) }
        ensures depth { IfOk result (λ x. x.depth ≡ max left.depth right.depth + 1) }
    {
        let depth = left.depth.max(right.depth) + 1;
        let tree = Expr::comma(alloc, line, left.tree, right.tree)?;
        Ok(DeepExpr { tree, depth })
    }
}
