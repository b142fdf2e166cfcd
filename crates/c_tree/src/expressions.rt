//! Expressions, made of their parts.
#![tactic(auto, unfolding(crate::specs::View::expr_tree))]

ghost use Rattle.std.specs.Prelude.{◌≡◌};
ghost use Rattle.c_tree.specs.Forms as form;
ghost use Rattle.c_tree.specs.Tree.{Leaf, At, Node, none, ◌▹◌};
ghost use Rattle.c_tree.specs.Words as word;
ghost use Rattle.c_tree.specs.View.{name_leaf};
ghost use Rattle.c_tree.specs.StatementView.{strings_view, call_parts, expr_view, typename_view};
ghost use Rattle.c_tree.specs.Made.{MakesExpr};

use crate::operator::{AssignOp, BinaryOp, UnaryOp};
use crate::tree::{Expr, ExprKind, TypeName};
use hs_base::{Items, Line, NoMemory};
use std::alloc::Global;

impl Expr {
    /// A name.
    pub fn name(line: Line, name: Items<u8>) -> Expr
        ensures { expr_view result ≡ Node form.Name (At line ▹ name_leaf name ▹ none) }
    {
        Expr {
            line,
            kind: ExprKind::Name(name),
        }
    }

    /// An integer constant, by its spelling.
    pub fn int(line: Line, spelling: Items<u8>) -> Expr
        ensures { expr_view result ≡ Node form.Int (At line ▹ Leaf (word.Int spelling) ▹ none) }
    {
        Expr {
            line,
            kind: ExprKind::Int(spelling),
        }
    }

    /// A character constant, by its spelling.
    pub fn char(line: Line, spelling: Items<u8>) -> Expr
        ensures { expr_view result ≡ Node form.Char (At line ▹ Leaf (word.Char spelling) ▹ none) }
    {
        Expr {
            line,
            kind: ExprKind::Char(spelling),
        }
    }

    /// String literals one behind another, by their spellings.
    pub fn str(line: Line, spellings: Items<Items<u8>>) -> Expr
        ensures { expr_view result ≡ Node form.Str (At line ▹ strings_view spellings ▹ none) }
    {
        Expr {
            line,
            kind: ExprKind::Str(spellings),
        }
    }

    /// `(inner)`
    pub fn paren(alloc: Global, line: Line, inner: Expr) -> Result<Expr, NoMemory>
        ensures { MakesExpr result line form.Paren (expr_view inner ▹ none) }
    {
        Ok(Expr {
            line,
            kind: ExprKind::Paren(Box::new(alloc, inner)?),
        })
    }

    /// `array[index]`
    pub fn index(alloc: Global, line: Line, array: Expr, index: Expr) -> Result<Expr, NoMemory>
        ensures { MakesExpr result line form.Index (expr_view array ▹ expr_view index ▹ none) }
    {
        Ok(Expr {
            line,
            kind: ExprKind::Index(Box::new(alloc, array)?, Box::new(alloc, index)?),
        })
    }

    /// `callee(arguments)`
    #[tactic(auto, using(crate::specs::ViewEquations::call_tree))]
    pub fn call(
        alloc: Global,
        line: Line,
        callee: Expr,
        arguments: Vec<Expr>,
    ) -> Result<Expr, NoMemory>
        ensures { MakesExpr result line form.Call (call_parts callee arguments.items) }
    {
        Ok(Expr {
            line,
            kind: ExprKind::Call(Box::new(alloc, callee)?, arguments),
        })
    }

    /// `whole.name`
    pub fn dot(alloc: Global, line: Line, whole: Expr, name: Items<u8>) -> Result<Expr, NoMemory>
        ensures { MakesExpr result line form.Dot (expr_view whole ▹ name_leaf name ▹ none) }
    {
        Ok(Expr {
            line,
            kind: ExprKind::Dot(Box::new(alloc, whole)?, name),
        })
    }

    /// `pointer->name`
    pub fn arrow(
        alloc: Global,
        line: Line,
        pointer: Expr,
        name: Items<u8>,
    ) -> Result<Expr, NoMemory>
        ensures { MakesExpr result line form.Arrow (expr_view pointer ▹ name_leaf name ▹ none) }
    {
        Ok(Expr {
            line,
            kind: ExprKind::Arrow(Box::new(alloc, pointer)?, name),
        })
    }

    /// `operand++`
    pub fn post_inc(alloc: Global, line: Line, operand: Expr) -> Result<Expr, NoMemory>
        ensures { MakesExpr result line form.PostInc (expr_view operand ▹ none) }
    {
        Ok(Expr {
            line,
            kind: ExprKind::PostInc(Box::new(alloc, operand)?),
        })
    }

    /// `operand--`
    pub fn post_dec(alloc: Global, line: Line, operand: Expr) -> Result<Expr, NoMemory>
        ensures { MakesExpr result line form.PostDec (expr_view operand ▹ none) }
    {
        Ok(Expr {
            line,
            kind: ExprKind::PostDec(Box::new(alloc, operand)?),
        })
    }

    /// `++operand`
    pub fn pre_inc(alloc: Global, line: Line, operand: Expr) -> Result<Expr, NoMemory>
        ensures { MakesExpr result line form.PreInc (expr_view operand ▹ none) }
    {
        Ok(Expr {
            line,
            kind: ExprKind::PreInc(Box::new(alloc, operand)?),
        })
    }

    /// `--operand`
    pub fn pre_dec(alloc: Global, line: Line, operand: Expr) -> Result<Expr, NoMemory>
        ensures { MakesExpr result line form.PreDec (expr_view operand ▹ none) }
    {
        Ok(Expr {
            line,
            kind: ExprKind::PreDec(Box::new(alloc, operand)?),
        })
    }

    /// `sizeof operand`
    pub fn sizeof_expr(alloc: Global, line: Line, operand: Expr) -> Result<Expr, NoMemory>
        ensures { MakesExpr result line form.SizeofExpr (expr_view operand ▹ none) }
    {
        Ok(Expr {
            line,
            kind: ExprKind::SizeofExpr(Box::new(alloc, operand)?),
        })
    }

    /// An operator before its operand.
    pub fn unary(alloc: Global, line: Line, op: UnaryOp, operand: Expr) -> Result<Expr, NoMemory>
        ensures { MakesExpr result line (form.Unary op) (expr_view operand ▹ none) }
    {
        Ok(Expr {
            line,
            kind: ExprKind::Unary(op, Box::new(alloc, operand)?),
        })
    }

    /// `sizeof(typename)`
    #[tactic(auto, using(crate::specs::ViewEquations::sizeof_type_tree))]
    pub fn sizeof_type(alloc: Global, line: Line, typename: TypeName) -> Result<Expr, NoMemory>
        ensures { MakesExpr result line form.SizeofType (typename_view typename ▹ none) }
    {
        Ok(Expr {
            line,
            kind: ExprKind::SizeofType(Box::new(alloc, typename)?),
        })
    }

    /// `(typename)operand`
    #[tactic(auto, using(crate::specs::ViewEquations::cast_tree))]
    pub fn cast(
        alloc: Global,
        line: Line,
        typename: TypeName,
        operand: Expr,
    ) -> Result<Expr, NoMemory>
        ensures { MakesExpr result line form.Cast (typename_view typename ▹ expr_view operand ▹ none) }
    {
        Ok(Expr {
            line,
            kind: ExprKind::Cast(Box::new(alloc, typename)?, Box::new(alloc, operand)?),
        })
    }

    /// An operator between two operands.
    pub fn binary(
        alloc: Global,
        line: Line,
        op: BinaryOp,
        left: Expr,
        right: Expr,
    ) -> Result<Expr, NoMemory>
        ensures { MakesExpr result line (form.Binary op) (expr_view left ▹ expr_view right ▹ none) }
    {
        Ok(Expr {
            line,
            kind: ExprKind::Binary(op, Box::new(alloc, left)?, Box::new(alloc, right)?),
        })
    }

    /// `test ? yes : no`
    pub fn cond(
        alloc: Global,
        line: Line,
        test: Expr,
        yes: Expr,
        no: Expr,
    ) -> Result<Expr, NoMemory>
        ensures { MakesExpr result line form.Cond (expr_view test ▹ expr_view yes ▹ expr_view no ▹ none) }
    {
        Ok(Expr {
            line,
            kind: ExprKind::Cond(
                Box::new(alloc, test)?,
                Box::new(alloc, yes)?,
                Box::new(alloc, no)?,
            ),
        })
    }

    /// An assignment.
    pub fn assign(
        alloc: Global,
        line: Line,
        op: AssignOp,
        left: Expr,
        right: Expr,
    ) -> Result<Expr, NoMemory>
        ensures { MakesExpr result line (form.Assign op) (expr_view left ▹ expr_view right ▹ none) }
    {
        Ok(Expr {
            line,
            kind: ExprKind::Assign(op, Box::new(alloc, left)?, Box::new(alloc, right)?),
        })
    }

    /// `left, right`
    pub fn comma(alloc: Global, line: Line, left: Expr, right: Expr) -> Result<Expr, NoMemory>
        ensures { MakesExpr result line form.Comma (expr_view left ▹ expr_view right ▹ none) }
    {
        Ok(Expr {
            line,
            kind: ExprKind::Comma(Box::new(alloc, left)?, Box::new(alloc, right)?),
        })
    }
}
