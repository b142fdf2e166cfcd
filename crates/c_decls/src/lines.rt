//! The lines of expressions and initializers.

ghost use Rattle.std.specs.Prelude.{◌≡◌};
ghost use Rattle.c_tree.specs.View.{expr_tree};
ghost use Rattle.c_tree.specs.StatementView.{init_tree};
ghost use Rattle.c_decls.specs.Expressions.{line_of};

use c_tree::{Expr, ExprKind, Init, InitKind};
use hs_base::Line;

/// The line of an expression that begins at a line, which parentheses round it do not give.
#[tactic(auto, unfolding(crate::specs::Expressions::line_of, c_tree::specs::View::expr_tree))]
pub fn inner_line(kind: &ExprKind, line: Line) -> Line
    ensures { result ≡ line_of (expr_tree kind.now line) }
{
    match kind {
        ExprKind::Paren(inside) => inner_line(&inside.kind, inside.line),
        _ => line,
    }
}

/// The line of an expression, which parentheses round it do not give.
pub fn line_of(e: &Expr) -> Line
    ensures { result ≡ line_of (expr_tree e.now.kind e.now.line) }
{
    inner_line(&e.kind, e.line)
}

/// The line of an initializer: that of its expression, or of its braces.
#[tactic(auto, unfolding(crate::specs::Expressions::line_of, c_tree::specs::StatementView::init_tree))]
pub fn init_line(init: &Init) -> Line
    ensures { result ≡ line_of (init_tree init.now.kind init.now.line) }
{
    match &init.kind {
        InitKind::Expr(e) => line_of(e),
        InitKind::List(_, _) => init.line,
    }
}
