//! The values of the trees of conditions.

ghost use Rattle.std.specs.Prelude.{◌≡◌, ℕ, IfOk};
ghost use Rattle.c_tree.specs.View.{expr_tree};
ghost use Rattle.c_tree.specs.StatementView.{expr_view};
ghost use Rattle.c_conditions.specs.Values as spec;

use crate::number::{char_constant, int_constant};
use crate::operand::Operand;
use crate::operators::{binary, choice, unary};
use c_tree::{Expr, ExprKind};
use hs_base::NoMemory;
use std::alloc::Global;

/// The value of an expression; `None` where it has a form that has no place in a condition.
#[cycle(value)]
pub(crate) fn value(alloc: Global, e: &Expr) -> Result<Option<Operand>, NoMemory>
    ensures { IfOk result (λ found. found ≡ spec.value (expr_view e.now)) }
{
    value_of(alloc, &e.kind)
}

/// The same, at whatever line it stands.
#[cycle(value)]
#[tactic(auto, unfolding(crate::specs::Values::value, c_tree::specs::View::expr_tree))]
fn value_of(alloc: Global, kind: &ExprKind) -> Result<Option<Operand>, NoMemory>
    ensures { (line : ℕ) → IfOk result (λ found. found ≡ spec.value (expr_tree kind.now line)) }
{
    match kind {
        ExprKind::Int(bytes) => Ok(Some(int_constant(bytes.as_slice()))),
        ExprKind::Char(bytes) => Ok(Some(char_constant(alloc, bytes.as_slice())?)),
        ExprKind::Paren(inner) => value(alloc, inner),
        ExprKind::Unary(op, operand) => {
            let Some(x) = value(alloc, operand)? else {
                return Ok(None);
            };
            Ok(unary(*op, x))
        }
        ExprKind::Binary(op, left, right) => {
            let Some(x) = value(alloc, left)? else {
                return Ok(None);
            };
            let Some(y) = value(alloc, right)? else {
                return Ok(None);
            };
            Ok(Some(binary(*op, x, y)))
        }
        ExprKind::Cond(test, yes, no) => {
            let Some(test) = value(alloc, test)? else {
                return Ok(None);
            };
            let Some(x) = value(alloc, yes)? else {
                return Ok(None);
            };
            let Some(y) = value(alloc, no)? else {
                return Ok(None);
            };
            Ok(Some(choice(test, x, y)))
        }
        _ => Ok(None),
    }
}
