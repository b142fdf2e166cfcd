//! Expressions as initializers (C99 6.7.8 paragraphs 11 to 14).

ghost use Rattle.std.specs.Prelude.{◌≡◌};
ghost use Rattle.c_types.specs.Types.{Array, plain};
ghost use Rattle.c_tree.specs.StatementView.{expr_view};
ghost use Rattle.elaboration.specs.Initializers as rules;
ghost use Rattle.elab_statements.specs.PlainTarget.{plain_target, Fills};
ghost use Rattle.c_decls.specs.Refusals.{Meets};
ghost use Rattle.elab_statements.specs.Initializing.{by_expression, by_text};

use crate::strings::{fill_text, is_character};
use crate::targets::{Target, scalar, whole};
use c_decls::TypeError;
use c_tree::{Expr, ExprKind};
use c_types::CType;
use elab_base::Elaborator;
use hs_base::Line;

/// An array of so many elements, by an expression: a string, where they are characters.
#[tactic(auto, unfolding(c_tree::specs::View::expr_tree))]
fn by_text(
    state: &mut Elaborator,
    e: &Expr,
    line: Line,
    ty: &CType,
    element: &CType,
    size: u32,
    offset: u32,
    target: Target,
) -> Result<Target, TypeError>
    requires { plain ty.now ≡ Array (plain element.now) size }
    ensures { Fills state.new result (by_text e.now line element.now size offset target state.old) }
{
    match &e.kind {
        ExprKind::Str(literals) => {
            if is_character(element) {
                fill_text(state, e, line, literals.as_slice(), size, offset, target)
            } else {
                whole(state, e, line, ty, offset, target)
            }
        }
        _ => whole(state, e, line, ty, offset, target),
    }
}

/// Something of any type, by an expression.
pub(crate) fn by_expression(
    state: &mut Elaborator,
    e: &Expr,
    line: Line,
    ty: &CType,
    offset: u32,
    target: Target,
) -> Result<Target, TypeError>
    ensures { Fills state.new result (by_expression e.now line ty.now offset target state.old) }
{
    match ty {
        CType::Array(element, size) => {
            by_text(state, e, line, ty, element, *size, offset, target)
        }
        CType::Struct(_) | CType::Union(_) => whole(state, e, line, ty, offset, target),
        CType::Void | CType::Int(_) | CType::Pointer(_) | CType::Function(_) => {
            scalar(state, e, line, ty, offset, target)
        }
    }
}
