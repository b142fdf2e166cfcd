//! Operators before a value and between two, and casts (C99 6.5.3 to 6.5.12).

ghost use Rattle.c_types.specs.Types.{plain};
ghost use Rattle.c_tree.specs.StatementView.{expr_view};
ghost use Rattle.elab_base.specs.Marks.{cut};
ghost use Rattle.elab_base.specs.PlainFound.{plain_found};
ghost use Rattle.elaboration.specs.Rules.{applied, cast_fixed};
ghost use Rattle.elab_base.specs.Outcomes.{Emits, Finds};
ghost use Rattle.std.specs.Prelude.{◌≡◌, IfOk};
ghost use Rattle.c_decls.specs.Refusals.{Meets};
ghost use Rattle.c_decls.specs.Typed.{plain_typed};
ghost use Rattle.elab_rules.specs.Steps.{between, cast_to, negated};

use crate::branches::tested_atom;
use crate::fixed::fixed_sum;
use crate::integers::before_integer;
use crate::pointers::combined;
use c_decls::{Operand, TypeError, binary, operand_of, unary};
use c_tree::{BinaryOp, Expr, UnaryOp};
use c_types::CType;
use c_typing::cast;
use core_tree::{Atom, CmpOp, StmKind};
use elab_base::{Elaborator, Fixed, Found, Mark, Spot};
use hs_base::{Line, NoMemory};

/// `!`: whether a value is 0 or null (C99 6.5.3.3).
fn negated(
    state: &mut Elaborator,
    line: Line,
    tree: &Expr,
    ty: &CType,
    value: Atom,
) -> Result<Atom, NoMemory>
    ensures { Emits state.new result (negated line tree.now ty.now value state.old) }
{
    let truth = tested_atom(state, tree, ty, value)?;
    let to = state.take_integer()?;
    state.emit(line, StmKind::Cmp(CmpOp::Eq, to, truth, Atom::Int(0)))?;
    Ok(Atom::Reg(to))
}

/// An operator before a value: `*` gives the place at a pointer (C99 6.5.3).
pub fn applied(
    state: &mut Elaborator,
    line: Line,
    op: UnaryOp,
    tree: &Expr,
    e: Found,
) -> Result<Found, TypeError>
    ensures { Finds state.new result (applied line op (expr_view tree.now) state.old (plain_found e)) }
{
    let value = e.atom();
    let ty = e.typed.ty;
    let typed = unary(line, op, e.typed)?;
    if let UnaryOp::Deref = op {
        return Ok(Found {
            typed,
            spot: Spot::Memory(value),
            fixed: e.fixed,
        });
    }
    if let UnaryOp::Not = op {
        return Ok(Found::valued(typed, negated(state, line, tree, &ty, value)?));
    }
    match operand_of(&ty) {
        Operand::Number(int) => {
            Ok(Found::valued(typed, before_integer(state, line, op, int, value)?))
        }
        // No other operator takes a pointer, so none comes here.
        Operand::PointerTo(_) | Operand::Neither => Err(TypeError::NoMemory),
    }
}

/// An operator between two values; the mark stands in front of the right one's code.
pub fn between(
    state: &mut Elaborator,
    line: Line,
    op: BinaryOp,
    before: Mark,
    x: Found,
    y: Found,
) -> Result<Found, TypeError>
    ensures { Finds state.new result (between line op before x y state.old) }
{
    let fixed = fixed_sum(state, op, &x, &y)?;
    let (left, right) = (x.atom(), y.atom());
    let (left_type, right_type) = (x.typed.ty, y.typed.ty);
    let typed = binary(line, op, state.tags(), x.typed, y.typed)?;
    let value = combined(
        state,
        line,
        op,
        before,
        &left_type,
        left,
        &right_type,
        right,
    )?;
    Ok(Found {
        typed,
        spot: Spot::Value(value),
        fixed,
    })
}

/// A cast: a null pointer constant that is cast is null; the mark stands in front of the operand's code.
pub fn cast_to(
    state: &mut Elaborator,
    line: Line,
    ty: CType,
    before: Mark,
    e: Found,
) -> Result<Found, TypeError>
    ensures { Finds state.new result (cast_to line ty before e state.old) }
{
    let typed = cast(line, ty, &e.typed)?;
    let value = state.convert(line, before, &ty, &e.typed.ty, e.atom())?;
    let fixed = if e.typed.is_null_constant() {
        Fixed::Nowhere
    } else {
        e.fixed
    };
    Ok(Found {
        typed,
        spot: Spot::Value(value),
        fixed,
    })
}
