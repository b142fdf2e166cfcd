//! Operators on integers (C99 6.5.3.3, 6.5.5 to 6.5.12).

ghost use Rattle.std.specs.Prelude.{◌≡◌, IfOk};
ghost use Rattle.elaboration.specs.Operations.{on_integers, before_integer};
ghost use Rattle.elab_rules.specs.PlainWorking.{plain_working};
ghost use Rattle.elab_base.specs.Outcomes.{Emits};
ghost use Rattle.elab_rules.specs.Steps.{convert_both, work};

use crate::working::{Working, works};
use c_decls::{common_type, promoted};
use c_tree::{BinaryOp, UnaryOp};
use c_types::IntType;
use core_tree::{Atom, StmKind, UnOp};
use elab_base::Elaborator;
use hs_base::{Line, NoMemory};

/// An integer in hand, with its type.
#[derive(Clone, Copy)]
pub(crate) struct Integer {
    pub(crate) ty: IntType,
    pub(crate) atom: Atom,
}

/// Two integers converted to types of their own, the left one first.
fn convert_both(
    state: &mut Elaborator,
    line: Line,
    to_left: IntType,
    x: Integer,
    to_right: IntType,
    y: Integer,
) -> Result<(Atom, Atom), NoMemory>
    ensures { IfOk result (λ r. (state.new, r.0, r.1) ≡ convert_both line to_left x to_right y state.old) }
{
    let left = state.convert_integer(line, to_left, x.ty, x.atom)?;
    let right = state.convert_integer(line, to_right, y.ty, y.atom)?;
    Ok((left, right))
}

/// Two integers worked on.
fn work(
    state: &mut Elaborator,
    line: Line,
    working: Working,
    x: Integer,
    y: Integer,
) -> Result<Atom, NoMemory>
    ensures { Emits state.new result (work line working x y state.old) }
{
    match working {
        Working::Calculates(op) => {
            let ty = common_type(x.ty, y.ty);
            let (left, right) = convert_both(state, line, ty, x, ty, y)?;
            let to = state.take_integer()?;
            state.emit(line, StmKind::Bin(op, ty.kind(), to, left, right))?;
            Ok(Atom::Reg(to))
        }
        Working::Shifts(op) => {
            let ty = promoted(x.ty);
            let (left, right) = convert_both(state, line, ty, x, promoted(y.ty), y)?;
            let to = state.take_integer()?;
            state.emit(line, StmKind::Bin(op, ty.kind(), to, left, right))?;
            Ok(Atom::Reg(to))
        }
        Working::Compares(op) => {
            let ty = common_type(x.ty, y.ty);
            let (left, right) = convert_both(state, line, ty, x, ty, y)?;
            let to = state.take_integer()?;
            state.emit(line, StmKind::Cmp(op, to, left, right))?;
            Ok(Atom::Reg(to))
        }
        Working::Branches => Ok(x.atom),
    }
}

/// An operator on two integers.
pub fn on_integers(
    state: &mut Elaborator,
    line: Line,
    op: BinaryOp,
    x_type: IntType,
    x: Atom,
    y_type: IntType,
    y: Atom,
) -> Result<Atom, NoMemory>
    ensures { Emits state.new result (on_integers line op x_type x y_type y state.old) }
{
    let left = Integer {
        ty: x_type,
        atom: x,
    };
    let right = Integer {
        ty: y_type,
        atom: y,
    };
    work(state, line, works(op), left, right)
}

/// An operator before an integer: `+` promotes, `-` and `~` calculate.
#[tactic(auto, unfolding(elaboration::specs::Operations::before_integer))]
pub fn before_integer(
    state: &mut Elaborator,
    line: Line,
    op: UnaryOp,
    ty: IntType,
    x: Atom,
) -> Result<Atom, NoMemory>
    ensures { Emits state.new result (before_integer line op ty x state.old) }
{
    let promoted = promoted(ty);
    let operand = state.convert_integer(line, promoted, ty, x)?;
    let calculated = match op {
        UnaryOp::Minus => UnOp::Neg,
        UnaryOp::Complement => UnOp::Not,
        UnaryOp::Address | UnaryOp::Deref | UnaryOp::Plus | UnaryOp::Not => return Ok(operand),
    };
    let to = state.take_integer()?;
    state.emit(line, StmKind::Un(calculated, promoted.kind(), to, operand))?;
    Ok(Atom::Reg(to))
}
