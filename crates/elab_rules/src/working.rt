//! How operators work on integers.

ghost use Rattle.std.specs.Prelude.{◌≡◌};
ghost use Rattle.elaboration.specs.Operations.{working, operator_of};
ghost use Rattle.elab_rules.specs.PlainWorking.{plain_working};

use c_tree::{AssignOp, BinaryOp};
use core_tree::{BinOp, CmpOp};

/// How an operator on integers works: on operands of their common type, on operands that are promoted each by itself, or by
/// comparing operands of their common type; `&&` and `||` do none of these.
#[derive(Clone, Copy)]
pub(crate) enum Working {
    Calculates(BinOp),
    Shifts(BinOp),
    Compares(CmpOp),
    Branches,
}

/// How an operator works.
#[tactic(auto, unfolding(elaboration::specs::Operations::working))]
pub(crate) fn works(op: BinaryOp) -> Working
    ensures { plain_working result ≡ working op }
{
    match op {
        BinaryOp::Or | BinaryOp::And => Working::Branches,
        BinaryOp::BitOr => Working::Calculates(BinOp::Or),
        BinaryOp::BitXor => Working::Calculates(BinOp::Xor),
        BinaryOp::BitAnd => Working::Calculates(BinOp::And),
        BinaryOp::Equal => Working::Compares(CmpOp::Eq),
        BinaryOp::NotEqual => Working::Compares(CmpOp::Ne),
        BinaryOp::Less => Working::Compares(CmpOp::Lt),
        BinaryOp::Greater => Working::Compares(CmpOp::Gt),
        BinaryOp::LessEqual => Working::Compares(CmpOp::Le),
        BinaryOp::GreaterEqual => Working::Compares(CmpOp::Ge),
        BinaryOp::ShiftLeft => Working::Shifts(BinOp::Shl),
        BinaryOp::ShiftRight => Working::Shifts(BinOp::Shr),
        BinaryOp::Add => Working::Calculates(BinOp::Add),
        BinaryOp::Subtract => Working::Calculates(BinOp::Sub),
        BinaryOp::Multiply => Working::Calculates(BinOp::Mul),
        BinaryOp::Divide => Working::Calculates(BinOp::Div),
        BinaryOp::Remainder => Working::Calculates(BinOp::Rem),
    }
}

/// The operator of an operator with `=` (C99 6.5.16.2).
#[tactic(auto, unfolding(elaboration::specs::Operations::operator_of))]
pub fn operator_of(op: AssignOp) -> BinaryOp
    ensures { result ≡ operator_of op }
{
    match op {
        AssignOp::Plain | AssignOp::Add => BinaryOp::Add,
        AssignOp::Multiply => BinaryOp::Multiply,
        AssignOp::Divide => BinaryOp::Divide,
        AssignOp::Remainder => BinaryOp::Remainder,
        AssignOp::Subtract => BinaryOp::Subtract,
        AssignOp::ShiftLeft => BinaryOp::ShiftLeft,
        AssignOp::ShiftRight => BinaryOp::ShiftRight,
        AssignOp::BitAnd => BinaryOp::BitAnd,
        AssignOp::BitXor => BinaryOp::BitXor,
        AssignOp::BitOr => BinaryOp::BitOr,
    }
}
