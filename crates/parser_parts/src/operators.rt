//! Operators by their signs, and signs by their operators.

ghost use Rattle.std.specs.Prelude.{◌≡◌, ◌<◌, ◌+◌};
ghost use Rattle.c_tree.specs.Operators as tree;
ghost use Rattle.grammar_reading.specs.Expressions as spec;
ghost use Rattle.parser_parts.specs.Signs.{prefix_forms, postfix_forms};

use c_tree::{AssignOp, BinaryOp, Sign, UnaryOp};
use grammar_reading::Kind;

/// What stands before an operand.
#[derive(Clone, Copy, Debug, PartialEq, Eq)]
pub enum Prefix {
    /// `++`
    Inc,
    /// `--`
    Dec,
    Op(UnaryOp),
}

/// What stands behind an operand.
#[derive(Clone, Copy, Debug, PartialEq, Eq)]
pub enum Postfix {
    /// `[`
    Index,
    /// `(`
    Call,
    /// `.`
    Dot,
    /// `->`
    Arrow,
    /// `++`
    Inc,
    /// `--`
    Dec,
}

#[tactic(auto, unfolding(grammar_reading::specs::Expressions::unary_op))]
fn prefix_of(sign: Sign) -> Option<Prefix>
    ensures { prefix_forms result ≡ spec.unary_op sign }
{
    match sign {
        Sign::PlusPlus => Some(Prefix::Inc),
        Sign::MinusMinus => Some(Prefix::Dec),
        Sign::Ampersand => Some(Prefix::Op(UnaryOp::Address)),
        Sign::Star => Some(Prefix::Op(UnaryOp::Deref)),
        Sign::Plus => Some(Prefix::Op(UnaryOp::Plus)),
        Sign::Minus => Some(Prefix::Op(UnaryOp::Minus)),
        Sign::Tilde => Some(Prefix::Op(UnaryOp::Complement)),
        Sign::Not => Some(Prefix::Op(UnaryOp::Not)),
        _ => None,
    }
}

/// What a token is before an operand.
pub fn before_operand(kind: Kind) -> Option<Prefix>
    ensures { prefix_forms result ≡ spec.of_mark spec.unary_op kind }
{
    match kind {
        Kind::Mark(sign) => prefix_of(sign),
        _ => None,
    }
}

#[tactic(auto, unfolding(grammar_reading::specs::Expressions::postfix_op))]
fn postfix_of(sign: Sign) -> Option<Postfix>
    ensures { postfix_forms result ≡ spec.postfix_op sign }
{
    match sign {
        Sign::LeftBracket => Some(Postfix::Index),
        Sign::LeftParen => Some(Postfix::Call),
        Sign::Dot => Some(Postfix::Dot),
        Sign::Arrow => Some(Postfix::Arrow),
        Sign::PlusPlus => Some(Postfix::Inc),
        Sign::MinusMinus => Some(Postfix::Dec),
        _ => None,
    }
}

/// What a token is behind an operand.
pub fn behind_operand(kind: Kind) -> Option<Postfix>
    ensures { postfix_forms result ≡ spec.of_mark spec.postfix_op kind }
{
    match kind {
        Kind::Mark(sign) => postfix_of(sign),
        _ => None,
    }
}

#[tactic(auto, unfolding(grammar_reading::specs::Expressions::binary_op))]
fn binary_of(sign: Sign) -> Option<BinaryOp>
    ensures { result ≡ spec.binary_op sign }
{
    match sign {
        Sign::OrOr => Some(BinaryOp::Or),
        Sign::AndAnd => Some(BinaryOp::And),
        Sign::Bar => Some(BinaryOp::BitOr),
        Sign::Caret => Some(BinaryOp::BitXor),
        Sign::Ampersand => Some(BinaryOp::BitAnd),
        Sign::EqualEqual => Some(BinaryOp::Equal),
        Sign::NotEqual => Some(BinaryOp::NotEqual),
        Sign::Less => Some(BinaryOp::Less),
        Sign::Greater => Some(BinaryOp::Greater),
        Sign::LessEqual => Some(BinaryOp::LessEqual),
        Sign::GreaterEqual => Some(BinaryOp::GreaterEqual),
        Sign::ShiftLeft => Some(BinaryOp::ShiftLeft),
        Sign::ShiftRight => Some(BinaryOp::ShiftRight),
        Sign::Plus => Some(BinaryOp::Add),
        Sign::Minus => Some(BinaryOp::Subtract),
        Sign::Star => Some(BinaryOp::Multiply),
        Sign::Slash => Some(BinaryOp::Divide),
        Sign::Percent => Some(BinaryOp::Remainder),
        _ => None,
    }
}

/// The level of an operator's right operand.
#[tactic(auto, unfolding(c_tree::specs::Operators::operand_level))]
pub fn operand_level(op: BinaryOp) -> usize
    ensures level { result ≡ tree.operand_level op }
    ensures small { result < 12 }
{
    match op {
        BinaryOp::Multiply | BinaryOp::Divide | BinaryOp::Remainder => 2,
        BinaryOp::Add | BinaryOp::Subtract => 3,
        BinaryOp::ShiftLeft | BinaryOp::ShiftRight => 4,
        BinaryOp::Less | BinaryOp::Greater | BinaryOp::LessEqual | BinaryOp::GreaterEqual => 5,
        BinaryOp::Equal | BinaryOp::NotEqual => 6,
        BinaryOp::BitAnd => 7,
        BinaryOp::BitXor => 8,
        BinaryOp::BitOr => 9,
        BinaryOp::And => 10,
        BinaryOp::Or => 11,
    }
}

fn at_level(op: BinaryOp, level: usize) -> Option<BinaryOp>
    ensures { result ≡ spec.at_level level (Some op) }
{
    if operand_level(op) == level {
        Some(op)
    } else {
        None
    }
}

/// The operator between two operands that a token is, where its right operand has this level.
pub fn binary(kind: Kind, level: usize) -> Option<BinaryOp>
    ensures { result ≡ spec.at_level level (spec.of_mark spec.binary_op kind) }
{
    match kind {
        Kind::Mark(sign) => match binary_of(sign) {
            Some(op) => at_level(op, level),
            None => None,
        },
        _ => None,
    }
}

#[tactic(auto, unfolding(grammar_reading::specs::Expressions::assign_op))]
fn assign_of(sign: Sign) -> Option<AssignOp>
    ensures { result ≡ spec.assign_op sign }
{
    match sign {
        Sign::Equal => Some(AssignOp::Plain),
        Sign::StarEqual => Some(AssignOp::Multiply),
        Sign::SlashEqual => Some(AssignOp::Divide),
        Sign::PercentEqual => Some(AssignOp::Remainder),
        Sign::PlusEqual => Some(AssignOp::Add),
        Sign::MinusEqual => Some(AssignOp::Subtract),
        Sign::ShiftLeftEqual => Some(AssignOp::ShiftLeft),
        Sign::ShiftRightEqual => Some(AssignOp::ShiftRight),
        Sign::AmpersandEqual => Some(AssignOp::BitAnd),
        Sign::CaretEqual => Some(AssignOp::BitXor),
        Sign::BarEqual => Some(AssignOp::BitOr),
        _ => None,
    }
}

/// The operator of assignment that a token is.
pub fn assign(kind: Kind) -> Option<AssignOp>
    ensures { result ≡ spec.of_mark spec.assign_op kind }
{
    match kind {
        Kind::Mark(sign) => assign_of(sign),
        _ => None,
    }
}

/// The sign of an operator before its operand.
#[tactic(auto, unfolding(c_tree::specs::Operators::unary_sign))]
pub fn unary_sign(op: UnaryOp) -> Sign
    ensures { result ≡ tree.unary_sign op }
{
    match op {
        UnaryOp::Address => Sign::Ampersand,
        UnaryOp::Deref => Sign::Star,
        UnaryOp::Plus => Sign::Plus,
        UnaryOp::Minus => Sign::Minus,
        UnaryOp::Complement => Sign::Tilde,
        UnaryOp::Not => Sign::Not,
    }
}

/// The sign of an operator between two operands.
#[tactic(auto, unfolding(c_tree::specs::Operators::binary_sign))]
pub fn binary_sign(op: BinaryOp) -> Sign
    ensures { result ≡ tree.binary_sign op }
{
    match op {
        BinaryOp::Or => Sign::OrOr,
        BinaryOp::And => Sign::AndAnd,
        BinaryOp::BitOr => Sign::Bar,
        BinaryOp::BitXor => Sign::Caret,
        BinaryOp::BitAnd => Sign::Ampersand,
        BinaryOp::Equal => Sign::EqualEqual,
        BinaryOp::NotEqual => Sign::NotEqual,
        BinaryOp::Less => Sign::Less,
        BinaryOp::Greater => Sign::Greater,
        BinaryOp::LessEqual => Sign::LessEqual,
        BinaryOp::GreaterEqual => Sign::GreaterEqual,
        BinaryOp::ShiftLeft => Sign::ShiftLeft,
        BinaryOp::ShiftRight => Sign::ShiftRight,
        BinaryOp::Add => Sign::Plus,
        BinaryOp::Subtract => Sign::Minus,
        BinaryOp::Multiply => Sign::Star,
        BinaryOp::Divide => Sign::Slash,
        BinaryOp::Remainder => Sign::Percent,
    }
}

/// The sign of an operator of assignment.
#[tactic(auto, unfolding(c_tree::specs::Operators::assign_sign))]
pub fn assign_sign(op: AssignOp) -> Sign
    ensures { result ≡ tree.assign_sign op }
{
    match op {
        AssignOp::Plain => Sign::Equal,
        AssignOp::Multiply => Sign::StarEqual,
        AssignOp::Divide => Sign::SlashEqual,
        AssignOp::Remainder => Sign::PercentEqual,
        AssignOp::Add => Sign::PlusEqual,
        AssignOp::Subtract => Sign::MinusEqual,
        AssignOp::ShiftLeft => Sign::ShiftLeftEqual,
        AssignOp::ShiftRight => Sign::ShiftRightEqual,
        AssignOp::BitAnd => Sign::AmpersandEqual,
        AssignOp::BitXor => Sign::CaretEqual,
        AssignOp::BitOr => Sign::BarEqual,
    }
}
