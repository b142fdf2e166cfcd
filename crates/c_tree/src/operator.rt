//! Operators of expressions, and the words before tags.
#![tactic(auto, unfolding(crate::specs::Operators::unary_sign, crate::specs::Operators::binary_sign, crate::specs::Operators::assign_sign, crate::specs::Operators::record_word))]

ghost use Rattle.std.specs.Prelude.{◌≡◌};
ghost use Rattle.c_tree.specs.Operators.{unary_sign, binary_sign, assign_sign, record_word};

use crate::word::{Keyword, Sign};

/// An operator before its one operand (C99 6.5.3), other than `++`, `--` and `sizeof`.
#[derive(Clone, Copy, Debug, PartialEq, Eq)]
pub enum UnaryOp {
    /// `&`
    Address,
    /// `*`
    Deref,
    /// `+`
    Plus,
    /// `-`
    Minus,
    /// `~`
    Complement,
    /// `!`
    Not,
}

/// An operator between two operands (C99 6.5.5 to 6.5.14).
#[derive(Clone, Copy, Debug, PartialEq, Eq)]
pub enum BinaryOp {
    /// `||`
    Or,
    /// `&&`
    And,
    /// `|`
    BitOr,
    /// `^`
    BitXor,
    /// `&`
    BitAnd,
    /// `==`
    Equal,
    /// `!=`
    NotEqual,
    /// `<`
    Less,
    /// `>`
    Greater,
    /// `<=`
    LessEqual,
    /// `>=`
    GreaterEqual,
    /// `<<`
    ShiftLeft,
    /// `>>`
    ShiftRight,
    /// `+`
    Add,
    /// `-`
    Subtract,
    /// `*`
    Multiply,
    /// `/`
    Divide,
    /// `%`
    Remainder,
}

/// An operator of assignment (C99 6.5.16).
#[derive(Clone, Copy, Debug, PartialEq, Eq)]
pub enum AssignOp {
    /// `=`
    Plain,
    /// `*=`
    Multiply,
    /// `/=`
    Divide,
    /// `%=`
    Remainder,
    /// `+=`
    Add,
    /// `-=`
    Subtract,
    /// `<<=`
    ShiftLeft,
    /// `>>=`
    ShiftRight,
    /// `&=`
    BitAnd,
    /// `^=`
    BitXor,
    /// `|=`
    BitOr,
}

/// The word before the tag of a type with members (C99 6.7.2.1).
#[derive(Clone, Copy, Debug, PartialEq, Eq)]
pub enum RecordSort {
    Struct,
    Union,
}

impl UnaryOp {
    /// The sign of the operator.
    pub fn sign(self) -> Sign
        ensures { result ≡ unary_sign self }
    {
        match self {
            UnaryOp::Address => Sign::Ampersand,
            UnaryOp::Deref => Sign::Star,
            UnaryOp::Plus => Sign::Plus,
            UnaryOp::Minus => Sign::Minus,
            UnaryOp::Complement => Sign::Tilde,
            UnaryOp::Not => Sign::Not,
        }
    }
}

impl BinaryOp {
    /// The sign of the operator.
    pub fn sign(self) -> Sign
        ensures { result ≡ binary_sign self }
    {
        match self {
            BinaryOp::Or => Sign::OrOr,
            BinaryOp::And => Sign::AndAnd,
            BinaryOp::BitOr => Sign::Bar,
            BinaryOp::BitXor => Sign::Caret,
            BinaryOp::BitAnd => Sign::Ampersand,
            BinaryOp::Equal => Sign::EqualEqual,
            BinaryOp::NotEqual => Sign::NotEqual,
            BinaryOp::Less => Sign::Less,
            BinaryOp::Greater => Sign::Greater,
            BinaryOp::LessEqual => Sign::LessEqual,
            BinaryOp::GreaterEqual => Sign::GreaterEqual,
            BinaryOp::ShiftLeft => Sign::ShiftLeft,
            BinaryOp::ShiftRight => Sign::ShiftRight,
            BinaryOp::Add => Sign::Plus,
            BinaryOp::Subtract => Sign::Minus,
            BinaryOp::Multiply => Sign::Star,
            BinaryOp::Divide => Sign::Slash,
            BinaryOp::Remainder => Sign::Percent,
        }
    }
}

impl AssignOp {
    /// The sign of the operator.
    pub fn sign(self) -> Sign
        ensures { result ≡ assign_sign self }
    {
        match self {
            AssignOp::Plain => Sign::Equal,
            AssignOp::Multiply => Sign::StarEqual,
            AssignOp::Divide => Sign::SlashEqual,
            AssignOp::Remainder => Sign::PercentEqual,
            AssignOp::Add => Sign::PlusEqual,
            AssignOp::Subtract => Sign::MinusEqual,
            AssignOp::ShiftLeft => Sign::ShiftLeftEqual,
            AssignOp::ShiftRight => Sign::ShiftRightEqual,
            AssignOp::BitAnd => Sign::AmpersandEqual,
            AssignOp::BitXor => Sign::CaretEqual,
            AssignOp::BitOr => Sign::BarEqual,
        }
    }
}

impl RecordSort {
    /// The keyword of the sort.
    pub fn keyword(self) -> Keyword
        ensures { result ≡ record_word self }
    {
        match self {
            RecordSort::Struct => Keyword::Struct,
            RecordSort::Union => Keyword::Union,
        }
    }
}
