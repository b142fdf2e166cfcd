//! Levels of expressions.

/// The level of a unary expression, and of a cast.
pub const UNARY: usize = 1;

pub const CAST: usize = 2;

/// The level of a constant expression, which is a condition, of an assignment and of an expression.
pub const CONDITION: usize = 13;

pub const ASSIGNMENT: usize = 14;

pub const COMMA: usize = 15;

/// How deep a tree may be.
pub const DEPTH: usize = 400;
