//! Statements of a function's body, and what they work on.

use c_types::Layout;
use hs_base::{IntKind, Items, Line};

/// A statement, with the line of the text that it comes from.
#[derive(Debug, Drop)]
pub struct Stm {
    pub line: Line,
    pub kind: StmKind,
}

/// An operand.
#[derive(Clone, Copy, Debug, PartialEq, Eq)]
pub enum Atom {
    /// What a register holds.
    Reg(u32),
    /// An integer, from -2^63 to 2^64 - 1.
    Int(i128),
    /// The null pointer.
    Null,
    /// The address of a static.
    Static(u32),
    /// The address of a memory local of the running call.
    Mem(u32),
}

/// An operation on one integer (C99 6.5.3.3).
#[derive(Clone, Copy, Debug, PartialEq, Eq)]
pub enum UnOp {
    /// `-`
    Neg,
    /// `~`
    Not,
}

/// An operation on two integers (C99 6.5.5 to 6.5.7, 6.5.10 to 6.5.12).
#[derive(Clone, Copy, Debug, PartialEq, Eq)]
pub enum BinOp {
    /// `+`
    Add,
    /// `-`
    Sub,
    /// `*`
    Mul,
    /// `/`
    Div,
    /// `%`
    Rem,
    /// `&`
    And,
    /// `|`
    Or,
    /// `^`
    Xor,
    /// `<<`
    Shl,
    /// `>>`
    Shr,
}

/// A comparison (C99 6.5.8, 6.5.9).
#[derive(Clone, Copy, Debug, PartialEq, Eq)]
pub enum CmpOp {
    /// `==`
    Eq,
    /// `!=`
    Ne,
    /// `<`
    Lt,
    /// `>`
    Gt,
    /// `<=`
    Le,
    /// `>=`
    Ge,
}

/// A built-in function that has no statement of its own.
#[derive(Clone, Copy, Debug, PartialEq, Eq)]
pub enum LibName {
    /// Ends the run with a status modulo 256 (C99 7.20.4.3).
    Exit,
    /// Stops the run (C99 7.20.4.1).
    Abort,
    /// Copies bytes, and answers the destination (C99 7.21.2.1).
    Memcpy,
    /// Copies bytes as if through a buffer, and answers the destination (C99 7.21.2.2).
    Memmove,
    /// Sets bytes to a number modulo 256, and answers the pointer (C99 7.21.6.1).
    Memset,
    /// The number of bytes before the first zero (C99 7.21.6.3).
    Strlen,
    /// Compares bytes up to a zero, and answers -1, 0 or 1 (C99 7.21.4.2).
    Strcmp,
    /// The next byte of the input, or -1 at its end (C99 7.19.7.6).
    Getchar,
    /// Writes a number modulo 256 as a byte, and answers the byte (C99 7.19.7.9).
    Putchar,
    /// Writes the bytes before the first zero and a line end, and answers 0 (C99 7.19.7.10).
    Puts,
}

/// What a statement does. A `u32` that is written to is a register, and a target is a point.
#[derive(Debug, Drop)]
pub enum StmKind {
    /// A register becomes an operand's value.
    Set(u32, Atom),
    /// A register becomes an integer converted to a kind (C99 6.3.1.3).
    Conv(IntKind, u32, Atom),
    /// A register becomes the result of an operation in a kind, to which the operand is converted first.
    Un(UnOp, IntKind, u32, Atom),
    /// A register becomes the result of an operation in a kind, to which the operands are converted first; the count of a
    /// shift is taken as it is.
    Bin(BinOp, IntKind, u32, Atom, Atom),
    /// A register becomes 1 where the comparison of two integers holds, and else 0.
    Cmp(CmpOp, u32, Atom, Atom),
    /// A register becomes a pointer moved up by an integer times a number of bytes (C99 6.5.6).
    Add(u32, Atom, Atom, i128),
    /// A register becomes a pointer moved down by an integer times a number of bytes (C99 6.5.6).
    Sub(u32, Atom, Atom, i128),
    /// A register becomes a pointer moved up by a number of bytes.
    Off(u32, Atom, i128),
    /// A register becomes the difference of two pointers in elements of a number of bytes (C99 6.5.6 paragraph 9).
    Diff(u32, Atom, Atom, i128),
    /// A register becomes 1 where the comparison of two pointers holds, and else 0.
    Pcmp(CmpOp, u32, Atom, Atom),
    /// A register becomes 0 where a pointer is null, and else 1.
    Test(u32, Atom),
    /// A register becomes the integer of a kind at a pointer.
    Load(IntKind, u32, Atom),
    /// A register becomes the pointer at a pointer.
    Loadp(u32, Atom),
    /// The bytes at a pointer become an integer, which is converted to a kind first.
    Store(IntKind, Atom, Atom),
    /// The slot at a pointer becomes a pointer.
    Storep(Atom, Atom),
    /// So many bytes at the first pointer become those at the second.
    Copy(Atom, Atom, i128),
    /// So many bytes at a pointer become zero, and the slots among them null.
    Clear(Atom, i128),
    /// Goes to a point.
    Jump(u32),
    /// Goes to a point where the operand is 0.
    Zero(Atom, u32),
    /// Goes to a point where the operand is a number.
    Case(Atom, i128, u32),
    /// Takes a step, and goes back to a point.
    Loop(u32),
    /// Takes a step, and calls a function; a register takes its answer.
    Call(u32, Option<u32>, Items<Atom>),
    /// A register becomes a new object of so many bytes, whose elements have a layout (C99 7.20.3.3).
    Malloc(u32, Atom, Layout),
    /// A register becomes a new object of the product of two numbers of bytes (C99 7.20.3.1).
    Calloc(u32, Atom, Atom, Layout),
    /// A register becomes a new object of so many bytes, to which those of an old one are copied; the old one is queued
    /// (C99 7.20.3.4).
    Realloc(u32, Atom, Atom, Layout),
    /// Queues an object (C99 7.20.3.2).
    Free(Atom),
    /// Calls a built-in function; a register takes its answer.
    Lib(LibName, Option<u32>, Items<Atom>),
    /// Writes a format of the function with the arguments, and a register becomes the number of bytes (C99 7.19.6.3).
    Printf(u32, u32, Items<Atom>),
    /// Opens a scope.
    Enter,
    /// Closes a scope; where it is the outermost one, the queued objects are checked.
    Leave,
    /// Ends the call, with a result where the function has one.
    Return(Option<Atom>),
}
