//! Instructions.

use core_tree::{BinOp, CmpOp, LibName, UnOp};
use hs_base::IntKind;

/// An instruction: its operation, and the numbers that belong to it, which are 0 where the operation has no use for them.
/// Registers are numbered within the running function, and targets are instructions.
#[derive(Clone, Copy, Debug, PartialEq, Eq)]
pub struct Instr {
    pub op: Op,
    pub a: u32,
    pub b: u32,
    pub c: u32,
    pub imm: i64,
}

/// What an instruction does. Register `a` takes the result of an operation that has one; of `Call` and `Lib` only where `c`
/// is 1.
#[derive(Clone, Copy, Debug, PartialEq, Eq)]
pub enum Op {
    /// Begins the run: calls the function `imm`. It is the first instruction and stands nowhere else.
    Start,
    /// Hands over what register `a` holds.
    HandReg,
    /// Hands over the integer `imm`.
    HandInt,
    /// Hands over the integer whose low 64 bits are those of `imm`, from 0 to 2^64 - 1.
    HandUnsigned,
    /// Hands over the null pointer.
    HandNull,
    /// Hands over the address of the static `a`.
    HandStatic,
    /// Hands over the address of the memory local `a` of the running call.
    HandLocal,
    /// Gives what it takes.
    Set,
    /// Gives an integer converted to a kind (C99 6.3.1.3).
    Conv(IntKind),
    /// An operation on one integer, which is converted to the kind first (C99 6.5.3.3).
    Un(UnOp, IntKind),
    /// An operation on two integers, which are converted to the kind first; the count of a shift is taken as it is (C99
    /// 6.5.5 to 6.5.7, 6.5.10 to 6.5.12).
    Bin(BinOp, IntKind),
    /// A comparison of two integers: 1 or 0 (C99 6.5.8, 6.5.9).
    Cmp(CmpOp),
    /// A pointer moved up by an integer times `imm` bytes (C99 6.5.6).
    Add,
    /// A pointer moved down by an integer times `imm` bytes (C99 6.5.6).
    Sub,
    /// The difference of two pointers in elements of `imm` bytes (C99 6.5.6 paragraph 9).
    Diff,
    /// A comparison of two pointers: 1 or 0 (C99 6.5.8, 6.5.9).
    Pcmp(CmpOp),
    /// 0 for the null pointer, and else 1.
    Test,
    /// The integer of a kind at a pointer.
    Load(IntKind),
    /// The pointer at a pointer.
    Loadp,
    /// The bytes at a pointer become an integer, which is converted to the kind first.
    Store(IntKind),
    /// The slot at a pointer becomes a pointer.
    Storep,
    /// The bytes at the first pointer become those at the second: as many as the third operand says.
    Copy,
    /// So many bytes at a pointer become zero, and the slots among them null.
    Clear,
    /// Goes to `b`.
    Jump,
    /// Goes to `b` where the integer is 0.
    Zero,
    /// Goes to `b` where the two integers are equal.
    Case,
    /// Takes a step, and goes back to `b`.
    Loop,
    /// Takes a step, and calls the function `b`.
    Call,
    /// A new object of so many bytes, whose elements have the layout `b` (C99 7.20.3.3).
    Malloc,
    /// A new object of the product of two numbers of bytes (C99 7.20.3.1).
    Calloc,
    /// A new object of so many bytes, to which those of an old one are copied; the old one is queued (C99 7.20.3.4).
    Realloc,
    /// Queues an object (C99 7.20.3.2).
    Free,
    /// Calls a built-in function.
    Lib(LibName),
    /// Writes the format `b` with what it takes, and gives the number of bytes (C99 7.19.6.3).
    Printf,
    /// Opens a scope.
    Enter,
    /// Closes a scope; where it is the outermost one, the queued objects are checked.
    Leave,
    /// Ends the call without a result.
    Return,
    /// Ends the call with a result.
    Give,
}
