//! How a run ends, and the kinds of integers.

/// A line of a C text, counted from 1.
pub type Line = u32;

/// A kind of integer: its sign and its width in bits. The types `int` and `long` are of one kind (C99 6.2.5 leaves
/// their widths open; here both have 32 bits).
#[derive(Clone, Copy, Debug, PartialEq, Eq)]
pub enum IntKind {
    I8,
    U8,
    I16,
    U16,
    I32,
    U32,
    I64,
    U64,
}

/// The heap objects of one line of birth that are still there at the end of a run.
#[derive(Clone, Copy, Debug, PartialEq, Eq)]
pub struct Leak {
    /// The line of birth.
    pub line: Line,
    /// How many objects there are.
    pub blocks: u32,
    /// The sum of their sizes in bytes.
    pub bytes: u64,
}

/// How much a run may take, in bytes.
#[derive(Clone, Copy, Debug, PartialEq, Eq)]
pub struct Limits {
    /// The size of the heap.
    pub heap: u32,
    /// The greatest sum of the costs of the active calls.
    pub stack: u32,
}

/// Why a statement stopped the run.
#[derive(Clone, Copy, Debug, PartialEq, Eq)]
pub enum TrapKind {
    /// Null in an access, in arithmetic by a distance other than 0, in a relational comparison or in a subtraction.
    Null,
    /// An access or a range of bytes past the object's size.
    Bounds,
    /// An access at an offset that its width does not divide.
    Align,
    /// An access, a copy or a set of bytes against the object's pointer slots.
    Layout,
    /// Pointer arithmetic to an offset below 0 or above the object's size.
    Range,
    /// A relational comparison or a subtraction over two objects.
    Objects,
    /// `/` or `%` by zero.
    Divide,
    /// A shift by a negative count, or by at least the width of its left operand.
    Shift,
    /// A call of `abort`.
    Abort,
}

/// Why a free is wrong.
#[derive(Clone, Copy, Debug, PartialEq, Eq)]
pub enum Reason {
    /// A pointer to the object is left that counts.
    Held,
    /// The object is freed already and waits for the end of its scope.
    Again,
    /// The pointer is not the start of a heap object.
    NotStart,
}

/// A wrong free: why, and the line of the free.
#[derive(Clone, Copy, Debug, PartialEq, Eq)]
pub struct BadFree {
    pub reason: Reason,
    pub line: Line,
}

/// Where the first pointer stands that holds a freed object.
#[derive(Clone, Copy, Debug, PartialEq, Eq)]
pub enum Holder {
    /// In a static, by its number, at an offset in bytes.
    Global { index: u32, offset: u32 },
    /// In a memory local, by its function and number, at an offset in bytes.
    Memory { func: u32, index: u32, offset: u32 },
    /// In a heap object, by its line of birth, at an offset in bytes.
    Block { line: Line, offset: u32 },
    /// In a register, by its function and number.
    Register { func: u32, index: u32 },
}

/// How a run ends.
#[derive(Clone, Copy, Debug, PartialEq, Eq)]
pub enum End {
    /// By `exit` or by return from the first call of main, with this status.
    Exit(u8),
    /// At a trap, with its line.
    Trap(TrapKind, Line),
    /// At a wrong free. The holder is there where the reason is `Held`.
    BadFree(BadFree, Option<Holder>),
    /// At a return, where a pointer to a memory local of the ending call is left: its function, its number, and the
    /// line of the return.
    Escape { func: u32, local: u32, line: Line },
    /// Where one step more would be made than is allowed.
    Spent,
    /// Where a call does not fit the stack.
    OutOfStack(Line),
    /// The input failed.
    InputFault,
    /// The output failed.
    OutputFault,
}
