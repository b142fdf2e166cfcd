//! What a register or a slot holds in the object meaning.

/// A pointer: null, or an object, by its birth number, and an offset in bytes from 0 to the object's size.
#[derive(Clone, Copy, Debug, PartialEq, Eq)]
pub enum Pointer {
    Null,
    At { birth: u64, offset: u32 },
}

/// What a register holds: a number from -2^63 to 2^64 - 1, or a pointer.
#[derive(Clone, Copy, Debug, PartialEq, Eq)]
pub enum Value {
    Number(i128),
    Pointer(Pointer),
}
