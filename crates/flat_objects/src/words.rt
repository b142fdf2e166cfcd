//! What a register of the machine holds.

/// A number, or the address of a pointer: 0 for null, or so many bytes behind the start of an object.
#[derive(Clone, Copy, Debug, PartialEq, Eq)]
pub enum Word {
    /// A number from -2^63 to 2^64 - 1.
    Number(i128),
    /// An address.
    Address(u32),
}
