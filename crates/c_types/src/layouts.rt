//! What a type is in memory.

use hs_base::Items;

/// The greatest size of a type, in bytes.
pub const MAX_SIZE: u32 = 268_435_456;

/// What a type is in memory: its size and alignment in bytes, and the offsets of its pointers, ascending.
#[derive(Debug, Drop)]
pub struct Layout {
    pub size: u32,
    pub align: u32,
    pub slots: Items<u32>,
}
