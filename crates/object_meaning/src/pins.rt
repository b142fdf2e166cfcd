//! Registers that count at a point.

/// A register of a function that counts while its frame is at a point: the pointer in it holds its object there.
#[derive(Clone, Copy, Debug, PartialEq, Eq)]
pub struct Pin {
    pub point: u32,
    pub reg: u32,
}
