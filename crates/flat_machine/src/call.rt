//! A call that is under way.

/// A call that is under way. Its registers are the words from its base on, up to where the next call begins, and so are the
/// addresses of its memory locals.
#[derive(Clone, Copy)]
pub(crate) struct Call {
    pub(crate) func: u32,
    /// The instruction that it is at.
    pub(crate) point: usize,
    pub(crate) base: usize,
    /// The birth of its first memory local.
    pub(crate) first: u64,
    /// Where the addresses of its memory locals begin.
    pub(crate) from: usize,
    /// The bytes of stack that are in use with it.
    pub(crate) used: u32,
}
