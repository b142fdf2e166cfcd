//! Bytes that are kept for contracts alone.

ghost use Rattle.std.specs.Prelude.{◌≡◌, ◌++◌, ℕ, List, [], take};
ghost use Rattle.std.specs.Borrow.{ftrue};

use std::marker::Model;

/// The first bytes of a slice.
#[derive(Clone, Copy, Drop)]
pub(crate) struct Piece<'a> {
    pub(crate) bytes: &'a [u8],
    pub(crate) count: usize,
}

/// Some bytes, which contracts see and no memory holds.
#[derive(Drop)]
pub(crate) struct Log {
    pub(crate) ghost bytes: { List ℕ },
}

impl Model for Log {
    ghost also_owns = { λ _. ftrue };
}

impl Log {
    /// No bytes.
    pub(crate) fn new() -> Log
        ensures { result.bytes ≡ [] }
    {
        Log {}
    }

    /// These bytes, and a piece behind them.
    pub(crate) fn then(&self, _piece: &Piece<'_>) -> Log
        ensures { result.bytes ≡ self.now.bytes ++ take _piece.now.count _piece.now.bytes.now }
    {
        Log {}
    }
}
