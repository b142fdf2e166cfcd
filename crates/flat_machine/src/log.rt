//! Notes that are kept for contracts alone.

ghost use Rattle.std.specs.Prelude.{◌≡◌, ◌++◌, ℕ, List, [], take};
ghost use Rattle.std.specs.Borrow.{ftrue};
ghost use Rattle.flat_machine.specs.Noted.{numbers};

use crate::note::Note;
use std::marker::Model;

/// The first notes of a slice.
#[derive(Clone, Copy, Drop)]
pub(crate) struct Piece<'a> {
    pub(crate) notes: &'a [Note],
    pub(crate) count: usize,
}

/// Some notes, which contracts see and no memory holds.
#[derive(Drop)]
pub(crate) struct Log {
    pub(crate) ghost notes: { List ℕ },
}

impl Model for Log {
    ghost also_owns = { λ _. ftrue };
}

impl Log {
    /// No notes.
    pub(crate) fn new() -> Log
        ensures { result.notes ≡ [] }
    {
        Log {}
    }

    /// These notes, and a piece behind them.
    pub(crate) fn then(&self, _piece: &Piece<'_>) -> Log
        ensures { result.notes ≡ self.now.notes ++ numbers (take _piece.now.count _piece.now.notes.now) }
    {
        Log {}
    }
}
