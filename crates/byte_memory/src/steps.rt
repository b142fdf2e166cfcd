//! A count of steps that takes no room and no time.

ghost use Rattle.std.specs.Prelude.{◌≡◌, ◌+◌, ◌<◌};

use std::alloc::Global;
use std::marker::Model;
use std::sync::ledger::{Blank, Book, Ledger, Share};

/// The right to begin a count. It is made with an allocator. The calls that a run counts are given none, and nothing that
/// they are given lends one, so none of them can begin a count beside the one of its caller.
#[derive(Debug, Drop)]
pub struct CountRight {
    made: (),
}

impl CountRight {
    /// The right of whoever has an allocator.
    pub fn new(_alloc: Global) -> CountRight {
        CountRight { made: () }
    }
}

/// How many steps were taken. It takes no bytes, and only [`Steps::tick`] changes it. A caller that counts nothing makes
/// one from a `Blank` for any ledger.
#[derive(Drop)]
pub struct Steps<L: Ledger> {
    book: Book<L>,
    share: Share<L>,
}

impl<L: Ledger> Model for Steps<L> {
    ghost use Rattle.std.specs.Prelude.{ℕ, ◌<◌};

    ghost Value = { ℕ };

    ghost view = { λ s. s.book.total };

    ghost invariant = { λ s. 0 < s.share.parts };
}

impl<L: Ledger> Steps<L> {
    /// No steps so far. Who begins a count has the right to.
    pub fn new(blank: Blank, _right: &CountRight) -> Steps<L>
        requires name { blank.name ≡ L.name }
        requires parts { blank.parts ≡ L.parts }
        requires some { 0 < blank.parts }
        ensures { result ≡ 0 }
    {
        let (book, share) = blank.open();
        Steps { book, share }
    }

    /// One step more. It has no code.
    #[inline(always)]
    pub fn tick(&mut self)
        ensures { self.new ≡ self.old + 1 }
    {
        self.book.add(&mut self.share, 1);
    }
}
