//! The outside of a run: where texts and input come from, and where output goes to.
//!
//! Each object keeps a count of its faults, a number of 64 bits, and a call wants it to be below the greatest one.
//! `Failed` raises the count by one and every `Ok` leaves it, so a count never falls and rises exactly with a
//! `Failed`. What an object holds, has left or has taken may be told to contracts or not; what is told before a call is
//! told after it.

ghost use Rattle.std.specs.Prelude.{◌≡◌, ℕ, ◌+◌, ◌<◌, ◌≤◌, ◌^◌, List, Option, IfOk, drop, length};
ghost use Rattle.hs_base.specs.Outside.{GivesPiece, TakesByte, BeginsWith, SkipsBytes, PutsBytes, CountsFaults};

use thiserror::Error;

/// The outside failed.
#[derive(Clone, Copy, Debug, PartialEq, Eq, Error)]
#[error("failed")]
pub struct Failed;

/// Where texts are read, by name.
pub trait Texts {
    /// The text that each name has, where it is told.
    ghost texts: { Self → Option (List ℕ → List ℕ) };

    /// How often a call failed.
    ghost faults: { Self → ℕ };

    /// Reads a piece of the text of that name from a place, in bytes, into the front of the buffer, and answers its
    /// length: 0 exactly at or past the text's end.
    fn piece(&mut self, name: &str, place: u64, buffer: &mut [u8]) -> Result<usize, Failed>
        requires count { faults self.old + 1 < 2 ^ 64 }
        requires room { 0 < length buffer.old }
        ensures bound { IfOk result (λ n. n ≤ length buffer.new) }
        ensures bytes { GivesPiece (texts self.old) name.now place buffer.new result }
        ensures keeps { texts self.new ≡ texts self.old }
        ensures cause { CountsFaults (faults self.old) (faults self.new) result };
}

/// Where input is read, a byte at a time.
pub trait Source {
    /// The bytes left, where they are told.
    ghost left: { Self → Option (List ℕ) };

    /// How often a call failed.
    ghost faults: { Self → ℕ };

    /// The bytes that are ready.
    ghost fetched: { Self → List ℕ };

    /// The next byte, or `None` exactly at the end. `None` and a failure leave the bytes that are left.
    fn next(&mut self) -> Result<Option<u8>, Failed>
        requires count { faults self.old + 1 < 2 ^ 64 }
        ensures bytes { TakesByte (left self.old) (left self.new) result }
        ensures cause { CountsFaults (faults self.old) (faults self.new) result };

    /// The bytes that were fetched already and are still to be read: the first of those left.
    fn ready(&self) -> &[u8]
        ensures value { result.now ≡ fetched self.now }
        ensures first { BeginsWith (left self.now) result.now };

    /// Reads past so many of the bytes that are ready.
    fn skip(&mut self, count: usize)
        requires { count ≤ length (fetched self.old) }
        ensures left { SkipsBytes (left self.old) (left self.new) count }
        ensures rest { fetched self.new ≡ drop count (fetched self.old) }
        ensures faults { faults self.new ≡ faults self.old };
}

/// Where output is written.
pub trait Sink {
    /// The bytes taken, where they are told.
    ghost taken: { Self → Option (List ℕ) };

    /// How often a call failed.
    ghost faults: { Self → ℕ };

    /// Takes the first bytes of a piece, at least one, and answers how many. A failure takes none.
    fn put(&mut self, bytes: &[u8]) -> Result<usize, Failed>
        requires count { faults self.old + 1 < 2 ^ 64 }
        requires some { 0 < length bytes.now }
        ensures bound { IfOk result (λ n. (0 < n) × (n ≤ length bytes.now)) }
        ensures bytes { PutsBytes (taken self.old) (taken self.new) bytes.now result }
        ensures cause { CountsFaults (faults self.old) (faults self.new) result };
}
