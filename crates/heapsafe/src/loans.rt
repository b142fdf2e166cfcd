//! Streams that were borrowed.

ghost use Rattle.std.specs.Prelude.{◌≡◌, ℕ};

use hs_base::{Failed, Sink, Source};
use std::marker::{Brand, Model, PhantomData};

/// A loan, by the name of the reference that was lent.
pub(crate) trait Loan {
    ghost name: { ℕ };
}

impl Loan for Brand {
    ghost name = { 0 };
}

/// A stream that was borrowed, as a stream of its own. Contracts see the stream behind the reference.
#[derive(Drop)]
pub(crate) struct Borrowed<'a, S, K: Loan> {
    stream: &'a mut S,
    loan: PhantomData<K>,
}

impl<'a, S, K: Loan> Model for Borrowed<'a, S, K> {
    ghost Value = { S };

    ghost view = { λ borrowed. borrowed.stream.now };

    ghost invariant = { λ borrowed. borrowed.stream.ghost_name ≡ K.name };
}

impl<'a, S, K: Loan> Borrowed<'a, S, K> {
    /// The stream, as it is lent now.
    pub(crate) fn new(stream: &'a mut S) -> Borrowed<'a, S, K>
        requires { stream.ghost_name ≡ K.name }
        ensures { result ≡ stream.old }
    {
        Borrowed {
            stream,
            loan: PhantomData,
        }
    }

    /// The reference that was lent.
    pub(crate) fn back(self) -> &'a mut S
        ensures same_reference { result.ghost_name ≡ K.name }
        ensures now { result.now ≡ self.entry }
    {
        let Borrowed { stream, .. } = self;
        stream
    }
}

impl<S: Source, K: Loan> Source for Borrowed<'_, S, K> {
    ghost left = { λ s. S.left s };

    ghost faults = { λ s. S.faults s };

    ghost fetched = { λ s. S.fetched s };

    fn next(&mut self) -> Result<Option<u8>, Failed> {
        self.stream.next()
    }

    fn ready(&self) -> &[u8] {
        self.stream.ready()
    }

    fn skip(&mut self, count: usize) {
        self.stream.skip(count);
    }
}

impl<S: Sink, K: Loan> Sink for Borrowed<'_, S, K> {
    ghost taken = { λ s. S.taken s };

    ghost faults = { λ s. S.faults s };

    fn put(&mut self, bytes: &[u8]) -> Result<usize, Failed> {
        self.stream.put(bytes)
    }
}
