//! A sink that tells what it takes, over one that may not tell it.
//!
//! What a run is known to do stands on an output that tells what it takes. An output that tells nothing is run with by way of
//! [`Told`], so that all else that is known of the run is known there too.

ghost use Rattle.std.specs.Prelude.{◌≡◌, ◌++◌, ℕ, List, [], Option, Some, None};

use crate::log::{Log, Piece};
use hs_base::{Failed, Sink};
use std::marker::{Brand, PhantomData};

/// A sink as it was lent: the name of the loan, and what the sink had taken.
pub(crate) trait Lent {
    ghost name: { ℕ };

    ghost taken: { Option (List ℕ) };
}

impl Lent for Brand {
    ghost name = { 0 };

    ghost taken = { None };
}

/// A sink that was lent, and what it has taken since.
#[derive(Drop)]
pub(crate) struct Told<'a, O: Sink, K: Lent> {
    pub(crate) sink: &'a mut O,
    pub(crate) log: Log,
    lent: PhantomData<K>,
    ghost same_loan: { sink.ghost_name ≡ K.name },
    ghost takes: { (t : List ℕ) → K.taken ≡ Some t → O.taken sink.now ≡ Some (t ++ log.bytes) },
}

impl<'a, O: Sink, K: Lent> Told<'a, O, K> {
    /// The sink, as it was lent.
    pub(crate) fn new(sink: &'a mut O) -> Told<'a, O, K>
        requires same_loan { sink.ghost_name ≡ K.name }
        requires taken { O.taken sink.old ≡ K.taken }
        ensures same_reference { result.sink.ghost_name ≡ sink.entry.ghost_name }
        ensures now { result.sink.now ≡ sink.old }
        ensures none { result.log.bytes ≡ [] }
    {
        Told {
            sink,
            log: Log::new(),
            lent: PhantomData,
        }
    }
}

impl<O: Sink, K: Lent> Sink for Told<'_, O, K> {
    ghost taken = { λ s. Some s.log.bytes };

    ghost faults = { λ s. O.faults s.sink.now };

    fn put(&mut self, bytes: &[u8]) -> Result<usize, Failed> {
        let count = self.sink.put(bytes)?;
        self.log = self.log.then(&Piece { bytes, count });
        Ok(count)
    }
}
