//! Texts, input and output in memory that never fail.

ghost use Rattle.std.specs.Prelude.{◌≡◌, ◌≤◌, ℕ, Some, None, drop, length};
ghost use Rattle.hs_base.specs.Outside.{text_or_empty};

use crate::items::Items;
use crate::memory::{copy_piece, find_text};
use crate::outside::{Failed, Sink, Source, Texts};

/// Texts by name. A name without a text has the empty text.
#[derive(Drop)]
pub struct SureTexts {
    texts: Items<(Items<u8>, Items<u8>)>,
}

impl SureTexts {
    /// The texts of these names.
    pub fn new(texts: Items<(Items<u8>, Items<u8>)>) -> SureTexts
        ensures { result.texts ≡ texts }
    {
        SureTexts { texts }
    }
}

impl Texts for SureTexts {
    ghost texts = { λ s. Some (text_or_empty s.texts) };

    ghost faults = { λ _. 0 };

    fn piece(&mut self, name: &str, place: u64, buffer: &mut [u8]) -> Result<usize, Failed> {
        match find_text(self.texts.as_slice(), name) {
            Some(text) => Ok(copy_piece(text.as_slice(), place, buffer)),
            None => Ok(0),
        }
    }
}

/// A list of bytes as input.
#[derive(Drop)]
pub struct SureSource {
    bytes: Items<u8>,
    place: usize,
    ghost inside: { place ≤ length bytes },
}

impl SureSource {
    /// All of these bytes.
    pub fn new(bytes: Items<u8>) -> SureSource
        ensures bytes { result.bytes ≡ bytes }
        ensures place { result.place ≡ 0 }
    {
        SureSource { bytes, place: 0 }
    }
}

impl Source for SureSource {
    ghost left = { λ s. Some (drop s.place s.bytes) };

    ghost faults = { λ _. 0 };

    ghost fetched = { λ s. drop s.place s.bytes };

    fn next(&mut self) -> Result<Option<u8>, Failed> {
        let bytes = self.bytes.as_slice();
        if self.place < bytes.len() {
            let byte = bytes[self.place];
            self.place += 1;
            Ok(Some(byte))
        } else {
            Ok(None)
        }
    }

    fn ready(&self) -> &[u8] {
        &self.bytes.as_slice()[self.place..]
    }

    fn skip(&mut self, count: usize) {
        let rest = self.bytes.len() - self.place - count;
        self.place = self.bytes.len() - rest;
    }
}

/// Takes all bytes and keeps none.
#[derive(Drop)]
pub struct SureSink {}

impl SureSink {
    /// A sink that keeps nothing.
    pub fn new() -> SureSink {
        SureSink {}
    }
}

impl Sink for SureSink {
    ghost taken = { λ _. None };

    ghost faults = { λ _. 0 };

    fn put(&mut self, bytes: &[u8]) -> Result<usize, Failed> {
        Ok(bytes.len())
    }
}
