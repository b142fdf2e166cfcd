//! Texts, input and output in memory, with planned failures.
//!
//! Each object counts its calls, from 1, and fails at those whose number stands in its list. A count of calls that has
//! reached the greatest number of 64 bits stands still there.

ghost use Rattle.std.specs.Prelude.{◌≡◌, ◌⊎◌, ℕ, ◌+◌, ◌<◌, ◌≤◌, ◌^◌, ◌↔◌, List, [], Some, None, IfOk, OnErr, IsErr, min, drop, length, option_copied};
ghost use Rattle.hs_base.specs.Plan.{IsPlanned, fetched_of};
ghost use Rattle.hs_base.specs.Outside.{text_of, text_or_empty, IsPiece, GivesPiece, TakesByte, PutsBytes, CountsFaults};

use crate::items::Items;
use crate::outside::{Failed, Sink, Source, Texts};
use crate::plan::Plan;
use std::alloc::Global;

/// The first text of that name.
pub(crate) fn find_text<'a>(
    texts: &'a [(Items<u8>, Items<u8>)],
    name: &str,
) -> Option<&'a Items<u8>>
    ensures { option_copied result ≡ text_of texts.now name.now }
{
    for (held, text) in texts {
        if held.as_slice() == name.as_bytes() {
            return Some(text);
        }
    }
    None
}

/// Copies what stands in a text from a place on to the front of a buffer, and answers how many bytes.
pub(crate) fn copy_piece(text: &[u8], place: u64, buffer: &mut [u8]) -> usize
    requires { 0 < length buffer.old }
    ensures bound { result ≤ length buffer.new }
    ensures piece { IsPiece text.now place buffer.new result }
{
    if place >= text.len() as u64 {
        return 0;
    }
    let rest = &text[place as usize..];
    let n = rest.len().min(buffer.len());
    buffer[..n].copy_from_slice(&rest[..n]);
    n
}

/// Texts by name. A call fails for a name without a text too.
#[derive(Drop)]
pub struct MemTexts {
    texts: Items<(Items<u8>, Items<u8>)>,
    plan: Plan,
}

impl MemTexts {
    /// The texts of these names. The calls with these numbers are to fail.
    pub fn new(texts: Items<(Items<u8>, Items<u8>)>, fails: Items<u64>) -> MemTexts
        ensures texts { result.texts ≡ texts }
        ensures plan { result.plan ≡ record { fails = fails; calls = 0; faults = 0 } }
    {
        MemTexts {
            texts,
            plan: Plan::new(fails),
        }
    }
}

impl Texts for MemTexts {
    ghost texts = { λ s. Some (text_or_empty s.texts) };

    ghost faults = { λ s. s.plan.faults };

    fn piece(&mut self, name: &str, place: u64, buffer: &mut [u8]) -> Result<usize, Failed>
        requires count { self.old.plan.faults + 1 < 2 ^ 64 }
        requires room { 0 < length buffer.old }
        ensures bound { IfOk result (λ n. n ≤ length buffer.new) }
        ensures bytes { GivesPiece (Some (text_or_empty self.old.texts)) name.now place buffer.new result }
        ensures keeps { self.new.texts ≡ self.old.texts }
        ensures cause { CountsFaults self.old.plan.faults self.new.plan.faults result }
        ensures failed { IsErr result ↔ (IsPlanned self.old.plan ⊎ (text_of self.old.texts name.now ≡ None)) }
    {
        let planned = self.plan.call();
        let found = find_text(self.texts.as_slice(), name);
        match found {
            Some(text) if !planned => Ok(copy_piece(text.as_slice(), place, buffer)),
            _ => {
                self.plan.fault();
                Err(Failed)
            }
        }
    }
}

/// A list of bytes as input. No bytes are ready before their call where calls are to fail.
#[derive(Drop)]
pub struct MemSource {
    bytes: Items<u8>,
    place: usize,
    plan: Plan,
    ghost inside: { place ≤ length bytes },
}

impl MemSource {
    /// All of these bytes. The calls with these numbers are to fail.
    pub fn new(bytes: Items<u8>, fails: Items<u64>) -> MemSource
        ensures bytes { drop result.place result.bytes ≡ bytes }
        ensures plan { result.plan ≡ record { fails = fails; calls = 0; faults = 0 } }
    {
        MemSource {
            bytes,
            place: 0,
            plan: Plan::new(fails),
        }
    }

    /// The bytes left.
    pub fn left(&self) -> &[u8]
        ensures { result.now ≡ drop self.now.place self.now.bytes }
    {
        &self.bytes.as_slice()[self.place..]
    }
}

impl Source for MemSource {
    ghost left = { λ s. Some (drop s.place s.bytes) };

    ghost faults = { λ s. s.plan.faults };

    ghost fetched = { λ s. fetched_of s.plan.fails (drop s.place s.bytes) };

    fn next(&mut self) -> Result<Option<u8>, Failed>
        requires count { self.old.plan.faults + 1 < 2 ^ 64 }
        ensures bytes { TakesByte (Some (drop self.old.place self.old.bytes)) (Some (drop self.new.place self.new.bytes)) result }
        ensures cause { CountsFaults self.old.plan.faults self.new.plan.faults result }
        ensures failed { IsErr result ↔ IsPlanned self.old.plan }
    {
        if self.plan.call() {
            self.plan.fault();
            return Err(Failed);
        }
        let bytes = self.bytes.as_slice();
        if self.place < bytes.len() {
            let byte = bytes[self.place];
            self.place += 1;
            Ok(Some(byte))
        } else {
            Ok(None)
        }
    }

    fn ready(&self) -> &[u8] {
        if self.plan.is_empty() {
            self.left()
        } else {
            &[]
        }
    }

    fn skip(&mut self, count: usize) {
        let rest = self.bytes.len() - self.place - count;
        self.place = self.bytes.len() - rest;
    }
}

/// Keeps the bytes that it takes. A refused growth of its own list is a fault.
#[derive(Drop)]
pub struct MemSink {
    bytes: Vec<u8>,
    most: usize,
    plan: Plan,
    ghost some: { 1 ≤ most },
}

impl MemSink {
    /// A sink that took nothing and takes at most so many bytes at a call. The calls with these numbers are to fail.
    pub fn new(alloc: Global, most: usize, fails: Items<u64>) -> MemSink
        requires { 1 ≤ most }
        ensures bytes { result.bytes.items ≡ [] }
        ensures most { result.most ≡ most }
        ensures plan { result.plan ≡ record { fails = fails; calls = 0; faults = 0 } }
    {
        MemSink {
            bytes: Vec::new(alloc),
            most,
            plan: Plan::new(fails),
        }
    }

    /// The bytes taken.
    pub fn bytes(&self) -> &[u8]
        ensures { result.now ≡ self.now.bytes.items }
    {
        self.bytes.as_slice()
    }
}

impl Sink for MemSink {
    ghost taken = { λ s. Some s.bytes.items };

    ghost faults = { λ s. s.plan.faults };

    fn put(&mut self, bytes: &[u8]) -> Result<usize, Failed>
        requires count { self.old.plan.faults + 1 < 2 ^ 64 }
        requires some { 0 < length bytes.now }
        ensures bound { IfOk result (λ n. (0 < n) × (n ≤ length bytes.now)) }
        ensures bytes { PutsBytes (Some self.old.bytes.items) (Some self.new.bytes.items) bytes.now result }
        ensures cause { CountsFaults self.old.plan.faults self.new.plan.faults result }
        ensures most { IfOk result (λ n. n ≡ min self.old.most (length bytes.now)) }
        ensures planned { IsPlanned self.old.plan → IsErr result }
        ensures keeps { self.new.most ≡ self.old.most }
    {
        let n = self.most.min(bytes.len());
        let planned = self.plan.call();
        if planned || self.bytes.extend_from_slice(&bytes[..n]).is_err() {
            self.plan.fault();
            return Err(Failed);
        }
        Ok(n)
    }
}
