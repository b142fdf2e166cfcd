//! Leaks: the objects of the heap that are not dead, by their lines of birth. They are sought behind the end of a run: over all
//! objects, and without any memory. That they are told is this language's own (C99 7.20.3 lets a program end with objects that it
//! has not freed).

ghost use Rattle.std.specs.Prelude.{◌≡◌, ◌+◌, ◌*◌, ◌/◌, ◌^◌, ◌<◌, ◌≤◌};
ghost use Rattle.flat_objects.specs.Keeping.{ForKept};
ghost use Rattle.flat_objects.specs.Leaks.{IsHeaderAt, KeepsSome, leak_after, leak_of, next_line, with_line, with_object};

use crate::memory::FlatObjects;
use byte_memory::Steps;
use heap_blocks::{HEADER_SIZE, Header};
use hs_base::{Leak, Line};
use std::sync::ledger::Ledger;

/// The least line above another that was met, with the line of what was met next.
fn with_line(after: Line, least: Option<Line>, found: Option<Header>) -> Option<Line>
    ensures { result ≡ with_line after least found }
{
    match (least, found) {
        (_, Some(header)) if header.line <= after => least,
        (Some(least), Some(header)) => Some(least.min(header.line)),
        (None, Some(header)) => Some(header.line),
        (_, None) => least,
    }
}

/// The objects of a line that were met, with what was met next, if it was born at that line.
fn with_object(leak: Leak, found: Option<Header>) -> Leak
    requires blocks { leak.blocks + 1 < 2 ^ 32 }
    requires bytes { leak.bytes + 2 ^ 32 < 2 ^ 64 }
    ensures { result ≡ with_object leak found }
{
    match found {
        Some(header) if header.line == leak.line => Leak {
            line: leak.line,
            blocks: leak.blocks + 1,
            bytes: leak.bytes + u64::from(header.size),
        },
        _ => leak,
    }
}

impl FlatObjects {
    /// The header of the object of the heap that starts at an address, if one does. At most eleven steps.
    pub(crate) fn heap_header<L: Ledger>(&self, addr: u32, steps: &mut Steps<L>) -> Option<Header>
        requires { KeepsSome self.now }
        ensures header { ForKept self.now (λ places all. IsHeaderAt places all addr result) }
        ensures work { steps.new ≤ steps.old + 11 }
    {
        if !self.is_heap_start(addr, steps) {
            return None;
        }
        Some(Header::read(&self.bytes, addr - HEADER_SIZE, steps))
    }

    /// The least line of birth above a line, of the objects of the heap that are not dead.
    fn next_line<L: Ledger>(&self, after: Line, steps: &mut Steps<L>) -> Option<Line>
        requires { KeepsSome self.now }
        ensures line { ForKept self.now (λ _ all. result ≡ next_line after all) }
        ensures work { steps.new ≤ steps.old + 11 * (self.now.heap.len / 16) }
    {
        let mut next = None;
        for granule in self.heap.base() / 16..self.heap.end() / 16 {
            let found = self.heap_header(16 * granule, steps);
            next = with_line(after, next, found);
        }
        next
    }

    /// The objects of the heap that were born at a line and are not dead.
    fn leak_of<L: Ledger>(&self, line: Line, steps: &mut Steps<L>) -> Leak
        requires { KeepsSome self.now }
        ensures leak { ForKept self.now (λ _ all. result ≡ leak_of all line) }
        ensures work { steps.new ≤ steps.old + 11 * (self.now.heap.len / 16) }
    {
        let mut leak = Leak {
            line,
            blocks: 0,
            bytes: 0,
        };
        for granule in self.heap.base() / 16..self.heap.end() / 16 {
            let found = self.heap_header(16 * granule, steps);
            leak = with_object(leak, found);
        }
        leak
    }

    /// Of the objects of the heap that are not dead, those with the least line of birth above a line: that line, how many they
    /// are, and the sum of their sizes in bytes; none where no such object was born above it. Queued objects are among them.
    /// At most 22 steps for each 16 bytes of the heap.
    pub fn leak<L: Ledger>(&self, after: Line, steps: &mut Steps<L>) -> Option<Leak>
        requires { KeepsSome self.now }
        ensures leak { ForKept self.now (λ _ all. result ≡ leak_after after all) }
        ensures work { steps.new ≤ steps.old + 22 * (self.now.heap.len / 16) }
    {
        let line = self.next_line(after, steps)?;
        Some(self.leak_of(line, steps))
    }
}
