//! The objects of the heap that were freed and wait for the end of a scope. They are sought behind a bad free: over the whole heap,
//! and without any memory. That they are told is this language's own (C99 7.20.3.2 leaves a pointer to a freed object
//! indeterminate).

ghost use Rattle.std.specs.Prelude.{◌≡◌, ◌+◌, ◌*◌, ◌/◌, ◌^◌, ◌<◌, ◌≤◌};
ghost use Rattle.flat_objects.specs.Keeping.{ForKept};
ghost use Rattle.flat_objects.specs.Leaks.{KeepsSome};
ghost use Rattle.flat_objects.specs.Waiting.{tells_waiting, waiting_of, with_waiting};

use crate::memory::FlatObjects;
use byte_memory::Steps;
use heap_blocks::{Header, STATE_QUEUED};
use hs_base::Line;
use std::sync::ledger::Ledger;

/// Some objects of the heap that wait: how many they are, the sum of their sizes in bytes, and the line of birth, where it is one.
#[derive(Clone, Copy, Debug, PartialEq, Eq)]
pub struct Waiting {
    pub blocks: u32,
    pub bytes: u64,
    pub line: Option<Line>,
}

/// Those that were met: how many, and the sums of their sizes and of their lines of birth.
#[derive(Clone, Copy)]
struct Tally {
    blocks: u32,
    bytes: u64,
    lines: u64,
}

/// Says whether an object waits that was freed at the line that is asked for, if one is.
fn tells_waiting(asked: Option<Line>, header: &Header) -> bool
    ensures { result ≡ tells_waiting asked header.now }
{
    match asked {
        Some(line) => header.state == STATE_QUEUED && header.freed == line,
        None => header.state == STATE_QUEUED,
    }
}

/// Those that were met, with what was met next.
fn with_waiting(asked: Option<Line>, tally: Tally, found: Option<Header>) -> Tally
    requires blocks { tally.blocks + 1 < 2 ^ 32 }
    requires bytes { tally.bytes + 2 ^ 32 < 2 ^ 64 }
    requires lines { tally.lines + 2 ^ 32 < 2 ^ 64 }
    ensures met { result ≡ with_waiting asked tally found }
    ensures few { result.blocks ≤ tally.blocks + 1 }
    ensures small { result.bytes ≤ tally.bytes + 2 ^ 32 }
    ensures low { result.lines + 4294967295 * tally.blocks ≤ tally.lines + 4294967295 * result.blocks }
{
    match found {
        Some(header) if tells_waiting(asked, &header) => Tally {
            blocks: tally.blocks + 1,
            bytes: tally.bytes + u64::from(header.size),
            lines: tally.lines + u64::from(header.line),
        },
        _ => tally,
    }
}

impl FlatObjects {
    /// The objects of the heap that wait and were freed at a line, or all that wait where none is asked for: how many they are, the
    /// sum of their sizes, and the line of birth, where it is one. At most eleven steps for each 16 bytes of the heap.
    pub fn waiting<L: Ledger>(&self, asked: Option<Line>, steps: &mut Steps<L>) -> Waiting
        requires { KeepsSome self.now }
        ensures waiting { ForKept self.now (λ _ all. result ≡ waiting_of asked all) }
        ensures work { steps.new ≤ steps.old + 11 * (self.now.heap.len / 16) }
    {
        let mut tally = Tally {
            blocks: 0,
            bytes: 0,
            lines: 0,
        };
        for granule in self.heap.base() / 16..self.heap.end() / 16 {
            let found = self.heap_header(16 * granule, steps);
            tally = with_waiting(asked, tally, found);
        }
        Waiting {
            blocks: tally.blocks,
            bytes: tally.bytes,
            line: if tally.blocks == 1 {
                Some(tally.lines as u32)
            } else {
                None
            },
        }
    }
}
