//! The header of a block.

ghost use Rattle.std.specs.Prelude.{◌≡◌, ◌+◌, ◌^◌, ◌<◌, ◌≤◌, length};
ghost use Rattle.byte_memory.specs.Bytes.{word};
ghost use Rattle.heap_blocks.specs.Bytes.{ChangesOnly};
ghost use Rattle.heap_blocks.specs.Heads.{header_at, new_header};
ghost use Rattle.heap_blocks.specs.Calls.{queued};

use byte_memory::{FlatBytes, Steps};
use hs_base::Line;
use std::sync::ledger::Ledger;

/// How many bytes a header has.
pub const HEADER_SIZE: u32 = 32;

/// The state of an object that was not freed.
pub const STATE_LIVE: u32 = 1;

/// The state of an object that was freed and waits for the check.
pub const STATE_QUEUED: u32 = 2;

/// What stands in front of an object, each number with its lowest byte first.
#[derive(Clone, Copy, Debug, PartialEq, Eq)]
pub struct Header {
    /// The object's birth number, 8 bytes from the block's start.
    pub birth: u64,
    /// The object's size in bytes, 4 bytes at 8.
    pub size: u32,
    /// The number of the layout of the object's elements, 4 bytes at 12.
    pub layout: u32,
    /// The line that made the object, 4 bytes at 16.
    pub line: Line,
    /// [`STATE_LIVE`] or [`STATE_QUEUED`], 4 bytes at 20.
    pub state: u32,
    /// The line that freed the object, or 0, 4 bytes at 24.
    pub freed: Line,
    /// The address of the block that was queued next, or 0, 4 bytes at 28.
    pub next: u32,
}

impl Header {
    /// The header of a new object.
    pub fn new(birth: u64, size: u32, layout: u32, line: Line) -> Header
        ensures { result ≡ new_header birth size layout line }
    {
        Header {
            birth,
            size,
            layout,
            line,
            state: STATE_LIVE,
            freed: 0,
            next: 0,
        }
    }

    /// The header of the block at an address. Seven steps.
    #[inline(always)]
    pub fn read<L: Ledger>(bytes: &FlatBytes, block: u32, steps: &mut Steps<L>) -> Header
        requires inside { block + HEADER_SIZE ≤ length bytes.now }
        requires fits { block + HEADER_SIZE < 2 ^ 32 }
        ensures header { result ≡ header_at bytes.now block }
        ensures steps { steps.new ≡ steps.old + 7 }
    {
        Header {
            birth: bytes.read(block, 8, steps),
            size: bytes.read(block + 8, 4, steps) as u32,
            layout: bytes.read(block + 12, 4, steps) as u32,
            line: bytes.read(block + 16, 4, steps) as u32,
            state: bytes.read(block + 20, 4, steps) as u32,
            freed: bytes.read(block + 24, 4, steps) as u32,
            next: bytes.read(block + 28, 4, steps) as u32,
        }
    }

    /// The size of the object of the block at an address. One step.
    #[inline(always)]
    pub fn read_size<L: Ledger>(bytes: &FlatBytes, block: u32, steps: &mut Steps<L>) -> u32
        requires inside { block + HEADER_SIZE ≤ length bytes.now }
        requires fits { block + HEADER_SIZE < 2 ^ 32 }
        ensures size { result ≡ word bytes.now (block + 8) 4 }
        ensures steps { steps.new ≡ steps.old + 1 }
    {
        bytes.read(block + 8, 4, steps) as u32
    }

    /// The number of the layout of the object of the block at an address. One step.
    #[inline(always)]
    pub fn read_layout<L: Ledger>(bytes: &FlatBytes, block: u32, steps: &mut Steps<L>) -> u32
        requires inside { block + HEADER_SIZE ≤ length bytes.now }
        requires fits { block + HEADER_SIZE < 2 ^ 32 }
        ensures layout { result ≡ (header_at bytes.now block).layout }
        ensures steps { steps.new ≡ steps.old + 1 }
    {
        bytes.read(block + 12, 4, steps) as u32
    }

    /// The state of the object of the block at an address. One step.
    #[inline(always)]
    pub fn read_state<L: Ledger>(bytes: &FlatBytes, block: u32, steps: &mut Steps<L>) -> u32
        requires inside { block + HEADER_SIZE ≤ length bytes.now }
        requires fits { block + HEADER_SIZE < 2 ^ 32 }
        ensures state { result ≡ (header_at bytes.now block).state }
        ensures steps { steps.new ≡ steps.old + 1 }
    {
        bytes.read(block + 20, 4, steps) as u32
    }

    /// The line that freed the object of the block at an address, or 0. One step.
    #[inline(always)]
    pub fn read_freed<L: Ledger>(bytes: &FlatBytes, block: u32, steps: &mut Steps<L>) -> Line
        requires inside { block + HEADER_SIZE ≤ length bytes.now }
        requires fits { block + HEADER_SIZE < 2 ^ 32 }
        ensures freed { result ≡ (header_at bytes.now block).freed }
        ensures steps { steps.new ≡ steps.old + 1 }
    {
        bytes.read(block + 24, 4, steps) as u32
    }

    /// The block that was queued next behind the block at an address, or 0. One step.
    #[inline(always)]
    pub fn read_next<L: Ledger>(bytes: &FlatBytes, block: u32, steps: &mut Steps<L>) -> u32
        requires inside { block + HEADER_SIZE ≤ length bytes.now }
        requires fits { block + HEADER_SIZE < 2 ^ 32 }
        ensures next { result ≡ (header_at bytes.now block).next }
        ensures steps { steps.new ≡ steps.old + 1 }
    {
        bytes.read(block + 28, 4, steps) as u32
    }

    /// Writes into the header of a block that its object is queued, by a free at a line, with no block behind it. No
    /// other byte changes. Three steps.
    pub fn write_queued<L: Ledger>(
        bytes: &mut FlatBytes,
        block: u32,
        freed: Line,
        steps: &mut Steps<L>,
    )
        requires inside { block + HEADER_SIZE ≤ length bytes.old }
        requires fits { block + HEADER_SIZE < 2 ^ 32 }
        ensures header { header_at bytes.new block ≡ queued (header_at bytes.old block) STATE_QUEUED freed }
        ensures outside { ChangesOnly bytes.old bytes.new (block + 20) 12 }
        ensures steps { steps.new ≡ steps.old + 3 }
    {
        bytes.write(block + 20, 4, u64::from(STATE_QUEUED), steps);
        bytes.write(block + 24, 4, u64::from(freed), steps);
        bytes.write(block + 28, 4, 0, steps);
    }

    /// Writes into the header of a block which block was queued behind it. No other byte changes. One step.
    pub fn write_next<L: Ledger>(bytes: &mut FlatBytes, block: u32, next: u32, steps: &mut Steps<L>)
        requires inside { block + HEADER_SIZE ≤ length bytes.old }
        requires fits { block + HEADER_SIZE < 2 ^ 32 }
        ensures header { header_at bytes.new block ≡ record (header_at bytes.old block) { next = next } }
        ensures outside { ChangesOnly bytes.old bytes.new (block + 28) 4 }
        ensures steps { steps.new ≡ steps.old + 1 }
    {
        bytes.write(block + 28, 4, u64::from(next), steps);
    }

    /// Writes the header of the block at an address. No other byte changes. Seven steps.
    pub fn write<L: Ledger>(&self, bytes: &mut FlatBytes, block: u32, steps: &mut Steps<L>)
        requires inside { block + HEADER_SIZE ≤ length bytes.old }
        requires fits { block + HEADER_SIZE < 2 ^ 32 }
        ensures header { header_at bytes.new block ≡ self.now }
        ensures outside { ChangesOnly bytes.old bytes.new block HEADER_SIZE }
        ensures steps { steps.new ≡ steps.old + 7 }
    {
        bytes.write(block, 8, self.birth, steps);
        bytes.write(block + 8, 4, u64::from(self.size), steps);
        bytes.write(block + 12, 4, u64::from(self.layout), steps);
        bytes.write(block + 16, 4, u64::from(self.line), steps);
        bytes.write(block + 20, 4, u64::from(self.state), steps);
        bytes.write(block + 24, 4, u64::from(self.freed), steps);
        bytes.write(block + 28, 4, u64::from(self.next), steps);
    }
}
