//! Memory as a list of bytes.

ghost use Rattle.std.specs.Prelude.{◌≡◌, ◌+◌, ◌*◌, ◌<◌, ◌≤◌, ◌^◌, ◌⊎◌, ◌++◌, ℕ, IfOk, length, replicate, slice_index};
ghost use Rattle.byte_memory.specs.Bytes.{word, put_word};

use crate::steps::Steps;
use crate::taken::reach;
use hs_base::NoMemory;
use std::alloc::Global;
use std::marker::Model;
use std::sync::ledger::Ledger;

/// The number of 1, 2, 4 or 8 bytes at a place, the lowest byte first.
#[inline(always)]
fn load(bytes: &[u8], at: usize, width: u32) -> u64
    requires width { (width ≡ 1) ⊎ ((width ≡ 2) ⊎ ((width ≡ 4) ⊎ (width ≡ 8))) }
    requires inside { at + width ≤ length bytes.now }
    ensures value { result ≡ word bytes.now at width }
    ensures bound { result < 2 ^ (8 * width) }
{
    match width {
        1 => u64::from(bytes[at]),
        2 => u64::from(u16::from_le_bytes([bytes[at], bytes[at + 1]])),
        4 => u64::from(u32::from_le_bytes([
            bytes[at],
            bytes[at + 1],
            bytes[at + 2],
            bytes[at + 3],
        ])),
        _ => u64::from_le_bytes([
            bytes[at],
            bytes[at + 1],
            bytes[at + 2],
            bytes[at + 3],
            bytes[at + 4],
            bytes[at + 5],
            bytes[at + 6],
            bytes[at + 7],
        ]),
    }
}

/// Writes a number of 1, 2, 4 or 8 bytes at a place, the lowest byte first.
#[inline(always)]
fn store(bytes: &mut [u8], at: usize, width: u32, value: u64)
    requires width { (width ≡ 1) ⊎ ((width ≡ 2) ⊎ ((width ≡ 4) ⊎ (width ≡ 8))) }
    requires inside { at + width ≤ length bytes.old }
    requires fits { value < 2 ^ (8 * width) }
    ensures { bytes.new ≡ put_word bytes.old at width value }
{
    match width {
        1 => bytes[at] = value as u8,
        2 => bytes[at..at + 2].copy_from_slice(&(value as u16).to_le_bytes()),
        4 => bytes[at..at + 4].copy_from_slice(&(value as u32).to_le_bytes()),
        _ => bytes[at..at + 8].copy_from_slice(&value.to_le_bytes()),
    }
}

/// The byte at a place, 0 past the end.
fn byte_at(bytes: &[u8], at: usize) -> u64
    ensures value { (more : ℕ) → at < length bytes.now + more → result ≡ slice_index (bytes.now ++ replicate more 0) at }
    ensures bound { result < 256 }
{
    if at < bytes.len() {
        u64::from(bytes[at])
    } else {
        0
    }
}

/// The number of at most 8 bytes at a place, where those past the end of the bytes are 0.
#[inline(never)]
fn load_past(bytes: &[u8], at: usize, width: u32) -> u64
    requires width { width ≤ 8 }
    requires fits { at + width < 2 ^ 63 }
    ensures value { (more : ℕ) → at + width ≤ length bytes.now + more → result ≡ word (bytes.now ++ replicate more 0) at width }
    ensures bound { result < 256 ^ width }
{
    if width == 0 {
        return 0;
    }
    let low = byte_at(bytes, at);
    let high = load_past(bytes, at + 1, width - 1);
    low + 256 * high
}

/// The memory of a run: bytes at the addresses from 0 on. They are read and written by [`FlatBytes::read`] and
/// [`FlatBytes::write`] alone, and each of these is one step. The memory of all of them is taken at once, and touched as far
/// as bytes were written.
#[derive(Drop)]
pub struct FlatBytes {
    /// The bytes up to some place behind the last one that was written. Those from there on are 0.
    bytes: Vec<u8>,
    size: u32,
}

impl Model for FlatBytes {
    ghost use Rattle.std.specs.Prelude.{◌≤◌, List, ℕ, length, vec_capacity};
    ghost use Rattle.byte_memory.specs.Filled.{filled_up};

    ghost Value = { List ℕ };

    ghost view = { λ b. filled_up b.bytes.items b.size 0 };

    ghost invariant = { λ b. (length b.bytes.items ≤ b.size) × (b.size ≤ vec_capacity b.bytes) };
}

impl FlatBytes {
    /// So many bytes, all of them 0.
    pub fn new(alloc: Global, n: u32) -> Result<FlatBytes, NoMemory>
        ensures { IfOk result (λ bytes. bytes ≡ replicate n 0) }
    {
        Ok(FlatBytes {
            bytes: Vec::with_capacity(alloc, n as usize)?,
            size: n,
        })
    }

    /// The number at an address, of a width of 1, 2, 4 or 8 bytes, the lowest byte first. One step.
    #[inline(always)]
    pub fn read<L: Ledger>(&self, addr: u32, width: u32, steps: &mut Steps<L>) -> u64
        requires width { (width ≡ 1) ⊎ ((width ≡ 2) ⊎ ((width ≡ 4) ⊎ (width ≡ 8))) }
        requires inside { addr + width ≤ length self.now }
        ensures value { result ≡ word self.now addr width }
        ensures bound { result < 2 ^ (8 * width) }
        ensures step { steps.new ≡ steps.old + 1 }
    {
        steps.tick();
        let bytes = self.bytes.as_slice();
        let at = addr as usize;
        if at + width as usize <= bytes.len() {
            load(bytes, at, width)
        } else {
            load_past(bytes, at, width)
        }
    }

    /// Writes a number at an address, of a width of 1, 2, 4 or 8 bytes, the lowest byte first. All other bytes stay. One
    /// step.
    #[inline(always)]
    pub fn write<L: Ledger>(&mut self, addr: u32, width: u32, value: u64, steps: &mut Steps<L>)
        requires width { (width ≡ 1) ⊎ ((width ≡ 2) ⊎ ((width ≡ 4) ⊎ (width ≡ 8))) }
        requires inside { addr + width ≤ length self.old }
        requires fits { value < 2 ^ (8 * width) }
        ensures value { self.new ≡ put_word self.old addr width value }
        ensures len { length self.new ≡ length self.old }
        ensures step { steps.new ≡ steps.old + 1 }
    {
        steps.tick();
        let at = addr as usize;
        let end = at + width as usize;
        reach(&mut self.bytes, end, self.size, 0);
        store(self.bytes.as_mut_slice(), at, width, value)
    }
}
