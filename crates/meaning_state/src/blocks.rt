//! The blocks of the heap objects that are not dead, and where a new one is placed (C99 7.20.3).

ghost use Rattle.std.specs.Prelude.{◌≡◌, ◌+◌, ◌≤◌, ◌<◌, ◌%◌, ◌^◌, IfOk, IfSome, IsTrue, Some, map};
ghost use Rattle.hs_base.specs.Place.{block_size, first_fit, with_block, without_block};
ghost use Rattle.hs_base.specs.Trace.{Gone};
ghost use Rattle.meaning_state.specs.Fitting.{IsApart, none_held, held_after, fits_in, lowest_from};

use hs_base::NoMemory;
use std::alloc::Global;
use std::marker::Model;

/// A block: the birth of its object, its place and its length in bytes.
#[derive(Drop)]
struct Block {
    birth: u64,
    place: u64,
    length: u64,
}

impl Model for Block {
    ghost use Rattle.std.specs.Prelude.{◌≡◌, ◌+◌, ◌<◌, ◌%◌, ◌^◌};
    ghost use Rattle.hs_base.specs.Place as spec;

    ghost Value = { spec.Block };

    ghost view = { λ b. record { birth = b.birth; place = b.place; length = b.length } };

    ghost invariant = { λ b. ((b.place + b.length) % 16 ≡ 0) × (b.place + b.length < 2 ^ 32) };
}

/// A heap of so many bytes, and the blocks that are held in it, the oldest first.
#[derive(Drop)]
pub struct HeldBlocks {
    heap: u32,
    blocks: Vec<Block>,
}

impl Model for HeldBlocks {
    ghost use Rattle.meaning_state.specs.Fitting as spec;

    ghost Value = { spec.Held };

    ghost view = { λ h. record { heap = h.heap; blocks = h.blocks.items } };
}

impl Block {
    /// Where it ends.
    fn end(&self) -> u64
        ensures is { result ≡ self.now.place + self.now.length }
        ensures aligned { result % 16 ≡ 0 }
        ensures small { result < 2 ^ 32 }
    {
        self.place + self.length
    }

    /// A place moved to the block's end where the block overlaps so many bytes there.
    fn moved(&self, place: u64, length: u64) -> u64
        requires { place + length < 2 ^ 64 }
        ensures low { place ≤ result }
        ensures goes { place < result → (result ≡ self.now.place + self.now.length) × (self.now.place < place + length) × (result % 16 ≡ 0) × (result < 2 ^ 32) }
        ensures stays { result ≡ place → IsApart place length self.now }
    {
        let end = self.end();
        if self.place < place + length && place < end {
            end
        } else {
            place
        }
    }
}

impl HeldBlocks {
    /// A heap in which no block is held yet.
    pub fn new(alloc: Global, heap: u32) -> Self
        ensures { result ≡ none_held heap }
    {
        HeldBlocks {
            heap,
            blocks: Vec::new(alloc),
        }
    }

    /// A place moved on: each block that overlaps so many bytes there moves it to that block's end. No place before is free,
    /// and where it stays it is free itself, if the bytes end within the heap.
    fn moved(&self, place: u64, length: u64) -> u64
        requires place { (place % 16 ≡ 0) × (place < 2 ^ 32) }
        requires length { length < 2 ^ 33 }
        ensures same { lowest_from self.now length place ≡ lowest_from self.now length result }
        ensures stays { result ≡ place → place + length ≤ self.now.heap → lowest_from self.now length place ≡ Some place }
        ensures place { (place ≤ result) × (result % 16 ≡ 0) × (result < 2 ^ 32) }
    {
        let mut at = place;
        for block in &self.blocks {
            at = block.moved(at, length);
        }
        at
    }

    /// The lowest free place for a block of a length: the start, moved on until it stays.
    fn first_fit(&self, length: u64) -> Option<u64>
        requires { length < 2 ^ 33 }
        ensures is { result ≡ first_fit self.now.blocks self.now.heap length }
        ensures inside { IfSome result (λ place. (place % 16 ≡ 0) × (place + length ≤ self.now.heap)) }
    {
        let mut place = 0;
        'places: while place + length <= u64::from(self.heap) {
            let next = self.moved(place, length);
            if next == place {
                return Some(place);
            }
            place = next;
        }
        None
    }

    /// Holds a block for a new object of a size from now on, where there is a place for it, and says whether there is.
    pub fn place(&mut self, birth: u64, size: u64) -> Result<bool, NoMemory>
        ensures fits { IfOk result (λ placed. placed ≡ fits_in self.old size) }
        ensures small { IfOk result (λ placed. IsTrue placed → size < 2 ^ 32) }
        ensures held { IfOk result (λ _. self.new ≡ record self.old { blocks = with_block self.old.blocks birth (block_size size) (first_fit self.old.blocks self.old.heap (block_size size)) }) }
    {
        if size >= u64::from(self.heap) {
            return Ok(false);
        }
        let length = 32 + (size + 16) / 16 * 16;
        match self.first_fit(length) {
            None => Ok(false),
            Some(place) => {
                self.blocks.push(Block {
                    birth,
                    place,
                    length,
                })?;
                Ok(true)
            }
        }
    }

    /// The block of an object is held no longer.
    fn release_one(&mut self, birth: u64)
        ensures { self.new ≡ record self.old { blocks = without_block self.old.blocks birth } }
    {
        self.blocks.retain(|block| block.birth != birth);
    }

    /// The blocks of some objects are held no longer.
    pub fn release(&mut self, births: &[u64])
        ensures { self.new ≡ held_after self.old (map Gone births.now) }
    {
        for birth in births {
            self.release_one(*birth);
        }
    }
}
