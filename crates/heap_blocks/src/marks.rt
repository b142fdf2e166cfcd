//! One mark for each 16 bytes of the heap: free, or which block they belong to.

ghost use Rattle.std.specs.Prelude.{◌≡◌, ◌+◌, ◌<◌, ◌≤◌, IfOk, Some, length, replicate, slice_get};
ghost use Rattle.heap_blocks.specs.declared.marks.Mark.TheVariants.{Free};
ghost use Rattle.heap_blocks.specs.Runs.{Filled};

use byte_memory::reach;
use hs_base::NoMemory;
use std::alloc::Global;
use std::marker::Model;

/// What stands in 16 bytes of the heap.
#[derive(Clone, Copy, Debug, PartialEq, Eq)]
pub enum Mark {
    /// No block.
    Free,
    /// Bytes of the block that starts there, in 16 bytes from the heap's base on.
    Of(u32),
}

/// Sets so many marks from a place on.
fn fill(marks: &mut [Mark], from: usize, count: usize, mark: Mark)
    requires { from + count ≤ length marks.old }
    ensures { Filled marks.old marks.new from count mark }
{
    for place in from..from + count {
        marks[place] = mark;
    }
}

/// The marks of a heap. The memory of all of them is taken at once, and touched as far as blocks were placed.
#[derive(Debug, Drop)]
pub struct Marks {
    /// The marks up to some place behind the last one that was set. Those from there on are free.
    list: Vec<Mark>,
    len: u32,
}

impl Model for Marks {
    ghost use Rattle.std.specs.Prelude.{◌≤◌, List, length, vec_capacity};
    ghost use Rattle.byte_memory.specs.Filled.{filled_up};
    ghost use Rattle.heap_blocks.specs.declared.marks.Mark.{Mark};
    ghost use Rattle.heap_blocks.specs.declared.marks.Mark.TheVariants.{Free};

    ghost Value = { List Mark };

    ghost view = { λ m. filled_up m.list.items m.len Free };

    ghost invariant = { λ m. (length m.list.items ≤ m.len) × (m.len ≤ vec_capacity m.list) };
}

impl Marks {
    /// So many marks, all of them free.
    pub fn new(alloc: Global, len: u32) -> Result<Marks, NoMemory>
        ensures { IfOk result (λ marks. marks ≡ replicate len Free) }
    {
        Ok(Marks {
            list: Vec::with_capacity(alloc, len as usize)?,
            len,
        })
    }

    /// The mark at a place. Those behind the last one are free.
    #[inline(always)]
    pub fn get(&self, place: usize) -> Mark
        ensures there { place < length self.now → slice_get self.now place ≡ Some result }
        ensures past { length self.now ≤ place → result ≡ Free }
    {
        if place < self.list.len() {
            self.list[place]
        } else {
            Mark::Free
        }
    }

    /// Sets so many marks from a place on.
    pub fn fill(&mut self, from: u32, count: u32, mark: Mark)
        requires { from + count ≤ length self.old }
        ensures { Filled self.old self.new from count mark }
    {
        let place = from as usize;
        let number = count as usize;
        reach(&mut self.list, place + number, self.len, Mark::Free);
        fill(self.list.as_mut_slice(), place, number, mark);
    }
}
