//! Where the object ends that stands in each 16 bytes of memory.

ghost use Rattle.std.specs.Prelude.{◌≡◌, ◌+◌, ◌/◌, ◌<◌, ◌≤◌, ◌^◌, IfOk, length, replicate, slice_index};
ghost use Rattle.byte_marks.specs.Ends.{ChangesEnds, HasEnd, IsKnown};
ghost use Rattle.byte_marks.specs.Marks.{Filled};

use byte_memory::reach;
use hs_base::NoMemory;
use std::alloc::Global;
use std::marker::Model;

/// Sets so many ends from a place on.
fn fill(ends: &mut [u32], from: usize, count: usize, end: u32)
    requires { from + count ≤ length ends.old }
    ensures { Filled ends.old ends.new from count end }
{
    for place in from..from + count {
        ends[place] = end;
    }
}

/// The address behind the last byte of an object, for each 16 bytes in which it or that address lies; 0 where no object was put. The
/// memory of all ends is taken at once, and touched as far as objects were put.
#[derive(Debug, Drop)]
pub(crate) struct Ends {
    /// The ends up to some place behind the last one that was set, that of null at least. Those from there on are 0.
    list: Vec<u32>,
    count: u32,
}

impl Model for Ends {
    ghost use Rattle.std.specs.Prelude.{◌<◌, ◌≤◌, List, ℕ, length, vec_capacity};
    ghost use Rattle.byte_memory.specs.Filled.{filled_up};

    ghost Value = { List ℕ };

    ghost view = { λ e. filled_up e.list.items e.count 0 };

    ghost invariant = { λ e. (0 < length e.list.items) × (length e.list.items ≤ e.count) × (e.count ≤ vec_capacity e.list) };
}

impl Ends {
    /// The ends of so many bytes, in which no object stands.
    pub(crate) fn new(alloc: Global, n: u32) -> Result<Ends, NoMemory>
        ensures { IfOk result (λ ends. ends ≡ replicate (n / 16 + 1) 0) }
    {
        let count = n / 16 + 1;
        let mut list = Vec::with_capacity(alloc, count as usize)?;
        reach(&mut list, 1, count, 0);
        Ok(Ends { list, count })
    }

    /// Puts an object of a size at an address.
    pub(crate) fn put(&mut self, start: u32, size: u32)
        requires inside { (start + size) / 16 < length self.old }
        requires fits { start + size < 2 ^ 32 }
        ensures end { HasEnd self.new start size }
        ensures outside { ChangesEnds self.old self.new start size }
    {
        let end = start + size;
        let from = (start / 16) as usize;
        let count = (end / 16) as usize + 1 - from;
        reach(&mut self.list, from + count, self.count, 0);
        fill(self.list.as_mut_slice(), from, count, end);
    }

    /// The end that stands for the 16 bytes of an address, which is null or in one of the objects.
    #[inline(always)]
    pub(crate) fn get(&self, addr: u32) -> u32
        requires { IsKnown self.now addr }
        ensures { result ≡ slice_index self.now (addr / 16) }
    {
        let ends = self.list.as_slice();
        ends[(addr / 16) as usize]
    }
}
