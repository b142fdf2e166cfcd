//! New objects of the heap, and memory locals.

ghost use Rattle.std.specs.Prelude.{◌≡◌, IfNone};
ghost use Rattle.flat_objects.specs.Memory.{Heap, Locals, SameFrame};
ghost use Rattle.flat_objects.specs.Adding.{AddsHeapObject, AddsLocal, IsFirstFit, TracksHeapObject, TracksLocal};

use crate::marking::mark;
use crate::memory::FlatObjects;
use byte_memory::Steps;
use hs_base::Line;
use std::sync::ledger::Ledger;

impl FlatObjects {
    /// Places a new heap object by first fit and answers its address: of a size in bytes, with elements of the layout of a
    /// number, its line of birth and its birth number. All its bytes are 0 and its pointers null. Where it has no place
    /// nothing changes.
    pub fn new_object<L: Ledger>(
        &mut self,
        size: u64,
        layout: u32,
        line: Line,
        birth: u64,
        steps: &mut Steps<L>,
    ) -> Option<u32>
        ensures place { IsFirstFit self.old Heap size result }
        ensures added { AddsHeapObject self.old self.new birth layout line size result }
        ensures tracks { TracksHeapObject self.old self.new birth layout line size result }
        ensures none { IfNone result (self.new ≡ self.old) }
        ensures frame { SameFrame self.old self.new }
    {
        let placed = self
            .heap
            .place(&mut self.bytes, size, layout, line, birth, steps);
        mark(&mut self.marks, &self.forms, placed, size, layout);
        placed
    }

    /// Places a memory local by first fit and answers its address: one element of the layout of a number, with its birth
    /// number. All its bytes are 0 and its pointers null. Where it has no place nothing changes.
    pub fn new_local<L: Ledger>(
        &mut self,
        size: u32,
        layout: u32,
        birth: u64,
        steps: &mut Steps<L>,
    ) -> Option<u32>
        ensures place { IsFirstFit self.old Locals size result }
        ensures added { AddsLocal self.old self.new birth layout size result }
        ensures tracks { TracksLocal self.old self.new birth layout size result }
        ensures none { IfNone result (self.new ≡ self.old) }
        ensures frame { SameFrame self.old self.new }
    {
        let bytes = u64::from(size);
        let placed = self
            .locals
            .place(&mut self.bytes, bytes, layout, 0, birth, steps);
        mark(&mut self.marks, &self.forms, placed, bytes, layout);
        placed
    }
}
