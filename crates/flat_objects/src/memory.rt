//! The memory of a run.

use adjusters::Adjuster;
use byte_marks::Marks;
use byte_memory::FlatBytes;
use count_table::Counts;
use delay_scopes::Scopes;
use heap_blocks::Heap;
use hs_base::Items;
use std::marker::Model;

/// One memory of bytes with three ranges side by side: the statics, the memory locals and the heap. Each object that is not
/// dead has a block in the range of its sort: a header, and behind it the object. A slot holds an address of 4 bytes.
#[derive(Drop)]
pub struct FlatObjects {
    pub(crate) bytes: FlatBytes,
    /// What stands in each byte.
    pub(crate) marks: Marks,
    pub(crate) statics: Heap,
    pub(crate) locals: Heap,
    pub(crate) heap: Heap,
    /// Where the range of memory locals begins.
    pub(crate) locals_from: u32,
    /// Where the heap begins.
    pub(crate) heap_from: u32,
    /// How many pointers that count lead into each granule of 16 bytes.
    pub(crate) counts: Counts,
    /// The open scopes, and the objects that were freed in them.
    pub(crate) scopes: Scopes,
    /// The slots of elements, by the number of the layout.
    pub(crate) forms: Items<Adjuster>,
}

impl Model for FlatObjects {
    ghost use Rattle.flat_objects.specs.Memory.{Memory, IsMemory};

    ghost Value = { Memory };

    ghost view = { λ o. record { bytes = o.bytes; statics = o.statics; locals = o.locals; heap = o.heap; counts = o.counts; scopes = o.scopes; forms = o.forms; marks = o.marks } };

    ghost invariant = { λ o. IsMemory o.locals_from o.heap_from (record { bytes = o.bytes; statics = o.statics; locals = o.locals; heap = o.heap; counts = o.counts; scopes = o.scopes; forms = o.forms; marks = o.marks }) };
}
