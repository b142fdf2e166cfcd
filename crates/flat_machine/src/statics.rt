//! The statics of a code in a new memory (C99 6.2.4, 6.7.8).

ghost use Rattle.std.specs.Prelude.{◌≡◌, ◌+◌, ◌<◌, ◌≤◌, ◌^◌, [], ℕ, IfOk, length, map};
ghost use Rattle.hs_base.specs.Place.{block_size};
ghost use Rattle.adjusters.specs.ObjectSlots.{element_of};
ghost use Rattle.flat_code.specs.WellFormed.{IsWellFormed};
ghost use Rattle.flat_objects.specs.Memory.{SameFrame, pin_room};
ghost use Rattle.flat_objects.specs.Keeping.{Keeps};
ghost use Rattle.flat_objects.specs.Counting.{Tracks};
ghost use Rattle.object_meaning.specs.code.Entering.{layout_in};
ghost use Rattle.flat_machine.specs.Loading.{HasPlaced, HasRoom, HasStarted, blocks_length, no_frees, AreAllPlaced, HaveAllStarted};

use byte_memory::{CountRight, Steps};
use c_types::Layout;
use flat_code::{Code, StaticInit};
use flat_objects::FlatObjects;
use hs_base::{Limits, NoMemory};
use std::alloc::Global;
use std::marker::Brand;
use std::sync::ledger::{Blank, Ledger};

/// The layout of a static.
fn layout_of<'a>(code: &'a Code, start: &StaticInit) -> &'a Layout
    requires { start.now.layout < length code.now.layouts }
    ensures { result.now ≡ layout_in code.now start.now.layout }
{
    let Some(layout) = code.layouts.get(start.layout as usize) else {
        unreachable!()
    };
    layout
}

/// How many bytes the block of an object of a size has.
pub(crate) fn block_length(size: u32) -> u32
    requires { size ≤ 268435456 }
    ensures { result ≡ block_size size }
{
    32 + (size + 16) / 16 * 16
}

/// How many bytes the blocks of all statics have together.
fn statics_length(code: &Code) -> u32
    requires { IsWellFormed code.now }
    ensures { result ≡ blocks_length code.now (length code.now.statics) }
{
    let mut length = 0;
    for k in 0..code.statics.len() {
        let layout = layout_of(code, &code.statics.as_slice()[k]);
        length += block_length(layout.size);
    }
    length
}

/// Places the static behind so many that are placed, and adds its address.
fn place_static<L: Ledger>(
    objects: &mut FlatObjects,
    code: &Code,
    k: usize,
    addrs: &mut Vec<u32>,
    steps: &mut Steps<L>,
) -> Result<(), NoMemory>
    requires formed { IsWellFormed code.now }
    requires room { HasRoom code.now objects.old }
    requires placed { HasPlaced code.now objects.old addrs.old.items k }
    requires more { k < length code.now.statics }
    ensures placed { IfOk result (λ _. HasPlaced code.now objects.new addrs.new.items (k + 1)) }
    ensures frame { SameFrame objects.old objects.new }
{
    let Some(start) = code.statics.get(k) else {
        unreachable!()
    };
    let size = layout_of(code, start).size;
    let Some(addr) = objects.new_static(size, start.layout, k as u32, steps) else {
        unreachable!()
    };
    addrs.push(addr)?;
    Ok(())
}

/// Places all statics, which are blank, and answers their addresses.
fn place_statics<L: Ledger>(
    alloc: Global,
    objects: &mut FlatObjects,
    code: &Code,
    steps: &mut Steps<L>,
) -> Result<Vec<u32>, NoMemory>
    requires formed { IsWellFormed code.now }
    requires room { HasRoom code.now objects.old }
    requires empty { (places : ℕ → ℕ) → Keeps objects.old places [] }
    requires fresh { (places : ℕ → ℕ) → Tracks objects.old places [] no_frees }
    ensures placed { IfOk result (λ addrs. AreAllPlaced code.now objects.new addrs.items) }
    ensures frame { SameFrame objects.old objects.new }
{
    let mut addrs = Vec::new(alloc);
    for k in 0..code.statics.len() {
        place_static(objects, code, k, &mut addrs, steps)?;
    }
    Ok(addrs)
}

/// Gives a static the bytes and the pointers that it holds first. All statics are placed at these addresses.
fn start_static<L: Ledger>(
    objects: &mut FlatObjects,
    code: &Code,
    k: usize,
    addrs: &[u32],
    steps: &mut Steps<L>,
)
    requires formed { IsWellFormed code.now }
    requires started { HasStarted code.now objects.old addrs.now k }
    requires more { k < length code.now.statics }
    ensures started { HasStarted code.now objects.new addrs.now (k + 1) }
    ensures frame { SameFrame objects.old objects.new }
{
    let Some(start) = code.statics.get(k) else {
        unreachable!()
    };
    let addr = addrs[k];
    objects.start_bytes(addr, start.bytes.as_slice(), steps);
    objects.start_pointers(addr, start.pointers.as_slice(), addrs, steps);
}

/// Gives all statics what they hold first. They are placed at these addresses.
fn start_statics<L: Ledger>(
    objects: &mut FlatObjects,
    code: &Code,
    addrs: &[u32],
    steps: &mut Steps<L>,
)
    requires formed { IsWellFormed code.now }
    requires placed { AreAllPlaced code.now objects.old addrs.now }
    ensures started { HaveAllStarted code.now objects.new addrs.now }
    ensures frame { SameFrame objects.old objects.new }
{
    for k in 0..code.statics.len() {
        start_static(objects, code, k, addrs, steps);
    }
}

fn memory_with<L: Ledger>(
    alloc: Global,
    code: &Code,
    limits: Limits,
    pins: u32,
    blank: Blank,
) -> Result<(FlatObjects, Vec<u32>), NoMemory>
    requires name { blank.name ≡ L.name }
    requires parts { blank.parts ≡ L.parts }
    requires some { 0 < blank.parts }
    requires formed { IsWellFormed code.now }
    requires heap { limits.heap ≤ 268435456 }
    requires stack { limits.stack ≤ 67108864 }
    requires pins { pins < 2 ^ 31 }
    ensures started { IfOk result (λ made. HaveAllStarted code.now made.0 made.1.items) }
    ensures heap { IfOk result (λ made. made.0.heap.len ≡ limits.heap) }
    ensures locals { IfOk result (λ made. limits.stack ≤ made.0.locals.len) }
    ensures forms { IfOk result (λ made. made.0.forms ≡ map element_of code.now.layouts) }
    ensures pins { IfOk result (λ made. pin_room made.0 ≡ pins) }
{
    let right = CountRight::new(alloc);
    let mut steps = Steps::<L>::new(blank, &right);
    let locals = (limits.stack + 15) / 16 * 16;
    let mut objects = FlatObjects::new(
        alloc,
        code.layouts.as_slice(),
        statics_length(code),
        locals,
        limits.heap,
        pins,
    )?;
    let addrs = place_statics(alloc, &mut objects, code, &mut steps)?;
    start_statics(&mut objects, code, addrs.as_slice(), &mut steps);
    Ok((objects, addrs))
}

/// A memory with the statics of a code, which hold what they hold first, and their addresses. Its heap has the size of the
/// limits, and its range of memory locals that of the stack, rounded up. It has room for so many pins at once.
pub(crate) fn memory(
    alloc: Global,
    code: &Code,
    limits: Limits,
    pins: u32,
) -> Result<(FlatObjects, Vec<u32>), NoMemory>
    requires formed { IsWellFormed code.now }
    requires heap { limits.heap ≤ 268435456 }
    requires stack { limits.stack ≤ 67108864 }
    requires pins { pins < 2 ^ 31 }
    ensures started { IfOk result (λ made. HaveAllStarted code.now made.0 made.1.items) }
    ensures heap { IfOk result (λ made. made.0.heap.len ≡ limits.heap) }
    ensures locals { IfOk result (λ made. limits.stack ≤ made.0.locals.len) }
    ensures forms { IfOk result (λ made. made.0.forms ≡ map element_of code.now.layouts) }
    ensures pins { IfOk result (λ made. pin_room made.0 ≡ pins) }
{
    memory_with::<Brand>(alloc, code, limits, pins, Blank::new(1))
}
