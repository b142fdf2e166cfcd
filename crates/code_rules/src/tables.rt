//! The rules of the tables of code.

ghost use Rattle.std.specs.Prelude.{◌≡◌, ◌≢◌, ◌≤◌, ◌<◌, ◌↔◌, ◌+◌, ◌^◌, ℕ, All, AllPairs, Contains, IsTrue, map, nat_eq, slice_get, unwrap_or};
ghost use Rattle.std.specs.List.{IsDistinct};
ghost use Rattle.hs_base.specs.Place.{block_size};
ghost use Rattle.c_types.specs.declared.layouts.Layout.{Layout};
ghost use Rattle.c_types.specs.Layouts.{AreSlots, IsAlignment};
ghost use Rattle.c_print.specs.Format.{IsFormat};
ghost use Rattle.c_print.specs.Pieces.{pieces_of};
ghost use Rattle.flat_code.specs.declared.program.Entry.{Entry};
ghost use Rattle.flat_code.specs.declared.program.Site.{Site};
ghost use Rattle.flat_code.specs.declared.program.StaticInit.{StaticInit};
ghost use Rattle.flat_code.specs.WellFormed.{AreShort, EachEntry, IsFirst, IsLayout, IsShort, IsTarget, static_size};
ghost use Rattle.code_rules.specs.Deciding.{Decides};
ghost use Rattle.code_rules.specs.Whole.{IsZeroSlot, IsStatic, AreFormats, bytes_of_statics, HasShortTables};

use c_print::{FormatError, read_format};
use c_types::Layout;
use flat_code::{Code, Entry, Site, StaticInit};
use hs_base::{Items, NoMemory};
use std::alloc::Global;

/// What the length of a list of code is below.
const SHORT: usize = 1 << 32;

/// The greatest size of a layout.
const MAX_SIZE: u32 = 268_435_456;

/// Says whether the lists of a function are short.
fn is_short_entry(entry: &Entry) -> bool
    ensures { IsTrue result ↔ (IsShort entry.now.kinds × IsShort entry.now.mems) }
{
    entry.kinds.len() < SHORT && entry.mems.len() < SHORT
}

/// Says whether the lists of all functions are short.
fn are_short_entries(entries: &[Entry]) -> bool
    ensures { IsTrue result ↔ All (λ (e : Entry). IsShort e.kinds × IsShort e.mems) entries.now }
{
    entries.iter().all(|entry| is_short_entry(entry))
}

/// Says whether all formats are short.
fn are_short_formats(formats: &[Items<u8>]) -> bool
    ensures { IsTrue result ↔ All IsShort formats.now }
{
    formats.iter().all(|format| format.len() < SHORT)
}

/// Says whether each line is at least 1.
pub fn lines_from_one(lines: &[u32]) -> bool
    ensures { IsTrue result ↔ All (λ line. 1 ≤ line) lines.now }
{
    lines.iter().all(|line| *line >= 1)
}

/// Says whether a number is an alignment.
fn is_alignment(align: u32) -> bool
    ensures { IsTrue result ↔ IsAlignment align }
{
    matches!(align, 1 | 2 | 4 | 8)
}

/// Says whether slots are ascending multiples of 4 inside a size.
fn are_slots(slots: &[u32], size: u32) -> bool
    ensures { IsTrue result ↔ AreSlots 0 size slots.now }
{
    let mut low: u64 = 0;
    for slot in slots {
        let place = u64::from(*slot);
        if place < low || place + 4 > u64::from(size) || slot % 4 != 0 {
            return false;
        }
        low = place + 4;
    }
    true
}

/// Says whether a layout is one of an object, or of elements side by side.
pub fn is_layout(layout: &Layout) -> bool
    ensures { IsTrue result ↔ IsLayout layout.now }
{
    let Layout { size, align, slots } = layout;
    *size <= MAX_SIZE
        && is_alignment(*align)
        && *size % *align == 0
        && are_slots(slots.as_slice(), *size)
        && (slots.is_empty() || *align % 4 == 0)
}

/// Says whether bytes are a format.
pub fn is_format(alloc: Global, bytes: &[u8]) -> Result<bool, NoMemory>
    ensures { Decides (IsFormat bytes.now (pieces_of bytes.now)) result }
{
    match read_format(alloc, bytes) {
        Ok(_) => Ok(true),
        Err(FormatError::Bad) => Ok(false),
        Err(FormatError::NoMemory) => Err(NoMemory),
    }
}

/// The size of a static; one without a layout has none.
pub fn static_size(code: &Code, item: &StaticInit) -> u32
    ensures { result ≡ static_size code.now item.now }
{
    match code.layouts.get(item.layout as usize) {
        Some(layout) => layout.size,
        None => 0,
    }
}

/// Says whether a static's pointer names a static and an offset in it.
fn is_target(code: &Code, pointer: &(u32, u32, u32)) -> bool
    ensures { IsTrue result ↔ IsTarget code.now pointer.now }
{
    match code.statics.get(pointer.1 as usize) {
        Some(target) => pointer.2 <= static_size(code, target),
        None => false,
    }
}

/// The byte of a static at an offset.
fn byte_at(bytes: &[u8], place: usize) -> u8
    ensures { result ≡ unwrap_or (slice_get bytes.now place) 0 }
{
    match bytes.get(place) {
        Some(byte) => *byte,
        None => 0,
    }
}

/// Says whether the bytes of a slot are zero.
fn is_zero_slot(bytes: &[u8], slot: u32) -> bool
    ensures { IsTrue result ↔ IsZeroSlot bytes.now slot }
{
    let place = slot as usize;
    byte_at(bytes, place) == 0
        && byte_at(bytes, place + 1) == 0
        && byte_at(bytes, place + 2) == 0
        && byte_at(bytes, place + 3) == 0
}

/// Says whether the bytes of all slots are zero.
fn are_zero_slots(bytes: &[u8], slots: &[u32]) -> bool
    ensures { IsTrue result ↔ All (IsZeroSlot bytes.now) slots.now }
{
    slots.iter().all(|slot| is_zero_slot(bytes, *slot))
}

/// Says whether an offset is one of a slot.
fn is_slot(slots: &[u32], offset: u32) -> bool
    ensures { IsTrue result ↔ Contains slots.now offset }
{
    slots.contains(&offset)
}

/// Says whether the pointers stand at slots.
fn stand_at_slots(pointers: &[(u32, u32, u32)], slots: &[u32]) -> bool
    ensures { IsTrue result ↔ All (λ (p : ℕ × ℕ × ℕ). Contains slots.now p.0) pointers.now }
{
    for pointer in pointers {
        if !is_slot(slots, pointer.0) {
            return false;
        }
    }
    true
}

/// Says whether each pointer names a static and an offset in it.
fn are_targets(code: &Code, pointers: &[(u32, u32, u32)]) -> bool
    ensures { IsTrue result ↔ All (IsTarget code.now) pointers.now }
{
    for pointer in pointers {
        if !is_target(code, pointer) {
            return false;
        }
    }
    true
}

/// Says whether no other of some pointers stands where the first does.
fn stands_alone(slot: u32, others: &[(u32, u32, u32)]) -> bool
    ensures { IsTrue result ↔ All (λ (p : ℕ × ℕ × ℕ). p.0 ≢ slot) others.now }
{
    for other in others {
        if other.0 == slot {
            return false;
        }
    }
    true
}

/// Says whether pointers stand at different slots.
fn are_distinct(pointers: &[(u32, u32, u32)]) -> bool
    ensures { IsTrue result ↔ IsDistinct nat_eq (map (λ (p : ℕ × ℕ × ℕ). p.0) pointers.now) }
{
    for i in 0..pointers.len() {
        if !stands_alone(pointers[i].0, &pointers[i + 1..]) {
            return false;
        }
    }
    true
}

/// Says whether what a static of a layout holds first keeps its rules.
fn is_first(code: &Code, item: &StaticInit, layout: &Layout) -> bool
    ensures { IsTrue result ↔ IsFirst code.now item.now layout.now }
{
    let bytes = item.bytes.as_slice();
    let pointers = item.pointers.as_slice();
    let slots = layout.slots.as_slice();
    if bytes.len() > layout.size as usize {
        return false;
    }
    if !are_zero_slots(bytes, slots) {
        return false;
    }
    if !stand_at_slots(pointers, slots) {
        return false;
    }
    if !are_distinct(pointers) {
        return false;
    }
    are_targets(code, pointers)
}

/// Says whether a static has a layout, and keeps the rules of what it holds first.
fn is_static(code: &Code, item: &StaticInit) -> bool
    ensures { IsTrue result ↔ IsStatic code.now item.now }
{
    match code.layouts.get(item.layout as usize) {
        Some(layout) => is_first(code, item, layout),
        None => false,
    }
}

/// Says whether all statics have a layout, and keep the rules of what they hold first.
pub fn are_statics(code: &Code) -> bool
    ensures { IsTrue result ↔ All (IsStatic code.now) code.now.statics }
{
    code.statics
        .as_slice()
        .iter()
        .all(|item| is_static(code, item))
}

/// Says whether all layouts are those of objects, or of elements side by side.
pub fn are_layouts(code: &Code) -> bool
    ensures { IsTrue result ↔ All IsLayout code.now.layouts }
{
    code.layouts
        .as_slice()
        .iter()
        .all(|layout| is_layout(layout))
}

/// Says whether all formats are formats.
pub fn are_formats(alloc: Global, code: &Code) -> Result<bool, NoMemory>
    ensures { Decides (AreFormats code.now) result }
{
    for format in code.formats.as_slice() {
        if !is_format(alloc, format.as_slice())? {
            return Ok(false);
        }
    }
    Ok(true)
}

/// The bytes of the block of a static.
fn static_block(code: &Code, item: &StaticInit) -> u64
    ensures value { result ≡ block_size (static_size code.now item.now) }
    ensures small { result ≤ 2 ^ 33 }
{
    32 + (u64::from(static_size(code, item)) + 1).div_ceil(16) * 16
}

/// Says whether the blocks of the statics sum to at most so many bytes.
pub fn are_static_blocks_small(code: &Code) -> bool
    ensures { IsTrue result ↔ (bytes_of_statics code.now ≤ 67108864) }
{
    let mut sum: u64 = 0;
    for item in code.statics.as_slice() {
        let block = static_block(code, item);
        if sum + block > 67_108_864 {
            return false;
        }
        sum += block;
    }
    true
}

/// Says whether the tables of code are short.
fn are_short_tables(code: &Code) -> bool
    ensures { IsTrue result ↔ HasShortTables code.now }
{
    code.statics.len() < SHORT
        && code.layouts.len() < SHORT
        && code.formats.len() < SHORT
        && are_short_formats(code.formats.as_slice())
}

/// Says whether each function of code has short lists.
fn has_short_entries(code: &Code) -> bool
    ensures { IsTrue result ↔ EachEntry code.now (λ f e. IsShort e.kinds × IsShort e.mems) }
{
    are_short_entries(code.funcs.as_slice())
}

/// Says whether the lists of code are short.
pub fn are_short(code: &Code) -> bool
    ensures { IsTrue result ↔ AreShort code.now }
{
    if code.instrs.len() >= SHORT || code.funcs.len() >= SHORT || !has_short_entries(code) {
        return false;
    }
    are_short_tables(code)
}

/// Says whether sites ascend by their instructions.
pub fn sites_ascend(sites: &[Site]) -> bool
    ensures { IsTrue result ↔ AllPairs (λ (one other : Site). one.instr < other.instr) sites.now }
{
    for i in 1..sites.len() {
        if sites[i - 1].instr >= sites[i].instr {
            return false;
        }
    }
    true
}
