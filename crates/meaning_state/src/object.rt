//! One object: its bytes and its pointers.

ghost use Rattle.std.specs.Prelude.{◌≡◌, true, ◌+◌, ◌*◌, ◌<◌, ◌≤◌, IfOk, length, slice_index, take, drop};
ghost use Rattle.hs_base.specs.Numbers.{low_bits, width};
ghost use Rattle.hs_base.specs.Object.{is_dead};
ghost use Rattle.hs_base.specs.Access.{access_in, touches_slot, is_slot, integer_at, pointer_at, with_integer, with_pointer, overlaid, bytes_of, slots_below, slots_within, may_copy, may_set, filled};
ghost use Rattle.meaning_state.specs.Reaching.{Reaches};

use crate::bytes::{
    clear_pointers, fill_bytes, number_of, overlay_bytes, overlay_pointers, write_number,
};
use crate::refusal::Refusal;
use crate::slots::{
    count_below, count_within, cuts_slot, have_same_distances, is_slot, touches_slot,
};
use hs_base::{IntKind, Line, NoMemory, Pointer, TrapKind};
use std::alloc::Global;
use std::marker::Model;

/// What an object is: a static or a memory local, by its number, or a heap object, by its line of birth.
#[derive(Clone, Copy, Debug, PartialEq, Eq)]
pub enum Sort {
    Static(u32),
    Local { func: u32, index: u32 },
    Heap(Line),
}

/// How an object stands. A queued one was freed at that line, and can still be read and written.
#[derive(Clone, Copy, Debug, PartialEq, Eq)]
pub enum Standing {
    Live,
    Queued(Line),
    Dead,
}

/// An object, by its birth, and an offset in it.
#[derive(Clone, Copy, Debug, PartialEq, Eq)]
pub struct Place {
    pub birth: usize,
    pub offset: u32,
}

/// An object: its size, the offsets of its pointers, all its bytes and its pointers.
#[derive(Drop)]
pub struct Object {
    pub(crate) sort: Sort,
    pub(crate) size: u32,
    pub(crate) slots: Vec<u32>,
    pub(crate) bytes: Vec<u8>,
    pub(crate) pointers: Vec<Pointer>,
    pub(crate) standing: Standing,
}

impl Model for Object {
    ghost use Rattle.std.specs.Prelude.{◌≡◌, length};
    ghost use Rattle.hs_base.specs.Object as spec;

    ghost Value = { spec.Object };

    ghost use Rattle.meaning_state.specs.Kinds.{sort_of, standing_of};

    ghost view = { λ o. record { sort = sort_of o.sort; size = o.size; slots = o.slots.items; bytes = o.bytes.items; pointers = o.pointers.items; standing = standing_of o.standing } };

    ghost invariant = { λ o. (length o.bytes.items ≡ o.size) × (length o.pointers.items ≡ length o.slots.items) };
}

/// The low bits of a number, as many as a kind has.
fn low_bits(kind: IntKind, n: i128) -> u64
    ensures { result ≡ low_bits (8 * width kind) n }
{
    match kind {
        IntKind::I8 | IntKind::U8 => n.rem_euclid(1 << 8) as u64,
        IntKind::I16 | IntKind::U16 => n.rem_euclid(1 << 16) as u64,
        IntKind::I32 | IntKind::U32 => n.rem_euclid(1 << 32) as u64,
        IntKind::I64 | IntKind::U64 => n.rem_euclid(1 << 64) as u64,
    }
}

impl Object {
    /// Its size in bytes.
    pub fn size(&self) -> u32
        ensures { result ≡ self.now.size }
    {
        self.size
    }

    /// Says whether it is dead.
    pub fn is_dead(&self) -> bool
        ensures { result ≡ is_dead self.now.standing }
    {
        matches!(self.standing, Standing::Dead)
    }

    /// Says whether so many bytes at an offset touch a slot.
    pub(crate) fn touches_slot(&self, offset: u32, n: u32) -> bool
        ensures { result ≡ touches_slot self.now.slots offset n }
    {
        touches_slot(&self.slots, offset, n)
    }

    /// Says whether a slot stands at an offset.
    pub(crate) fn is_slot(&self, offset: u32) -> bool
        ensures { result ≡ is_slot self.now.slots offset }
    {
        is_slot(&self.slots, offset)
    }

    /// Tries an access to so many bytes at an offset: dead, past the size, at an odd offset, against the slots.
    pub(crate) fn reach(
        &self,
        birth: usize,
        offset: u32,
        n: u32,
        against_slots: bool,
    ) -> Result<Place, Refusal>
        requires { 0 < n }
        ensures place { Reaches result (access_in self.now birth offset n against_slots) }
        ensures within { IfOk result (λ at. (at.birth ≡ birth) × (at.offset + n ≤ self.now.size)) }
    {
        if self.is_dead() {
            return Err(Refusal::ReadsDead);
        }
        if u64::from(self.size) < u64::from(offset) + u64::from(n) {
            return Err(Refusal::Trapped(TrapKind::Bounds));
        }
        if offset % n != 0 {
            return Err(Refusal::Trapped(TrapKind::Align));
        }
        if against_slots {
            return Err(Refusal::Trapped(TrapKind::Layout));
        }
        Ok(Place { birth, offset })
    }

    /// The integer of a kind at an offset.
    pub(crate) fn integer(&self, kind: IntKind, offset: u32) -> i128
        requires { offset + width kind ≤ self.now.size }
        ensures { result ≡ integer_at kind self.now offset }
    {
        let start = offset as usize;
        let end = start + kind.bytes() as usize;
        kind.wrap(i128::from(number_of(&self.bytes[start..end])))
    }

    /// The byte at an offset.
    pub(crate) fn byte(&self, offset: u32) -> u8
        requires { offset < self.now.size }
        ensures { result ≡ slice_index self.now.bytes offset }
    {
        self.bytes[offset as usize]
    }

    /// The pointer at an offset.
    pub(crate) fn pointer(&self, offset: u32) -> Pointer
        ensures { result ≡ pointer_at self.now offset }
    {
        let place = count_below(&self.slots, offset);
        if place < self.pointers.len() {
            self.pointers[place]
        } else {
            Pointer::Null
        }
    }

    /// So many bytes from an offset on, in a list of their own.
    pub(crate) fn bytes_from(&self, alloc: Global, offset: u32, n: u32) -> Result<Vec<u8>, NoMemory>
        requires { offset + n ≤ self.now.size }
        ensures items { IfOk result (λ part. part.items ≡ take n (drop offset self.now.bytes)) }
        ensures len { IfOk result (λ part. length part.items ≡ n) }
    {
        let start = offset as usize;
        let part = Vec::from_slice(alloc, &self.bytes[start..start + n as usize])?;
        Ok(part)
    }

    /// The pointers in the slots within so many bytes from an offset, in a list of their own.
    #[tactic(auto, using(crate::proofs::SlotCounts::below_within))]
    pub(crate) fn pointers_from(
        &self,
        alloc: Global,
        offset: u32,
        n: u32,
    ) -> Result<Vec<Pointer>, NoMemory>
        ensures items { IfOk result (λ part. part.items ≡ take (length (slots_within self.now.slots offset n)) (drop (length (slots_below self.now.slots offset)) self.now.pointers)) }
        ensures len { IfOk result (λ part. length part.items ≡ length (slots_within self.now.slots offset n)) }
    {
        let start = count_below(&self.slots, offset);
        let count = count_within(&self.slots, offset, n);
        let part = Vec::from_slice(alloc, &self.pointers[start..start + count])?;
        Ok(part)
    }

    /// Writes bytes at an offset, and pointers into the slots from there on.
    #[tactic(auto, using(crate::proofs::SlotCounts::below_within))]
    pub(crate) fn overlay(&mut self, offset: u32, n: u32, bytes: &[u8], pointers: &[Pointer])
        requires bytes { offset + length bytes.now ≤ self.old.size }
        requires pointers { length pointers.now ≡ length (slots_within self.old.slots offset n) }
        ensures { self.new ≡ record self.old { bytes = overlaid self.old.bytes offset bytes.now; pointers = overlaid self.old.pointers (length (slots_below self.old.slots offset)) pointers.now } }
    {
        let start = count_below(&self.slots, offset);
        overlay_bytes(&mut self.bytes, offset as usize, bytes);
        overlay_pointers(&mut self.pointers, start, pointers);
    }

    /// Says whether so many bytes may be set: no slot is cut, and a whole slot only to 0.
    pub(crate) fn may_set(&self, offset: u32, byte: u8, n: u32) -> bool
        ensures { result ≡ may_set self.now offset byte n }
    {
        !cuts_slot(&self.slots, offset, n)
            && (byte == 0 || count_within(&self.slots, offset, n) == 0)
    }

    /// Sets so many bytes at an offset, and the slots within them to null.
    #[tactic(auto, using(crate::proofs::SlotCounts::below_within))]
    pub(crate) fn fill(&mut self, offset: u32, byte: u8, n: u32)
        requires { offset + n ≤ self.old.size }
        ensures { self.new ≡ filled self.old offset byte n }
    {
        let start = count_below(&self.slots, offset);
        let count = count_within(&self.slots, offset, n);
        fill_bytes(&mut self.bytes, offset as usize, n as usize, byte);
        clear_pointers(&mut self.pointers, start, count);
    }

    /// Writes so many low bytes of a number at an offset.
    fn set_number(&mut self, offset: u32, width: u32, value: u64)
        requires width { width ≤ 8 }
        requires inside { offset + width ≤ self.old.size }
        ensures { self.new ≡ record self.old { bytes = overlaid self.old.bytes offset (bytes_of width value) } }
    {
        write_number(&mut self.bytes, offset as usize, width as usize, value);
    }

    /// Writes an integer of a kind at an offset.
    pub(crate) fn set_integer(&mut self, kind: IntKind, offset: u32, n: i128)
        requires { offset + width kind ≤ self.old.size }
        ensures { self.new ≡ with_integer kind self.old offset n }
    {
        self.set_number(offset, kind.bytes(), low_bits(kind, n));
    }

    /// Writes a pointer at an offset.
    pub(crate) fn set_pointer(&mut self, offset: u32, p: Pointer)
        ensures { self.new ≡ with_pointer self.old offset p }
    {
        let place = count_below(&self.slots, offset);
        if place < self.pointers.len() {
            self.pointers[place] = p;
        }
    }
}

/// Says whether so many bytes of one object may be copied to another: no slot is cut, and the slots within both stand at
/// the same distances.
#[tactic(auto, using(crate::proofs::SlotCounts::same_count))]
pub(crate) fn may_copy(
    alloc: Global,
    into: &Object,
    to: u32,
    out: &Object,
    from: u32,
    n: u32,
) -> Result<bool, NoMemory>
    ensures may { IfOk result (λ may. may ≡ may_copy into.now to out.now from n) }
    ensures count { IfOk result (λ may. may ≡ true → length (slots_within into.now.slots to n) ≡ length (slots_within out.now.slots from n)) }
{
    if cuts_slot(&into.slots, to, n) || cuts_slot(&out.slots, from, n) {
        return Ok(false);
    }
    have_same_distances(alloc, &into.slots, to, &out.slots, from, n)
}
