//! Copies and clears of ranges of bytes inside objects whose pointer slots are known, with counts of pointers.
//!
//! An object is named by a [`Ranged`]: the address of its first byte, its size, an offset in it and the number of the
//! [`Adjuster`] that knows its slots. A slot holds an address of 4 bytes, or 0 for null. [`copy`] and [`grow`] move bytes
//! as through a buffer, [`clear`] sets them to one value. Each takes the pointers that go off the counts and adds those
//! that come, so that a count of pointers that was exact before is exact afterwards.
//!
//! A range may cut no slot, a copy wants slots at the same distances in both ranges (this project's own rule: C99 6.2.6.1
//! leaves open what parts of a pointer's bytes are), and a set of whole slots wants the byte 0. What is refused, and in
//! which order, are `copy` and `set_bytes` of `hs_base/specs/Access.antt`; that no pointer is null and no object is dead is
//! tested by the caller. A refusal changes nothing. `specs/Copying.antt` says what a call leaves.
//!
//! Each read or write is a step, and so is each change of a count; there are at most three for each byte of the range. The
//! first slot of a range is found by halving the slots of its object, which takes no step.
#![tactic(auto)]

ghost use Rattle.std.specs.Prelude.{◌≡◌, ◌+◌, ◌*◌, ◌^◌, ◌<◌, ◌≤◌, All, List, length, min, IfErr, OnErr, OnOk};
ghost use Rattle.c_types.specs.Layouts.{AreSlots};
ghost use Rattle.hs_base.specs.declared.values.Pointer as values;
ghost use Rattle.hs_base.specs.Access as access;
ghost use Rattle.hs_base.specs.Access.{overlaid};
ghost use Rattle.byte_memory.specs.Bytes.{part};
ghost use Rattle.hs_base.specs.Object.{Object};
ghost use Rattle.adjusters.specs.ObjectSlots.{Element, object_slots};
ghost use Rattle.typed_copies.specs.Slots.{AreWithin};
ghost use Rattle.typed_copies.specs.Pointers.{ArePointers, Cover, Follow, HaveRoom, words_in};
ghost use Rattle.typed_copies.specs.Copying.{Answers, HasRoom, IsCleared, IsCopied, IsInside, IsRangeIn, SameFrame, form_at, slots_of, words_of};
ghost use Rattle.typed_copies.specs.Ranges.{AnswersCopy, AnswersSet, Clears, Copies, FollowRange, HasRoomToMove, MovesPointers, common, range_words};

mod counting;
mod moving;
mod slots;

use crate::counting::{put_on, take_off};
use crate::moving::{fill, move_bytes};
use crate::slots::{Within, corresponding, settable};
use adjusters::Adjuster;
use byte_memory::{FlatBytes, Steps};
use count_table::Counts;
use hs_base::{Items, TrapKind};
use std::sync::ledger::Ledger;

/// An offset in an object.
#[derive(Clone, Copy, Debug, PartialEq, Eq)]
pub struct Ranged {
    /// The address of the object's first byte.
    pub start: u32,
    /// The object's size in bytes.
    pub size: u32,
    /// The offset of a range in the object, in bytes.
    pub offset: u32,
    /// The number of the adjuster of the object's elements.
    pub form: u32,
}

/// The adjuster of an object.
fn adjuster_of<'a>(forms: &'a Items<Adjuster>, range: Ranged) -> &'a Adjuster
    requires number { range.form < length forms.now }
    requires formed { All (λ (form : Element). AreSlots 0 form.size form.slots) forms.now }
    ensures element { result.now ≡ form_at forms.now range.form }
    ensures formed { AreSlots 0 result.now.size result.now.slots }
{
    &forms.as_slice()[range.form as usize]
}

/// Moves n bytes to a range whose slots are given, and the counts follow the pointers in these.
fn replace<L: Ledger>(
    bytes: &mut FlatBytes,
    counts: &mut Counts,
    form: &Adjuster,
    dst: Ranged,
    into: Within,
    from: u32,
    n: u32,
    steps: &mut Steps<L>,
)
    requires form { AreSlots 0 form.now.size form.now.slots }
    requires reach { length bytes.old < 2 ^ 32 }
    requires object { dst.start + dst.size ≤ length bytes.old }
    requires range { dst.offset + n ≤ dst.size }
    requires from { from + n ≤ length bytes.old }
    requires into { AreWithin (object_slots form.now dst.size) dst.offset n into }
    requires pointers { MovesPointers form.now bytes.old counts.old dst into from n }
    requires covered { Cover counts.old (range_words form.now bytes.old dst into) }
    requires room { HasRoomToMove form.now bytes.old counts.old dst into from n }
    ensures moved { bytes.new ≡ overlaid bytes.old (dst.start + dst.offset) (part bytes.old from n) }
    ensures follow { FollowRange form.now dst into bytes.old bytes.new counts.old counts.new }
    ensures work { steps.new ≤ steps.old + 3 * n }
{
    take_off(bytes, counts, form, dst, into, steps);
    move_bytes(bytes, dst.start + dst.offset, from, n, steps);
    put_on(bytes, counts, form, dst, into, steps);
}

/// Copies n bytes between ranges that lie inside their objects, where the slots allow it.
fn transfer<L: Ledger>(
    bytes: &mut FlatBytes,
    counts: &mut Counts,
    forms: &Items<Adjuster>,
    dst: Ranged,
    src: Ranged,
    n: u32,
    steps: &mut Steps<L>,
) -> Result<(), TrapKind>
    requires reach { length bytes.old < 2 ^ 32 }
    requires formed { All (λ (form : Element). AreSlots 0 form.size form.slots) forms.now }
    requires destination { IsInside forms.now bytes.old dst }
    requires source { IsInside forms.now bytes.old src }
    requires pointers { ArePointers bytes.old counts.old (words_of forms.now bytes.old src) }
    requires covered { Cover counts.old (words_of forms.now bytes.old dst) }
    requires room { HasRoom forms.now bytes.old counts.old dst src n }
    requires into { dst.offset + n ≤ dst.size }
    requires from { src.offset + n ≤ src.size }
    ensures answers { AnswersCopy forms.now dst src n result }
    ensures layout { IfErr result (λ kind. kind ≡ TrapKind.Layout) }
    ensures copied { OnOk result (Copies forms.now dst src n bytes.old bytes.new counts.old counts.new) }
    ensures refused { OnErr result ((bytes.new ≡ bytes.old) × (counts.new ≡ counts.old)) }
    ensures frame { SameFrame bytes.old bytes.new counts.old counts.new }
    ensures work { steps.new ≤ steps.old + 3 * n }
{
    if n == 0 {
        return Ok(());
    }
    let d_form = adjuster_of(forms, dst);
    let s_form = adjuster_of(forms, src);
    let Some(into) = corresponding(d_form, dst, s_form, src, n) else {
        return Err(TrapKind::Layout);
    };
    replace(
        bytes,
        counts,
        d_form,
        dst,
        into,
        src.start + src.offset,
        n,
        steps,
    );
    Ok(())
}

/// Copies n bytes from one range to another, as through a buffer (C99 7.21.2.1, 7.21.2.2, and the assignment of a struct,
/// 6.5.16.1). A copy of no bytes tries nothing. At most three steps for each byte.
///
/// # Errors
///
/// `Bounds` where a range ends past its object, and else `Layout` where a slot is cut by either range or the slots within
/// them do not stand at the same distances. Then nothing changes.
pub fn copy<L: Ledger>(
    bytes: &mut FlatBytes,
    counts: &mut Counts,
    forms: &Items<Adjuster>,
    dst: Ranged,
    src: Ranged,
    n: u32,
    steps: &mut Steps<L>,
) -> Result<(), TrapKind>
    requires reach { length bytes.old < 2 ^ 32 }
    requires formed { All (λ (form : Element). AreSlots 0 form.size form.slots) forms.now }
    requires destination { IsInside forms.now bytes.old dst }
    requires source { IsInside forms.now bytes.old src }

    // The words in the source's slots are null or addresses inside the bytes. The counts cover the pointers in the
    // destination's slots, and have room for the pointers that come.
    requires pointers { ArePointers bytes.old counts.old (words_of forms.now bytes.old src) }
    requires covered { Cover counts.old (words_of forms.now bytes.old dst) }
    requires room { HasRoom forms.now bytes.old counts.old dst src n }

    // For all objects that have the ranges.
    ensures answers { AnswersCopy forms.now dst src n result }
    ensures copied { OnOk result (Copies forms.now dst src n bytes.old bytes.new counts.old counts.new) }
    ensures refused { OnErr result ((bytes.new ≡ bytes.old) × (counts.new ≡ counts.old)) }
    ensures frame { SameFrame bytes.old bytes.new counts.old counts.new }
    ensures work { steps.new ≤ steps.old + 3 * n }
{
    if dst.size - dst.offset < n {
        return Err(TrapKind::Bounds);
    }
    if src.size - src.offset < n {
        return Err(TrapKind::Bounds);
    }
    transfer(bytes, counts, forms, dst, src, n, steps)
}

/// Sets n bytes of a range to one value (C99 7.21.6.1); slots within the range become null. A set of no bytes tries
/// nothing. At most two steps for each byte.
///
/// # Errors
///
/// `Bounds` where the range ends past its object, and else `Layout` where it cuts a slot, or has one while the value is not
/// 0. Then nothing changes.
pub fn clear<L: Ledger>(
    bytes: &mut FlatBytes,
    counts: &mut Counts,
    forms: &Items<Adjuster>,
    dst: Ranged,
    byte: u8,
    n: u32,
    steps: &mut Steps<L>,
) -> Result<(), TrapKind>
    requires reach { length bytes.old < 2 ^ 32 }
    requires formed { All (λ (form : Element). AreSlots 0 form.size form.slots) forms.now }
    requires destination { IsInside forms.now bytes.old dst }
    requires covered { Cover counts.old (words_of forms.now bytes.old dst) }
    ensures answers { AnswersSet forms.now dst byte n result }
    ensures cleared { OnOk result (Clears forms.now dst byte n bytes.old bytes.new counts.old counts.new) }
    ensures refused { OnErr result ((bytes.new ≡ bytes.old) × (counts.new ≡ counts.old)) }
    ensures frame { SameFrame bytes.old bytes.new counts.old counts.new }
    ensures work { steps.new ≤ steps.old + 2 * n }
{
    if dst.size - dst.offset < n {
        return Err(TrapKind::Bounds);
    }
    if n == 0 {
        return Ok(());
    }
    let form = adjuster_of(forms, dst);
    let Some(within) = settable(form, dst, byte, n) else {
        return Err(TrapKind::Layout);
    };
    take_off(bytes, counts, form, dst, within, steps);
    fill(bytes, dst.start + dst.offset, byte, n, steps);
    Ok(())
}

/// Copies the first bytes of an object to another, as many as both have (C99 7.20.3.4). At most three steps for each.
///
/// # Errors
///
/// `Layout` where a slot of one of them is cut by the end of these bytes, or the slots within them do not stand at the same
/// distances. Then nothing changes.
pub fn grow<L: Ledger>(
    bytes: &mut FlatBytes,
    counts: &mut Counts,
    forms: &Items<Adjuster>,
    dst: Ranged,
    src: Ranged,
    steps: &mut Steps<L>,
) -> Result<(), TrapKind>
    requires reach { length bytes.old < 2 ^ 32 }
    requires formed { All (λ (form : Element). AreSlots 0 form.size form.slots) forms.now }
    requires destination { IsInside forms.now bytes.old dst }
    requires source { IsInside forms.now bytes.old src }
    requires whole { (dst.offset ≡ 0) × (src.offset ≡ 0) }
    requires pointers { ArePointers bytes.old counts.old (words_of forms.now bytes.old src) }
    requires covered { Cover counts.old (words_of forms.now bytes.old dst) }
    requires room { HasRoom forms.now bytes.old counts.old dst src (min src.size dst.size) }
    ensures answers { AnswersCopy forms.now dst src (common dst src) result }
    ensures layout { IfErr result (λ kind. kind ≡ TrapKind.Layout) }
    ensures copied { OnOk result (Copies forms.now dst src (common dst src) bytes.old bytes.new counts.old counts.new) }
    ensures refused { OnErr result ((bytes.new ≡ bytes.old) × (counts.new ≡ counts.old)) }
    ensures frame { SameFrame bytes.old bytes.new counts.old counts.new }
    ensures work { steps.new ≤ steps.old + 3 * min src.size dst.size }
{
    transfer(
        bytes,
        counts,
        forms,
        dst,
        src,
        src.size.min(dst.size),
        steps,
    )
}
