//! The slots of an object that lie within a range.

ghost use Rattle.std.specs.Prelude.{◌≡◌, ◌+◌, ◌≤◌, ◌&&◌, ◌⊎◌, ℕ, true, false, nat_lt, IsTrue, ◌↔◌, IfNone, IfSome, OnSome};
ghost use Rattle.std.specs.List.{list_any};
ghost use Rattle.c_types.specs.Layouts.{AreSlots};
ghost use Rattle.hs_base.specs.Access.{cuts_slot};
ghost use Rattle.adjusters.specs.ObjectSlots.{object_slots};
ghost use Rattle.typed_copies.specs.Slots.{AreWithin, AtSameDistances, Correspond, Splits, slots_agree, slots_allow};
ghost use Rattle.typed_copies.specs.Ranges.{RangesCorrespond, RangesMatch, is_inside_slot, range_allows, range_cuts, ranges_agree};

use crate::Ranged;
use adjusters::Adjuster;

/// Slots of an object that follow one another: the number of the first, and how many there are.
#[derive(Clone, Copy, Debug, PartialEq, Eq)]
pub(crate) struct Within {
    pub(crate) first: u32,
    pub(crate) count: u32,
}

/// How many slots of an object of a size begin below an offset. They are found by halving.
fn slots_below(form: &Adjuster, size: u32, offset: u32) -> u32
    requires { AreSlots 0 form.now.size form.now.slots }
    ensures { Splits (object_slots form.now size) offset result }
{
    let mut low = 0;
    let mut high = form.count(size);
    while low < high {
        let middle = low + (high - low) / 2;
        if form.slot(size, middle) < offset {
            low = middle + 1;
        } else {
            high = middle;
        }
    }
    low
}

/// Says whether an edge of a range lies inside a slot of an object of a size, where so many slots begin below it.
fn is_cut(form: &Adjuster, size: u32, edge: u32, below: u32) -> bool
    requires form { AreSlots 0 form.now.size form.now.slots }
    requires below { Splits (object_slots form.now size) edge below }
    ensures { result ≡ is_inside_slot edge (object_slots form.now size) }
{
    below > 0 && form.slot(size, below - 1) + 4 > edge
}

/// The slots that lie whole within n bytes from the offset, where no slot is cut.
pub(crate) fn slots_within(form: &Adjuster, range: Ranged, n: u32) -> Option<Within>
    requires form { AreSlots 0 form.now.size form.now.slots }
    requires inside { range.offset + n ≤ range.size }
    ensures none { IfNone result (range_cuts form.now range n ≡ true) }
    ensures uncut { OnSome result (range_cuts form.now range n ≡ false) }
    ensures some { IfSome result (AreWithin (object_slots form.now range.size) range.offset n) }
{
    let first = slots_below(form, range.size, range.offset);
    let end = slots_below(form, range.size, range.offset + n);
    if is_cut(form, range.size, range.offset, first) {
        return None;
    }
    if is_cut(form, range.size, range.offset + n, end) {
        return None;
    }
    Some(Within {
        first,
        count: end - first,
    })
}

/// Says whether as many slots of one object as of another stand at the same distances from the offsets.
fn at_same_distances(
    d_form: &Adjuster,
    dst: Ranged,
    into: Within,
    s_form: &Adjuster,
    src: Ranged,
    out: Within,
) -> bool
    requires d_form { AreSlots 0 d_form.now.size d_form.now.slots }
    requires s_form { AreSlots 0 s_form.now.size s_form.now.slots }
    requires into { (n : ℕ) × AreWithin (object_slots d_form.now dst.size) dst.offset n into }
    requires out { (n : ℕ) × AreWithin (object_slots s_form.now src.size) src.offset n out }
    ensures { IsTrue result ↔ RangesMatch d_form.now dst into s_form.now src out }
{
    if out.count != into.count {
        return false;
    }
    for k in 0..into.count {
        let written = d_form.slot(dst.size, into.first + k) - dst.offset;
        let read = s_form.slot(src.size, out.first + k) - src.offset;
        if written != read {
            return false;
        }
    }
    true
}

/// The slots within the destination's range of n bytes, where no slot is cut and those within the source's range stand at
/// the same distances.
pub(crate) fn corresponding(
    d_form: &Adjuster,
    dst: Ranged,
    s_form: &Adjuster,
    src: Ranged,
    n: u32,
) -> Option<Within>
    requires d_form { AreSlots 0 d_form.now.size d_form.now.slots }
    requires s_form { AreSlots 0 s_form.now.size s_form.now.slots }
    requires dst { dst.offset + n ≤ dst.size }
    requires src { src.offset + n ≤ src.size }
    ensures none { IfNone result (ranges_agree d_form.now dst s_form.now src n ≡ false) }
    ensures agree { OnSome result (ranges_agree d_form.now dst s_form.now src n ≡ true) }
    ensures some { IfSome result (RangesCorrespond d_form.now dst s_form.now src n) }
{
    let into = slots_within(d_form, dst, n)?;
    let out = slots_within(s_form, src, n)?;
    if !at_same_distances(d_form, dst, into, s_form, src, out) {
        return None;
    }
    Some(into)
}

/// The slots within a range of n bytes that may be set to one value: no slot is cut, and a slot lies within the range only
/// where the value is 0.
pub(crate) fn settable(form: &Adjuster, range: Ranged, byte: u8, n: u32) -> Option<Within>
    requires form { AreSlots 0 form.now.size form.now.slots }
    requires inside { range.offset + n ≤ range.size }
    ensures none { IfNone result (range_allows form.now range byte n ≡ false) }
    ensures allow { OnSome result (range_allows form.now range byte n ≡ true) }
    ensures some { IfSome result (AreWithin (object_slots form.now range.size) range.offset n) }
    ensures null { IfSome result (λ within. (byte ≡ 0) ⊎ (within.count ≡ 0)) }
{
    let within = slots_within(form, range, n)?;
    if byte != 0 && within.count != 0 {
        return None;
    }
    Some(within)
}
