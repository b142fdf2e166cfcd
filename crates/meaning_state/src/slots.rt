//! The pointer slots of an object: the offsets of its pointers, each of 4 bytes, as a list.

ghost use Rattle.std.specs.Prelude.{◌≡◌, ◌+◌, ◌&&◌, nat_le, IfOk, length};
ghost use Rattle.hs_base.specs.Access.{slots_below, slots_within, touches_slot, cuts_slot, is_slot, distances, same_numbers};

use hs_base::NoMemory;
use std::alloc::Global;

/// How many slots begin below an offset.
pub(crate) fn count_below(slots: &[u32], offset: u32) -> usize
    ensures { result ≡ length (slots_below slots.now offset) }
{
    slots.iter().filter(|slot| **slot < offset).count()
}

/// Says whether a slot lies whole within so many bytes from an offset.
fn is_within(slot: u32, offset: u32, n: u32) -> bool
    ensures { result ≡ (nat_le offset slot && nat_le (slot + 4) (offset + n)) }
{
    offset <= slot && u64::from(slot) + 4 <= u64::from(offset) + u64::from(n)
}

/// How many slots lie whole within so many bytes from an offset.
pub(crate) fn count_within(slots: &[u32], offset: u32, n: u32) -> usize
    ensures { result ≡ length (slots_within slots.now offset n) }
{
    slots
        .iter()
        .filter(|slot| is_within(**slot, offset, n))
        .count()
}

/// Says whether a slot has a byte within so many bytes from an offset.
pub(crate) fn touches_slot(slots: &[u32], offset: u32, n: u32) -> bool
    ensures { result ≡ touches_slot slots.now offset n }
{
    let end = u64::from(offset) + u64::from(n);
    slots.iter().any(|slot| u64::from(*slot) < end && u64::from(offset) < u64::from(*slot) + 4)
}

/// Says whether an edge of so many bytes from an offset lies inside a slot.
pub(crate) fn cuts_slot(slots: &[u32], offset: u32, n: u32) -> bool
    ensures { result ≡ cuts_slot slots.now offset n }
{
    let start = u64::from(offset);
    let end = start + u64::from(n);
    slots.iter().any(|slot| {
        let slot = u64::from(*slot);
        (slot < start && start < slot + 4) || (slot < end && end < slot + 4)
    })
}

/// Says whether a slot stands at an offset.
pub(crate) fn is_slot(slots: &[u32], offset: u32) -> bool
    ensures { result ≡ is_slot slots.now offset }
{
    slots.iter().any(|slot| *slot == offset)
}

/// The distances of the slots within so many bytes from an offset, from there.
fn distances(alloc: Global, slots: &[u32], offset: u32, n: u32) -> Result<Vec<u32>, NoMemory>
    ensures { IfOk result (λ all. all.items ≡ distances slots.now offset n) }
{
    let mut all = Vec::new(alloc);
    for slot in slots {
        if is_within(*slot, offset, n) {
            all.push(*slot - offset)?;
        }
    }
    Ok(all)
}

/// Says whether two lists are the same.
fn are_same(one: &[u32], other: &[u32]) -> bool
    ensures { result ≡ same_numbers one.now other.now }
{
    one == other
}

/// Says whether the slots within so many bytes from two offsets stand at the same distances from them.
pub(crate) fn have_same_distances(
    alloc: Global,
    slots: &[u32],
    to: u32,
    others: &[u32],
    from: u32,
    n: u32,
) -> Result<bool, NoMemory>
    ensures { IfOk result (λ same. same ≡ same_numbers (distances slots.now to n) (distances others.now from n)) }
{
    let one = distances(alloc, slots, to, n)?;
    let other = distances(alloc, others, from, n)?;
    Ok(are_same(&one, &other))
}
