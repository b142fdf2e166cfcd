//! Addresses as operands. One stays within its object, from its start to one past its end (C99 6.5.6, 6.5.8, 6.5.9).

ghost use Rattle.std.specs.Prelude.{◌≡◌, ◌+◌, ◌^◌, ◌<◌, ◌≤◌, ◌<ℤ◌, ◌*ℤ◌, ◌-ℤ◌, ℤ, pos, neg_ℤ, int_div, IfOk, IfSome};
ghost use Rattle.hs_base.specs.Arithmetic.{IsInRange};
ghost use Rattle.hs_base.specs.Numbers.{wrapped};
ghost use Rattle.object_meaning.specs.objects.Arithmetic.{compared, difference, offsets, ordered, pointers_compared, truth};
ghost use Rattle.object_meaning.specs.objects.Values.{number};
ghost use Rattle.flat_objects.specs.Keeping.{IsKept};
ghost use Rattle.flat_objects.specs.Answering.{AnswersNumberOfBoth, AnswersOfBoth};
ghost use Rattle.flat_objects.specs.Moving.{IsFar, IsMovedBy, MovesTo};

use crate::memory::FlatObjects;
use byte_memory::Steps;
use core_tree::CmpOp;
use hs_base::{IntKind, TrapKind};
use std::sync::ledger::Ledger;

/// A number from 0 on that is below 2^32, as most counts and sizes are.
#[inline(always)]
fn short(n: i128) -> Option<u64>
    ensures value { IfSome result (λ m. pos m ≡ n) }
    ensures small { IfSome result (λ m. m < 2 ^ 32) }
{
    if 0 <= n && n < 0x1_0000_0000 {
        Some(n as u64)
    } else {
        None
    }
}

/// The product of two short numbers. It is quick, and serves nearly all elements that are looked up.
#[inline(always)]
fn short_product(one: i128, other: i128) -> Option<u64>
    ensures value { IfSome result (λ product. pos product ≡ one *ℤ other) }
    ensures small { IfSome result (λ product. product + 2 ^ 32 < 2 ^ 64) }
{
    let Some(first) = short(one) else {
        return None;
    };
    let Some(second) = short(other) else {
        return None;
    };
    Some(first * second)
}

/// The address of a place in an object of a size, where it is from its start to one past its end.
#[inline(always)]
fn address_within(start: u32, size: u32, place: i128) -> Result<u32, TrapKind>
    requires { start + size < 2 ^ 32 }
    ensures { MovesTo start size place result }
{
    if 0 <= place && place <= i128::from(size) {
        Ok(start + place as u32)
    } else {
        Err(TrapKind::Range)
    }
}

/// The address so many bytes before an offset in an object, down to its start.
#[inline(always)]
fn address_before(start: u32, size: u32, offset: u32, bytes: u64) -> Result<u32, TrapKind>
    requires fits { start + size < 2 ^ 32 }
    requires inside { offset ≤ size }
    ensures { MovesTo start size (pos offset -ℤ pos bytes) result }
{
    if bytes <= u64::from(offset) {
        Ok(start + (offset - bytes as u32))
    } else {
        Err(TrapKind::Range)
    }
}

/// Says whether a comparison holds of two offsets.
#[inline(always)]
fn compared(op: CmpOp, one: u32, other: u32) -> bool
    ensures { result ≡ compared op (pos one) (pos other) }
{
    match op {
        CmpOp::Eq => one == other,
        CmpOp::Ne => one != other,
        CmpOp::Lt => one < other,
        CmpOp::Gt => one > other,
        CmpOp::Le => one <= other,
        CmpOp::Ge => one >= other,
    }
}

/// The difference of two offsets in elements of a size, rounded toward zero.
#[inline(always)]
fn elements_between(one: u32, other: u32, element: i128) -> i128
    requires { pos 0 <ℤ element }
    ensures value { result ≡ wrapped IntKind.I32 (int_div (pos one -ℤ pos other) element) }
    ensures in_range { IsInRange IntKind.I32 result }
{
    let bytes = i128::from(one) - i128::from(other);
    IntKind::I32.wrap(bytes / element)
}

/// 1 or 0.
#[inline(always)]
fn truth(holds: bool) -> i128
    ensures value { number result ≡ truth holds }
    ensures in_range { IsInRange IntKind.I32 result }
{
    if holds { 1 } else { 0 }
}

impl FlatObjects {
    /// An address moved by a distance of bytes. Null is moved by 0 alone.
    #[inline(always)]
    pub fn moved<L: Ledger>(
        &self,
        addr: u32,
        distance: i128,
        steps: &mut Steps<L>,
    ) -> Result<u32, TrapKind>
        requires { IsKept self.now addr }
        ensures { IsMovedBy self.now addr distance result }
    {
        if addr == 0 {
            return if distance == 0 {
                Ok(0)
            } else {
                Err(TrapKind::Null)
            };
        }
        let found = self.spot(addr, steps);
        match i128::from(found.offset).checked_add(distance) {
            Some(place) => address_within(found.start, found.size, place),
            None => Err(TrapKind::Range),
        }
    }

    /// What an address traps with that is moved by a distance that is far beyond any object.
    fn moved_far(&self, addr: u32) -> Result<u32, TrapKind>
        ensures { (distance : ℤ) → IsFar distance → IsMovedBy self.now addr distance result }
    {
        let _ = &self.bytes;
        Err(if addr == 0 {
            TrapKind::Null
        } else {
            TrapKind::Range
        })
    }

    /// An address moved up by so many elements of a size, however far.
    #[inline(never)]
    fn moved_up_far<L: Ledger>(
        &self,
        addr: u32,
        count: i128,
        size: i128,
        steps: &mut Steps<L>,
    ) -> Result<u32, TrapKind>
        requires { IsKept self.now addr }
        ensures { IsMovedBy self.now addr (count *ℤ size) result }
    {
        match count.checked_mul(size) {
            Some(distance) => self.moved(addr, distance, steps),
            None => self.moved_far(addr),
        }
    }

    /// An address moved up by so many elements of a size. Where both are short a look at the end of its object is enough for each
    /// place up to that end.
    #[inline(always)]
    pub fn moved_up<L: Ledger>(
        &self,
        addr: u32,
        count: i128,
        size: i128,
        steps: &mut Steps<L>,
    ) -> Result<u32, TrapKind>
        requires { IsKept self.now addr }
        ensures { IsMovedBy self.now addr (count *ℤ size) result }
    {
        let _ = &self.bytes;
        match short_product(count, size) {
            Some(bytes) => {
                let target = u64::from(addr) + bytes;
                if target <= u64::from(self.marks.end(addr)) {
                    Ok(target as u32)
                } else {
                    self.moved_up_far(addr, count, size, steps)
                }
            }
            None => self.moved_up_far(addr, count, size, steps),
        }
    }

    /// An address moved down by so many bytes. Null is moved by 0 alone.
    #[inline(always)]
    fn moved_back<L: Ledger>(
        &self,
        addr: u32,
        bytes: u64,
        steps: &mut Steps<L>,
    ) -> Result<u32, TrapKind>
        requires { IsKept self.now addr }
        ensures { IsMovedBy self.now addr (neg_ℤ (pos bytes)) result }
    {
        if addr == 0 {
            return if bytes == 0 {
                Ok(0)
            } else {
                Err(TrapKind::Null)
            };
        }
        let found = self.spot(addr, steps);
        address_before(found.start, found.size, found.offset, bytes)
    }

    /// An address moved down by so many elements of a size, however far.
    #[inline(never)]
    fn moved_down_far<L: Ledger>(
        &self,
        addr: u32,
        count: i128,
        size: i128,
        steps: &mut Steps<L>,
    ) -> Result<u32, TrapKind>
        requires { IsKept self.now addr }
        ensures { IsMovedBy self.now addr (neg_ℤ (count *ℤ size)) result }
    {
        let Some(up) = count.checked_mul(size) else {
            return self.moved_far(addr);
        };
        match 0i128.checked_sub(up) {
            Some(distance) => self.moved(addr, distance, steps),
            None => self.moved_far(addr),
        }
    }

    /// An address moved down by so many elements of a size.
    #[inline(always)]
    pub fn moved_down<L: Ledger>(
        &self,
        addr: u32,
        count: i128,
        size: i128,
        steps: &mut Steps<L>,
    ) -> Result<u32, TrapKind>
        requires { IsKept self.now addr }
        ensures { IsMovedBy self.now addr (neg_ℤ (count *ℤ size)) result }
    {
        match short_product(count, size) {
            Some(bytes) => self.moved_back(addr, bytes, steps),
            None => self.moved_down_far(addr, count, size, steps),
        }
    }

    /// The offsets of two addresses in one object.
    #[inline(always)]
    fn offsets<L: Ledger>(
        &self,
        p: u32,
        q: u32,
        steps: &mut Steps<L>,
    ) -> Result<(u32, u32), TrapKind>
        requires one { IsKept self.now p }
        requires other { IsKept self.now q }
        ensures { AnswersOfBoth self.now p q result (λ _. offsets) }
    {
        let _ = &self.bytes;
        if p == 0 || q == 0 {
            return Err(TrapKind::Null);
        }
        let one = self.spot(p, steps);
        let other = self.spot(q, steps);
        if one.start != other.start {
            return Err(TrapKind::Objects);
        }
        Ok((one.offset, other.offset))
    }

    /// The difference of two addresses in elements of a size, rounded toward zero (C99 6.5.6 paragraph 9).
    #[inline(always)]
    pub fn difference<L: Ledger>(
        &self,
        p: u32,
        q: u32,
        element: i128,
        steps: &mut Steps<L>,
    ) -> Result<i128, TrapKind>
        requires one { IsKept self.now p }
        requires other { IsKept self.now q }
        requires element { pos 0 <ℤ element }
        ensures differs { AnswersNumberOfBoth self.now p q result (λ a b. difference a b element) }
        ensures in_range { IfOk result (IsInRange IntKind.I32) }
    {
        let (one, other) = self.offsets(p, q, steps)?;
        Ok(elements_between(one, other, element))
    }

    /// Which of two addresses in one object is lower.
    #[inline(always)]
    fn ordered<L: Ledger>(
        &self,
        op: CmpOp,
        p: u32,
        q: u32,
        steps: &mut Steps<L>,
    ) -> Result<i128, TrapKind>
        requires one { IsKept self.now p }
        requires other { IsKept self.now q }
        ensures orders { AnswersNumberOfBoth self.now p q result (ordered op) }
        ensures in_range { IfOk result (IsInRange IntKind.I32) }
    {
        let (one, other) = self.offsets(p, q, steps)?;
        Ok(truth(compared(op, one, other)))
    }

    /// A comparison of two addresses: 1 or 0. Any two are equal or not; only those in one object are ordered.
    #[inline(always)]
    pub fn compare<L: Ledger>(
        &self,
        op: CmpOp,
        p: u32,
        q: u32,
        steps: &mut Steps<L>,
    ) -> Result<i128, TrapKind>
        requires one { IsKept self.now p }
        requires other { IsKept self.now q }
        ensures compares { AnswersNumberOfBoth self.now p q result (pointers_compared op) }
        ensures in_range { IfOk result (IsInRange IntKind.I32) }
    {
        let _ = &self.bytes;
        match op {
            CmpOp::Eq => Ok(truth(p == q)),
            CmpOp::Ne => Ok(truth(p != q)),
            CmpOp::Lt | CmpOp::Gt | CmpOp::Le | CmpOp::Ge => self.ordered(op, p, q, steps),
        }
    }
}
