//! Pointers as operands. One stays within its object, from its start to one past its end (C99 6.5.6, 6.5.8, 6.5.9).

ghost use Rattle.std.specs.Prelude.{◌≡◌, ◌<ℤ◌, ◌*ℤ◌, ℤ, [], pos, neg_ℤ};
ghost use Rattle.object_meaning.specs.objects.Arithmetic.{within_object, moved_by, difference, offsets, same_pointer, ordered, pointers_compared};
ghost use Rattle.meaning_state.specs.Refusing.{Answers};
ghost use Rattle.meaning_state.specs.Reaching.{IsFar};

use crate::arithmetic::{compared, truth};
use crate::objects::Objects;
use crate::refusal::Refusal;
use core_tree::CmpOp;
use hs_base::{IntKind, Pointer, TrapKind, Value};

/// The pointer to a place in an object of a size, where it is from its start to one past its end.
fn within_object(birth: u64, size: u32, place: i128) -> Result<Value, Refusal>
    ensures { Answers result (within_object birth size place) }
{
    if 0 <= place && place <= i128::from(size) {
        let offset = place as u32;
        Ok(Value::Pointer(Pointer::At { birth, offset }))
    } else {
        Err(Refusal::Trapped(TrapKind::Range))
    }
}

/// Null moved by a distance: by 0 alone.
fn null_moved(distance: i128) -> Result<Value, Refusal>
    ensures { Answers result (moved_by [] Pointer.Null distance) }
{
    if distance == 0 {
        Ok(Value::Pointer(Pointer::Null))
    } else {
        Err(Refusal::Trapped(TrapKind::Null))
    }
}

impl Objects {
    /// A pointer moved by a distance of bytes.
    pub fn moved(&self, p: Pointer, distance: i128) -> Result<Value, Refusal>
        ensures { Answers result (moved_by self.now p distance) }
    {
        let Pointer::At { birth, offset } = p else {
            return null_moved(distance);
        };
        let size = self.size(birth);
        match i128::from(offset).checked_add(distance) {
            Some(place) => within_object(birth, size, place),
            None => Err(Refusal::Trapped(TrapKind::Range)),
        }
    }

    /// A pointer moved by a distance that is far beyond any object.
    fn moved_far(&self, p: Pointer) -> Result<Value, Refusal>
        ensures { (distance : ℤ) → IsFar distance → Answers result (moved_by self.now p distance) }
    {
        let Pointer::At { birth, .. } = p else {
            return Err(Refusal::Trapped(TrapKind::Null));
        };
        let _size = self.size(birth);
        Err(Refusal::Trapped(TrapKind::Range))
    }

    /// A pointer moved up by so many elements of a size.
    pub fn moved_up(&self, p: Pointer, count: i128, size: i128) -> Result<Value, Refusal>
        ensures { Answers result (moved_by self.now p (count *ℤ size)) }
    {
        match count.checked_mul(size) {
            Some(distance) => self.moved(p, distance),
            None => self.moved_far(p),
        }
    }

    /// A pointer moved down by so many elements of a size.
    pub fn moved_down(&self, p: Pointer, count: i128, size: i128) -> Result<Value, Refusal>
        ensures { Answers result (moved_by self.now p (neg_ℤ (count *ℤ size))) }
    {
        let Some(up) = count.checked_mul(size) else {
            return self.moved_far(p);
        };
        match 0i128.checked_sub(up) {
            Some(distance) => self.moved(p, distance),
            None => self.moved_far(p),
        }
    }
}

/// Says whether two pointers are equal: both null, or both at one offset of one object.
pub fn same_pointer(p: Pointer, q: Pointer) -> bool
    ensures { result ≡ same_pointer p q }
{
    match (p, q) {
        (Pointer::Null, Pointer::Null) => true,
        (
            Pointer::At { birth, offset },
            Pointer::At {
                birth: c,
                offset: other,
            },
        ) => birth == c && offset == other,
        _ => false,
    }
}

/// The offsets of two pointers into one object.
fn offsets(p: Pointer, q: Pointer) -> Result<(u32, u32), Refusal>
    ensures { Answers result (offsets p q) }
{
    let Pointer::At { birth, offset } = p else {
        return Err(Refusal::Trapped(TrapKind::Null));
    };
    let Pointer::At {
        birth: c,
        offset: other,
    } = q
    else {
        return Err(Refusal::Trapped(TrapKind::Null));
    };
    if birth != c {
        return Err(Refusal::Trapped(TrapKind::Objects));
    }
    Ok((offset, other))
}

/// The difference of two pointers in elements of a size, rounded toward zero (C99 6.5.6 paragraph 9).
pub fn difference(p: Pointer, q: Pointer, element: i128) -> Result<Value, Refusal>
    requires { pos 0 <ℤ element }
    ensures { Answers result (difference p q element) }
{
    let (one, other) = offsets(p, q)?;
    let bytes = i128::from(one) - i128::from(other);
    Ok(Value::Number(IntKind::I32.wrap(bytes / element)))
}

/// Which of two pointers into one object is lower.
fn ordered(op: CmpOp, p: Pointer, q: Pointer) -> Result<Value, Refusal>
    ensures { Answers result (ordered op p q) }
{
    let (one, other) = offsets(p, q)?;
    Ok(truth(compared(op, i128::from(one), i128::from(other))))
}

/// A comparison of two pointers. Any two are equal or not; only those into one object are ordered.
pub fn pointers_compared(op: CmpOp, p: Pointer, q: Pointer) -> Result<Value, Refusal>
    ensures { Answers result (pointers_compared op p q) }
{
    match op {
        CmpOp::Eq => Ok(truth(same_pointer(p, q))),
        CmpOp::Ne => Ok(truth(!same_pointer(p, q))),
        CmpOp::Lt | CmpOp::Gt | CmpOp::Le | CmpOp::Ge => ordered(op, p, q),
    }
}
