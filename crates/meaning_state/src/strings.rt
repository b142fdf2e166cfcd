//! Strings, which are read byte by byte (C99 7.21.4.2, 7.21.6.3).

ghost use Rattle.std.specs.Prelude.{◌≡◌, ◌≤◌, ◌^◌, ℕ, List, Ok};
ghost use Rattle.object_meaning.specs.objects.Strings.{byte_behind, room_at, string_at, order_of};
ghost use Rattle.meaning_state.specs.Refusing.{Answers};

use crate::objects::Objects;
use crate::refusal::Refusal;
use hs_base::{Items, Pointer, TrapKind};
use std::alloc::Global;

impl Objects {
    /// The byte so many bytes behind a pointer.
    fn byte_behind(&self, p: Pointer, i: u64) -> Result<u8, Refusal>
        requires { i ≤ 2 ^ 33 }
        ensures { Answers result (byte_behind self.now p i) }
    {
        let Pointer::At { birth, offset } = p else {
            return Err(Refusal::Trapped(TrapKind::Null));
        };
        let birth = birth as usize;
        if birth >= self.list.len() {
            return Err(Refusal::ReadsDead);
        }
        let object = &self.list[birth];
        let place = u64::from(offset) + i;
        if object.is_dead() {
            return Err(Refusal::ReadsDead);
        }
        if place >= u64::from(object.size()) {
            return Err(Refusal::Trapped(TrapKind::Bounds));
        }
        if object.touches_slot(place as u32, 1) {
            return Err(Refusal::Trapped(TrapKind::Layout));
        }
        Ok(object.byte(place as u32))
    }

    /// One byte more than an object has.
    fn room(&self, p: Pointer) -> u64
        ensures room { result ≡ room_at self.now p }
        ensures small { result ≤ 2 ^ 32 }
    {
        match p {
            Pointer::Null => 1,
            Pointer::At { birth, .. } => u64::from(self.size(birth)) + 1,
        }
    }

    /// The bytes at a pointer up to the first zero.
    pub fn string(&self, alloc: Global, p: Pointer) -> Result<Items<u8>, Refusal>
        ensures { Answers result (string_at self.now p) }
    {
        let mut text = Items::new(alloc);
        for i in 0..self.room(p) {
            let byte = self.byte_behind(p, i)?;
            if byte == 0 {
                return Ok(text);
            }
            text.push(byte)?;
        }
        Err(Refusal::Trapped(TrapKind::Bounds))
    }

    /// The order of two strings: -1, 0 or 1.
    pub fn order(&self, p: Pointer, q: Pointer) -> Result<i128, Refusal>
        ensures { Answers result (order_of self.now p q) }
    {
        for i in 0..self.room(p) {
            let one = self.byte_behind(p, i)?;
            let other = self.byte_behind(q, i)?;
            if one < other {
                return Ok(-1);
            }
            if other < one {
                return Ok(1);
            }
            if one == 0 {
                return Ok(0);
            }
        }
        Err(Refusal::Trapped(TrapKind::Bounds))
    }
}
