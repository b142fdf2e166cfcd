//! Strings, which are read byte by byte (C99 7.21.4.2, 7.21.6.3).

ghost use Rattle.std.specs.Prelude.{◌+◌, ◌^◌, ◌≤◌, IfOk};
ghost use Rattle.hs_base.specs.declared.ends.IntKind.TheVariants.{I32};
ghost use Rattle.hs_base.specs.Arithmetic.{IsInRange};
ghost use Rattle.object_meaning.specs.objects.Strings.{byte_behind, order_of, string_at};
ghost use Rattle.flat_objects.specs.Keeping.{IsKept};
ghost use Rattle.flat_objects.specs.Answering.{AnswersLengthAt, AnswersOfBoth};
ghost use Rattle.flat_objects.specs.Texts.{AnswersOfText, IsByteOfString, IsKeptText, IsRoomOf, IsStringByte, IsTextOf};

use crate::finding::Found;
use crate::forms::touches_slot;
use crate::memory::FlatObjects;
use byte_memory::Steps;
use hs_base::TrapKind;
use std::sync::ledger::Ledger;

/// One byte more than the object of a string has: no string in it is longer.
fn room(text: Option<Found>) -> u64
    ensures room { IsRoomOf text result }
    ensures small { result ≤ 2 ^ 32 }
{
    match text {
        None => 1,
        Some(found) => u64::from(found.size) + 1,
    }
}

impl FlatObjects {
    /// The object of a string's address, and none at null.
    fn text<L: Ledger>(&self, addr: u32, steps: &mut Steps<L>) -> Option<Found>
        requires { IsKept self.now addr }
        ensures { IsTextOf self.now addr result }
    {
        if addr == 0 {
            return None;
        }
        Some(self.find(addr, steps))
    }

    /// The byte so many bytes behind the start of a string, read as an access of one byte does.
    fn byte_behind<L: Ledger>(
        &self,
        text: Option<Found>,
        i: u64,
        steps: &mut Steps<L>,
    ) -> Result<u8, TrapKind>
        requires { IsKeptText self.now text }
        ensures { AnswersOfText self.now text result (λ all p. byte_behind all p i) }
    {
        let Some(found) = text else {
            return Err(TrapKind::Null);
        };
        if u64::from(found.size - found.offset) <= i {
            return Err(TrapKind::Bounds);
        }
        let offset = found.offset + i as u32;
        let form = &self.forms.as_slice()[found.layout as usize];
        if touches_slot(form, found.size, offset, 1) {
            return Err(TrapKind::Layout);
        }
        Ok(self.bytes.read(found.start + offset, 1, steps) as u8)
    }

    /// How many bytes stand at an address in front of the first zero.
    pub fn string_length<L: Ledger>(&self, addr: u32, steps: &mut Steps<L>) -> Result<u32, TrapKind>
        requires { IsKept self.now addr }
        ensures { AnswersLengthAt self.now addr result string_at }
    {
        let text = self.text(addr, steps);
        for i in 0..room(text) {
            if self.byte_behind(text, i, steps)? == 0 {
                return Ok(i as u32);
            }
        }
        Err(TrapKind::Bounds)
    }

    /// A byte of the string at an address, in front of its first zero.
    pub fn string_byte<L: Ledger>(&self, addr: u32, i: u32, steps: &mut Steps<L>) -> u8
        requires { IsStringByte self.now addr i }
        ensures { IsByteOfString self.now addr i result }
    {
        self.bytes.read(addr + i, 1, steps) as u8
    }

    /// The order of the strings at two addresses: -1, 0 or 1. At each place the first one's byte is read first.
    pub fn string_order<L: Ledger>(
        &self,
        p: u32,
        q: u32,
        steps: &mut Steps<L>,
    ) -> Result<i128, TrapKind>
        requires one { IsKept self.now p }
        requires other { IsKept self.now q }
        ensures orders { AnswersOfBoth self.now p q result order_of }
        ensures in_range { IfOk result (IsInRange I32) }
    {
        let first = self.text(p, steps);
        let second = self.text(q, steps);
        for i in 0..room(first) {
            let one = self.byte_behind(first, i, steps)?;
            let other = self.byte_behind(second, i, steps)?;
            if one < other {
                return Ok(-1);
            }
            if other < one {
                return Ok(1);
            }
            if one == 0 {
                return Ok(0);
            }
        }
        Err(TrapKind::Bounds)
    }
}
