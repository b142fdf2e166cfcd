//! Reading and writing objects (C99 6.5.3.2).

ghost use Rattle.std.specs.Prelude.{◌≡◌, ◌+◌, ◌*◌, ◌%◌, ◌^◌, ◌<◌, ◌≤◌, ◌⊎◌, IfOk, IsTrue, OnOk, length};
ghost use Rattle.hs_base.specs.Access.{access_integer, access_pointer};
ghost use Rattle.hs_base.specs.Arithmetic.{IsInRange};
ghost use Rattle.hs_base.specs.Numbers.{low_bits, width};
ghost use Rattle.byte_marks.specs.Marks.{AreBytes, IsSlotAt};
ghost use Rattle.object_meaning.specs.objects.Memory.{loaded, loaded_pointer, stored, stored_pointer};
ghost use Rattle.flat_objects.specs.Memory.{SameFrame};
ghost use Rattle.flat_objects.specs.Keeping.{IsKept};
ghost use Rattle.flat_objects.specs.Reaching.{ReachesAt};
ghost use Rattle.flat_objects.specs.Answering.{AllowsAt, AnswersAddressAt, AnswersNumberAt, ChangesAt, ChangesWith};
ghost use Rattle.flat_objects.specs.Counting.{IsStorable, TracksAt, TracksWith};

use crate::finding::Found;
use crate::forms::touches_slot;
use crate::memory::FlatObjects;
use byte_memory::Steps;
use hs_base::{IntKind, TrapKind};
use std::sync::ledger::Ledger;

/// The low bits of a number, as many as a kind has.
#[inline(always)]
fn low_bits(kind: IntKind, n: i128) -> u64
    ensures value { result ≡ low_bits (8 * width kind) n }
    ensures bound { result < 2 ^ (8 * width kind) }
{
    match kind {
        IntKind::I8 | IntKind::U8 => n.rem_euclid(1 << 8) as u64,
        IntKind::I16 | IntKind::U16 => n.rem_euclid(1 << 16) as u64,
        IntKind::I32 | IntKind::U32 => n.rem_euclid(1 << 32) as u64,
        IntKind::I64 | IntKind::U64 => n.rem_euclid(1 << 64) as u64,
    }
}

impl FlatObjects {
    /// Tries an access to so many bytes at an address: null, past the size, at an odd offset.
    fn reach<L: Ledger>(&self, addr: u32, n: u32, steps: &mut Steps<L>) -> Result<Found, TrapKind>
        requires kept { IsKept self.now addr }
        requires some { 0 < n }
        ensures reaches { ReachesAt self.now addr n result }
        ensures work { steps.new ≤ steps.old + 11 }
    {
        if addr == 0 {
            return Err(TrapKind::Null);
        }
        let found = self.find(addr, steps);
        if found.size - found.offset < n {
            return Err(TrapKind::Bounds);
        }
        if found.offset % n != 0 {
            return Err(TrapKind::Align);
        }
        Ok(found)
    }

    /// Says whether so many bytes at an address are bytes of an object outside of slots, at an address that their number
    /// divides: a look at their marks.
    #[inline(always)]
    fn are_plain(&self, addr: u32, n: u32) -> bool
        requires { (n ≡ 1) ⊎ ((n ≡ 2) ⊎ ((n ≡ 4) ⊎ (n ≡ 8))) }
        ensures { IsTrue result → AreBytes self.now.marks.bytes addr n × (addr % n ≡ 0) }
    {
        self.marks.are_bytes(addr, n) && addr % n == 0
    }

    /// Says whether a slot stands at an address that is a multiple of 4: a look at its first mark.
    #[inline(always)]
    fn is_pointer(&self, addr: u32) -> bool
        ensures { IsTrue result → IsSlotAt self.now.marks.bytes addr × (addr % 4 ≡ 0) }
    {
        self.marks.is_slot(addr) && addr % 4 == 0
    }

    /// Tries an access to an integer of so many bytes, by a look at its object.
    #[inline(never)]
    fn try_integer<L: Ledger>(
        &self,
        addr: u32,
        n: u32,
        steps: &mut Steps<L>,
    ) -> Result<(), TrapKind>
        requires kept { IsKept self.now addr }
        requires width { (n ≡ 1) ⊎ ((n ≡ 2) ⊎ ((n ≡ 4) ⊎ (n ≡ 8))) }
        ensures allows { AllowsAt self.now addr result (λ all p. access_integer all p n) }
        ensures inside { OnOk result (addr + n ≤ length self.now.bytes) }
        ensures work { steps.new ≤ steps.old + 11 }
    {
        let found = self.reach(addr, n, steps)?;
        let form = &self.forms.as_slice()[found.layout as usize];
        if touches_slot(form, found.size, found.offset, n) {
            return Err(TrapKind::Layout);
        }
        Ok(())
    }

    /// Tries an access to an integer of so many bytes.
    #[inline(always)]
    fn access_integer<L: Ledger>(
        &self,
        addr: u32,
        n: u32,
        steps: &mut Steps<L>,
    ) -> Result<(), TrapKind>
        requires kept { IsKept self.now addr }
        requires width { (n ≡ 1) ⊎ ((n ≡ 2) ⊎ ((n ≡ 4) ⊎ (n ≡ 8))) }
        ensures allows { AllowsAt self.now addr result (λ all p. access_integer all p n) }
        ensures inside { OnOk result (addr + n ≤ length self.now.bytes) }
        ensures work { steps.new ≤ steps.old + 11 }
    {
        let _ = &self.bytes;
        if self.are_plain(addr, n) {
            return Ok(());
        }
        self.try_integer(addr, n, steps)
    }

    /// Tries an access to a pointer, by a look at its object.
    #[inline(never)]
    fn try_pointer<L: Ledger>(&self, addr: u32, steps: &mut Steps<L>) -> Result<(), TrapKind>
        requires { IsKept self.now addr }
        ensures allows { AllowsAt self.now addr result access_pointer }
        ensures inside { OnOk result (addr + 4 ≤ length self.now.bytes) }
        ensures work { steps.new ≤ steps.old + 11 }
    {
        let found = self.reach(addr, 4, steps)?;
        let form = &self.forms.as_slice()[found.layout as usize];
        if !form.is_slot(found.size, found.offset) {
            return Err(TrapKind::Layout);
        }
        Ok(())
    }

    /// Tries an access to a pointer.
    #[inline(always)]
    fn access_pointer<L: Ledger>(&self, addr: u32, steps: &mut Steps<L>) -> Result<(), TrapKind>
        requires { IsKept self.now addr }
        ensures allows { AllowsAt self.now addr result access_pointer }
        ensures inside { OnOk result (addr + 4 ≤ length self.now.bytes) }
        ensures work { steps.new ≤ steps.old + 11 }
    {
        let _ = &self.bytes;
        if self.is_pointer(addr) {
            return Ok(());
        }
        self.try_pointer(addr, steps)
    }

    /// The integer of a kind at an address. It traps as an access does. At most twelve steps.
    #[inline(always)]
    pub fn load<L: Ledger>(
        &self,
        kind: IntKind,
        addr: u32,
        steps: &mut Steps<L>,
    ) -> Result<i128, TrapKind>
        requires { IsKept self.now addr }
        ensures loads { AnswersNumberAt self.now addr result (λ all p. loaded all kind p) }
        ensures in_range { IfOk result (IsInRange kind) }
        ensures work { steps.new ≤ steps.old + 12 }
    {
        let width = kind.bytes();
        self.access_integer(addr, width, steps)?;
        Ok(kind.wrap(i128::from(self.bytes.read(addr, width, steps))))
    }

    /// The pointer at an address. It traps as an access does. At most twelve steps.
    #[inline(always)]
    pub fn load_pointer<L: Ledger>(&self, addr: u32, steps: &mut Steps<L>) -> Result<u32, TrapKind>
        requires { IsKept self.now addr }
        ensures loads { AnswersAddressAt self.now addr result loaded_pointer }
        ensures work { steps.new ≤ steps.old + 12 }
    {
        self.access_pointer(addr, steps)?;
        Ok(self.bytes.read(addr, 4, steps) as u32)
    }

    /// Writes an integer at an address, converted to a kind. It traps as an access does, and then nothing changes. At most
    /// twelve steps.
    #[inline(always)]
    pub fn store<L: Ledger>(
        &mut self,
        kind: IntKind,
        addr: u32,
        n: i128,
        steps: &mut Steps<L>,
    ) -> Result<(), TrapKind>
        requires { IsKept self.old addr }
        ensures changes { ChangesAt self.old self.new addr result (λ all p. stored all kind p n) }
        ensures tracks { TracksAt self.old self.new addr (λ all p. stored all kind p n) }
        ensures frame { SameFrame self.old self.new }
        ensures work { steps.new ≤ steps.old + 12 }
    {
        let width = kind.bytes();
        self.access_integer(addr, width, steps)?;
        self.bytes.write(addr, width, low_bits(kind, n), steps);
        Ok(())
    }

    /// Writes a pointer, by its address, at an address: the one that stood there counts no longer, and the new one does. It
    /// traps as an access does, and then nothing changes. At most 15 steps.
    #[inline(always)]
    pub fn store_pointer<L: Ledger>(
        &mut self,
        addr: u32,
        target: u32,
        steps: &mut Steps<L>,
    ) -> Result<(), TrapKind>
        requires { IsStorable self.old addr target }
        ensures changes { ChangesWith self.old self.new addr target result stored_pointer }
        ensures tracks { TracksWith self.old self.new addr target stored_pointer }
        ensures frame { SameFrame self.old self.new }
        ensures work { steps.new ≤ steps.old + 15 }
    {
        let _ = &self.bytes;
        self.access_pointer(addr, steps)?;
        self.put_pointer(addr, target, steps);
        Ok(())
    }
}
