//! Copies and sets of ranges of bytes (C99 7.21.2.1, 7.21.2.2, 7.21.6.1).

ghost use Rattle.std.specs.Prelude.{◌≡◌, ◌+◌, ◌*◌, ◌<◌, ◌≤◌, IfErr, IfOk};
ghost use Rattle.hs_base.specs.Access.{set_bytes};
ghost use Rattle.object_meaning.specs.objects.Memory.{copied};
ghost use Rattle.typed_copies.specs.Copying.{IsInside};
ghost use Rattle.flat_objects.specs.Memory.{SameFrame};
ghost use Rattle.flat_objects.specs.Keeping.{IsKept};
ghost use Rattle.flat_objects.specs.Answering.{ChangesAt, ChangesWith};
ghost use Rattle.flat_objects.specs.Counting.{IsStorable, TracksAt, TracksWith};
ghost use Rattle.flat_objects.specs.Ranges.{GrowsAt, GrowsWithin, HasWithin, IsGrowable, IsRangeOf, IsSettable, TracksGrowth, TriesRangeAt};

use crate::memory::FlatObjects;
use byte_memory::Steps;
use hs_base::TrapKind;
use std::sync::ledger::Ledger;
use typed_copies::Ranged;

impl FlatObjects {
    /// The object of an address that is not null, and its offset in it.
    fn ranged<L: Ledger>(&self, addr: u32, steps: &mut Steps<L>) -> Ranged
        requires kept { IsKept self.now addr }
        requires some { 0 < addr }
        ensures range { IsRangeOf self.now addr result }
        ensures inside { IsInside self.now.forms self.now.bytes result }
        ensures work { steps.new ≤ steps.old + 11 }
    {
        let _ = &self.bytes;
        let found = self.find(addr, steps);
        Ranged {
            start: found.start,
            size: found.size,
            offset: found.offset,
            form: found.layout,
        }
    }

    /// Tries a range of n bytes from an address on: null, past the size.
    fn range_at<L: Ledger>(
        &self,
        addr: u32,
        n: u64,
        steps: &mut Steps<L>,
    ) -> Result<Ranged, TrapKind>
        requires { IsKept self.now addr }
        ensures tries { TriesRangeAt self.now addr n result }
        ensures inside { IfOk result (HasWithin self.now n) }
        ensures work { steps.new ≤ steps.old + 11 }
    {
        if addr == 0 {
            return Err(TrapKind::Null);
        }
        let range = self.ranged(addr, steps);
        if u64::from(range.size - range.offset) < n {
            return Err(TrapKind::Bounds);
        }
        Ok(range)
    }

    /// Copies n bytes from one address to another, as through a buffer (C99 7.21.2.1, 7.21.2.2, and the assignment of a
    /// struct, 6.5.16.1). The pointers that it writes over count no longer, and those that it writes do. A copy of no bytes
    /// tries nothing. At most 22 steps, and three for each byte.
    ///
    /// # Errors
    ///
    /// For the destination and then for the source `Null` where it is null and `Bounds` where the range ends past its object;
    /// then `Layout` where a range cuts a slot or the slots within them do not stand at the same distances. Then nothing
    /// changes.
    pub fn copy<L: Ledger>(
        &mut self,
        to: u32,
        from: u32,
        n: u64,
        steps: &mut Steps<L>,
    ) -> Result<(), TrapKind>
        requires { IsStorable self.old to from }
        ensures changes { ChangesWith self.old self.new to from result (λ all p q. copied all p q n) }
        ensures tracks { TracksWith self.old self.new to from (λ all p q. copied all p q n) }
        ensures frame { SameFrame self.old self.new }
        ensures work { steps.new ≤ steps.old + 22 + 3 * n }
    {
        if n == 0 {
            return Ok(());
        }
        let dst = self.range_at(to, n, steps)?;
        let src = self.range_at(from, n, steps)?;
        typed_copies::copy(
            &mut self.bytes,
            &mut self.counts,
            &self.forms,
            dst,
            src,
            n as u32,
            steps,
        )
    }

    /// Sets n bytes from an address on to one value (C99 7.21.6.1). The pointers in slots within them become null and count
    /// no longer. A set of no bytes tries nothing. At most eleven steps, and two for each byte.
    ///
    /// # Errors
    ///
    /// `Null` where the address is null, then `Bounds` where the range ends past its object, then `Layout` where it cuts a
    /// slot, or has one while the value is not 0. Then nothing changes.
    pub fn set_bytes<L: Ledger>(
        &mut self,
        addr: u32,
        byte: u8,
        n: u64,
        steps: &mut Steps<L>,
    ) -> Result<(), TrapKind>
        requires { IsSettable self.old addr }
        ensures changes { ChangesAt self.old self.new addr result (λ all p. set_bytes all p byte n) }
        ensures tracks { TracksAt self.old self.new addr (λ all p. set_bytes all p byte n) }
        ensures frame { SameFrame self.old self.new }
        ensures work { steps.new ≤ steps.old + 11 + 2 * n }
    {
        if n == 0 {
            return Ok(());
        }
        let dst = self.range_at(addr, n, steps)?;
        typed_copies::clear(
            &mut self.bytes,
            &mut self.counts,
            &self.forms,
            dst,
            byte,
            n as u32,
            steps,
        )
    }

    /// Copies the first bytes of an object to the first bytes of another, as many as both have (C99 7.20.3.4). Both are named
    /// by the addresses of their first bytes. The counts follow the pointers as at a copy. At most 22 steps, and three for
    /// each byte.
    ///
    /// # Errors
    ///
    /// `Layout` where the end of these bytes cuts a slot of one of the two, or the slots within them do not stand at the same
    /// distances. Then nothing changes.
    pub fn grow<L: Ledger>(
        &mut self,
        to: u32,
        from: u32,
        steps: &mut Steps<L>,
    ) -> Result<(), TrapKind>
        requires { IsGrowable self.old to from }
        ensures changes { GrowsAt self.old self.new to from result }
        ensures tracks { TracksGrowth self.old self.new to from }
        ensures layout { IfErr result (λ kind. kind ≡ TrapKind.Layout) }
        ensures frame { SameFrame self.old self.new }
        ensures work { GrowsWithin self.old to from steps.old steps.new }
    {
        let dst = self.ranged(to, steps);
        let src = self.ranged(from, steps);
        typed_copies::grow(
            &mut self.bytes,
            &mut self.counts,
            &self.forms,
            dst,
            src,
            steps,
        )
    }
}
