//! Ranges of bytes: copies and sets (C99 7.21.2.1, 7.21.2.2, 7.21.6.1).

ghost use Rattle.std.specs.Prelude.{◌≡◌, ◌<◌, ◌^◌, IfOk};
ghost use Rattle.std.specs.List.{list_any};
ghost use Rattle.hs_base.specs.Access.{range_at, set_bytes};
ghost use Rattle.object_meaning.specs.objects.Values.{is_stale};
ghost use Rattle.object_meaning.specs.objects.Memory.{copied};
ghost use Rattle.meaning_state.specs.Refusing.{Changes};
ghost use Rattle.meaning_state.specs.Reaching.{Reaches, IsInside, place_of, copied_between};

use crate::object::{Place, may_copy};
use crate::objects::Objects;
use crate::refusal::Refusal;
use hs_base::{Pointer, TrapKind};
use std::alloc::Global;

impl Objects {
    /// A range of bytes: null, dead, past the size.
    fn range(&self, p: Pointer, n: u128) -> Result<Place, Refusal>
        ensures place { Reaches result (range_at self.now p n) }
        ensures within { IfOk result (λ at. IsInside self.now at n) }
        ensures small { IfOk result (λ at. n < 2 ^ 32) }
    {
        let Pointer::At { birth, offset } = p else {
            return Err(Refusal::Trapped(TrapKind::Null));
        };
        let birth = birth as usize;
        if birth >= self.list.len() {
            return Err(Refusal::ReadsDead);
        }
        let object = &self.list[birth];
        if object.is_dead() {
            return Err(Refusal::ReadsDead);
        }
        if n > u128::from(object.size()) || u128::from(offset) > u128::from(object.size()) - n {
            return Err(Refusal::Trapped(TrapKind::Bounds));
        }
        Ok(Place { birth, offset })
    }

    /// Says whether one of these points to a dead object.
    fn is_any_stale(&self, pointers: &[Pointer]) -> bool
        ensures { result ≡ list_any (is_stale self.now) pointers.now }
    {
        pointers.iter().any(|p| self.is_stale(*p))
    }

    /// Copies so many bytes from one place to another, as through a buffer.
    fn copy_between(&mut self, alloc: Global, to: Place, from: Place, n: u32) -> Result<(), Refusal>
        requires to { IsInside self.old to n }
        requires from { IsInside self.old from n }
        ensures { Changes result self.new (copied_between self.old n (place_of to) (place_of from)) }
    {
        let into = &self.list[to.birth];
        let out = &self.list[from.birth];
        if !may_copy(alloc, into, to.offset, out, from.offset, n)? {
            return Err(Refusal::Trapped(TrapKind::Layout));
        }
        let bytes = out.bytes_from(alloc, from.offset, n)?;
        let pointers = out.pointers_from(alloc, from.offset, n)?;
        if self.is_any_stale(&pointers) {
            return Err(Refusal::ReadsDead);
        }
        let into = &mut self.list[to.birth];
        into.overlay(to.offset, n, &bytes, &pointers);
        Ok(())
    }

    /// Copies so many bytes. A copy of none tries nothing.
    pub fn copy(&mut self, alloc: Global, d: Pointer, s: Pointer, n: u128) -> Result<(), Refusal>
        ensures { Changes result self.new (copied self.old d s n) }
    {
        if n == 0 {
            return Ok(());
        }
        let to = self.range(d, n)?;
        let from = self.range(s, n)?;
        self.copy_between(alloc, to, from, n as u32)
    }

    /// Sets so many bytes. A set of none tries nothing.
    pub fn set(&mut self, p: Pointer, byte: u8, n: u128) -> Result<(), Refusal>
        ensures { Changes result self.new (set_bytes self.old p byte n) }
    {
        if n == 0 {
            return Ok(());
        }
        let at = self.range(p, n)?;
        let object = &mut self.list[at.birth];
        if !object.may_set(at.offset, byte, n as u32) {
            return Err(Refusal::Trapped(TrapKind::Layout));
        }
        object.fill(at.offset, byte, n as u32);
        Ok(())
    }
}
