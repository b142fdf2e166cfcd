//! All objects that were ever made, by birth, and accesses to them (C99 6.5.3.2).

ghost use Rattle.std.specs.Prelude.{◌≡◌, ◌+◌, ◌<◌, ◌≤◌, IfOk, length};
ghost use Rattle.hs_base.specs.Object.{object_at};
ghost use Rattle.hs_base.specs.Access.{access_integer, access_pointer};
ghost use Rattle.object_meaning.specs.objects.Values.{is_stale};
ghost use Rattle.object_meaning.specs.objects.Memory.{loaded, loaded_pointer, stored, stored_pointer};
ghost use Rattle.meaning_state.specs.Refusing.{Answers, Changes};
ghost use Rattle.meaning_state.specs.Reaching.{Reaches, IsInside};

use crate::object::{Object, Place};
use crate::refusal::Refusal;
use hs_base::{IntKind, Pointer, TrapKind, Value};
use std::marker::Model;

/// All objects that were ever made. An object's birth is its place in the list; dead ones stay there.
#[derive(Drop)]
pub struct Objects {
    pub(crate) list: Vec<Object>,
}

impl Model for Objects {
    ghost use Rattle.std.specs.Prelude.{List};
    ghost use Rattle.hs_base.specs.Object as spec;

    ghost Value = { List spec.Object };

    ghost view = { λ o. o.list.items };
}

impl Objects {
    /// How many there are, which is the next birth.
    pub fn len(&self) -> usize
        ensures { result ≡ length self.now }
    {
        self.list.len()
    }

    /// The size of an object in bytes, and 0 where there is none.
    pub fn size(&self, birth: u64) -> u32
        ensures { result ≡ (object_at self.now birth).size }
    {
        let birth = birth as usize;
        if birth < self.list.len() {
            self.list[birth].size()
        } else {
            0
        }
    }

    /// Says whether it points to a dead object.
    pub fn is_stale(&self, p: Pointer) -> bool
        ensures { result ≡ is_stale self.now p }
    {
        match p {
            Pointer::Null => false,
            Pointer::At { birth, .. } => {
                let birth = birth as usize;
                birth >= self.list.len() || self.list[birth].is_dead()
            }
        }
    }

    /// An access to an integer of so many bytes.
    fn access_integer(&self, p: Pointer, n: u32) -> Result<Place, Refusal>
        requires { 0 < n }
        ensures place { Reaches result (access_integer self.now p n) }
        ensures within { IfOk result (λ at. IsInside self.now at n) }
    {
        let Pointer::At { birth, offset } = p else {
            return Err(Refusal::Trapped(TrapKind::Null));
        };
        let birth = birth as usize;
        if birth >= self.list.len() {
            return Err(Refusal::ReadsDead);
        }
        let object = &self.list[birth];
        object.reach(birth, offset, n, object.touches_slot(offset, n))
    }

    /// An access to a pointer.
    fn access_pointer(&self, p: Pointer) -> Result<Place, Refusal>
        ensures place { Reaches result (access_pointer self.now p) }
        ensures within { IfOk result (λ at. IsInside self.now at 4) }
    {
        let Pointer::At { birth, offset } = p else {
            return Err(Refusal::Trapped(TrapKind::Null));
        };
        let birth = birth as usize;
        if birth >= self.list.len() {
            return Err(Refusal::ReadsDead);
        }
        let object = &self.list[birth];
        object.reach(birth, offset, 4, !object.is_slot(offset))
    }

    /// The integer of a kind at a pointer.
    pub fn load(&self, kind: IntKind, p: Pointer) -> Result<Value, Refusal>
        ensures { Answers result (loaded self.now kind p) }
    {
        let at = self.access_integer(p, kind.bytes())?;
        let object = &self.list[at.birth];
        Ok(Value::Number(object.integer(kind, at.offset)))
    }

    /// The pointer at a pointer.
    pub fn load_pointer(&self, p: Pointer) -> Result<Value, Refusal>
        ensures { Answers result (loaded_pointer self.now p) }
    {
        let at = self.access_pointer(p)?;
        let object = &self.list[at.birth];
        let target = object.pointer(at.offset);
        if self.is_stale(target) {
            return Err(Refusal::ReadsDead);
        }
        Ok(Value::Pointer(target))
    }

    /// Writes an integer of a kind at a pointer.
    pub fn store(&mut self, kind: IntKind, p: Pointer, n: i128) -> Result<(), Refusal>
        ensures { Changes result self.new (stored self.old kind p n) }
    {
        let at = self.access_integer(p, kind.bytes())?;
        let object = &mut self.list[at.birth];
        object.set_integer(kind, at.offset, n);
        Ok(())
    }

    /// Writes a pointer at a pointer.
    pub fn store_pointer(&mut self, p: Pointer, q: Pointer) -> Result<(), Refusal>
        ensures { Changes result self.new (stored_pointer self.old p q) }
    {
        let at = self.access_pointer(p)?;
        let object = &mut self.list[at.birth];
        object.set_pointer(at.offset, q);
        Ok(())
    }
}
