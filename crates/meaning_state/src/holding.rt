//! The holders of an object: the pointers to it that count. Here are those inside objects.

ghost use Rattle.std.specs.Prelude.{◌≡◌, ◌||◌, cond, []};
ghost use Rattle.hs_base.specs.Object.{is_dead};
ghost use Rattle.hs_base.specs.Freeing.{is_pointer_to};
ghost use Rattle.object_meaning.specs.objects.Holding.{is_among, inside, inside_one, inside_objects, first_of};
ghost use Rattle.meaning_state.specs.Kinds.{sort_of};

use crate::object::{Object, Sort};
use crate::objects::Objects;
use hs_base::{Holder, Pointer};

/// Says whether it points to an object.
pub fn is_pointer_to(birth: u64, p: Pointer) -> bool
    ensures { result ≡ is_pointer_to birth p }
{
    match p {
        Pointer::Null => false,
        Pointer::At { birth: b, .. } => b == birth,
    }
}

/// Says whether it is one of these births.
fn is_among(births: &[u64], birth: u64) -> bool
    ensures { result ≡ is_among births.now birth }
{
    births.iter().any(|b| *b == birth)
}

/// A pointer at an offset of an object.
fn inside(sort: Sort, offset: u32) -> Holder
    ensures { result ≡ inside (sort_of sort) offset }
{
    match sort {
        Sort::Static(index) => Holder::Global { index, offset },
        Sort::Local { func, index } => Holder::Memory {
            func,
            index,
            offset,
        },
        Sort::Heap(line) => Holder::Block { line, offset },
    }
}

impl Object {
    /// The first pointer inside it to an object.
    fn holder(&self, birth: u64) -> Option<Holder>
        ensures { result ≡ first_of (inside_one birth self.now) }
    {
        for k in 0..self.pointers.len() {
            if is_pointer_to(birth, self.pointers[k]) {
                return Some(inside(self.sort, self.slots[k]));
            }
        }
        None
    }

    /// The first pointer inside it that counts: there is none where it is dead or left out.
    fn counted_holder(&self, is_left: bool, birth: u64) -> Option<Holder>
        ensures { result ≡ first_of (cond (is_dead self.now.standing || is_left) [] (inside_one birth self.now)) }
    {
        if self.is_dead() || is_left {
            None
        } else {
            self.holder(birth)
        }
    }
}

impl Objects {
    /// The first pointer to an object inside those that are not dead and not left out.
    pub fn holder(&self, left: &[u64], birth: u64) -> Option<Holder>
        ensures { result ≡ first_of (inside_objects left.now birth self.now) }
    {
        for i in 0..self.list.len() {
            let object = &self.list[i];
            let holder = object.counted_holder(is_among(left, i as u64), birth);
            if holder.is_some() {
                return holder;
            }
        }
        None
    }
}
