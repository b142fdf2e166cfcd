//! The pointer slots of objects.
//!
//! An object holds elements of one layout, side by side from its start, and bytes behind the last whole element that
//! have no slots. An [`Adjuster`] is made from the layout of an element and answers, for an object of any size, how many
//! slots it has, where each of them stands, and whether one stands at an offset. It never fails and takes no memory
//! after it was made. `specs/ObjectSlots.antt` lists the slots of an object; each answer is that of this list.
#![tactic(auto)]

ghost use Rattle.std.specs.Prelude.{◌≡◌, ◌↔◌, ◌+◌, ◌%◌, ◌<◌, ◌≤◌, length, slice_index, AllPairs, Contains, IfOk, IsTrue};
ghost use Rattle.c_types.specs.Layouts.{AreSlots};
ghost use Rattle.adjusters.specs.ObjectSlots.{element_of, object_slots};

use c_types::Layout;
use hs_base::NoMemory;
use std::alloc::Global;
use std::marker::Model;

/// The slots of one element and its size, which repeat in an object.
#[derive(Debug, Drop)]
pub struct Adjuster {
    size: u32,
    slots: Vec<u32>,
}

impl Model for Adjuster {
    ghost use Rattle.adjusters.specs.ObjectSlots.{Element, element_code};

    ghost Value = { Element };

    ghost coded = { element_code };

    ghost use Rattle.c_types.specs.Layouts.{AreSlots};

    ghost view = { λ a. record { size = a.size; slots = a.slots.items } };

    ghost invariant = { λ a. AreSlots 0 a.size a.slots.items };
}

impl Adjuster {
    /// The adjuster of objects with elements of a layout, whose slots are ascending multiples of 4 that each end inside
    /// the size.
    pub fn of(alloc: Global, element: &Layout) -> Result<Adjuster, NoMemory>
        requires { AreSlots 0 element.now.size element.now.slots }
        ensures { IfOk result (λ adjuster. adjuster ≡ element_of element.now) }
    {
        let slots = Vec::from_slice(alloc, element.slots.as_slice())?;
        Ok(Adjuster {
            size: element.size,
            slots,
        })
    }

    /// How many slots an object of a size in bytes has.
    pub fn count(&self, size: u32) -> u32
        ensures { result ≡ length (object_slots self.now size) }
    {
        if self.size == 0 {
            return 0;
        }
        size / self.size * self.slots.len() as u32
    }

    /// The offset of the slot of a number in an object of a size, counted from 0 in ascending order. A slot has 4 bytes,
    /// all of them in the object.
    pub fn slot(&self, size: u32, k: u32) -> u32
        requires { k < length (object_slots self.now size) }
        ensures slot { result ≡ slice_index (object_slots self.now size) k }
        ensures inside { result + 4 ≤ size }
    {
        let element_size = self.size;
        let in_element = self.slots.len() as u32;
        k / in_element * element_size + self.slots[(k % in_element) as usize]
    }

    /// Whether the slots of objects of every size are multiples of 4: an element has slots at multiples of 4, and where
    /// its size is one too, so are those of the elements behind it.
    pub fn is_even(&self) -> bool
        ensures { IsTrue result ↔ (0 < length self.now.slots → self.now.size % 4 ≡ 0) }
    {
        self.slots.is_empty() || self.size % 4 == 0
    }

    /// Whether a slot stands at an offset in an object of a size.
    pub fn is_slot(&self, size: u32, offset: u32) -> bool
        ensures { IsTrue result ↔ Contains (object_slots self.now size) offset }
    {
        if self.size == 0 {
            return false;
        }
        if offset / self.size >= size / self.size {
            return false;
        }
        is_in(&self.slots, offset % self.size)
    }
}

/// Whether an offset is one of ascending slots.
fn is_in(slots: &[u32], offset: u32) -> bool
    requires { AllPairs (λ x y. x < y) slots.now }
    ensures { IsTrue result ↔ Contains slots.now offset }
{
    slots.binary_search(&offset).is_ok()
}
