//! The slots of objects with elements of one layout.

ghost use Rattle.std.specs.Prelude.{◌≡◌, ◌+◌, ◌%◌, ◌≤◌, ◌⊎◌};
ghost use Rattle.hs_base.specs.Access.{touches_slot};
ghost use Rattle.adjusters.specs.ObjectSlots.{object_slots};
ghost use Rattle.flat_objects.specs.Memory.{IsForm};

use adjusters::Adjuster;

/// Says whether so many bytes at an offset touch a slot of an object of a size. Each slot that they may touch is tried.
fn touches_any(form: &Adjuster, size: u32, offset: u32, n: u32) -> bool
    requires { offset + n ≤ size }
    ensures { result ≡ touches_slot (object_slots form.now size) offset n }
{
    for slot in offset.saturating_sub(3)..offset + n {
        if form.is_slot(size, slot) {
            return true;
        }
    }
    false
}

/// Says whether 1, 2, 4 or 8 bytes at an offset that their number divides touch a slot of an object of a size.
pub(crate) fn touches_slot(form: &Adjuster, size: u32, offset: u32, n: u32) -> bool
    requires form { IsForm form.now }
    requires width { (n ≡ 1) ⊎ ((n ≡ 2) ⊎ ((n ≡ 4) ⊎ (n ≡ 8))) }
    requires aligned { offset % n ≡ 0 }
    requires inside { offset + n ≤ size }
    ensures { result ≡ touches_slot (object_slots form.now size) offset n }
{
    if !form.is_even() {
        return touches_any(form, size, offset, n);
    }
    if form.is_slot(size, offset / 4 * 4) {
        return true;
    }
    n == 8 && form.is_slot(size, offset + 4)
}
