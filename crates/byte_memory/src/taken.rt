//! Lists whose memory is taken at once, and touched only as far as items were written.

ghost use Rattle.std.specs.Prelude.{◌≡◌, ◌<◌, ◌≤◌, length, vec_capacity, vec_len};
ghost use Rattle.byte_memory.specs.Filled.{filled_up};

/// How many items are added at once, beside those that are wanted.
const STRETCH: usize = 4096;

/// Adds an item up to a length and some way behind it, but not past the end of the room.
#[inline(never)]
fn grow<T: Copy>(list: &mut Vec<T>, len: usize, most: usize, item: T)
    requires fewer { vec_len list.old < len }
    requires room { len ≤ most }
    requires taken { most ≤ vec_capacity list.old }
    ensures same { filled_up list.new.items most item ≡ filled_up list.old.items most item }
    ensures there { len ≤ length list.new.items }
    ensures few { length list.new.items ≤ most }
    ensures taken { most ≤ vec_capacity list.new }
{
    let more = STRETCH.min(most - len);
    if list.resize(len + more, item).is_err() {
        unreachable!()
    }
}

/// Sees to it that so many items are there, of those that a list has when it is filled up with one item. Its memory is
/// taken already.
#[inline(always)]
pub fn reach<T: Copy>(list: &mut Vec<T>, len: usize, most: u32, item: T)
    requires room { len ≤ most }
    requires few { length list.old.items ≤ most }
    requires taken { most ≤ vec_capacity list.old }
    ensures same { filled_up list.new.items most item ≡ filled_up list.old.items most item }
    ensures there { len ≤ length list.new.items }
    ensures few { length list.new.items ≤ most }
    ensures taken { most ≤ vec_capacity list.new }
{
    if list.len() < len {
        grow(list, len, most as usize, item);
    }
}
