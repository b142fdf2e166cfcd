//! Sizes and alignments of types.

ghost use Rattle.std.specs.Prelude.{◌≡◌, ◌≤◌, IfSome};
ghost use Rattle.c_types.specs.Types.{plain};
ghost use Rattle.c_types.specs.Layouts.{IsAlignment, ArraysFit};
ghost use Rattle.c_types.specs.TagTable.{known, size_in, align_in};

use crate::tags::Tags;
use crate::types::CType;

/// The size of a type in bytes, or `None` where it is incomplete, void or a function.
pub fn size_of(tags: &Tags, ty: &CType) -> Option<u32>
    requires { ArraysFit (known tags.now.completed) (plain ty.now) }
    ensures value { result ≡ size_in tags.now (plain ty.now) }
    ensures limit { IfSome result (λ size. size ≤ 268435456) }
{
    let mut part = *ty;
    // How often the part stands in the type. A part that stands more often than that has no bytes.
    let mut count: u32 = 1;
    loop {
        match part {
            CType::Void | CType::Function(_) => return None,
            CType::Int(int) => return Some(count * int.width()),
            CType::Pointer(_) => return Some(count * 4),
            CType::Array(element, length) => {
                count = count.saturating_mul(length);
                part = *element;
            }
            CType::Struct(tag) | CType::Union(tag) => {
                return match tags.body(tag) {
                    Some((_, body)) => Some(count * body.size),
                    None => None,
                };
            }
        }
    }
}

/// The alignment of a type in bytes, or `None` where it is incomplete, void or a function.
pub fn align_of(tags: &Tags, ty: &CType) -> Option<u32>
    ensures value { result ≡ align_in tags.now (plain ty.now) }
    ensures aligned { IfSome result IsAlignment }
{
    let mut part = *ty;
    loop {
        match part {
            CType::Void | CType::Function(_) => return None,
            CType::Int(int) => return Some(int.width()),
            CType::Pointer(_) => return Some(4),
            CType::Array(element, _) => part = *element,
            CType::Struct(tag) | CType::Union(tag) => {
                return match tags.body(tag) {
                    Some((_, body)) => Some(body.align),
                    None => None,
                };
            }
        }
    }
}
