//! Sizes and layouts of types in hand.
//!
//! A type that is too large is refused where it is made, so none is met here; where one were, there is no memory for it.

ghost use Rattle.std.specs.Prelude.{◌≡◌, ◌≢◌, ◌≤◌, ◌-◌, ◌*◌, ◌^◌, min, IfOk, IfSome, IsTrue, unwrap_or};
ghost use Rattle.c_types.specs.Types.{plain};
ghost use Rattle.c_types.specs.Layouts.{ArraysFit};
ghost use Rattle.c_types.specs.TagTable.{known, size_in, layout_in};

use c_types::{CType, Layout, MAX_SIZE, Tags, layout, size_of};
use hs_base::NoMemory;
use std::alloc::Global;

/// How often the elements of an array stand where the array stands so often. Around an array of none, all arrays fit.
fn copies(count: u64, length: u32) -> u64
    ensures none { length ≡ 0 → result ≡ 1 }
    ensures some { length ≢ 0 → result ≡ min (count * length) (2 ^ 64 - 1) }
{
    if length == 0 {
        1
    } else {
        count.saturating_mul(u64::from(length))
    }
}

/// Whether so many of a size are not too large.
fn is_within(count: u64, size: Option<u32>) -> bool
    ensures { IsTrue result → IfSome size (λ n. count * n ≤ 268435456) }
{
    match size {
        Some(size) => count.saturating_mul(u64::from(size)) <= u64::from(MAX_SIZE),
        None => true,
    }
}

/// Whether no array inside a type is too large.
pub(crate) fn fits(tags: &Tags, ty: &CType) -> bool
    ensures { IsTrue result → ArraysFit (known tags.now.completed) (plain ty.now) }
{
    let mut part = *ty;
    let mut count: u64 = 1;
    loop {
        match part {
            CType::Array(element, length) => {
                count = copies(count, length);
                part = *element;
            }
            CType::Void
            | CType::Int(_)
            | CType::Pointer(_)
            | CType::Struct(_)
            | CType::Union(_)
            | CType::Function(_) => return is_within(count, size_of(tags, &part)),
        }
    }
}

/// The size of a type in bytes, or `None` where it is incomplete, void or a function.
pub fn size_in(tags: &Tags, ty: &CType) -> Result<Option<u32>, NoMemory>
    ensures { IfOk result (λ size. size ≡ size_in tags.now (plain ty.now)) }
{
    if fits(tags, ty) {
        Ok(size_of(tags, ty))
    } else {
        Err(NoMemory)
    }
}

/// The layout of a type, or `None` where it is incomplete, void or a function.
pub fn layout_in(alloc: Global, tags: &Tags, ty: &CType) -> Result<Option<Layout>, NoMemory>
    ensures { IfOk result (λ found. found ≡ layout_in tags.now (plain ty.now)) }
{
    if !fits(tags, ty) {
        return Err(NoMemory);
    }
    match size_of(tags, ty) {
        Some(_) => Ok(Some(layout(alloc, tags, ty)?)),
        None => Ok(None),
    }
}
