//! The lines of completed structs and unions.

ghost use Rattle.std.specs.Prelude.{◌≡◌, ◌++◌, ◌∷◌, [], codes, decimal, IfOk};
ghost use Rattle.c_types.specs.Types.{plain};
ghost use Rattle.layout_list.specs.Listing.{head, kind_word, known_line, layout_line, layout_listing, measures, offsets, slots_part, tag_line, tag_type, tag_word};

use c_types::{CType, Layout, TagId, TagInfo, Tags, layout, size_of};
use hs_base::{Items, NoMemory};
use itoa::Buffer;
use std::alloc::Global;

/// Writes bytes as they are.
fn put(text: &mut Vec<u8>, bytes: &[u8]) -> Result<(), NoMemory>
    ensures { IfOk result (λ _. text.new.items ≡ text.old.items ++ bytes.now) }
{
    text.extend_from_slice(bytes)?;
    Ok(())
}

/// Writes a label and a number behind it.
fn put_number(text: &mut Vec<u8>, label: &[u8], number: u32) -> Result<(), NoMemory>
    ensures { IfOk result (λ _. text.new.items ≡ text.old.items ++ (label.now ++ decimal number)) }
{
    let mut digits = Buffer::new();
    put(text, label)?;
    put(text, digits.format(number).as_bytes())
}

/// Writes `struct` or `union`.
fn put_kind(text: &mut Vec<u8>, is_union: bool) -> Result<(), NoMemory>
    ensures { IfOk result (λ _. text.new.items ≡ text.old.items ++ kind_word is_union) }
{
    if is_union {
        put(text, b"union")
    } else {
        put(text, b"struct")
    }
}

/// Writes a tag's name.
fn put_tag(text: &mut Vec<u8>, name: &[u8]) -> Result<(), NoMemory>
    ensures { IfOk result (λ _. text.new.items ≡ text.old.items ++ tag_word name.now) }
{
    if name.is_empty() {
        put(text, b"-")
    } else {
        put(text, name)
    }
}

/// Writes each of these offsets behind a space.
fn put_offsets(text: &mut Vec<u8>, slots: &[u32]) -> Result<(), NoMemory>
    ensures { IfOk result (λ _. text.new.items ≡ text.old.items ++ offsets slots.now) }
{
    for slot in slots {
        put_number(text, b" ", *slot)?;
    }
    Ok(())
}

/// Writes what a type is and what it is called.
fn put_head(text: &mut Vec<u8>, info: &TagInfo) -> Result<(), NoMemory>
    ensures { IfOk result (λ _. text.new.items ≡ text.old.items ++ head info.now) }
{
    put_kind(text, info.is_union)?;
    put(text, b" ")?;
    put_tag(text, info.name.as_slice())
}

/// Writes size and alignment in bytes.
fn put_measures(text: &mut Vec<u8>, layout: &Layout) -> Result<(), NoMemory>
    ensures { IfOk result (λ _. text.new.items ≡ text.old.items ++ measures layout.now) }
{
    put_number(text, b" size ", layout.size)?;
    put_number(text, b" align ", layout.align)
}

/// Writes the offsets of pointers, and ends the line.
fn put_slots(text: &mut Vec<u8>, slots: &[u32]) -> Result<(), NoMemory>
    ensures { IfOk result (λ _. text.new.items ≡ text.old.items ++ slots_part slots.now) }
{
    put(text, b" slots")?;
    put_offsets(text, slots)?;
    put(text, b"\n")
}

/// Writes the line of a struct or union.
fn put_line(text: &mut Vec<u8>, info: &TagInfo, layout: &Layout) -> Result<(), NoMemory>
    ensures { IfOk result (λ _. text.new.items ≡ text.old.items ++ layout_line info.now layout.now) }
{
    put_head(text, info)?;
    put_measures(text, layout)?;
    put_slots(text, layout.slots.as_slice())
}

/// The type of a tag.
fn type_of(info: &TagInfo, tag: TagId) -> CType
    ensures { plain result ≡ tag_type info.now tag }
{
    if info.is_union {
        CType::Union(tag)
    } else {
        CType::Struct(tag)
    }
}

/// Writes the line of a tag, where it has a layout.
fn put_known(
    alloc: Global,
    text: &mut Vec<u8>,
    tags: &Tags,
    tag: TagId,
    info: &TagInfo,
) -> Result<(), NoMemory>
    ensures { IfOk result (λ _. text.new.items ≡ text.old.items ++ known_line tags.now tag info.now) }
{
    let ty = type_of(info, tag);
    match size_of(tags, &ty) {
        Some(_) => {
            let layout = layout(alloc, tags, &ty)?;
            put_line(text, info, &layout)
        }
        None => Ok(()),
    }
}

/// Writes the line of a tag.
fn put_tag_line(alloc: Global, text: &mut Vec<u8>, tags: &Tags, tag: TagId) -> Result<(), NoMemory>
    ensures { IfOk result (λ _. text.new.items ≡ text.old.items ++ tag_line tags.now tag) }
{
    match tags.info(tag) {
        Some(info) => put_known(alloc, text, tags, tag, info),
        None => Ok(()),
    }
}

/// The lines of all completed structs and unions, in the order of completion.
///
/// # Errors
///
/// [`NoMemory`] only for want of memory.
pub fn list_layouts(alloc: Global, tags: &Tags) -> Result<Items<u8>, NoMemory>
    ensures { IfOk result (λ text. text ≡ layout_listing tags.now) }
{
    let mut text = Vec::new(alloc);
    let completed = tags.completed();
    for tag in completed {
        put_tag_line(alloc, &mut text, tags, *tag)?;
    }
    Ok(Items::from(text))
}
