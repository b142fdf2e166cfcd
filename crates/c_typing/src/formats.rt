//! Formats of `printf` and the arguments for them (C99 7.19.6.1, narrowed).

ghost use Rattle.std.specs.Prelude.{◌≡◌, ◌≤◌, ◌<◌, ◌&&◌, true, length, map, drop, take_while, nat_le, cond};
ghost use Rattle.std.specs.List.{list_all, prefix_len};
ghost use Rattle.std.specs.Char.{is_ascii_digit};
ghost use Rattle.std.specs.Str.Parse.{digits_value};
ghost use Rattle.hs_base.specs.Numbers.{width};
ghost use Rattle.c_types.specs.Types.{plain};
ghost use Rattle.c_print.specs.Length.{length_bytes, kind_of, signed_kind, unsigned_kind, byte_kind};
ghost use Rattle.c_print.specs.Item.{is_flag};
ghost use Rattle.c_print.specs.Pieces.{length_at, pieces_of};
ghost use Rattle.c_decls.specs.Typed.{plain_typed};
ghost use Rattle.c_decls.specs.Callees.{suits_type, is_format, is_item, suit};
ghost use Rattle.c_typing.specs.Format.{plain_front, conversion_front, item_front, front_of, is_character, is_text, Bad};

use c_decls::{Typed, promoted};
use c_types::{CType, IntType};
use hs_base::IntKind;

/// The greatest width of an item.
const WIDEST: u32 = 4095;

/// How many bytes the length at the front has; two letters win over one.
fn length_len(bytes: &[u8]) -> usize
    ensures len { result ≡ length (length_bytes (length_at bytes.now)) }
    ensures within { result ≤ length bytes.now }
{
    match bytes {
        [b'h', b'h', ..] | [b'l', b'l', ..] => 2,
        [b'h' | b'l' | b'z', ..] => 1,
        _ => 0,
    }
}

/// The kind of the number of `d` and `i` behind the length at the front.
fn signed_kind(bytes: &[u8]) -> Option<IntKind>
    ensures { result ≡ signed_kind (length_at bytes.now) }
{
    match bytes {
        [b'h', b'h', ..] => Some(IntKind::I8),
        [b'h', ..] => Some(IntKind::I16),
        [b'l', b'l', ..] => Some(IntKind::I64),
        [b'z', ..] => None,
        _ => Some(IntKind::I32),
    }
}

/// The kind of the number of `o`, `u`, `x` and `X` behind the length at the front.
fn unsigned_kind(bytes: &[u8]) -> Option<IntKind>
    ensures { result ≡ unsigned_kind (length_at bytes.now) }
{
    match bytes {
        [b'h', b'h', ..] => Some(IntKind::U8),
        [b'h', ..] => Some(IntKind::U16),
        [b'l', b'l', ..] => Some(IntKind::U64),
        _ => Some(IntKind::U32),
    }
}

/// The kind of the byte of `c`, which `s` has too, behind the length at the front: there is none.
fn byte_kind(bytes: &[u8]) -> Option<IntKind>
    ensures { result ≡ byte_kind (length_at bytes.now) }
{
    match bytes {
        [b'h' | b'l' | b'z', ..] => None,
        _ => Some(IntKind::U8),
    }
}

/// The kind of the number of a conversion behind the length at the front, where they go together.
fn kind_of(bytes: &[u8], conversion: u8) -> Option<IntKind>
    ensures { result ≡ kind_of (length_at bytes.now) conversion }
{
    match conversion {
        b'd' | b'i' => signed_kind(bytes),
        b'o' | b'u' | b'x' | b'X' => unsigned_kind(bytes),
        b'c' | b's' => byte_kind(bytes),
        _ => None,
    }
}

/// How many flags stand at the front.
fn flags_len(bytes: &[u8]) -> usize
    ensures { result ≡ prefix_len is_flag bytes.now }
{
    bytes
        .iter()
        .take_while(|byte| matches!(**byte, b'-' | b'0'))
        .count()
}

/// How many digits stand at the front.
fn digits_len(bytes: &[u8]) -> usize
    ensures { result ≡ prefix_len is_ascii_digit bytes.now }
{
    bytes
        .iter()
        .take_while(|byte| byte.is_ascii_digit())
        .count()
}

/// The flags at the front, and the bytes behind them.
fn split_flags(bytes: &[u8]) -> (&[u8], &[u8])
    ensures flags { result.0.now ≡ take_while is_flag bytes.now }
    ensures rest { result.1.now ≡ drop (length (take_while is_flag bytes.now)) bytes.now }
{
    bytes.split_at(flags_len(bytes))
}

/// The digits at the front, and the bytes behind them.
fn split_digits(bytes: &[u8]) -> (&[u8], &[u8])
    ensures digits { result.0.now ≡ take_while is_ascii_digit bytes.now }
    ensures rest { result.1.now ≡ drop (length (take_while is_ascii_digit bytes.now)) bytes.now }
{
    bytes.split_at(digits_len(bytes))
}

/// Whether digits are a width that is not too great (C99 7.19.6.1 paragraph 4). No digits are no width.
fn is_width(digits: &[u8]) -> bool
    requires { list_all is_ascii_digit digits.now ≡ true }
    ensures { result ≡ nat_le (digits_value 10 digits.now) 4095 }
{
    let mut width: u32 = 0;
    for digit in digits {
        width = width * 10 + u32::from(*digit - b'0');
        if width > WIDEST {
            return false;
        }
    }
    true
}

/// What an item wants of its argument: its conversion, and how many bytes the kind of its number has.
#[derive(Clone, Copy)]
struct Item {
    conversion: u8,
    width: u32,
}

/// What stands at the front of a format, with the bytes behind it.
#[derive(Clone, Copy)]
enum Front<'a> {
    End,
    Bad,
    Plain(&'a [u8]),
    Item(Item, &'a [u8]),
}

/// A conversion with its length at the front, behind the flags and the width of its item.
fn conversion_front(bytes: &[u8], is_filled: bool) -> Front<'_>
    ensures { plain_front result ≡ conversion_front bytes.now is_filled }
{
    let [conversion, rest @ ..] = &bytes[length_len(bytes)..] else {
        return Front::Bad;
    };
    let conversion = *conversion;
    match kind_of(bytes, conversion) {
        Some(kind) if !(is_filled && matches!(conversion, b'c' | b's')) => {
            let width = kind.bytes();
            Front::Item(Item { conversion, width }, rest)
        }
        _ => Front::Bad,
    }
}

/// An item at the front, behind its percent sign.
fn item_front(bytes: &[u8]) -> Front<'_>
    ensures { plain_front result ≡ cond (is_item bytes.now) (item_front bytes.now) Bad }
{
    let (flags, rest) = split_flags(bytes);
    let (digits, rest) = split_digits(rest);
    if is_width(digits) {
        conversion_front(rest, flags.contains(&b'0'))
    } else {
        Front::Bad
    }
}

/// What stands at the front of a format.
fn front_of(bytes: &[u8]) -> Front<'_>
    ensures { plain_front result ≡ front_of bytes.now }
{
    let [first, rest @ ..] = bytes else {
        return Front::End;
    };
    if *first == 0 {
        Front::Bad
    } else if *first != b'%' {
        Front::Plain(rest)
    } else if !rest.is_empty() && rest[0] == b'%' {
        Front::Plain(&rest[1..])
    } else {
        item_front(rest)
    }
}

/// Whether an integer type is one of the character types (C99 6.2.5).
fn is_character(int: IntType) -> bool
    ensures { result ≡ is_character int }
{
    matches!(int, IntType::Char | IntType::SChar | IntType::UChar)
}

/// Whether a type is a character type.
fn is_text(ty: &CType) -> bool
    ensures { result ≡ is_text (plain ty.now) }
{
    match ty {
        CType::Int(int) => is_character(*int),
        CType::Void
        | CType::Pointer(_)
        | CType::Array(_, _)
        | CType::Struct(_)
        | CType::Union(_)
        | CType::Function(_) => false,
    }
}

/// Whether an argument suits an item: a pointer to a character type for `s`, and else an integer whose promoted type is as
/// wide as the promoted kind.
fn suits_item(item: Item, ty: &CType) -> bool
    ensures { result ≡ suits_type item.conversion item.width (plain ty.now) }
{
    match ty {
        CType::Int(int) => {
            let bytes = if item.width == 8 { 8 } else { 4 };
            item.conversion != b's' && promoted(*int).kind().bytes() == bytes
        }
        CType::Pointer(target) => item.conversion == b's' && is_text(target),
        CType::Void
        | CType::Array(_, _)
        | CType::Struct(_)
        | CType::Union(_)
        | CType::Function(_) => false,
    }
}

/// Whether bytes are a format, and the arguments behind the first, which is the format, suit its items one by one.
pub(crate) fn suits_format(bytes: &[u8], arguments: &[Typed]) -> bool
    requires { 0 < length arguments.now }
    ensures { result ≡ (is_format bytes.now && suit (pieces_of bytes.now) (map plain_typed (drop 1 arguments.now))) }
{
    let mut rest = bytes;
    let mut used = 1;
    let mut fuel = bytes.len();
    while fuel > 0 {
        fuel -= 1;
        match front_of(rest) {
            Front::End => return used == arguments.len(),
            Front::Bad => return false,
            Front::Plain(behind) => rest = behind,
            Front::Item(item, behind) => {
                if used >= arguments.len() {
                    return false;
                }
                if !suits_item(item, &arguments[used].ty) {
                    return false;
                }
                used += 1;
                rest = behind;
            }
        }
    }
    rest.is_empty() && used == arguments.len()
}
