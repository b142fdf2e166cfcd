//! What a static holds before the run (C99 6.7.8).

ghost use Rattle.std.specs.Prelude.{◌≡◌, ◌++◌, ◌*◌, IfOk, replicate};
ghost use Rattle.hs_base.specs.Numbers.{low_bits};
ghost use Rattle.c_types.specs.Types.{plain, width_of};
ghost use Rattle.elab_base.specs.PlainFound.{plain_fixed, plain_found};
ghost use Rattle.elaboration.specs.Initializers as rules;
ghost use Rattle.c_decls.specs.Refusals.{Meets};
ghost use Rattle.elab_statements.specs.Initializing.{static_pointer, static_value, Starts};

use c_decls::{Folded, TypeError, TypeKind, refused};
use c_types::{CType, IntType};
use core_tree::Start;
use elab_base::{Fixed, Found};
use hs_base::{IntKind, Items, Line, NoMemory};

/// Adds so many zeros.
fn put_zeros(bytes: &mut Items<u8>, count: usize) -> Result<(), NoMemory>
    ensures { IfOk result (λ _. bytes.new ≡ bytes.old ++ replicate count 0) }
{
    for made in 0..count {
        let _ = made;
        bytes.push(0)?;
    }
    Ok(())
}

/// Adds a number in so many little-endian bytes.
#[tactic(auto, using(crate::proofs::Digits::digit_next))]
fn put_number(bytes: &mut Items<u8>, width: u32, number: u128) -> Result<(), NoMemory>
    ensures { IfOk result (λ _. bytes.new ≡ bytes.old ++ rules.bytes_of width number) }
{
    let mut left = number;
    for made in 0..width {
        let _ = made;
        bytes.push((left % 256) as u8)?;
        left /= 256;
    }
    Ok(())
}

/// Adds bytes.
fn put_bytes(bytes: &mut Items<u8>, more: &[u8]) -> Result<(), NoMemory>
    ensures { IfOk result (λ _. bytes.new ≡ bytes.old ++ more.now) }
{
    for byte in more {
        bytes.push(*byte)?;
    }
    Ok(())
}

/// Adds bytes at an offset, behind those so far.
pub(crate) fn with_bytes(start: &mut Start, offset: u32, bytes: &[u8]) -> Result<(), NoMemory>
    ensures { IfOk result (λ _. start.new ≡ rules.with_bytes start.old offset bytes.now) }
{
    let count = (offset as usize).saturating_sub(start.bytes.len());
    put_zeros(&mut start.bytes, count)?;
    put_bytes(&mut start.bytes, bytes)
}

/// The low bits of a number, as many as a type has.
fn low_bits(ty: IntType, n: i128) -> u128
    ensures { result ≡ low_bits (8 * width_of ty) n }
{
    match ty {
        IntType::Char | IntType::SChar | IntType::UChar => IntKind::U8.wrap(n).unsigned_abs(),
        IntType::Short | IntType::UShort => IntKind::U16.wrap(n).unsigned_abs(),
        IntType::Int | IntType::UInt | IntType::Long | IntType::ULong => {
            IntKind::U32.wrap(n).unsigned_abs()
        }
        IntType::LongLong | IntType::ULongLong => IntKind::U64.wrap(n).unsigned_abs(),
    }
}

/// An integer that a static holds first.
fn static_integer(
    line: Line,
    ty: IntType,
    offset: u32,
    start: &mut Start,
    folded: Folded,
) -> Result<(), TypeError>
    ensures { Starts start.new result (rules.static_integer line ty offset start.old folded) }
{
    match folded {
        Folded::Is(n) => {
            let count = (offset as usize).saturating_sub(start.bytes.len());
            put_zeros(&mut start.bytes, count)?;
            put_number(&mut start.bytes, ty.width(), low_bits(ty, n))?;
            Ok(())
        }
        Folded::Varies | Folded::Traps => refused(TypeKind::NotConstant, line),
    }
}

/// An address that a static holds first.
fn static_address(line: Line, offset: u32, start: &mut Start, fixed: Fixed) -> Result<(), TypeError>
    ensures { Starts start.new result (static_pointer line offset start.old fixed) }
{
    match fixed {
        Fixed::Unknown => refused(TypeKind::NotConstant, line),
        Fixed::Nowhere => Ok(()),
        Fixed::Inside(object, at) => {
            let at = u32::try_from(at.unsigned_abs()).map_err(|_| NoMemory)?;
            start.pointers.push((offset, object, at))?;
            Ok(())
        }
    }
}

/// A scalar that a static holds first: an integer constant, null, or an address that is known before the run (C99 6.6).
pub(crate) fn static_scalar(
    line: Line,
    ty: &CType,
    offset: u32,
    start: &mut Start,
    found: &Found,
) -> Result<(), TypeError>
    ensures { Starts start.new result (static_value line ty.now offset start.old found.now) }
{
    match ty {
        CType::Int(ty) => static_integer(line, *ty, offset, start, found.typed.folded),
        CType::Void
        | CType::Pointer(_)
        | CType::Array(_, _)
        | CType::Struct(_)
        | CType::Union(_)
        | CType::Function(_) => {
            if found.typed.is_null_constant() {
                Ok(())
            } else {
                static_address(line, offset, start, found.fixed)
            }
        }
    }
}
