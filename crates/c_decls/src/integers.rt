//! The types of integers in expressions.

ghost use Rattle.std.specs.Prelude.{◌≡◌};
ghost use Rattle.c_decls.specs.IntegerTypes.{rank, has_sign, promoted, unsigned_of, mixed, higher, common_type, holds, number_types, number_type};

use c_lexer::{Base, Number, Suffix};
use c_types::IntType;

/// The rank of a type (C99 6.3.1.1). That of `long` is above that of `int`, though both have 32 bits.
fn rank(ty: IntType) -> u32
    ensures { result ≡ rank ty }
{
    match ty {
        IntType::Char | IntType::SChar | IntType::UChar => 1,
        IntType::Short | IntType::UShort => 2,
        IntType::Int | IntType::UInt => 3,
        IntType::Long | IntType::ULong => 4,
        IntType::LongLong | IntType::ULongLong => 5,
    }
}

/// Whether a type has negative numbers.
fn has_sign(ty: IntType) -> bool
    ensures { result ≡ has_sign ty }
{
    ty.kind().is_signed()
}

/// The type to which the integer promotions convert (C99 6.3.1.1): `int` for a type of a lower rank, and else itself.
pub fn promoted(ty: IntType) -> IntType
    ensures { result ≡ promoted ty }
{
    if rank(ty) < rank(IntType::Int) {
        IntType::Int
    } else {
        ty
    }
}

/// The unsigned type that corresponds to a type (C99 6.2.5).
fn unsigned_of(ty: IntType) -> IntType
    ensures { result ≡ unsigned_of ty }
{
    match ty {
        IntType::Char | IntType::SChar | IntType::UChar => IntType::UChar,
        IntType::Short | IntType::UShort => IntType::UShort,
        IntType::Int | IntType::UInt => IntType::UInt,
        IntType::Long | IntType::ULong => IntType::ULong,
        IntType::LongLong | IntType::ULongLong => IntType::ULongLong,
    }
}

/// Of two types that both have a sign, or both have none, the one of the greater rank.
fn higher(a: IntType, b: IntType) -> IntType
    ensures { result ≡ higher a b }
{
    if rank(a) < rank(b) { b } else { a }
}

/// The common type of a type with a sign and one without.
fn mixed(signed: IntType, unsigned: IntType) -> IntType
    ensures { result ≡ mixed signed unsigned }
{
    if rank(signed) <= rank(unsigned) {
        unsigned
    } else if unsigned.width() < signed.width() {
        signed
    } else {
        unsigned_of(signed)
    }
}

/// The type to which the usual arithmetic conversions convert two operands (C99 6.3.1.8).
pub fn common_type(a: IntType, b: IntType) -> IntType
    ensures { result ≡ common_type a b }
{
    let (a, b) = (promoted(a), promoted(b));
    match (has_sign(a), has_sign(b)) {
        (true, false) => mixed(a, b),
        (false, true) => mixed(b, a),
        _ => higher(a, b),
    }
}

/// The types that a number may have, in the order in which they are tried (C99 6.4.4.1).
fn number_types(base: Base, suffix: Suffix) -> &'static [IntType]
    ensures { result.now ≡ number_types base suffix }
{
    match (base, suffix) {
        (Base::Decimal, Suffix::Plain) => &[IntType::Int, IntType::Long, IntType::LongLong],
        (Base::Decimal, Suffix::L) => &[IntType::Long, IntType::LongLong],
        (Base::Decimal, Suffix::Ll) => &[IntType::LongLong],
        (_, Suffix::Plain) => &[
            IntType::Int,
            IntType::UInt,
            IntType::Long,
            IntType::ULong,
            IntType::LongLong,
            IntType::ULongLong,
        ],
        (_, Suffix::L) => &[
            IntType::Long,
            IntType::ULong,
            IntType::LongLong,
            IntType::ULongLong,
        ],
        (_, Suffix::Ll) => &[IntType::LongLong, IntType::ULongLong],
        (_, Suffix::U) => &[IntType::UInt, IntType::ULong, IntType::ULongLong],
        (_, Suffix::Ul) => &[IntType::ULong, IntType::ULongLong],
        (_, Suffix::Ull) => &[IntType::ULongLong],
    }
}

/// Whether a type holds a number.
fn holds(ty: IntType, value: u64) -> bool
    ensures { result ≡ holds ty value }
{
    value as i128 <= ty.kind().greatest()
}

/// The type of a number: the first of its list that holds its value (C99 6.4.4.1), or `None` where none does.
pub fn number_type(number: Number) -> Option<IntType>
    ensures { result ≡ number_type number.base number.suffix number.value }
{
    let types = number_types(number.base, number.suffix);
    types.iter().copied().find(|ty| holds(*ty, number.value))
}
