//! The names that stand in every text.

ghost use Rattle.std.specs.Prelude.{◌≡◌, slice_get};
ghost use Rattle.c_decls.specs.BuiltIns.{built_ins, name_of, constant_of};

use crate::constant::Constant;
use c_types::IntType;

/// A name that is declared in every text, whether or not an include line stands there (C99 7).
#[derive(Clone, Copy, Debug, PartialEq, Eq)]
pub enum BuiltIn {
    SizeT,
    Null,
    Eof,
    ExitSuccess,
    ExitFailure,
    CharBit,
    ScharMin,
    ScharMax,
    UcharMax,
    CharMin,
    CharMax,
    ShrtMin,
    ShrtMax,
    UshrtMax,
    IntMin,
    IntMax,
    UintMax,
    LongMin,
    LongMax,
    UlongMax,
    LlongMin,
    LlongMax,
    UllongMax,
    Malloc,
    Calloc,
    Realloc,
    Free,
    Exit,
    Abort,
    Memcpy,
    Memmove,
    Memset,
    Strlen,
    Strcmp,
    Getchar,
    Putchar,
    Puts,
    Printf,
}

/// The item at a place, where there is one.
fn item_at(list: &[BuiltIn], index: u32) -> Option<BuiltIn>
    ensures { result ≡ slice_get list.now index }
{
    match list.get(index as usize) {
        Some(built_in) => Some(*built_in),
        None => None,
    }
}

impl BuiltIn {
    /// All built-in names in the order in which they are numbered: the type, the constants, the functions.
    pub const ALL: [BuiltIn; 38] = [
        BuiltIn::SizeT,
        BuiltIn::Null,
        BuiltIn::Eof,
        BuiltIn::ExitSuccess,
        BuiltIn::ExitFailure,
        BuiltIn::CharBit,
        BuiltIn::ScharMin,
        BuiltIn::ScharMax,
        BuiltIn::UcharMax,
        BuiltIn::CharMin,
        BuiltIn::CharMax,
        BuiltIn::ShrtMin,
        BuiltIn::ShrtMax,
        BuiltIn::UshrtMax,
        BuiltIn::IntMin,
        BuiltIn::IntMax,
        BuiltIn::UintMax,
        BuiltIn::LongMin,
        BuiltIn::LongMax,
        BuiltIn::UlongMax,
        BuiltIn::LlongMin,
        BuiltIn::LlongMax,
        BuiltIn::UllongMax,
        BuiltIn::Malloc,
        BuiltIn::Calloc,
        BuiltIn::Realloc,
        BuiltIn::Free,
        BuiltIn::Exit,
        BuiltIn::Abort,
        BuiltIn::Memcpy,
        BuiltIn::Memmove,
        BuiltIn::Memset,
        BuiltIn::Strlen,
        BuiltIn::Strcmp,
        BuiltIn::Getchar,
        BuiltIn::Putchar,
        BuiltIn::Puts,
        BuiltIn::Printf,
    ];

    /// The built-in name with this number.
    pub fn numbered(index: u32) -> Option<BuiltIn>
        ensures { result ≡ slice_get built_ins index }
    {
        item_at(&BuiltIn::ALL, index)
    }

    /// How the name is spelled.
    pub fn name(self) -> &'static [u8]
        ensures { result.now ≡ name_of self }
    {
        match self {
            BuiltIn::SizeT => b"size_t",
            BuiltIn::Null => b"NULL",
            BuiltIn::Eof => b"EOF",
            BuiltIn::ExitSuccess => b"EXIT_SUCCESS",
            BuiltIn::ExitFailure => b"EXIT_FAILURE",
            BuiltIn::CharBit => b"CHAR_BIT",
            BuiltIn::ScharMin => b"SCHAR_MIN",
            BuiltIn::ScharMax => b"SCHAR_MAX",
            BuiltIn::UcharMax => b"UCHAR_MAX",
            BuiltIn::CharMin => b"CHAR_MIN",
            BuiltIn::CharMax => b"CHAR_MAX",
            BuiltIn::ShrtMin => b"SHRT_MIN",
            BuiltIn::ShrtMax => b"SHRT_MAX",
            BuiltIn::UshrtMax => b"USHRT_MAX",
            BuiltIn::IntMin => b"INT_MIN",
            BuiltIn::IntMax => b"INT_MAX",
            BuiltIn::UintMax => b"UINT_MAX",
            BuiltIn::LongMin => b"LONG_MIN",
            BuiltIn::LongMax => b"LONG_MAX",
            BuiltIn::UlongMax => b"ULONG_MAX",
            BuiltIn::LlongMin => b"LLONG_MIN",
            BuiltIn::LlongMax => b"LLONG_MAX",
            BuiltIn::UllongMax => b"ULLONG_MAX",
            BuiltIn::Malloc => b"malloc",
            BuiltIn::Calloc => b"calloc",
            BuiltIn::Realloc => b"realloc",
            BuiltIn::Free => b"free",
            BuiltIn::Exit => b"exit",
            BuiltIn::Abort => b"abort",
            BuiltIn::Memcpy => b"memcpy",
            BuiltIn::Memmove => b"memmove",
            BuiltIn::Memset => b"memset",
            BuiltIn::Strlen => b"strlen",
            BuiltIn::Strcmp => b"strcmp",
            BuiltIn::Getchar => b"getchar",
            BuiltIn::Putchar => b"putchar",
            BuiltIn::Puts => b"puts",
            BuiltIn::Printf => b"printf",
        }
    }

    /// The integer constant that the name stands for (C99 5.2.4.2.1, 7.19.1, 7.20), where it stands for one.
    pub fn constant(self) -> Option<Constant>
        ensures { result ≡ constant_of self }
    {
        let (ty, value) = match self {
            BuiltIn::Eof => (IntType::Int, -1),
            BuiltIn::ExitSuccess => (IntType::Int, 0),
            BuiltIn::ExitFailure => (IntType::Int, 1),
            BuiltIn::CharBit => (IntType::Int, 8),
            BuiltIn::ScharMin | BuiltIn::CharMin => (IntType::Int, i8::MIN as i128),
            BuiltIn::ScharMax | BuiltIn::CharMax => (IntType::Int, i8::MAX as i128),
            BuiltIn::UcharMax => (IntType::Int, u8::MAX as i128),
            BuiltIn::ShrtMin => (IntType::Int, i16::MIN as i128),
            BuiltIn::ShrtMax => (IntType::Int, i16::MAX as i128),
            BuiltIn::UshrtMax => (IntType::Int, u16::MAX as i128),
            BuiltIn::IntMin => (IntType::Int, i32::MIN as i128),
            BuiltIn::IntMax => (IntType::Int, i32::MAX as i128),
            BuiltIn::UintMax => (IntType::UInt, u32::MAX as i128),
            BuiltIn::LongMin => (IntType::Long, i32::MIN as i128),
            BuiltIn::LongMax => (IntType::Long, i32::MAX as i128),
            BuiltIn::UlongMax => (IntType::ULong, u32::MAX as i128),
            BuiltIn::LlongMin => (IntType::LongLong, i64::MIN as i128),
            BuiltIn::LlongMax => (IntType::LongLong, i64::MAX as i128),
            BuiltIn::UllongMax => (IntType::ULongLong, u64::MAX as i128),
            _ => return None,
        };
        Some(Constant { ty, value })
    }
}
