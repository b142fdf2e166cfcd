//! The words of operators, kinds and built-in functions.

ghost use Rattle.std.specs.Prelude.{◌≡◌};
ghost use Rattle.core_tree.specs.Listing.{un_sign, bin_sign, cmp_sign, lib_word, kind_word};

use crate::statements::{BinOp, CmpOp, LibName, UnOp};
use hs_base::IntKind;

impl UnOp {
    /// The sign of the operation.
    pub fn sign(self) -> &'static [u8]
        ensures { result.now ≡ un_sign self }
    {
        match self {
            UnOp::Neg => b"-",
            UnOp::Not => b"~",
        }
    }
}

impl BinOp {
    /// The sign of the operation.
    pub fn sign(self) -> &'static [u8]
        ensures { result.now ≡ bin_sign self }
    {
        match self {
            BinOp::Add => b"+",
            BinOp::Sub => b"-",
            BinOp::Mul => b"*",
            BinOp::Div => b"/",
            BinOp::Rem => b"%",
            BinOp::And => b"&",
            BinOp::Or => b"|",
            BinOp::Xor => b"^",
            BinOp::Shl => b"<<",
            BinOp::Shr => b">>",
        }
    }
}

impl CmpOp {
    /// The sign of the comparison.
    pub fn sign(self) -> &'static [u8]
        ensures { result.now ≡ cmp_sign self }
    {
        match self {
            CmpOp::Eq => b"==",
            CmpOp::Ne => b"!=",
            CmpOp::Lt => b"<",
            CmpOp::Gt => b">",
            CmpOp::Le => b"<=",
            CmpOp::Ge => b">=",
        }
    }
}

impl LibName {
    /// The name of the function in C.
    pub fn name(self) -> &'static [u8]
        ensures { result.now ≡ lib_word self }
    {
        match self {
            LibName::Exit => b"exit",
            LibName::Abort => b"abort",
            LibName::Memcpy => b"memcpy",
            LibName::Memmove => b"memmove",
            LibName::Memset => b"memset",
            LibName::Strlen => b"strlen",
            LibName::Strcmp => b"strcmp",
            LibName::Getchar => b"getchar",
            LibName::Putchar => b"putchar",
            LibName::Puts => b"puts",
        }
    }
}

/// The word of a kind of integer.
pub(crate) fn kind_word(kind: IntKind) -> &'static [u8]
    ensures { result.now ≡ kind_word kind }
{
    match kind {
        IntKind::I8 => b"i8",
        IntKind::U8 => b"u8",
        IntKind::I16 => b"i16",
        IntKind::U16 => b"u16",
        IntKind::I32 => b"i32",
        IntKind::U32 => b"u32",
        IntKind::I64 => b"i64",
        IntKind::U64 => b"u64",
    }
}
