//! C types, and their names as plain data.

ghost use Rattle.std.specs.Prelude.{IfOk, IsTrue, ◌↔◌, ◌≡◌, ◌+◌, ◌<◌, ◌^◌};
ghost use Rattle.c_types.specs.Types.{kind_of, width_of, plain, plain_signature, plain_list, Pointer, Array};

use hs_base::{IntKind, NoMemory};
use std::alloc::Global;

/// A number of a tag, counted from 0 in the order of making.
pub type TagId = u32;

/// An integer type (C99 6.2.5).
#[derive(Clone, Copy, Debug, PartialEq, Eq)]
pub enum IntType {
    Char,
    SChar,
    UChar,
    Short,
    UShort,
    Int,
    UInt,
    Long,
    ULong,
    LongLong,
    ULongLong,
}

/// A type (C99 6.2.5). What a type is made of is shared by all that were made of it, and lasts to the end of the program.
#[cycle(ctype)]
#[derive(Clone, Copy)]
pub enum CType {
    Void,
    Int(IntType),
    Pointer(&'static CType),
    Array(&'static CType, u32),
    Struct(TagId),
    Union(TagId),
    Function(&'static Signature),
}

/// The result and the parameters of a function.
#[cycle(ctype)]
#[derive(Drop)]
pub struct Signature {
    pub result: CType,
    pub params: Vec<CType>,
}

impl IntType {
    /// The sign and the width in bits.
    pub fn kind(self) -> IntKind
        ensures { result ≡ kind_of self }
    {
        match self {
            IntType::Char | IntType::SChar => IntKind::I8,
            IntType::UChar => IntKind::U8,
            IntType::Short => IntKind::I16,
            IntType::UShort => IntKind::U16,
            IntType::Int | IntType::Long => IntKind::I32,
            IntType::UInt | IntType::ULong => IntKind::U32,
            IntType::LongLong => IntKind::I64,
            IntType::ULongLong => IntKind::U64,
        }
    }

    /// The size in bytes, which is the alignment too.
    pub fn width(self) -> u32
        ensures { result ≡ width_of self }
    {
        match self {
            IntType::Char | IntType::SChar | IntType::UChar => 1,
            IntType::Short | IntType::UShort => 2,
            IntType::Int | IntType::UInt | IntType::Long | IntType::ULong => 4,
            IntType::LongLong | IntType::ULongLong => 8,
        }
    }
}

impl CType {
    /// A pointer to a type.
    pub fn pointer_to(alloc: Global, target: CType) -> Result<CType, NoMemory>
        ensures { IfOk result (λ it. plain it ≡ Pointer (plain target)) }
    {
        Ok(CType::Pointer(Box::leak(Box::new(alloc, target)?)))
    }

    /// An array of a type.
    pub fn array_of(alloc: Global, element: CType, length: u32) -> Result<CType, NoMemory>
        ensures { IfOk result (λ it. plain it ≡ Array (plain element) length) }
    {
        Ok(CType::Array(Box::leak(Box::new(alloc, element)?), length))
    }

    /// A function with a result and parameters.
    pub fn function_of(alloc: Global, signature: Signature) -> Result<CType, NoMemory>
        ensures { IfOk result (λ it. plain it ≡ plain_signature signature) }
    {
        Ok(CType::Function(Box::leak(Box::new(alloc, signature)?)))
    }
}

impl Signature {
    /// A copy.
    pub fn try_clone(&self, alloc: Global) -> Result<Signature, NoMemory>
        ensures { IfOk result (λ copy. plain_signature copy ≡ plain_signature self.now) }
    {
        let mut params = Vec::new(alloc);
        for param in &self.params {
            params.push(*param)?;
        }
        Ok(Signature {
            result: self.result,
            params,
        })
    }
}

/// Whether two types are the same type. It goes down their layers by a loop, and calls itself for parameters alone.
#[cycle(same)]
pub fn same_type(a: &CType, b: &CType) -> bool
    ensures { IsTrue result ↔ (plain a.now ≡ plain b.now) }
{
    let mut a = *a;
    let mut b = *b;
    loop {
        match a {
            CType::Void => return matches!(b, CType::Void),
            CType::Int(int) => return matches!(b, CType::Int(other) if int == other),
            CType::Struct(tag) => return matches!(b, CType::Struct(other) if tag == other),
            CType::Union(tag) => return matches!(b, CType::Union(other) if tag == other),
            CType::Pointer(target) => match b {
                CType::Pointer(other) => {
                    a = *target;
                    b = *other;
                }
                _ => return false,
            },
            CType::Array(element, length) => match b {
                CType::Array(other, count) if length == count => {
                    a = *element;
                    b = *other;
                }
                _ => return false,
            },
            CType::Function(signature) => match b {
                CType::Function(other) => {
                    if !same_types(&signature.params, &other.params) {
                        return false;
                    }
                    a = signature.result;
                    b = other.result;
                }
                _ => return false,
            },
        }
    }
}

/// Whether two lists of types are the same.
#[cycle(same)]
fn same_types(a: &[CType], b: &[CType]) -> bool
    ensures { IsTrue result ↔ (plain_list a.now ≡ plain_list b.now) }
{
    if a.len() != b.len() {
        return false;
    }
    for i in 0..a.len() {
        if !same_type(&a[i], &b[i]) {
            return false;
        }
    }
    true
}
