//! What a code file is made of: parts that are written one behind another, and read from left to right.

ghost use Rattle.std.specs.Prelude.{◌≡◌, ◌++◌, ℕ, List, length, All, IfOk};
ghost use Rattle.code_file.specs.Spelling.{Any, Both, IsByte, IsNumber, IsShortList, IsSigned, Reads, byte, list_of, number, optional, pair, signed, truth};

use crate::file::CodeError;
use crate::reader::Reader;
use hs_base::{Items, NoMemory};

/// What can be written.
pub(crate) trait Spelled {
    /// Its bytes.
    ghost spelling: { Self → List ℕ };

    /// Its lists are short enough.
    ghost is_short: { Self → Type 0 };

    /// Its numbers are those of their types.
    ghost is_ranged: { Self → Type 0 };

    /// Writes it at the end.
    fn write(&self, text: &mut Vec<u8>) -> Result<(), NoMemory>
        requires { is_short self.now }
        ensures bytes { IfOk result (λ _. text.new.items ≡ text.old.items ++ spelling self.now) }
        ensures ranged { IfOk result (λ _. is_ranged self.now) };
}

/// What can be read.
pub(crate) trait Part: Spelled + Drop {
    /// Its lists are short enough, and its numbers are those of their types.
    ghost fits: { Self → Type 0 };

    /// Reads it at the front.
    fn read(reader: &mut Reader) -> Result<Self, CodeError>
        ensures { Reads fits Self.spelling reader.old reader.new result };
}

impl Spelled for u8 {
    ghost spelling = { byte };

    ghost is_short = { Any };

    ghost is_ranged = { IsByte };

    fn write(&self, text: &mut Vec<u8>) -> Result<(), NoMemory> {
        text.push(*self)?;
        Ok(())
    }
}

impl Part for u8 {
    ghost fits = { IsByte };

    fn read(reader: &mut Reader) -> Result<u8, CodeError> {
        reader.next()
    }
}

impl Spelled for bool {
    ghost spelling = { truth };

    ghost is_short = { Any };

    ghost is_ranged = { Any };

    fn write(&self, text: &mut Vec<u8>) -> Result<(), NoMemory> {
        text.push(u8::from(*self))?;
        Ok(())
    }
}

impl Part for bool {
    ghost fits = { Any };

    fn read(reader: &mut Reader) -> Result<bool, CodeError> {
        match reader.next()? {
            0 => Ok(false),
            1 => Ok(true),
            _ => Err(CodeError::Form),
        }
    }
}

/// The number of four bytes, the lowest first.
fn number_of(bytes: &[u8]) -> u32
    requires { length bytes.now ≡ 4 }
    ensures { number result ≡ bytes.now }
{
    u32::from_le_bytes([bytes[0], bytes[1], bytes[2], bytes[3]])
}

/// The number of eight bytes in two's complement, the lowest first.
fn signed_of(bytes: &[u8]) -> i64
    requires { length bytes.now ≡ 8 }
    ensures { signed result ≡ bytes.now }
{
    i64::from_le_bytes([
        bytes[0], bytes[1], bytes[2], bytes[3], bytes[4], bytes[5], bytes[6], bytes[7],
    ])
}

impl Spelled for u32 {
    ghost spelling = { number };

    ghost is_short = { Any };

    ghost is_ranged = { IsNumber };

    fn write(&self, text: &mut Vec<u8>) -> Result<(), NoMemory> {
        text.extend_from_slice(&self.to_le_bytes())?;
        Ok(())
    }
}

impl Part for u32 {
    ghost fits = { IsNumber };

    fn read(reader: &mut Reader) -> Result<u32, CodeError> {
        Ok(number_of(reader.take(4)?))
    }
}

impl Spelled for i64 {
    ghost spelling = { signed };

    ghost is_short = { Any };

    ghost is_ranged = { IsSigned };

    fn write(&self, text: &mut Vec<u8>) -> Result<(), NoMemory> {
        text.extend_from_slice(&self.to_le_bytes())?;
        Ok(())
    }
}

impl Part for i64 {
    ghost fits = { IsSigned };

    fn read(reader: &mut Reader) -> Result<i64, CodeError> {
        Ok(signed_of(reader.take(8)?))
    }
}

impl<A: Spelled, B: Spelled> Spelled for (A, B) {
    ghost spelling = { pair A.spelling B.spelling };

    ghost is_short = { Both A.is_short B.is_short };

    ghost is_ranged = { Both A.is_ranged B.is_ranged };

    fn write(&self, text: &mut Vec<u8>) -> Result<(), NoMemory> {
        self.0.write(text)?;
        self.1.write(text)
    }
}

impl<A: Part, B: Part> Part for (A, B) {
    ghost fits = { Both A.fits B.fits };

    fn read(reader: &mut Reader) -> Result<(A, B), CodeError> {
        let first = A::read(reader)?;
        let second = B::read(reader)?;
        Ok((first, second))
    }
}

impl<T: Spelled> Spelled for Items<T> {
    ghost spelling = { list_of T.spelling };

    ghost is_short = { IsShortList T.is_short };

    ghost is_ranged = { All T.is_ranged };

    fn write(&self, text: &mut Vec<u8>) -> Result<(), NoMemory> {
        (self.len() as u32).write(text)?;
        for item in self.as_slice() {
            item.write(text)?;
        }
        Ok(())
    }
}

impl<T: Part> Part for Items<T> {
    ghost fits = { IsShortList T.fits };

    fn read(reader: &mut Reader) -> Result<Items<T>, CodeError> {
        let count = u32::read(reader)?;
        let mut items = Items::new(reader.alloc());
        for _done in 0..count {
            items.push(T::read(reader)?)?;
        }
        Ok(items)
    }
}

impl<T: Spelled> Spelled for Option<T> {
    ghost use Rattle.std.specs.Prelude.{IfSome};

    ghost spelling = { optional T.spelling };

    ghost is_short = { λ o. IfSome o T.is_short };

    ghost is_ranged = { λ o. IfSome o T.is_ranged };

    fn write(&self, text: &mut Vec<u8>) -> Result<(), NoMemory> {
        match self {
            None => 0u8.write(text),
            Some(item) => {
                1u8.write(text)?;
                item.write(text)
            }
        }
    }
}

impl<T: Part> Part for Option<T> {
    ghost use Rattle.std.specs.Prelude.{IfSome};

    ghost fits = { λ o. IfSome o T.fits };

    fn read(reader: &mut Reader) -> Result<Option<T>, CodeError> {
        match reader.next()? {
            0 => Ok(None),
            1 => Ok(Some(T::read(reader)?)),
            _ => Err(CodeError::Form),
        }
    }
}
