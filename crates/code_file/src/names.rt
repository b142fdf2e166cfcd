//! The names of a code file, and how they stand beside its code.

ghost use Rattle.std.specs.Prelude.{◌≡◌, All, IfSome};
ghost use Rattle.c_types.specs.Layouts.{no_layout};
ghost use Rattle.core_tree.specs.declared.program.Mem.{Mem};
ghost use Rattle.core_tree.specs.declared.program.Reg.{Reg};
ghost use Rattle.core_tree.specs.declared.program.Static.{Static};
ghost use Rattle.code_file.specs.Spelling.{IsByte, IsShort, Reads, list_of};
ghost use Rattle.code_file.specs.CodeFile.{IsRangedFunction, IsShortFunction, function_names, memory_name, no_start, register_name, static_name};
ghost use Rattle.code_file.specs.Parts.{FitsFunction, FitsMemoryName, FitsRegister, FitsStaticName, IsShortBeside};

use crate::file::CodeError;
use crate::part::{Part, Spelled};
use crate::reader::Reader;
use c_types::Layout;
use core_tree::{Func, Mem, Reg, Start, Static};
use flat_code::Entry;
use hs_base::{Items, Line, NoMemory};
use std::alloc::Global;

/// What is read beside something that is known of it.
pub(crate) trait Beside<K>: Spelled + Drop {
    /// Its lists are short enough, its numbers are those of their types, and it agrees with what is known.
    ghost fits_beside: { K → Self → Type 0 };

    /// Reads it at the front.
    fn read_beside(known: &K, reader: &mut Reader) -> Result<Self, CodeError>
        ensures { Reads (fits_beside known.now) Self.spelling reader.old reader.new result };
}

/// Reads a list with one item for each of those that are known.
pub(crate) fn read_list_beside<K, T: Beside<K>>(
    known: &[K],
    reader: &mut Reader,
) -> Result<Items<T>, CodeError>
    ensures { Reads (IsShortBeside T.fits_beside known.now) (list_of T.spelling) reader.old reader.new result }
{
    let count = u32::read(reader)?;
    if count as usize != known.len() {
        return Err(CodeError::Form);
    }
    let mut items = Items::new(reader.alloc());
    for item in known {
        items.push(T::read_beside(item, reader)?)?;
    }
    Ok(items)
}

/// The layout of what is named.
pub(crate) fn no_layout(alloc: Global) -> Layout
    ensures { result ≡ no_layout }
{
    Layout {
        size: 0,
        align: 1,
        slots: Items::new(alloc),
    }
}

/// The start of what is named.
pub(crate) fn no_start(alloc: Global) -> Start
    ensures { result ≡ no_start }
{
    Start {
        bytes: Items::new(alloc),
        pointers: Items::new(alloc),
    }
}

impl Spelled for Static {
    ghost spelling = { static_name };

    ghost is_short = { λ (s : Static). IfSome s.name IsShort };

    ghost is_ranged = { λ (s : Static). IfSome s.name (All IsByte) };

    fn write(&self, text: &mut Vec<u8>) -> Result<(), NoMemory> {
        self.name.write(text)
    }
}

impl Part for Static {
    ghost fits = { FitsStaticName };

    fn read(reader: &mut Reader) -> Result<Static, CodeError> {
        let name = Part::read(reader)?;
        let alloc = reader.alloc();
        Ok(Static {
            name,
            layout: no_layout(alloc),
            start: no_start(alloc),
        })
    }
}

impl Spelled for Mem {
    ghost spelling = { memory_name };

    ghost is_short = { λ (m : Mem). IsShort m.name };

    ghost is_ranged = { λ (m : Mem). All IsByte m.name };

    fn write(&self, text: &mut Vec<u8>) -> Result<(), NoMemory> {
        self.name.write(text)
    }
}

impl Part for Mem {
    ghost fits = { FitsMemoryName };

    fn read(reader: &mut Reader) -> Result<Mem, CodeError> {
        let name = Part::read(reader)?;
        Ok(Mem {
            name,
            layout: no_layout(reader.alloc()),
        })
    }
}

impl Spelled for Reg {
    ghost spelling = { register_name };

    ghost is_short = { λ (r : Reg). IfSome r.name IsShort };

    ghost is_ranged = { λ (r : Reg). IfSome r.name (All IsByte) };

    fn write(&self, text: &mut Vec<u8>) -> Result<(), NoMemory> {
        self.name.write(text)
    }
}

impl Beside<bool> for Reg {
    ghost fits_beside = { FitsRegister };

    fn read_beside(known: &bool, reader: &mut Reader) -> Result<Reg, CodeError> {
        let name = Part::read(reader)?;
        Ok(Reg {
            name,
            pointer: *known,
        })
    }
}

impl Spelled for Func {
    ghost spelling = { function_names };

    ghost is_short = { IsShortFunction };

    ghost is_ranged = { IsRangedFunction };

    fn write(&self, text: &mut Vec<u8>) -> Result<(), NoMemory> {
        self.name.write(text)?;
        self.line.write(text)?;
        self.regs.write(text)?;
        self.mems.write(text)
    }
}

impl Beside<Entry> for Func {
    ghost fits_beside = { FitsFunction };

    fn read_beside(known: &Entry, reader: &mut Reader) -> Result<Func, CodeError> {
        let (name, line) = <(Items<u8>, Line)>::read(reader)?;
        let regs = read_list_beside(known.kinds.as_slice(), reader)?;
        let mems = <Items<Mem>>::read(reader)?;
        if mems.len() != known.mems.len() {
            return Err(CodeError::Form);
        }
        let alloc = reader.alloc();
        Ok(Func {
            name,
            line,
            params: known.params,
            regs,
            mems,
            body: Items::new(alloc),
            formats: Items::new(alloc),
        })
    }
}
