//! The parts of code.

ghost use Rattle.std.specs.Prelude.{◌≡◌, All, true, false};
ghost use Rattle.code_file.specs.Spelling.{Any, IsNumber, IsShort, IsShortList, byte, list_of, number};
ghost use Rattle.code_file.specs.Ops.{op_number};
ghost use Rattle.code_file.specs.CodeFile.{EndsOtherwise, IsRangedCode, IsRangedEntry, IsRangedInstr, IsRangedLayout, IsRangedPointer, IsRangedSite, IsRangedStatic, IsShortCode, IsShortEntry, IsShortStatic, code_bytes, entry_bytes, instr_bytes, layout_bytes, pointer_bytes, site_bytes, static_bytes};
ghost use Rattle.code_file.specs.Parts.{FitsCode, FitsEntry, FitsInstr, FitsLayout, FitsPointer, FitsSite, FitsStatic};

use crate::file::CodeError;
use crate::ops::{op_number, op_of};
use crate::part::{Part, Spelled};
use crate::reader::Reader;
use c_types::Layout;
use flat_code::{Code, Entry, Instr, Op, Registers, Site, StaticInit};
use hs_base::{Items, Line, NoMemory};

impl Spelled for Op {
    ghost spelling = { λ op. byte (op_number op) };

    ghost is_short = { Any };

    ghost is_ranged = { Any };

    fn write(&self, text: &mut Vec<u8>) -> Result<(), NoMemory> {
        op_number(*self).write(text)
    }
}

impl Part for Op {
    ghost fits = { Any };

    fn read(reader: &mut Reader) -> Result<Op, CodeError> {
        op_of(reader.next()?).ok_or(CodeError::Form)
    }
}

impl Spelled for Instr {
    ghost spelling = { instr_bytes };

    ghost is_short = { Any };

    ghost is_ranged = { IsRangedInstr };

    fn write(&self, text: &mut Vec<u8>) -> Result<(), NoMemory> {
        self.op.write(text)?;
        self.a.write(text)?;
        self.b.write(text)?;
        self.c.write(text)?;
        self.imm.write(text)
    }
}

/// The fields of an instruction.
type InstrParts = (Op, (u32, (u32, (u32, i64))));

impl Part for Instr {
    ghost fits = { FitsInstr };

    fn read(reader: &mut Reader) -> Result<Instr, CodeError> {
        let (op, (a, (b, (c, imm)))) = InstrParts::read(reader)?;
        Ok(Instr { op, a, b, c, imm })
    }
}

impl Spelled for Entry {
    ghost spelling = { entry_bytes };

    ghost is_short = { IsShortEntry };

    ghost is_ranged = { IsRangedEntry };

    fn write(&self, text: &mut Vec<u8>) -> Result<(), NoMemory> {
        self.first.write(text)?;
        self.params.write(text)?;
        self.kinds.write(text)?;
        self.mems.write(text)
    }
}

/// The fields of an entry.
type EntryParts = (u32, (u32, (Items<bool>, Items<u32>)));

impl Part for Entry {
    ghost fits = { FitsEntry };

    fn read(reader: &mut Reader) -> Result<Entry, CodeError> {
        let (first, (params, (kinds, mems))) = EntryParts::read(reader)?;
        Ok(Entry {
            first,
            params,
            kinds,
            mems,
        })
    }
}

impl Spelled for (u32, u32, u32) {
    ghost spelling = { pointer_bytes };

    ghost is_short = { Any };

    ghost is_ranged = { IsRangedPointer };

    fn write(&self, text: &mut Vec<u8>) -> Result<(), NoMemory> {
        self.0.write(text)?;
        self.1.write(text)?;
        self.2.write(text)
    }
}

impl Part for (u32, u32, u32) {
    ghost fits = { FitsPointer };

    fn read(reader: &mut Reader) -> Result<(u32, u32, u32), CodeError> {
        let (slot, (target, offset)) = <(u32, (u32, u32))>::read(reader)?;
        Ok((slot, target, offset))
    }
}

impl Spelled for StaticInit {
    ghost spelling = { static_bytes };

    ghost is_short = { IsShortStatic };

    ghost is_ranged = { IsRangedStatic };

    fn write(&self, text: &mut Vec<u8>) -> Result<(), NoMemory> {
        self.layout.write(text)?;
        self.bytes.write(text)?;
        self.pointers.write(text)
    }
}

/// The fields of a static.
type StaticParts = (u32, (Items<u8>, Items<(u32, u32, u32)>));

/// Says whether the last byte is a zero.
fn ends_in_zero(bytes: &[u8]) -> bool
    ensures yes { result ≡ true → EndsOtherwise bytes.now → ⊥ }
    ensures no { result ≡ false → EndsOtherwise bytes.now }
{
    match bytes.last() {
        Some(last) => *last == 0,
        None => false,
    }
}

impl Part for StaticInit {
    ghost fits = { FitsStatic };

    fn read(reader: &mut Reader) -> Result<StaticInit, CodeError> {
        let (layout, (bytes, pointers)) = StaticParts::read(reader)?;
        if ends_in_zero(bytes.as_slice()) {
            return Err(CodeError::Form);
        }
        Ok(StaticInit {
            layout,
            bytes,
            pointers,
        })
    }
}

impl Spelled for Layout {
    ghost use Rattle.c_types.specs.declared.layouts.Layout.{Layout};
    ghost use Rattle.code_file.specs.Spelling.{IsShort};

    ghost spelling = { layout_bytes };

    ghost is_short = { λ (l : Layout). IsShort l.slots };

    ghost is_ranged = { IsRangedLayout };

    fn write(&self, text: &mut Vec<u8>) -> Result<(), NoMemory> {
        self.size.write(text)?;
        self.align.write(text)?;
        self.slots.write(text)
    }
}

/// The fields of a layout.
type LayoutParts = (u32, (u32, Items<u32>));

impl Part for Layout {
    ghost fits = { FitsLayout };

    fn read(reader: &mut Reader) -> Result<Layout, CodeError> {
        let (size, (align, slots)) = LayoutParts::read(reader)?;
        Ok(Layout { size, align, slots })
    }
}

impl Spelled for Registers {
    ghost spelling = { list_of number };

    ghost is_short = { IsShort };

    ghost is_ranged = { All IsNumber };

    fn write(&self, text: &mut Vec<u8>) -> Result<(), NoMemory> {
        (self.len() as u32).write(text)?;
        for register in self.iter() {
            register.write(text)?;
        }
        Ok(())
    }
}

impl Part for Registers {
    ghost fits = { IsShortList IsNumber };

    fn read(reader: &mut Reader) -> Result<Registers, CodeError> {
        let count = u32::read(reader)?;
        let mut registers = Registers::new(reader.alloc());
        for _done in 0..count {
            registers.push(u32::read(reader)?)?;
        }
        Ok(registers)
    }
}

impl Spelled for Site {
    ghost use Rattle.flat_code.specs.declared.program.Site.{Site};
    ghost use Rattle.code_file.specs.Spelling.{IsShort};

    ghost spelling = { site_bytes };

    ghost is_short = { λ (s : Site). IsShort s.pins };

    ghost is_ranged = { IsRangedSite };

    fn write(&self, text: &mut Vec<u8>) -> Result<(), NoMemory> {
        self.instr.write(text)?;
        self.pins.write(text)
    }
}

impl Part for Site {
    ghost fits = { FitsSite };

    fn read(reader: &mut Reader) -> Result<Site, CodeError> {
        let (instr, pins) = <(u32, Registers)>::read(reader)?;
        Ok(Site { instr, pins })
    }
}

impl Spelled for Code {
    ghost spelling = { code_bytes };

    ghost is_short = { IsShortCode };

    ghost is_ranged = { IsRangedCode };

    fn write(&self, text: &mut Vec<u8>) -> Result<(), NoMemory> {
        self.instrs.write(text)?;
        self.funcs.write(text)?;
        self.statics.write(text)?;
        self.layouts.write(text)?;
        self.sites.write(text)?;
        self.lines.write(text)?;
        self.formats.write(text)
    }
}

/// The tables behind the functions.
type Tables = (
    Items<StaticInit>,
    (
        Items<Layout>,
        (Items<Site>, (Items<Line>, Items<Items<u8>>)),
    ),
);

impl Part for Code {
    ghost fits = { FitsCode };

    fn read(reader: &mut Reader) -> Result<Code, CodeError> {
        let (instrs, (funcs, (statics, (layouts, (sites, (lines, formats)))))) = <(
            Items<Instr>,
            (Items<Entry>, Tables),
        )>::read(reader)?;
        Ok(Code {
            instrs,
            funcs,
            statics,
            layouts,
            sites,
            lines,
            formats,
        })
    }
}
