//! Code that grows at its end.

ghost use Rattle.std.specs.Prelude.{◌≡◌, ◌∷◌, [], IfOk};
ghost use Rattle.flat_code.specs.WellFormed.{IsShort};
ghost use Rattle.flat_codegen.specs.Emitting.{before_functions, with_instrs, with_layouts, with_formats};

use c_types::Layout;
use flat_code::{Code, Instr, StaticInit};
use hs_base::{Items, Line, NoMemory};
use std::alloc::Global;

/// Code that is being made.
#[derive(Drop)]
pub(crate) struct Emitter {
    pub(crate) alloc: Global,
    pub(crate) code: Code,
}

/// The number of what comes next in a list. No memory holds a list whose numbers do not fit.
pub(crate) fn fit(number: usize) -> Result<u32, NoMemory>
    ensures { IfOk result (λ fit. fit ≡ number) }
{
    u32::try_from(number).map_err(|_| NoMemory)
}

/// A copy of a layout.
pub(crate) fn layout_copy(alloc: Global, layout: &Layout) -> Result<Layout, NoMemory>
    ensures { IfOk result (λ copy. copy ≡ layout.now) }
{
    Ok(Layout {
        size: layout.size,
        align: layout.align,
        slots: Items::from(layout.slots.as_slice().to_vec(alloc)?),
    })
}

impl Emitter {
    /// Code that has its statics and their layouts, and no function yet.
    pub(crate) fn new(alloc: Global, statics: Items<StaticInit>, layouts: Items<Layout>) -> Emitter
        ensures { result.code ≡ before_functions statics layouts }
    {
        Emitter {
            alloc,
            code: Code {
                instrs: Items::new(alloc),
                funcs: Items::new(alloc),
                statics,
                layouts,
                sites: Items::new(alloc),
                lines: Items::new(alloc),
                formats: Items::new(alloc),
            },
        }
    }

    /// The code, where its lists are short enough for numbers of 32 bits. No memory holds longer ones.
    pub(crate) fn finish(self) -> Result<Code, NoMemory>
        ensures code { IfOk result (λ code. code ≡ self.code) }
        ensures short { IfOk result (λ code. IsShort code.instrs × IsShort code.layouts × IsShort code.formats) }
    {
        let Emitter { alloc: _, code } = self;
        fit(code.instrs.len())?;
        fit(code.layouts.len())?;
        fit(code.formats.len())?;
        Ok(code)
    }

    /// Adds an instruction.
    pub(crate) fn push(&mut self, line: Line, instr: Instr) -> Result<(), NoMemory>
        ensures { IfOk result (λ _. self.new.code ≡ with_instrs self.old.code line (instr ∷ [])) }
    {
        self.code.instrs.push(instr)?;
        self.code.lines.push(line)
    }

    /// Adds a layout.
    pub(crate) fn layout(&mut self, layout: &Layout) -> Result<(), NoMemory>
        ensures { IfOk result (λ _. self.new.code ≡ with_layouts self.old.code (layout.now ∷ [])) }
    {
        let copy = layout_copy(self.alloc, layout)?;
        self.code.layouts.push(copy)
    }

    /// Adds a format.
    pub(crate) fn format(&mut self, format: &[u8]) -> Result<(), NoMemory>
        ensures { IfOk result (λ _. self.new.code ≡ with_formats self.old.code (format.now ∷ [])) }
    {
        let copy = Items::from(format.to_vec(self.alloc)?);
        self.code.formats.push(copy)
    }
}
