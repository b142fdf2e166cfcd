//! The functions of a core.

ghost use Rattle.std.specs.Prelude.{◌≡◌, IfOk, All, fold, length, map, option_copied};
ghost use Rattle.std.specs.Option.{option_to_list};
ghost use Rattle.core_tree.specs.declared.program.Reg.{Reg as CoreReg};
ghost use Rattle.core_tree.specs.Sound.{HasNumbers, element_layouts};
ghost use Rattle.object_meaning.specs.compiled.Compiled.{format_of};
ghost use Rattle.count_insertion.specs.Inserted.{func_pins};
ghost use Rattle.flat_codegen.specs.Emitting.{with_layouts, with_statement, with_entry, with_function, HasNumbersIn, emitted, layouts_of, mem_numbers};
ghost use Rattle.flat_codegen.specs.Placing.{place_in};

use crate::doing::Names;
use crate::emitter::{Emitter, fit};
use crate::places::Places;
use c_types::Layout;
use core_tree::{Func, Mem, Reg, Stm, StmKind};
use count_insertion::{FuncPins, listed_pins_are_exact};
use flat_code::{Entry, Registers};
use hs_base::{Items, NoMemory};
use std::alloc::Global;

/// The layout of the elements of a new object.
fn element_layout(kind: &StmKind) -> Option<&Layout>
    ensures { element_layouts kind.now ≡ option_to_list (option_copied result) }
{
    match kind {
        StmKind::Malloc(_, _, layout)
        | StmKind::Calloc(_, _, _, layout)
        | StmKind::Realloc(_, _, _, layout) => Some(layout),
        _ => None,
    }
}

/// The format that a statement of a function writes.
fn format_of<'a>(func: &'a Func, kind: &StmKind) -> Option<&'a Items<u8>>
    ensures { option_copied result ≡ format_of func.now kind.now }
{
    match kind {
        StmKind::Printf(_, format, _) => func.formats.get(*format as usize),
        _ => None,
    }
}

/// Whether each register holds a pointer.
fn kinds_of(alloc: Global, registers: &[Reg]) -> Result<Items<bool>, NoMemory>
    ensures { IfOk result (λ kinds. kinds ≡ map (λ (r : CoreReg). r.pointer) registers.now) }
{
    let mut kinds = Items::new(alloc);
    for register in registers {
        kinds.push(register.pointer)?;
    }
    Ok(kinds)
}

impl Emitter {
    /// Adds the layouts of memory locals, and gives their numbers.
    fn mems(&mut self, mems: &[Mem]) -> Result<Items<u32>, NoMemory>
        ensures code { IfOk result (λ _. self.new.code ≡ with_layouts self.old.code (layouts_of mems.now)) }
        ensures numbers { IfOk result (λ numbers. numbers ≡ mem_numbers self.old.code mems.now) }
    {
        let mut numbers = Items::new(self.alloc);
        for mem in mems {
            numbers.push(fit(self.code.layouts.len())?)?;
            self.layout(&mem.layout)?;
        }
        Ok(numbers)
    }

    /// Adds the entry of a function that comes next.
    fn entry(&mut self, first: u32, func: &Func) -> Result<(), NoMemory>
        requires { first ≡ length self.old.code.instrs }
        ensures { IfOk result (λ _. self.new.code ≡ with_entry self.old.code func.now) }
    {
        let kinds = kinds_of(self.alloc, func.regs.as_slice())?;
        let mems = self.mems(func.mems.as_slice())?;
        self.code.funcs.push(Entry {
            first,
            params: func.params,
            kinds,
            mems,
        })?;
        Ok(())
    }

    /// Adds a statement with the pins of its point.
    fn statement(
        &mut self,
        func: &Func,
        places: &Places,
        stm: &Stm,
        pins: Registers,
    ) -> Result<(), NoMemory>
        requires { HasNumbers stm.now.kind }
        ensures { IfOk result (λ _. self.new.code ≡ with_statement (place_in places.now) func.now self.old.code stm.now pins) }
    {
        let names = Names {
            places,
            layout: fit(self.code.layouts.len())?,
            format: fit(self.code.formats.len())?,
        };
        if let Some(layout) = element_layout(&stm.kind) {
            self.layout(layout)?;
        }
        if let Some(format) = format_of(func, &stm.kind) {
            self.format(format.as_slice())?;
        }
        self.hand_all(stm.line, &stm.kind)?;
        self.site(&stm.kind, pins)?;
        self.push(stm.line, names.doing(&stm.kind))
    }

    /// Adds the statements of a function. Its pins stand in the order of its points, so those of each point are the first
    /// that are left.
    fn body(&mut self, func: &Func, places: &Places, pins: &FuncPins) -> Result<(), NoMemory>
        requires numbers { HasNumbersIn func.now }
        requires listed { pins.now ≡ func_pins func.now }
        ensures { IfOk result (λ _. self.new.code ≡ emitted (place_in places.now) func.now self.old.code) }
    {
        listed_pins_are_exact();
        let mut left = pins.left();
        for (point, stm) in func.body.as_slice().iter().enumerate() {
            let registers = left.take(self.alloc, fit(point)?)?;
            self.statement(func, places, stm, registers)?;
        }
        Ok(())
    }

    /// Adds a function with its pins.
    fn function(&mut self, func: &Func, pins: &FuncPins) -> Result<(), NoMemory>
        requires numbers { HasNumbersIn func.now }
        requires listed { pins.now ≡ func_pins func.now }
        ensures { IfOk result (λ _. self.new.code ≡ with_function self.old.code func.now) }
    {
        let first = fit(self.code.instrs.len())?;
        let places = Places::of_body(self.alloc, first, func.body.as_slice())?;
        self.entry(first, func)?;
        self.body(func, &places, pins)
    }

    /// Adds functions, each with its pins.
    pub(crate) fn functions(&mut self, funcs: &[Func], pins: &[FuncPins]) -> Result<(), NoMemory>
        requires numbers { All HasNumbersIn funcs.now }
        requires listed { pins.now ≡ map func_pins funcs.now }
        ensures { IfOk result (λ _. self.new.code ≡ fold with_function self.old.code funcs.now) }
    {
        for (place, func) in funcs.iter().enumerate() {
            self.function(func, &pins[place])?;
        }
        Ok(())
    }
}
