//! The code of a core as a whole.

ghost use Rattle.std.specs.Prelude.{◌≡◌, ◌<◌, ◌≤◌, ◌+◌, ◌^◌, length, map, pos, IfOk, slice_get};
ghost use Rattle.meaning_laws.specs.code.Laws.{HoldsBytes};
ghost use Rattle.core_tree.specs.Sound.{IsSound, is_main, main_of};
ghost use Rattle.object_meaning.specs.objects.Meaning.{line_of};
ghost use Rattle.count_insertion.specs.Inserted.{func_pins};
ghost use Rattle.object_meaning.specs.compiled.Handing.{instr};
ghost use Rattle.object_meaning.specs.compiled.Compiled.{IsCompiled};
ghost use Rattle.flat_code.specs.WellFormed.{AreShort, IsWellFormed};
ghost use Rattle.flat_codegen.specs.Alike.{RunsAs, RunsAsTested};
ghost use Rattle.flat_codegen.specs.Emitting.{most_instrs};

use crate::emitter::Emitter;
use crate::handing::instr;
use crate::statics::{inits, layouts};
use core_tree::{Core, Func};
use count_insertion::{Counted, listed_pins_are_exact};
use flat_code::{Code, Instr, Op};
use hs_base::{Line, NoMemory};
use meaning_laws::{code_means_core, codes_are_few, codes_are_well_formed};
use std::alloc::Global;

/// Says whether a function is named main.
fn is_main(func: &Func) -> bool
    ensures { result ≡ is_main func.now }
{
    func.name.as_slice() == b"main".as_slice()
}

/// The number of the function named main.
fn main_of(core: &Core) -> usize
    ensures { result ≡ main_of core.now }
{
    let mut place = 0;
    for func in core.funcs.as_slice() {
        if is_main(func) {
            return place;
        }
        place += 1;
    }
    place
}

/// The line of a function's definition.
fn line_of(core: &Core, function: usize) -> Line
    ensures { result ≡ line_of (slice_get core.now.funcs function) }
{
    match core.funcs.get(function) {
        Some(func) => func.line,
        None => 0,
    }
}

/// The first instruction, which calls main.
fn start(main: usize) -> Instr
    requires { main < 2 ^ 32 }
    ensures { result ≡ instr Op.Start 0 0 0 (pos main) }
{
    instr(Op::Start, 0, 0, main as i64)
}

/// The code of a core, as the statements of the core and its pins say it.
fn code_of(alloc: Global, counted: &Counted) -> Result<Code, NoMemory>
    requires sound { IsSound counted.now.core }
    requires listed { counted.now.pins ≡ map func_pins counted.now.core.funcs }
    ensures compiled { IfOk result (λ code. IsCompiled counted.now.core counted.now.pins code) }
    ensures short { IfOk result AreShort }
    ensures bytes { IfOk result HoldsBytes }
{
    let core = &counted.core;
    let statics = inits(alloc, core.statics.as_slice())?;
    let layouts = layouts(alloc, core.statics.as_slice())?;
    let mut emitter = Emitter::new(alloc, statics, layouts);
    let main = main_of(core);
    emitter.push(line_of(core, main), start(main))?;
    emitter.functions(core.funcs.as_slice(), counted.pins.as_slice())?;
    let code = emitter.finish()?;
    Ok(code)
}

/// The code of a sound core with the pins that `count_insertion` lists for it. It is well formed. In a heap of any size its run
/// is that of the core by numbers: the same trace, the same end, the same number for each object, and the same last state, but
/// for the points that frames are at, also where a test of the events cuts both runs off. There are at most 14 instructions for each statement and each operand of the core, one for each function and one at
/// the start.
///
/// # Errors
///
/// [`NoMemory`] only for want of memory.
pub fn compile(alloc: Global, counted: &Counted) -> Result<Code, NoMemory>
    requires sound { IsSound counted.now.core }
    requires listed { counted.now.pins ≡ map func_pins counted.now.core.funcs }
    ensures compiled { IfOk result (λ code. IsCompiled counted.now.core counted.now.pins code) }
    ensures formed { IfOk result IsWellFormed }
    ensures bytes { IfOk result HoldsBytes }
    ensures few { IfOk result (λ code. length code.instrs ≤ most_instrs counted.now.core) }
    ensures means { IfOk result (RunsAs counted.now.core counted.now.pins) }
    ensures tested { IfOk result (RunsAsTested counted.now.core counted.now.pins) }
{
    codes_are_well_formed();
    codes_are_few();
    code_means_core();
    listed_pins_are_exact();
    code_of(alloc, counted)
}
