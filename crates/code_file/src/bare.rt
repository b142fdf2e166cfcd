//! The names of a core alone.

ghost use Rattle.std.specs.Prelude.{◌≡◌, ◌<◌, ◌^◌, IfOk, IfSome, map, option_copied};
ghost use Rattle.core_tree.specs.declared.program.Mem.{Mem as CoreMem};
ghost use Rattle.core_tree.specs.declared.program.Reg.{Reg as CoreReg};
ghost use Rattle.core_tree.specs.declared.program.Static.{Static as CoreStatic};
ghost use Rattle.code_file.specs.CodeFile.{IsShortFunction, IsShortNames};
ghost use Rattle.code_file.specs.Names.{bare, bare_function, bare_memory, bare_static};
ghost use Rattle.code_file.specs.Spelling.{IsShort, IsShortList};

use crate::names::{no_layout, no_start};
use crate::shortness::SHORT;
use core_tree::{Core, Func, Mem, Reg, Static};
use hs_base::{Items, NoMemory};
use std::alloc::Global;

/// Refuses a length that no list of a code file has. No memory holds such a list.
fn short(count: usize) -> Result<(), NoMemory>
    ensures { IfOk result (λ _. count < 2 ^ 32) }
{
    if count < SHORT { Ok(()) } else { Err(NoMemory) }
}

/// A copy of a name.
fn name_copy(alloc: Global, name: &[u8]) -> Result<Items<u8>, NoMemory>
    ensures copy { IfOk result (λ copy. copy ≡ name.now) }
    ensures short { IfOk result (λ _. IsShort name.now) }
{
    short(name.len())?;
    Ok(Items::from(name.to_vec(alloc)?))
}

/// A copy of a name that may be missing.
fn optional_copy(alloc: Global, name: Option<&Items<u8>>) -> Result<Option<Items<u8>>, NoMemory>
    ensures copy { IfOk result (λ copy. copy ≡ option_copied name.entry) }
    ensures short { IfOk result (λ copy. IfSome copy IsShort) }
{
    match name {
        Some(name) => Ok(Some(name_copy(alloc, name.as_slice())?)),
        None => Ok(None),
    }
}

/// The names of statics.
fn static_names(alloc: Global, statics: &[Static]) -> Result<Items<Static>, NoMemory>
    ensures names { IfOk result (λ names. names ≡ map bare_static statics.now) }
    ensures short { IfOk result (IsShortList (λ (s : CoreStatic). IfSome s.name IsShort)) }
{
    short(statics.len())?;
    let mut names = Items::new(alloc);
    for item in statics {
        names.push(Static {
            name: optional_copy(alloc, item.name.as_ref())?,
            layout: no_layout(alloc),
            start: no_start(alloc),
        })?;
    }
    Ok(names)
}

/// The names of registers.
fn register_names(alloc: Global, registers: &[Reg]) -> Result<Items<Reg>, NoMemory>
    ensures names { IfOk result (λ names. names ≡ registers.now) }
    ensures short { IfOk result (IsShortList (λ (r : CoreReg). IfSome r.name IsShort)) }
{
    short(registers.len())?;
    let mut names = Items::new(alloc);
    for register in registers {
        names.push(Reg {
            name: optional_copy(alloc, register.name.as_ref())?,
            pointer: register.pointer,
        })?;
    }
    Ok(names)
}

/// The names of memory locals.
fn memory_names(alloc: Global, mems: &[Mem]) -> Result<Items<Mem>, NoMemory>
    ensures names { IfOk result (λ names. names ≡ map bare_memory mems.now) }
    ensures short { IfOk result (IsShortList (λ (m : CoreMem). IsShort m.name)) }
{
    short(mems.len())?;
    let mut names = Items::new(alloc);
    for mem in mems {
        names.push(Mem {
            name: name_copy(alloc, mem.name.as_slice())?,
            layout: no_layout(alloc),
        })?;
    }
    Ok(names)
}

/// The names of a function.
fn function_names(alloc: Global, func: &Func) -> Result<Func, NoMemory>
    ensures names { IfOk result (λ names. names ≡ bare_function func.now) }
    ensures short { IfOk result IsShortFunction }
{
    Ok(Func {
        name: name_copy(alloc, func.name.as_slice())?,
        line: func.line,
        params: func.params,
        regs: register_names(alloc, func.regs.as_slice())?,
        mems: memory_names(alloc, func.mems.as_slice())?,
        body: Items::new(alloc),
        formats: Items::new(alloc),
    })
}

/// The names of functions.
fn names_of_functions(alloc: Global, funcs: &[Func]) -> Result<Items<Func>, NoMemory>
    ensures names { IfOk result (λ names. names ≡ map bare_function funcs.now) }
    ensures short { IfOk result (IsShortList IsShortFunction) }
{
    short(funcs.len())?;
    let mut names = Items::new(alloc);
    for func in funcs {
        names.push(function_names(alloc, func)?)?;
    }
    Ok(names)
}

/// The names of a core: those of its statics, functions, registers and memory locals, with the lines of the functions, and
/// without bodies, starts, formats and layouts. Their lists are short enough for a code file.
///
/// # Errors
///
/// [`NoMemory`], where there is none for the names; no memory holds a list of 2^32 items or more.
pub fn names_of(alloc: Global, core: &Core) -> Result<Core, NoMemory>
    ensures names { IfOk result (λ names. names ≡ bare core.now) }
    ensures short { IfOk result IsShortNames }
{
    Ok(Core {
        statics: static_names(alloc, core.statics.as_slice())?,
        funcs: names_of_functions(alloc, core.funcs.as_slice())?,
    })
}
