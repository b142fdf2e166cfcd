//! The code file of a core.

ghost use Rattle.std.specs.Prelude.{IfOk};
ghost use Rattle.compiled_file.specs.CompiledFile.{IsFileOfCore};
ghost use Rattle.core_tree.specs.Sound.{IsSound};

use code_file::{CodeFile, has_short_lists, names_of};
use core_tree::Core;
use count_insertion::{insert, listed_pins_are_exact, live_tables};
use flat_codegen::compile;
use hs_base::NoMemory;
use std::alloc::Global;

/// The code file of a sound core. Its code is that of the core, with exact pins, and is well formed; its names are those of the
/// core; and it can be written: its parts agree and its lists are short. It has no more instructions than the code of a core may
/// have.
///
/// # Errors
///
/// [`NoMemory`], where there is none; no memory holds a list of 2^32 items or more.
pub fn compile_file(alloc: Global, core: &Core) -> Result<CodeFile, NoMemory>
    requires { IsSound core.now }
    ensures { IfOk result (IsFileOfCore core.now) }
{
    listed_pins_are_exact();
    let live = live_tables(alloc, core)?;
    let counted = insert(alloc, core, &live)?;
    let code = compile(alloc, &counted)?;
    if !has_short_lists(&code) {
        return Err(NoMemory);
    }
    let names = names_of(alloc, core)?;
    Ok(CodeFile { code, names })
}
