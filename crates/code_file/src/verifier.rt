//! Whether the code of a code file may be run.

ghost use Rattle.std.specs.Prelude.{◌↔◌, IfOk, IsTrue};
ghost use Rattle.flat_code.specs.WellFormed.{IsWellFormed};

use crate::file::CodeFile;
use code_rules::is_well_formed;
use hs_base::NoMemory;
use std::alloc::Global;

/// Says whether the code of a file is well formed: whether it keeps all rules of flat code, those of paths among them. The
/// pins of each site are the pointer registers that are live behind its instruction by the code's own edges, and the scopes
/// that an instruction finds open are the same on all paths to it.
///
/// # Errors
///
/// [`NoMemory`], where there is none to work in.
pub fn verify(alloc: Global, file: &CodeFile) -> Result<bool, NoMemory>
    ensures { IfOk result (λ b. IsTrue b ↔ IsWellFormed file.now.code) }
{
    is_well_formed(alloc, &file.code)
}
