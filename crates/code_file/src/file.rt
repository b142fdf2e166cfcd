//! What a code file has.

ghost use Rattle.std.specs.Prelude.{◌≡◌};

use core_tree::Core;
use flat_code::Code;
use hs_base::NoMemory;
use thiserror::Error;

/// A code, and the names of what it has: the statics and functions of `names` stand for those of `code`. Nothing else is in
/// `names`: its bodies, starts and lists of formats are empty, and each layout has size 0, alignment 1 and no slots.
#[derive(Debug, Drop)]
pub struct CodeFile {
    pub code: Code,
    pub names: Core,
}

/// Why bytes give no code file.
#[derive(Clone, Copy, Debug, PartialEq, Eq, Error)]
pub enum CodeError {
    /// They are those of no code file.
    #[error("not a code file")]
    Form,
    /// Memory was wanted and there was none.
    #[error("no memory")]
    NoMemory,
}

impl From<NoMemory> for CodeError {
    ghost use Rattle.code_file.specs.declared.file.CodeError.TheVariants as error;

    ghost from_gives = { λ _ e. e ≡ error.NoMemory };

    fn from(_: NoMemory) -> CodeError {
        CodeError::NoMemory
    }
}
