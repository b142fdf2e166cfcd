//! Why units are not merged.

ghost use Rattle.std.specs.Prelude.{◌≡◌};

use hs_base::{Items, Line, NoMemory};
use std::alloc::{AllocError, AllocFailed};

/// Why units are not merged.
#[derive(Debug, Drop)]
pub enum MergeError {
    /// Two units say what may not be said of one name twice. The line is that of the later place.
    Conflict { name: Items<u8>, line: Line },
    /// Memory was wanted and there was none.
    NoMemory,
}

impl From<NoMemory> for MergeError {
    ghost use Rattle.std.specs.Prelude.{◌≡◌};
    ghost use Rattle.c_units.specs.declared.error.MergeError.TheVariants.{NoMemory};

    ghost from_gives = { λ _ e. e ≡ NoMemory };

    fn from(_: NoMemory) -> MergeError {
        MergeError::NoMemory
    }
}

impl<T: Drop> From<AllocFailed<T>> for MergeError {
    ghost use Rattle.std.specs.Prelude.{◌≡◌};
    ghost use Rattle.c_units.specs.declared.error.MergeError.TheVariants.{NoMemory};

    ghost from_gives = { λ _ e. e ≡ NoMemory };

    fn from(_: AllocFailed<T>) -> MergeError {
        MergeError::NoMemory
    }
}

impl From<AllocError> for MergeError {
    ghost use Rattle.std.specs.Prelude.{◌≡◌};
    ghost use Rattle.c_units.specs.declared.error.MergeError.TheVariants.{NoMemory};

    ghost from_gives = { λ _ e. e ≡ NoMemory };

    fn from(_: AllocError) -> MergeError {
        MergeError::NoMemory
    }
}
