//! Why an operation on objects or numbers is refused.

use hs_base::{NoMemory, TrapKind};
use std::alloc::{AllocError, AllocFailed};

/// Why an operation is refused.
#[derive(Clone, Copy, Debug, PartialEq, Eq)]
pub enum Refusal {
    /// The statement traps.
    Trapped(TrapKind),
    /// A pointer to a dead object is read. No run of a sound core does.
    ReadsDead,
    /// Memory was wanted and there was none.
    NoMemory,
}

impl From<NoMemory> for Refusal {
    ghost use Rattle.std.specs.Prelude.{◌≡◌};
    ghost use Rattle.meaning_state.specs.declared.refusal.Refusal.TheVariants as refusal;

    ghost from_gives = { λ _ e. e ≡ refusal.NoMemory };

    fn from(_: NoMemory) -> Refusal {
        Refusal::NoMemory
    }
}

impl From<AllocError> for Refusal {
    ghost use Rattle.std.specs.Prelude.{◌≡◌};
    ghost use Rattle.meaning_state.specs.declared.refusal.Refusal.TheVariants as refusal;

    ghost from_gives = { λ _ e. e ≡ refusal.NoMemory };

    fn from(_: AllocError) -> Refusal {
        Refusal::NoMemory
    }
}

impl<T: Drop> From<AllocFailed<T>> for Refusal {
    ghost use Rattle.std.specs.Prelude.{◌≡◌};
    ghost use Rattle.meaning_state.specs.declared.refusal.Refusal.TheVariants as refusal;

    ghost from_gives = { λ _ e. e ≡ refusal.NoMemory };

    fn from(_: AllocFailed<T>) -> Refusal {
        Refusal::NoMemory
    }
}
