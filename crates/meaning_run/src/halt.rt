//! Why a run stops.

ghost use Rattle.std.specs.Prelude.{◌≡◌};
ghost use Rattle.meaning_run.specs.Ending.{halt_of};

use hs_base::{BadFree, Holder, Line, NoMemory, TrapKind};
use meaning_state::Refusal;

/// Why a run stops. It has no word for want of stack, of which the meaning knows nothing.
#[derive(Clone, Copy, Debug, PartialEq, Eq)]
pub enum Halt {
    /// By `exit` or by return from the first call of main, with this status.
    Exit(u8),
    /// At a trap, with its line.
    Trap(TrapKind, Line),
    /// At a wrong free.
    BadFree(BadFree, Option<Holder>),
    /// At a return, where a pointer to a memory local of the ending call is left.
    Escape { func: u32, local: u32, line: Line },
    /// Where one step more would be made than is allowed.
    Spent,
    /// Where a pointer to a dead object is read. No run of a sound core stops there.
    Dangling,
    /// The input failed.
    InputFault,
    /// The output failed.
    OutputFault,
    /// Memory was wanted and there was none.
    NoMemory,
}

impl From<NoMemory> for Halt {
    ghost use Rattle.std.specs.Prelude.{◌≡◌};
    ghost use Rattle.meaning_run.specs.declared.halt.Halt.TheVariants as halt;

    ghost from_gives = { λ _ e. e ≡ halt.NoMemory };

    fn from(_: NoMemory) -> Halt {
        Halt::NoMemory
    }
}

/// What a refused operation of a statement stops with.
pub(crate) fn halt_of(line: Line, refusal: Refusal) -> Halt
    ensures { result ≡ halt_of line refusal }
{
    match refusal {
        Refusal::Trapped(kind) => Halt::Trap(kind, line),
        Refusal::ReadsDead => Halt::Dangling,
        Refusal::NoMemory => Halt::NoMemory,
    }
}
