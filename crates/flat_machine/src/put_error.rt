//! Why not all was written.

ghost use Rattle.std.specs.Prelude.{◌≡◌};
ghost use Rattle.flat_machine.specs.Putting.{end_of_put};

use hs_base::{End, Failed, Line, TrapKind};

/// Why not all was written.
#[derive(Clone, Copy)]
pub(crate) enum PutError {
    /// The output failed.
    Failed,
    /// The string that stands next traps where it is read, so nothing of it was written.
    Trapped(TrapKind),
}

impl From<Failed> for PutError {
    ghost use Rattle.flat_machine.specs.declared.put_error.PutError.TheVariants as error;

    ghost from_gives = { λ _ e. e ≡ error.Failed };

    fn from(_: Failed) -> PutError {
        PutError::Failed
    }
}

impl PutError {
    /// The end of a run whose instruction on this line could not write all.
    pub(crate) fn end(self, line: Line) -> End
        ensures { result ≡ end_of_put line self }
    {
        match self {
            PutError::Failed => End::OutputFault,
            PutError::Trapped(kind) => End::Trap(kind, line),
        }
    }
}
