//! Why no byte was read.

use hs_base::{End, Failed};

/// Why no byte was read.
#[derive(Clone, Copy)]
pub(crate) enum Fault {
    /// The input failed.
    Input,
    /// The output failed before the input was asked.
    Output,
}

impl From<Failed> for Fault {
    ghost use Rattle.std.specs.Prelude.{◌≡◌};
    ghost use Rattle.flat_machine.specs.declared.fault.Fault.TheVariants as fault;

    ghost from_gives = { λ _ e. e ≡ fault.Output };

    fn from(_: Failed) -> Fault {
        Fault::Output
    }
}

impl Fault {
    ghost use Rattle.std.specs.Prelude.{◌≡◌};
    ghost use Rattle.flat_machine.specs.Faults.{end_of_fault};

    /// The end of a run that reads no byte.
    pub(crate) fn end(self) -> End
        ensures { result ≡ end_of_fault self }
    {
        match self {
            Fault::Input => End::InputFault,
            Fault::Output => End::OutputFault,
        }
    }
}
