//! The words of traps and of bad frees.

ghost use Rattle.std.specs.Prelude.{◌≡◌};
ghost use Rattle.bad_free_report.specs.Report.{reason_words, trap_word};

use hs_base::{Reason, TrapKind};

/// The word of a trap.
pub(crate) fn trap_word(kind: TrapKind) -> &'static [u8]
    ensures { result.now ≡ trap_word kind }
{
    match kind {
        TrapKind::Null => b"null",
        TrapKind::Bounds => b"bounds",
        TrapKind::Align => b"align",
        TrapKind::Layout => b"layout",
        TrapKind::Range => b"range",
        TrapKind::Objects => b"objects",
        TrapKind::Divide => b"divide",
        TrapKind::Shift => b"shift",
        TrapKind::Abort => b"abort",
    }
}

/// The words of a bad free.
pub(crate) fn reason_words(reason: Reason) -> &'static [u8]
    ensures { result.now ≡ reason_words reason }
{
    match reason {
        Reason::Held => b"held",
        Reason::Again => b"again",
        Reason::NotStart => b"not a start",
    }
}
