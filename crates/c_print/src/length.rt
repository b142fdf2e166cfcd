//! Lengths of an item.

ghost use Rattle.std.specs.Prelude.{◌≡◌, ◌++◌};
ghost use Rattle.c_print.specs.Length.{length_bytes, signed_kind, unsigned_kind, kind_of, IsOnlyLength};

use hs_base::IntKind;

/// What stands before a conversion to say how long its number is.
#[derive(Clone, Copy, Debug, PartialEq, Eq)]
pub(crate) enum Length {
    Absent,
    Hh,
    H,
    L,
    Ll,
    Z,
}

impl Length {
    /// The kind of the number of `d` and `i`.
    fn signed(self) -> Option<IntKind>
        ensures { result ≡ signed_kind self }
    {
        match self {
            Length::Hh => Some(IntKind::I8),
            Length::H => Some(IntKind::I16),
            Length::Absent | Length::L => Some(IntKind::I32),
            Length::Ll => Some(IntKind::I64),
            Length::Z => None,
        }
    }

    /// The kind of the number of `o`, `u`, `x` and `X`.
    fn unsigned(self) -> Option<IntKind>
        ensures { result ≡ unsigned_kind self }
    {
        match self {
            Length::Hh => Some(IntKind::U8),
            Length::H => Some(IntKind::U16),
            Length::Absent | Length::L | Length::Z => Some(IntKind::U32),
            Length::Ll => Some(IntKind::U64),
        }
    }

    /// The kind of the number of a conversion, where it goes together with this length.
    pub(crate) fn kind(self, conv: u8) -> Option<IntKind>
        ensures { result ≡ kind_of self conv }
    {
        match conv {
            b'd' | b'i' => self.signed(),
            b'o' | b'u' | b'x' | b'X' => self.unsigned(),
            b'c' | b's' if self == Length::Absent => Some(IntKind::U8),
            _ => None,
        }
    }
}

/// The length at the front, and the bytes behind it. It is the one that a conversion can follow.
pub(crate) fn split_length(bytes: &[u8]) -> (Length, &[u8])
    ensures whole { bytes.now ≡ length_bytes result.0 ++ result.1.now }
    ensures only { IsOnlyLength bytes.now result.0 result.1.now }
{
    match bytes {
        [b'h', b'h', rest @ ..] => (Length::Hh, rest),
        [b'h', rest @ ..] => (Length::H, rest),
        [b'l', b'l', rest @ ..] => (Length::Ll, rest),
        [b'l', rest @ ..] => (Length::L, rest),
        [b'z', rest @ ..] => (Length::Z, rest),
        _ => (Length::Absent, bytes),
    }
}
