//! The operands of conditions.

ghost use Rattle.std.specs.Prelude.{◌≡◌, IfSome, ◌<◌};
ghost use Rattle.c_conditions.specs.Operands.{few, truth, is_true, as_unsigned, signed_places, places};

/// An operand: a number of 64 bits, signed as `intmax_t` is or unsigned as `uintmax_t` is. The number is missing where evaluating
/// it overflows, divides by zero or shifts too far.
#[derive(Clone, Copy, Debug, PartialEq, Eq)]
pub(crate) enum Operand {
    Signed(Option<i64>),
    Unsigned(Option<u64>),
}

/// A count of places, where it is less than 64.
fn few(count: u64) -> Option<u32>
    ensures places { result ≡ few count }
    ensures bound { IfSome result (λ places. places < 64) }
{
    if count < 64 { Some(count as u32) } else { None }
}

/// The same of a signed count, which may be less than 0.
fn signed_places(count: i64) -> Option<u32>
    ensures places { result ≡ signed_places count }
    ensures bound { IfSome result (λ places. places < 64) }
{
    if count < 0 { None } else { few(count as u64) }
}

impl Operand {
    /// 1 or 0, as a test answers it.
    pub(crate) fn truth(holds: Option<bool>) -> Operand
        ensures { result ≡ truth holds }
    {
        match holds {
            None => Operand::Signed(None),
            Some(holds) => Operand::Signed(Some(if holds { 1 } else { 0 })),
        }
    }

    /// Whether the operand is not zero.
    pub(crate) fn is_true(self) -> Option<bool>
        ensures { result ≡ is_true self }
    {
        match self {
            Operand::Signed(number) => number.map(|number| number != 0),
            Operand::Unsigned(number) => number.map(|number| number != 0),
        }
    }

    /// The operand as an unsigned number (C99 6.3.1.3).
    pub(crate) fn as_unsigned(self) -> Option<u64>
        ensures { result ≡ as_unsigned self }
    {
        match self {
            Operand::Signed(number) => number.map(|number| number.cast_unsigned()),
            Operand::Unsigned(number) => number,
        }
    }

    /// By how many places the operand shifts, where these are from 0 to 63 (C99 6.5.7).
    pub(crate) fn places(self) -> Option<u32>
        ensures places { result ≡ places self }
        ensures bound { IfSome result (λ places. places < 64) }
    {
        match self {
            Operand::Signed(Some(count)) => signed_places(count),
            Operand::Unsigned(Some(count)) => few(count),
            Operand::Signed(None) | Operand::Unsigned(None) => None,
        }
    }
}
