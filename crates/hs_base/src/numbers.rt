//! Integer arithmetic of each kind: the operands are converted to the kind first and the result last (C99 6.3.1.3).
//! A value may come in as any number.
ghost use Rattle.std.specs.Prelude.{◌≡◌, ◌≤◌, ◌<◌, ◌^◌, ◌↔◌, IsTrue, IfSome};
ghost use Rattle.hs_base.specs.Numbers.{is_signed, width, wrapped, low_bits};
ghost use Rattle.hs_base.specs.Arithmetic.{IsInRange, and_of, complement_of, difference_of, greatest, least, left_shift_of, negation_of, or_of, places_of, product_of, quotient_of, remainder_of, right_shift_of, sum_of, width_in_bits, xor_of};

use crate::IntKind;

impl IntKind {
    /// The width in bytes (C99 5.2.4.2.1).
    #[inline(always)]
    pub fn bytes(self) -> u32
        ensures { result ≡ width self }
    {
        match self {
            IntKind::I8 | IntKind::U8 => 1,
            IntKind::I16 | IntKind::U16 => 2,
            IntKind::I32 | IntKind::U32 => 4,
            IntKind::I64 | IntKind::U64 => 8,
        }
    }

    /// The width in bits.
    #[inline(always)]
    pub fn bits(self) -> u32
        ensures value { result ≡ width_in_bits self }
        ensures bound { result ≤ 64 }
    {
        8 * self.bytes()
    }

    /// Whether the kind has negative numbers.
    #[inline(always)]
    pub fn is_signed(self) -> bool
        ensures { result ≡ is_signed self }
    {
        matches!(
            self,
            IntKind::I8 | IntKind::I16 | IntKind::I32 | IntKind::I64
        )
    }

    /// The least number of the kind.
    #[inline(always)]
    pub fn least(self) -> i128
        ensures { result ≡ least self }
    {
        match self {
            IntKind::I8 => i8::MIN as i128,
            IntKind::I16 => i16::MIN as i128,
            IntKind::I32 => i32::MIN as i128,
            IntKind::I64 => i64::MIN as i128,
            IntKind::U8 | IntKind::U16 | IntKind::U32 | IntKind::U64 => 0,
        }
    }

    /// The greatest number of the kind.
    #[inline(always)]
    pub fn greatest(self) -> i128
        ensures { result ≡ greatest self }
    {
        match self {
            IntKind::I8 => i8::MAX as i128,
            IntKind::U8 => u8::MAX as i128,
            IntKind::I16 => i16::MAX as i128,
            IntKind::U16 => u16::MAX as i128,
            IntKind::I32 => i32::MAX as i128,
            IntKind::U32 => u32::MAX as i128,
            IntKind::I64 => i64::MAX as i128,
            IntKind::U64 => u64::MAX as i128,
        }
    }

    /// The number converted to the kind: its low bits, read as the kind reads them (C99 6.3.1.3).
    #[inline(always)]
    pub fn wrap(self, n: i128) -> i128
        ensures value { result ≡ wrapped self n }
        ensures in_range { IsInRange self result }
    {
        let low = lowest_bits(n, self.bits());
        match self {
            IntKind::I8 => (low as u8).cast_signed() as i128,
            IntKind::I16 => (low as u16).cast_signed() as i128,
            IntKind::I32 => (low as u32).cast_signed() as i128,
            IntKind::I64 => low.cast_signed() as i128,
            IntKind::U8 | IntKind::U16 | IntKind::U32 | IntKind::U64 => low as i128,
        }
    }

    /// Whether the kind has this number, so that a conversion to the kind keeps it.
    #[inline(always)]
    pub fn holds(self, n: i128) -> bool
        ensures { IsTrue result ↔ (wrapped self n ≡ n) }
    {
        self.wrap(n) == n
    }

    /// The number with its sign changed (C99 6.5.3.3). The least number of a signed kind stays as it is.
    #[inline(always)]
    pub fn negate(self, a: i128) -> i128
        ensures value { result ≡ negation_of self a }
        ensures in_range { IsInRange self result }
    {
        self.wrap(a.wrapping_neg())
    }

    /// The number with each bit changed (C99 6.5.3.3).
    #[inline(always)]
    pub fn complement(self, a: i128) -> i128
        ensures value { result ≡ complement_of self a }
        ensures in_range { IsInRange self result }
    {
        self.wrap(!a)
    }

    /// The sum (C99 6.5.6).
    #[inline(always)]
    pub fn add(self, a: i128, b: i128) -> i128
        ensures value { result ≡ sum_of self a b }
        ensures in_range { IsInRange self result }
    {
        self.wrap(a.wrapping_add(b))
    }

    /// The difference (C99 6.5.6).
    #[inline(always)]
    pub fn sub(self, a: i128, b: i128) -> i128
        ensures value { result ≡ difference_of self a b }
        ensures in_range { IsInRange self result }
    {
        self.wrap(a.wrapping_sub(b))
    }

    /// The product (C99 6.5.5).
    #[inline(always)]
    pub fn mul(self, a: i128, b: i128) -> i128
        ensures value { result ≡ product_of self a b }
        ensures in_range { IsInRange self result }
    {
        self.wrap(a.wrapping_mul(b))
    }

    /// The quotient, rounded toward zero (C99 6.5.5), or `None` where the divisor converts to 0. The least number
    /// divided by -1 gives itself.
    #[inline(always)]
    pub fn divide(self, a: i128, b: i128) -> Option<i128>
        ensures value { result ≡ quotient_of self a b }
        ensures in_range { IfSome result (IsInRange self) }
    {
        let divisor = self.wrap(b);
        if divisor == 0 {
            None
        } else {
            Some(self.wrap(self.wrap(a) / divisor))
        }
    }

    /// The remainder, which has the sign of the dividend (C99 6.5.5), or `None` where the divisor converts to 0.
    #[inline(always)]
    pub fn remainder(self, a: i128, b: i128) -> Option<i128>
        ensures value { result ≡ remainder_of self a b }

        // The quotient times the divisor, plus the remainder, is the dividend.
        ensures whole { IfSome result (λ r. IfSome (quotient_of self a b)
            (λ q. sum_of self (product_of self q b) r ≡ wrapped self a)) }
        ensures in_range { IfSome result (IsInRange self) }
    {
        let divisor = self.wrap(b);
        if divisor == 0 {
            None
        } else {
            Some(self.wrap(self.wrap(a) % divisor))
        }
    }

    /// The bits that both numbers have (C99 6.5.10).
    #[inline(always)]
    pub fn and(self, a: i128, b: i128) -> i128
        ensures value { result ≡ and_of self a b }
        ensures in_range { IsInRange self result }
    {
        self.wrap(a & b)
    }

    /// The bits that one number has alone (C99 6.5.11).
    #[inline(always)]
    pub fn xor(self, a: i128, b: i128) -> i128
        ensures value { result ≡ xor_of self a b }
        ensures in_range { IsInRange self result }
    {
        self.wrap(a ^ b)
    }

    /// The bits that one number or both have (C99 6.5.12).
    #[inline(always)]
    pub fn or(self, a: i128, b: i128) -> i128
        ensures value { result ≡ or_of self a b }
        ensures in_range { IsInRange self result }
    {
        self.wrap(a | b)
    }

    /// The number times two to the count (C99 6.5.7), or `None` where the count is below 0 or not below the width.
    #[inline(always)]
    pub fn shift_left(self, a: i128, count: i128) -> Option<i128>
        ensures value { result ≡ left_shift_of self a count }
        ensures in_range { IfSome result (IsInRange self) }
    {
        match self.places(count) {
            Some(places) => Some(self.wrap(a << places)),
            None => None,
        }
    }

    /// The number divided by two to the count and rounded down (C99 6.5.7 leaves open how a negative number is
    /// shifted: its sign bit comes in), or `None` where the count is below 0 or not below the width.
    #[inline(always)]
    pub fn shift_right(self, a: i128, count: i128) -> Option<i128>
        ensures value { result ≡ right_shift_of self a count }
        ensures in_range { IfSome result (IsInRange self) }
    {
        match self.places(count) {
            Some(places) => Some(self.wrap(self.wrap(a) >> places)),
            None => None,
        }
    }

    /// By how many places a count shifts, or `None` where it is below 0 or not below the width.
    #[inline(always)]
    fn places(self, count: i128) -> Option<u32>
        ensures value { result ≡ places_of self count }
        ensures bound { IfSome result (λ n. n < 64) }
    {
        if 0 <= count && count < self.bits() as i128 {
            Some(count as u32)
        } else {
            None
        }
    }
}

/// So many of the lowest bits of a number in two's complement.
fn lowest_bits(n: i128, count: u32) -> u64
    requires { count ≤ 64 }
    ensures value { result ≡ low_bits count n }
    ensures bound { result < 2 ^ count }
{
    (n.cast_unsigned() & ((1 << count) - 1)) as u64
}
