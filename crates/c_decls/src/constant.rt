//! Integer constants, and the operators on them (C99 6.5, 6.6).

ghost use Rattle.std.specs.Prelude.{◌≡◌, pos, not, int_lt, int_le, option_map};
ghost use Rattle.std.specs.Ordering.{int_eq};
ghost use Rattle.hs_base.specs.Arithmetic.{IsInRange, and_of, complement_of, difference_of, left_shift_of, negation_of, or_of, product_of, quotient_of, remainder_of, right_shift_of, sum_of, xor_of};
ghost use Rattle.hs_base.specs.Numbers.{wrapped};
ghost use Rattle.c_types.specs.Types.{kind_of};
ghost use Rattle.c_decls.specs.IntegerTypes.{promoted, common_type};
ghost use Rattle.c_decls.specs.Constants.{typed, converted, truth, on_promoted, on_common, quotient_on_common, shifted, compared};

use crate::integers::{common_type, promoted};
use c_types::IntType;

/// The value of an integer constant expression, with its type.
#[derive(Clone, Copy, Debug, PartialEq, Eq)]
pub struct Constant {
    pub ty: IntType,
    pub value: i128,
}

/// 1 or 0, of type `int`, as a comparison answers.
fn truth(holds: bool) -> Constant
    ensures { result ≡ truth holds }
{
    Constant {
        ty: IntType::Int,
        value: if holds { 1 } else { 0 },
    }
}

/// A result with its type, where there is one.
fn with_type(ty: IntType, value: Option<i128>) -> Option<Constant>
    ensures { result ≡ option_map (typed ty) value }
{
    value.map(|value| Constant { ty, value })
}

impl Constant {
    /// The constant converted to a type: its low bits, read as the type reads them (C99 6.3.1.3).
    pub fn convert(self, ty: IntType) -> Constant
        ensures { result ≡ converted ty self }
    {
        Constant {
            ty,
            value: ty.kind().wrap(self.value),
        }
    }

    /// The constant after the integer promotions, as unary `+` answers (C99 6.5.3.3).
    pub fn promote(self) -> Constant
        ensures { result ≡ converted (promoted self.ty) self }
    {
        self.convert(promoted(self.ty))
    }

    /// Whether the constant is zero.
    pub fn is_zero(self) -> bool
        ensures { result ≡ int_eq self.value (pos 0) }
    {
        self.value == 0
    }

    /// Unary `-` (C99 6.5.3.3). The least value stays as it is.
    pub fn negate(self) -> Constant
        ensures { result ≡ on_promoted negation_of self }
    {
        let ty = promoted(self.ty);
        Constant {
            ty,
            value: ty.kind().negate(self.value),
        }
    }

    /// `~` (C99 6.5.3.3).
    pub fn complement(self) -> Constant
        ensures { result ≡ on_promoted complement_of self }
    {
        let ty = promoted(self.ty);
        Constant {
            ty,
            value: ty.kind().complement(self.value),
        }
    }

    /// `!` (C99 6.5.3.3).
    pub fn negated_truth(self) -> Constant
        ensures { result ≡ truth (int_eq self.value (pos 0)) }
    {
        truth(self.is_zero())
    }

    /// `+` (C99 6.5.6).
    pub fn add(self, other: Constant) -> Constant
        ensures { result ≡ on_common sum_of self other }
    {
        let ty = common_type(self.ty, other.ty);
        Constant {
            ty,
            value: ty.kind().add(self.value, other.value),
        }
    }

    /// Binary `-` (C99 6.5.6).
    pub fn sub(self, other: Constant) -> Constant
        ensures { result ≡ on_common difference_of self other }
    {
        let ty = common_type(self.ty, other.ty);
        Constant {
            ty,
            value: ty.kind().sub(self.value, other.value),
        }
    }

    /// `*` (C99 6.5.5).
    pub fn mul(self, other: Constant) -> Constant
        ensures { result ≡ on_common product_of self other }
    {
        let ty = common_type(self.ty, other.ty);
        Constant {
            ty,
            value: ty.kind().mul(self.value, other.value),
        }
    }

    /// `&` (C99 6.5.10).
    pub fn and(self, other: Constant) -> Constant
        ensures { result ≡ on_common and_of self other }
    {
        let ty = common_type(self.ty, other.ty);
        Constant {
            ty,
            value: ty.kind().and(self.value, other.value),
        }
    }

    /// `^` (C99 6.5.11).
    pub fn xor(self, other: Constant) -> Constant
        ensures { result ≡ on_common xor_of self other }
    {
        let ty = common_type(self.ty, other.ty);
        Constant {
            ty,
            value: ty.kind().xor(self.value, other.value),
        }
    }

    /// `|` (C99 6.5.12).
    pub fn or(self, other: Constant) -> Constant
        ensures { result ≡ on_common or_of self other }
    {
        let ty = common_type(self.ty, other.ty);
        Constant {
            ty,
            value: ty.kind().or(self.value, other.value),
        }
    }

    /// `/` (C99 6.5.5), or `None` where the divisor is zero.
    pub fn divide(self, other: Constant) -> Option<Constant>
        ensures { result ≡ quotient_on_common quotient_of self other }
    {
        let ty = common_type(self.ty, other.ty);
        with_type(ty, ty.kind().divide(self.value, other.value))
    }

    /// `%` (C99 6.5.5), or `None` where the divisor is zero.
    pub fn remainder(self, other: Constant) -> Option<Constant>
        ensures { result ≡ quotient_on_common remainder_of self other }
    {
        let ty = common_type(self.ty, other.ty);
        with_type(ty, ty.kind().remainder(self.value, other.value))
    }

    /// `<<` (C99 6.5.7), or `None` where the count is below 0 or not below the width of the promoted left operand.
    pub fn shift_left(self, count: Constant) -> Option<Constant>
        ensures { result ≡ shifted left_shift_of self count }
    {
        let ty = promoted(self.ty);
        with_type(ty, ty.kind().shift_left(self.value, count.value))
    }

    /// `>>` (C99 6.5.7), or `None` where the count is below 0 or not below the width of the promoted left operand.
    pub fn shift_right(self, count: Constant) -> Option<Constant>
        ensures { result ≡ shifted right_shift_of self count }
    {
        let ty = promoted(self.ty);
        with_type(ty, ty.kind().shift_right(self.value, count.value))
    }

    /// The numbers of two constants, converted to their common type (C99 6.3.1.8).
    fn common_values(self, other: Constant) -> (i128, i128)
        ensures first { result.0 ≡ wrapped (kind_of (common_type self.ty other.ty)) self.value }
        ensures second { result.1 ≡ wrapped (kind_of (common_type self.ty other.ty)) other.value }
    {
        let kind = common_type(self.ty, other.ty).kind();
        (kind.wrap(self.value), kind.wrap(other.value))
    }

    /// `==` (C99 6.5.9).
    pub fn equal(self, other: Constant) -> Constant
        ensures { result ≡ compared int_eq self other }
    {
        let (a, b) = self.common_values(other);
        truth(a == b)
    }

    /// `<` (C99 6.5.8).
    pub fn less(self, other: Constant) -> Constant
        ensures { result ≡ compared int_lt self other }
    {
        let (a, b) = self.common_values(other);
        truth(a < b)
    }

    /// `<=` (C99 6.5.8).
    pub fn less_or_equal(self, other: Constant) -> Constant
        ensures { result ≡ compared int_le self other }
    {
        let (a, b) = self.common_values(other);
        truth(a <= b)
    }

    /// `!=` (C99 6.5.9).
    pub fn not_equal(self, other: Constant) -> Constant
        ensures { result ≡ compared (λ m n. not (int_eq m n)) self other }
    {
        let (a, b) = self.common_values(other);
        truth(a != b)
    }

    /// `>` (C99 6.5.8).
    pub fn greater(self, other: Constant) -> Constant
        ensures { result ≡ compared (λ m n. int_lt n m) self other }
    {
        let (a, b) = self.common_values(other);
        truth(a > b)
    }

    /// `>=` (C99 6.5.8).
    pub fn greater_or_equal(self, other: Constant) -> Constant
        ensures { result ≡ compared (λ m n. int_le n m) self other }
    {
        let (a, b) = self.common_values(other);
        truth(a >= b)
    }
}
