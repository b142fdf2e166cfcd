//! Reading an item of a format.

ghost use Rattle.std.specs.Prelude.{◌≡◌, ◌≢◌, ◌<◌, ◌∷◌, ◌++◌, true, MatchOption, IfSome, IsNone, slice_index, codes};
ghost use Rattle.std.specs.List.{list_all, prefix_len};
ghost use Rattle.std.specs.Char.{is_ascii_digit};
ghost use Rattle.c_print.specs.Item.{is_flag, StartsOutside, WritesWidth, WritesNoWidth, ReadsConversion, HasNoConversion, HasNoItem};
ghost use Rattle.c_print.specs.Length.{is_one_of};
ghost use Rattle.c_print.specs.Format.{ReadsPiece};

use crate::length::split_length;
use crate::piece::Piece;
use hs_base::IntKind;

/// The greatest width of an item.
const WIDEST: u32 = 4095;

/// How many flags stand at the front.
fn flags_len(bytes: &[u8]) -> usize
    ensures { result ≡ prefix_len is_flag bytes.now }
{
    bytes
        .iter()
        .take_while(|byte| matches!(**byte, b'-' | b'0'))
        .count()
}

/// How many digits stand at the front.
fn digits_len(bytes: &[u8]) -> usize
    ensures { result ≡ prefix_len is_ascii_digit bytes.now }
{
    bytes
        .iter()
        .take_while(|byte| byte.is_ascii_digit())
        .count()
}

/// The flags at the front, and the bytes behind them.
fn split_flags(bytes: &[u8]) -> (&[u8], &[u8])
    ensures whole { bytes.now ≡ result.0.now ++ result.1.now }
    ensures front { list_all is_flag result.0.now ≡ true }
    ensures longest { StartsOutside is_flag result.1.now }
{
    bytes.split_at(flags_len(bytes))
}

/// The digits at the front, and the bytes behind them.
fn split_digits(bytes: &[u8]) -> (&[u8], &[u8])
    ensures whole { bytes.now ≡ result.0.now ++ result.1.now }
    ensures front { list_all is_ascii_digit result.0.now ≡ true }
    ensures longest { StartsOutside is_ascii_digit result.1.now }
{
    bytes.split_at(digits_len(bytes))
}

/// Does the conversion print text?
fn is_text(conv: u8) -> bool
    ensures { result ≡ is_one_of (codes "cs") conv }
{
    matches!(conv, b'c' | b's')
}

/// The width that these digits write, if it is not too great. No digits are no width.
fn width_of(digits: &[u8]) -> Option<u32>
    requires digits { list_all is_ascii_digit digits.now ≡ true }
    requires no_leading_zero { slice_index digits.now 0 ≢ 48 }
    ensures { MatchOption result (WritesNoWidth digits.now) (WritesWidth digits.now) }
{
    let mut width = 0;
    for digit in digits {
        width = width * 10 + u32::from(*digit - b'0');
        if width > WIDEST {
            return None;
        }
    }
    Some(width)
}

/// The conversion at the front with the kind of its number, and the bytes behind it.
fn read_conversion(bytes: &[u8]) -> Option<(u8, IntKind, &[u8])>
    ensures some { IfSome result (λ r. ReadsConversion bytes.now r.0 r.1 r.2.now) }
    ensures none { IsNone result → HasNoConversion bytes.now }
{
    let (length, rest) = split_length(bytes);
    let [conv, rest @ ..] = rest else {
        return None;
    };
    let kind = length.kind(*conv)?;
    Some((*conv, kind, rest))
}

/// The item at the front, behind its percent sign, and the bytes behind it.
pub(crate) fn read_item(bytes: &[u8]) -> Option<(Piece, &[u8])>
    ensures some { IfSome result (λ r. ReadsPiece (37 ∷ bytes.now) r.0 r.1.now) }
    ensures none { IsNone result → HasNoItem bytes.now }
{
    let (flags, rest) = split_flags(bytes);
    let (digits, rest) = split_digits(rest);
    let width = width_of(digits)?;
    let (conv, kind, rest) = read_conversion(rest)?;
    let left = flags.contains(&b'-');
    let zeros = flags.contains(&b'0');
    if zeros && is_text(conv) {
        return None;
    }
    Some((
        Piece::Item {
            left,
            zeros,
            width,
            conv,
            kind,
        },
        rest,
    ))
}
