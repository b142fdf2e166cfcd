//! Numbers written in a base.

ghost use Rattle.std.specs.Prelude.{◌≡◌, ◌≤◌, ◌<◌, ◌⊎◌, drop};
ghost use Rattle.std.specs.Fmt.{digit_glyph};
ghost use Rattle.c_print.specs.Print.{numeral};

/// The length of the longest numeral of 64 bits in base 8.
pub(crate) const LONGEST: usize = 22;

/// A digit below 16 as a byte.
fn glyph(capital: bool, digit: u64) -> u8
    requires { digit < 16 }
    ensures { result ≡ digit_glyph capital digit }
{
    let digit = digit as u8;
    match digit {
        0..=9 => b'0' + digit,
        _ if capital => b'A' - 10 + digit,
        _ => b'a' - 10 + digit,
    }
}

/// Writes a number in base 8 or 16 at the end of the buffer, and answers where it starts.
pub(crate) fn write_numeral(
    number: u64,
    base: u64,
    capital: bool,
    buffer: &mut [u8; LONGEST],
) -> usize
    requires { (base ≡ 8) ⊎ (base ≡ 16) }
    ensures within { result ≤ 22 }
    ensures written { drop result buffer.new ≡ numeral base capital number }
{
    let mut start = LONGEST - 1;
    buffer[start] = glyph(capital, number % base);
    let mut left = number / base;
    while left > 0 {
        start -= 1;
        buffer[start] = glyph(capital, left % base);
        left /= base;
    }
    start
}
