//! Classes of bytes.

ghost use Rattle.std.specs.Prelude.{◌≡◌};
ghost use Rattle.c_lexer.specs.Bytes.{is_space, is_blank, is_letter, is_digit, is_name_byte, is_number_byte, is_octal_digit, is_hexadecimal_digit, is_mark, class_of};

/// What a piece of a text is by its first byte.
#[derive(Clone, Copy, Debug, PartialEq, Eq)]
pub enum ByteClass {
    /// White space, a gap of one byte.
    Space,
    /// A letter or an underscore, which begins a name or a keyword.
    Letter,
    /// A decimal digit, which begins a number.
    Digit,
    /// A quote, which begins a character constant or a string literal.
    Quote,
    /// A `#`, which begins a directive.
    Hash,
    /// A `/`, which begins a comment or is a sign.
    Slash,
    /// A byte that begins a sign.
    Mark,
    /// Any other byte, which begins nothing.
    Other,
}

/// Whether a byte is white space: the space, or one of bytes 9 to 13 (C99 6.4).
#[tactic(auto, unfolding(crate::specs::Bytes::is_space))]
pub fn is_space(byte: u8) -> bool
    ensures { result ≡ is_space byte }
{
    byte == b' ' || matches!(byte, 9..=13)
}

/// Whether a byte may stand between the words of a directive (C99 6.10): the space or byte 9.
#[tactic(auto, unfolding(crate::specs::Bytes::is_blank))]
pub(crate) fn is_blank(byte: u8) -> bool
    ensures { result ≡ is_blank byte }
{
    byte == b' ' || byte == b'\t'
}

/// Whether a byte is a letter or an underscore (C99 6.4.2.1).
#[tactic(auto, unfolding(crate::specs::Bytes::is_letter))]
pub(crate) fn is_letter(byte: u8) -> bool
    ensures { result ≡ is_letter byte }
{
    matches!(byte, b'a'..=b'z' | b'A'..=b'Z' | b'_')
}

/// Whether a byte is a decimal digit.
#[tactic(auto, unfolding(crate::specs::Bytes::is_digit))]
pub(crate) fn is_digit(byte: u8) -> bool
    ensures { result ≡ is_digit byte }
{
    matches!(byte, b'0'..=b'9')
}

/// Whether a byte goes on with a name: a letter, a decimal digit or an underscore (C99 6.4.2.1).
#[tactic(auto, unfolding(crate::specs::Bytes::is_name_byte))]
pub fn is_name_byte(byte: u8) -> bool
    ensures { result ≡ is_name_byte byte }
{
    is_letter(byte) || is_digit(byte)
}

/// Whether a byte goes on with a number, whatever its form.
#[tactic(auto, unfolding(crate::specs::Bytes::is_number_byte))]
pub(crate) fn is_number_byte(byte: u8) -> bool
    ensures { result ≡ is_number_byte byte }
{
    is_name_byte(byte) || byte == b'.'
}

/// Whether a byte is an octal digit.
#[tactic(auto, unfolding(crate::specs::Bytes::is_octal_digit))]
pub(crate) fn is_octal_digit(byte: u8) -> bool
    ensures { result ≡ is_octal_digit byte }
{
    matches!(byte, b'0'..=b'7')
}

/// Whether a byte is a hexadecimal digit.
#[tactic(auto, unfolding(crate::specs::Bytes::is_hexadecimal_digit))]
pub(crate) fn is_hexadecimal_digit(byte: u8) -> bool
    ensures { result ≡ is_hexadecimal_digit byte }
{
    matches!(byte, b'0'..=b'9' | b'a'..=b'f' | b'A'..=b'F')
}

/// Whether a byte is a sign of one byte other than `/`.
#[tactic(auto, unfolding(crate::specs::Bytes::is_mark))]
pub(crate) fn is_mark(byte: u8) -> bool
    ensures { result ≡ is_mark byte }
{
    b"[](){}.&*+-~!%<>^|?:;=,".contains(&byte)
}

/// What a byte begins.
#[tactic(auto, unfolding(crate::specs::Bytes::class_of))]
pub(crate) fn class_of(byte: u8) -> ByteClass
    ensures { result ≡ class_of byte }
{
    if is_space(byte) {
        ByteClass::Space
    } else if is_letter(byte) {
        ByteClass::Letter
    } else if is_digit(byte) {
        ByteClass::Digit
    } else if byte == b'\'' || byte == b'"' {
        ByteClass::Quote
    } else if byte == b'#' {
        ByteClass::Hash
    } else if byte == b'/' {
        ByteClass::Slash
    } else if is_mark(byte) {
        ByteClass::Mark
    } else {
        ByteClass::Other
    }
}
