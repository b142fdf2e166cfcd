//! Names and keywords.

ghost use Rattle.std.specs.Prelude.{◌≡◌};
ghost use Rattle.c_lexer.specs.Names.{is_keyword, name_kind};

use crate::token::TokenKind;
use crate::words::is_among;

/// Whether a word is a keyword of C99 6.4.1, or `__delay_frees`.
#[tactic(auto, unfolding(crate::specs::Names::is_keyword))]
pub(crate) fn is_keyword(word: &[u8]) -> bool
    ensures { result ≡ is_keyword word.now }
{
    is_among(
        word,
        &[
            b"auto",
            b"break",
            b"case",
            b"char",
            b"const",
            b"continue",
            b"default",
            b"do",
            b"double",
            b"else",
            b"enum",
            b"extern",
            b"float",
            b"for",
            b"goto",
            b"if",
            b"inline",
            b"int",
            b"long",
            b"register",
            b"restrict",
            b"return",
            b"short",
            b"signed",
            b"sizeof",
            b"static",
            b"struct",
            b"switch",
            b"typedef",
            b"union",
            b"unsigned",
            b"void",
            b"volatile",
            b"while",
            b"_Bool",
            b"_Complex",
            b"_Imaginary",
            b"__delay_frees",
        ],
    )
}

/// The kind of a word of letters, digits and underscores that begins with no digit.
pub(crate) fn name_kind(word: &[u8]) -> TokenKind
    ensures { result ≡ name_kind word.now }
{
    if is_keyword(word) {
        TokenKind::Keyword
    } else {
        TokenKind::Name
    }
}
