//! Which word of the grammar a token is.

ghost use Rattle.std.specs.Prelude.{◌≡◌};
ghost use Rattle.c_tree.specs.Words.{keyword_bytes, sign_bytes};
ghost use Rattle.grammar_reading.specs.Known as spec;
ghost use Rattle.grammar_reading.specs.State.{kind_of_word};

use c_lexer::{Token, TokenKind};
use c_tree::{Keyword, Sign};
use grammar_reading::Kind;

const KEYWORDS: [Keyword; 27] = [
    Keyword::Void,
    Keyword::Char,
    Keyword::Short,
    Keyword::Int,
    Keyword::Long,
    Keyword::Signed,
    Keyword::Unsigned,
    Keyword::Struct,
    Keyword::Union,
    Keyword::Enum,
    Keyword::Static,
    Keyword::Extern,
    Keyword::Typedef,
    Keyword::Const,
    Keyword::DelayFrees,
    Keyword::If,
    Keyword::Else,
    Keyword::While,
    Keyword::Do,
    Keyword::For,
    Keyword::Switch,
    Keyword::Case,
    Keyword::Default,
    Keyword::Break,
    Keyword::Continue,
    Keyword::Return,
    Keyword::Sizeof,
];

/// How a keyword is spelled.
#[tactic(auto, unfolding(c_tree::specs::Words::keyword_bytes))]
fn keyword_text(keyword: Keyword) -> &'static [u8]
    ensures { result.now ≡ keyword_bytes keyword }
{
    match keyword {
        Keyword::Void => b"void",
        Keyword::Char => b"char",
        Keyword::Short => b"short",
        Keyword::Int => b"int",
        Keyword::Long => b"long",
        Keyword::Signed => b"signed",
        Keyword::Unsigned => b"unsigned",
        Keyword::Struct => b"struct",
        Keyword::Union => b"union",
        Keyword::Enum => b"enum",
        Keyword::Static => b"static",
        Keyword::Extern => b"extern",
        Keyword::Typedef => b"typedef",
        Keyword::Const => b"const",
        Keyword::DelayFrees => b"__delay_frees",
        Keyword::If => b"if",
        Keyword::Else => b"else",
        Keyword::While => b"while",
        Keyword::Do => b"do",
        Keyword::For => b"for",
        Keyword::Switch => b"switch",
        Keyword::Case => b"case",
        Keyword::Default => b"default",
        Keyword::Break => b"break",
        Keyword::Continue => b"continue",
        Keyword::Return => b"return",
        Keyword::Sizeof => b"sizeof",
    }
}

/// The first of these keywords that has this spelling.
fn keyword_among(keywords: &[Keyword], bytes: &[u8]) -> Kind
    ensures { result ≡ kind_of_word (spec.keyword_among keywords.now bytes.now) }
{
    match keywords {
        [] => Kind::Other,
        [keyword, rest @ ..] => {
            if keyword_text(*keyword) == bytes {
                Kind::Key(*keyword)
            } else {
                keyword_among(rest, bytes)
            }
        }
    }
}

const SIGNS: [Sign; 45] = [
    Sign::LeftBracket,
    Sign::RightBracket,
    Sign::LeftParen,
    Sign::RightParen,
    Sign::LeftBrace,
    Sign::RightBrace,
    Sign::Dot,
    Sign::Arrow,
    Sign::PlusPlus,
    Sign::MinusMinus,
    Sign::Ampersand,
    Sign::Star,
    Sign::Plus,
    Sign::Minus,
    Sign::Tilde,
    Sign::Not,
    Sign::Slash,
    Sign::Percent,
    Sign::ShiftLeft,
    Sign::ShiftRight,
    Sign::Less,
    Sign::Greater,
    Sign::LessEqual,
    Sign::GreaterEqual,
    Sign::EqualEqual,
    Sign::NotEqual,
    Sign::Caret,
    Sign::Bar,
    Sign::AndAnd,
    Sign::OrOr,
    Sign::Question,
    Sign::Colon,
    Sign::Semicolon,
    Sign::Equal,
    Sign::StarEqual,
    Sign::SlashEqual,
    Sign::PercentEqual,
    Sign::PlusEqual,
    Sign::MinusEqual,
    Sign::ShiftLeftEqual,
    Sign::ShiftRightEqual,
    Sign::AmpersandEqual,
    Sign::CaretEqual,
    Sign::BarEqual,
    Sign::Comma,
];

/// How a sign is spelled.
#[tactic(auto, unfolding(c_tree::specs::Words::sign_bytes))]
fn sign_text(sign: Sign) -> &'static [u8]
    ensures { result.now ≡ sign_bytes sign }
{
    match sign {
        Sign::LeftBracket => b"[",
        Sign::RightBracket => b"]",
        Sign::LeftParen => b"(",
        Sign::RightParen => b")",
        Sign::LeftBrace => b"{",
        Sign::RightBrace => b"}",
        Sign::Dot => b".",
        Sign::Arrow => b"->",
        Sign::PlusPlus => b"++",
        Sign::MinusMinus => b"--",
        Sign::Ampersand => b"&",
        Sign::Star => b"*",
        Sign::Plus => b"+",
        Sign::Minus => b"-",
        Sign::Tilde => b"~",
        Sign::Not => b"!",
        Sign::Slash => b"/",
        Sign::Percent => b"%",
        Sign::ShiftLeft => b"<<",
        Sign::ShiftRight => b">>",
        Sign::Less => b"<",
        Sign::Greater => b">",
        Sign::LessEqual => b"<=",
        Sign::GreaterEqual => b">=",
        Sign::EqualEqual => b"==",
        Sign::NotEqual => b"!=",
        Sign::Caret => b"^",
        Sign::Bar => b"|",
        Sign::AndAnd => b"&&",
        Sign::OrOr => b"||",
        Sign::Question => b"?",
        Sign::Colon => b":",
        Sign::Semicolon => b";",
        Sign::Equal => b"=",
        Sign::StarEqual => b"*=",
        Sign::SlashEqual => b"/=",
        Sign::PercentEqual => b"%=",
        Sign::PlusEqual => b"+=",
        Sign::MinusEqual => b"-=",
        Sign::ShiftLeftEqual => b"<<=",
        Sign::ShiftRightEqual => b">>=",
        Sign::AmpersandEqual => b"&=",
        Sign::CaretEqual => b"^=",
        Sign::BarEqual => b"|=",
        Sign::Comma => b",",
    }
}

/// The first of these signs that has this spelling.
fn sign_among(signs: &[Sign], bytes: &[u8]) -> Kind
    ensures { result ≡ kind_of_word (spec.sign_among signs.now bytes.now) }
{
    match signs {
        [] => Kind::Other,
        [sign, rest @ ..] => {
            if sign_text(*sign) == bytes {
                Kind::Mark(*sign)
            } else {
                sign_among(rest, bytes)
            }
        }
    }
}

/// What a token is.
#[tactic(auto, unfolding(grammar_reading::specs::Known::word_by))]
pub fn kind_of(token: &Token) -> Kind
    ensures { result ≡ kind_of_word (spec.word_of token.now) }
{
    let bytes = token.bytes.as_slice();
    match token.kind {
        TokenKind::Keyword => keyword_among(&KEYWORDS, bytes),
        TokenKind::Sign => sign_among(&SIGNS, bytes),
        TokenKind::Name => Kind::Name,
        TokenKind::Int => Kind::Int,
        TokenKind::Char => Kind::Char,
        TokenKind::Str => Kind::Str,
    }
}
