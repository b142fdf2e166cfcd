//! What the next token is to a reader.

ghost use Rattle.std.specs.Prelude.{◌≡◌};
ghost use Rattle.grammar_reading.specs.State as spec;

use c_tree::{Keyword, Sign};
use grammar_reading::Kind;

/// Says whether a token is a keyword.
#[tactic(auto, unfolding(grammar_reading::specs::State::keyword_number))]
pub fn is_key(kind: Kind, keyword: Keyword) -> bool
    ensures { result ≡ spec.kind_is_key keyword kind }
{
    match kind {
        Kind::Key(other) => other as u8 == keyword as u8,
        _ => false,
    }
}

/// Says whether a token is a sign.
#[tactic(auto, unfolding(grammar_reading::specs::State::sign_number))]
pub fn is_mark(kind: Kind, sign: Sign) -> bool
    ensures { result ≡ spec.kind_is_mark sign kind }
{
    match kind {
        Kind::Mark(other) => other as u8 == sign as u8,
        _ => false,
    }
}

/// Says whether specs begin with a keyword.
#[tactic(auto, unfolding(grammar_reading::specs::State::is_spec_key))]
pub fn is_spec_key(keyword: Keyword) -> bool
    ensures { result ≡ spec.is_spec_key keyword }
{
    match keyword {
        Keyword::Void
        | Keyword::Char
        | Keyword::Short
        | Keyword::Int
        | Keyword::Long
        | Keyword::Signed
        | Keyword::Unsigned
        | Keyword::Struct
        | Keyword::Union
        | Keyword::Enum
        | Keyword::Static
        | Keyword::Extern
        | Keyword::Typedef
        | Keyword::Const => true,
        Keyword::DelayFrees
        | Keyword::If
        | Keyword::Else
        | Keyword::While
        | Keyword::Do
        | Keyword::For
        | Keyword::Switch
        | Keyword::Case
        | Keyword::Default
        | Keyword::Break
        | Keyword::Continue
        | Keyword::Return
        | Keyword::Sizeof => false,
    }
}

/// Says whether a token is a name.
pub fn is_name(kind: Kind) -> bool
    ensures { result ≡ spec.kind_is_name kind }
{
    match kind {
        Kind::Name => true,
        _ => false,
    }
}
