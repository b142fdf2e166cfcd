//! The words of the grammar: keywords and signs.
#![tactic(auto, unfolding(crate::specs::Words::keyword_bytes, crate::specs::Words::sign_bytes))]

ghost use Rattle.std.specs.Prelude.{◌≡◌};
ghost use Rattle.c_tree.specs.Words.{keyword_bytes, sign_bytes};

/// A keyword that the grammar names (C99 6.4.1, and `__delay_frees`).
#[derive(Clone, Copy, Debug, PartialEq, Eq)]
pub enum Keyword {
    Void,
    Char,
    Short,
    Int,
    Long,
    Signed,
    Unsigned,
    Struct,
    Union,
    Enum,
    Static,
    Extern,
    Typedef,
    Const,
    DelayFrees,
    If,
    Else,
    While,
    Do,
    For,
    Switch,
    Case,
    Default,
    Break,
    Continue,
    Return,
    Sizeof,
}

/// A sign, which C99 6.4.6 calls a punctuator.
#[derive(Clone, Copy, Debug, PartialEq, Eq)]
pub enum Sign {
    /// `[`
    LeftBracket,
    /// `]`
    RightBracket,
    /// `(`
    LeftParen,
    /// `)`
    RightParen,
    /// `{`
    LeftBrace,
    /// `}`
    RightBrace,
    /// `.`
    Dot,
    /// `->`
    Arrow,
    /// `++`
    PlusPlus,
    /// `--`
    MinusMinus,
    /// `&`
    Ampersand,
    /// `*`
    Star,
    /// `+`
    Plus,
    /// `-`
    Minus,
    /// `~`
    Tilde,
    /// `!`
    Not,
    /// `/`
    Slash,
    /// `%`
    Percent,
    /// `<<`
    ShiftLeft,
    /// `>>`
    ShiftRight,
    /// `<`
    Less,
    /// `>`
    Greater,
    /// `<=`
    LessEqual,
    /// `>=`
    GreaterEqual,
    /// `==`
    EqualEqual,
    /// `!=`
    NotEqual,
    /// `^`
    Caret,
    /// `|`
    Bar,
    /// `&&`
    AndAnd,
    /// `||`
    OrOr,
    /// `?`
    Question,
    /// `:`
    Colon,
    /// `;`
    Semicolon,
    /// `=`
    Equal,
    /// `*=`
    StarEqual,
    /// `/=`
    SlashEqual,
    /// `%=`
    PercentEqual,
    /// `+=`
    PlusEqual,
    /// `-=`
    MinusEqual,
    /// `<<=`
    ShiftLeftEqual,
    /// `>>=`
    ShiftRightEqual,
    /// `&=`
    AmpersandEqual,
    /// `^=`
    CaretEqual,
    /// `|=`
    BarEqual,
    /// `,`
    Comma,
}

impl Keyword {
    /// How the keyword is spelled.
    pub fn bytes(self) -> &'static [u8]
        ensures { result.now ≡ keyword_bytes self }
    {
        match self {
            Keyword::Void => b"void",
            Keyword::Char => b"char",
            Keyword::Short => b"short",
            Keyword::Int => b"int",
            Keyword::Long => b"long",
            Keyword::Signed => b"signed",
            Keyword::Unsigned => b"unsigned",
            Keyword::Struct => b"struct",
            Keyword::Union => b"union",
            Keyword::Enum => b"enum",
            Keyword::Static => b"static",
            Keyword::Extern => b"extern",
            Keyword::Typedef => b"typedef",
            Keyword::Const => b"const",
            Keyword::DelayFrees => b"__delay_frees",
            Keyword::If => b"if",
            Keyword::Else => b"else",
            Keyword::While => b"while",
            Keyword::Do => b"do",
            Keyword::For => b"for",
            Keyword::Switch => b"switch",
            Keyword::Case => b"case",
            Keyword::Default => b"default",
            Keyword::Break => b"break",
            Keyword::Continue => b"continue",
            Keyword::Return => b"return",
            Keyword::Sizeof => b"sizeof",
        }
    }
}

impl Sign {
    /// How the sign is spelled.
    pub fn bytes(self) -> &'static [u8]
        ensures { result.now ≡ sign_bytes self }
    {
        match self {
            Sign::LeftBracket => b"[",
            Sign::RightBracket => b"]",
            Sign::LeftParen => b"(",
            Sign::RightParen => b")",
            Sign::LeftBrace => b"{",
            Sign::RightBrace => b"}",
            Sign::Dot => b".",
            Sign::Arrow => b"->",
            Sign::PlusPlus => b"++",
            Sign::MinusMinus => b"--",
            Sign::Ampersand => b"&",
            Sign::Star => b"*",
            Sign::Plus => b"+",
            Sign::Minus => b"-",
            Sign::Tilde => b"~",
            Sign::Not => b"!",
            Sign::Slash => b"/",
            Sign::Percent => b"%",
            Sign::ShiftLeft => b"<<",
            Sign::ShiftRight => b">>",
            Sign::Less => b"<",
            Sign::Greater => b">",
            Sign::LessEqual => b"<=",
            Sign::GreaterEqual => b">=",
            Sign::EqualEqual => b"==",
            Sign::NotEqual => b"!=",
            Sign::Caret => b"^",
            Sign::Bar => b"|",
            Sign::AndAnd => b"&&",
            Sign::OrOr => b"||",
            Sign::Question => b"?",
            Sign::Colon => b":",
            Sign::Semicolon => b";",
            Sign::Equal => b"=",
            Sign::StarEqual => b"*=",
            Sign::SlashEqual => b"/=",
            Sign::PercentEqual => b"%=",
            Sign::PlusEqual => b"+=",
            Sign::MinusEqual => b"-=",
            Sign::ShiftLeftEqual => b"<<=",
            Sign::ShiftRightEqual => b">>=",
            Sign::AmpersandEqual => b"&=",
            Sign::CaretEqual => b"^=",
            Sign::BarEqual => b"|=",
            Sign::Comma => b",",
        }
    }
}
