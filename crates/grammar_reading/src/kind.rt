//! What the next token is to a reader.

use c_tree::{Keyword, RecordSort, Sign};

/// What a token is, without its spelling.
#[derive(Clone, Copy, Debug, PartialEq, Eq)]
pub enum Kind {
    /// A keyword that the grammar names.
    Key(Keyword),
    /// A sign that the grammar names.
    Mark(Sign),
    Name,
    Int,
    Char,
    Str,
    /// A token that the grammar does not name.
    Other,
    /// There is no token left.
    End,
}

/// How the next token goes on specs.
#[derive(Clone, Copy, Debug, PartialEq, Eq)]
pub enum SpecStart {
    /// By a keyword.
    Word,
    /// By a name that is a type.
    TypedefName,
    /// By a struct or a union.
    Record(RecordSort),
    /// By an enumeration.
    Enum,
    /// Not at all.
    End,
}
