//! The forms in which things are said.

/// In which form something is said on the error stream.
#[derive(Clone, Copy, Debug, PartialEq, Eq)]
pub enum Form {
    /// By lines.
    Lines,
    /// In their place, by one object of JSON on a line of its own.
    Json,
}
