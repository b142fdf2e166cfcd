//! The pieces of a text: gaps, tokens, and what is neither.

ghost use Rattle.std.specs.Prelude.{◌≡◌, ◌<◌, ◌≤◌, false, length, drop, slice_index, IfSome};
ghost use Rattle.std.specs.List.{prefix_len};
ghost use Rattle.c_lexer.specs.Bytes.{is_name_byte, is_number_byte};
ghost use Rattle.c_lexer.specs.Gaps.{comment_end};
ghost use Rattle.c_lexer.specs.Pieces.{literal_end};
ghost use Rattle.c_lexer.specs.Readers.{name_piece, number_piece, literal_piece, hash_piece, block_piece, slash_piece, piece_at};

use crate::bytes::{ByteClass, class_of, is_name_byte, is_number_byte};
use crate::gap::{comment_end, include_end, line_length};
use crate::literal::{constant_end, string_end};
use crate::name::name_kind;
use crate::number::number_kind;
use crate::sign::sign_length;
use crate::token::{LexKind, TokenKind};

/// What a piece of a text is.
#[derive(Clone, Copy, Debug, PartialEq, Eq)]
pub enum PieceKind {
    /// White space, a comment or an accepted include line.
    Gap,
    Token(TokenKind),
    /// What may not stand in a text.
    Refused(LexKind),
}

/// A piece at the front of a text.
#[derive(Clone, Copy, Debug, PartialEq, Eq)]
pub struct Piece {
    pub kind: PieceKind,
    /// How many bytes it has.
    pub len: usize,
}

/// How many bytes of names a text begins with.
fn name_length(text: &[u8]) -> usize
    ensures count { result ≡ prefix_len is_name_byte text.now }
    ensures bound { result ≤ length text.now }
{
    text.iter().take_while(|byte| is_name_byte(**byte)).count()
}

/// How many bytes of numbers a text begins with.
fn number_length(text: &[u8]) -> usize
    ensures count { result ≡ prefix_len is_number_byte text.now }
    ensures bound { result ≤ length text.now }
{
    text.iter()
        .take_while(|byte| is_number_byte(**byte))
        .count()
}

/// The name or keyword that a text begins with.
fn name_piece(text: &[u8]) -> Piece
    ensures { result ≡ name_piece text.now }
{
    let len = name_length(text);
    Piece {
        kind: PieceKind::Token(name_kind(&text[..len])),
        len,
    }
}

/// The number that a text begins with, or what does not have the form of one.
fn number_piece(text: &[u8]) -> Piece
    ensures { result ≡ number_piece text.now }
{
    let len = number_length(text);
    Piece {
        kind: number_kind(&text[..len]),
        len,
    }
}

/// How many bytes a literal has behind this opening quote, where it has its form.
fn literal_end(quote: u8, rest: &[u8]) -> Option<usize>
    ensures end { result ≡ literal_end quote rest.now }
    ensures bound { IfSome result (λ end. end ≤ length rest.now) }
{
    if quote == b'\'' {
        constant_end(rest)
    } else {
        string_end(rest)
    }
}

/// The literal that begins with a quote and the rest of the text, or the quote alone.
fn literal_piece(quote: u8, rest: &[u8]) -> Piece
    ensures { result ≡ literal_piece quote rest.now }
{
    match literal_end(quote, rest) {
        Some(end) => Piece {
            kind: PieceKind::Token(if quote == b'\'' {
                TokenKind::Char
            } else {
                TokenKind::Str
            }),
            len: 1 + end,
        },
        None => Piece {
            kind: PieceKind::Refused(LexKind::Literal),
            len: 1,
        },
    }
}

/// The include line that begins with a `#` and the rest of the text, or the `#` alone.
fn hash_piece(fresh: bool, rest: &[u8]) -> Piece
    ensures { result ≡ hash_piece fresh rest.now }
{
    if !fresh {
        return Piece {
            kind: PieceKind::Refused(LexKind::BadByte),
            len: 1,
        };
    }
    match include_end(rest) {
        Some(end) => Piece {
            kind: PieceKind::Gap,
            len: 1 + end,
        },
        None => Piece {
            kind: PieceKind::Refused(LexKind::Directive),
            len: 1,
        },
    }
}

/// The comment that begins with `/*` and the rest of the text, or all of it where no `*/` follows.
fn block_piece(rest: &[u8]) -> Piece
    ensures { result ≡ block_piece (comment_end false rest.now) rest.now }
{
    match comment_end(rest) {
        Some(end) => Piece {
            kind: PieceKind::Gap,
            len: 2 + end,
        },
        None => Piece {
            kind: PieceKind::Refused(LexKind::OpenComment),
            len: 2 + rest.len(),
        },
    }
}

/// The comment or sign that a text begins with, whose first byte is `/`.
fn slash_piece(text: &[u8]) -> Piece
    requires { 0 < length text.now }
    ensures { result ≡ slash_piece (slice_index text.now 0) (drop 1 text.now) }
{
    match text {
        [_, b'/', rest @ ..] => Piece {
            kind: PieceKind::Gap,
            len: 2 + line_length(rest),
        },
        [_, b'*', rest @ ..] => block_piece(rest),
        _ => Piece {
            kind: PieceKind::Token(TokenKind::Sign),
            len: sign_length(text),
        },
    }
}

/// The piece that a text begins with, the longest there is. The flag says whether no visible byte stands before it on
/// its line.
#[tactic(auto, unfolding(crate::specs::Readers::piece_at))]
pub(crate) fn piece_at(fresh: bool, text: &[u8]) -> Piece
    requires { 0 < length text.now }
    ensures { result ≡ piece_at fresh text.now }
{
    let first = text[0];
    let rest = &text[1..];
    match class_of(first) {
        ByteClass::Space => Piece {
            kind: PieceKind::Gap,
            len: 1,
        },
        ByteClass::Letter => name_piece(text),
        ByteClass::Digit => number_piece(text),
        ByteClass::Quote => literal_piece(first, rest),
        ByteClass::Hash => hash_piece(fresh, rest),
        ByteClass::Slash => slash_piece(text),
        ByteClass::Mark => Piece {
            kind: PieceKind::Token(TokenKind::Sign),
            len: sign_length(text),
        },
        ByteClass::Other => Piece {
            kind: PieceKind::Refused(LexKind::BadByte),
            len: 1,
        },
    }
}
