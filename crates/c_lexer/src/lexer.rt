//! The tokens of a whole text.

ghost use Rattle.std.specs.Prelude.{◌≡◌, ◌<◌, ◌^◌, [], ◌∷◌, ◌++◌, length, All, IfOk, IfErr};
ghost use Rattle.c_lexer.specs.Tokens.{HasTokens, IsRefused, IsLexed, IsOnlyAnswer};
ghost use Rattle.c_lexer.specs.Readers.{TakesPiece, RefusesPiece};

use crate::piece::{PieceKind, piece_at};
use crate::place::{Place, behind};
use crate::token::{LexError, Token, TokenKind};
use hs_base::{Items, Line, NoMemory};
use std::alloc::Global;

/// Puts a token behind others. An error leaves them as they were.
fn push_token(
    alloc: Global,
    tokens: &mut Items<Token>,
    line: Line,
    kind: TokenKind,
    bytes: &[u8],
) -> Result<(), NoMemory>
    ensures { IfOk result (λ _. tokens.new ≡ tokens.old ++ record { line = line; kind = kind; bytes = bytes.now } ∷ []) }
{
    let bytes = Items::from(Vec::from_slice(alloc, bytes)?);
    tokens.push(Token { line, kind, bytes })
}

/// Takes a piece of this kind, with this line and these bytes: a token goes behind the others.
fn take_piece(
    alloc: Global,
    tokens: &mut Items<Token>,
    line: Line,
    kind: PieceKind,
    bytes: &[u8],
) -> Result<(), LexError>
    ensures ok { IfOk result (λ _. TakesPiece kind line bytes.now tokens.old tokens.new) }
    ensures refused { IfErr result (RefusesPiece kind line) }
{
    match kind {
        PieceKind::Gap => Ok(()),
        PieceKind::Token(kind) => {
            push_token(alloc, tokens, line, kind, bytes)?;
            Ok(())
        }
        PieceKind::Refused(kind) => Err(LexError::Bad { kind, line }),
    }
}

/// The tokens of a text (C99 6.4): each with its kind, its spelling and the line of its first byte.
///
/// # Errors
///
/// [`LexError::Bad`] exactly where the text has a place at which nothing begins that may stand there, with the kind and
/// the line of the first such place. [`LexError::NoMemory`] only for want of memory.
pub fn lex(alloc: Global, text: &[u8]) -> Result<Items<Token>, LexError>
    requires { length text.now < 2 ^ 32 }
    ensures tokens { IfOk result (HasTokens text.now) }
    ensures forms { IfOk result (All IsLexed) }
    ensures refused { IfErr result (IsRefused text.now) }
    ensures exact { IsOnlyAnswer text.now result }
{
    let mut tokens = Items::new(alloc);
    let mut place = Place {
        line: 1,
        fresh: true,
    };
    let mut at = 0;
    while at < text.len() {
        let rest = &text[at..];
        let piece = piece_at(place.fresh, rest);
        let bytes = &rest[..piece.len];
        take_piece(alloc, &mut tokens, place.line as Line, piece.kind, bytes)?;
        place = behind(place, bytes);
        at += piece.len;
    }
    Ok(tokens)
}
