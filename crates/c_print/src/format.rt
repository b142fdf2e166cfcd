//! Reading a whole format.

ghost use Rattle.std.specs.Prelude.{◌≡◌, ◌∷◌, List, Err, IfOk, MatchOption, All};
ghost use Rattle.c_print.specs.declared.piece.Piece.{Piece};
ghost use Rattle.c_print.specs.Format.{ReadsPiece, HasNoPercent, HasNoPiece, IsFormat, IsGiven};
ghost use Rattle.c_print.specs.Pieces.{pieces_of};

use crate::item::read_item;
use crate::piece::{FormatError, Piece};
use crate::plain::read_plain;
use hs_base::Items;
use std::alloc::Global;

/// The bytes behind a percent sign at the front.
fn after_percent(bytes: &[u8]) -> Option<&[u8]>
    ensures { MatchOption result (HasNoPercent bytes.now) (λ item. bytes.now ≡ 37 ∷ item.now) }
{
    match bytes {
        [b'%', item @ ..] => Some(item),
        _ => None,
    }
}

/// The piece at the front, and the bytes behind it.
fn read_piece(alloc: Global, bytes: &[u8]) -> Result<(Piece, &[u8]), FormatError>
    ensures piece { IfOk result (λ r. ReadsPiece bytes.now r.0 r.1.now) }
    ensures bad { result ≡ Err FormatError.Bad → HasNoPiece bytes.now }
{
    let (text, rest) = read_plain(alloc, bytes)?;
    if text.len() > 0 {
        return Ok((Piece::Plain(text), rest));
    }
    match after_percent(bytes) {
        Some(item) => read_item(item).ok_or(FormatError::Bad),
        None => Err(FormatError::Bad),
    }
}

/// The pieces of a format. They are the only ones that spell its bytes, those that `pieces_of` reads from the left, and
/// [`FormatError::Bad`] comes exactly where no pieces do.
pub fn read_format(alloc: Global, bytes: &[u8]) -> Result<Items<Piece>, FormatError>
    ensures pieces { IfOk result (λ pieces. IsFormat bytes.now pieces) }
    ensures read { IfOk result (λ pieces. pieces ≡ pieces_of bytes.now) }
    ensures given { IfOk result (All IsGiven) }
    ensures bad { result ≡ Err FormatError.Bad → (pieces : List Piece) → ¬ IsFormat bytes.now pieces }
{
    let mut pieces = Items::new(alloc);
    let mut rest = bytes;
    while !rest.is_empty() {
        let (piece, after) = read_piece(alloc, rest)?;
        pieces.push(piece)?;
        rest = after;
    }
    Ok(pieces)
}
