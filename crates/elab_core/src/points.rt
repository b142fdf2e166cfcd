//! The points to which labels lead.

ghost use Rattle.std.specs.Prelude.{◌≡◌, IfOk, map};
ghost use Rattle.elab_base.specs.PlainPieces.{plain_piece};
ghost use Rattle.elab_core.specs.NumbersBy.{statements, IsPlaced};

use elab_base::Piece;
use hs_base::NoMemory;
use std::alloc::Global;

/// How many statements there are among pieces.
pub(crate) fn count(pieces: &[Piece]) -> Result<u32, NoMemory>
    ensures { IfOk result (λ count. count ≡ statements (map plain_piece pieces.now)) }
{
    let mut count: u32 = 0;
    for place in (0..pieces.len()).rev() {
        if let Piece::Does(_) = &pieces[place] {
            count = count.checked_add(1).ok_or(NoMemory)?;
        }
    }
    Ok(count)
}

/// The points of so many labels, where there are so many statements: that of a label is the number of statements before
/// the first place that it names.
pub(crate) fn points_of(
    alloc: Global,
    pieces: &[Piece],
    labels: u32,
    total: u32,
) -> Result<Vec<u32>, NoMemory>
    requires { total ≡ statements (map plain_piece pieces.now) }
    ensures { IfOk result (λ points. IsPlaced points.items total (map plain_piece pieces.now)) }
{
    let mut points = vec![in alloc; total; labels as usize]?;
    let mut before = total;
    for place in (0..pieces.len()).rev() {
        match &pieces[place] {
            Piece::Does(_) => before = before.checked_sub(1).ok_or(NoMemory)?,
            Piece::Here(label) => {
                if *label as usize >= points.len() {
                    return Err(NoMemory);
                }
                points[*label as usize] = before;
            }
        }
    }
    Ok(points)
}
