//! How long code is: its statements and their operands, counted together.

ghost use Rattle.std.specs.Prelude.{◌≡◌, ◌+◌, IfOk, length};
ghost use Rattle.std.specs.List.{sum_by};
ghost use Rattle.core_tree.specs.Statements.{operands};
ghost use Rattle.elaboration.specs.Externals.{piece_length};
ghost use Rattle.elab_base.specs.PlainPieces.{plain_piece};

use crate::pieces::{Piece, Pieces};
use core_tree::StmKind;
use hs_base::NoMemory;

/// How many operands a statement has.
fn operand_count(kind: &StmKind) -> usize
    ensures { result ≡ length (operands kind.now) }
{
    match kind {
        StmKind::Bin(_, _, _, _, _)
        | StmKind::Cmp(_, _, _, _)
        | StmKind::Add(_, _, _, _)
        | StmKind::Sub(_, _, _, _)
        | StmKind::Diff(_, _, _, _)
        | StmKind::Pcmp(_, _, _, _)
        | StmKind::Store(_, _, _)
        | StmKind::Storep(_, _)
        | StmKind::Copy(_, _, _)
        | StmKind::Calloc(_, _, _, _)
        | StmKind::Realloc(_, _, _, _) => 2,
        StmKind::Set(_, _)
        | StmKind::Conv(_, _, _)
        | StmKind::Un(_, _, _, _)
        | StmKind::Off(_, _, _)
        | StmKind::Test(_, _)
        | StmKind::Load(_, _, _)
        | StmKind::Loadp(_, _)
        | StmKind::Clear(_, _)
        | StmKind::Zero(_, _)
        | StmKind::Case(_, _, _)
        | StmKind::Malloc(_, _, _)
        | StmKind::Free(_)
        | StmKind::Return(Some(_)) => 1,
        StmKind::Jump(_)
        | StmKind::Loop(_)
        | StmKind::Enter
        | StmKind::Leave
        | StmKind::Return(None) => 0,
        StmKind::Call(_, _, arguments)
        | StmKind::Lib(_, _, arguments)
        | StmKind::Printf(_, _, arguments) => arguments.len(),
    }
}

/// How long a piece is.
fn piece_length(piece: &Piece) -> Result<u64, NoMemory>
    ensures { IfOk result (λ size. size ≡ piece_length (plain_piece piece.now)) }
{
    match piece {
        Piece::Does(stm) => (operand_count(&stm.kind) as u64)
            .checked_add(1)
            .ok_or(NoMemory),
        Piece::Here(_) => Ok(0),
    }
}

impl Pieces {
    /// How many statements and operands there are.
    #[tactic(auto, using(crate::proofs::CodeSizes::size_next))]
    pub fn size(&self) -> Result<u64, NoMemory>
        ensures { IfOk result (λ size. size ≡ sum_by piece_length self.now) }
    {
        let list = self.as_slice();
        let mut total = 0u64;
        for piece in list {
            let size = piece_length(piece)?;
            total = total.checked_add(size).ok_or(NoMemory)?;
        }
        Ok(total)
    }
}
