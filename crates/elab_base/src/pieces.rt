//! Pieces of code.

ghost use Rattle.std.specs.Prelude.{◌≡◌, ◌++◌, ◌∷◌, [], IfOk, length, map, take};
ghost use Rattle.elab_base.specs.PlainPieces.{plain_piece};

use core_tree::Stm;
use hs_base::NoMemory;
use std::alloc::Global;
use std::marker::Model;

/// A statement, or the place to which a label leads.
#[derive(Drop)]
pub enum Piece {
    Does(Stm),
    Here(u32),
}

/// Pieces one behind another.
#[derive(Drop)]
pub struct Pieces {
    list: Vec<Piece>,
}

impl Model for Pieces {
    ghost use Rattle.std.specs.Prelude.{List, map};
    ghost use Rattle.elaboration.specs.Context.{Piece as PlainPiece};
    ghost use Rattle.elab_base.specs.PlainPieces.{plain_piece};

    ghost Value = { List PlainPiece };

    ghost view = { λ s. map plain_piece s.list.items };
}

#[tactic(auto, using(crate::proofs::ListRules::list_rules))]
impl Pieces {
    /// No pieces.
    pub fn new(alloc: Global) -> Pieces
        ensures { result ≡ [] }
    {
        Pieces {
            list: Vec::new(alloc),
        }
    }

    /// How many there are.
    pub fn len(&self) -> usize
        ensures { result ≡ length self.now }
    {
        self.list.len()
    }

    /// Adds a piece at the end.
    pub fn push(&mut self, piece: Piece) -> Result<(), NoMemory>
        ensures { IfOk result (λ _. self.new ≡ self.old ++ plain_piece piece ∷ []) }
    {
        self.list.push(piece)?;
        Ok(())
    }

    /// Adds other pieces at the end, in their order.
    pub fn append(&mut self, mut more: Pieces) -> Result<(), NoMemory>
        ensures { IfOk result (λ _. self.new ≡ self.old ++ more) }
    {
        self.list.append(&mut more.list)?;
        Ok(())
    }

    /// Keeps so many pieces, and forgets those behind them.
    pub fn truncate(&mut self, count: usize)
        ensures { self.new ≡ take count self.old }
    {
        self.list.truncate(count);
    }

    /// The pieces as a slice.
    pub(crate) fn as_slice(&self) -> &[Piece]
        ensures { map plain_piece result.now ≡ self.now }
    {
        self.list.as_slice()
    }

    /// The pieces as a `Vec`.
    pub fn into_vec(self) -> Vec<Piece>
        ensures { map plain_piece result.items ≡ self }
    {
        let Pieces { list } = self;
        list
    }
}
