//! The code of a function while it is walked.

ghost use Rattle.std.specs.Prelude.{◌≡◌, ◌++◌, ◌∷◌, ◌+◌, ◌*◌, [], IfOk, length, max};
ghost use Rattle.elaboration.specs.Context.{Code as PlainCode, no_code, with_integer, with_pointer};
ghost use Rattle.std.specs.List.{sum_by};
ghost use Rattle.elaboration.specs.Externals.{piece_length};
ghost use Rattle.elab_base.specs.PlainPieces.{plain_piece};
ghost use Rattle.elab_base.specs.Marks.{mark_of, cut};
ghost use Rattle.elab_base.specs.Changes.{grown};

use crate::pieces::{Piece, Pieces};
use hs_base::NoMemory;
use std::alloc::Global;
use std::marker::Model;
use std::mem;

/// The code of a function so far: its pieces, how many labels it has, how many temporaries of each sort the running full
/// expression has, and how many the greatest.
#[derive(Drop)]
pub struct Code {
    pieces: Pieces,
    labels: u32,
    integers: u32,
    pointers: u32,
    most_integers: u32,
    most_pointers: u32,
}

impl Model for Code {
    ghost use Rattle.elaboration.specs.Context.{Code as PlainCode};

    ghost Value = { PlainCode };

    ghost view = { λ s. record { pieces = s.pieces; labels = s.labels; integers = s.integers; pointers = s.pointers; most_integers = s.most_integers; most_pointers = s.most_pointers } };
}

/// Where code stands: what comes behind it can be forgotten.
#[derive(Clone, Copy)]
pub struct Mark {
    pub pieces: usize,
    pub labels: u32,
    pub integers: u32,
    pub pointers: u32,
    pub most_integers: u32,
    pub most_pointers: u32,
}

/// A number that is three times another, and so many more. No memory holds what does not fit.
fn by_threes(number: u32, more: u32) -> Result<u32, NoMemory>
    ensures { IfOk result (λ r. r ≡ 3 * number + more) }
{
    let thrice = number.checked_mul(3).ok_or(NoMemory)?;
    thrice.checked_add(more).ok_or(NoMemory)
}

impl Code {
    /// No code.
    pub fn new(alloc: Global) -> Code
        ensures { result ≡ no_code }
    {
        Code {
            pieces: Pieces::new(alloc),
            labels: 0,
            integers: 0,
            pointers: 0,
            most_integers: 0,
            most_pointers: 0,
        }
    }

    /// Adds a piece.
    pub fn put(&mut self, piece: Piece) -> Result<(), NoMemory>
        ensures { IfOk result (λ _. self.new ≡ grown (plain_piece piece ∷ []) self.old) }
    {
        self.pieces.push(piece)
    }

    /// The register of a new integer temporary.
    pub fn take_integer(&mut self) -> Result<u32, NoMemory>
        ensures register { IfOk result (λ r. r ≡ 3 * self.old.integers + 1) }
        ensures taken { IfOk result (λ _. self.new ≡ with_integer self.old) }
    {
        let register = by_threes(self.integers, 1)?;
        self.integers = self.integers.checked_add(1).ok_or(NoMemory)?;
        self.most_integers = self.most_integers.max(self.integers);
        Ok(register)
    }

    /// The register of a new pointer temporary.
    pub fn take_pointer(&mut self) -> Result<u32, NoMemory>
        ensures register { IfOk result (λ r. r ≡ 3 * self.old.pointers + 2) }
        ensures taken { IfOk result (λ _. self.new ≡ with_pointer self.old) }
    {
        let register = by_threes(self.pointers, 2)?;
        self.pointers = self.pointers.checked_add(1).ok_or(NoMemory)?;
        self.most_pointers = self.most_pointers.max(self.pointers);
        Ok(register)
    }

    /// So many new labels: the first of them.
    pub fn take_labels(&mut self, count: u32) -> Result<u32, NoMemory>
        ensures label { IfOk result (λ label. label ≡ self.old.labels) }
        ensures taken { IfOk result (λ _. self.new ≡ record self.old { labels = self.old.labels + count }) }
    {
        let label = self.labels;
        self.labels = label.checked_add(count).ok_or(NoMemory)?;
        Ok(label)
    }

    /// Numbers the temporaries anew, since a full expression begins.
    pub fn begin_expression(&mut self)
        ensures { self.new ≡ record self.old { integers = 0; pointers = 0 } }
    {
        self.integers = 0;
        self.pointers = 0;
    }

    /// Where the code stands.
    pub fn mark(&self) -> Mark
        ensures { result ≡ mark_of self.now }
    {
        Mark {
            pieces: self.pieces.len(),
            labels: self.labels,
            integers: self.integers,
            pointers: self.pointers,
            most_integers: self.most_integers,
            most_pointers: self.most_pointers,
        }
    }

    /// Forgets what stands behind a mark.
    pub fn forget(&mut self, mark: Mark)
        ensures { self.new ≡ cut mark self.old }
    {
        self.pieces.truncate(mark.pieces);
        self.labels = mark.labels;
        self.integers = mark.integers;
        self.pointers = mark.pointers;
        self.most_integers = mark.most_integers;
        self.most_pointers = mark.most_pointers;
    }

    /// Adds other pieces at the end, in their order.
    pub fn append(&mut self, more: Pieces) -> Result<(), NoMemory>
        ensures { IfOk result (λ _. self.new ≡ grown more self.old) }
    {
        self.pieces.append(more)
    }

    /// Puts other pieces in place of those so far, which it gives.
    pub fn swap_pieces(&mut self, pieces: Pieces) -> Pieces
        ensures before { result ≡ self.old.pieces }
        ensures with { self.new ≡ record self.old { pieces = pieces } }
    {
        mem::replace(&mut self.pieces, pieces)
    }

    /// How many statements and operands it has.
    pub fn size(&self) -> Result<u64, NoMemory>
        ensures { IfOk result (λ size. size ≡ sum_by piece_length self.now.pieces) }
    {
        self.pieces.size()
    }

    /// How many labels it has.
    pub fn labels(&self) -> u32
        ensures { result ≡ self.now.labels }
    {
        self.labels
    }

    /// How many integer temporaries the greatest full expression has.
    pub fn most_integers(&self) -> u32
        ensures { result ≡ self.now.most_integers }
    {
        self.most_integers
    }

    /// How many pointer temporaries the greatest full expression has.
    pub fn most_pointers(&self) -> u32
        ensures { result ≡ self.now.most_pointers }
    {
        self.most_pointers
    }

    /// Its pieces.
    pub fn into_pieces(self) -> Pieces
        ensures { result ≡ self.pieces }
    {
        let Code { pieces, .. } = self;
        pieces
    }
}
