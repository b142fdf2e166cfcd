//! Tokens that are left, in pieces of rows. What is cut from them is not copied, so a call in a call costs no more than its tokens.

ghost use Rattle.std.specs.Prelude.{◌≡◌, ◌==◌, List, ◌<◌, ◌≤◌, ◌+◌, [], ◌++◌, Some, IfOk, IfSome, OnOk, option_copied, length, slice_get, vec_len};
ghost use Rattle.c_pre.specs.Rows.{segment};
ghost use Rattle.c_pre.specs.Taking.{TakesFirst, TakesCall, SplitsPiece};

use crate::calls::is_separator;
use crate::directive::is_sign;
use crate::hidden::Hidden;
use crate::marked::Marked;
use crate::queue::Queue;
use crate::row::{Piece, Row};
use hs_base::NoMemory;
use std::alloc::Global;
use std::marker::Model;
use std::rc::Rc;

/// The arguments of a call, and where its `)` stands in a row.
#[derive(Drop)]
struct Found {
    args: Queue<Rest>,
    end: usize,
}

/// Tokens that are left.
#[derive(Drop)]
pub(crate) struct Rest {
    pieces: Queue<Piece>,
}

impl Model for Rest {
    ghost use Rattle.std.specs.Prelude.{List};
    ghost use Rattle.c_pre.specs.declared.marked.Marked.{Marked};
    ghost use Rattle.c_pre.specs.Held.{tokens_of};
    ghost use Rattle.c_pre.specs.contracts.marked.Marked as marked;
    ghost use Rattle.std.specs.Coded.{codes};

    ghost Value = { List Marked };

    ghost coded = { Prim.hlevel (codes, marked.the_row.coded) };

    ghost view = { λ r. tokens_of r.pieces };
}

impl Rest {
    /// No token.
    pub(crate) fn new(alloc: Global) -> Rest
        ensures { result ≡ [] }
    {
        Rest {
            pieces: Queue::new(alloc),
        }
    }

    /// These tokens.
    pub(crate) fn of(alloc: Global, tokens: Vec<Marked>) -> Result<Rest, NoMemory>
        ensures { IfOk result (λ rest. rest ≡ tokens.items) }
    {
        let mut rest = Rest::new(alloc);
        rest.put_in_front(alloc, tokens)?;
        Ok(rest)
    }

    /// Puts a part of a row in front.
    fn put(&mut self, row: Rc<Row>, from: usize, to: usize) -> Result<(), NoMemory>
        requires { to ≤ vec_len row.value.tokens }
        ensures { OnOk result (self.new ≡ segment from to row.value.tokens.items ++ self.old) }
    {
        if from < to {
            self.pieces.push_front(Piece { row, from, to })?;
        }
        Ok(())
    }

    /// Puts tokens in front of the others.
    pub(crate) fn put_in_front(
        &mut self,
        alloc: Global,
        tokens: Vec<Marked>,
    ) -> Result<(), NoMemory>
        ensures { OnOk result (self.new ≡ tokens.items ++ self.old) }
    {
        let count = tokens.len();
        let row = Rc::new(alloc, Row::new(alloc, tokens)?)?;
        self.put(row, 0, count)
    }

    /// A part of a row.
    fn part(alloc: Global, row: &Rc<Row>, from: usize, to: usize) -> Result<Rest, NoMemory>
        requires { to ≤ vec_len row.now.value.tokens }
        ensures { IfOk result (λ part. part ≡ segment from to row.now.value.tokens.items) }
    {
        let mut part = Rest::new(alloc);
        part.put(row.clone()?, from, to)?;
        Ok(part)
    }

    /// Whether there is no token.
    pub(crate) fn is_empty(&self) -> bool
        ensures { result ≡ (length self.now == 0) }
    {
        self.pieces.is_empty()
    }

    /// The first token.
    pub(crate) fn front(&self) -> Option<&Marked>
        ensures { option_copied result ≡ slice_get self.now 0 }
    {
        match self.pieces.front() {
            Some(piece) => Some(&piece.row.tokens[piece.from]),
            None => None,
        }
    }

    /// Takes the first token: a copy of it, since its row may be shared.
    pub(crate) fn pop(&mut self, alloc: Global) -> Result<Option<Marked>, NoMemory>
        ensures { IfOk result (TakesFirst self.old self.new) }
    {
        let Some(Piece { row, from, to, .. }) = self.pieces.pop() else {
            return Ok(None);
        };
        let first = row.tokens[from].copied(alloc)?;
        self.put(row, from + 1, to)?;
        Ok(Some(first))
    }

    /// Takes the arguments of a call whose `(` stood before these tokens, and what is hidden from its `)`, where that stands
    /// in the first piece.
    pub(crate) fn split(
        &mut self,
        alloc: Global,
        keeps: Option<usize>,
    ) -> Result<Option<(Queue<Rest>, Hidden)>, NoMemory>
        ensures { IfOk result (TakesCall keeps self.old self.new) }
    {
        let Some(piece) = self.pieces.pop() else {
            return Ok(None);
        };
        match find_end(alloc, keeps, &piece)? {
            None => {
                self.pieces.push_front(piece)?;
                Ok(None)
            }
            Some(Found { args, end }) => {
                let Piece { row, to, .. } = piece;
                let hidden = row.tokens[end].hidden.share()?;
                self.put(row, end + 1, to)?;
                Ok(Some((args, hidden)))
            }
        }
    }
}

/// The arguments of a call whose `(` stood before a piece, and where its `)` stands, if it stands in the piece.
fn find_end(alloc: Global, keeps: Option<usize>, piece: &Piece) -> Result<Option<Found>, NoMemory>
    ensures { IfOk result (λ found. IfSome found (SplitsPiece keeps piece.now)) }
{
    let row: &Row = &piece.row;
    let mut args = Queue::new(alloc);
    let mut start = piece.from;
    let mut at = piece.from;
    while at < piece.to {
        let token = &row.tokens[at].token;
        if is_sign(b')', token) {
            args.push(Rest::part(alloc, &piece.row, start, at)?)?;
            return Ok(Some(Found { args, end: at }));
        }
        if is_sign(b'(', token) {
            match row.end_of(at) {
                Some(end) if end < piece.to => at = end + 1,
                _ => return Ok(None),
            }
            continue;
        }
        if is_separator(keeps, args.len(), token) {
            args.push(Rest::part(alloc, &piece.row, start, at)?)?;
            start = at + 1;
        }
        at += 1;
    }
    Ok(None)
}
