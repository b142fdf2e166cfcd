//! Statements in the numbers of the core.

ghost use Rattle.std.specs.Prelude.{◌≡◌, List, IfOk, map};
ghost use Rattle.elaboration.specs.Context.{Piece as PlainPiece};
ghost use Rattle.elaboration.specs.Resolving.{numbered, body_of};
ghost use Rattle.elab_base.specs.PlainPieces.{plain_piece};
ghost use Rattle.elab_core.specs.NumbersBy.{IsPlaced, numbers_by, IsBody, IsNumbered};

use crate::numbers::Numbers;
use core_tree::{Stm, StmKind};
use elab_base::Piece;
use hs_base::{Items, NoMemory};

impl Numbers<'_> {
    /// A statement that calculates.
    #[tactic(auto, unfolding(elaboration::specs::Resolving::numbered))]
    fn calculated(&self, kind: StmKind) -> Result<StmKind, NoMemory>
        ensures { IsNumbered self.now kind result }
    {
        match kind {
            StmKind::Set(r, a) => Ok(StmKind::Set(self.register(r)?, self.atom(a)?)),
            StmKind::Conv(k, r, a) => Ok(StmKind::Conv(k, self.register(r)?, self.atom(a)?)),
            StmKind::Un(op, k, r, a) => Ok(StmKind::Un(op, k, self.register(r)?, self.atom(a)?)),
            StmKind::Bin(op, k, r, a, b) => {
                let (a, b) = (self.atom(a)?, self.atom(b)?);
                Ok(StmKind::Bin(op, k, self.register(r)?, a, b))
            }
            StmKind::Cmp(op, r, a, b) => {
                let (a, b) = (self.atom(a)?, self.atom(b)?);
                Ok(StmKind::Cmp(op, self.register(r)?, a, b))
            }
            StmKind::Add(r, p, a, s) => {
                let (p, a) = (self.atom(p)?, self.atom(a)?);
                Ok(StmKind::Add(self.register(r)?, p, a, s))
            }
            StmKind::Sub(r, p, a, s) => {
                let (p, a) = (self.atom(p)?, self.atom(a)?);
                Ok(StmKind::Sub(self.register(r)?, p, a, s))
            }
            StmKind::Off(r, p, c) => Ok(StmKind::Off(self.register(r)?, self.atom(p)?, c)),
            StmKind::Diff(r, p, q, s) => {
                let (p, q) = (self.atom(p)?, self.atom(q)?);
                Ok(StmKind::Diff(self.register(r)?, p, q, s))
            }
            StmKind::Pcmp(op, r, p, q) => {
                let (p, q) = (self.atom(p)?, self.atom(q)?);
                Ok(StmKind::Pcmp(op, self.register(r)?, p, q))
            }
            StmKind::Test(r, p) => Ok(StmKind::Test(self.register(r)?, self.atom(p)?)),
            other => self.accessed(other),
        }
    }

    /// A statement that reads or writes memory.
    #[tactic(auto, unfolding(elaboration::specs::Resolving::numbered))]
    fn accessed(&self, kind: StmKind) -> Result<StmKind, NoMemory>
        ensures { IsNumbered self.now kind result }
    {
        match kind {
            StmKind::Load(k, r, p) => Ok(StmKind::Load(k, self.register(r)?, self.atom(p)?)),
            StmKind::Loadp(r, p) => Ok(StmKind::Loadp(self.register(r)?, self.atom(p)?)),
            StmKind::Store(k, p, a) => Ok(StmKind::Store(k, self.atom(p)?, self.atom(a)?)),
            StmKind::Storep(p, q) => Ok(StmKind::Storep(self.atom(p)?, self.atom(q)?)),
            StmKind::Copy(p, q, k) => Ok(StmKind::Copy(self.atom(p)?, self.atom(q)?, k)),
            StmKind::Clear(p, k) => Ok(StmKind::Clear(self.atom(p)?, k)),
            other => self.jumped(other),
        }
    }

    /// A statement that goes elsewhere.
    #[tactic(auto, unfolding(elaboration::specs::Resolving::numbered))]
    fn jumped(&self, kind: StmKind) -> Result<StmKind, NoMemory>
        ensures { IsNumbered self.now kind result }
    {
        match kind {
            StmKind::Jump(l) => Ok(StmKind::Jump(self.point(l))),
            StmKind::Zero(a, l) => Ok(StmKind::Zero(self.atom(a)?, self.point(l))),
            StmKind::Case(a, v, l) => Ok(StmKind::Case(self.atom(a)?, v, self.point(l))),
            StmKind::Loop(l) => Ok(StmKind::Loop(self.point(l))),
            StmKind::Enter => Ok(StmKind::Enter),
            StmKind::Leave => Ok(StmKind::Leave),
            StmKind::Return(None) => Ok(StmKind::Return(None)),
            StmKind::Return(Some(a)) => Ok(StmKind::Return(Some(self.atom(a)?))),
            other => self.called(other),
        }
    }

    /// A statement that calls.
    #[tactic(auto, unfolding(elaboration::specs::Resolving::numbered))]
    fn called(&self, kind: StmKind) -> Result<StmKind, NoMemory>
        ensures { IsNumbered self.now kind result }
    {
        match kind {
            StmKind::Call(f, r, args) => {
                let args = self.atoms(args)?;
                Ok(StmKind::Call(self.function(f), self.maybe_register(r)?, args))
            }
            StmKind::Malloc(r, k, t) => {
                let k = self.atom(k)?;
                Ok(StmKind::Malloc(self.register(r)?, k, t))
            }
            StmKind::Calloc(r, m, k, t) => {
                let (m, k) = (self.atom(m)?, self.atom(k)?);
                Ok(StmKind::Calloc(self.register(r)?, m, k, t))
            }
            StmKind::Realloc(r, p, k, t) => {
                let (p, k) = (self.atom(p)?, self.atom(k)?);
                Ok(StmKind::Realloc(self.register(r)?, p, k, t))
            }
            StmKind::Free(p) => Ok(StmKind::Free(self.atom(p)?)),
            StmKind::Lib(name, r, args) => {
                let args = self.atoms(args)?;
                Ok(StmKind::Lib(name, self.maybe_register(r)?, args))
            }
            StmKind::Printf(r, k, args) => {
                let args = self.atoms(args)?;
                Ok(StmKind::Printf(self.register(r)?, k, args))
            }
            // All others were taken before.
            _ => Err(NoMemory),
        }
    }

    /// The statements among pieces.
    #[tactic(auto, using(crate::proofs::Bodies::body_more))]
    pub(crate) fn body(&self, pieces: Vec<Piece>) -> Result<Items<Stm>, NoMemory>
        ensures { IsBody self.now (map plain_piece pieces.items) result }
    {
        let mut body = Items::new(self.alloc);
        for piece in pieces {
            if let Piece::Does(stm) = piece {
                let Stm { line, kind } = stm;
                let kind = self.calculated(kind)?;
                body.push(Stm { line, kind })?;
            }
        }
        Ok(body)
    }
}
