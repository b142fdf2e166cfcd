//! What a statement writes and reads, and where the run goes behind it.

ghost use Rattle.std.specs.Prelude.{◌≡◌, ◌∷◌, [], ℕ, Bool, slice_get};
ghost use Rattle.core_tree.specs.Statements.{edges, edges_of_lib, given, leads_to, operands, written};

use crate::statements::{Atom, LibName, StmKind};

/// Where the run may go from a statement: on to the next point, and to a target.
#[derive(Clone, Copy, Debug, PartialEq, Eq)]
pub struct Edges {
    pub next: bool,
    pub target: Option<u32>,
}

/// The edges of a statement that only goes on.
const ON: Edges = Edges {
    next: true,
    target: None,
};

impl StmKind {
    /// The register that the statement writes.
    pub fn written(&self) -> Option<u32>
        ensures { result ≡ written self.now }
    {
        match self {
            StmKind::Set(r, _)
            | StmKind::Conv(_, r, _)
            | StmKind::Un(_, _, r, _)
            | StmKind::Bin(_, _, r, _, _)
            | StmKind::Cmp(_, r, _, _)
            | StmKind::Add(r, _, _, _)
            | StmKind::Sub(r, _, _, _)
            | StmKind::Off(r, _, _)
            | StmKind::Diff(r, _, _, _)
            | StmKind::Pcmp(_, r, _, _)
            | StmKind::Test(r, _)
            | StmKind::Load(_, r, _)
            | StmKind::Loadp(r, _)
            | StmKind::Malloc(r, _, _)
            | StmKind::Calloc(r, _, _, _)
            | StmKind::Realloc(r, _, _, _)
            | StmKind::Printf(r, _, _) => Some(*r),
            StmKind::Call(_, r, _) | StmKind::Lib(_, r, _) => *r,
            _ => None,
        }
    }

    /// The statement's operand at a place, counted from 0. A statement reads the registers among its operands.
    pub fn operand(&self, place: usize) -> Option<Atom>
        ensures { result ≡ slice_get (operands self.now) place }
    {
        match self {
            StmKind::Set(_, a)
            | StmKind::Conv(_, _, a)
            | StmKind::Un(_, _, _, a)
            | StmKind::Off(_, a, _)
            | StmKind::Test(_, a)
            | StmKind::Load(_, _, a)
            | StmKind::Loadp(_, a)
            | StmKind::Clear(a, _)
            | StmKind::Zero(a, _)
            | StmKind::Case(a, _, _)
            | StmKind::Malloc(_, a, _)
            | StmKind::Free(a) => only(Some(*a), place),
            StmKind::Bin(_, _, _, a, b)
            | StmKind::Cmp(_, _, a, b)
            | StmKind::Add(_, a, b, _)
            | StmKind::Sub(_, a, b, _)
            | StmKind::Diff(_, a, b, _)
            | StmKind::Pcmp(_, _, a, b)
            | StmKind::Store(_, a, b)
            | StmKind::Storep(a, b)
            | StmKind::Copy(a, b, _)
            | StmKind::Calloc(_, a, b, _)
            | StmKind::Realloc(_, a, b, _) => one_of_two(*a, *b, place),
            StmKind::Call(_, _, args) | StmKind::Lib(_, _, args) | StmKind::Printf(_, _, args) => {
                args.get(place).copied()
            }
            StmKind::Return(a) => only(*a, place),
            StmKind::Jump(_) | StmKind::Loop(_) | StmKind::Enter | StmKind::Leave => None,
        }
    }

    /// Where the run may go from the statement, whatever its operands hold.
    pub fn edges(&self) -> Edges
        ensures { (point : ℕ) → edges self.now point ≡ leads_to result point }
    {
        match self {
            StmKind::Jump(l) | StmKind::Loop(l) => Edges {
                next: false,
                target: Some(*l),
            },
            StmKind::Zero(_, l) | StmKind::Case(_, _, l) => Edges {
                next: true,
                target: Some(*l),
            },
            StmKind::Lib(name, ..) => Edges {
                next: name.goes_on(),
                target: None,
            },
            StmKind::Return(_) => Edges {
                next: false,
                target: None,
            },
            _ => ON,
        }
    }
}

impl LibName {
    /// Says whether the run goes on behind a call of the function.
    pub fn goes_on(self) -> bool
        ensures { (point : ℕ) → edges_of_lib self point ≡ leads_to (record { next = result; target = None }) point }
    {
        match self {
            LibName::Exit | LibName::Abort => false,
            _ => true,
        }
    }
}

/// The operand at a place of a statement that has one at most.
fn only(a: Option<Atom>, place: usize) -> Option<Atom>
    ensures { result ≡ slice_get (given a) place }
{
    if place == 0 { a } else { None }
}

/// The operand at a place of a statement that has two.
fn one_of_two(a: Atom, b: Atom, place: usize) -> Option<Atom>
    ensures { result ≡ slice_get (a ∷ b ∷ []) place }
{
    match place {
        0 => Some(a),
        1 => Some(b),
        _ => None,
    }
}
