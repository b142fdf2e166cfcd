//! The instruction that does what a statement does.

ghost use Rattle.std.specs.Prelude.{◌≡◌};
ghost use Rattle.core_tree.specs.Sound.{HasNumbers};
ghost use Rattle.flat_codegen.specs.Emitting.{op_of, named_by, mark_of, size_of, doing};
ghost use Rattle.flat_codegen.specs.Placing.{place_in};

use crate::places::Places;
use core_tree::StmKind;
use flat_code::{Instr, Op};

/// What a statement names in code: the places of its function's points, and the numbers of its layout and its format.
#[derive(Drop)]
pub(crate) struct Names<'a> {
    pub(crate) places: &'a Places,
    pub(crate) layout: u32,
    pub(crate) format: u32,
}

/// What the instruction does.
fn op_of(kind: &StmKind) -> Op
    ensures { result ≡ op_of kind.now }
{
    match kind {
        StmKind::Set(..) => Op::Set,
        StmKind::Conv(k, ..) => Op::Conv(*k),
        StmKind::Un(op, k, ..) => Op::Un(*op, *k),
        StmKind::Bin(op, k, ..) => Op::Bin(*op, *k),
        StmKind::Cmp(op, ..) => Op::Cmp(*op),
        StmKind::Add(..) | StmKind::Off(..) => Op::Add,
        StmKind::Sub(..) => Op::Sub,
        StmKind::Diff(..) => Op::Diff,
        StmKind::Pcmp(op, ..) => Op::Pcmp(*op),
        StmKind::Test(..) => Op::Test,
        StmKind::Load(k, ..) => Op::Load(*k),
        StmKind::Loadp(..) => Op::Loadp,
        StmKind::Store(k, ..) => Op::Store(*k),
        StmKind::Storep(..) => Op::Storep,
        StmKind::Copy(..) => Op::Copy,
        StmKind::Clear(..) => Op::Clear,
        StmKind::Jump(_) => Op::Jump,
        StmKind::Zero(..) => Op::Zero,
        StmKind::Case(..) => Op::Case,
        StmKind::Loop(_) => Op::Loop,
        StmKind::Call(..) => Op::Call,
        StmKind::Malloc(..) => Op::Malloc,
        StmKind::Calloc(..) => Op::Calloc,
        StmKind::Realloc(..) => Op::Realloc,
        StmKind::Free(_) => Op::Free,
        StmKind::Lib(name, ..) => Op::Lib(*name),
        StmKind::Printf(..) => Op::Printf,
        StmKind::Enter => Op::Enter,
        StmKind::Leave => Op::Leave,
        StmKind::Return(None) => Op::Return,
        StmKind::Return(Some(_)) => Op::Give,
    }
}

/// Whether a register takes a result that may be left.
fn mark_of(kind: &StmKind) -> u32
    ensures { result ≡ mark_of kind.now }
{
    match kind {
        StmKind::Call(_, Some(_), _) | StmKind::Lib(_, Some(_), _) => 1,
        _ => 0,
    }
}

/// The size by which the instruction moves and subtracts pointers.
fn size_of(kind: &StmKind) -> i64
    requires { HasNumbers kind.now }
    ensures { result ≡ size_of kind.now }
{
    match kind {
        StmKind::Add(.., size) | StmKind::Sub(.., size) | StmKind::Diff(.., size) => *size as i64,
        StmKind::Off(..) => 1,
        _ => 0,
    }
}

impl Names<'_> {
    /// What the instruction of a statement names beside registers.
    fn named_by(&self, kind: &StmKind) -> u32
        ensures { result ≡ named_by (place_in self.now.places.now) self.now.layout self.now.format kind.now }
    {
        match kind {
            StmKind::Jump(l) | StmKind::Zero(_, l) | StmKind::Case(_, _, l) | StmKind::Loop(l) => {
                self.places.place(*l)
            }
            StmKind::Call(function, ..) => *function,
            StmKind::Malloc(..) | StmKind::Calloc(..) | StmKind::Realloc(..) => self.layout,
            StmKind::Printf(..) => self.format,
            _ => 0,
        }
    }

    /// The instruction that does what a statement does.
    pub(crate) fn doing(&self, kind: &StmKind) -> Instr
        requires { HasNumbers kind.now }
        ensures { result ≡ doing (place_in self.now.places.now) self.now.layout self.now.format kind.now }
    {
        Instr {
            op: op_of(kind),
            a: kind.written().unwrap_or(0),
            b: self.named_by(kind),
            c: mark_of(kind),
            imm: size_of(kind),
        }
    }
}
