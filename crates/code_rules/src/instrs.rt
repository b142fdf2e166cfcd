//! What an instruction reads, writes and leads to.

ghost use Rattle.std.specs.Prelude.{◌≡◌, ℕ};
ghost use Rattle.core_tree.specs.Statements.{leads_to};
ghost use Rattle.flat_code.specs.Table.{chosen, edges, written};
ghost use Rattle.flat_code.specs.Lives.{reads, writes};

use core_tree::{Edges, LibName};
use flat_code::{Instr, Op};

/// The register that takes a result which may be left.
pub(crate) fn chosen(instr: Instr) -> Option<u32>
    ensures { result ≡ chosen instr }
{
    if instr.c == 1 { Some(instr.a) } else { None }
}

/// The register that an instruction writes.
pub(crate) fn written(instr: Instr) -> Option<u32>
    ensures { result ≡ written instr instr.op }
{
    match instr.op {
        Op::Set
        | Op::Conv(_)
        | Op::Un(_, _)
        | Op::Bin(_, _)
        | Op::Cmp(_)
        | Op::Add
        | Op::Sub
        | Op::Diff
        | Op::Pcmp(_)
        | Op::Test
        | Op::Load(_)
        | Op::Loadp
        | Op::Malloc
        | Op::Calloc
        | Op::Realloc
        | Op::Printf => Some(instr.a),
        Op::Call | Op::Lib(_) => chosen(instr),
        _ => None,
    }
}

/// Says whether an instruction writes a register.
pub(crate) fn writes(instr: Instr, register: u32) -> bool
    ensures { result ≡ writes instr instr.op register }
{
    match written(instr) {
        Some(place) => place == register,
        None => false,
    }
}

/// Says whether an instruction reads a register.
pub(crate) fn reads(instr: Instr, register: u32) -> bool
    ensures { result ≡ reads instr instr.op register }
{
    match instr.op {
        Op::HandReg => instr.a == register,
        _ => false,
    }
}

/// Where the run may go from an instruction.
pub(crate) fn edges(instr: Instr) -> Edges
    ensures { (point : ℕ) → edges instr instr.op point ≡ leads_to result point }
{
    let (next, target) = match instr.op {
        Op::Jump | Op::Loop => (false, Some(instr.b)),
        Op::Zero | Op::Case => (true, Some(instr.b)),
        Op::Lib(LibName::Exit | LibName::Abort) | Op::Start | Op::Return | Op::Give => (
            false, None,
        ),
        _ => (true, None),
    };
    Edges { next, target }
}
