//! What a statement hands over.

ghost use Rattle.std.specs.Prelude.{◌≡◌, ◌∷◌, [], IfOk, All, flat_map, length};
ghost use Rattle.std.specs.Option.{option_to_list};
ghost use Rattle.core_tree.specs.Statements.{operands};
ghost use Rattle.core_tree.specs.Sound.{IsNumber, HasNumbers, atom_numbers, own_numbers};
ghost use Rattle.object_meaning.specs.compiled.Handing.{hand_integer, hand_of, code_length, instr};
ghost use Rattle.flat_codegen.specs.Emitting.{with_instrs, handing, handing_all};

use crate::emitter::{Emitter, fit};
use core_tree::{Atom, StmKind};
use flat_code::{Instr, Op};
use hs_base::{Line, NoMemory};

/// 2^63, from which on an integer is handed over by its low 64 bits.
const FIRST_UNSIGNED: i128 = 9_223_372_036_854_775_808;

/// 2^64.
const TWO_TO_64: i128 = 18_446_744_073_709_551_616;

/// An instruction with these numbers, and 0 for the one that marks a result.
pub(crate) fn instr(op: Op, a: u32, b: u32, imm: i64) -> Instr
    ensures { result ≡ instr op a b 0 imm }
{
    Instr {
        op,
        a,
        b,
        c: 0,
        imm,
    }
}

/// The instruction that hands an integer over.
fn hand_integer(number: i128) -> Instr
    requires { IsNumber number }
    ensures { result ≡ hand_integer number }
{
    if number < FIRST_UNSIGNED {
        instr(Op::HandInt, 0, 0, number as i64)
    } else {
        instr(Op::HandUnsigned, 0, 0, (number - TWO_TO_64) as i64)
    }
}

/// The instruction that hands an operand over.
fn hand(atom: Atom) -> Instr
    requires { All IsNumber (atom_numbers atom) }
    ensures { result ≡ hand_of atom }
{
    match atom {
        Atom::Reg(register) => instr(Op::HandReg, register, 0, 0),
        Atom::Int(number) => hand_integer(number),
        Atom::Null => instr(Op::HandNull, 0, 0, 0),
        Atom::Static(number) => instr(Op::HandStatic, number, 0, 0),
        Atom::Mem(number) => instr(Op::HandLocal, number, 0, 0),
    }
}

/// How many operands a statement has.
fn operand_count(kind: &StmKind) -> usize
    ensures { result ≡ length (operands kind.now) }
{
    match kind {
        StmKind::Bin(..)
        | StmKind::Cmp(..)
        | StmKind::Add(..)
        | StmKind::Sub(..)
        | StmKind::Diff(..)
        | StmKind::Pcmp(..)
        | StmKind::Store(..)
        | StmKind::Storep(..)
        | StmKind::Copy(..)
        | StmKind::Calloc(..)
        | StmKind::Realloc(..) => 2,
        StmKind::Call(_, _, args) | StmKind::Lib(_, _, args) | StmKind::Printf(_, _, args) => {
            args.len()
        }
        StmKind::Set(..)
        | StmKind::Conv(..)
        | StmKind::Un(..)
        | StmKind::Off(..)
        | StmKind::Test(..)
        | StmKind::Load(..)
        | StmKind::Loadp(..)
        | StmKind::Clear(..)
        | StmKind::Zero(..)
        | StmKind::Case(..)
        | StmKind::Malloc(..)
        | StmKind::Free(_)
        | StmKind::Return(Some(_)) => 1,
        StmKind::Jump(_)
        | StmKind::Loop(_)
        | StmKind::Enter
        | StmKind::Leave
        | StmKind::Return(None) => 0,
    }
}

/// The number that a statement has beside its operands and that may need 64 bits.
fn own_number(kind: &StmKind) -> Option<i128>
    ensures { own_numbers kind.now ≡ option_to_list result }
{
    match kind {
        StmKind::Off(_, _, number)
        | StmKind::Case(_, number, _)
        | StmKind::Copy(_, _, number)
        | StmKind::Clear(_, number) => Some(*number),
        _ => None,
    }
}

/// How many instructions a statement has: one for each thing that it hands over, and the one that does what it does.
pub(crate) fn code_length(kind: &StmKind) -> Result<u32, NoMemory>
    ensures { IfOk result (λ length. length ≡ code_length kind.now) }
{
    let operands = fit(operand_count(kind))?;
    let others = if own_number(kind).is_some() { 2 } else { 1 };
    operands.checked_add(others).ok_or(NoMemory)
}

impl Emitter {
    /// Adds the instruction that hands an operand over.
    fn hand(&mut self, line: Line, atom: Atom) -> Result<(), NoMemory>
        requires { All IsNumber (atom_numbers atom) }
        ensures { IfOk result (λ _. self.new.code ≡ with_instrs self.old.code line (hand_of atom ∷ [])) }
    {
        self.push(line, hand(atom))
    }

    /// Adds the instructions that hand the operands of a statement over.
    fn hand_operands(&mut self, line: Line, kind: &StmKind) -> Result<(), NoMemory>
        requires { All IsNumber (flat_map atom_numbers (operands kind.now)) }
        ensures { IfOk result (λ _. self.new.code ≡ with_instrs self.old.code line (handing kind.now)) }
    {
        for place in 0..operand_count(kind) {
            if let Some(atom) = kind.operand(place) {
                self.hand(line, atom)?;
            }
        }
        Ok(())
    }

    /// Adds the instructions that hand over all that a statement hands over.
    pub(crate) fn hand_all(&mut self, line: Line, kind: &StmKind) -> Result<(), NoMemory>
        requires { HasNumbers kind.now }
        ensures { IfOk result (λ _. self.new.code ≡ with_instrs self.old.code line (handing_all kind.now)) }
    {
        self.hand_operands(line, kind)?;
        if let Some(number) = own_number(kind) {
            self.push(line, hand_integer(number))?;
        }
        Ok(())
    }
}
