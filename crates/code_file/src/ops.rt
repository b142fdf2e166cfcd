//! The numbers of operations.

ghost use Rattle.std.specs.Prelude.{◌≡◌, ◌≢◌, ◌<◌, ◌≤◌, MatchOption};
ghost use Rattle.flat_code.specs.declared.instructions.Op.{Op};
ghost use Rattle.code_file.specs.Ops.{bin_number, cmp_number, kind_number, lib_number, op_number, un_number};

use core_tree::{BinOp, CmpOp, LibName, UnOp};
use flat_code::Op;
use hs_base::IntKind;

/// The number of a kind.
fn kind_number(kind: IntKind) -> u8
    ensures { result ≡ kind_number kind }
{
    match kind {
        IntKind::I8 => 0,
        IntKind::U8 => 1,
        IntKind::I16 => 2,
        IntKind::U16 => 3,
        IntKind::I32 => 4,
        IntKind::U32 => 5,
        IntKind::I64 => 6,
        IntKind::U64 => 7,
    }
}

fn kind_of(number: u8) -> IntKind
    requires { number < 8 }
    ensures { kind_number result ≡ number }
{
    match number {
        0 => IntKind::I8,
        1 => IntKind::U8,
        2 => IntKind::I16,
        3 => IntKind::U16,
        4 => IntKind::I32,
        5 => IntKind::U32,
        6 => IntKind::I64,
        _ => IntKind::U64,
    }
}

fn un_number(op: UnOp) -> u8
    ensures { result ≡ un_number op }
{
    match op {
        UnOp::Neg => 0,
        UnOp::Not => 1,
    }
}

fn un_of(number: u8) -> UnOp
    requires { number < 2 }
    ensures { un_number result ≡ number }
{
    match number {
        0 => UnOp::Neg,
        _ => UnOp::Not,
    }
}

fn bin_number(op: BinOp) -> u8
    ensures { result ≡ bin_number op }
{
    match op {
        BinOp::Add => 0,
        BinOp::Sub => 1,
        BinOp::Mul => 2,
        BinOp::Div => 3,
        BinOp::Rem => 4,
        BinOp::And => 5,
        BinOp::Or => 6,
        BinOp::Xor => 7,
        BinOp::Shl => 8,
        BinOp::Shr => 9,
    }
}

fn bin_of(number: u8) -> BinOp
    requires { number < 10 }
    ensures { bin_number result ≡ number }
{
    match number {
        0 => BinOp::Add,
        1 => BinOp::Sub,
        2 => BinOp::Mul,
        3 => BinOp::Div,
        4 => BinOp::Rem,
        5 => BinOp::And,
        6 => BinOp::Or,
        7 => BinOp::Xor,
        8 => BinOp::Shl,
        _ => BinOp::Shr,
    }
}

fn cmp_number(op: CmpOp) -> u8
    ensures { result ≡ cmp_number op }
{
    match op {
        CmpOp::Eq => 0,
        CmpOp::Ne => 1,
        CmpOp::Lt => 2,
        CmpOp::Gt => 3,
        CmpOp::Le => 4,
        CmpOp::Ge => 5,
    }
}

fn cmp_of(number: u8) -> CmpOp
    requires { number < 6 }
    ensures { cmp_number result ≡ number }
{
    match number {
        0 => CmpOp::Eq,
        1 => CmpOp::Ne,
        2 => CmpOp::Lt,
        3 => CmpOp::Gt,
        4 => CmpOp::Le,
        _ => CmpOp::Ge,
    }
}

fn lib_number(name: LibName) -> u8
    ensures { result ≡ lib_number name }
{
    match name {
        LibName::Exit => 0,
        LibName::Abort => 1,
        LibName::Memcpy => 2,
        LibName::Memmove => 3,
        LibName::Memset => 4,
        LibName::Strlen => 5,
        LibName::Strcmp => 6,
        LibName::Getchar => 7,
        LibName::Putchar => 8,
        LibName::Puts => 9,
    }
}

fn lib_of(number: u8) -> LibName
    requires { number < 10 }
    ensures { lib_number result ≡ number }
{
    match number {
        0 => LibName::Exit,
        1 => LibName::Abort,
        2 => LibName::Memcpy,
        3 => LibName::Memmove,
        4 => LibName::Memset,
        5 => LibName::Strlen,
        6 => LibName::Strcmp,
        7 => LibName::Getchar,
        8 => LibName::Putchar,
        _ => LibName::Puts,
    }
}

/// The number of an operation: its place in the table of operations.
pub(crate) fn op_number(op: Op) -> u8
    ensures { result ≡ op_number op }
{
    match op {
        Op::Start => 0,
        Op::HandReg => 1,
        Op::HandInt => 2,
        Op::HandUnsigned => 3,
        Op::HandNull => 4,
        Op::HandStatic => 5,
        Op::HandLocal => 6,
        Op::Set => 7,
        Op::Conv(kind) => 8 + kind_number(kind),
        Op::Un(op, kind) => 16 + (8 * un_number(op) + kind_number(kind)),
        Op::Bin(op, kind) => 32 + (8 * bin_number(op) + kind_number(kind)),
        Op::Cmp(op) => 112 + cmp_number(op),
        Op::Add => 118,
        Op::Sub => 119,
        Op::Diff => 120,
        Op::Pcmp(op) => 121 + cmp_number(op),
        Op::Test => 127,
        Op::Load(kind) => 128 + kind_number(kind),
        Op::Loadp => 136,
        Op::Store(kind) => 137 + kind_number(kind),
        Op::Storep => 145,
        Op::Copy => 146,
        Op::Clear => 147,
        Op::Jump => 148,
        Op::Zero => 149,
        Op::Case => 150,
        Op::Loop => 151,
        Op::Call => 152,
        Op::Malloc => 153,
        Op::Calloc => 154,
        Op::Realloc => 155,
        Op::Free => 156,
        Op::Lib(name) => 157 + lib_number(name),
        Op::Printf => 167,
        Op::Enter => 168,
        Op::Leave => 169,
        Op::Return => 170,
        Op::Give => 171,
    }
}

/// The operation of a number below 8.
fn first_op(number: u8) -> Op
    requires { number < 8 }
    ensures { op_number result ≡ number }
{
    match number {
        0 => Op::Start,
        1 => Op::HandReg,
        2 => Op::HandInt,
        3 => Op::HandUnsigned,
        4 => Op::HandNull,
        5 => Op::HandStatic,
        6 => Op::HandLocal,
        _ => Op::Set,
    }
}

/// The operation of a number from 145 to 156.
fn middle_op(number: u8) -> Op
    requires low { 145 ≤ number }
    requires high { number ≤ 156 }
    ensures { op_number result ≡ number }
{
    match number {
        145 => Op::Storep,
        146 => Op::Copy,
        147 => Op::Clear,
        148 => Op::Jump,
        149 => Op::Zero,
        150 => Op::Case,
        151 => Op::Loop,
        152 => Op::Call,
        153 => Op::Malloc,
        154 => Op::Calloc,
        155 => Op::Realloc,
        _ => Op::Free,
    }
}

/// The operation of a number, where there is one.
pub(crate) fn op_of(number: u8) -> Option<Op>
    ensures { MatchOption result ((o : Op) → op_number o ≢ number) (λ o. op_number o ≡ number) }
{
    match number {
        0..=7 => Some(first_op(number)),
        8..=15 => Some(Op::Conv(kind_of(number - 8))),
        16..=31 => Some(Op::Un(un_of((number - 16) / 8), kind_of((number - 16) % 8))),
        32..=111 => Some(Op::Bin(bin_of((number - 32) / 8), kind_of((number - 32) % 8))),
        112..=117 => Some(Op::Cmp(cmp_of(number - 112))),
        118 => Some(Op::Add),
        119 => Some(Op::Sub),
        120 => Some(Op::Diff),
        121..=126 => Some(Op::Pcmp(cmp_of(number - 121))),
        127 => Some(Op::Test),
        128..=135 => Some(Op::Load(kind_of(number - 128))),
        136 => Some(Op::Loadp),
        137..=144 => Some(Op::Store(kind_of(number - 137))),
        145..=156 => Some(middle_op(number)),
        157..=166 => Some(Op::Lib(lib_of(number - 157))),
        167 => Some(Op::Printf),
        168 => Some(Op::Enter),
        169 => Some(Op::Leave),
        170 => Some(Op::Return),
        171 => Some(Op::Give),
        _ => None,
    }
}
