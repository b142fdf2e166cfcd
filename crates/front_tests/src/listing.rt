//! A listing of each statement, written by hand from the table of statements and their signs.

use c_types::Layout;
use core_tree::{
    Atom, BinOp, CmpOp, Core, Func, LibName, Mem, Reg, Start, Static, Stm, StmKind, UnOp, list,
};
use hs_base::{IntKind, Items};
use std::alloc::Global;
use std::test::Fail;

fn bytes(alloc: Global, text: &[u8]) -> Result<Items<u8>, Fail> {
    Ok(Items::from(Vec::from_slice(alloc, text)?))
}

fn layout(alloc: Global, size: u32, slots: &[u32]) -> Result<Layout, Fail> {
    Ok(Layout {
        size,
        align: 4,
        slots: Items::from(Vec::from_slice(alloc, slots)?),
    })
}

fn atoms(alloc: Global, atoms: &[Atom]) -> Result<Items<Atom>, Fail> {
    Ok(Items::from(Vec::from_slice(alloc, atoms)?))
}

fn register(name: Option<Items<u8>>, pointer: bool) -> Reg {
    Reg { name, pointer }
}

/// Adds statements of a line to a body.
fn add(body: &mut Items<Stm>, line: u32, kinds: Vec<StmKind>) -> Result<(), Fail> {
    for kind in kinds {
        body.push(Stm { line, kind })?;
    }
    Ok(())
}

/// A function of line 1.
fn function(
    alloc: Global,
    name: &[u8],
    regs: Items<Reg>,
    mems: Items<Mem>,
    body: Items<Stm>,
) -> Result<Func, Fail> {
    Ok(Func {
        name: bytes(alloc, name)?,
        line: 1,
        params: 0,
        regs,
        mems,
        body,
        formats: Items::new(alloc),
    })
}

fn values() -> [StmKind; 15] {
    [
        StmKind::Set(1, Atom::Int(-5)),
        StmKind::Conv(IntKind::U8, 1, Atom::Reg(1)),
        StmKind::Conv(IntKind::U16, 1, Atom::Reg(1)),
        StmKind::Conv(IntKind::U64, 1, Atom::Reg(1)),
        StmKind::Un(UnOp::Not, IntKind::I64, 1, Atom::Int(7)),
        StmKind::Bin(BinOp::Shl, IntKind::U32, 1, Atom::Reg(1), Atom::Int(2)),
        StmKind::Cmp(CmpOp::Le, 1, Atom::Reg(1), Atom::Int(18446744073709551615)),
        StmKind::Add(0, Atom::Static(0), Atom::Reg(1), 4),
        StmKind::Sub(0, Atom::Reg(0), Atom::Int(1), 8),
        StmKind::Off(0, Atom::Mem(0), 12),
        StmKind::Diff(1, Atom::Reg(0), Atom::Mem(0), 4),
        StmKind::Pcmp(CmpOp::Ne, 1, Atom::Reg(0), Atom::Null),
        StmKind::Test(1, Atom::Reg(0)),
        StmKind::Load(IntKind::I16, 1, Atom::Reg(0)),
        StmKind::Loadp(0, Atom::Static(0)),
    ]
}

fn writes_and_jumps() -> [StmKind; 12] {
    [
        StmKind::Store(IntKind::I8, Atom::Reg(0), Atom::Reg(1)),
        StmKind::Storep(Atom::Mem(0), Atom::Static(1)),
        StmKind::Copy(Atom::Mem(0), Atom::Static(1), 3),
        StmKind::Clear(Atom::Mem(0), 16),
        StmKind::Jump(18),
        StmKind::Zero(Atom::Reg(1), 20),
        StmKind::Case(Atom::Reg(1), -2, 20),
        StmKind::Loop(0),
        StmKind::Enter,
        StmKind::Free(Atom::Reg(0)),
        StmKind::Leave,
        StmKind::Return(None),
    ]
}

fn calls(alloc: Global) -> Result<[StmKind; 5], Fail> {
    Ok([
        StmKind::Call(0, None, atoms(alloc, &[Atom::Mem(0), Atom::Reg(1)])?),
        StmKind::Call(1, Some(1), atoms(alloc, &[])?),
        StmKind::Lib(LibName::Exit, None, atoms(alloc, &[Atom::Int(3)])?),
        StmKind::Lib(LibName::Strlen, Some(1), atoms(alloc, &[Atom::Reg(0)])?),
        StmKind::Printf(1, 10, atoms(alloc, &[Atom::Reg(0), Atom::Int(122)])?),
    ])
}

fn new_objects(alloc: Global) -> Result<[StmKind; 3], Fail> {
    Ok([
        StmKind::Malloc(0, Atom::Int(16), layout(alloc, 8, &[0, 4])?),
        StmKind::Calloc(0, Atom::Int(3), Atom::Reg(1), layout(alloc, 1, &[])?),
        StmKind::Realloc(0, Atom::Reg(0), Atom::Int(17), layout(alloc, 24, &[12])?),
    ])
}

/// A function with each statement, behind a static with a name and one without.
fn each_word(alloc: Global) -> Result<Core, Fail> {
    let mut body = Items::new(alloc);
    add(&mut body, 3, Vec::from_array(alloc, values())?)?;
    add(&mut body, 40, Vec::from_array(alloc, writes_and_jumps())?)?;
    add(&mut body, 5, Vec::from_array(alloc, calls(alloc)?)?)?;
    add(&mut body, 6, Vec::from_array(alloc, new_objects(alloc)?)?)?;
    let mut regs = Items::new(alloc);
    regs.push(register(Some(bytes(alloc, b"p")?), true))?;
    regs.push(register(None, false))?;
    let mut mems = Items::new(alloc);
    mems.push(Mem {
        name: bytes(alloc, b"a")?,
        layout: layout(alloc, 16, &[])?,
    })?;
    let mut funcs = Items::new(alloc);
    funcs.push(function(alloc, b"f", regs, mems, body)?)?;
    Ok(Core {
        statics: two_statics(alloc)?,
        funcs,
    })
}

fn two_statics(alloc: Global) -> Result<Items<Static>, Fail> {
    let mut statics = Items::new(alloc);
    statics.push(Static {
        name: Some(bytes(alloc, b"e")?),
        layout: layout(alloc, 12, &[0, 8])?,
        start: no_start(alloc),
    })?;
    statics.push(Static {
        name: None,
        layout: layout(alloc, 3, &[])?,
        start: no_start(alloc),
    })?;
    Ok(statics)
}

fn no_start(alloc: Global) -> Start {
    Start {
        bytes: Items::new(alloc),
        pointers: Items::new(alloc),
    }
}

const EACH_WORD: &[u8] = b"static 0 e size 12 slots 0 8
static 1 - size 3 slots
func f regs 2 mems 1
reg 0 ptr p
reg 1 int -
mem 0 a size 16
0 3 set r1 -5
1 3 conv u8 r1 r1
2 3 conv u16 r1 r1
3 3 conv u64 r1 r1
4 3 un ~ i64 r1 7
5 3 bin << u32 r1 r1 2
6 3 cmp <= r1 r1 18446744073709551615
7 3 add r0 g0 r1 4
8 3 sub r0 r0 1 8
9 3 off r0 m0 12
10 3 diff r1 r0 m0 4
11 3 pcmp != r1 r0 null
12 3 test r1 r0
13 3 load i16 r1 r0
14 3 loadp r0 g0
15 40 store i8 r0 r1
16 40 storep m0 g1
17 40 copy m0 g1 3
18 40 clear m0 16
19 40 jump 18
20 40 zero r1 20
21 40 case r1 -2 20
22 40 loop 0
23 40 enter
24 40 free r0
25 40 leave
26 40 return -
27 5 call f - m0 r1
28 5 call - r1
29 5 lib exit - 3
30 5 lib strlen r1 r0
31 5 printf r1 f10 r0 122
32 6 malloc r0 16 8[0,4]
33 6 calloc r0 3 r1 1[]
34 6 realloc r0 r0 17 24[12]
";

#[test]
fn each_statement_is_listed(rt: HostRuntime) -> Result<(), Fail> {
    let alloc = rt.alloc();
    let text = list(alloc, &each_word(alloc)?)?;
    assert_eq!(rt; text.as_slice(), EACH_WORD);
    Ok(())
}
