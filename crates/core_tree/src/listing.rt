//! The listing of a core: its statics and its functions, line by line.

ghost use Rattle.std.specs.Prelude.{◌≡◌, ◌++◌, ◌∷◌, [], ◌+◌, ◌<◌, ◌^◌, map, length, codes, decimal, IfOk};
ghost use Rattle.std.specs.List.{flat_map};
ghost use Rattle.core_tree.specs.Listing.{spaced, line_of, numbered, func_word, name_word, sort_word, statement_words, statement_line, register_line, memory_line, static_line, func_line, func_lines, listing};
ghost use Rattle.core_tree.specs.Parts.{first_words, last_words};

use crate::program::{Core, Func, Mem, Reg, Static};
use crate::statements::{Stm, StmKind};
use crate::text::{Text, Word};
use crate::words::kind_word;
use hs_base::{Items, NoMemory};
use std::alloc::Global;

/// The text of a core, line by line: each static with its size and slots, and each function with its registers, its memory
/// locals and its statements, each behind its point and its line. A name that is not there is written `-`.
pub fn list(alloc: Global, core: &Core) -> Result<Items<u8>, NoMemory>
    ensures { IfOk result (λ text. text ≡ listing core.now) }
{
    let mut text = Text::new(alloc);
    put_statics(&mut text, core.statics.as_slice())?;
    put_funcs(&mut text, core)?;
    Ok(text.into_items())
}

fn put_statics(text: &mut Text, statics: &[Static]) -> Result<(), NoMemory>
    ensures { IfOk result (λ _. text.new ≡ text.old ++ numbered static_line 0 statics.now) }
{
    for (place, item) in statics.iter().enumerate() {
        put_static(text, place, item)?;
    }
    Ok(())
}

fn put_static(text: &mut Text, place: usize, item: &Static) -> Result<(), NoMemory>
    ensures { IfOk result (λ _. text.new ≡ text.old ++ static_line place item.now) }
{
    text.put(b"static ")?;
    text.number(place as u64)?;
    text.names(&[name_or_dash(&item.name), b"size"])?;
    text.numbers(&[item.layout.size])?;
    text.names(&[b"slots"])?;
    text.numbers(item.layout.slots.as_slice())?;
    text.end()
}

/// A name, and `-` where there is none.
fn name_or_dash(name: &Option<Items<u8>>) -> &[u8]
    ensures { result.now ≡ name_word name.now }
{
    match name {
        Some(name) => name.as_slice(),
        None => b"-",
    }
}

fn put_funcs(text: &mut Text, core: &Core) -> Result<(), NoMemory>
    ensures { IfOk result (λ _. text.new ≡ text.old ++ flat_map (func_lines core.now) core.now.funcs) }
{
    for func in core.funcs.as_slice() {
        put_func(text, core, func)?;
    }
    Ok(())
}

fn put_func(text: &mut Text, core: &Core, func: &Func) -> Result<(), NoMemory>
    ensures { IfOk result (λ _. text.new ≡ text.old ++ func_lines core.now func.now) }
{
    put_func_line(text, func)?;
    put_registers(text, func.regs.as_slice())?;
    put_memory_locals(text, func.mems.as_slice())?;
    put_body(text, core, func.body.as_slice())
}

fn put_func_line(text: &mut Text, func: &Func) -> Result<(), NoMemory>
    ensures { IfOk result (λ _. text.new ≡ text.old ++ func_line func.now) }
{
    text.put(b"func")?;
    text.names(&[func.name.as_slice(), b"regs "])?;
    text.number(func.regs.len() as u64)?;
    text.put(b" mems ")?;
    text.number(func.mems.len() as u64)?;
    text.end()
}

fn put_registers(text: &mut Text, registers: &[Reg]) -> Result<(), NoMemory>
    ensures { IfOk result (λ _. text.new ≡ text.old ++ numbered register_line 0 registers.now) }
{
    for (place, register) in registers.iter().enumerate() {
        put_register(text, place, register)?;
    }
    Ok(())
}

fn put_register(text: &mut Text, place: usize, register: &Reg) -> Result<(), NoMemory>
    ensures { IfOk result (λ _. text.new ≡ text.old ++ register_line place register.now) }
{
    text.put(b"reg ")?;
    text.number(place as u64)?;
    text.names(&[sort_word(register), name_or_dash(&register.name)])?;
    text.end()
}

fn sort_word(register: &Reg) -> &[u8]
    ensures { result.now ≡ sort_word register.now }
{
    if register.pointer { b"ptr" } else { b"int" }
}

fn put_memory_locals(text: &mut Text, mems: &[Mem]) -> Result<(), NoMemory>
    ensures { IfOk result (λ _. text.new ≡ text.old ++ numbered memory_line 0 mems.now) }
{
    for (place, mem) in mems.iter().enumerate() {
        put_memory_local(text, place, mem)?;
    }
    Ok(())
}

fn put_memory_local(text: &mut Text, place: usize, mem: &Mem) -> Result<(), NoMemory>
    ensures { IfOk result (λ _. text.new ≡ text.old ++ memory_line place mem.now) }
{
    text.put(b"mem ")?;
    text.number(place as u64)?;
    text.names(&[mem.name.as_slice(), b"size"])?;
    text.numbers(&[mem.layout.size])?;
    text.end()
}

fn put_body(text: &mut Text, core: &Core, body: &[Stm]) -> Result<(), NoMemory>
    ensures { IfOk result (λ _. text.new ≡ text.old ++ numbered (statement_line core.now) 0 body.now) }
{
    for (point, statement) in body.iter().enumerate() {
        put_statement(text, core, point, statement)?;
    }
    Ok(())
}

fn put_statement(
    text: &mut Text,
    core: &Core,
    point: usize,
    statement: &Stm,
) -> Result<(), NoMemory>
    ensures { IfOk result (λ _. text.new ≡ text.old ++ statement_line core.now point statement.now) }
{
    text.number(point as u64)?;
    text.numbers(&[statement.line])?;
    put_first_words(text, core, &statement.kind)?;
    put_last_words(text, &statement.kind)?;
    text.end()
}

/// What a statement is called, its sign and kind, and the name of what it calls.
fn put_first_words(text: &mut Text, core: &Core, kind: &StmKind) -> Result<(), NoMemory>
    ensures { IfOk result (λ _. text.new ≡ text.old ++ spaced (first_words core.now kind.now)) }
{
    match kind {
        StmKind::Set(..) => text.names(&[b"set"]),
        StmKind::Conv(kind, ..) => text.names(&[b"conv", kind_word(*kind)]),
        StmKind::Un(op, kind, ..) => text.names(&[b"un", op.sign(), kind_word(*kind)]),
        StmKind::Bin(op, kind, ..) => text.names(&[b"bin", op.sign(), kind_word(*kind)]),
        StmKind::Cmp(op, ..) => text.names(&[b"cmp", op.sign()]),
        StmKind::Add(..) => text.names(&[b"add"]),
        StmKind::Sub(..) => text.names(&[b"sub"]),
        StmKind::Off(..) => text.names(&[b"off"]),
        StmKind::Diff(..) => text.names(&[b"diff"]),
        StmKind::Pcmp(op, ..) => text.names(&[b"pcmp", op.sign()]),
        StmKind::Test(..) => text.names(&[b"test"]),
        StmKind::Load(kind, ..) => text.names(&[b"load", kind_word(*kind)]),
        StmKind::Loadp(..) => text.names(&[b"loadp"]),
        StmKind::Store(kind, ..) => text.names(&[b"store", kind_word(*kind)]),
        StmKind::Storep(..) => text.names(&[b"storep"]),
        StmKind::Copy(..) => text.names(&[b"copy"]),
        StmKind::Clear(..) => text.names(&[b"clear"]),
        StmKind::Jump(..) => text.names(&[b"jump"]),
        StmKind::Zero(..) => text.names(&[b"zero"]),
        StmKind::Case(..) => text.names(&[b"case"]),
        StmKind::Loop(..) => text.names(&[b"loop"]),
        StmKind::Call(func, ..) => text.names(&[b"call", func_name(core, *func)]),
        StmKind::Malloc(..) => text.names(&[b"malloc"]),
        StmKind::Calloc(..) => text.names(&[b"calloc"]),
        StmKind::Realloc(..) => text.names(&[b"realloc"]),
        StmKind::Free(..) => text.names(&[b"free"]),
        StmKind::Lib(name, ..) => text.names(&[b"lib", name.name()]),
        StmKind::Printf(..) => text.names(&[b"printf"]),
        StmKind::Enter => text.names(&[b"enter"]),
        StmKind::Leave => text.names(&[b"leave"]),
        StmKind::Return(..) => text.names(&[b"return"]),
    }
}

/// The name of a function, by its number.
fn func_name(core: &Core, place: u32) -> &[u8]
    ensures { result.now ≡ func_word core.now place }
{
    match core.funcs.get(place as usize) {
        Some(func) => func.name.as_slice(),
        None => b"-",
    }
}

/// What a statement works on: the register that it writes, its operands, and what stands beside them.
fn put_last_words(text: &mut Text, kind: &StmKind) -> Result<(), NoMemory>
    ensures { IfOk result (λ _. text.new ≡ text.old ++ spaced (last_words kind.now)) }
{
    use Word::{Answer, Format, Number, Operand, Point, Register, Result};
    match kind {
        StmKind::Set(r, a)
        | StmKind::Conv(_, r, a)
        | StmKind::Un(_, _, r, a)
        | StmKind::Test(r, a)
        | StmKind::Load(_, r, a)
        | StmKind::Loadp(r, a) => text.words(&[Register(*r), Operand(*a)]),
        StmKind::Bin(_, _, r, a, b) | StmKind::Cmp(_, r, a, b) | StmKind::Pcmp(_, r, a, b) => {
            text.words(&[Register(*r), Operand(*a), Operand(*b)])
        }
        StmKind::Add(r, a, b, n) | StmKind::Sub(r, a, b, n) | StmKind::Diff(r, a, b, n) => {
            text.words(&[Register(*r), Operand(*a), Operand(*b), Number(*n)])
        }
        StmKind::Off(r, a, n) => text.words(&[Register(*r), Operand(*a), Number(*n)]),
        StmKind::Store(_, a, b) | StmKind::Storep(a, b) => text.words(&[Operand(*a), Operand(*b)]),
        StmKind::Copy(a, b, n) => text.words(&[Operand(*a), Operand(*b), Number(*n)]),
        StmKind::Clear(a, n) => text.words(&[Operand(*a), Number(*n)]),
        StmKind::Jump(l) | StmKind::Loop(l) => text.words(&[Point(*l)]),
        StmKind::Zero(a, l) => text.words(&[Operand(*a), Point(*l)]),
        StmKind::Case(a, n, l) => text.words(&[Operand(*a), Number(*n), Point(*l)]),
        StmKind::Call(_, r, args) | StmKind::Lib(_, r, args) => text.call(&[Result(*r)], args),
        StmKind::Printf(r, format, args) => text.call(&[Register(*r), Format(*format)], args),
        StmKind::Malloc(r, a, t) => text.object(&[Register(*r), Operand(*a)], t),
        StmKind::Calloc(r, a, b, t) | StmKind::Realloc(r, a, b, t) => {
            text.object(&[Register(*r), Operand(*a), Operand(*b)], t)
        }
        StmKind::Free(a) => text.words(&[Operand(*a)]),
        StmKind::Enter | StmKind::Leave => Ok(()),
        StmKind::Return(a) => text.words(&[Answer(*a)]),
    }
}
