//! Copies of cores.

ghost use Rattle.std.specs.Prelude.{◌≡◌, IfOk};

use c_types::Layout;
use core_tree::{Atom, Core, Func, Mem, Reg, Start, Static, Stm, StmKind};
use hs_base::{Items, NoMemory};
use std::alloc::Global;

/// A copy of some bytes.
fn bytes_copy(alloc: Global, bytes: &Items<u8>) -> Result<Items<u8>, NoMemory>
    ensures { IfOk result (λ copy. copy ≡ bytes.now) }
{
    Ok(Items::from(bytes.as_slice().to_vec(alloc)?))
}

/// A copy of a name that may not be there.
fn name_copy(alloc: Global, name: &Option<Items<u8>>) -> Result<Option<Items<u8>>, NoMemory>
    ensures { IfOk result (λ copy. copy ≡ name.now) }
{
    match name {
        Some(name) => Ok(Some(bytes_copy(alloc, name)?)),
        None => Ok(None),
    }
}

/// A copy of a layout.
fn layout_copy(alloc: Global, layout: &Layout) -> Result<Layout, NoMemory>
    ensures { IfOk result (λ copy. copy ≡ layout.now) }
{
    Ok(Layout {
        size: layout.size,
        align: layout.align,
        slots: Items::from(layout.slots.as_slice().to_vec(alloc)?),
    })
}

/// A copy of a static.
fn static_copy(alloc: Global, one: &Static) -> Result<Static, NoMemory>
    ensures { IfOk result (λ copy. copy ≡ one.now) }
{
    Ok(Static {
        name: name_copy(alloc, &one.name)?,
        layout: layout_copy(alloc, &one.layout)?,
        start: Start {
            bytes: bytes_copy(alloc, &one.start.bytes)?,
            pointers: Items::from(one.start.pointers.as_slice().to_vec(alloc)?),
        },
    })
}

/// A copy of some statics.
fn statics_copy(alloc: Global, statics: &[Static]) -> Result<Items<Static>, NoMemory>
    ensures { IfOk result (λ copy. copy ≡ statics.now) }
{
    let mut copy = Vec::with_capacity(alloc, statics.len())?;
    for one in statics {
        copy.push(static_copy(alloc, one)?)?;
    }
    Ok(Items::from(copy))
}

/// A copy of some registers.
fn regs_copy(alloc: Global, regs: &[Reg]) -> Result<Items<Reg>, NoMemory>
    ensures { IfOk result (λ copy. copy ≡ regs.now) }
{
    let mut copy = Vec::with_capacity(alloc, regs.len())?;
    for one in regs {
        copy.push(Reg {
            name: name_copy(alloc, &one.name)?,
            pointer: one.pointer,
        })?;
    }
    Ok(Items::from(copy))
}

/// A copy of some memory locals.
fn mems_copy(alloc: Global, mems: &[Mem]) -> Result<Items<Mem>, NoMemory>
    ensures { IfOk result (λ copy. copy ≡ mems.now) }
{
    let mut copy = Vec::with_capacity(alloc, mems.len())?;
    for one in mems {
        copy.push(Mem {
            name: bytes_copy(alloc, &one.name)?,
            layout: layout_copy(alloc, &one.layout)?,
        })?;
    }
    Ok(Items::from(copy))
}

/// A copy of some operands.
fn atoms_copy(alloc: Global, atoms: &Items<Atom>) -> Result<Items<Atom>, NoMemory>
    ensures { IfOk result (λ copy. copy ≡ atoms.now) }
{
    Ok(Items::from(atoms.as_slice().to_vec(alloc)?))
}

/// A copy of what a statement does.
fn kind_copy(alloc: Global, kind: &StmKind) -> Result<StmKind, NoMemory>
    ensures { IfOk result (λ copy. copy ≡ kind.now) }
{
    match kind {
        StmKind::Set(r, a) => Ok(StmKind::Set(*r, *a)),
        StmKind::Conv(k, r, a) => Ok(StmKind::Conv(*k, *r, *a)),
        StmKind::Un(op, k, r, a) => Ok(StmKind::Un(*op, *k, *r, *a)),
        StmKind::Bin(op, k, r, a, b) => Ok(StmKind::Bin(*op, *k, *r, *a, *b)),
        StmKind::Cmp(op, r, a, b) => Ok(StmKind::Cmp(*op, *r, *a, *b)),
        StmKind::Add(r, p, a, size) => Ok(StmKind::Add(*r, *p, *a, *size)),
        StmKind::Sub(r, p, a, size) => Ok(StmKind::Sub(*r, *p, *a, *size)),
        StmKind::Off(r, p, distance) => Ok(StmKind::Off(*r, *p, *distance)),
        StmKind::Diff(r, p, q, size) => Ok(StmKind::Diff(*r, *p, *q, *size)),
        StmKind::Pcmp(op, r, p, q) => Ok(StmKind::Pcmp(*op, *r, *p, *q)),
        StmKind::Test(r, p) => Ok(StmKind::Test(*r, *p)),
        StmKind::Load(k, r, p) => Ok(StmKind::Load(*k, *r, *p)),
        StmKind::Loadp(r, p) => Ok(StmKind::Loadp(*r, *p)),
        StmKind::Store(k, p, a) => Ok(StmKind::Store(*k, *p, *a)),
        StmKind::Storep(p, q) => Ok(StmKind::Storep(*p, *q)),
        StmKind::Copy(p, q, size) => Ok(StmKind::Copy(*p, *q, *size)),
        StmKind::Clear(p, size) => Ok(StmKind::Clear(*p, *size)),
        StmKind::Jump(l) => Ok(StmKind::Jump(*l)),
        StmKind::Zero(a, l) => Ok(StmKind::Zero(*a, *l)),
        StmKind::Case(a, v, l) => Ok(StmKind::Case(*a, *v, *l)),
        StmKind::Loop(l) => Ok(StmKind::Loop(*l)),
        StmKind::Call(f, r, args) => Ok(StmKind::Call(*f, *r, atoms_copy(alloc, args)?)),
        StmKind::Malloc(r, n, t) => Ok(StmKind::Malloc(*r, *n, layout_copy(alloc, t)?)),
        StmKind::Calloc(r, m, n, t) => Ok(StmKind::Calloc(*r, *m, *n, layout_copy(alloc, t)?)),
        StmKind::Realloc(r, p, n, t) => Ok(StmKind::Realloc(*r, *p, *n, layout_copy(alloc, t)?)),
        StmKind::Free(p) => Ok(StmKind::Free(*p)),
        StmKind::Lib(name, r, args) => Ok(StmKind::Lib(*name, *r, atoms_copy(alloc, args)?)),
        StmKind::Printf(r, format, args) => Ok(StmKind::Printf(
            *r,
            *format,
            atoms_copy(alloc, args)?,
        )),
        StmKind::Enter => Ok(StmKind::Enter),
        StmKind::Leave => Ok(StmKind::Leave),
        StmKind::Return(a) => Ok(StmKind::Return(*a)),
    }
}

/// A copy of a body.
fn body_copy(alloc: Global, body: &[Stm]) -> Result<Items<Stm>, NoMemory>
    ensures { IfOk result (λ copy. copy ≡ body.now) }
{
    let mut copy = Vec::with_capacity(alloc, body.len())?;
    for one in body {
        copy.push(Stm {
            line: one.line,
            kind: kind_copy(alloc, &one.kind)?,
        })?;
    }
    Ok(Items::from(copy))
}

/// A copy of some formats.
fn formats_copy(alloc: Global, formats: &[Items<u8>]) -> Result<Items<Items<u8>>, NoMemory>
    ensures { IfOk result (λ copy. copy ≡ formats.now) }
{
    let mut copy = Vec::with_capacity(alloc, formats.len())?;
    for one in formats {
        copy.push(bytes_copy(alloc, one)?)?;
    }
    Ok(Items::from(copy))
}

/// A copy of a function.
fn func_copy(alloc: Global, func: &Func) -> Result<Func, NoMemory>
    ensures { IfOk result (λ copy. copy ≡ func.now) }
{
    Ok(Func {
        name: bytes_copy(alloc, &func.name)?,
        line: func.line,
        params: func.params,
        regs: regs_copy(alloc, func.regs.as_slice())?,
        mems: mems_copy(alloc, func.mems.as_slice())?,
        body: body_copy(alloc, func.body.as_slice())?,
        formats: formats_copy(alloc, func.formats.as_slice())?,
    })
}

/// A copy of some functions.
fn funcs_copy(alloc: Global, funcs: &[Func]) -> Result<Items<Func>, NoMemory>
    ensures { IfOk result (λ copy. copy ≡ funcs.now) }
{
    let mut copy = Vec::with_capacity(alloc, funcs.len())?;
    for one in funcs {
        copy.push(func_copy(alloc, one)?)?;
    }
    Ok(Items::from(copy))
}

/// A copy of a core.
pub(crate) fn core_copy(alloc: Global, core: &Core) -> Result<Core, NoMemory>
    ensures { IfOk result (λ copy. copy ≡ core.now) }
{
    Ok(Core {
        statics: statics_copy(alloc, core.statics.as_slice())?,
        funcs: funcs_copy(alloc, core.funcs.as_slice())?,
    })
}
