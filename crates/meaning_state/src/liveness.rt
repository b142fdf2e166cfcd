//! Whether a register is live after a point. What is found by so many edges is kept for all points, and one edge is added
//! until nothing more is found.

ghost use Rattle.std.specs.Prelude.{◌≡◌, ◌<◌, ℕ, true, false, IfOk, length, slice_index_or};
ghost use Rattle.std.specs.List.{list_any};
ghost use Rattle.core_tree.specs.Statements.{is_register, reads, writes};
ghost use Rattle.core_tree.specs.Lives.{is_live};
ghost use Rattle.meaning_state.specs.Living.{passed, leads_on, found_next};

use core_tree::{Atom, Edges, Stm, StmKind};
use hs_base::NoMemory;
use std::alloc::Global;

/// Says whether an operand is a register.
fn is_register(r: u32, a: Atom) -> bool
    ensures { result ≡ is_register r a }
{
    match a {
        Atom::Reg(k) => k == r,
        Atom::Int(_) | Atom::Null | Atom::Static(_) | Atom::Mem(_) => false,
    }
}

/// Says whether one of these operands is a register.
fn is_among(r: u32, atoms: &[Atom]) -> bool
    ensures { result ≡ list_any (is_register r) atoms.now }
{
    atoms.iter().any(|a| is_register(r, *a))
}

/// Says whether a statement reads a register.
fn reads(kind: &StmKind, r: u32) -> bool
    ensures { result ≡ reads kind.now r }
{
    match kind {
        StmKind::Set(_, a)
        | StmKind::Conv(_, _, a)
        | StmKind::Un(_, _, _, a)
        | StmKind::Off(_, a, _)
        | StmKind::Test(_, a)
        | StmKind::Load(_, _, a)
        | StmKind::Loadp(_, a)
        | StmKind::Clear(a, _)
        | StmKind::Zero(a, _)
        | StmKind::Case(a, _, _)
        | StmKind::Malloc(_, a, _)
        | StmKind::Free(a)
        | StmKind::Return(Some(a)) => is_register(r, *a),
        StmKind::Bin(_, _, _, a, b)
        | StmKind::Cmp(_, _, a, b)
        | StmKind::Add(_, a, b, _)
        | StmKind::Sub(_, a, b, _)
        | StmKind::Diff(_, a, b, _)
        | StmKind::Pcmp(_, _, a, b)
        | StmKind::Store(_, a, b)
        | StmKind::Storep(a, b)
        | StmKind::Copy(a, b, _)
        | StmKind::Calloc(_, a, b, _)
        | StmKind::Realloc(_, a, b, _) => is_register(r, *a) || is_register(r, *b),
        StmKind::Call(_, _, args) | StmKind::Lib(_, _, args) | StmKind::Printf(_, _, args) => {
            is_among(r, args.as_slice())
        }
        StmKind::Jump(_)
        | StmKind::Loop(_)
        | StmKind::Enter
        | StmKind::Leave
        | StmKind::Return(None) => false,
    }
}

/// Says whether a statement writes a register.
fn writes(kind: &StmKind, r: u32) -> bool
    ensures { result ≡ writes kind.now r }
{
    match kind.written() {
        Some(k) => k == r,
        None => false,
    }
}

/// Says whether a point was found.
fn was_found(found: &[bool], point: usize) -> bool
    ensures { result ≡ slice_index_or found.now point false }
{
    if point < found.len() {
        found[point]
    } else {
        false
    }
}

/// Says whether the statement at a point reads the register, or does not write it and the point was found.
fn is_passed(body: &[Stm], r: u32, found: &[bool], next: usize) -> bool
    ensures { result ≡ passed body.now r found.now next }
{
    match body.get(next) {
        Some(stm) => reads(&stm.kind, r) || (!writes(&stm.kind, r) && was_found(found, next)),
        None => was_found(found, next),
    }
}

/// Says whether an edge leads from a point to such a statement.
fn leads_on(body: &[Stm], r: u32, found: &[bool], point: usize) -> bool
    requires { point < length body.now }
    ensures { result ≡ leads_on body.now r found.now point }
{
    let Some(stm) = body.get(point) else {
        unreachable!()
    };
    match stm.kind.edges() {
        Edges {
            next: true,
            target: None,
        } => is_passed(body, r, found, point + 1),
        Edges {
            next: false,
            target: Some(target),
        } => is_passed(body, r, found, target as usize),
        Edges {
            next: true,
            target: Some(target),
        } => { is_passed(body, r, found, point + 1) || is_passed(body, r, found, target as usize) }
        Edges {
            next: false,
            target: None,
        } => false,
    }
}

/// The points that are found by one edge more.
fn found_next(alloc: Global, body: &[Stm], r: u32, found: &[bool]) -> Result<Vec<bool>, NoMemory>
    ensures { IfOk result (λ all. all.items ≡ found_next body.now r found.now) }
{
    let mut all = Vec::new(alloc);
    for point in 0..body.len() {
        all.push(leads_on(body, r, found, point))?;
    }
    Ok(all)
}

/// Says whether two lists are the same.
fn is_same(one: &[bool], other: &[bool]) -> bool
    ensures { result ≡ true → one.now ≡ other.now }
{
    if one.len() != other.len() {
        return false;
    }
    for i in 0..one.len() {
        if one[i] != other[i] {
            return false;
        }
    }
    true
}

/// The points after which a register is live.
fn live_points(alloc: Global, body: &[Stm], r: u32) -> Result<Vec<bool>, NoMemory>
    ensures { IfOk result (λ found. (point : ℕ) → slice_index_or found.items point false ≡ is_live body.now point r) }
{
    let mut found = vec![in alloc; false; body.len()]?;
    for _ in 0..body.len() {
        let more = found_next(alloc, body, r, &found)?;
        if is_same(&more, &found) {
            return Ok(found);
        }
        found = more;
    }
    Ok(found)
}

/// Says whether a register is live after a point of a body.
pub fn is_live(alloc: Global, body: &[Stm], point: usize, r: u32) -> Result<bool, NoMemory>
    ensures { IfOk result (λ live. live ≡ is_live body.now point r) }
{
    let found = live_points(alloc, body, r)?;
    Ok(was_found(&found, point))
}
