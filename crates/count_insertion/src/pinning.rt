//! Which registers are pinned at which points.

ghost use Rattle.std.specs.Prelude.{◌≡◌, ◌==◌, ◌<◌, ◌≤◌, ◌++◌, ◌&&◌, ℕ, IfOk, not, length, map, reverse, slice_get};
ghost use Rattle.object_meaning.specs.counted.Pinning.{AreExact};
ghost use Rattle.object_meaning.specs.objects.Holding.{takes_answer};
ghost use Rattle.local_liveness.specs.Sets.{in_both, Adds};
ghost use Rattle.local_liveness.specs.Tables.{HasLive, IsTableOf};
ghost use Rattle.count_insertion.specs.Counting.{AreSides, HasPointers, is_there, passing};
ghost use Rattle.count_insertion.specs.Inserted.{AreTables, may_count, func_pins, registers_at, registers_from};

use crate::copies::core_copy;
use crate::listed::FuncPins;
use core_tree::{Core, Func, Reg, StmKind, live_by_paths};
use flat_code::Registers;
use hs_base::{Items, NoMemory};
use local_liveness::{LiveTable, RegisterSet, live_at, none_live};
use std::alloc::Global;

/// A core with its pins: for each of its functions, the registers that count at its points.
#[derive(Debug, Drop)]
pub struct Counted {
    pub core: Core,
    pub pins: Items<FuncPins>,
}

/// The number of what comes next in a list. No memory holds a list whose numbers do not fit.
fn fit(number: usize) -> Result<u32, NoMemory>
    ensures { IfOk result (λ fit. fit ≡ number) }
{
    u32::try_from(number).map_err(|_| NoMemory)
}

/// Adds a register to those for pointers, if it is one.
fn mark(pointers: &mut RegisterSet, register: u32, reg: &Reg)
    ensures { Adds (λ r. reg.now.pointer && register == r) pointers.old pointers.new }
{
    if reg.pointer {
        pointers.insert(register);
    }
}

/// The registers of a function that are for pointers.
fn pointers_of(alloc: Global, func: &Func) -> Result<RegisterSet, NoMemory>
    ensures { IfOk result (λ pointers. HasPointers pointers func.now) }
{
    let mut pointers = RegisterSet::empty(alloc, func.regs.len())?;
    for (place, reg) in func.regs.as_slice().iter().enumerate() {
        mark(&mut pointers, fit(place)?, reg);
    }
    Ok(pointers)
}

/// Says whether registers may count at a statement.
fn may_count(kind: &StmKind) -> bool
    ensures { result ≡ may_count kind.now }
{
    matches!(
        kind,
        StmKind::Call(..) | StmKind::Realloc(..) | StmKind::Free(_) | StmKind::Leave
    )
}

/// The register that takes the answer of a call.
fn answer_of(kind: &StmKind) -> Option<u32>
    ensures { (r : ℕ) → is_there kind.now r ≡ not (takes_answer result r) }
{
    match kind {
        StmKind::Call(_, answer, _) => *answer,
        _ => None,
    }
}

/// The registers below a bound without the one that takes an answer: those below the first number, and those from the second on.
fn sides(answer: Option<u32>, bound: u32) -> (u32, u32)
    ensures { AreSides answer bound result.0 result.1 }
{
    match answer {
        Some(register) if register < bound => (register, register + 1),
        _ => (bound, bound),
    }
}

/// Adds the registers that two sets have in common, from one on and below a bound.
fn push_common(
    registers: &mut Registers,
    one: &RegisterSet,
    other: &RegisterSet,
    from: u32,
    until: u32,
) -> Result<(), NoMemory>
    requires { from ≤ until }
    ensures { IfOk result (λ _. registers.new ≡ registers.old ++ passing (in_both one.now other.now) from until) }
{
    let mut next = from;
    while let Some(run) = one.next_common_run(other, next, until) {
        registers.push_run(run.first, run.end - 1)?;
        next = run.end;
    }
    Ok(())
}

/// The registers below a bound that two sets have in common, without the one that takes an answer.
fn common_without(
    alloc: Global,
    one: &RegisterSet,
    other: &RegisterSet,
    answer: Option<u32>,
    bound: u32,
) -> Result<Registers, NoMemory>
    ensures { IfOk result (λ registers. registers ≡ passing (λ r. not (takes_answer answer r) && in_both one.now other.now r) 0 bound) }
{
    let (until, from) = sides(answer, bound);
    let mut registers = Registers::new(alloc);
    push_common(&mut registers, one, other, 0, until)?;
    push_common(&mut registers, one, other, from, bound)?;
    Ok(registers)
}

/// The registers that count at a point behind which `live` is live: those for pointers that are live behind it, without the one
/// that takes the answer of a call.
fn registers_at(
    alloc: Global,
    func: &Func,
    point: usize,
    pointers: &RegisterSet,
    live: &RegisterSet,
) -> Result<Registers, NoMemory>
    requires point { point < length func.now.body }
    requires pointers { HasPointers pointers.now func.now }
    requires live { HasLive live.now func.now point }
    ensures { IfOk result (λ registers. registers ≡ registers_at func.now point (slice_get func.now.body point)) }
{
    live_by_paths();
    let kind = &func.body.as_slice()[point].kind;
    if !may_count(kind) {
        return Ok(Registers::new(alloc));
    }
    common_without(
        alloc,
        pointers,
        live,
        answer_of(kind),
        fit(func.regs.len())?,
    )
}

/// The registers that count at each point of a function, from the last point to the first.
fn registers_back(alloc: Global, func: &Func, table: &LiveTable) -> Result<Vec<Registers>, NoMemory>
    requires { IsTableOf table.now func.now }
    ensures { IfOk result (λ lists. lists.items ≡ reverse (registers_from func.now 0)) }
{
    let pointers = pointers_of(alloc, func)?;
    let mut live = none_live(alloc, func)?;
    let mut lists = Vec::with_capacity(alloc, func.body.len())?;
    for point in (0..func.body.len()).rev() {
        table.step_back(func, &mut live, point);
        lists.push(registers_at(alloc, func, point, &pointers, &live)?)?;
    }
    Ok(lists)
}

/// The pins of a function.
fn pins_of(alloc: Global, func: &Func, table: &LiveTable) -> Result<FuncPins, NoMemory>
    requires { IsTableOf table.now func.now }
    ensures { IfOk result (λ pins. pins ≡ func_pins func.now) }
{
    let mut lists = registers_back(alloc, func, table)?;
    let mut pins = FuncPins::new(alloc);
    for place in 0..func.body.len() {
        let Some(registers) = lists.pop() else {
            unreachable!()
        };
        pins.push(fit(place)?, registers)?;
    }
    Ok(pins)
}

/// The pins of all functions.
fn all_pins(alloc: Global, funcs: &[Func], live: &[LiveTable]) -> Result<Items<FuncPins>, NoMemory>
    requires { AreTables live.now funcs.now }
    ensures { IfOk result (λ pins. pins ≡ map func_pins funcs.now) }
{
    let mut pins = Vec::with_capacity(alloc, funcs.len())?;
    for (place, func) in funcs.iter().enumerate() {
        pins.push(pins_of(alloc, func, &live[place])?)?;
    }
    Ok(Items::from(pins))
}

/// The tables of the live registers of a core's functions, as [`insert`] takes them.
///
/// # Errors
///
/// [`NoMemory`], where there is none for the tables.
pub fn live_tables(alloc: Global, core: &Core) -> Result<Items<LiveTable>, NoMemory>
    ensures { IfOk result (λ live. AreTables live core.now.funcs) }
{
    let mut live = Vec::with_capacity(alloc, core.funcs.len())?;
    for func in core.funcs.as_slice() {
        let table = live_at(alloc, func)?;
        live.push(table)?;
    }
    Ok(Items::from(live))
}

/// A core with its pins, from the tables of the live registers of its functions. The pins of a function stand in the order of
/// their points, and those of a point in the order of their registers.
///
/// # Errors
///
/// [`NoMemory`], where there is none for the copy and the pins.
pub fn insert(alloc: Global, core: &Core, live: &Items<LiveTable>) -> Result<Counted, NoMemory>
    requires { AreTables live.now core.now.funcs }
    ensures core { IfOk result (λ counted. counted.core ≡ core.now) }
    ensures pins { IfOk result (λ counted. AreExact core.now counted.pins) }
    ensures listed { IfOk result (λ counted. counted.pins ≡ map func_pins core.now.funcs) }
{
    let pins = all_pins(alloc, core.funcs.as_slice(), live.as_slice())?;
    Ok(Counted {
        core: core_copy(alloc, core)?,
        pins,
    })
}
