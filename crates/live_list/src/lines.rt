//! The lines of functions and of their points.

ghost use Rattle.std.specs.Prelude.{◌≡◌, ◌<◌, ◌++◌, codes, decimal, length, IfOk};
ghost use Rattle.core_tree.specs.Listing.{register_word};
ghost use Rattle.local_liveness.specs.Tables.{HasLive, IsTableOf};
ghost use Rattle.live_list.specs.Listing.{AreSets, func_lines, live_listing, name_line, point_line, point_lines, register_words};

use core_tree::{Core, Func, live_by_paths};
use hs_base::{Items, NoMemory};
use itoa::Buffer;
use local_liveness::{LiveTable, RegisterSet, live_at, none_live};
use std::alloc::Global;

/// The length of a list that is numbered. No memory holds a list whose numbers do not fit; no list of a sound core is so long.
fn count(length: usize) -> Result<u32, NoMemory>
    ensures { IfOk result (λ count. count ≡ length) }
{
    u32::try_from(length).map_err(|_| NoMemory)
}

/// Writes bytes as they are.
fn put(text: &mut Vec<u8>, bytes: &[u8]) -> Result<(), NoMemory>
    ensures { IfOk result (λ _. text.new.items ≡ text.old.items ++ bytes.now) }
{
    text.extend_from_slice(bytes)?;
    Ok(())
}

/// Writes a number.
fn put_number(text: &mut Vec<u8>, number: u32) -> Result<(), NoMemory>
    ensures { IfOk result (λ _. text.new.items ≡ text.old.items ++ decimal number) }
{
    let mut digits = Buffer::new();
    put(text, digits.format(number).as_bytes())
}

/// Writes a register behind a space.
fn put_register(text: &mut Vec<u8>, register: u32) -> Result<(), NoMemory>
    ensures { IfOk result (λ _. text.new.items ≡ text.old.items ++ (codes " " ++ register_word register)) }
{
    put(text, b" r")?;
    put_number(text, register)
}

/// Writes each register that is live after a point, behind a space.
fn put_registers(
    text: &mut Vec<u8>,
    func: &Func,
    live: &RegisterSet,
    point: u32,
) -> Result<(), NoMemory>
    requires { HasLive live.now func.now point }
    ensures { IfOk result (λ _. text.new.items ≡ text.old.items ++ register_words func.now point) }
{
    live_by_paths();
    let registers = count(func.regs.len())?;
    for register in 0..registers {
        if live.contains(register) {
            put_register(text, register)?;
        }
    }
    Ok(())
}

/// Writes the line of a point.
fn put_point(
    text: &mut Vec<u8>,
    func: &Func,
    live: &RegisterSet,
    point: u32,
) -> Result<(), NoMemory>
    requires { HasLive live.now func.now point }
    ensures { IfOk result (λ _. text.new.items ≡ text.old.items ++ point_line func.now point) }
{
    put_number(text, point)?;
    put(text, b":")?;
    put_registers(text, func, live, point)?;
    put(text, b"\n")
}

/// The registers that are live after each point.
fn sets_of(alloc: Global, func: &Func, table: &LiveTable) -> Result<Vec<RegisterSet>, NoMemory>
    requires { IsTableOf table.now func.now }
    ensures { IfOk result (λ sets. AreSets sets.items func.now) }
{
    let mut live = none_live(alloc, func)?;
    let mut sets = Vec::with_capacity(alloc, func.body.len())?;
    for point in (0..func.body.len()).rev() {
        table.step_back(func, &mut live, point);
        sets.push(live.copy(alloc)?)?;
    }
    sets.reverse();
    Ok(sets)
}

/// Writes a line for each point.
fn put_points(text: &mut Vec<u8>, func: &Func, sets: &[RegisterSet]) -> Result<(), NoMemory>
    requires { AreSets sets.now func.now }
    ensures { IfOk result (λ _. text.new.items ≡ text.old.items ++ point_lines func.now) }
{
    let points = count(func.body.len())?;
    for point in 0..points {
        put_point(text, func, &sets[point as usize], point)?;
    }
    Ok(())
}

/// Writes the line of a function's name.
fn put_name(text: &mut Vec<u8>, name: &[u8]) -> Result<(), NoMemory>
    ensures { IfOk result (λ _. text.new.items ≡ text.old.items ++ name_line name.now) }
{
    put(text, b"func ")?;
    put(text, name)?;
    put(text, b"\n")
}

/// Writes the lines of a function.
fn put_func(alloc: Global, text: &mut Vec<u8>, func: &Func) -> Result<(), NoMemory>
    ensures { IfOk result (λ _. text.new.items ≡ text.old.items ++ func_lines func.now) }
{
    let table = live_at(alloc, func)?;
    put_name(text, func.name.as_slice())?;
    let sets = sets_of(alloc, func, &table)?;
    put_points(text, func, &sets)
}

/// The functions of a core, each with the registers that are live after each of its points.
///
/// # Errors
///
/// [`NoMemory`] only for want of memory.
pub fn list_live(alloc: Global, core: &Core) -> Result<Items<u8>, NoMemory>
    ensures { IfOk result (λ text. text ≡ live_listing core.now) }
{
    let mut text = Vec::new(alloc);
    for func in core.funcs.as_slice() {
        put_func(alloc, &mut text, func)?;
    }
    Ok(Items::from(text))
}
