//! Well formed code.

ghost use Rattle.std.specs.Prelude.{◌↔◌, IsSomeAnd, IsTrue, slice_get};
ghost use Rattle.flat_code.specs.WellFormed.{IsWellFormed};
ghost use Rattle.code_rules.specs.Whole.{CallsMain, GivesInteger, IsMain, KeepsFlow, KeepsTables};
ghost use Rattle.code_rules.specs.Deciding.{Decides};

use crate::answers::{Alike, Taken, answers, told_at};
use crate::flow::{Ahead, Inside, Names};
use crate::functions::{are_framed, have_scopes, sites_inside};
use crate::operands::{Afresh, Operands, Registers};
use crate::pins::sites_are_right;
use crate::rules::each_instr;
use crate::tables::{
    are_formats, are_layouts, are_short, are_static_blocks_small, are_statics, lines_from_one,
    sites_ascend,
};
use flat_code::{Code, Instr, Op};
use hs_base::NoMemory;
use std::alloc::Global;

/// Says whether a function that is told of gives integers.
fn gives_integer(told: Option<Option<bool>>) -> bool
    ensures { IsTrue result ↔ GivesInteger told }
{
    match told {
        None => true,
        Some(Some(is_pointer)) => !is_pointer,
        Some(None) => false,
    }
}

/// Says whether a function may be main.
fn is_main(code: &Code, told: &[Option<Option<bool>>], main: usize) -> bool
    ensures { IsTrue result ↔ IsMain code.now told.now main }
{
    match code.funcs.get(main) {
        Some(entry) => entry.params == 0 && gives_integer(told_at(told, main)),
        None => false,
    }
}

/// Says whether an instruction calls main.
fn calls_main(code: &Code, told: &[Option<Option<bool>>], instr: Instr) -> bool
    ensures { IsTrue result ↔ CallsMain code.now told.now instr }
{
    match instr.op {
        Op::Start => instr.imm >= 0 && is_main(code, told, instr.imm as usize),
        _ => false,
    }
}

/// Says whether the first instruction calls main.
fn starts(code: &Code, told: &[Option<Option<bool>>]) -> bool
    ensures { IsTrue result ↔ IsSomeAnd (slice_get code.now.instrs 0) (CallsMain code.now told.now) }
{
    match code.instrs.get(0) {
        Some(instr) => calls_main(code, told, *instr),
        None => false,
    }
}

/// Says whether the tables keep their rules.
fn keeps_tables(alloc: Global, code: &Code) -> Result<bool, NoMemory>
    ensures { Decides (KeepsTables code.now) result }
{
    if !are_short(code) {
        return Ok(false);
    }
    if code.lines.len() != code.instrs.len() {
        return Ok(false);
    }
    if !lines_from_one(code.lines.as_slice()) {
        return Ok(false);
    }
    if !are_layouts(code) {
        return Ok(false);
    }
    if !are_statics(code) {
        return Ok(false);
    }
    if !are_static_blocks_small(code) {
        return Ok(false);
    }
    if !are_formats(alloc, code)? {
        return Ok(false);
    }
    if !sites_ascend(code.sites.as_slice()) {
        return Ok(false);
    }
    if !are_framed(code) {
        return Ok(false);
    }
    Ok(sites_inside(code))
}

/// Says whether the instructions keep their rules, but for those of answers and sites.
fn keeps_flow(alloc: Global, code: &Code) -> Result<bool, NoMemory>
    ensures { Decides (KeepsFlow code.now) result }
{
    if !each_instr(alloc, code, &Inside)? {
        return Ok(false);
    }
    if !each_instr(alloc, code, &Ahead)? {
        return Ok(false);
    }
    if !each_instr(alloc, code, &Names)? {
        return Ok(false);
    }
    if !each_instr(alloc, code, &Operands)? {
        return Ok(false);
    }
    if !each_instr(alloc, code, &Registers)? {
        return Ok(false);
    }
    each_instr(alloc, code, &Afresh)
}

/// Says whether code is well formed: whether it keeps every rule of flat code.
///
/// # Errors
///
/// [`NoMemory`], where there is none to work in.
pub fn is_well_formed(alloc: Global, code: &Code) -> Result<bool, NoMemory>
    ensures { Decides (IsWellFormed code.now) result }
{
    if !keeps_tables(alloc, code)? {
        return Ok(false);
    }
    if !keeps_flow(alloc, code)? {
        return Ok(false);
    }
    keeps_rest(alloc, code)
}

/// Says whether code is well formed whose tables and instructions keep their rules, but for those of answers, scopes and
/// sites.
fn keeps_rest(alloc: Global, code: &Code) -> Result<bool, NoMemory>
    requires tables { KeepsTables code.now }
    requires flow { KeepsFlow code.now }
    ensures { Decides (IsWellFormed code.now) result }
{
    let found = answers(alloc, code)?;
    let told = found.as_slice();
    if !each_instr(alloc, code, &Alike { told })? {
        return Ok(false);
    }
    if !each_instr(alloc, code, &Taken { told })? {
        return Ok(false);
    }
    if !have_scopes(alloc, code)? {
        return Ok(false);
    }
    if !sites_are_right(alloc, code)? {
        return Ok(false);
    }
    Ok(starts(code, told))
}
