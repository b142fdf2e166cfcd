//! The sites of code, and their pins.

ghost use Rattle.std.specs.Prelude.{◌≡◌, ◌↔◌, ◌<◌, ◌≤◌, ◌≢◌, ◌+◌, ◌^◌, ℕ, All, IfOk, IsTrue, Some, length, option_map, true};
ghost use Rattle.core_tree.specs.Sorts.{Pointer};
ghost use Rattle.flat_code.specs.Table.{register_sort};
ghost use Rattle.code_rules.specs.Lively.{marked};
ghost use Rattle.flat_code.specs.Sites.{answered, has_site, site_of};
ghost use Rattle.flat_code.specs.declared.program.Entry.{Entry};
ghost use Rattle.code_rules.specs.Answers.{AreListed, ArePlaces, ArePlacesUpTo, AreRegisters, ListsSite, PinsAgree, ArePinsExact, HaveSites};
ghost use Rattle.code_rules.specs.Deciding.{Decides};

use crate::instrs::chosen;
use crate::live::live_points;
use crate::rules::{Rule, each_instr};
use flat_code::{Code, Entry, Instr, Op, Registers};
use hs_base::NoMemory;
use std::alloc::Global;

/// Says whether an instruction has a site.
fn has_site(op: Op) -> bool
    ensures { result ≡ has_site op }
{
    matches!(op, Op::Call | Op::Realloc | Op::Free | Op::Leave)
}

/// Takes down the place of a site, where it is the first one of its instruction.
fn put_place(code: &Code, places: &mut [Option<usize>], place: usize)
    requires place { place < length code.now.sites }
    requires places { ArePlacesUpTo code.now place places.old }
    ensures { ArePlacesUpTo code.now (place + 1) places.new }
{
    let Some(site) = code.sites.get(place) else {
        return;
    };
    let point = site.instr as usize;
    if point < places.len() && places[point].is_none() {
        places[point] = Some(place);
    }
}

/// Where the first site of each instruction stands in the list of sites.
fn site_places(alloc: Global, code: &Code) -> Result<Vec<Option<usize>>, NoMemory>
    ensures { IfOk result (λ places. ArePlaces code.now places.items) }
{
    let mut places = vec![in alloc; None; code.instrs.len()]?;
    for place in 0..code.sites.len() {
        put_place(code, &mut places, place);
    }
    Ok(places)
}

/// The pins of the first site of an instruction.
fn site_of<'a>(code: &'a Code, places: &[Option<usize>], point: usize) -> Option<&'a Registers>
    requires places { ArePlaces code.now places.now }
    requires inside { point < length code.now.instrs }
    ensures { option_map (λ pins. pins.now) result ≡ site_of code.now.sites point }
{
    let place = (*places.get(point)?)?;
    let site = code.sites.get(place)?;
    Some(&site.pins)
}

/// The register that takes the answer of a call.
fn answered(instr: Instr) -> Option<u32>
    ensures { result ≡ answered instr instr.op }
{
    match instr.op {
        Op::Call => chosen(instr),
        _ => None,
    }
}

/// Says whether a register counts at an instruction, by marks of where it is live.
fn counts(entry: &Entry, instr: Instr, is_live: bool, register: u32) -> bool
    ensures { IsTrue result ↔ ((register_sort entry.now register ≡ Some Pointer) × (is_live ≡ true) × (answered instr instr.op ≢ Some register)) }
{
    match entry.kinds.get(register as usize) {
        Some(is_pointer) => *is_pointer && is_live && answered(instr) != Some(register),
        None => false,
    }
}

/// Says whether pins ascend, and are registers.
fn are_registers(entry: &Entry, pins: &Registers) -> bool
    ensures { IsTrue result ↔ AreRegisters entry.now pins.now }
{
    pins.ascend() && pins.are_below(entry.kinds.len())
}

/// Each site is listed.
#[derive(Drop)]
pub(crate) struct Listed<'a> {
    pub(crate) places: &'a [Option<usize>],
}

impl<'a> Rule for Listed<'a> {
    ghost holds = { λ rule code f entry point i. ListsSite code entry point (has_site i.op) };

    ghost suits = { λ rule code. ArePlaces code rule.places.now };

    fn check(
        &self,
        _alloc: Global,
        code: &Code,
        _function: usize,
        entry: &Entry,
        point: usize,
        instr: Instr,
    ) -> Result<bool, NoMemory> {
        Ok(match site_of(code, self.places, point) {
            Some(pins) => has_site(instr.op) && are_registers(entry, pins),
            None => !has_site(instr.op),
        })
    }
}

/// The pins of each site have a register exactly where it counts.
#[derive(Drop)]
pub(crate) struct Pins<'a> {
    pub(crate) places: &'a [Option<usize>],
    pub(crate) marks: &'a [bool],
    pub(crate) register: u32,
}

impl<'a> Rule for Pins<'a> {
    ghost holds = { λ rule code f entry point i. PinsAgree code rule.marks.now rule.register entry point i (has_site i.op) };

    ghost suits = { λ rule code. ArePlaces code rule.places.now × AreListed code };

    fn check(
        &self,
        _alloc: Global,
        code: &Code,
        _function: usize,
        entry: &Entry,
        point: usize,
        instr: Instr,
    ) -> Result<bool, NoMemory> {
        if !has_site(instr.op) {
            return Ok(true);
        }
        Ok(match site_of(code, self.places, point) {
            Some(pins) => {
                let is_live = mark_at(self.marks, point);
                counts(entry, instr, is_live, self.register) == pins.contains(self.register)
            }
            None => true,
        })
    }
}

/// Says whether an instruction is marked.
fn mark_at(marks: &[bool], point: usize) -> bool
    ensures { result ≡ marked marks.now point }
{
    match marks.get(point) {
        Some(mark) => *mark,
        None => false,
    }
}

/// Says whether the pins of each site have a register exactly where it counts.
fn pins_are_exact_of(
    alloc: Global,
    code: &Code,
    places: &[Option<usize>],
    register: u32,
) -> Result<bool, NoMemory>
    requires places { ArePlaces code.now places.now }
    requires listed { AreListed code.now }
    ensures { Decides (ArePinsExact code.now register) result }
{
    let marks = live_points(alloc, code, register)?;
    let rule = Pins {
        places,
        marks: &marks,
        register,
    };
    each_instr(alloc, code, &rule)
}

/// The same for all registers below a number.
fn pins_are_exact(
    alloc: Global,
    code: &Code,
    places: &[Option<usize>],
    most: u32,
) -> Result<bool, NoMemory>
    requires places { ArePlaces code.now places.now }
    requires listed { AreListed code.now }
    ensures { Decides ((r : ℕ) → r < most → ArePinsExact code.now r) result }
{
    for register in 0..most {
        if !pins_are_exact_of(alloc, code, places, register)? {
            return Ok(false);
        }
    }
    Ok(true)
}

/// The greater of two numbers.
fn greater(one: u32, other: u32) -> u32
    ensures first { one ≤ result }
    ensures second { other ≤ result }
{
    if one < other { other } else { one }
}

/// The greatest number of registers of a function.
fn most_registers(funcs: &[Entry]) -> u32
    requires { All (λ (e : Entry). length e.kinds < 2 ^ 32) funcs.now }
    ensures { All (λ (e : Entry). length e.kinds ≤ result) funcs.now }
{
    let mut most = 0;
    for entry in funcs {
        most = greater(most, entry.kinds.len() as u32);
    }
    most
}

/// Says whether each instruction has the site that it must have: one where objects may be freed, with the registers that
/// count there, and otherwise none.
pub fn sites_are_right(alloc: Global, code: &Code) -> Result<bool, NoMemory>
    requires { All (λ (e : Entry). length e.kinds < 2 ^ 32) code.now.funcs }
    ensures { Decides (HaveSites code.now) result }
{
    let found = site_places(alloc, code)?;
    let places = found.as_slice();
    if !each_instr(alloc, code, &Listed { places })? {
        return Ok(false);
    }
    pins_are_exact(alloc, code, places, most_registers(code.funcs.as_slice()))
}
