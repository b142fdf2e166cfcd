//! The rules of functions.

ghost use Rattle.std.specs.Prelude.{◌↔◌, ◌<◌, ◌≤◌, ◌+◌, ◌^◌, All, IsSome, IsTrue, length, slice_get};
ghost use Rattle.flat_code.specs.declared.program.Site.{Site};
ghost use Rattle.flat_code.specs.WellFormed.{EachEntry, HasScopes, end_of};
ghost use Rattle.code_rules.specs.Functions.{IsFramed, IsOfFunction, OfEntry};
ghost use Rattle.code_rules.specs.Scopes.{StaysInside};
ghost use Rattle.code_rules.specs.Deciding.{Decides};

use crate::flow::nothing_is_handed_before;
use crate::rules::end_of;
use crate::scopes::has_scopes;
use flat_code::{Code, Entry, Site};
use hs_base::NoMemory;
use std::alloc::Global;

/// Says whether the layouts of memory locals are there.
fn has_layouts(code: &Code, mems: &[u32]) -> bool
    ensures { IsTrue result ↔ All (λ n. IsSome (slice_get code.now.layouts n)) mems.now }
{
    mems.iter()
        .all(|mem| code.layouts.get(*mem as usize).is_some())
}

/// Says whether a function keeps its rules, but for those of its returns and its scopes.
fn is_framed(code: &Code, function: usize, entry: &Entry) -> bool
    requires { function + 1 < 2 ^ 64 }
    ensures { IsTrue result ↔ IsFramed code.now function entry.now }
{
    let first = entry.first as usize;
    if first < 1 || first >= end_of(code, function) {
        return false;
    }
    if !nothing_is_handed_before(code, entry, first) {
        return false;
    }
    entry.params as usize <= entry.kinds.len() && has_layouts(code, entry.mems.as_slice())
}

/// The same for the function of a number, where there is one.
fn is_framed_at(code: &Code, function: usize) -> bool
    ensures { IsTrue result ↔ OfEntry code.now (IsFramed code.now) function }
{
    match code.funcs.get(function) {
        Some(entry) => is_framed(code, function, entry),
        None => true,
    }
}

/// Says whether all functions keep their rules, but for those of their returns and their scopes.
pub(crate) fn are_framed(code: &Code) -> bool
    ensures { IsTrue result ↔ EachEntry code.now (IsFramed code.now) }
{
    for function in 0..code.funcs.len() {
        if !is_framed_at(code, function) {
            return false;
        }
    }
    true
}

/// Says whether an instruction is one of a function: the functions stand side by side, from the first one to the end.
fn is_of_function(code: &Code, point: usize) -> bool
    requires { EachEntry code.now (λ f entry. entry.first < end_of code.now f) }
    ensures { IsTrue result ↔ IsOfFunction code.now point }
{
    match code.funcs.get(0) {
        Some(entry) => entry.first as usize <= point && point < code.instrs.len(),
        None => false,
    }
}

/// Says whether each site is one of an instruction of a function.
pub(crate) fn sites_inside(code: &Code) -> bool
    requires { EachEntry code.now (λ f entry. entry.first < end_of code.now f) }
    ensures { IsTrue result ↔ All (λ (site : Site). IsOfFunction code.now site.instr) code.now.sites }
{
    for site in code.sites.as_slice() {
        if !is_of_function(code, site.instr as usize) {
            return false;
        }
    }
    true
}

/// Says whether the function of a number, where there is one, opens and closes scopes in the same way on all paths.
fn has_scopes_at(alloc: Global, code: &Code, function: usize) -> Result<bool, NoMemory>
    requires inside { EachEntry code.now (StaysInside code.now) }
    requires some { EachEntry code.now (λ f e. e.first < end_of code.now f) }
    requires end { EachEntry code.now (λ f e. end_of code.now f ≤ length code.now.instrs) }
    requires short { length code.now.instrs < 2 ^ 32 }
    ensures { Decides (OfEntry code.now (HasScopes code.now) function) result }
{
    match code.funcs.get(function) {
        Some(entry) => has_scopes(alloc, code, function, entry),
        None => Ok(true),
    }
}

/// Says whether all functions open and close scopes in the same way on all paths.
pub(crate) fn have_scopes(alloc: Global, code: &Code) -> Result<bool, NoMemory>
    requires inside { EachEntry code.now (StaysInside code.now) }
    requires some { EachEntry code.now (λ f e. e.first < end_of code.now f) }
    requires end { EachEntry code.now (λ f e. end_of code.now f ≤ length code.now.instrs) }
    requires short { length code.now.instrs < 2 ^ 32 }
    ensures { Decides (EachEntry code.now (HasScopes code.now)) result }
{
    for function in 0..code.funcs.len() {
        if !has_scopes_at(alloc, code, function)? {
            return Ok(false);
        }
    }
    Ok(true)
}
