//! How many scopes are open at the instructions of a function.

ghost use Rattle.std.specs.Prelude.{◌≡◌, ◌↔◌, ◌<◌, ◌≤◌, ◌+◌, ◌-◌, ◌^◌, Some, None, IfOk, IfSome, IsTrue, cond, true, length, option_map, replicate, slice_get, slice_set};
ghost use Rattle.flat_code.specs.Table.{scopes_after};
ghost use Rattle.flat_code.specs.WellFormed.{ClosesWhatIsOpen, HasScopes, end_of};
ghost use Rattle.code_rules.specs.Scopes.{AreReached, AreSmall, Close, ClosesAt, Fills, Moves, Puts, PutsAt, StaysInside, joined};
ghost use Rattle.code_rules.specs.Deciding.{Decides};

use crate::instrs::edges;
use crate::rules::end_of;
use flat_code::{Code, Entry, Op};
use hs_base::NoMemory;
use std::alloc::Global;

/// What was found at instructions that were looked at.
#[derive(Clone, Copy, Debug, PartialEq, Eq)]
pub(crate) enum Change {
    /// Nothing new.
    Same,
    /// More is known.
    More,
    /// Two paths open other numbers of scopes.
    Clash,
}

/// How many scopes are open behind an instruction.
fn scopes_after(op: Op, scopes: u64) -> u64
    requires { scopes + 1 < 2 ^ 64 }
    ensures { result ≡ scopes_after op scopes }
{
    match op {
        Op::Enter => scopes + 1,
        Op::Leave => scopes.saturating_sub(1),
        _ => scopes,
    }
}

/// Takes down that so many scopes are open at a place.
fn put(depths: &mut [Option<u64>], place: usize, scopes: u64) -> Change
    requires { place < length depths.old }
    ensures { Puts depths.old place scopes depths.new result }
{
    match depths[place] {
        None => {
            depths[place] = Some(scopes);
            Change::More
        }
        Some(known) if known == scopes => Change::Same,
        Some(_) => Change::Clash,
    }
}

/// The same for the next place, where the run goes on to it.
fn put_next(depths: &mut [Option<u64>], next: usize, goes_on: bool, scopes: u64) -> Change
    requires { goes_on ≡ true → next < length depths.old }
    ensures { PutsAt depths.old (cond goes_on (Some next) None) scopes depths.new result }
{
    if goes_on {
        put(depths, next, scopes)
    } else {
        Change::Same
    }
}

/// The same for a target, where there is one.
fn put_target(depths: &mut [Option<u64>], target: Option<u32>, first: u32, scopes: u64) -> Change
    requires { IfSome target (λ t. (first ≤ t) × (t - first < length depths.old)) }
    ensures { PutsAt depths.old (option_map (λ t. t - first) target) scopes depths.new result }
{
    match target {
        Some(target) => put(depths, (target - first) as usize, scopes),
        None => Change::Same,
    }
}

/// What was found twice.
fn join(one: Change, other: Change) -> Change
    ensures { result ≡ joined one other }
{
    match (one, other) {
        (Change::Clash, _) | (_, Change::Clash) => Change::Clash,
        (Change::Same, Change::Same) => Change::Same,
        _ => Change::More,
    }
}

/// Takes down what is open where the run may go from a place.
fn visit(
    code: &Code,
    function: usize,
    entry: &Entry,
    depths: &mut [Option<u64>],
    place: usize,
) -> Change
    requires here { slice_get code.now.funcs function ≡ Some entry.now }
    requires inside { StaysInside code.now function entry.now }
    requires length { entry.now.first + length depths.old ≡ end_of code.now function }
    requires short { length depths.old < 2 ^ 32 }
    requires place { place < length depths.old }
    requires small { AreSmall depths.old }
    ensures { Moves code.now function entry.now place (place + 1) depths.old depths.new result }
{
    let Some(scopes) = depths[place] else {
        return Change::Same;
    };
    let Some(instr) = code.instrs.get(entry.first as usize + place) else {
        return Change::Same;
    };
    let after = scopes_after(instr.op, scopes);
    let edges = edges(*instr);
    let on = put_next(depths, place + 1, edges.next, after);
    join(on, put_target(depths, edges.target, entry.first, after))
}

/// The same for all places.
fn sweep(code: &Code, function: usize, entry: &Entry, depths: &mut [Option<u64>]) -> Change
    requires here { slice_get code.now.funcs function ≡ Some entry.now }
    requires inside { StaysInside code.now function entry.now }
    requires length { entry.now.first + length depths.old ≡ end_of code.now function }
    requires short { length depths.old < 2 ^ 32 }
    requires small { AreSmall depths.old }
    ensures { Moves code.now function entry.now 0 (length depths.old) depths.old depths.new result }
{
    let mut change = Change::Same;
    for place in 0..depths.len() {
        change = join(change, visit(code, function, entry, depths, place));
    }
    change
}

/// Takes down all that is open on some path. Says whether no two paths open other numbers of scopes.
fn fill(code: &Code, function: usize, entry: &Entry, depths: &mut [Option<u64>]) -> bool
    requires here { slice_get code.now.funcs function ≡ Some entry.now }
    requires inside { StaysInside code.now function entry.now }
    requires length { entry.now.first + length depths.old ≡ end_of code.now function }
    requires short { length depths.old < 2 ^ 32 }
    requires small { AreSmall depths.old }
    requires reached { AreReached code.now function entry.now depths.old }
    ensures { Fills code.now function entry.now depths.old depths.new result }
{
    loop {
        match sweep(code, function, entry, depths) {
            Change::Same => return true,
            Change::More => (),
            Change::Clash => return false,
        }
    }
}

/// Says whether an operation may stand where so many scopes are open.
fn closes_what_is_open(op: Op, scopes: u64) -> bool
    ensures { IsTrue result ↔ ClosesWhatIsOpen op scopes }
{
    match op {
        Op::Leave => scopes > 0,
        Op::Return | Op::Give => scopes == 0,
        _ => true,
    }
}

/// Says whether the operation of a place may stand where so many scopes are open.
fn closes_at(code: &Code, point: usize, scopes: Option<u64>) -> bool
    ensures { IsTrue result ↔ ClosesAt code.now point scopes }
{
    match (scopes, code.instrs.get(point)) {
        (Some(scopes), Some(instr)) => closes_what_is_open(instr.op, scopes),
        _ => true,
    }
}

/// Says whether all operations may stand where they do.
fn close(code: &Code, entry: &Entry, depths: &[Option<u64>]) -> bool
    requires { entry.now.first + length depths.now < 2 ^ 64 }
    ensures { IsTrue result ↔ Close code.now entry.now depths.now (length depths.now) }
{
    for place in 0..depths.len() {
        if !closes_at(code, entry.first as usize + place, depths[place]) {
            return false;
        }
    }
    true
}

/// So many places, of which only the first is known: no scope is open there.
fn start(alloc: Global, count: usize) -> Result<Vec<Option<u64>>, NoMemory>
    requires { 0 < count }
    ensures { IfOk result (λ depths. depths.items ≡ slice_set (replicate count None) 0 (Some 0)) }
{
    let mut depths = vec![in alloc; None; count]?;
    depths[0] = Some(0);
    Ok(depths)
}

/// Says whether scopes are opened and closed in the same way on all paths of a function, where only the first place is
/// known.
fn close_alike(code: &Code, function: usize, entry: &Entry, depths: &mut [Option<u64>]) -> bool
    requires here { slice_get code.now.funcs function ≡ Some entry.now }
    requires inside { StaysInside code.now function entry.now }
    requires length { entry.now.first + length depths.old ≡ end_of code.now function }
    requires end { end_of code.now function ≤ length code.now.instrs }
    requires short { length code.now.instrs < 2 ^ 32 }
    requires some { 0 < length depths.old }
    requires start { depths.old ≡ slice_set (replicate (length depths.old) None) 0 (Some 0) }
    ensures { IsTrue result ↔ HasScopes code.now function entry.now }
{
    if !fill(code, function, entry, depths) {
        return false;
    }
    close(code, entry, depths)
}

/// Says whether scopes are opened and closed in the same way on all paths of a function.
pub(crate) fn has_scopes(
    alloc: Global,
    code: &Code,
    function: usize,
    entry: &Entry,
) -> Result<bool, NoMemory>
    requires here { slice_get code.now.funcs function ≡ Some entry.now }
    requires next { function + 1 < 2 ^ 64 }
    requires inside { StaysInside code.now function entry.now }
    requires some { entry.now.first < end_of code.now function }
    requires end { end_of code.now function ≤ length code.now.instrs }
    requires short { length code.now.instrs < 2 ^ 32 }
    ensures { Decides (HasScopes code.now function entry.now) result }
{
    let count = end_of(code, function) - entry.first as usize;
    let mut depths = start(alloc, count)?;
    Ok(close_alike(code, function, entry, depths.as_mut_slice()))
}
