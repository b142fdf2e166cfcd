//! Behind which instructions a register is live.

ghost use Rattle.std.specs.Prelude.{◌≡◌, ◌<◌, ◌∷◌, [], length, IfOk, cond, false};
ghost use Rattle.std.specs.List.{list_any};
ghost use Rattle.core_tree.specs.Statements.{given_target};
ghost use Rattle.code_rules.specs.Lively.{AreMarked, Sweeps, Visits, is_wanted, leads_to_wanted};

use crate::instrs::{edges, reads, writes};
use flat_code::Code;
use hs_base::NoMemory;
use std::alloc::Global;

/// Says whether a register is wanted in front of an instruction.
fn is_wanted(code: &Code, marks: &[bool], register: u32, point: usize) -> bool
    requires { length marks.now ≡ length code.now.instrs }
    ensures { result ≡ is_wanted code.now marks.now register point }
{
    match code.instrs.get(point) {
        Some(instr) => { reads(*instr, register) || (!writes(*instr, register) && marks[point]) }
        None => false,
    }
}

/// Says whether it is wanted in front of the next instruction, where the run goes on to it.
fn next_wanted(code: &Code, marks: &[bool], register: u32, next: usize, goes_on: bool) -> bool
    requires { length marks.now ≡ length code.now.instrs }
    ensures { result ≡ list_any (is_wanted code.now marks.now register) (cond goes_on (next ∷ []) []) }
{
    if goes_on {
        is_wanted(code, marks, register, next)
    } else {
        false
    }
}

/// Says whether it is wanted in front of a target, where there is one.
fn target_wanted(code: &Code, marks: &[bool], register: u32, target: Option<u32>) -> bool
    requires { length marks.now ≡ length code.now.instrs }
    ensures { result ≡ list_any (is_wanted code.now marks.now register) (given_target target) }
{
    match target {
        Some(target) => is_wanted(code, marks, register, target as usize),
        None => false,
    }
}

/// Says whether it is wanted where the run may go from an instruction.
fn leads_to_wanted(code: &Code, marks: &[bool], register: u32, point: usize) -> bool
    requires long { length marks.now ≡ length code.now.instrs }
    requires point { point < length marks.now }
    ensures { result ≡ leads_to_wanted code.now marks.now register point }
{
    match code.instrs.get(point) {
        Some(instr) => {
            let edges = edges(*instr);
            let next = next_wanted(code, marks, register, point + 1, edges.next);
            next | target_wanted(code, marks, register, edges.target)
        }
        None => false,
    }
}

/// Marks an instruction from which the register is wanted. Says whether it was not marked before.
fn visit(code: &Code, marks: &mut [bool], register: u32, point: usize) -> bool
    requires long { length marks.old ≡ length code.now.instrs }
    requires point { point < length marks.old }
    ensures { Visits code.now register point marks.old marks.new result }
{
    if marks[point] || !leads_to_wanted(code, marks, register, point) {
        return false;
    }
    marks[point] = true;
    true
}

/// The same for all instructions, from the last to the first.
fn sweep(code: &Code, marks: &mut [bool], register: u32) -> bool
    requires { length marks.old ≡ length code.now.instrs }
    ensures { Sweeps code.now register 0 marks.old marks.new result }
{
    let mut more = false;
    for point in (0..marks.len()).rev() {
        more |= visit(code, marks, register, point);
    }
    more
}

/// Marks the instructions behind which a register is live: those from which some path along the edges of code leads to an
/// instruction that reads it, with none before that writes it.
///
/// A sweep takes time by the number of instructions, and there is one more than it takes to mark all.
///
/// # Errors
///
/// [`NoMemory`], where there is none for the marks.
pub fn live_points(alloc: Global, code: &Code, register: u32) -> Result<Vec<bool>, NoMemory>
    ensures { IfOk result (λ marks. AreMarked code.now register marks.items) }
{
    let mut marks = vec![in alloc; false; code.instrs.len()]?;
    while sweep(code, &mut marks, register) {}
    Ok(marks)
}
