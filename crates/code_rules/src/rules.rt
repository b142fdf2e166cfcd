//! Rules of each instruction.

ghost use Rattle.std.specs.Prelude.{◌≡◌, ◌<◌, ◌+◌, ◌^◌, ℕ, slice_get, Some};
ghost use Rattle.flat_code.specs.declared.program.Code.{Code};
ghost use Rattle.flat_code.specs.declared.program.Entry.{Entry};
ghost use Rattle.flat_code.specs.declared.instructions.Instr.{Instr};
ghost use Rattle.flat_code.specs.WellFormed.{EachInstr, IsAt, end_of};
ghost use Rattle.code_rules.specs.Rules.{OfFunction};
ghost use Rattle.code_rules.specs.Deciding.{Decides};

use flat_code::{Code, Entry, Instr};
use hs_base::NoMemory;
use std::alloc::Global;

/// What each instruction of code has to keep.
pub(crate) trait Rule {
    /// An instruction of a function keeps the rule.
    ghost holds: { Self → Code → ℕ → Entry → ℕ → Instr → Type 0 };

    /// What the rule brings with it is of this code.
    ghost suits: { Self → Code → Type 0 };

    /// Says whether an instruction keeps the rule.
    fn check(
        &self,
        alloc: Global,
        code: &Code,
        function: usize,
        entry: &Entry,
        point: usize,
        instr: Instr,
    ) -> Result<bool, NoMemory>
        requires suits { suits self.now code.now }
        requires here { IsAt code.now function entry.now point instr }
        requires next { point + 1 < 2 ^ 64 }
        requires following { function + 1 < 2 ^ 64 }
        ensures { Decides (holds self.now code.now function entry.now point instr) result };
}

/// Where a function ends.
pub(crate) fn end_of(code: &Code, function: usize) -> usize
    requires { function + 1 < 2 ^ 64 }
    ensures { result ≡ end_of code.now function }
{
    match code.funcs.get(function + 1) {
        Some(next) => next.first as usize,
        None => code.instrs.len(),
    }
}

/// Says whether each instruction of a function keeps a rule.
fn each_of_function<R: Rule>(
    alloc: Global,
    code: &Code,
    rule: &R,
    function: usize,
    entry: &Entry,
) -> Result<bool, NoMemory>
    requires suits { R.suits rule.now code.now }
    requires here { slice_get code.now.funcs function ≡ Some entry.now }
    requires next { function + 1 < 2 ^ 64 }
    ensures { Decides (OfFunction code.now (R.holds rule.now code.now) function entry.now) result }
{
    for point in entry.first as usize..end_of(code, function) {
        if let Some(instr) = code.instrs.get(point) {
            if !rule.check(alloc, code, function, entry, point, *instr)? {
                return Ok(false);
            }
        }
    }
    Ok(true)
}

/// Says whether each instruction keeps a rule.
pub(crate) fn each_instr<R: Rule>(alloc: Global, code: &Code, rule: &R) -> Result<bool, NoMemory>
    requires { R.suits rule.now code.now }
    ensures { Decides (EachInstr code.now (R.holds rule.now code.now)) result }
{
    for function in 0..code.funcs.len() {
        if let Some(entry) = code.funcs.get(function) {
            if !each_of_function(alloc, code, rule, function, entry)? {
                return Ok(false);
            }
        }
    }
    Ok(true)
}
