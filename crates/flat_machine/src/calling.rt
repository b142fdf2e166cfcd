//! Calls and returns (C99 6.5.2.2, 6.8.6.4).

ghost use Rattle.std.specs.Prelude.{◌≡◌, ◌+◌, ◌<◌, ◌^◌, All, IsSome, Some, slice_get};
ghost use Rattle.object_meaning.specs.objects.Builtins.{byte_in};
ghost use Rattle.flat_code.specs.Table.{chosen};
ghost use Rattle.object_meaning.specs.code.Entering.{cost_of};
ghost use Rattle.flat_machine.specs.Pinning.{IsReturning, IsStanding};
ghost use Rattle.flat_machine.specs.Leading.{HasAllLocals, MayCall, WaitsAtCall};
ghost use Rattle.flat_machine.specs.Instructions.{CallsAlone, ReturnsAlone, StopsAtCall, StopsAtReturn};

use crate::packed::PackedWord;
use crate::state::State;
use crate::words::{address_in, integer_in};
use byte_memory::Steps;
use flat_code::{Code, Entry, Instr};
use hs_base::{End, IntKind, Line};
use std::sync::ledger::Ledger;

/// A number converted to an int, and from there to a byte.
pub(crate) fn byte_in(n: i128) -> u8
    ensures { result ≡ byte_in n }
{
    IntKind::I32.wrap(n).rem_euclid(256) as u8
}

/// The register that takes a result which may be left.
pub(crate) fn chosen(instr: Instr) -> Option<u32>
    ensures { result ≡ chosen instr }
{
    if instr.c == 1 { Some(instr.a) } else { None }
}

impl State {
    /// Takes a step, and calls a function that costs so much, if the stack has room for it. While the call waits, the pointers that
    /// count at it are pinned. The memory locals of the function are made.
    #[inline(always)]
    pub(crate) fn act_call<L: Ledger>(
        &mut self,
        code: &Code,
        line: Line,
        instr: Instr,
        callee: &Entry,
        cost: u64,
        steps: &mut Steps<L>,
    ) -> Result<(), End>
        requires point { self.old.calls.running.point + 1 < 2 ^ 64 }
        requires cost { cost ≡ cost_of code.now (Some callee.now) }
        requires there { All (λ n. IsSome (slice_get code.now.layouts n)) callee.now.mems }
        requires here { slice_get code.now.funcs instr.b ≡ Some callee.now }
        requires may { MayCall code.now instr self.old }
        requires standing { IsStanding self.old }
        ensures alone { CallsAlone code.now self.old self.new line instr result }
        ensures image { StopsAtCall code.now self.old self.new line instr result }
    {
        if !self.take_step() {
            return Err(End::Spent);
        }
        if cost > u64::from(self.stack_left()) {
            return Err(End::OutOfStack(line));
        }
        self.all_fit();
        self.pin(steps);
        self.enter(instr.b, callee, cost as u32);
        self.make_locals(code, callee, steps);
        Ok(())
    }

    /// A return with an answer. The memory locals of the call end, and the first that escapes ends the run.
    #[inline(always)]
    pub(crate) fn act_return<L: Ledger>(
        &mut self,
        code: &Code,
        line: Line,
        answer: PackedWord,
        steps: &mut Steps<L>,
    ) -> Result<(), End>
        requires call { WaitsAtCall code.now self.old.calls.waiting }
        requires locals { HasAllLocals code.now self.old.calls }
        requires returns { IsReturning self.old answer }
        ensures alone { ReturnsAlone code.now self.old self.new line answer result }
        ensures image { StopsAtReturn code.now self.old self.new line answer result }
    {
        if let Some(local) = self.end_locals(address_in(answer), steps) {
            return Err(End::Escape {
                func: self.func(),
                local,
                line,
            });
        }
        if !self.back() {
            return Err(End::Exit(byte_in(integer_in(answer))));
        }
        self.unpin(steps);
        let Some(instr) = code.instrs.get(self.point()) else {
            unreachable!()
        };
        self.give(chosen(*instr), answer);
        Ok(())
    }
}
