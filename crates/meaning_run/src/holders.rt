//! The first holder of an object: in an object, in a waiting frame from the oldest on, or in the running frame.

ghost use Rattle.std.specs.Prelude.{◌≡◌, ◌+◌, ◌<◌, ◌^◌, ◌&&◌, not, IfOk, length, slice_get};
ghost use Rattle.hs_base.specs.Freeing.{is_pointer_to};
ghost use Rattle.object_meaning.specs.objects.Values.{pointer_in};
ghost use Rattle.meaning_run.specs.Holding.{counted_registers};
ghost use Rattle.object_meaning.specs.objects.Holding.{is_live_in, takes_answer, answer_register, statement_in, in_running, in_waiting, in_all_waiting, holders, first_of};
ghost use Rattle.meaning_run.specs.Steps.{is_counted};

use crate::machine::{Frame, Machine, statement_in};
use core_tree::Core;
use hs_base::{Holder, NoMemory, Value};
use meaning_state::{is_live, is_pointer_to, pointer};
use std::alloc::Global;

/// Says whether a register is live after a point of a function.
fn is_live_in(alloc: Global, core: &Core, func: u32, point: usize, r: u32) -> Result<bool, NoMemory>
    ensures { IfOk result (λ live. live ≡ is_live_in (slice_get core.now.funcs func) point r) }
{
    match core.funcs.get(func as usize) {
        Some(f) => is_live(alloc, f.body.as_slice(), point, r),
        None => Ok(false),
    }
}

/// The register that takes the answer of the call that a frame is at.
pub(crate) fn answer_register(core: &Core, func: u32, point: usize) -> Option<u32>
    ensures { result ≡ answer_register (statement_in (slice_get core.now.funcs func) point) }
{
    match statement_in(core, func, point) {
        Some(stm) => stm.kind.written(),
        None => None,
    }
}

/// Says whether a register of a frame counts: it is live, and the answer of a call is not to come there.
fn counts(
    alloc: Global,
    core: &Core,
    func: u32,
    point: usize,
    answer: Option<u32>,
    r: u32,
) -> Result<bool, NoMemory>
    ensures { IfOk result (λ counts. counts ≡ is_counted core.now func point answer r) }
{
    Ok(is_live_in(alloc, core, func, point, r)? && answer != Some(r))
}

/// Says whether a register counts and points to an object.
#[tactic(auto, using(crate::proofs::Ands::and_false, crate::proofs::Ands::and_true))]
fn holds(
    alloc: Global,
    core: &Core,
    func: u32,
    point: usize,
    answer: Option<u32>,
    r: u32,
    value: Value,
    birth: u64,
) -> Result<bool, NoMemory>
    ensures { IfOk result (λ b. b ≡ (is_counted core.now func point answer r && is_pointer_to birth (pointer_in value))) }
{
    if !is_pointer_to(birth, pointer(value)) {
        return Ok(false);
    }
    counts(alloc, core, func, point, answer, r)
}

/// The first register that counts and points to an object.
fn register_holder(
    alloc: Global,
    core: &Core,
    func: u32,
    point: usize,
    regs: &[Value],
    answer: Option<u32>,
    birth: u64,
) -> Result<Option<Holder>, NoMemory>
    requires { length regs.now < 2 ^ 32 }
    ensures { IfOk result (λ h. h ≡ first_of (counted_registers core.now func point answer birth regs.now)) }
{
    for r in 0..regs.len() {
        if holds(alloc, core, func, point, answer, r as u32, regs[r], birth)? {
            return Ok(Some(Holder::Register {
                func,
                index: r as u32,
            }));
        }
    }
    Ok(None)
}

impl Frame {
    /// The first register of a waiting frame that counts and points to an object.
    fn holder(&self, alloc: Global, core: &Core, birth: u64) -> Result<Option<Holder>, NoMemory>
        ensures { IfOk result (λ h. h ≡ first_of (in_waiting core.now birth self.now)) }
    {
        let answer = answer_register(core, self.func, self.point);
        register_holder(
            alloc, core, self.func, self.point, &self.regs, answer, birth,
        )
    }
}

impl Machine {
    /// The first register of the waiting frames that counts and points to an object.
    pub(crate) fn waiting_holder(
        &self,
        alloc: Global,
        core: &Core,
        birth: u64,
    ) -> Result<Option<Holder>, NoMemory>
        ensures { IfOk result (λ h. h ≡ first_of (in_all_waiting core.now birth self.now.waiting)) }
    {
        for i in 0..self.waiting.len() {
            let frame = &self.waiting[i];
            let holder = frame.holder(alloc, core, birth)?;
            if holder.is_some() {
                return Ok(holder);
            }
        }
        Ok(None)
    }

    /// The first register of the running frame that counts and points to an object.
    fn running_holder(
        &self,
        alloc: Global,
        core: &Core,
        birth: u64,
    ) -> Result<Option<Holder>, NoMemory>
        ensures { IfOk result (λ h. h ≡ first_of (in_running core.now birth self.now.running)) }
    {
        register_holder(alloc, core, self.func, self.point, &self.regs, None, birth)
    }

    /// The first holder of an object, without those inside the queued objects.
    pub(crate) fn holder(
        &self,
        alloc: Global,
        core: &Core,
        birth: u64,
    ) -> Result<Option<Holder>, NoMemory>
        ensures { IfOk result (λ h. h ≡ first_of (holders core.now self.now birth self.now.queue)) }
    {
        let inside = self.objects.holder(&self.queue, birth);
        if inside.is_some() {
            return Ok(inside);
        }
        let waiting = self.waiting_holder(alloc, core, birth)?;
        if waiting.is_some() {
            return Ok(waiting);
        }
        self.running_holder(alloc, core, birth)
    }
}
