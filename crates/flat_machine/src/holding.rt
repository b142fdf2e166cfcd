//! The first holder of an object that is held, which is searched once, where a bad free ends the run.

ghost use Rattle.std.specs.Prelude.{◌≡◌, ◌<◌, ◌^◌, Some};
ghost use Rattle.flat_objects.specs.Keeping.{IsKept};
ghost use Rattle.flat_machine.specs.Kept.{call_number};
ghost use Rattle.flat_machine.specs.Pinning.{IsNamed};
ghost use Rattle.flat_machine.specs.Holding.{IsHolding};
ghost use Rattle.flat_machine.specs.FirstHolder.{IsFirstInCalls, IsFirstOfAll, IsFirstRegister, IsHolderOf, IsOwnerOf, LeadsToStart};

use crate::calls::Calls;
use crate::state::State;
use crate::words::address_in;
use byte_memory::Steps;
use flat_code::RegisterIter;
use flat_objects::{FlatObjects, Holding};
use hs_base::Holder;
use std::sync::ledger::Ledger;

/// The memory local of a birth: the number of its function and its own, if it is one of these calls.
fn owner_of(calls: &Calls, birth: u64) -> Option<(u32, u32)>
    ensures { IsOwnerOf calls.now birth result }
{
    calls.all_fit();
    let waiting = calls.waiting();
    for k in 0..waiting + 1 {
        let first = calls.first_of(k);
        if first <= birth && birth - first < u64::from(calls.made_of(k)) {
            return Some((calls.func_of(k), (birth - first) as u32));
        }
    }
    None
}

/// The holder that a pointer inside an object is, where so many statics are the first objects, and all others are memory locals of
/// these calls or of the heap.
pub(crate) fn inside_holder(found: Holding, statics: usize, calls: &Calls) -> Holder
    requires { statics < 2 ^ 32 }
    ensures { IsHolderOf statics calls.now found result }
{
    if found.birth < statics as u64 {
        return Holder::Global {
            index: found.birth as u32,
            offset: found.offset,
        };
    }
    match owner_of(calls, found.birth) {
        Some((func, index)) => Holder::Memory {
            func,
            index,
            offset: found.offset,
        },
        None => Holder::Block {
            line: found.line,
            offset: found.offset,
        },
    }
}

/// Says whether an address leads to the object that starts at another.
fn leads_to<L: Ledger>(objects: &FlatObjects, addr: u32, start: u32, steps: &mut Steps<L>) -> bool
    requires one { IsKept objects.now addr }
    requires other { IsKept objects.now start }
    ensures { LeadsToStart objects.now addr start result }
{
    objects.difference(addr, start, 1, steps).is_ok()
}

/// The first of some registers of a call whose pointer leads to the object that starts at an address. Calls are numbered from the
/// oldest on.
pub(crate) fn first_register<L: Ledger>(
    objects: &FlatObjects,
    calls: &Calls,
    k: usize,
    registers: RegisterIter<'_>,
    start: u32,
    steps: &mut Steps<L>,
) -> Option<u32>
    requires { IsHolding objects.now (call_number calls.now k) registers start }
    ensures { IsFirstRegister objects.now (call_number calls.now k) registers.entry start result }
{
    for register in registers {
        let addr = address_in(calls.word_of(k, register));
        if leads_to(objects, addr, start, steps) {
            return Some(register);
        }
    }
    None
}

impl State {
    /// The first of the registers that count in the calls, from the oldest on, whose pointer leads to the object that starts at an
    /// address, which is named.
    fn holder_in_calls<L: Ledger>(&self, start: u32, steps: &mut Steps<L>) -> Option<Holder>
        requires named { IsNamed self.now }
        requires start { self.now.memory.scopes.named ≡ Some start }
        ensures { IsFirstInCalls self.now result }
    {
        let waiting = self.waiting();
        for k in 0..waiting {
            if let Some(holder) = self.holder_in(k, start, steps) {
                return Some(holder);
            }
        }
        self.holder_in(waiting, start, steps)
    }

    /// The first holder of the object that the memory names: inside an object, by birth, or else among the registers that count in
    /// the calls, from the oldest on.
    pub(crate) fn first_holder<L: Ledger>(&self, steps: &mut Steps<L>) -> Option<Holder>
        requires { IsNamed self.now }
        ensures { IsFirstOfAll self.now result }
    {
        let Some(start) = self.held() else {
            unreachable!()
        };
        if let Some(holder) = self.holder_inside(start, steps) {
            return Some(holder);
        }
        self.holder_in_calls(start, steps)
    }
}
