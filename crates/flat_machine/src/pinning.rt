//! Pointers in registers that are counted.

ghost use Rattle.std.specs.Prelude.{◌≡◌, [], slice_index_or};
ghost use Rattle.flat_objects.specs.Memory.{SameFrame};
ghost use Rattle.flat_objects.specs.Keeping.{StillKeeps};
ghost use Rattle.flat_machine.specs.Pinning.{IsCountable, IsCounted, PinsIn, UnpinsIn};

use crate::calls::Calls;
use crate::words::address_in;
use byte_memory::Steps;
use flat_code::{RegisterIter, Registers};
use flat_objects::FlatObjects;
use std::sync::ledger::Ledger;

/// The registers that count at an instruction, and none where it has no site.
pub(crate) fn pins_at(pins: &[Registers], point: usize) -> RegisterIter<'_>
    ensures { result ≡ slice_index_or pins.now point [] }
{
    if point < pins.len() {
        pins[point].iter()
    } else {
        RegisterIter::empty()
    }
}

/// Pins some registers of the running call.
pub(crate) fn pin_registers<L: Ledger>(
    objects: &mut FlatObjects,
    calls: &Calls,
    registers: RegisterIter<'_>,
    steps: &mut Steps<L>,
)
    requires { IsCountable objects.old calls.now.running.words registers }
    ensures keeps { StillKeeps objects.old objects.new }
    ensures tracks { PinsIn objects.old objects.new calls.now.running.words registers.entry }
    ensures frame { SameFrame objects.old objects.new }
{
    for register in registers {
        objects.pin(address_in(calls.word(register)), steps);
    }
}

/// Unpins some registers of the running call.
pub(crate) fn unpin_registers<L: Ledger>(
    objects: &mut FlatObjects,
    calls: &Calls,
    registers: RegisterIter<'_>,
    steps: &mut Steps<L>,
)
    requires { IsCounted objects.old calls.now.running.words registers }
    ensures keeps { StillKeeps objects.old objects.new }
    ensures tracks { UnpinsIn objects.old objects.new calls.now.running.words registers.entry }
    ensures frame { SameFrame objects.old objects.new }
{
    for register in registers {
        objects.unpin(address_in(calls.word(register)), steps);
    }
}
