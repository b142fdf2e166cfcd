//! Instructions on ranges of bytes (C99 6.5.16.1, 6.7.8, 7.21.2.1, 7.21.2.2, 7.21.6.1).

ghost use Rattle.std.specs.Prelude.{◌≡◌, ◌+◌, ◌<◌, ◌^◌, [], ℕ, IfErr};
ghost use Rattle.hs_base.specs.declared.ends.End.TheVariants as end;
ghost use Rattle.core_tree.specs.declared.statements.LibName.TheVariants as libs;
ghost use Rattle.flat_code.specs.declared.instructions.Op.TheVariants as ops;
ghost use Rattle.object_meaning.specs.objects.Values.{bytes_in};
ghost use Rattle.flat_objects.specs.Ranges.{IsSettable};
ghost use Rattle.flat_machine.specs.Words.{address_at, integer_at};
ghost use Rattle.flat_machine.specs.Groups.{IsRanges, IsRangeLib};
ghost use Rattle.flat_machine.specs.Leading.{Counted};
ghost use Rattle.flat_machine.specs.Consoles.{CountsStep};
ghost use Rattle.flat_machine.specs.Instructions.{ActsAnyhow, ForStates, LeadsAlone, lib_next};
ghost use Rattle.flat_machine.specs.StateMemory.{MayStoreHanded, KeepsHanded};
ghost use Rattle.flat_machine.specs.Telling.{MovesSomehow, Tells};

use crate::calling::byte_in;
use crate::console::{Console, Lent};
use crate::making::size_in;
use crate::state::State;
use byte_memory::Steps;
use core_tree::LibName;
use flat_code::Op;
use hs_base::{End, Line, Sink, Source};
use std::sync::ledger::Ledger;

/// A number of bytes; there are none below 0.
fn bytes_in(n: i128) -> u64
    requires { bytes_in n < 2 ^ 64 }
    ensures { result ≡ bytes_in n }
{
    if n < 0 { 0 } else { n as u64 }
}

impl State {
    /// Copies a range of bytes.
    fn copy_range<L: Ledger>(&mut self, line: Line, steps: &mut Steps<L>) -> Result<(), End>
        requires point { self.old.calls.running.point + 1 < 2 ^ 64 }
        requires storable { MayStoreHanded self.old }
        requires small { bytes_in (integer_at self.old.handed 2) < 2 ^ 64 }
        ensures alone { ActsAnyhow self.old self.new line ops.Copy result }
        ensures unchanged { IfErr result (λ _. self.new ≡ self.old) }
    {
        let to = self.address(0);
        let from = self.address(1);
        let n = bytes_in(self.integer(2));
        match self.copy(to, from, n, steps) {
            Ok(()) => {
                self.go_on();
                Ok(())
            }
            Err(kind) => Err(End::Trap(kind, line)),
        }
    }

    /// Sets a range of bytes to zero; the pointers within become null.
    fn clear_range<L: Ledger>(&mut self, line: Line, steps: &mut Steps<L>) -> Result<(), End>
        requires point { self.old.calls.running.point + 1 < 2 ^ 64 }
        requires settable { IsSettable self.old.memory (address_at self.old.handed 0) }
        requires small { bytes_in (integer_at self.old.handed 1) < 2 ^ 64 }
        ensures alone { ActsAnyhow self.old self.new line ops.Clear result }
        ensures unchanged { IfErr result (λ _. self.new ≡ self.old) }
    {
        let start = self.address(0);
        let n = bytes_in(self.integer(1));
        match self.set_bytes(start, 0, n, steps) {
            Ok(()) => {
                self.go_on();
                Ok(())
            }
            Err(kind) => Err(End::Trap(kind, line)),
        }
    }

    /// An instruction that copies or clears a range of bytes.
    pub(crate) fn act_ranges<L: Ledger>(
        &mut self,
        line: Line,
        op: Op,
        steps: &mut Steps<L>,
    ) -> Result<(), End>
        requires point { self.old.calls.running.point + 1 < 2 ^ 64 }
        requires ranges { IsRanges op }
        requires storable { MayStoreHanded self.old }
        requires settable { IsSettable self.old.memory (address_at self.old.handed 0) }
        requires small { (k : ℕ) → bytes_in (integer_at self.old.handed k) < 2 ^ 64 }
        ensures alone { ActsAnyhow self.old self.new line op result }
        ensures unchanged { IfErr result (λ _. self.new ≡ self.old) }
    {
        match op {
            Op::Copy => self.copy_range(line, steps),
            Op::Clear => self.clear_range(line, steps),
            _ => unreachable!(),
        }
    }

    /// `memcpy` and `memmove`.
    fn act_copy<L: Ledger>(
        &mut self,
        line: Line,
        r: Option<u32>,
        steps: &mut Steps<L>,
    ) -> Result<(), End>
        requires point { self.old.calls.running.point + 1 < 2 ^ 64 }
        requires storable { MayStoreHanded self.old }
        ensures leads { LeadsAlone self.old self.new (lib_next line libs.Memcpy r) result }
        ensures faults { (i o : ℕ) → Counted result i i o o }
        ensures unchanged { IfErr result (λ _. self.new ≡ self.old) }
    {
        let to = self.address(0);
        let from = self.address(1);
        match self.copy(to, from, size_in(self.integer(2)), steps) {
            Ok(()) => {
                self.give_address(r, to);
                Ok(())
            }
            Err(kind) => Err(End::Trap(kind, line)),
        }
    }

    /// `memset`.
    fn act_set<L: Ledger>(
        &mut self,
        line: Line,
        r: Option<u32>,
        steps: &mut Steps<L>,
    ) -> Result<(), End>
        requires point { self.old.calls.running.point + 1 < 2 ^ 64 }
        requires settable { IsSettable self.old.memory (address_at self.old.handed 0) }
        ensures leads { LeadsAlone self.old self.new (lib_next line libs.Memset r) result }
        ensures faults { (i o : ℕ) → Counted result i i o o }
        ensures unchanged { IfErr result (λ _. self.new ≡ self.old) }
    {
        let start = self.address(0);
        let byte = byte_in(self.integer(1));
        match self.set_bytes(start, byte, size_in(self.integer(2)), steps) {
            Ok(()) => {
                self.give_address(r, start);
                Ok(())
            }
            Err(kind) => Err(End::Trap(kind, line)),
        }
    }

    /// A call of a built-in function that writes a range of bytes; a register takes the address of its destination.
    fn act_range_lib<L: Ledger>(
        &mut self,
        line: Line,
        name: LibName,
        r: Option<u32>,
        steps: &mut Steps<L>,
    ) -> Result<(), End>
        requires point { self.old.calls.running.point + 1 < 2 ^ 64 }
        requires name { IsRangeLib name }
        requires storable { MayStoreHanded self.old }
        requires settable { IsSettable self.old.memory (address_at self.old.handed 0) }
        ensures leads { LeadsAlone self.old self.new (lib_next line name r) result }
        ensures faults { (i o : ℕ) → Counted result i i o o }
        ensures unchanged { IfErr result (λ _. self.new ≡ self.old) }
    {
        match name {
            LibName::Memcpy => self.act_copy(line, r, steps),
            LibName::Memmove => self.act_copy(line, r, steps),
            LibName::Memset => self.act_set(line, r, steps),
            _ => unreachable!(),
        }
    }

    /// A call of a built-in function; a register takes its answer.
    pub(crate) fn act_built_in<I: Source, O: Sink, K: Lent, L: Ledger>(
        &mut self,
        line: Line,
        name: LibName,
        r: Option<u32>,
        console: &mut Console<'_, '_, I, O, K>,
        steps: &mut Steps<L>,
    ) -> Result<(), End>
        requires point { self.old.calls.running.point + 1 < 2 ^ 64 }
        requires kept { KeepsHanded self.old }
        requires storable { MayStoreHanded self.old }
        requires settable { IsSettable self.old.memory (address_at self.old.handed 0) }
        requires input { I.faults console.old.input.now + 1 < 2 ^ 64 }
        requires out { O.faults console.old.out.now + 1 < 2 ^ 64 }
        ensures told { Tells console.old console.new self.old self.new (lib_next line name r) result }
        ensures faults { ForStates self.old (λ _ _. CountsStep console.old console.new result) }
        ensures settled { IfErr result (λ e. e ≡ end.InputFault → console.new.page.notes ≡ []) }
        ensures unchanged { IfErr result (λ _. self.new ≡ self.old) }
        ensures moves { MovesSomehow self.old self.new (lib_next line name r) result }
    {
        match name {
            LibName::Memcpy | LibName::Memmove | LibName::Memset => {
                self.act_range_lib(line, name, r, steps)
            }
            _ => self.act_lib(line, name, r, console, steps),
        }
    }
}
