//! Instructions that write and read bytes (C99 7.19.7, 7.20.4).

ghost use Rattle.std.specs.Prelude.{◌≡◌, ◌+◌, ◌<◌, ◌^◌, [], ℕ, IfErr};
ghost use Rattle.hs_base.specs.declared.ends.End.TheVariants as end;
ghost use Rattle.core_tree.specs.declared.statements.LibName.TheVariants as libs;
ghost use Rattle.object_meaning.specs.objects.Builtins.{byte_in};
ghost use Rattle.flat_objects.specs.Keeping.{IsKept};
ghost use Rattle.flat_machine.specs.Words.{address_at};
ghost use Rattle.flat_machine.specs.Groups.{IsPlainLib};
ghost use Rattle.flat_machine.specs.Leading.{Counted};
ghost use Rattle.flat_machine.specs.Consoles.{CountsStep};
ghost use Rattle.flat_machine.specs.Instructions.{ForStates, get_next, plain_next, put_next};
ghost use Rattle.flat_machine.specs.Telling.{MovesOn, MovesSomehow, Puts, Tells};
ghost use Rattle.flat_machine.specs.StateMemory.{KeepsHanded};

use crate::calling::byte_in;
use crate::console::{Console, Lent};
use crate::state::State;
use byte_memory::Steps;
use core_tree::LibName;
use hs_base::{End, IntKind, Line, Sink, Source, TrapKind, put_all};
use std::sync::ledger::Ledger;

impl State {
    /// `puts`.
    fn act_puts<O: Sink, L: Ledger>(
        &mut self,
        line: Line,
        r: Option<u32>,
        out: &mut O,
        steps: &mut Steps<L>,
    ) -> Result<(), End>
        requires point { self.old.calls.running.point + 1 < 2 ^ 64 }
        requires count { O.faults out.old + 1 < 2 ^ 64 }
        requires kept { IsKept self.old.memory (address_at self.old.handed 0) }
        ensures told { Puts (O.taken out.old) (O.taken out.new) self.old self.new (plain_next line libs.Puts r) result }
        ensures faults { (i : ℕ) → Counted result i i (O.faults out.old) (O.faults out.new) }
        ensures unchanged { IfErr result (λ _. self.new ≡ self.old) }
        ensures moves { MovesOn self.old self.new (plain_next line libs.Puts r) result }
    {
        match self.put_line(self.address(0), out, steps) {
            Ok(()) => {
                self.give_number(r, IntKind::I32, 0);
                Ok(())
            }
            Err(error) => Err(error.end(line)),
        }
    }

    /// `putchar`.
    fn put_char<O: Sink>(&mut self, r: Option<u32>, n: i128, out: &mut O) -> Result<(), End>
        requires point { self.old.calls.running.point + 1 < 2 ^ 64 }
        requires count { O.faults out.old + 1 < 2 ^ 64 }
        ensures told { Puts (O.taken out.old) (O.taken out.new) self.old self.new (put_next r (byte_in n)) result }
        ensures faults { (i : ℕ) → Counted result i i (O.faults out.old) (O.faults out.new) }
        ensures unchanged { IfErr result (λ _. self.new ≡ self.old) }
        ensures moves { MovesOn self.old self.new (put_next r (byte_in n)) result }
    {
        let byte = byte_in(n);
        match put_all(out, &[byte]) {
            Ok(()) => {
                self.give_number(r, IntKind::U8, i128::from(byte));
                Ok(())
            }
            Err(_) => Err(End::OutputFault),
        }
    }

    /// `getchar`.
    fn get<I: Source, O: Sink, K: Lent>(
        &mut self,
        r: Option<u32>,
        console: &mut Console<'_, '_, I, O, K>,
    ) -> Result<(), End>
        requires point { self.old.calls.running.point + 1 < 2 ^ 64 }
        requires input { I.faults console.old.input.now + 1 < 2 ^ 64 }
        requires out { O.faults console.old.out.now + 1 < 2 ^ 64 }
        ensures told { Tells console.old console.new self.old self.new (get_next r) result }
        ensures faults { CountsStep console.old console.new result }
        ensures settled { IfErr result (λ e. e ≡ end.InputFault → console.new.page.notes ≡ []) }
        ensures unchanged { IfErr result (λ _. self.new ≡ self.old) }
        ensures moves { MovesSomehow self.old self.new (get_next r) result }
    {
        match console.next() {
            Ok(Some(byte)) => {
                self.give_number(r, IntKind::U8, i128::from(byte));
                Ok(())
            }
            Ok(None) => {
                self.give_number(r, IntKind::I32, -1);
                Ok(())
            }
            Err(fault) => Err(fault.end()),
        }
    }

    /// A call of a built-in function that writes no object; a register takes its answer.
    pub(crate) fn act_lib<I: Source, O: Sink, K: Lent, L: Ledger>(
        &mut self,
        line: Line,
        name: LibName,
        r: Option<u32>,
        console: &mut Console<'_, '_, I, O, K>,
        steps: &mut Steps<L>,
    ) -> Result<(), End>
        requires point { self.old.calls.running.point + 1 < 2 ^ 64 }
        requires name { IsPlainLib name }
        requires kept { KeepsHanded self.old }
        requires input { I.faults console.old.input.now + 1 < 2 ^ 64 }
        requires out { O.faults console.old.out.now + 1 < 2 ^ 64 }
        ensures told { Tells console.old console.new self.old self.new (plain_next line name r) result }
        ensures faults { ForStates self.old (λ _ _. CountsStep console.old console.new result) }
        ensures settled { IfErr result (λ e. e ≡ end.InputFault → console.new.page.notes ≡ []) }
        ensures unchanged { IfErr result (λ _. self.new ≡ self.old) }
        ensures moves { MovesSomehow self.old self.new (plain_next line name r) result }
    {
        match name {
            LibName::Getchar => self.get(r, console),
            LibName::Putchar => self.put_char(r, self.integer(0), console),
            LibName::Puts => self.act_puts(line, r, console, steps),
            LibName::Exit => Err(End::Exit(byte_in(self.integer(0)))),
            LibName::Abort => Err(End::Trap(TrapKind::Abort, line)),
            LibName::Strlen | LibName::Strcmp => self.act_string(line, name, r, steps),
            _ => unreachable!(),
        }
    }
}
