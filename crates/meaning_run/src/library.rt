//! Built-in functions (C99 7.19.7, 7.20.4, 7.21).

ghost use Rattle.std.specs.Prelude.{◌≡◌, ◌+◌, ◌<◌, ◌^◌, ℕ, pos, List, Some, Ok, map, length, slice_index_or};
ghost use Rattle.hs_base.specs.Access as access;
ghost use Rattle.hs_base.specs.Access.{and_then, set_bytes};
ghost use Rattle.hs_base.specs.Trace.{Out};
ghost use Rattle.object_meaning.specs.objects.Values.{number, number_at, pointer_at, size_in};
ghost use Rattle.object_meaning.specs.objects.Memory.{copied};
ghost use Rattle.object_meaning.specs.objects.Strings.{string_at, order_of};
ghost use Rattle.object_meaning.specs.objects.Builtins.{byte_in, call_lib, filled, get_byte, put_line};
ghost use Rattle.object_meaning.specs.objects.Going.{goes, stops_after, ended_by, if_done, answers, write};
ghost use Rattle.object_meaning.specs.objects.Meaning.{values_of};
ghost use Rattle.meaning_state.specs.Printing.{IsRefused};
ghost use Rattle.meaning_state.specs.Refusing.{Answers};
ghost use Rattle.meaning_run.specs.Leading.{Alone, IsAloneLib, Moves, Seen, Counted, with_input};
ghost use Rattle.meaning_run.specs.Steps.{CallsLib, MovesRefused, MovesSomehow, Reads, Tells, WritesRefused, puts_bytes, puts_string, Gives, Leads, MovesBy, Writes, Counts, MovesLib, WritesLib, length_at, order_at};

use crate::calls::byte_in;
use crate::halt::{Halt, halt_of};
use crate::machine::Machine;
use core_tree::{Atom, LibName};
use hs_base::{Items, Line, Pointer, Sink, Source, TrapKind, Value, put_all};
use meaning_state::{Refusal, number, pointer, size_in};
use std::alloc::Global;

impl Machine {
    /// An argument of a built-in function. No sound core leaves one out.
    fn argument(&self, args: &[Atom], k: usize) -> Value
        ensures { result ≡ slice_index_or (values_of self.now args.now) k (number (pos 0)) }
    {
        if k < args.len() {
            self.value(args[k])
        } else {
            Value::Number(0)
        }
    }

    /// An integer among the arguments.
    fn number_at(&self, args: &[Atom], k: usize) -> i128
        ensures { result ≡ number_at (values_of self.now args.now) k }
    {
        number(self.argument(args, k))
    }

    /// A pointer among the arguments.
    fn pointer_at(&self, args: &[Atom], k: usize) -> Pointer
        ensures { result ≡ pointer_at (values_of self.now args.now) k }
    {
        pointer(self.argument(args, k))
    }

    /// Copies bytes; a register takes the destination.
    fn copy_to(
        &mut self,
        alloc: Global,
        line: Line,
        r: Option<u32>,
        d: Pointer,
        s: Pointer,
        n: u32,
    ) -> Result<(), Halt>
        requires { self.old.running.point + 1 < 2 ^ 64 }
        ensures { Leads (filled line r d (copied self.old.objects d s n)) self.old self.new result }
    {
        match self.objects.copy(alloc, d, s, u128::from(n)) {
            Ok(()) => {
                self.write(r, Value::Pointer(d));
                Ok(())
            }
            Err(refusal) => Err(halt_of(line, refusal)),
        }
    }

    /// Sets bytes; a register takes the pointer.
    fn set_at(
        &mut self,
        line: Line,
        r: Option<u32>,
        p: Pointer,
        byte: u8,
        n: u32,
    ) -> Result<(), Halt>
        requires { self.old.running.point + 1 < 2 ^ 64 }
        ensures { Leads (filled line r p (set_bytes self.old.objects p byte n)) self.old self.new result }
    {
        match self.objects.set(p, byte, u128::from(n)) {
            Ok(()) => {
                self.write(r, Value::Pointer(p));
                Ok(())
            }
            Err(refusal) => Err(halt_of(line, refusal)),
        }
    }
}

impl Machine {
    /// A register takes the length of a string.
    fn measure(&mut self, alloc: Global, line: Line, r: Option<u32>, p: Pointer) -> Result<(), Halt>
        requires { self.old.running.point + 1 < 2 ^ 64 }
        ensures { Gives line r (λ s. length_at s p) self.old self.new result }
    {
        match self.objects.string(alloc, p) {
            Ok(text) => {
                self.write(r, Value::Number(text.len() as i128));
                Ok(())
            }
            Err(refusal) => Err(halt_of(line, refusal)),
        }
    }

    /// A register takes the order of two strings.
    fn compare_strings(
        &mut self,
        line: Line,
        r: Option<u32>,
        p: Pointer,
        q: Pointer,
    ) -> Result<(), Halt>
        requires { self.old.running.point + 1 < 2 ^ 64 }
        ensures { Gives line r (λ s. order_at s p q) self.old self.new result }
    {
        match self.objects.order(p, q) {
            Ok(order) => {
                self.write(r, Value::Number(order));
                Ok(())
            }
            Err(refusal) => Err(halt_of(line, refusal)),
        }
    }

    /// A size among the arguments.
    fn size_at(&self, args: &[Atom], k: usize) -> u32
        ensures { result ≡ size_in (number_at (values_of self.now args.now) k) }
    {
        size_in(self.number_at(args, k))
    }

    /// A byte among the arguments.
    fn byte_at(&self, args: &[Atom], k: usize) -> u8
        ensures { result ≡ byte_in (number_at (values_of self.now args.now) k) }
    {
        byte_in(self.number_at(args, k))
    }

    /// The string at a pointer.
    fn string_at(&self, alloc: Global, p: Pointer) -> Result<Items<u8>, Refusal>
        ensures { Answers result (string_at self.now.objects p) }
    {
        self.objects.string(alloc, p)
    }

    /// `memcpy` and `memmove`.
    fn lib_copy(
        &mut self,
        alloc: Global,
        line: Line,
        r: Option<u32>,
        args: &[Atom],
    ) -> Result<(), Halt>
        requires { self.old.running.point + 1 < 2 ^ 64 }
        ensures { CallsLib line LibName.Memcpy r args.now self.old self.new result }
    {
        let d = self.pointer_at(args, 0);
        let s = self.pointer_at(args, 1);
        let n = self.size_at(args, 2);
        self.copy_to(alloc, line, r, d, s, n)
    }

    /// `memset`.
    fn lib_set(&mut self, line: Line, r: Option<u32>, args: &[Atom]) -> Result<(), Halt>
        requires { self.old.running.point + 1 < 2 ^ 64 }
        ensures { CallsLib line LibName.Memset r args.now self.old self.new result }
    {
        let p = self.pointer_at(args, 0);
        let byte = self.byte_at(args, 1);
        let n = self.size_at(args, 2);
        self.set_at(line, r, p, byte, n)
    }

    /// `strlen`.
    fn lib_length(
        &mut self,
        alloc: Global,
        line: Line,
        r: Option<u32>,
        args: &[Atom],
    ) -> Result<(), Halt>
        requires { self.old.running.point + 1 < 2 ^ 64 }
        ensures { CallsLib line LibName.Strlen r args.now self.old self.new result }
    {
        let p = self.pointer_at(args, 0);
        self.measure(alloc, line, r, p)
    }

    /// `strcmp`.
    fn lib_order(&mut self, line: Line, r: Option<u32>, args: &[Atom]) -> Result<(), Halt>
        requires { self.old.running.point + 1 < 2 ^ 64 }
        ensures { CallsLib line LibName.Strcmp r args.now self.old self.new result }
    {
        let p = self.pointer_at(args, 0);
        let q = self.pointer_at(args, 1);
        self.compare_strings(line, r, p, q)
    }

    /// A built-in function that neither writes nor reads a byte.
    fn lib_alone(
        &mut self,
        alloc: Global,
        line: Line,
        name: LibName,
        r: Option<u32>,
        args: &[Atom],
    ) -> Result<(), Halt>
        requires point { self.old.running.point + 1 < 2 ^ 64 }
        requires alone { IsAloneLib name }
        ensures { CallsLib line name r args.now self.old self.new result }
    {
        match name {
            LibName::Exit => Err(Halt::Exit(byte_in(self.number_at(args, 0)))),
            LibName::Abort => Err(Halt::Trap(TrapKind::Abort, line)),
            LibName::Memcpy => self.lib_copy(alloc, line, r, args),
            LibName::Memmove => self.lib_copy(alloc, line, r, args),
            LibName::Memset => self.lib_set(line, r, args),
            LibName::Strlen => self.lib_length(alloc, line, r, args),
            LibName::Strcmp => self.lib_order(line, r, args),
            LibName::Getchar | LibName::Putchar | LibName::Puts => unreachable!(),
        }
    }

    /// Writes bytes, and a register takes a value.
    #[tactic(auto, using(hs_base::specs::TraceEquations::out_bytes, hs_base::specs::TraceEquations::in_bytes))]
    pub(crate) fn put_bytes<O: Sink>(
        &mut self,
        out: &mut O,
        bytes: &[u8],
        r: Option<u32>,
        value: Value,
    ) -> Result<(), Halt>
        requires point { self.old.running.point + 1 < 2 ^ 64 }
        requires count { O.faults out.old + 1 < 2 ^ 64 }
        ensures told { Writes (puts_bytes bytes.now r value) self.old self.new O.taken out.old out.new result }
        ensures faults { (i : ℕ) → Counted result i i (O.faults out.old) (O.faults out.new) }
        ensures moves { MovesBy (puts_bytes bytes.now r value) self.old self.new result }
    {
        match put_all(out, bytes) {
            Ok(()) => {
                self.write(r, value);
                Ok(())
            }
            Err(_) => Err(Halt::OutputFault),
        }
    }

    /// Writes bytes, and the run ends behind them for a refusal.
    pub(crate) fn put_refused<O: Sink>(
        &self,
        out: &mut O,
        bytes: &[u8],
        line: Line,
        refusal: Refusal,
    ) -> Result<(), Halt>
        requires { O.faults out.old + 1 < 2 ^ 64 }
        ensures told { WritesRefused bytes.now line refusal self.now O.taken out.old out.new result }
        ensures faults { (i : ℕ) → Counted result i i (O.faults out.old) (O.faults out.new) }
        ensures moves { MovesRefused bytes.now line refusal self.now result }
    {
        match put_all(out, bytes) {
            Ok(()) => Err(halt_of(line, refusal)),
            Err(_) => Err(Halt::OutputFault),
        }
    }

    /// Writes a text and a line end.
    fn put_text<O: Sink>(
        &mut self,
        r: Option<u32>,
        mut text: Items<u8>,
        out: &mut O,
    ) -> Result<(), Halt>
        requires point { self.old.running.point + 1 < 2 ^ 64 }
        requires count { O.faults out.old + 1 < 2 ^ 64 }
        ensures told { Writes (put_line r text) self.old self.new O.taken out.old out.new result }
        ensures faults { (i : ℕ) → Counted result i i (O.faults out.old) (O.faults out.new) }
        ensures moves { MovesBy (put_line r text) self.old self.new result }
    {
        text.push(b'\n')?;
        self.put_bytes(out, text.as_slice(), r, Value::Number(0))
    }

    /// Writes a string and a line end.
    fn puts<O: Sink>(
        &mut self,
        alloc: Global,
        line: Line,
        r: Option<u32>,
        p: Pointer,
        out: &mut O,
    ) -> Result<(), Halt>
        requires point { self.old.running.point + 1 < 2 ^ 64 }
        requires count { O.faults out.old + 1 < 2 ^ 64 }
        ensures told { Writes (puts_string line r p self.old.objects) self.old self.new O.taken out.old out.new result }
        ensures faults { (i : ℕ) → Counted result i i (O.faults out.old) (O.faults out.new) }
        ensures moves { MovesBy (puts_string line r p self.old.objects) self.old self.new result }
    {
        match self.string_at(alloc, p) {
            Ok(text) => self.put_text(r, text, out),
            Err(refusal) => Err(halt_of(line, refusal)),
        }
    }

    /// `puts`.
    fn lib_puts<O: Sink>(
        &mut self,
        alloc: Global,
        line: Line,
        r: Option<u32>,
        args: &[Atom],
        out: &mut O,
    ) -> Result<(), Halt>
        requires point { self.old.running.point + 1 < 2 ^ 64 }
        requires count { O.faults out.old + 1 < 2 ^ 64 }
        ensures told { WritesLib line LibName.Puts r args.now self.old self.new O.taken out.old out.new result }
        ensures faults { (i : ℕ) → Counted result i i (O.faults out.old) (O.faults out.new) }
        ensures moves { MovesLib line LibName.Puts r args.now self.old self.new result }
    {
        let p = self.pointer_at(args, 0);
        self.puts(alloc, line, r, p, out)
    }

    /// `putchar`.
    fn lib_putchar<O: Sink>(
        &mut self,
        r: Option<u32>,
        args: &[Atom],
        out: &mut O,
    ) -> Result<(), Halt>
        requires point { self.old.running.point + 1 < 2 ^ 64 }
        requires count { O.faults out.old + 1 < 2 ^ 64 }
        ensures told { WritesLib 0 LibName.Putchar r args.now self.old self.new O.taken out.old out.new result }
        ensures faults { (i : ℕ) → Counted result i i (O.faults out.old) (O.faults out.new) }
        ensures moves { MovesLib 0 LibName.Putchar r args.now self.old self.new result }
    {
        let byte = self.byte_at(args, 0);
        self.put_bytes(out, &[byte], r, Value::Number(i128::from(byte)))
    }

    /// Reads a byte.
    #[tactic(auto, using(crate::proofs::Bytes::asks))]
    fn get<I: Source>(&mut self, r: Option<u32>, input: &mut I) -> Result<(), Halt>
        requires point { self.old.running.point + 1 < 2 ^ 64 }
        requires count { I.faults input.old + 1 < 2 ^ 64 }
        ensures told { Reads (get_byte r) self.old self.new I.left input.old input.new result }
        ensures faults { (o : ℕ) → Counted result (I.faults input.old) (I.faults input.new) o o }
        ensures moves { MovesSomehow (get_byte r) self.old self.new result }
    {
        match input.next() {
            Ok(Some(byte)) => {
                self.write(r, Value::Number(i128::from(byte)));
                Ok(())
            }
            Ok(None) => {
                self.write(r, Value::Number(-1));
                Ok(())
            }
            Err(_) => Err(Halt::InputFault),
        }
    }

    /// A call of a built-in function; a register takes its answer.
    pub(crate) fn act_lib<I: Source, O: Sink>(
        &mut self,
        alloc: Global,
        line: Line,
        name: LibName,
        r: Option<u32>,
        args: &[Atom],
        input: &mut I,
        out: &mut O,
    ) -> Result<(), Halt>
        requires point { self.old.running.point + 1 < 2 ^ 64 }
        requires input { I.faults input.old + 1 < 2 ^ 64 }
        requires out { O.faults out.old + 1 < 2 ^ 64 }
        ensures told { Tells (call_lib line name r (values_of self.old args.now)) self.old self.new I.left input.old input.new O.taken out.old out.new result }
        ensures faults { Counts result I.faults input.old input.new O.faults out.old out.new }
        ensures moves { MovesSomehow (λ _. call_lib line name r (values_of self.old args.now)) self.old self.new result }
    {
        match name {
            LibName::Getchar => self.get(r, input),
            LibName::Putchar => self.lib_putchar(r, args, out),
            LibName::Puts => self.lib_puts(alloc, line, r, args, out),
            _ => self.lib_alone(alloc, line, name, r, args),
        }
    }
}
