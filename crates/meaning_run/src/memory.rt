//! Statements on bytes and pointers in objects.

ghost use Rattle.std.specs.Prelude.{◌≡◌, ◌+◌, ◌<◌, ◌^◌, ℕ, Bool, List};
ghost use Rattle.core_tree.specs.declared.program.Core.{Core as Program};
ghost use Rattle.hs_base.specs.Access.{set_bytes};
ghost use Rattle.object_meaning.specs.objects.Values.{number_of, pointer_of, bytes_in};
ghost use Rattle.object_meaning.specs.objects.Going.{answers, changes};
ghost use Rattle.object_meaning.specs.objects.Memory.{loaded, loaded_pointer, stored, stored_pointer, copied};
ghost use Rattle.object_meaning.specs.objects.Meaning.{act};
ghost use Rattle.meaning_run.specs.Leading.{Alone, IsMemory, with_input};
ghost use Rattle.meaning_run.specs.Steps.{ActsAnywhere, Alters, Sets, cleared_in, copied_in, pointer_stored, stored_in};

use crate::halt::{Halt, halt_of};
use crate::machine::Machine;
use core_tree::{Atom, StmKind};
use hs_base::{IntKind, Line};
use meaning_state::bytes_in;
use std::alloc::Global;

impl Machine {
    /// A register takes the integer of a kind at a pointer.
    fn load(&mut self, line: Line, kind: IntKind, r: u32, p: Atom) -> Result<(), Halt>
        requires { self.old.running.point + 1 < 2 ^ 64 }
        ensures { Sets line r (λ s. loaded s.objects kind (pointer_of s p)) self.old self.new result }
    {
        match self.objects.load(kind, self.pointer(p)) {
            Ok(value) => {
                self.write(Some(r), value);
                Ok(())
            }
            Err(refusal) => Err(halt_of(line, refusal)),
        }
    }

    /// A register takes the pointer at a pointer.
    fn load_pointer(&mut self, line: Line, r: u32, p: Atom) -> Result<(), Halt>
        requires { self.old.running.point + 1 < 2 ^ 64 }
        ensures { Sets line r (λ s. loaded_pointer s.objects (pointer_of s p)) self.old self.new result }
    {
        match self.objects.load_pointer(self.pointer(p)) {
            Ok(value) => {
                self.write(Some(r), value);
                Ok(())
            }
            Err(refusal) => Err(halt_of(line, refusal)),
        }
    }

    /// Writes an integer, and goes on.
    fn store(&mut self, line: Line, kind: IntKind, p: Atom, a: Atom) -> Result<(), Halt>
        requires { self.old.running.point + 1 < 2 ^ 64 }
        ensures { Alters line (λ s. stored_in s kind p a) self.old self.new result }
    {
        let (p, n) = (self.pointer(p), self.number(a));
        let outcome = self.objects.store(kind, p, n);
        match outcome {
            Ok(()) => {
                self.go_on();
                Ok(())
            }
            Err(refusal) => Err(halt_of(line, refusal)),
        }
    }

    /// Writes a pointer, and goes on.
    fn store_pointer(&mut self, line: Line, p: Atom, q: Atom) -> Result<(), Halt>
        requires { self.old.running.point + 1 < 2 ^ 64 }
        ensures { Alters line (λ s. pointer_stored s p q) self.old self.new result }
    {
        let (p, q) = (self.pointer(p), self.pointer(q));
        let outcome = self.objects.store_pointer(p, q);
        match outcome {
            Ok(()) => {
                self.go_on();
                Ok(())
            }
            Err(refusal) => Err(halt_of(line, refusal)),
        }
    }

    /// Copies bytes, and goes on.
    fn copy(&mut self, alloc: Global, line: Line, p: Atom, q: Atom, n: i128) -> Result<(), Halt>
        requires { self.old.running.point + 1 < 2 ^ 64 }
        ensures { Alters line (λ s. copied_in s p q n) self.old self.new result }
    {
        let (p, q) = (self.pointer(p), self.pointer(q));
        let outcome = self.objects.copy(alloc, p, q, bytes_in(n));
        match outcome {
            Ok(()) => {
                self.go_on();
                Ok(())
            }
            Err(refusal) => Err(halt_of(line, refusal)),
        }
    }

    /// Sets bytes to zero, and goes on.
    fn clear(&mut self, line: Line, p: Atom, n: i128) -> Result<(), Halt>
        requires { self.old.running.point + 1 < 2 ^ 64 }
        ensures { Alters line (λ s. cleared_in s p n) self.old self.new result }
    {
        let p = self.pointer(p);
        let outcome = self.objects.set(p, 0, bytes_in(n));
        match outcome {
            Ok(()) => {
                self.go_on();
                Ok(())
            }
            Err(refusal) => Err(halt_of(line, refusal)),
        }
    }

    /// A statement on bytes and pointers in objects.
    pub(crate) fn act_memory(
        &mut self,
        alloc: Global,
        line: Line,
        kind: &StmKind,
    ) -> Result<(), Halt>
        requires point { self.old.running.point + 1 < 2 ^ 64 }
        requires memory { IsMemory kind.now }
        ensures { ActsAnywhere line kind.now self.old self.new result }
    {
        match kind {
            StmKind::Load(kind, r, p) => self.load(line, *kind, *r, *p),
            StmKind::Loadp(r, p) => self.load_pointer(line, *r, *p),
            StmKind::Store(kind, p, a) => self.store(line, *kind, *p, *a),
            StmKind::Storep(p, q) => self.store_pointer(line, *p, *q),
            StmKind::Copy(p, q, n) => self.copy(alloc, line, *p, *q, *n),
            StmKind::Clear(p, n) => self.clear(line, *p, *n),
            _ => unreachable!(),
        }
    }
}
