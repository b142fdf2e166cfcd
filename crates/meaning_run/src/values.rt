//! Statements on numbers and pointers.

ghost use Rattle.std.specs.Prelude.{◌≡◌, ◌+◌, ◌<◌, ◌^◌, ◌<ℤ◌, ◌*ℤ◌, pos, neg_ℤ, ℕ, Bool, List};
ghost use Rattle.core_tree.specs.declared.program.Core.{Core as Program};
ghost use Rattle.core_tree.specs.Sound.{HasNumbers};
ghost use Rattle.object_meaning.specs.objects.Values.{number_of, pointer_of};
ghost use Rattle.object_meaning.specs.objects.Going.{answers};
ghost use Rattle.object_meaning.specs.objects.Arithmetic.{on_two, moved_by, difference, pointers_compared};
ghost use Rattle.object_meaning.specs.objects.Meaning.{act, is_null};
ghost use Rattle.meaning_run.specs.Leading.{Alone, IsValues, with_input};
ghost use Rattle.meaning_run.specs.Steps.{ActsAnywhere, Sets, compared_in, difference_in, moved, worked_in};

use crate::halt::{Halt, halt_of};
use crate::machine::Machine;
use core_tree::{Atom, BinOp, CmpOp, StmKind};
use hs_base::{IntKind, Line, Pointer, Value};
use meaning_state::{compared, difference, on_one, on_two, pointers_compared, truth};

/// Says whether it is the null pointer.
fn is_null(p: Pointer) -> bool
    ensures { result ≡ is_null p }
{
    matches!(p, Pointer::Null)
}

impl Machine {
    /// A register takes the result of an operation on two integers.
    fn operate(
        &mut self,
        line: Line,
        op: BinOp,
        kind: IntKind,
        r: u32,
        a: Atom,
        b: Atom,
    ) -> Result<(), Halt>
        requires point { self.old.running.point + 1 < 2 ^ 64 }
        ensures { Sets line r (λ s. worked_in s op kind a b) self.old self.new result }
    {
        match on_two(op, kind, self.number(a), self.number(b)) {
            Ok(value) => {
                self.write(Some(r), value);
                Ok(())
            }
            Err(refusal) => Err(halt_of(line, refusal)),
        }
    }

    /// A register takes a pointer moved up by elements of a size.
    fn move_up(&mut self, line: Line, r: u32, p: Atom, a: Atom, size: i128) -> Result<(), Halt>
        requires point { self.old.running.point + 1 < 2 ^ 64 }
        ensures { Sets line r (λ s. moved s p (number_of s a *ℤ size)) self.old self.new result }
    {
        match self.objects.moved_up(self.pointer(p), self.number(a), size) {
            Ok(value) => {
                self.write(Some(r), value);
                Ok(())
            }
            Err(refusal) => Err(halt_of(line, refusal)),
        }
    }

    /// A register takes a pointer moved down by elements of a size.
    fn move_down(&mut self, line: Line, r: u32, p: Atom, a: Atom, size: i128) -> Result<(), Halt>
        requires point { self.old.running.point + 1 < 2 ^ 64 }
        ensures { Sets line r (λ s. moved s p (neg_ℤ (number_of s a *ℤ size))) self.old self.new result }
    {
        match self
            .objects
            .moved_down(self.pointer(p), self.number(a), size)
        {
            Ok(value) => {
                self.write(Some(r), value);
                Ok(())
            }
            Err(refusal) => Err(halt_of(line, refusal)),
        }
    }

    /// A register takes a pointer moved by a number of bytes.
    fn move_by(&mut self, line: Line, r: u32, p: Atom, distance: i128) -> Result<(), Halt>
        requires point { self.old.running.point + 1 < 2 ^ 64 }
        ensures { Sets line r (λ s. moved s p distance) self.old self.new result }
    {
        match self.objects.moved(self.pointer(p), distance) {
            Ok(value) => {
                self.write(Some(r), value);
                Ok(())
            }
            Err(refusal) => Err(halt_of(line, refusal)),
        }
    }

    /// A register takes the difference of two pointers.
    fn subtract(&mut self, line: Line, r: u32, p: Atom, q: Atom, size: i128) -> Result<(), Halt>
        requires point { self.old.running.point + 1 < 2 ^ 64 }
        requires size { pos 0 <ℤ size }
        ensures { Sets line r (λ s. difference_in s p q size) self.old self.new result }
    {
        match difference(self.pointer(p), self.pointer(q), size) {
            Ok(value) => {
                self.write(Some(r), value);
                Ok(())
            }
            Err(refusal) => Err(halt_of(line, refusal)),
        }
    }

    /// A register takes the comparison of two pointers.
    fn compare(&mut self, line: Line, op: CmpOp, r: u32, p: Atom, q: Atom) -> Result<(), Halt>
        requires point { self.old.running.point + 1 < 2 ^ 64 }
        ensures { Sets line r (λ s. compared_in s op p q) self.old self.new result }
    {
        match pointers_compared(op, self.pointer(p), self.pointer(q)) {
            Ok(value) => {
                self.write(Some(r), value);
                Ok(())
            }
            Err(refusal) => Err(halt_of(line, refusal)),
        }
    }

    /// A statement on numbers and pointers.
    pub(crate) fn act_values(&mut self, line: Line, kind: &StmKind) -> Result<(), Halt>
        requires point { self.old.running.point + 1 < 2 ^ 64 }
        requires values { IsValues kind.now }
        requires numbers { HasNumbers kind.now }
        ensures { ActsAnywhere line kind.now self.old self.new result }
    {
        match kind {
            StmKind::Set(r, a) => {
                let value = self.value(*a);
                self.write(Some(*r), value);
                Ok(())
            }
            StmKind::Conv(kind, r, a) => {
                let n = kind.wrap(self.number(*a));
                self.write(Some(*r), Value::Number(n));
                Ok(())
            }
            StmKind::Un(op, kind, r, a) => {
                let n = on_one(*op, *kind, self.number(*a));
                self.write(Some(*r), Value::Number(n));
                Ok(())
            }
            StmKind::Bin(op, kind, r, a, b) => self.operate(line, *op, *kind, *r, *a, *b),
            StmKind::Cmp(op, r, a, b) => {
                let holds = compared(*op, self.number(*a), self.number(*b));
                self.write(Some(*r), truth(holds));
                Ok(())
            }
            StmKind::Add(r, p, a, size) => self.move_up(line, *r, *p, *a, *size),
            StmKind::Sub(r, p, a, size) => self.move_down(line, *r, *p, *a, *size),
            StmKind::Off(r, p, distance) => self.move_by(line, *r, *p, *distance),
            StmKind::Diff(r, p, q, size) => self.subtract(line, *r, *p, *q, *size),
            StmKind::Pcmp(op, r, p, q) => self.compare(line, *op, *r, *p, *q),
            StmKind::Test(r, p) => {
                let some = !is_null(self.pointer(*p));
                self.write(Some(*r), truth(some));
                Ok(())
            }
            _ => unreachable!(),
        }
    }
}
