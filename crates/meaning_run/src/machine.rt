//! The state of a run, but for its input.

ghost use Rattle.std.specs.Prelude.{◌≡◌, ◌+◌, ◌<◌, ◌^◌, IfOk, IfSome, IsTrue, false, option_copied, slice_get};
ghost use Rattle.object_meaning.specs.objects.Values.{value_of, number_of, pointer_of};
ghost use Rattle.object_meaning.specs.objects.Going.{at_point, onward, put, write};
ghost use Rattle.object_meaning.specs.objects.Holding.{statement_in, statement_at};
ghost use Rattle.object_meaning.specs.objects.Meaning.{values_of};
ghost use Rattle.meaning_run.specs.Steps.{TakesStep};

use core_tree::{Atom, Core, Stm};
use hs_base::{NoMemory, Pointer, Value};
use meaning_state::{Objects, number, pointer};
use std::alloc::Global;
use std::marker::Model;

/// A call that waits for the one that it made.
#[derive(Drop)]
pub(crate) struct Frame {
    pub(crate) func: u32,
    pub(crate) point: usize,
    pub(crate) regs: Vec<Value>,
    pub(crate) first_local: u64,
}

impl Model for Frame {
    ghost use Rattle.std.specs.Prelude.{◌+◌, ◌<◌, ◌^◌, length};
    ghost use Rattle.hs_base.specs.State as spec;

    ghost Value = { spec.Frame };

    ghost view = { λ f. record { func = f.func; point = f.point; regs = f.regs.items; first_local = f.first_local } };

    ghost invariant = { λ f. (f.point + 1 < 2 ^ 64) × (length f.regs.items < 2 ^ 32) × (f.first_local < 2 ^ 63) };
}

/// The state of a run, but for its input.
#[derive(Drop)]
pub(crate) struct Machine {
    pub(crate) objects: Objects,
    pub(crate) func: u32,
    pub(crate) point: usize,
    pub(crate) regs: Vec<Value>,
    pub(crate) first_local: u64,
    pub(crate) waiting: Vec<Frame>,
    pub(crate) queue: Vec<u64>,
    pub(crate) scopes: u64,
    pub(crate) steps: u64,
}

impl Model for Machine {
    ghost use Rattle.std.specs.Prelude.{[], reverse, ◌<◌, ◌^◌, length};
    ghost use Rattle.hs_base.specs.State as spec;

    ghost Value = { spec.State };

    ghost view = { λ m. record { objects = m.objects; running = record { func = m.func; point = m.point; regs = m.regs.items; first_local = m.first_local }; waiting = reverse m.waiting.items; queue = m.queue.items; scopes = m.scopes; input = []; steps = m.steps } };

    ghost invariant = { λ m. (length m.regs.items < 2 ^ 32) × (m.first_local < 2 ^ 63) };
}

/// The statement at a point of a function.
pub(crate) fn statement_in(core: &Core, func: u32, point: usize) -> Option<&Stm>
    ensures is { option_copied result ≡ statement_in (slice_get core.now.funcs func) point }
    ensures point { IfSome result (λ _. point + 1 < 2 ^ 64) }
{
    match core.funcs.get(func as usize) {
        Some(f) => f.body.get(point),
        None => None,
    }
}

impl Machine {
    /// The statement that the running frame is at.
    pub(crate) fn statement<'a>(&self, core: &'a Core) -> Option<&'a Stm>
        ensures is { option_copied result ≡ statement_at core.now self.now.running }
        ensures point { IfSome result (λ _. self.now.running.point + 1 < 2 ^ 64) }
    {
        statement_in(core, self.func, self.point)
    }

    /// The value of an operand: statics are the first objects, and the memory locals of a call are born one after another.
    pub(crate) fn value(&self, atom: Atom) -> Value
        ensures { result ≡ value_of self.now.running atom }
    {
        match atom {
            Atom::Reg(r) => {
                let r = r as usize;
                if r < self.regs.len() {
                    self.regs[r]
                } else {
                    Value::Number(0)
                }
            }
            Atom::Int(n) => Value::Number(n),
            Atom::Null => Value::Pointer(Pointer::Null),
            Atom::Static(k) => Value::Pointer(Pointer::At {
                birth: u64::from(k),
                offset: 0,
            }),
            Atom::Mem(k) => Value::Pointer(Pointer::At {
                birth: self.first_local + u64::from(k),
                offset: 0,
            }),
        }
    }

    /// The number of an operand.
    pub(crate) fn number(&self, atom: Atom) -> i128
        ensures { result ≡ number_of self.now atom }
    {
        number(self.value(atom))
    }

    /// The pointer of an operand.
    pub(crate) fn pointer(&self, atom: Atom) -> Pointer
        ensures { result ≡ pointer_of self.now atom }
    {
        pointer(self.value(atom))
    }

    /// The values of operands.
    pub(crate) fn values(&self, alloc: Global, atoms: &[Atom]) -> Result<Vec<Value>, NoMemory>
        ensures { IfOk result (λ values. values.items ≡ values_of self.now atoms.now) }
    {
        let mut values = Vec::new(alloc);
        for atom in atoms {
            values.push(self.value(*atom))?;
        }
        Ok(values)
    }

    /// Goes to a point.
    pub(crate) fn go_to(&mut self, point: u32)
        ensures { self.new ≡ at_point self.old point }
    {
        self.point = point as usize;
    }

    /// Goes on.
    pub(crate) fn go_on(&mut self)
        requires { self.old.running.point + 1 < 2 ^ 64 }
        ensures { self.new ≡ onward self.old }
    {
        self.point += 1;
    }

    /// Writes a register, where there is one to write.
    pub(crate) fn put(&mut self, r: Option<u32>, value: Value)
        ensures { self.new ≡ put self.old r value }
    {
        if let Some(r) = r {
            let r = r as usize;
            if r < self.regs.len() {
                self.regs[r] = value;
            }
        }
    }

    /// Writes a register, where there is one to write, and goes on.
    pub(crate) fn write(&mut self, r: Option<u32>, value: Value)
        requires { self.old.running.point + 1 < 2 ^ 64 }
        ensures { self.new ≡ write self.old r value }
    {
        self.put(r, value);
        self.go_on();
    }

    /// Takes a step, if one is left.
    pub(crate) fn take_step(&mut self) -> bool
        ensures yes { IsTrue result → TakesStep self.old self.new }
        ensures no { result ≡ false → (self.new ≡ self.old) × (self.old.steps ≡ 0) }
    {
        if self.steps == 0 {
            return false;
        }
        self.steps -= 1;
        true
    }
}
