//! Jumps, calls, and returns with the end of memory locals (C99 6.5.2.2, 6.8.6).

ghost use Rattle.std.specs.Prelude.{◌≡◌, ◌≤◌, ◌+◌, ◌<◌, ◌^◌, ◌++◌, [], All, ℕ, Bool, List, None, Some, IfOk, IfSome, MatchOption, length, map, drop, slice_get, slice_index, OnOk};
ghost use Rattle.std.specs.List.{range_with_len};
ghost use Rattle.hs_base.specs.Freeing.{first_held, ended};
ghost use Rattle.core_tree.specs.Sound.{main_of};
ghost use Rattle.core_tree.specs.declared.program.Static.{Static};
ghost use Rattle.object_meaning.specs.objects.Values.{first_value};
ghost use Rattle.object_meaning.specs.objects.Going.{with_step, with_objects};
ghost use Rattle.object_meaning.specs.objects.Making.{local_objects};
ghost use Rattle.object_meaning.specs.objects.Builtins.{byte_in};
ghost use Rattle.object_meaning.specs.objects.Calls.{registers_of, locals_of, running_locals, new_frame, with_locals, call, escapes, go_back, give_back};
ghost use Rattle.object_meaning.specs.objects.Meaning.{act, returned, start, values_of};
ghost use Rattle.meaning_run.specs.Leading.{Alone, IsJump, with_input};
ghost use Rattle.meaning_run.specs.Calling.{entered};
ghost use Rattle.meaning_run.specs.Steps.{IsFirstEscaping, Leads, calls, with_objects_of, without_locals, new_registers};

use crate::halt::Halt;
use crate::holders::answer_register;
use crate::machine::{Frame, Machine};
use core_tree::{Atom, Core, Mem, Reg, StmKind};
use hs_base::{IntKind, Line, NoMemory, Pointer, Value};
use meaning_state::{Objects, is_pointer_to, number, pointer};
use std::alloc::Global;
use std::mem::replace;

/// The registers of a function, and none where it is not there.
fn registers_of(core: &Core, func: u32) -> &[Reg]
    ensures { result.now ≡ registers_of (slice_get core.now.funcs func) }
{
    match core.funcs.get(func as usize) {
        Some(f) => f.regs.as_slice(),
        None => &[],
    }
}

/// The memory locals of a function, and none where it is not there.
fn locals_of(core: &Core, func: u32) -> &[Mem]
    ensures { result.now ≡ locals_of (slice_get core.now.funcs func) }
{
    match core.funcs.get(func as usize) {
        Some(f) => f.mems.as_slice(),
        None => &[],
    }
}

/// What a register holds at the start of a call.
fn first_value(register: &Reg) -> Value
    ensures { result ≡ first_value register.now }
{
    if register.pointer {
        Value::Pointer(Pointer::Null)
    } else {
        Value::Number(0)
    }
}

/// The registers behind so many.
fn registers_behind(registers: &[Reg], count: usize) -> &[Reg]
    ensures { result.now ≡ drop count registers.now }
{
    if count <= registers.len() {
        &registers[count..]
    } else {
        &[]
    }
}

/// Adds the first values of registers.
fn add_first_values(regs: &mut Vec<Value>, registers: &[Reg]) -> Result<(), NoMemory>
    ensures { IfOk result (λ _. regs.new.items ≡ regs.old.items ++ map first_value registers.now) }
{
    for i in 0..registers.len() {
        regs.push(first_value(&registers[i]))?;
    }
    Ok(())
}

/// So many births, from one on.
fn births(alloc: Global, first: u64, count: u32) -> Result<Vec<u64>, NoMemory>
    requires { first < 2 ^ 63 }
    ensures births { IfOk result (λ births. births.items ≡ range_with_len first count) }
    ensures len { IfOk result (λ births. length births.items ≡ count) }
{
    let mut births = Vec::new(alloc);
    for k in 0..count {
        births.push(first + u64::from(k))?;
    }
    Ok(births)
}

/// A number converted to an int, and from there to a byte.
pub(crate) fn byte_in(n: i128) -> u8
    ensures { result ≡ byte_in n }
{
    IntKind::I32.wrap(n).rem_euclid(256) as u8
}

impl Machine {
    /// The registers of a call: the arguments, and the others at their first values.
    fn first_registers(
        &self,
        alloc: Global,
        core: &Core,
        func: u32,
        args: &[Atom],
    ) -> Result<Vec<Value>, NoMemory>
        ensures { IfOk result (λ r. r.items ≡ new_registers core.now func (values_of self.now args.now)) }
    {
        let mut regs = self.values(alloc, args)?;
        let rest = registers_behind(registers_of(core, func), regs.len());
        add_first_values(&mut regs, rest)?;
        Ok(regs)
    }

    /// Makes the memory locals of a call of a function.
    pub(crate) fn make_locals(
        &mut self,
        alloc: Global,
        core: &Core,
        func: u32,
    ) -> Result<(), NoMemory>
        ensures { IfOk result (λ _. self.new ≡ with_objects_of core.now func self.old) }
    {
        let mems = locals_of(core, func);
        if mems.len() >= 1 << 32 {
            return Err(NoMemory);
        }
        self.objects.add_locals(alloc, func, mems)
    }

    /// Calls a function: its frame runs, and the one that calls waits.
    fn enter(
        &mut self,
        alloc: Global,
        core: &Core,
        func: u32,
        args: &[Atom],
    ) -> Result<(), NoMemory>
        requires { self.old.running.point + 1 < 2 ^ 64 }
        ensures { OnOk result (self.new ≡ entered core.now func (values_of self.old args.now) self.old) }
    {
        let regs = self.first_registers(alloc, core, func, args)?;
        let first_local = self.objects.len() as u64;
        if first_local >= 1 << 63 || regs.len() >= 1 << 32 {
            return Err(NoMemory);
        }
        self.make_locals(alloc, core, func)?;
        let caller = Frame {
            func: self.func,
            point: self.point,
            regs: replace(&mut self.regs, regs),
            first_local: self.first_local,
        };
        self.waiting.push(caller)?;
        self.func = func;
        self.point = 0;
        self.first_local = first_local;
        Ok(())
    }

    /// Takes a step, and calls a function.
    fn call(
        &mut self,
        alloc: Global,
        core: &Core,
        line: Line,
        func: u32,
        args: &[Atom],
    ) -> Result<(), Halt>
        requires { self.old.running.point + 1 < 2 ^ 64 }
        ensures { Leads (calls core.now line func (values_of self.old args.now)) self.old self.new result }
    {
        if !self.take_step() {
            return Err(Halt::Spent);
        }
        self.enter(alloc, core, func, args)?;
        Ok(())
    }

    /// Says whether a pointer to an ending local is left.
    #[tactic(auto, using(crate::proofs::Held::held_first, crate::proofs::Held::held_later))]
    fn escapes(
        &self,
        alloc: Global,
        core: &Core,
        answer: Value,
        locals: &[u64],
        birth: u64,
    ) -> Result<bool, NoMemory>
        ensures { IfOk result (λ left. left ≡ escapes core.now answer self.now locals.now birth) }
    {
        if is_pointer_to(birth, pointer(answer)) {
            return Ok(true);
        }
        if self.objects.holder(locals, birth).is_some() {
            return Ok(true);
        }
        Ok(self.waiting_holder(alloc, core, birth)?.is_some())
    }

    /// The place of the first local that escapes.
    fn first_escaping(
        &self,
        alloc: Global,
        core: &Core,
        answer: Value,
        locals: &[u64],
    ) -> Result<Option<usize>, NoMemory>
        ensures first { IfOk result (IsFirstEscaping core.now answer self.now locals.now) }
        ensures within { IfOk result (λ place. IfSome place (λ k. k < length locals.now)) }
    {
        for k in 0..locals.len() {
            if self.escapes(alloc, core, answer, locals, locals[k])? {
                return Ok(Some(k));
            }
        }
        Ok(None)
    }

    /// The newest of the waiting frames runs again; a return from the first call of main ends the run (C99 5.1.2.2.3).
    fn go_back(&mut self, core: &Core, answer: Value) -> Result<(), Halt>
        ensures { Leads (go_back core.now answer self.old.waiting) self.old self.new result }
    {
        match self.waiting.pop() {
            None => Err(Halt::Exit(byte_in(number(answer)))),
            Some(caller) => {
                let Frame {
                    func,
                    point,
                    mut regs,
                    first_local,
                } = caller;
                if let Some(r) = answer_register(core, func, point) {
                    let r = r as usize;
                    if r < regs.len() {
                        regs[r] = answer;
                    }
                }
                self.func = func;
                self.point = point + 1;
                self.regs = regs;
                self.first_local = first_local;
                Ok(())
            }
        }
    }

    /// A return: the memory locals of the call end, or the first that escapes stops the run.
    fn give_back(
        &mut self,
        alloc: Global,
        core: &Core,
        line: Line,
        answer: Value,
    ) -> Result<(), Halt>
        ensures { Leads (give_back core.now line answer) self.old self.new result }
    {
        let locals = self.running_locals(alloc, core)?;
        if let Some(k) = self.first_escaping(alloc, core, answer, &locals)? {
            return Err(Halt::Escape {
                func: self.running_func(),
                local: k as u32,
                line,
            });
        }
        self.end_locals(core);
        self.go_back(core, answer)
    }

    /// The answer of a return, which may have no operand.
    fn returned(&self, a: Option<Atom>) -> Value
        ensures { result ≡ returned self.now a }
    {
        match a {
            Some(a) => self.value(a),
            None => Value::Number(0),
        }
    }

    /// A return with an operand, or without one.
    fn give(&mut self, alloc: Global, core: &Core, line: Line, a: Option<Atom>) -> Result<(), Halt>
        ensures { Leads (give_back core.now line (returned self.old a)) self.old self.new result }
    {
        let answer = self.returned(a);
        self.give_back(alloc, core, line, answer)
    }

    /// The births of the memory locals of the running call.
    fn running_locals(&self, alloc: Global, core: &Core) -> Result<Vec<u64>, NoMemory>
        ensures births { IfOk result (λ births. births.items ≡ running_locals core.now self.now) }
        ensures short { IfOk result (λ births. length births.items < 2 ^ 32) }
    {
        let count = locals_of(core, self.func).len();
        if count >= 1 << 32 {
            return Err(NoMemory);
        }
        let all = births(alloc, self.first_local, count as u32)?;
        Ok(all)
    }

    /// The memory locals of the running call die.
    fn end_locals(&mut self, core: &Core)
        ensures { self.new ≡ without_locals core.now self.old }
    {
        let count = locals_of(core, self.func).len();
        self.objects.end(self.first_local as usize, count);
    }

    /// The number of the running function.
    fn running_func(&self) -> u32
        ensures { result ≡ self.now.running.func }
    {
        self.func
    }

    /// A statement that changes the running point or the frames.
    pub(crate) fn act_jump(
        &mut self,
        alloc: Global,
        core: &Core,
        line: Line,
        kind: &StmKind,
    ) -> Result<(), Halt>
        requires point { self.old.running.point + 1 < 2 ^ 64 }
        requires jump { IsJump kind.now }
        ensures { (fits : ℕ → Bool) → Leads (act core.now fits line kind.now) self.old self.new result }
    {
        match kind {
            StmKind::Jump(l) => {
                self.go_to(*l);
                Ok(())
            }
            StmKind::Zero(a, l) => {
                if self.number(*a) == 0 {
                    self.go_to(*l);
                } else {
                    self.go_on();
                }
                Ok(())
            }
            StmKind::Case(a, v, l) => {
                if self.number(*a) == *v {
                    self.go_to(*l);
                } else {
                    self.go_on();
                }
                Ok(())
            }
            StmKind::Loop(l) => {
                if !self.take_step() {
                    return Err(Halt::Spent);
                }
                self.go_to(*l);
                Ok(())
            }
            StmKind::Call(f, _, args) => self.call(alloc, core, line, *f, args.as_slice()),
            StmKind::Return(a) => self.give(alloc, core, line, *a),
            _ => unreachable!(),
        }
    }
}

impl Machine {
    /// The state once a function was called first, as main is, with so many steps left.
    pub(crate) fn start(
        alloc: Global,
        core: &Core,
        func: usize,
        steps: u64,
    ) -> Result<Machine, NoMemory>
        requires func { func ≡ main_of core.now }
        requires statics { All (λ (s : Static). length s.start.bytes ≤ s.layout.size) core.now.statics }
        ensures { IfOk result (λ m. m ≡ with_locals core.now (start core.now [] steps)) }
    {
        if func >= 1 << 32 || core.statics.len() >= 1 << 32 {
            return Err(NoMemory);
        }
        let func = func as u32;
        let objects = Objects::of_statics(alloc, core.statics.as_slice())?;
        let mut regs = Vec::new(alloc);
        add_first_values(&mut regs, registers_of(core, func))?;
        let first_local = objects.len() as u64;
        if first_local >= 1 << 63 || regs.len() >= 1 << 32 {
            return Err(NoMemory);
        }
        let mut machine = Machine {
            objects,
            func,
            point: 0,
            regs,
            first_local,
            waiting: Vec::new(alloc),
            queue: Vec::new(alloc),
            scopes: 0,
            steps,
        };
        machine.make_locals(alloc, core, func)?;
        Ok(machine)
    }
}
