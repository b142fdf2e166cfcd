//! The active calls.

ghost use Rattle.std.specs.Prelude.{◌≡◌, ◌+◌, ◌*◌, ◌/◌, ◌<◌, ◌≤◌, ◌^◌, [], IfOk, IsTrue, false, drop, take, length, slice_index, slice_index_or};
ghost use Rattle.flat_machine.specs.Kept.{Active, GoesBack, at_point, call_number, onward, put, taken_by, with_local};
ghost use Rattle.flat_machine.specs.Words.{no_word};
ghost use Rattle.flat_code.specs.WellFormed.{IsWellFormed};
ghost use Rattle.flat_machine.specs.Operations.{AreGathered};
ghost use Rattle.flat_machine.specs.Calls.{CallsAdvance, RunsCalls, called, frame_with, fresh_frame, only_call};

use crate::call::Call;
use crate::going::go;
use crate::operation::Turn;
use crate::packed::PackedWord;
use crate::words::{behind, push_all, push_first_words};
use byte_memory::Steps;
use flat_code::Code;
use flat_objects::FlatObjects;
use hs_base::{IntKind, NoMemory};
use std::alloc::Global;
use std::marker::Model;
use std::sync::ledger::Ledger;

/// A call among those that wait, and the running one behind them.
fn call_in(waiting: &[Call], running: Call, k: usize) -> Call
    ensures { result ≡ slice_index_or waiting.now k running }
{
    if k < waiting.len() {
        waiting[k]
    } else {
        running
    }
}

/// The word of a register, of which the words from one place to another are.
fn word_in(words: &[PackedWord], base: usize, end: usize, r: u32) -> PackedWord
    ensures { result ≡ slice_index_or (drop base (take end words.now)) r no_word }
{
    let end = end.min(words.len());
    let r = r as usize;
    if base < end && r < end - base {
        words[base + r]
    } else {
        PackedWord::number(IntKind::I32, 0)
    }
}

/// The active calls. Memory for a full stack is taken when they are made.
#[derive(Drop)]
pub(crate) struct Calls {
    running: Call,
    waiting: Vec<Call>,
    words: Vec<PackedWord>,
    /// The addresses of the memory locals of all calls.
    locals: Vec<u32>,
    room: u32,
}

impl Model for Calls {
    ghost use Rattle.std.specs.Prelude.{◌+◌, ◌*◌, ◌≤◌};
    ghost use Rattle.std.specs.Vec.{vec_capacity};
    ghost use Rattle.flat_machine.specs.Kept.{Active};
    ghost use Rattle.flat_machine.specs.Stacked.{active_in, IsHeld};

    ghost Value = { Active };

    ghost view = { λ c. active_in c.words.items c.locals.items c.waiting.items c.running c.room };

    ghost invariant = { λ c. IsHeld c.room c.words.items c.locals.items c.waiting.items c.running × (c.room ≤ 8 * vec_capacity c.words + 7) × (c.room ≤ 48 * vec_capacity c.locals + 47) × (c.room ≤ 16 * vec_capacity c.waiting + 15) };
}

impl Calls {
    /// The first call, which costs so much, on a stack of so many bytes. Its memory locals are born from a birth on, and none is
    /// made yet.
    pub(crate) fn start(
        alloc: Global,
        func: u32,
        point: usize,
        kinds: &[bool],
        first: u64,
        cost: u32,
        room: u32,
    ) -> Result<Calls, NoMemory>
        requires cost { 16 + 8 * length kinds.now ≤ cost }
        requires room { cost ≤ room }
        ensures { IfOk result (λ c. c ≡ only_call (fresh_frame func point kinds.now first) cost room) }
    {
        let mut words = Vec::with_capacity(alloc, room as usize / 8)?;
        let waiting = Vec::with_capacity(alloc, room as usize / 16)?;
        let locals = Vec::with_capacity(alloc, room as usize / 48)?;
        push_first_words(&mut words, kinds);
        Ok(Calls {
            running: Call {
                func,
                point,
                base: 0,
                first,
                from: 0,
                used: cost,
            },
            waiting,
            words,
            locals,
            room,
        })
    }

    /// The bytes of stack that are left.
    pub(crate) fn left(&self) -> u32
        ensures { result + self.now.used ≡ self.now.room }
    {
        self.room - self.running.used
    }

    /// How many calls wait.
    pub(crate) fn waiting(&self) -> usize
        ensures { result ≡ length self.now.waiting }
    {
        self.waiting.len()
    }

    /// The number of the function of a call, where calls are numbered from the oldest on.
    pub(crate) fn func_of(&self, k: usize) -> u32
        ensures { result ≡ (call_number self.now k).func }
    {
        call_in(self.waiting.as_slice(), self.running, k).func
    }

    /// The instruction that a call is at.
    pub(crate) fn point_of(&self, k: usize) -> usize
        ensures { result ≡ (call_number self.now k).point }
    {
        call_in(self.waiting.as_slice(), self.running, k).point
    }

    /// The birth of the first memory local of a call.
    pub(crate) fn first_of(&self, k: usize) -> u64
        ensures { result ≡ (call_number self.now k).first }
    {
        call_in(self.waiting.as_slice(), self.running, k).first
    }

    /// How many memory locals of a call are made.
    pub(crate) fn made_of(&self, k: usize) -> u32
        ensures { result ≡ length (call_number self.now k).locals }
    {
        let _room = self.room;
        let from = call_in(self.waiting.as_slice(), self.running, k).from;
        if k >= self.waiting.len() {
            return self.locals.len().saturating_sub(from) as u32;
        }
        let next = call_in(self.waiting.as_slice(), self.running, k + 1).from;
        next.min(self.locals.len()).saturating_sub(from) as u32
    }

    /// The word of a register of a call.
    pub(crate) fn word_of(&self, k: usize, r: u32) -> PackedWord
        ensures { result ≡ slice_index_or (call_number self.now k).words r no_word }
    {
        if k >= self.waiting.len() {
            return self.word(r);
        }
        let base = call_in(self.waiting.as_slice(), self.running, k).base;
        let end = call_in(self.waiting.as_slice(), self.running, k + 1).base;
        word_in(self.words.as_slice(), base, end, r)
    }

    /// How many registers all calls can have at once.
    pub(crate) fn most_registers(&self) -> u32
        ensures { result ≡ self.now.room / 8 }
    {
        self.room / 8
    }

    /// The number of the running function.
    pub(crate) fn func(&self) -> u32
        ensures { result ≡ self.now.running.func }
    {
        self.running.func
    }

    /// The instruction that the running call is at.
    pub(crate) fn point(&self) -> usize
        ensures { result ≡ self.now.running.point }
    {
        self.running.point
    }

    /// The word of a register of the running call.
    pub(crate) fn word(&self, r: u32) -> PackedWord
        ensures { result ≡ slice_index_or self.now.running.words r no_word }
    {
        let r = r as usize;
        if r < self.words.len() - self.running.base {
            self.words[self.running.base + r]
        } else {
            PackedWord::number(IntKind::I32, 0)
        }
    }

    /// Goes on to the next instruction.
    pub(crate) fn go_on(&mut self)
        requires { self.old.running.point + 1 < 2 ^ 64 }
        ensures { self.new ≡ onward self.old }
    {
        self.running.point += 1;
    }

    /// Goes to an instruction.
    pub(crate) fn go_to(&mut self, point: u32)
        ensures { self.new ≡ at_point self.old point }
    {
        self.running.point = point as usize;
    }

    /// A register of the running call takes a word, where there is one to take it.
    pub(crate) fn put(&mut self, r: Option<u32>, word: PackedWord)
        ensures { self.new ≡ put self.old r word }
    {
        if let Some(r) = r {
            let r = r as usize;
            if r < self.words.len() - self.running.base {
                self.words[self.running.base + r] = word;
            }
        }
    }

    /// The first call begins at an instruction, with which so many bytes of the stack are in use.
    pub(crate) fn begin(&mut self, point: u32, cost: u32)
        requires more { self.old.used ≤ cost }
        requires room { cost ≤ self.old.room }
        ensures { self.new ≡ record (at_point self.old point) { used = cost } }
    {
        self.running.point = point as usize;
        self.running.used = cost;
    }

    /// All calls take no more bytes of the stack than are in use.
    pub(crate) fn all_fit(&self)
        ensures taken { taken_by self.now ≤ self.now.used }
        ensures within { self.now.used ≤ self.now.room }
        ensures small { self.now.room < 2 ^ 32 }
    {
        let _room = self.room;
    }

    /// The address of a memory local of the running call.
    pub(crate) fn local(&self, k: u32) -> u32
        requires { k < length self.now.running.locals }
        ensures { result ≡ slice_index self.now.running.locals k }
    {
        self.locals[self.running.from + k as usize]
    }

    /// The addresses of the memory locals of the running call.
    pub(crate) fn locals(&self) -> &[u32]
        ensures { result.now ≡ self.now.running.locals }
    {
        &self.locals[self.running.from..]
    }

    /// The running call gets the address of its next memory local.
    pub(crate) fn add_local(&mut self, addr: u32)
        requires { taken_by self.old + 48 ≤ self.old.used }
        ensures { self.new ≡ with_local self.old addr }
    {
        match self.locals.push(addr) {
            Ok(()) => {}
            Err(_) => unreachable!(),
        }
    }

    /// Calls a function: its call runs, and the one that was running waits. Its first registers take the arguments. Its memory
    /// locals are born from a birth on, and none is made yet.
    pub(crate) fn enter(
        &mut self,
        func: u32,
        point: u32,
        kinds: &[bool],
        args: &[PackedWord],
        first: u64,
        cost: u32,
    )
        requires point { self.old.running.point + 1 < 2 ^ 64 }
        requires room { self.old.used + cost ≤ self.old.room }
        requires cost { 16 + 8 * length kinds.now ≤ cost }
        requires arguments { length args.now ≤ length kinds.now }
        ensures { self.new ≡ called self.old (frame_with func point kinds.now args.now first) cost }
    {
        let caller = self.running;
        let base = self.words.len();
        push_all(&mut self.words, args);
        push_first_words(&mut self.words, behind(kinds, args.len()));
        self.waiting.push_reserved(caller);
        self.running = Call {
            func,
            point: point as usize,
            base,
            first,
            from: self.locals.len(),
            used: caller.used + cost,
        };
    }

    /// Does turns of the loop in the running call until an operation is left to be made by itself, and answers the steps that are left.
    pub(crate) fn go<L: Ledger>(
        &mut self,
        code: &Code,
        turns: &[Turn],
        statics: &[u32],
        objects: &mut FlatObjects,
        left: u64,
        steps: &mut Steps<L>,
    ) -> u64
        requires formed { IsWellFormed code.now }
        requires gathered { AreGathered code.now turns.now }
        requires runs { RunsCalls code.now statics.now self.old objects.old left }
        ensures { CallsAdvance code.now statics.now self.old objects.old left self.new objects.new result }
    {
        let (point, left) = go(
            code,
            turns,
            &mut self.words[self.running.base..],
            statics,
            &self.locals[self.running.from..],
            objects,
            self.running.point,
            left,
            steps,
        );
        self.running.point = point;
        left
    }

    /// The newest of the waiting calls runs again, where there is one.
    pub(crate) fn back(&mut self) -> bool
        ensures yes { IsTrue result → GoesBack self.old self.new }
        ensures no { result ≡ false → (self.old.waiting ≡ []) × (self.new ≡ self.old) }
    {
        let Some(caller) = self.waiting.pop() else {
            return false;
        };
        self.words.truncate(self.running.base);
        self.locals.truncate(self.running.from);
        self.running = caller;
        true
    }
}
