//! The machine.

ghost use Rattle.std.specs.Prelude.{◌≡◌, ◌+◌, ◌<◌, ◌≤◌, ◌^◌, IfSome, None, Some};
ghost use Rattle.flat_code.specs.WellFormed.{IsWellFormed};
ghost use Rattle.meaning_laws.specs.code.Laws.{HoldsBytes};
ghost use Rattle.flat_machine.specs.Machined.{IsOf, steps_made, AnswersMeaning, LeavesImageOf, MakesStepsOf};
ghost use Rattle.flat_machine.specs.Running.{RunCounts};
ghost use Rattle.flat_objects.specs.Leaks.{KeepsSome, leak_after};
ghost use Rattle.flat_objects.specs.Waiting.{waiting_of};
ghost use Rattle.flat_objects.specs.Keeping.{ForKept};

use crate::loaded::Loaded;
use crate::running::whole_run;
use crate::state::State;
use byte_memory::CountRight;
use flat_code::Code;
use flat_objects::Waiting;
use hs_base::{End, Leak, Line, Sink, Source};
use std::marker::{Brand, Model};
use std::sync::ledger::Blank;

/// A machine that has loaded a code, and runs it once.
#[derive(Drop)]
pub struct Machine {
    state: State,
    loaded: Loaded,
    stack: u32,
    ended: Option<End>,
    /// The steps that the run was allowed.
    budget: u64,
    /// The right to count what a call does.
    right: CountRight,
}

impl Model for Machine {
    ghost use Rattle.flat_machine.specs.Machined.{Machined};

    ghost Value = { Machined };

    ghost view = { λ m. record { kept = m.state; loaded = m.loaded; stack = m.stack; ended = m.ended; budget = m.budget } };
}

impl Machine {
    /// A machine before its run.
    pub(crate) fn new(state: State, loaded: Loaded, stack: u32, right: CountRight) -> Machine
        ensures { result ≡ record { kept = state; loaded = loaded; stack = stack; ended = None; budget = 0 } }
    {
        Machine {
            state,
            loaded,
            stack,
            ended: None,
            budget: 0,
            right,
        }
    }

    /// Runs the code that was loaded, with at most so many steps. Where input and output are told, it writes exactly the
    /// bytes that the meaning of code writes in a heap of this size before its first call that does not fit the stack, takes
    /// exactly the bytes that it reads, and answers its end, or the line of that call. An instruction that makes an object gives
    /// null where first fit finds no place for it (C99 7.20.3). The run ends by a fault of the input or the output exactly where
    /// that object failed in this call. [`Machine::steps_made`] tells how many steps it made. At every other end the image of
    /// the machine agrees with the last state of the meaning, which for a call that does not fit is the one before it: objects
    /// with their bytes, pointers and headers, the queue and the open scopes, the calls with their registers, each at its instruction, births and steps; and
    /// the counts are the numbers of that state, unless the end is a bad free or an escape. Of what is left then
    /// [`Machine::leak`] tells, and [`Machine::waiting_blocks`] of what waits to be freed. A machine that has ended answers the same
    /// end again, and touches nothing.
    pub fn run<I: Source, O: Sink>(
        &mut self,
        code: &Code,
        input: &mut I,
        out: &mut O,
        budget: u64,
    ) -> End
        requires formed { IsWellFormed code.now }
        requires bytes { HoldsBytes code.now }
        requires loaded { IsOf code.now self.old }
        requires budget { budget ≤ 1000000000 }
        requires input { I.faults input.old + 1 < 2 ^ 64 }
        requires out { O.faults out.old + 1 < 2 ^ 64 }
        ensures told { AnswersMeaning code.now self.old budget (I.left input.old) (O.taken out.old) result (I.left input.new) (O.taken out.new) }
        ensures made { MakesStepsOf code.now self.old budget (I.left input.old) (O.taken out.old) result (steps_made self.new) }
        ensures kept { self.old.ended ≡ None → KeepsSome self.new.kept.memory }
        ensures left { LeavesImageOf code.now self.old budget (I.left input.old) (O.taken out.old) result self.new.kept }
        ensures faults { self.old.ended ≡ None → RunCounts result (I.faults input.old) (I.faults input.new) (O.faults out.old) (O.faults out.new) }
        ensures ends { self.new.ended ≡ Some result }
        ensures loaded { IsOf code.now self.new }
        ensures again { IfSome self.old.ended (λ e. (result ≡ e) × (self.new ≡ self.old) × (input.new ≡ input.old) × (out.new ≡ out.old)) }
    {
        if let Some(end) = self.ended {
            return end;
        }
        self.state.allow(budget);
        self.budget = budget;
        let end = whole_run::<I, O, Brand>(
            &mut self.state,
            code,
            &self.loaded,
            self.stack,
            input,
            out,
            &self.right,
            Blank::new(1),
        );
        self.ended = Some(end);
        end
    }

    /// How many steps the run has made: none before it.
    pub fn steps_made(&self) -> u64
        ensures { result ≡ steps_made self.now }
    {
        self.budget.saturating_sub(self.state.steps())
    }
    /// Of the heap objects that are not dead, those with the least line of birth above a line (from 0 on, all lines): that line,
    /// how many objects they are, and the sum of their sizes in bytes; none where no such object was born above it. Objects that
    /// wait to be freed are among them. That they are told is this language's own (C99 7.20.3 lets a program end with objects
    /// that it has not freed). Behind a run these are the objects of its last state.
    pub fn leak(&self, after: Line) -> Option<Leak>
        requires { KeepsSome self.now.kept.memory }
        ensures { ForKept self.now.kept.memory (λ _ all. result ≡ leak_after after all) }
    {
        self.state.leak::<Brand>(after, &self.right, Blank::new(1))
    }

    /// The heap objects that wait and were freed at a line, or all that wait where none is asked for: how many they are, the sum of
    /// their sizes in bytes, and the line of birth, where it is one. That they are told is this language's own (C99 7.20.3.2 leaves
    /// a pointer to a freed object indeterminate). Behind a run these are objects of its last state.
    pub fn waiting_blocks(&self, asked: Option<Line>) -> Waiting
        requires { KeepsSome self.now.kept.memory }
        ensures { ForKept self.now.kept.memory (λ _ all. result ≡ waiting_of asked all) }
    {
        self.state
            .waiting_blocks::<Brand>(asked, &self.right, Blank::new(1))
    }
}
