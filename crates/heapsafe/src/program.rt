//! Running the program of a text: on a machine, or by the meaning of its core.

ghost use Rattle.std.specs.Prelude.{◌≡◌, ◌+◌, ◌<◌, ◌≤◌, ◌^◌, false, IsTrue};
ghost use Rattle.c_tree.specs.StatementView.{unit_view};
ghost use Rattle.c_elab.specs.Core.{core_in};
ghost use Rattle.core_soundness.specs.Texts.{IsOfTexts};
ghost use Rattle.core_tree.specs.Sound.{IsSound};
ghost use Rattle.flat_objects.specs.Keeping.{ForKept};
ghost use Rattle.flat_objects.specs.Leaks.{KeepsSome};
ghost use Rattle.hs_base.specs.Outside.{CountsFaults};
ghost use Rattle.heapsafe.specs.Program.{IsBounded, explains_mean, explains_run, freed_at, freed_by, freed_of, status_of};
ghost use Rattle.bad_free_report.specs.Told.{ending_of};
ghost use Rattle.heapsafe.specs.Saying.{PutsExit, SaysCounts, SaysEnd, SaysExit, SaysLeft, SaysOwn, SaysPlain, TakesExit, TellsLeaks, ending_told, telling_of};
ghost use Rattle.heapsafe.specs.Serving.{RunsOn, RunsTyped, RunsWay};
ghost use Rattle.heapsafe.specs.Sight.{HasRoom, KeepsBoth};

use crate::leaks::write_leaks;
use crate::places::{line_of_end, named_text, told_end, told_known};
use crate::refusal::{OUTPUT_FAULT, Refusal, refuse, refuse_types};
use crate::running::{evaluate, run_code};
use crate::streams::Streams;
use bad_free_report::{
    Ending, Form, Freed, InForce, Known, ends_are_said_in_parts, say_before_leaks,
    say_behind_leaks, say_ended,
};
use c_elab::elab;
use c_pre::Opened;
use c_tree::Unit;
use core_tree::Core;
use flat_machine::Machine;
use flat_objects::Waiting;
use hs_base::{End, Failed, Limits, Line, Reason, Sink, Source};
use std::alloc::Global;

/// How a program is run, and with how many steps.
#[derive(Clone, Copy)]
pub(crate) enum Way {
    /// On a machine, within these limits, and perhaps with a line for each leak behind an exit, or with lines that explain
    /// another end.
    Run {
        limits: Limits,
        steps: u64,
        leaks: bool,
        explain: bool,
    },
    /// By the evaluator of the meaning, in a heap of so many bytes, and perhaps with lines that explain its end; it knows no
    /// limit of stack.
    Mean {
        heap: u32,
        steps: u64,
        explain: bool,
    },
}

/// What waits, as what was freed.
fn freed_of(waiting: Waiting) -> Freed
    ensures { result ≡ freed_of waiting }
{
    Freed {
        blocks: waiting.blocks,
        bytes: waiting.bytes,
        line: waiting.line,
    }
}

/// What was freed at a bad free with this reason and line, among the objects that a machine keeps.
fn freed_by(machine: &Machine, reason: Reason, line: Line) -> Option<Freed>
    requires { KeepsSome machine.now.kept.memory }
    ensures { ForKept machine.now.kept.memory (λ _ all. result ≡ freed_by reason line all) }
{
    match reason {
        Reason::Held => Some(freed_of(machine.waiting_blocks(Some(line)))),
        Reason::Again => Some(freed_of(machine.waiting_blocks(None))),
        Reason::NotStart => None,
    }
}

/// What was freed at an end, among the objects that a machine keeps: nothing but at a bad free.
fn freed_at(machine: &Machine, end: &End) -> Option<Freed>
    requires { KeepsSome machine.now.kept.memory }
    ensures { ForKept machine.now.kept.memory (λ _ all. result ≡ freed_at all end.now) }
{
    match *end {
        End::BadFree(free, _) => freed_by(machine, free.reason, free.line),
        _ => None,
    }
}

/// What is known of a run by which its end is explained, where that is asked for, from the machine behind it.
pub(crate) fn explains_run(
    explain: bool,
    steps: u64,
    limits: Limits,
    machine: &Machine,
    end: &End,
) -> Option<Known>
    requires { KeepsSome machine.now.kept.memory }
    ensures { ForKept machine.now.kept.memory (λ _ all. result ≡ explains_run explain steps limits all end.now) }
{
    if explain {
        Some(Known {
            limits: InForce {
                steps,
                stack: limits.stack,
            },
            freed: freed_at(machine, end),
        })
    } else {
        None
    }
}

/// The same for the evaluator, which has no limit of stack, and of which no state is known.
fn explains_mean(explain: bool, steps: u64) -> Option<Known>
    ensures { result ≡ explains_mean explain steps }
{
    if explain {
        Some(Known {
            limits: InForce { steps, stack: 0 },
            freed: None,
        })
    } else {
        None
    }
}

/// The status of a program's end.
pub(crate) fn status_of(end: &End) -> u8
    ensures { result ≡ status_of end.now }
{
    match end {
        End::Exit(code) => *code,
        End::BadFree(..) => 126,
        End::Escape { .. } => 127,
        End::Trap(..) => 128,
        End::OutOfStack(_) => 130,
        End::Spent => 131,
        End::InputFault => 132,
        End::OutputFault => OUTPUT_FAULT,
    }
}

/// How a program is told of: the file and the texts that are named, its core, and what is known of its run, where its end is to be
/// explained.
#[derive(Clone, Copy)]
pub(crate) struct Telling<'a> {
    pub(crate) file: &'a str,
    pub(crate) opened: &'a [Opened],
    pub(crate) core: &'a Core,
    pub(crate) asked: Option<Known>,
}

/// How a program ended, with the lines of their texts.
fn told_ending<'a>(telling: &Telling<'a>, end: &End) -> Ending<'a>
    ensures { ending_of result ≡ ending_told (telling_of telling.now) end.now }
{
    let how = told_end(telling.opened, *end);
    let (name, text) = named_text(telling.file, telling.opened, line_of_end(end));
    Ending {
        core: telling.core,
        name,
        text,
        known: told_known(telling.opened, telling.asked),
        how,
    }
}

/// Says how a program ended, and answers its status or that of a failed write.
fn finish<I: Source, O: Sink, E: Sink>(
    end: &End,
    telling: &Telling<'_>,
    io: &mut Streams<I, O, E>,
) -> u8
    requires { io.old.err_faults + 1 < 2 ^ 64 }
    ensures keeps { KeepsBoth io.old io.new }
    ensures says { SaysEnd (telling_of telling.now) end.now io.old io.new result }
{
    let status = status_of(end);
    match say_ended(&mut io.err, io.form, &told_ending(telling, end), status) {
        Ok(()) => status,
        Err(_) => OUTPUT_FAULT,
    }
}

/// Says that a program ended by an exit, with the leaks of its machine.
fn put_exit<E: Sink>(
    code: u8,
    machine: &Machine,
    telling: &Telling<'_>,
    form: Form,
    err: &mut E,
) -> Result<(), Failed>
    requires kept { KeepsSome machine.now.kept.memory }
    requires room { E.faults err.old + 1 < 2 ^ 64 }
    ensures puts { PutsExit E.Sink form (telling_of telling.now) machine.now code err.old err.new result }
    ensures all { TellsLeaks machine.now result }
    ensures cause { CountsFaults (E.faults err.old) (E.faults err.new) result }
{
    ends_are_said_in_parts();
    say_before_leaks(err, form, &told_ending(telling, &End::Exit(code)), code)?;
    write_leaks(machine, telling.opened, form, err)?;
    say_behind_leaks(err, form)
}

/// Says that a program ended by an exit, with its leaks, where they are asked for, and answers the program's own status or that of
/// a failed write.
fn finish_exit<I: Source, O: Sink, E: Sink>(
    code: u8,
    machine: &Machine,
    leaks: bool,
    telling: &Telling<'_>,
    io: &mut Streams<I, O, E>,
) -> u8
    requires kept { KeepsSome machine.now.kept.memory }
    requires room { io.old.err_faults + 1 < 2 ^ 64 }
    ensures keeps { KeepsBoth io.old io.new }
    ensures none { leaks ≡ false → SaysEnd (telling_of telling.now) (End.Exit code) io.old io.new result }
    ensures leaks { IsTrue leaks → SaysLeft machine.now (telling_of telling.now) io.old io.new code result }
    ensures counts { SaysCounts io.old io.new code result }
    ensures own { io.new.err_faults ≡ io.old.err_faults → TakesExit io.old io.new }
{
    if !leaks {
        return finish(&End::Exit(code), telling, io);
    }
    match put_exit(code, machine, telling, io.form, &mut io.err) {
        Ok(()) => code,
        Err(_) => OUTPUT_FAULT,
    }
}

/// Says how a run ended, and behind an exit its leaks, where they are asked for; and answers its status or that of a failed write.
pub(crate) fn finish_run<I: Source, O: Sink, E: Sink>(
    end: &End,
    machine: &Machine,
    leaks: bool,
    telling: &Telling<'_>,
    io: &mut Streams<I, O, E>,
) -> u8
    requires kept { KeepsSome machine.now.kept.memory }
    requires room { io.old.err_faults + 1 < 2 ^ 64 }
    ensures keeps { KeepsBoth io.old io.new }
    ensures says { SaysPlain leaks (telling_of telling.now) end.now io.old io.new result }
    ensures leaks { SaysExit leaks end.now machine.now (telling_of telling.now) io.old io.new result }
    ensures counts { SaysCounts io.old io.new (status_of end.now) result }
    ensures own { SaysOwn end.now io.old io.new }
{
    match end {
        End::Exit(code) => finish_exit(*code, machine, leaks, telling, io),
        _ => finish(end, telling, io),
    }
}

/// Runs a core on a machine, and reports its end.
fn run_core<I: Source, O: Sink, E: Sink>(
    alloc: Global,
    file: &str,
    opened: &[Opened],
    core: &Core,
    limits: Limits,
    steps: u64,
    leaks: bool,
    explain: bool,
    io: &mut Streams<I, O, E>,
) -> u8
    requires sound { IsSound core.now }
    requires heap { limits.heap ≤ 268435456 }
    requires stack { limits.stack ≤ 67108864 }
    requires steps { steps ≤ 1000000000 }
    requires room { HasRoom io.old }
    ensures { RunsOn file.now opened.now core.now limits steps leaks explain io.old io.new result }
{
    match run_code(alloc, core, limits, steps, &mut io.input, &mut io.out) {
        Ok((end, machine)) => {
            let telling = Telling {
                file,
                opened,
                core,
                asked: explains_run(explain, steps, limits, &machine, &end),
            };
            finish_run(&end, &machine, leaks, &telling, io)
        }
        Err(_) => refuse(io, Refusal::NoMemory),
    }
}

/// Evaluates the meaning of a core, and reports its end.
fn mean_core<I: Source, O: Sink, E: Sink>(
    alloc: Global,
    file: &str,
    opened: &[Opened],
    core: &Core,
    heap: u32,
    steps: u64,
    explain: bool,
    io: &mut Streams<I, O, E>,
) -> u8
    requires sound { IsSound core.now }
    requires steps { steps ≤ 1000000000 }
    requires room { HasRoom io.old }
    ensures { RunsWay file.now opened.now core.now (Way.Mean heap steps explain) io.old io.new result }
{
    match evaluate(alloc, core, steps, heap, &mut io.input, &mut io.out) {
        Ok(end) => {
            let telling = Telling {
                file,
                opened,
                core,
                asked: explains_mean(explain, steps),
            };
            finish(&end, &telling, io)
        }
        Err(_) => refuse(io, Refusal::NoMemory),
    }
}

/// Runs a core in a way, and reports its end.
fn go<I: Source, O: Sink, E: Sink>(
    alloc: Global,
    file: &str,
    opened: &[Opened],
    core: &Core,
    way: Way,
    io: &mut Streams<I, O, E>,
) -> u8
    requires sound { IsSound core.now }
    requires limits { IsBounded way }
    requires room { HasRoom io.old }
    ensures { RunsWay file.now opened.now core.now way io.old io.new result }
{
    match way {
        Way::Run {
            limits,
            steps,
            leaks,
            explain,
        } => run_core(alloc, file, opened, core, limits, steps, leaks, explain, io),
        Way::Mean {
            heap,
            steps,
            explain,
        } => mean_core(alloc, file, opened, core, heap, steps, explain, io),
    }
}

/// Runs the program of a text.
pub(crate) fn run_program<I: Source, O: Sink, E: Sink>(
    alloc: Global,
    file: &str,
    opened: &[Opened],
    unit: &Unit,
    way: Way,
    io: &mut Streams<I, O, E>,
) -> u8
    requires text { IsOfTexts (unit_view unit.now) }
    requires limits { IsBounded way }
    requires room { HasRoom io.old }
    ensures { RunsTyped file.now opened.now (core_in (unit_view unit.now)) way io.old io.new result }
{
    match elab(alloc, unit) {
        Ok(core) => go(alloc, file, opened, &core, way, io),
        Err(error) => refuse_types(io, error, opened),
    }
}
