//! The command `self N`: a text with N functions is made and run, and the line of its run is written.

ghost use Rattle.std.specs.Prelude.{◌≡◌, ◌≤◌, ⊤, All, IfOk, length};
ghost use Rattle.c_elab.specs.Core.{core_in};
ghost use Rattle.c_lexer.specs.Tokens.{IsLexed};
ghost use Rattle.c_tree.specs.StatementView.{unit_view};
ghost use Rattle.core_soundness.specs.Laws.{AreWithin};
ghost use Rattle.core_soundness.specs.Texts.{IsOfTexts};
ghost use Rattle.core_tree.specs.Sound.{IsSound};
ghost use Rattle.generated_text.specs.Summary.{summary_line};
ghost use Rattle.heapsafe.specs.Answer.{AnswersGenerated};
ghost use Rattle.heapsafe.specs.Generated.{IsPrepared, IsPreparedTokens, IsPreparedUnit, MakesOnly, SumsUp, WentCore, WentText, steps_of};
ghost use Rattle.c_pre.specs.Texts.{most_bytes};
ghost use Rattle.heapsafe.specs.Serving.{Serves, Writes};
ghost use Rattle.heapsafe.specs.Shown.{written};
ghost use Rattle.heapsafe.specs.Sight.{HasRoom};

use crate::program::status_of;
use crate::refusal::{BAD_TOKENS, BAD_TREE, BAD_TYPES, Refusal, refuse};
use crate::running::run_code;
use crate::streams::Streams;
use c_decls::TypeError;
use c_elab::elab;
use c_lexer::{LexError, Token, lex};
use c_parser::{ParseError, parse};
use c_tree::Unit;
use core_soundness::{texts_are_made_of_themselves, tokens_are_within};
use core_tree::Core;
use generated_text::{Summary, generate, put_summary};
use hs_base::{End, Items, Limits, MemSink, NoMemory, Sink, Source, SureSource};
use std::alloc::Global;

/// How many bytes the heap of the run has.
const HEAP: u32 = 16_777_216;

/// How many bytes its stack has.
const STACK: u32 = 1_048_576;

/// How many steps it may make.
const STEPS: u64 = 100_000_000;

/// A text before it is run.
#[derive(Drop)]
enum Prepared {
    /// It has this core.
    Core(Core),
    /// It is refused with this status.
    Refused(u8),
}

/// How a run went.
#[derive(Clone, Copy)]
struct Ran {
    /// How many bytes were written.
    output: u64,
    /// How many steps were made.
    steps: u64,
    status: u8,
}

/// The core of a tree.
fn prepare_unit(alloc: Global, unit: &Unit) -> Result<Prepared, NoMemory>
    requires { IsOfTexts (unit_view unit.now) }
    ensures { IfOk result (IsPreparedUnit (core_in (unit_view unit.now))) }
{
    match elab(alloc, unit) {
        Ok(core) => Ok(Prepared::Core(core)),
        Err(TypeError::Bad { .. }) => Ok(Prepared::Refused(BAD_TYPES)),
        Err(TypeError::NoMemory) => Err(NoMemory),
    }
}

/// The core of tokens.
fn prepare_tokens(alloc: Global, tokens: &[Token]) -> Result<Prepared, NoMemory>
    requires lexed { All IsLexed tokens.now }
    requires short { AreWithin most_bytes tokens.now }
    ensures { IfOk result (IsPreparedTokens tokens.now) }
{
    texts_are_made_of_themselves();
    match parse(alloc, tokens) {
        Ok(unit) => prepare_unit(alloc, &unit),
        Err(ParseError::Syntax { .. }) => Ok(Prepared::Refused(BAD_TREE)),
        Err(ParseError::NoMemory) => Err(NoMemory),
    }
}

/// The core of a text.
fn prepare(alloc: Global, text: &[u8]) -> Result<Prepared, NoMemory>
    requires { length text.now ≤ most_bytes }
    ensures { IfOk result (IsPrepared text.now) }
{
    tokens_are_within();
    match lex(alloc, text) {
        Ok(tokens) => prepare_tokens(alloc, tokens.as_slice()),
        Err(LexError::Bad { .. }) => Ok(Prepared::Refused(BAD_TOKENS)),
        Err(LexError::NoMemory) => Err(NoMemory),
    }
}

/// Runs a core on a machine, without input. What it writes is kept in memory, so the output fails for want of
/// memory alone.
fn run_core(alloc: Global, core: &Core, limits: Limits, steps: u64) -> Result<Ran, NoMemory>
    requires sound { IsSound core.now }
    requires heap { limits.heap ≤ 268435456 }
    requires stack { limits.stack ≤ 67108864 }
    requires steps { steps ≤ 1000000000 }
    ensures answers { IfOk result (WentCore core.now limits steps) }
    ensures made { IfOk result (λ ran. ran.steps ≡ steps_of core.now limits steps) }
{
    let mut input = SureSource::new(Items::new(alloc));
    let mut out = MemSink::new(alloc, usize::MAX, Items::new(alloc));
    let (end, machine) = run_code(alloc, core, limits, steps, &mut input, &mut out)?;
    match end {
        End::OutputFault => Err(NoMemory),
        _ => {
            Ok(Ran {
                output: out.bytes().len() as u64,
                steps: machine.steps_made(),
                status: status_of(&end),
            })
        }
    }
}

/// Runs a text without input; one that is refused makes no step.
fn run_text(alloc: Global, text: &[u8], limits: Limits, steps: u64) -> Result<Ran, NoMemory>
    requires short { length text.now ≤ most_bytes }
    requires heap { limits.heap ≤ 268435456 }
    requires stack { limits.stack ≤ 67108864 }
    requires steps { steps ≤ 1000000000 }
    ensures answers { IfOk result (WentText text.now limits steps) }
    ensures makes { IfOk result (λ ran. MakesOnly text.now limits steps ran.steps) }
{
    match prepare(alloc, text)? {
        Prepared::Core(core) => run_core(alloc, &core, limits, steps),
        Prepared::Refused(status) => {
            Ok(Ran {
                output: 0,
                steps: 0,
                status,
            })
        }
    }
}

/// Makes the text with so many functions, runs it, and sums up how that went.
fn sum_up(alloc: Global, number: u32) -> Result<Summary, NoMemory>
    requires { (1 ≤ number) × (number ≤ 2000) }
    ensures { IfOk result (SumsUp number) }
{
    let text = generate(alloc, number)?;
    let text = text.as_slice();
    let limits = Limits {
        heap: HEAP,
        stack: STACK,
    };
    let ran = run_text(alloc, text, limits, STEPS)?;
    Ok(Summary {
        number,
        text: text.len() as u64,
        output: ran.output,
        steps: ran.steps,
        status: ran.status,
    })
}

/// Writes the line of a summary.
fn write_summary<I: Source, O: Sink, E: Sink>(summary: Summary, io: &mut Streams<I, O, E>) -> u8
    requires { HasRoom io.old }
    ensures { Writes (written (summary_line summary)) io.old io.new result }
{
    match put_summary(&mut io.out, summary) {
        Ok(()) => 0,
        Err(_) => refuse(io, Refusal::OutputFault),
    }
}

/// Makes the text with so many functions, runs it, and writes the line of its run.
pub(crate) fn run_generated<I: Source, O: Sink, E: Sink>(
    alloc: Global,
    number: u32,
    io: &mut Streams<I, O, E>,
) -> u8
    requires number { (1 ≤ number) × (number ≤ 2000) }
    requires room { HasRoom io.old }
    ensures { Serves ⊤ ⊤ ⊤ (λ _. AnswersGenerated number) io.old io.new result }
{
    match sum_up(alloc, number) {
        Ok(summary) => write_summary(summary, io),
        Err(_) => refuse(io, Refusal::NoMemory),
    }
}
