//! Running the code of a code file.

ghost use Rattle.std.specs.Prelude.{◌≡◌, ◌+◌, ◌<◌, ◌^◌, ⊤, IfOk};
ghost use Rattle.code_file.specs.CodeFile.{IsRanged};
ghost use Rattle.meaning_laws.specs.code.Laws.{HoldsBytes};
ghost use Rattle.flat_code.specs.WellFormed.{IsWellFormed};
ghost use Rattle.heapsafe.specs.Execution.{AnswersBytes, AnswersCode, AnswersVerified, IsWithin, asked_of, code_text};
ghost use Rattle.heapsafe.specs.Saying.{shown_of, unread};
ghost use Rattle.heapsafe.specs.Serving.{Obeys, Runs};
ghost use Rattle.heapsafe.specs.Sight.{HasRoom};

use crate::program::{Telling, explains_run, finish_run};
use crate::refusal::{Refusal, refuse};
use crate::running::run_file;
use crate::streams::Streams;
use c_pre::Opened;
use code_file::{CodeError, CodeFile, read_code, verify};
use compiled_file::whole_runs_are_whole;
use hs_base::{Items, Limits, NoMemory, ReadError, Sink, Source, Texts, read_all};
use std::alloc::Global;

/// How many bytes a code file may have.
const MOST_BYTES: u32 = 134_217_728;

/// How code is run: within these limits, with so many steps, and perhaps with a line for each leak behind an exit, or with lines
/// that explain another end.
#[derive(Clone, Copy)]
pub(crate) struct Asked {
    pub(crate) limits: Limits,
    pub(crate) steps: u64,
    pub(crate) leaks: bool,
    pub(crate) explain: bool,
}

/// The refusal for a file that was not read.
fn reading_refusal(error: ReadError, file: &str) -> Refusal<'_>
    ensures { shown_of result ≡ unread error file.now }
{
    match error {
        ReadError::Fault => Refusal::TextFault(file.as_bytes()),
        ReadError::TooLong => Refusal::TextTooLong(file.as_bytes()),
        ReadError::NoMemory => Refusal::NoMemory,
    }
}

/// A code file as a text that stands alone: it has no line to show.
fn code_text(alloc: Global, name: &str) -> Result<Items<Opened>, NoMemory>
    ensures { IfOk result (λ opened. opened ≡ code_text name.now) }
{
    let mut opened = Items::new(alloc);
    opened.push(Opened {
        name: Items::from(name.as_bytes().to_vec(alloc)?),
        base: 0,
        text: Items::new(alloc),
    })?;
    Ok(opened)
}

/// Runs the code of a file, and reports its end.
fn run_verified<I: Source, O: Sink, E: Sink>(
    alloc: Global,
    file: &str,
    opened: &[Opened],
    code: &CodeFile,
    asked: Asked,
    io: &mut Streams<I, O, E>,
) -> u8
    requires formed { IsWellFormed code.now.code }
    requires bytes { HoldsBytes code.now.code }
    requires text { opened.now ≡ code_text file.now }
    requires limits { IsWithin asked }
    requires room { HasRoom io.old }
    ensures { Runs ⊤ (λ i. AnswersCode file.now code.now i asked) io.old io.new result }
{
    whole_runs_are_whole();
    match run_file(
        alloc,
        &code.code,
        asked.limits,
        asked.steps,
        &mut io.input,
        &mut io.out,
    ) {
        Ok((end, machine)) => {
            let telling = Telling {
                file,
                opened,
                core: &code.names,
                asked: explains_run(asked.explain, asked.steps, asked.limits, &machine, &end),
            };
            finish_run(&end, &machine, asked.leaks, &telling, io)
        }
        Err(_) => refuse(io, Refusal::NoMemory),
    }
}

/// Verifies the code of a file and runs it.
fn with_code<I: Source, O: Sink, E: Sink>(
    alloc: Global,
    file: &str,
    code: &CodeFile,
    asked: Asked,
    io: &mut Streams<I, O, E>,
) -> u8
    requires ranged { IsRanged code.now }
    requires limits { IsWithin asked }
    requires room { HasRoom io.old }
    ensures { Runs ⊤ (λ i. AnswersVerified file.now code.now i asked) io.old io.new result }
{
    let Ok(opened) = code_text(alloc, file) else {
        return refuse(io, Refusal::NoMemory);
    };
    match verify(alloc, code) {
        Ok(true) => { run_verified(alloc, file, opened.as_slice(), code, asked, io) }
        Ok(false) => refuse(io, Refusal::Unverified(file.as_bytes())),
        Err(_) => refuse(io, Refusal::NoMemory),
    }
}

/// Reads the code file of bytes, and runs its code.
fn with_bytes<I: Source, O: Sink, E: Sink>(
    alloc: Global,
    file: &str,
    bytes: Items<u8>,
    asked: Asked,
    io: &mut Streams<I, O, E>,
) -> u8
    requires limits { IsWithin asked }
    requires room { HasRoom io.old }
    ensures { Runs ⊤ (λ i. AnswersBytes file.now bytes i asked) io.old io.new result }
{
    match read_code(alloc, bytes.as_slice()) {
        Ok(code) => with_code(alloc, file, &code, asked, io),
        Err(CodeError::Form) => refuse(io, Refusal::BadCode(file.as_bytes())),
        Err(CodeError::NoMemory) => refuse(io, Refusal::NoMemory),
    }
}

/// Reads a code file, verifies its code and runs it.
pub(crate) fn execute_file<T: Texts, I: Source, O: Sink, E: Sink>(
    alloc: Global,
    file: &str,
    asked: Asked,
    texts: &mut T,
    io: &mut Streams<I, O, E>,
) -> u8
    requires limits { IsWithin asked }
    requires texts { T.faults texts.old + 1 < 2 ^ 64 }
    requires room { HasRoom io.old }
    ensures { Obeys T.Texts (asked_of file.now asked) texts.old texts.new io.old io.new result }
{
    match read_all(alloc, texts, file, MOST_BYTES) {
        Ok(bytes) => with_bytes(alloc, file, bytes, asked, io),
        Err(error) => refuse(io, reading_refusal(error, file)),
    }
}
