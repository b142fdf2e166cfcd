//! The top call of HeapSafe: what the program does for the words of its command line.
//!
//! [`heapsafe`] takes the words, the texts by name, the input, and the two output streams, and answers the status. Its
//! contract is the definition `Answers` in `specs/Answer.antt`: what is read from the input, written to both streams and
//! answered, for every words, texts and input, whether a stream tells what it takes or not; that a status for a failure of the
//! outside comes only where the outside failed; and what want of memory leaves as it was. `specs/Sight.antt` says what clauses
//! see of the streams, and `specs/Serving.antt` has the clauses that the functions below share.
#![tactic(auto)]

ghost use Rattle.std.specs.Prelude.{◌≡◌, ◌+◌, ◌<◌, ◌≤◌, ◌^◌, None, length};
ghost use Rattle.std.specs.List.{list_any};
ghost use Rattle.core_soundness.specs.Texts.{IsOfTexts};
ghost use Rattle.command_words.specs.Commands.{task_shown, IsLimited};
ghost use Rattle.c_tree.specs.StatementView.{unit_view};
ghost use Rattle.heapsafe.specs.Answer.{Answers, AsksNoFile, AsksNoMeaning, AsksNone, asked_by, asked_for, files_asked, first_of, form_by, is_json, spelt};
ghost use Rattle.heapsafe.specs.Saying.{Faults, Refuses, SaysUnread, TellsInput, TellsOutput, Wants};
ghost use Rattle.heapsafe.specs.Serving.{Answered, BrokenOff, Caused, DoesTask, Exact, Obeys};
ghost use Rattle.heapsafe.specs.Sight.{HasRoom, see};

mod executing;
mod generated;
mod laws;
mod leaks;
mod lent;
mod loans;
mod log;
mod places;
mod program;
mod refusal;
mod running;
mod streams;
mod units;
mod written;

use bad_free_report::Form;
use c_pre::Opened;
use c_tree::Unit;
use command_words::{Command, Task, WordsError};
use executing::{Asked, execute_file};
use generated::run_generated;
use hs_base::{Limits, Sink, Source, Texts};
pub use laws::executions_are_runs;
use loans::{Borrowed, Loan};
use program::{Way, run_program};
use refusal::{Refusal, refuse, refuse_program};
use std::alloc::Global;
use std::marker::Brand;
use streams::Streams;
use units::read_program;
use written::{core_compiled, core_list, core_live, layouts, print};

/// Does what is asked with a text that has this tree.
fn with_tree<I: Source, O: Sink, E: Sink>(
    alloc: Global,
    file: &str,
    task: Task,
    opened: &[Opened],
    unit: &Unit,
    io: &mut Streams<I, O, E>,
) -> u8
    requires text { IsOfTexts (unit_view unit.now) }
    requires limits { IsLimited (task_shown task) }
    requires room { HasRoom io.old }
    ensures { DoesTask file.now opened.now (unit_view unit.now) (task_shown task) io.old io.new result }
{
    match task {
        Task::Run {
            heap,
            stack,
            steps,
            leaks,
            explain,
        } => {
            let limits = Limits { heap, stack };
            let way = Way::Run {
                limits,
                steps,
                leaks,
                explain,
            };
            run_program(alloc, file, opened, unit, way, io)
        }
        Task::Mean {
            heap,
            steps,
            explain,
        } => {
            let way = Way::Mean {
                heap,
                steps,
                explain,
            };
            run_program(alloc, file, opened, unit, way, io)
        }
        Task::Print => print(alloc, unit, io),
        Task::Layout => layouts(alloc, opened, unit, io),
        Task::List => core_list(alloc, opened, unit, io),
        Task::Live => core_live(alloc, opened, unit, io),
        Task::Compile => core_compiled(alloc, opened, unit, io),
    }
}

/// The first of some files.
fn first<'a>(files: &[&'a str]) -> &'a str
    requires { 0 < length files.now }
    ensures { result.now ≡ first_of (spelt files.entry.now) }
{
    files[0]
}

/// Reads the program of some files, and does what is asked with it.
fn with_files<T: Texts, I: Source, O: Sink, E: Sink>(
    alloc: Global,
    files: &[&str],
    task: Task,
    texts: &mut T,
    io: &mut Streams<I, O, E>,
) -> u8
    requires some { 0 < length files.now }
    requires few { length files.now ≤ 64 }
    requires limits { IsLimited (task_shown task) }
    requires texts { T.faults texts.old + 1 < 2 ^ 64 }
    requires room { HasRoom io.old }
    ensures { Obeys T.Texts (asked_for files.now task) texts.old texts.new io.old io.new result }
{
    match read_program(alloc, texts, files) {
        Ok(program) => {
            with_tree(
                alloc,
                first(files),
                task,
                program.texts.as_slice(),
                &program.unit,
                io,
            )
        }
        Err(error) => refuse_program(io, &error),
    }
}

/// Does what the words say with three streams.
fn serve<T: Texts, I: Source, O: Sink, E: Sink>(
    alloc: Global,
    words: &[&str],
    texts: &mut T,
    io: &mut Streams<I, O, E>,
) -> u8
    requires texts { T.faults texts.old + 1 < 2 ^ 64 }
    requires room { HasRoom io.old }
    ensures { Answered T.Texts (asked_by words.now) texts.old texts.new io.old io.new result }
{
    match command_words::read(alloc, words) {
        Ok(Command::OnFiles { files, task }) => {
            with_files(alloc, files.as_slice(), task, texts, io)
        }
        Ok(
            Command::Execute {
                file,
                heap,
                stack,
                steps,
                leaks,
                explain,
            },
        ) => {
            let asked = Asked {
                limits: Limits { heap, stack },
                steps,
                leaks,
                explain,
            };
            execute_file(alloc, file, asked, texts, io)
        }
        Ok(Command::Generated { number }) => run_generated(alloc, number, io),
        Err(WordsError::Usage) => refuse(io, Refusal::Usage),
        Err(WordsError::NoMemory) => refuse(io, Refusal::NoMemory),
    }
}

/// Says whether a word asks for an object of JSON.
fn is_json(word: &str) -> bool
    ensures { result ≡ is_json word.now }
{
    word == "--json"
}

/// Says whether one of some words does.
fn asks_for_json(words: &[&str]) -> bool
    ensures { result ≡ list_any (λ word. is_json word.now) words.now }
{
    words.iter().any(|word| is_json(word))
}

/// In which form things are said: by an object of JSON where one of the words asks for it, also where the words are not taken.
fn form_by(words: &[&str]) -> Form
    ensures { result ≡ form_by words.now }
{
    if asks_for_json(words) {
        Form::Json
    } else {
        Form::Lines
    }
}

/// Does what the words say with streams that were lent, and hands them back.
fn serve_lent<'a, T: Texts, I: Source, O: Sink, E: Sink, A: Loan, B: Loan, C: Loan>(
    alloc: Global,
    words: &[&str],
    texts: &mut T,
    input: &'a mut I,
    out: &'a mut O,
    err: &'a mut E,
) -> (u8, &'a mut I, &'a mut O, &'a mut E)
    requires input_loan { input.ghost_name ≡ A.name }
    requires out_loan { out.ghost_name ≡ B.name }
    requires err_loan { err.ghost_name ≡ C.name }
    requires texts { T.faults texts.old + 1 < 2 ^ 64 }
    requires input { I.faults input.old + 1 < 2 ^ 64 }
    requires out { O.faults out.old + 1 < 2 ^ 64 }
    requires err { E.faults err.old + 1 < 2 ^ 64 }
    ensures input_back { result.1.ghost_name ≡ input.entry.ghost_name }
    ensures out_back { result.2.ghost_name ≡ out.entry.ghost_name }
    ensures err_back { result.3.ghost_name ≡ err.entry.ghost_name }
    ensures answered { let s = see (form_by words.now) I.Source O.Sink E.Sink in
        Answered T.Texts (asked_by words.now) texts.old texts.new
        (s input.old out.old err.old) (s result.1.now result.2.now result.3.now) result.0 }
{
    let mut io = Streams {
        input: Borrowed::<I, A>::new(input),
        out: Borrowed::<O, B>::new(out),
        err: Borrowed::<E, C>::new(err),
        form: form_by(words),
    };
    let status = serve(alloc, words, texts, &mut io);
    let Streams {
        input,
        out,
        err,
        ..
    } = io;
    (status, input.back(), out.back(), err.back())
}

/// Does what the words say, and answers the status.
///
/// `words` are the arguments after the program's name. The texts are read by name, `input` is the program's input, its
/// output goes to `out`, and what is said of it goes to `err`.
///
/// The texts of some files make a program: each is preprocessed and parsed by itself, and their units are merged. For every accepted
/// program, input, number of steps and size of the heap, `run` writes the bytes and answers the status or trap that
/// the object meaning gives, in which an allocation answers null exactly where first fit finds no place. It stops at the first
/// bad free or escaping local with its line, never touches a freed object, and reports out of stack exactly where the costs of
/// the active calls would pass the stack.
///
/// `compile` writes the code file of a program's core, and `exec` does for such a file what the meaning of its code says; code that is
/// not well formed it does not run.
///
/// Where it is asked for, lines behind the report of an end say what to mend and which limit was in force. Without that, every byte
/// is that of the report. Where one of the words is `--json`, one object of JSON says all of it in place of all lines, of each end
/// and of each refusal; then also that a program ended by an exit.
///
/// Where texts and input are told and neither texts nor streams failed, what is read and answered, and what each stream took that
/// tells of it, is by `Answers`, or nothing but the line of want of memory. Where a write to a stream failed, the input lost a
/// front of what the answer reads, the output took a front of what it writes, and nothing more was written to a stream that
/// failed. The error stream then took a front of one line: of the text that failed, which is a file of the words or one that an
/// include names; of the input or the output where that failed; and else the answer's own, or the one for want of memory.
///
/// The rest holds whatever is told. The status of a failure of the texts, the input or a stream comes only where that failed, and
/// where it failed its line is said, unless the error stream fails. The status of want of memory comes with its line, and input
/// and output are as before unless a program is evaluated by `mean`; with the status of words or a program that are refused they are
/// as before. Each of these statuses may also be a program's own: then no line was said but those of leaks. Where the text could
/// not be read, the input and the output are as before; so is the input where no program of a file is run; of words that name no
/// file the texts are not asked; and of words that are not taken nothing but the error stream is.
pub fn heapsafe<T: Texts, I: Source, O: Sink, E: Sink>(
    alloc: Global,
    words: &[&str],
    texts: &mut T,
    input: &mut I,
    out: &mut O,
    err: &mut E,
) -> u8
    requires texts { T.faults texts.old + 1 < 2 ^ 64 }
    requires input { I.faults input.old + 1 < 2 ^ 64 }
    requires out { O.faults out.old + 1 < 2 ^ 64 }
    requires err { E.faults err.old + 1 < 2 ^ 64 }
    ensures exact { let s = see (form_by words.now) I.Source O.Sink E.Sink in
        Exact T.Texts (Answers (spelt words.now)) texts.old texts.new
        (s input.old out.old err.old) (s input.new out.new err.new) result }
    ensures faults { let s = see (form_by words.now) I.Source O.Sink E.Sink in
        Faults (T.faults texts.old) (T.faults texts.new)
        (s input.old out.old err.old) (s input.new out.new err.new) result }
    ensures input_fault { let s = see (form_by words.now) I.Source O.Sink E.Sink in
        TellsInput (s input.old out.old err.old) (s input.new out.new err.new) result }
    ensures output_fault { let s = see (form_by words.now) I.Source O.Sink E.Sink in
        TellsOutput (s input.old out.old err.old) (s input.new out.new err.new) result }
    ensures usage { asked_by words.now ≡ None →
        (texts.new ≡ texts.old) × (input.new ≡ input.old) × (out.new ≡ out.old) }
    ensures no_file { AsksNoFile (asked_by words.now) →
        (texts.new ≡ texts.old) × (input.new ≡ input.old) }
    ensures stays { AsksNone (asked_by words.now) → input.new ≡ input.old }
    ensures text_fault { let s = see (form_by words.now) I.Source O.Sink E.Sink in T.faults texts.old < T.faults texts.new →
        SaysUnread (files_asked (asked_by words.now))
        (s input.old out.old err.old) (s input.new out.new err.new) result }
    ensures broken { let s = see (form_by words.now) I.Source O.Sink E.Sink in
        BrokenOff T.Texts (asked_by words.now) (Answers (spelt words.now)) texts.old texts.new
        (s input.old out.old err.old) (s input.new out.new err.new) }
    ensures memory { let s = see (form_by words.now) I.Source O.Sink E.Sink in let asked = asked_by words.now in
        Wants (AsksNoMeaning asked) (AsksNone asked)
        (s input.old out.old err.old) (s input.new out.new err.new) result }
    ensures cause { let s = see (form_by words.now) I.Source O.Sink E.Sink in
        Caused T.Texts (asked_by words.now) texts.old texts.new
        (s input.old out.old err.old) (s input.new out.new err.new) result }
    ensures refused { let s = see (form_by words.now) I.Source O.Sink E.Sink in
        Refuses (AsksNone (asked_by words.now))
        (s input.old out.old err.old) (s input.new out.new err.new) result }
{
    let (status, ..) = serve_lent::<T, I, O, E, Brand, Brand, Brand>(
        alloc, words, texts, input, out, err,
    );
    status
}
