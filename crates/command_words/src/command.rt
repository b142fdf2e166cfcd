//! What the words of the command line ask for.

ghost use Rattle.std.specs.Prelude.{◌≡◌, ⊤, IfOk, IfSome, MatchOption, map, option_map};
ghost use Rattle.std.specs.List.{list_all};
ghost use Rattle.clap.specs.Words.{all_of, first_of, found_of, rows_of};
ghost use Rattle.command_words.specs.Numbers.{is_file};
ghost use Rattle.command_words.specs.Commands.{command_of, command_shown, task_shown, asked, run_in, exec_in, options_in, Run, mean_in, most_files, are_files, files_in, self_in, flag_in, is_explained, task_named, with_files, HasLimits, IsLimited, IsRead};

use crate::error::WordsError;
use crate::set::command_set;
use crate::values::{functions, heap, is_file, stack, steps};
use clap::ArgMatches;
use clap::error::ErrorKind;
use hs_base::Items;
use std::alloc::Global;

/// How many files a program has at most.
const MOST_FILES: usize = 64;

/// What the words ask for.
#[derive(Drop)]
pub enum Command<'a> {
    /// A task is done with the program whose units are the texts of these names.
    OnFiles {
        files: Items<&'a str>,
        task: Task,
    },
    /// The code in the file of this name is run, as a program is by [`Task::Run`].
    Execute {
        file: &'a str,
        heap: u32,
        stack: u32,
        steps: u64,
        leaks: bool,
        explain: bool,
    },
    /// A text is made with so many functions, and run.
    Generated {
        number: u32,
    },
}

/// What is done with a program.
#[derive(Clone, Copy)]
pub enum Task {
    /// It is run on a heap and a stack of so many bytes, with at most so many steps, and perhaps with a list of the blocks
    /// that are left at its end, or with lines that explain its end.
    Run {
        heap: u32,
        stack: u32,
        steps: u64,
        leaks: bool,
        explain: bool,
    },
    /// Its meaning is evaluated in a heap of so many bytes, with at most so many steps, and its end is perhaps explained.
    Mean {
        heap: u32,
        steps: u64,
        explain: bool,
    },
    /// Its canonical spelling is written.
    Print,
    /// The layouts of its structs and unions are written.
    Layout,
    /// The functions of its core are written.
    List,
    /// The registers that are live after each point of its core are written.
    Live,
    /// The code file of its core is written.
    Compile,
}

/// What a command says of a run, but for its file.
#[derive(Clone, Copy)]
struct Options {
    heap: u32,
    stack: u32,
    steps: u64,
    leaks: bool,
    explain: bool,
}

/// How many files a task takes at most.
fn most_files(task: Task) -> usize
    ensures { result ≡ most_files (task_shown task) }
{
    match task {
        Task::Print => 1,
        _ => MOST_FILES,
    }
}

/// Says whether each word can be a file's name.
fn all_are_files(words: &[&str]) -> bool
    ensures { result ≡ list_all (λ w. is_file w.now) words.now }
{
    words.iter().all(|word| is_file(word))
}

/// Says whether words can be the files of a task.
#[tactic(auto, using(crate::proofs::Files::not_too_many))]
fn are_files(task: Task, words: &[&str]) -> bool
    ensures { result ≡ are_files (task_shown task) (map (λ w. w.now) words.now) }
{
    if words.is_empty() || words.len() > most_files(task) {
        return false;
    }
    all_are_files(words)
}

/// What is done with some files, if the words can be their names.
fn with_files<'a>(alloc: Global, words: &[&'a str], task: Task) -> Result<Command<'a>, WordsError>
    ensures read { IsRead (with_files (map (λ w. w.now) words.now) (task_shown task)) result }
    ensures limits { IsLimited (task_shown task) → IfOk result (λ c. HasLimits (command_shown c)) }
{
    if !are_files(task, words) {
        return Err(WordsError::Usage);
    }
    let files = Items::from(words.to_vec(alloc)?);
    Ok(Command::OnFiles { files, task })
}

/// The value of an argument, if it has one.
fn value_of<'a>(found: &ArgMatches<'a>, id: &str) -> Option<&'a str>
    ensures { option_map (λ w. w.now) result ≡ first_of id.now (rows_of (found_of found.now)) }
{
    found.get_str(id)
}

/// The values of an argument that may have several, if it has one.
fn values_of<'m, 'a>(found: &'m ArgMatches<'a>, id: &str) -> Option<&'m [&'a str]>
    ensures { option_map (λ words. map (λ w. w.now) words.now) result ≡
        all_of id.now (rows_of (found_of found.now)) }
{
    found.get_strs(id)
}

/// Whether a flag was given. `clap` has the value `true` for one that was, and else its default, `false`.
fn flag(found: &ArgMatches, id: &str) -> bool
    ensures { result ≡ flag_in id.now (rows_of (found_of found.now)) }
{
    match value_of(found, id) {
        Some(word) => word == "true",
        None => false,
    }
}

/// Whether an end is explained: where that is asked for, and where an object of JSON is, which has all of it.
fn is_explained(found: &ArgMatches) -> bool
    ensures { result ≡ is_explained (rows_of (found_of found.now)) }
{
    flag(found, "explain") || flag(found, "json")
}

/// What is said of a run, by the values of a command's arguments.
fn run_options(found: &ArgMatches) -> Option<Options>
    ensures value { result ≡ options_in (rows_of (found_of found.now)) }
    ensures bounds { IfSome result (λ o. IsLimited (Run o.heap o.stack o.steps o.leaks o.explain)) }
{
    let heap = heap(value_of(found, "heap"))?;
    let stack = stack(value_of(found, "stack"))?;
    let steps = steps(value_of(found, "steps"))?;
    let leaks = flag(found, "leaks");
    let explain = is_explained(found);
    Some(Options {
        heap,
        stack,
        steps,
        leaks,
        explain,
    })
}

/// What is done with the files of a command, by the values of its arguments.
fn on_files<'a>(
    alloc: Global,
    task: Task,
    found: &ArgMatches<'a>,
) -> Result<Command<'a>, WordsError>
    ensures read { IsRead (files_in (task_shown task) (rows_of (found_of found.now))) result }
    ensures limits { IsLimited (task_shown task) → IfOk result (λ c. HasLimits (command_shown c)) }
{
    match values_of(found, "FILE") {
        Some(words) => with_files(alloc, words, task),
        None => Err(WordsError::Usage),
    }
}

/// `run`, by the values of its arguments.
fn run<'a>(alloc: Global, found: &ArgMatches<'a>) -> Result<Command<'a>, WordsError>
    ensures read { IsRead (run_in (rows_of (found_of found.now))) result }
    ensures limits { IfOk result (λ c. HasLimits (command_shown c)) }
{
    let Some(options) = run_options(found) else {
        return Err(WordsError::Usage);
    };
    let task = Task::Run {
        heap: options.heap,
        stack: options.stack,
        steps: options.steps,
        leaks: options.leaks,
        explain: options.explain,
    };
    on_files(alloc, task, found)
}

/// `exec`, by the values of its arguments.
fn execute<'a>(found: &ArgMatches<'a>) -> Result<Command<'a>, WordsError>
    ensures read { IsRead (exec_in (rows_of (found_of found.now))) result }
    ensures limits { IfOk result (λ c. HasLimits (command_shown c)) }
{
    let Some(file) = value_of(found, "FILE") else {
        return Err(WordsError::Usage);
    };
    let Some(options) = run_options(found) else {
        return Err(WordsError::Usage);
    };
    if !is_file(file) {
        return Err(WordsError::Usage);
    }
    Ok(Command::Execute {
        file,
        heap: options.heap,
        stack: options.stack,
        steps: options.steps,
        leaks: options.leaks,
        explain: options.explain,
    })
}

/// `mean`, by the values of its arguments.
fn mean<'a>(alloc: Global, found: &ArgMatches<'a>) -> Result<Command<'a>, WordsError>
    ensures read { IsRead (mean_in (rows_of (found_of found.now))) result }
    ensures limits { IfOk result (λ c. HasLimits (command_shown c)) }
{
    let Some(heap) = heap(value_of(found, "heap")) else {
        return Err(WordsError::Usage);
    };
    let Some(steps) = steps(value_of(found, "steps")) else {
        return Err(WordsError::Usage);
    };
    let explain = is_explained(found);
    let task = Task::Mean {
        heap,
        steps,
        explain,
    };
    on_files(alloc, task, found)
}

/// The task of a command with files alone.
fn task_named(name: &str) -> Option<Task>
    ensures task { option_map task_shown result ≡ task_named name.now }
    ensures limits { MatchOption result ⊤ (λ task. IsLimited (task_shown task)) }
{
    if name == "print" {
        return Some(Task::Print);
    }
    if name == "layout" {
        return Some(Task::Layout);
    }
    if name == "list" {
        return Some(Task::List);
    }
    if name == "live" {
        return Some(Task::Live);
    }
    if name == "compile" {
        return Some(Task::Compile);
    }
    None
}

/// `self`, by the value of its argument.
fn generated<'a>(found: &ArgMatches<'a>) -> Result<Command<'a>, WordsError>
    ensures read { IsRead (self_in (rows_of (found_of found.now))) result }
    ensures limits { IfOk result (λ c. HasLimits (command_shown c)) }
{
    let Some(word) = value_of(found, "N") else {
        return Err(WordsError::Usage);
    };
    match functions(word) {
        Some(number) => Ok(Command::Generated { number }),
        None => Err(WordsError::Usage),
    }
}

/// What a command asks for.
fn asked<'a>(alloc: Global, name: &str, found: &ArgMatches<'a>) -> Result<Command<'a>, WordsError>
    ensures read { IsRead (asked name.now (rows_of (found_of found.now))) result }
    ensures limits { IfOk result (λ c. HasLimits (command_shown c)) }
{
    if name == "run" {
        return run(alloc, found);
    }
    if name == "mean" {
        return mean(alloc, found);
    }
    if name == "exec" {
        return execute(found);
    }
    if name == "self" {
        return generated(found);
    }
    match task_named(name) {
        Some(task) => on_files(alloc, task, found),
        None => Err(WordsError::Usage),
    }
}

/// Reads the words behind the program's name.
///
/// # Errors
///
/// [`WordsError::Usage`] exactly where the words are not taken, but for want of memory, which is
/// [`WordsError::NoMemory`]. A task that is read has 1 to 64 files, and one to be written in its canonical spelling; its steps are
/// at most 1,000,000,000, its heap has at most 268,435,456 bytes and its stack at most 67,108,864. A text that is made has 1 to
/// 2,000 functions.
pub fn read<'a>(alloc: Global, words: &'a [&'a str]) -> Result<Command<'a>, WordsError>
    ensures read { IsRead (command_of (map (λ w. w.now) words.entry.now)) result }
    ensures limits { IfOk result (λ command. HasLimits (command_shown command)) }
{
    let set = command_set(alloc)?;
    match set.try_get_matches_from(words) {
        Ok(matches) => match matches.subcommand() {
            Some((name, found)) => asked(alloc, name, found),
            None => Err(WordsError::Usage),
        },
        Err(error) => match error.kind() {
            ErrorKind::OutOfMemory => Err(WordsError::NoMemory),
            _ => Err(WordsError::Usage),
        },
    }
}
