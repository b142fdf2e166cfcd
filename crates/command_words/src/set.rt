//! The commands and options, as `clap` builds them.

ghost use Rattle.std.specs.Prelude.{◌≡◌, codes, false, IfOk};
ghost use Rattle.clap.specs.Words.{app_of, rule_of, with_subcommand};
ghost use Rattle.clap.specs.declared.builder.command.Command.TheViews.{out-Command as fields_of};
ghost use Rattle.command_words.specs.CommandSet.{command_set, files, flag, mean, needed, option, plain, running};

use clap::{Arg, ArgAction, Command};
use std::alloc::{AllocError, Global};

/// An argument that each use of its command needs.
fn needed<'a>(alloc: Global, name: &'a str) -> Arg<'a>
    ensures rule { rule_of result ≡ needed name.entry.now }
    ensures local { result.global ≡ false }
{
    Arg::new(alloc, name).required(true)
}

/// The argument for files, one or more.
fn files<'a>(alloc: Global) -> Arg<'a>
    ensures rule { rule_of result ≡ files }
    ensures local { result.global ≡ false }
{
    needed(alloc, "FILE").num_args(1..)
}

/// An option with a value.
fn option<'a>(alloc: Global, name: &'a str) -> Arg<'a>
    ensures rule { rule_of result ≡ option name.entry.now }
    ensures local { result.global ≡ false }
{
    Arg::new(alloc, name).long(name)
}

/// An option without a value.
fn flag<'a>(alloc: Global, name: &'a str) -> Arg<'a>
    ensures rule { rule_of result ≡ flag name.entry.now }
    ensures local { result.global ≡ false }
{
    Arg::new(alloc, name).long(name).action(ArgAction::SetTrue)
}

/// A command with its file or files and what may be said of a run.
fn running<'a>(alloc: Global, name: &'a str, word: Arg<'a>) -> Result<Command<'a>, AllocError>
    requires { word.global ≡ false }
    ensures shape { IfOk result (λ c. app_of c ≡ running name.entry.now (rule_of word.entry)) }
    ensures local { IfOk result (λ c. (fields_of c).has_globals ≡ false) }
{
    Command::new(alloc, name)
        .arg(word)?
        .arg(option(alloc, "heap"))?
        .arg(option(alloc, "stack"))?
        .arg(option(alloc, "steps"))?
        .arg(flag(alloc, "leaks"))?
        .arg(flag(alloc, "explain"))?
        .arg(flag(alloc, "json"))
}

/// Adds a command with its file or files and what may be said of a run.
fn add_running<'a>(
    alloc: Global,
    program: Command<'a>,
    name: &'a str,
    word: Arg<'a>,
) -> Result<Command<'a>, AllocError>
    requires { word.global ≡ false }
    ensures { IfOk result (λ c. app_of c ≡ with_subcommand (app_of program.entry)
        (running name.entry.now (rule_of word.entry)).top) }
{
    program.subcommand(running(alloc, name, word)?)
}

/// Adds `mean FILE.. [--heap N] [--steps N] [--explain] [--json]`.
fn add_mean<'a>(alloc: Global, program: Command<'a>) -> Result<Command<'a>, AllocError>
    ensures { IfOk result (λ c. app_of c ≡ with_subcommand (app_of program.entry) mean.top) }
{
    let mean = Command::new(alloc, "mean")
        .arg(files(alloc))?
        .arg(option(alloc, "heap"))?
        .arg(option(alloc, "steps"))?
        .arg(flag(alloc, "explain"))?
        .arg(flag(alloc, "json"))?;
    program.subcommand(mean)
}

/// Adds a command with its words alone.
fn add_plain<'a>(
    alloc: Global,
    program: Command<'a>,
    name: &'a str,
    word: Arg<'a>,
) -> Result<Command<'a>, AllocError>
    requires { word.global ≡ false }
    ensures { IfOk result (λ c. app_of c ≡ with_subcommand (app_of program.entry)
        (plain name.entry.now (rule_of word.entry)).top) }
{
    let plain = Command::new(alloc, name).arg(word)?;
    program.subcommand(plain)
}

/// Adds a command with files alone.
fn add_on_files<'a>(
    alloc: Global,
    program: Command<'a>,
    name: &'a str,
) -> Result<Command<'a>, AllocError>
    ensures { IfOk result (λ c. app_of c ≡ with_subcommand (app_of program.entry)
        (plain name.entry.now files).top) }
{
    add_plain(alloc, program, name, files(alloc))
}

/// All commands.
pub(crate) fn command_set<'a>(alloc: Global) -> Result<Command<'a>, AllocError>
    ensures { IfOk result (λ c. app_of c ≡ command_set) }
{
    let program = Command::new(alloc, "heapsafe")
        .no_binary_name(true)
        .disable_help_flag(true)
        .disable_version_flag(true)
        .disable_help_subcommand(true)
        .subcommand_required(true);
    let program = add_running(alloc, program, "run", files(alloc))?;
    let program = add_mean(alloc, program)?;
    let program = add_on_files(alloc, program, "print")?;
    let program = add_on_files(alloc, program, "layout")?;
    let program = add_on_files(alloc, program, "list")?;
    let program = add_on_files(alloc, program, "live")?;
    let program = add_plain(alloc, program, "self", needed(alloc, "N"))?;
    let program = add_on_files(alloc, program, "compile")?;
    add_running(alloc, program, "exec", needed(alloc, "FILE"))
}
