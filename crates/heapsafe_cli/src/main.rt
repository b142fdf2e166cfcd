//! The program `heapsafe`: makes the real objects, calls the top call, and ends with its status.
#![tactic(auto)]

use heapsafe::heapsafe;
use hs_base::{FileTexts, NoMemory, StdSink, StdSource};
use std::alloc::Global;
use std::env;
use std::env::{Env, FillError};
use std::io::ErrorKind;
use std::process::ExitCode;

/// The status where there is no memory for the words.
const NO_MEMORY: u8 = 134;

/// Says whether one of the words of the command line asks for an object of JSON.
fn asks_for_json(rt: &HostRuntime) -> bool {
    let mut word = [0; 6];
    for i in 1..usize::MAX {
        match rt.arg(i, &mut word) {
            Ok(length) => {
                if length == 6 && word == *b"--json" {
                    return true;
                }
            }
            Err(FillError::TooLong) => {}
            Err(FillError::NotPresent) => return false,
        }
    }
    false
}

/// The words that stand for those of a command line of which one is not UTF-8: such a line is refused, in the form that it asks
/// for, and so are these.
fn refused_words(rt: &HostRuntime) -> Result<Vec<String>, NoMemory> {
    let mut words = Vec::new(rt.alloc());
    if asks_for_json(rt) {
        words.push(String::from_str(rt.alloc(), "--json")?)?;
    }
    Ok(words)
}

/// The words of the command line, without the program's name.
fn words(rt: &HostRuntime) -> Result<Vec<String>, NoMemory> {
    let mut words = Vec::new(rt.alloc());
    match env::args(rt) {
        Ok(args) => {
            for word in args.skip(1) {
                words.push(word)?;
            }
            Ok(words)
        }
        Err(error) if error.kind() == ErrorKind::OutOfMemory => Err(NoMemory),
        Err(_) => refused_words(rt),
    }
}

/// The words as texts.
fn texts_of<'a>(alloc: Global, words: &'a Vec<String>) -> Result<Vec<&'a str>, NoMemory> {
    let mut texts = Vec::new(alloc);
    for word in words {
        texts.push(word.as_str())?;
    }
    Ok(texts)
}

/// Runs the program on its words and answers the status.
fn run(rt: &HostRuntime) -> Result<u8, NoMemory> {
    let words = words(rt)?;
    let texts = texts_of(rt.alloc(), &words)?;
    Ok(heapsafe(
        rt.alloc(),
        texts.as_slice(),
        &mut FileTexts::new(rt),
        &mut StdSource::new(rt.stdin()),
        &mut StdSink::new(rt.stdout()),
        &mut StdSink::new(rt.stderr()),
    ))
}

fn main(rt: HostRuntime) -> ExitCode {
    match run(&rt) {
        Ok(status) => ExitCode::from(status),
        Err(NoMemory) => ExitCode::from(NO_MEMORY),
    }
}
