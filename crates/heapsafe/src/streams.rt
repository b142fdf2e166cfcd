//! The three streams of a program.

ghost use Rattle.heapsafe.specs.Sight.{Sight, see};

use bad_free_report::Form;
use hs_base::{Sink, Source};
use std::marker::Model;

/// The three streams of a program, and the form in which things are said. Contracts see each, what it tells, and how often it failed.
#[derive(Drop)]
pub(crate) struct Streams<I: Source, O: Sink, E: Sink> {
    /// Where input is read.
    pub(crate) input: I,
    /// Where output is written.
    pub(crate) out: O,
    /// Where errors and leaks are reported.
    pub(crate) err: E,
    /// In which form that is.
    pub(crate) form: Form,
}

impl<I: Source, O: Sink, E: Sink> Model for Streams<I, O, E> {
    ghost Value = { Sight I O E };

    ghost view = { λ streams. see streams.form I.Source O.Sink E.Sink streams.input streams.out streams.err };
}
