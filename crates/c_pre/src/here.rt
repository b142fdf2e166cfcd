//! A place in an open text.

ghost use Rattle.std.specs.Prelude.{◌≡◌, ◌+◌, ◌<◌, ◌^◌, [], ◌++◌, OnOk};
ghost use Rattle.c_pre.specs.Reading.{first_of, behind_line, at_header, with_text};

use crate::groups::Groups;
use hs_base::{Line, NoMemory};
use std::alloc::Global;
use std::marker::Model;

/// The text lines since the last directive.
#[derive(Drop)]
pub(crate) struct Run {
    bytes: Vec<u8>,
}

impl Model for Run {
    ghost use Rattle.std.specs.Prelude.{List, ℕ};

    ghost Value = { List ℕ };

    ghost view = { λ r. r.bytes.items };
}

impl Run {
    /// No line.
    pub(crate) fn new(alloc: Global) -> Run
        ensures { result ≡ [] }
    {
        Run {
            bytes: Vec::new(alloc),
        }
    }

    /// The lines.
    pub(crate) fn as_slice(&self) -> &[u8]
        ensures { result.now ≡ self.now }
    {
        self.bytes.as_slice()
    }

    /// Takes all lines away.
    fn clear(&mut self)
        ensures { self.new ≡ [] }
    {
        self.bytes.clear();
    }

    /// Adds a line.
    fn push(&mut self, line: &[u8]) -> Result<(), NoMemory>
        ensures { OnOk result (self.new ≡ self.old ++ line.now) }
    {
        self.bytes.extend_from_slice(line)?;
        Ok(())
    }
}

/// A line of an open text.
#[derive(Drop)]
pub(crate) struct Here {
    /// The number of lines of the texts that were opened before.
    pub(crate) base: Line,
    /// Counted from 1.
    pub(crate) line: Line,
    /// The groups that are open.
    pub(crate) groups: Groups,
    /// The text lines since the last directive.
    pub(crate) run: Run,
    /// The line of the first of them, or of the first that may come.
    pub(crate) run_line: Line,
}

impl Here {
    /// The first line of a text.
    pub(crate) fn new(alloc: Global, base: Line) -> Here
        ensures { result ≡ first_of base }
    {
        Here {
            base,
            line: 1,
            groups: Groups::new(alloc),
            run: Run::new(alloc),
            run_line: 1,
        }
    }

    /// Begins a new run of text lines behind this line.
    pub(crate) fn begin_run(&mut self)
        requires { self.old.line + 1 < 2 ^ 32 }
        ensures { self.new ≡ behind_line self.old }
    {
        self.run.clear();
        self.run_line = self.line + 1;
    }

    /// Begins a new run of text lines with this line, which includes a header.
    pub(crate) fn begin_with(&mut self, line: &[u8]) -> Result<(), NoMemory>
        ensures { OnOk result (self.new ≡ at_header line.now self.old) }
    {
        self.run.clear();
        self.run.push(line)?;
        self.run_line = self.line;
        Ok(())
    }

    /// Takes a text line to the run, where lines are read.
    pub(crate) fn take_text(&mut self, line: &[u8]) -> Result<(), NoMemory>
        ensures { OnOk result (self.new ≡ with_text line.now self.old) }
    {
        if self.groups.is_live() {
            self.run.push(line)?;
        }
        Ok(())
    }
}
