//! The line that says how the run of a text went that was made.

ghost use Rattle.std.specs.Prelude.{◌+◌, ◌<◌, ◌^◌};
ghost use Rattle.hs_base.specs.Outside.{CountsFaults};
ghost use Rattle.hs_base.specs.PutAll.{PutsAll};
ghost use Rattle.generated_text.specs.Summary.{summary_line};

use crate::parts::put_parts;
use hs_base::{Failed, Sink};
use itoa::Buffer;

/// How the run of a text went that was made.
#[derive(Clone, Copy, Debug, PartialEq, Eq)]
pub struct Summary {
    /// How many functions the text has beside main.
    pub number: u32,
    /// How many bytes the text has.
    pub text: u64,
    /// How many bytes its program wrote.
    pub output: u64,
    /// How many steps its program made.
    pub steps: u64,
    /// The status of the run.
    pub status: u8,
}

/// Writes `self N: text B bytes, output C bytes, steps S, status X` and a line feed: how many functions the text has beside
/// main, how many bytes it has and its program wrote, how many steps that made, and the status of the run. After a failure,
/// which is the last call on the sink, a prefix was taken.
pub fn put_summary<S: Sink>(out: &mut S, summary: Summary) -> Result<(), Failed>
    requires { S.faults out.old + 1 < 2 ^ 64 }
    ensures bytes { PutsAll (S.taken out.old) (S.taken out.new) (summary_line summary) result }
    ensures cause { CountsFaults (S.faults out.old) (S.faults out.new) result }
{
    let (mut number, mut text, mut output) = (Buffer::new(), Buffer::new(), Buffer::new());
    let (mut steps, mut status) = (Buffer::new(), Buffer::new());
    let number = number.format(summary.number).as_bytes();
    let text = text.format(summary.text).as_bytes();
    let output = output.format(summary.output).as_bytes();
    let steps = steps.format(summary.steps).as_bytes();
    let status = status.format(summary.status).as_bytes();
    put_parts(
        out,
        &[
            b"self ",
            number,
            b": text ",
            text,
            b" bytes, output ",
            output,
            b" bytes, steps ",
            steps,
            b", status ",
            status,
            b"\n",
        ],
    )
}
