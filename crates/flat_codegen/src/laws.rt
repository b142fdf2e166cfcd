//! What holds of runs that are cut.

ghost use Rattle.flat_codegen.specs.Laws.{CutRunsAreCut};

use meaning_laws::{run_ends, tested_runs_end};

/// The run of a sound core that stops just before its first call for which the stack has no room is the cut of its meaning: it
/// has the trace that is kept and the end of that call, and where every call has room it is the meaning.
pub fn cut_runs_are_cut()
    ensures { CutRunsAreCut }
{
    run_ends();
    tested_runs_end();
}
