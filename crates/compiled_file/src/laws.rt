//! What holds of the runs of code files.

ghost use Rattle.compiled_file.specs.Laws.{FilesRunAsCores, WholeRunsAreWhole};

use meaning_laws::{code_means_core, counted_means_core};

/// The run of a sound core's code file is the run of the core, for every input, number of steps and size of the heap: the same
/// trace, the same end, and the same objects behind it.
pub fn files_run_as_cores()
    ensures { FilesRunAsCores }
{
    code_means_core();
    counted_means_core();
}

/// A run of code of which the stack cuts nothing off ends in the last state of the code's meaning.
pub fn whole_runs_are_whole()
    ensures { WholeRunsAreWhole }
{}
