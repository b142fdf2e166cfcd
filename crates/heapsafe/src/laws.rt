//! What holds of the answers of two commands.

ghost use Rattle.heapsafe.specs.Laws.{ExecutionsAreRuns};

use compiled_file::files_run_as_cores;

/// `exec` of what `compile` writes for a core reads, writes and answers what `run` does for that core, with the same input, limits
/// and steps, where the input does not fail and the file is not too long. What is said may differ: in the name, and in the source
/// line that `exec` does not show.
pub fn executions_are_runs()
    ensures { ExecutionsAreRuns }
{
    files_run_as_cores();
}
