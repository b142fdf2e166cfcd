//! The code file of a core, and the runs of such files.
//!
//! [`compile_file`] gives the code file of a sound core: its code, with the registers that count where objects may be freed, and
//! its names. It can be written. `specs/CompiledFile.antt` says which file it is. [`files_run_as_cores`] says that a run of its
//! code, for which a reader of the file needs no core, is the run of the core.
#![tactic(auto)]

mod laws;
mod making;

pub use laws::{files_run_as_cores, whole_runs_are_whole};
pub use making::compile_file;
