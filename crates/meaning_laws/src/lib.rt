//! Laws of the meanings: of the definitions in `object_meaning`, for every sound core and every well formed code. The crate
//! has no code that runs; each law is a function whose contract says it.
//!
//! - Of cores (`specs/objects`): each run ends, never at a dead object, and no state on the way has a pointer to one that
//!   counts or is still read (`Dangling.antt`). `Good.antt` says what holds of each state before a statement; a run begins in
//!   such a state, each statement leads to such a state or ends the run, and each leaves less to do.
//! - Of numbers (`specs/counted`): deciding frees by numbers is deciding them by a scan of all pointers. With exact pins the
//!   counted meaning has the runs of the object meaning, and its numbers count what they are to count (`Counts.antt`).
//! - Of code (`specs/code`): `Good.antt` says what holds of each state between two instructions. Every frame is at an
//!   instruction of its function, and its registers and what is handed over have the sorts that the code says; no object that
//!   is not dead holds a pointer to a dead one, and no register holds one that is still needed; the memory locals of each call
//!   that is under way are there; and the number of each object is how many pointers to it count. A run begins in such a
//!   state, each instruction leads to such a state or ends the run for a reason that has a name, each leaves less to do, and
//!   so every run ends. A machine that does what the code means keeps these facts with its loop. Registers may hold stale
//!   pointers, those to objects that were freed or whose call has ended, as long as no path leads from there to a read of
//!   them. Where objects are freed or locals end, the numbers show that nothing that counts or is needed leads to them: at
//!   each such instruction the code lists the registers that count there.
//! - Of compiled code (`specs/compiled`): it is well formed, and what it does is what its core means. Its run writes what the
//!   core's run writes, reads what it reads, gives back the objects that it gives back, ends as it ends, and leaves the same
//!   state but for the points that the frames are at (`SameRun.antt`). The same holds where a test of the events cuts both
//!   runs off, as want of room on the stack does (`Testing.antt`).
//!
//! In `proofs/` there is a folder for each property: nothing dangles, counts are holders, the soundness of code, the form of
//! compiled code, and its agreement with its core.
#![tactic(auto)]

mod laws;

pub use laws::{
    code_means_core, code_runs_end, codes_are_few, codes_are_well_formed, core_begins_well,
    counted_means_core, digit_is_well_formed, instruction_is_there, main_gives_integer,
    nothing_dangles, operand_is_handed, operands_are_there, plain_runs_end_plainly,
    run_begins_well, run_ends, running_pins_are_fresh, statement_is_made, statement_leaves_less,
    statement_stays_good, step_leaves_less, step_stays_good, tested_runs_end,
    waiting_pins_are_fresh,
};
