//! The code of a core, and its run.
//!
//! [`compile`] walks over the statics and the functions of a core once, in order, and adds what each of them needs to the
//! code that stands so far. Instructions, lines, layouts, formats and sites grow at their ends alone, so what was said of an
//! earlier statement stays true. The pins of a function stand in the order of its points, so the walk takes those of each
//! point from their front. `object_meaning` says what the code of a core is, and `specs/Emitting.antt` what each step
//! here adds. [`execute`] runs such code on a machine, and its contract speaks of the core: the machine does what the code
//! means (`flat_machine`), and the code means what the core means (`meaning_laws`). `specs/Lasting.antt` says in which state
//! a run that the stack cuts off ends, and so how many steps it makes and what the machine is then.
#![tactic(auto)]

mod doing;
mod emitter;
mod functions;
mod handing;
mod laws;
mod places;
mod program;
mod running;
mod sites;
mod statics;

pub use laws::cut_runs_are_cut;
pub use program::compile;
pub use running::execute;
