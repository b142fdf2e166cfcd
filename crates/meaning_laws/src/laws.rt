//! What holds of every run, of cores and of flat code.

ghost use Rattle.meaning_laws.specs.code.Example.{DigitIsWellFormed};
ghost use Rattle.meaning_laws.specs.code.Laws.{HandsAnOperand, InstructionIsThere, MainGivesInteger, OperandsAreThere, RunBeginsWell, RunningPinsAreFresh, RunsEnd as CodeRunsEnd, StepLeavesLess, StepStaysGood, WaitingPinsAreFresh};
ghost use Rattle.meaning_laws.specs.compiled.Laws.{CodeMeansCore, CodesAreFew, CodesAreWellFormed, TestedCodeMeansCore};
ghost use Rattle.meaning_laws.specs.counted.Laws.{CountsAreHolders, EachStateIsCounted, TestedRunsAreCounted, TestedRunsEnd};
ghost use Rattle.meaning_laws.specs.objects.Laws.{CoreBeginsWell, NothingEverDangles, PlainRunsEndPlainly, RunsEnd, StatementIsMade, StatementLeavesLess, StatementStaysGood};

use core_tree::{layouts_of_types, live_by_paths};

/// The meaning of a sound core has ended, for every input, number of steps and size of the heap, and it did not end by
/// reading a pointer to an object that is dead. So no run touches what was freed: a free that would leave such a pointer
/// ends the run instead.
pub fn run_ends()
    ensures { RunsEnd }
{}

/// So has a run of a sound core that stops at the first event that a test refuses, from whichever state it goes on.
pub fn tested_runs_end()
    ensures { TestedRunsEnd }
{}

/// After any number of statements of a sound core that has not ended, no pointer to a dead object is left that counts or
/// is still read: none in the slots of an object that is not dead, none in a register of the running frame that the
/// statement there reads, or that is live after it and not written by it, and none in a register that counts of a frame
/// that waits for a call.
pub fn nothing_dangles()
    ensures { NothingEverDangles }
{}

/// A sound core without a free, a reallocation and a local in memory exits, traps or comes to the end of its steps: it has
/// no bad free and no escaping local, for every input, number of steps and size of the heap.
pub fn plain_runs_end_plainly()
    ensures { PlainRunsEndPlainly }
{}

/// The first call of main leads to a good state, or there is no step left for it.
pub fn core_begins_well()
    ensures { CoreBeginsWell }
{}

/// A good state is at a statement of its function, and no operand of that points to a dead object: so the statement is made.
pub fn statement_is_made()
    ensures { StatementIsMade }
{}

/// From a good state each statement leads to a good state, or it ends the run, and not by reading a pointer to a dead
/// object: whichever sizes have a place on the heap.
pub fn statement_stays_good()
    ensures { StatementStaysGood }
{}

/// Each statement that does not end the run leaves fewer statements to make, as `enough` counts them.
pub fn statement_leaves_less()
    ensures { StatementLeavesLess }
{}

/// The counted meaning of a sound core with exact pins is its object meaning, for every input, number of steps and size of
/// the heap: the same trace, end and state, at the end of the run, after each number of statements, and where a test of the
/// events cuts it off. At each of these states the number of each object is how many pointers to it are in slots of objects
/// that are not dead and in pinned registers of frames that wait.
pub fn counted_means_core()
    ensures meaning { CountsAreHolders }
    ensures each_state { EachStateIsCounted }
    ensures tested { TestedRunsAreCounted }
{}

/// An example of code of which the laws below speak.
pub fn digit_is_well_formed()
    ensures { DigitIsWellFormed }
{}

/// A good state is at an instruction of its function.
pub fn instruction_is_there()
    ensures { InstructionIsThere }
{}

/// In a good state an operation that hands nothing over has what it takes: as many values as it takes, each of its sort and
/// no pointer to a dead object.
pub fn operands_are_there()
    ensures { OperandsAreThere }
{}

/// In a good state what an instruction hands over is of its sort, and no pointer to a dead object.
pub fn operand_is_handed()
    ensures { HandsAnOperand }
{}

/// In a good state no pin of the running frame points to a dead object, but for a register that the instruction writes, as
/// that of an object that grows.
pub fn running_pins_are_fresh()
    ensures { RunningPinsAreFresh }
{}

/// In a good state no pin of a frame that waits points to a dead object.
pub fn waiting_pins_are_fresh()
    ensures { WaitingPinsAreFresh }
{}

/// Where no frame waits, a return gives an integer: the one with which the run ends.
pub fn main_gives_integer()
    ensures { MainGivesInteger }
{}

/// The first instruction leads to a good state, or there is no step left for it.
pub fn run_begins_well()
    ensures { RunBeginsWell }
{}

/// From a good state each instruction leads to a good state, or it ends the run, and not by reading a pointer to a dead
/// object or for want of an instruction: whichever sizes have a place on the heap.
pub fn step_stays_good()
    ensures { StepStaysGood }
{}

/// From a good state each instruction that does not end the run leaves fewer instructions to make, as `enough` counts them.
pub fn step_leaves_less()
    ensures { StepLeavesLess }
{}

/// The meaning of code has ended, for every input, number of steps and size of the heap, and it did not end by reading a
/// pointer to an object that is dead.
pub fn code_runs_end()
    ensures { CodeRunsEnd }
{}

/// The code of a sound core with pins that are exact and ascend is well formed, where it has fewer than 2^32 layouts and
/// formats.
pub fn codes_are_well_formed()
    ensures { CodesAreWellFormed }
{
    layouts_of_types();
    live_by_paths();
}

/// The code of a core has at most 14 instructions for each unit of the core's size, one for each function and one at the
/// start.
pub fn codes_are_few()
    ensures { CodesAreFew }
{}

/// The run of the code of a sound core with exact pins, which ascend at each point, is the run of the core by numbers, for
/// every input, number of steps and size of the heap: the same trace, the same end, the same number for each object, and the
/// same last state but for the points that its frames are at. So are the runs that stop before the first event that a test refuses, in the state before
/// that event, where a call has taken its step; and they end, whatever the test.
pub fn code_means_core()
    ensures meaning { CodeMeansCore }
    ensures tested { TestedCodeMeansCore }
{}
