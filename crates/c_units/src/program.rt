//! The merge of units.

ghost use Rattle.std.specs.Prelude.{◌≡◌, ◌≢◌, ◌<◌, ◌≤◌, IfOk, length, map, option_copied, OnOk};
ghost use Rattle.c_tree.specs.Renaming.{RenamesSome};
ghost use Rattle.c_tree.specs.StatementView.{unit_view};
ghost use Rattle.c_units.specs.Kept.{program_view, all_said, left_view, AddsKept, AddsSpelling, AddsTrees, AddsUnit};
ghost use Rattle.c_units.specs.MergedNames.{units_joined};
ghost use Rattle.c_units.specs.Mentions.{first_taken};
ghost use Rattle.c_units.specs.Merge.{Adds, IsConflict, Merges, kept, mentions_of, no_program, spellings_of};

use crate::error::MergeError;
use crate::mention::Mention;
use crate::name_set::NameSet;
use crate::said::{Said, is_plain, spelled, unit_said};
use crate::taken::Taken;
use c_tree::{Decl, Unit};
use hs_base::{Items, NoMemory};
use std::alloc::Global;

/// What units give so far.
#[derive(Drop)]
struct Program {
    alloc: Global,
    /// Their external declarations.
    decls: Items<Decl>,
    /// How those are spelled that may be left out elsewhere.
    spellings: NameSet,
    /// Their names.
    taken: Taken,
}

/// The conflict at a mention.
fn conflict(alloc: Global, mention: &Mention) -> MergeError
    ensures { IsConflict mention.now result }
{
    match Vec::from_slice(alloc, mention.name.as_slice()) {
        Ok(name) => MergeError::Conflict {
            name: Items::from(name),
            line: mention.line,
        },
        Err(_) => MergeError::NoMemory,
    }
}

/// What is left of a unit, and how those of its external declarations are spelled that may be left out elsewhere.
#[derive(Drop)]
struct Left {
    said: Vec<Said>,
    spellings: Vec<Items<u8>>,
}

impl Program {
    /// No units.
    fn new(alloc: Global) -> Program
        ensures { program_view result ≡ no_program }
    {
        Program {
            alloc,
            decls: Items::new(alloc),
            spellings: NameSet::new(alloc),
            taken: Taken::new(alloc),
        }
    }

    /// What is left of a unit: a declaration that an earlier one has in the same words is left out.
    #[tactic(auto, using(crate::proofs::ProgramTurns::kept_next, crate::proofs::ProgramTurns::spellings_next))]
    fn left(&self, all: Vec<Said>) -> Result<Left, NoMemory>
        ensures said { IfOk result (λ left. left_view left ≡ kept self.now.spellings (all_said all.items)) }
        ensures spellings { IfOk result (λ left. left.spellings.items ≡ spellings_of (all_said all.items)) }
    {
        let mut left = Left {
            said: Vec::with_capacity(self.alloc, all.len())?,
            spellings: Vec::new(self.alloc),
        };
        for one in all {
            self.sort(&mut left, one)?;
        }
        Ok(left)
    }

    /// The same of one external declaration.
    #[tactic(auto, using(crate::proofs::ProgramTurns::whole_kept, crate::proofs::ProgramTurns::new_kept, crate::proofs::ProgramTurns::again_kept, crate::proofs::ProgramTurns::whole_spelled, crate::proofs::ProgramTurns::plain_spelled))]
    fn sort(&self, left: &mut Left, one: Said) -> Result<(), NoMemory>
        ensures said { OnOk result (AddsKept self.now.spellings one left.old left.new) }
        ensures spellings { OnOk result (AddsSpelling one left.old left.new) }
    {
        if !is_plain(&one.decl) {
            left.said.push(one)?;
            return Ok(());
        }
        let Said { decl, mentions } = one;
        let (spelling, decl) = spelled(self.alloc, decl)?;
        if !self.spellings.contains(spelling.as_slice()) {
            left.said.push(Said { decl, mentions })?;
        }
        left.spellings.push(spelling)?;
        Ok(())
    }

    /// The first mention of what is left of a unit that is taken.
    #[tactic(auto, using(crate::proofs::ProgramTurns::free_next, crate::proofs::ProgramTurns::taken_here, crate::proofs::ProgramTurns::free_end))]
    fn first_taken<'a>(&self, said: &'a [Said]) -> Option<&'a Mention>
        ensures { option_copied result ≡ first_taken self.now.taken (mentions_of (all_said said.now)) }
    {
        for one in said {
            if let Some(mention) = self.taken.first(one.mentions.as_slice()) {
                return Some(mention);
            }
        }
        None
    }

    /// Takes in what is left of a unit, and answers what it says of the names that units share.
    #[tactic(auto, using(crate::proofs::ProgramTurns::mentions_next, crate::proofs::ProgramTurns::trees_next, crate::proofs::ProgramTurns::trees_start))]
    fn take_in(&mut self, said: Vec<Said>) -> Result<Vec<Mention>, NoMemory>
        ensures mentions { IfOk result (λ mentions. mentions.items ≡ mentions_of (all_said said.items)) }
        ensures program { OnOk result (AddsTrees said.items self.old self.new) }
    {
        let mut mentions = Vec::new(self.alloc);
        for one in said {
            let Said {
                decl,
                mentions: mut here,
            } = one;
            mentions.append(&mut here)?;
            self.decls.push(decl)?;
        }
        Ok(mentions)
    }

    /// Adds a unit with its number.
    #[tactic(auto, using(crate::proofs::ProgramTurns::added, crate::proofs::ProgramTurns::refused))]
    fn add(&mut self, number: usize, unit: Unit) -> Result<(), MergeError>
        ensures { AddsUnit number unit self.old self.new result }
    {
        let all = unit_said(self.alloc, number, unit)?;
        let Left { said, spellings } = self.left(all)?;
        if let Some(mention) = self.first_taken(said.as_slice()) {
            return Err(conflict(self.alloc, mention));
        }
        let mentions = self.take_in(said)?;
        self.spellings.note_all(self.alloc, &spellings)?;
        self.taken.note_all(self.alloc, mentions.as_slice())?;
        Ok(())
    }
}

/// The merge of several units, or of none.
#[tactic(auto, using(crate::proofs::ProgramTurns::unit_next, crate::proofs::ProgramTurns::unit_counts, crate::proofs::ProgramTurns::unit_end, crate::proofs::ProgramTurns::several_merged, crate::proofs::ProgramTurns::merge_refused))]
fn several(alloc: Global, mut units: Vec<Unit>) -> Result<Unit, MergeError>
    requires several { length units.items ≢ 1 }
    requires few { length units.items ≤ 64 }
    ensures { Merges (map unit_view units.items) result }
{
    let mut program = Program::new(alloc);
    let mut number = 0;
    units.reverse();
    'units: while let Some(unit) = units.pop() {
        number += 1;
        program.add(number, unit)?;
    }
    let Program { decls, .. } = program;
    Ok(Unit { decls })
}

/// The merge of units, however many there are: one is its own.
#[tactic(auto, using(crate::proofs::ProgramTurns::one_popped))]
fn merge_all(alloc: Global, mut units: Vec<Unit>) -> Result<Unit, MergeError>
    requires { length units.items ≤ 64 }
    ensures { Merges (map unit_view units.items) result }
{
    if units.len() == 1
        && let Some(unit) = units.pop()
    {
        return Ok(unit);
    }
    several(alloc, units)
}

/// The merge of at most 64 units, the suffixes of which have at most three bytes.
///
/// # Errors
///
/// [`MergeError::Conflict`] exactly where two units say what may not be said of one name twice, with the first such name and
/// the line of its later place; [`MergeError::NoMemory`] only for want of memory.
pub fn merge(alloc: Global, units: Items<Unit>) -> Result<Unit, MergeError>
    requires some { 0 < length units }
    requires few { length units ≤ 64 }
    ensures merged { Merges (map unit_view units) result }
    ensures renamed { IfOk result (λ unit. RenamesSome (units_joined units) (unit_view unit)) }
{
    merge_all(alloc, units.into_vec())
}
