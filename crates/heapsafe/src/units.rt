//! The program that files make: each is preprocessed and parsed by itself, and their units are merged.

ghost use Rattle.std.specs.Prelude.{◌≡◌, ◌+◌, ◌<◌, ◌≤◌, ◌^◌, ◌∷◌, [], length, IfOk, IfErr};
ghost use Rattle.core_soundness.specs.Texts.{IsOfTexts};
ghost use Rattle.c_tree.specs.StatementView.{unit_view};
ghost use Rattle.heapsafe.specs.Answer.{spelt};
ghost use Rattle.heapsafe.specs.Reads.{CountsText, FailsIn, Finishes, IsOfFiles, ReadsFile, ReadsFiles, TakesUnit, reading_view};
ghost use Rattle.heapsafe.specs.Units.{nothing_read};

use c_lexer::Token;
use c_parser::{ParseError, parse};
use c_pre::{Opened, PreError, Sources, pre_behind};
use c_tree::Unit;
use c_units::{MergeError, merge, merges_rename};
use core_soundness::names_stay_short;
use hs_base::{Items, Line, NoMemory, Texts};
use std::alloc::Global;

/// What was read of a program so far.
#[derive(Drop)]
pub(crate) struct Reading {
    /// The texts that were opened, with their lines and bytes.
    sources: Sources,
    /// The trees of the files.
    units: Items<Unit>,
}

/// A program that was read.
#[derive(Drop)]
pub(crate) struct Program {
    /// The texts that were opened.
    pub(crate) texts: Items<Opened>,
    /// The merge of its units.
    pub(crate) unit: Unit,
}

/// Why a program was not read. A line is counted over the texts that were opened.
#[derive(Drop)]
pub(crate) enum ProgramError {
    /// A file has no tokens.
    Text(PreError),
    /// The tokens of a file have no tree.
    Syntax {
        texts: Items<Opened>,
        line: Line,
    },
    /// Two units say what may not be said of one name twice.
    Conflict {
        texts: Items<Opened>,
        name: Items<u8>,
        line: Line,
    },
    /// Memory was wanted and there was none.
    NoMemory,
}

impl From<NoMemory> for ProgramError {
    ghost use Rattle.std.specs.Prelude.{◌≡◌};
    ghost use Rattle.heapsafe.specs.declared.units.ProgramError.TheVariants.{NoMemory};

    ghost from_gives = { λ _ e. e ≡ NoMemory };

    fn from(_: NoMemory) -> ProgramError {
        ProgramError::NoMemory
    }
}

impl From<PreError> for ProgramError {
    ghost use Rattle.std.specs.Prelude.{◌≡◌};
    ghost use Rattle.heapsafe.specs.declared.units.ProgramError.TheVariants.{Text};

    ghost from_gives = { λ error e. e ≡ Text error };

    fn from(error: PreError) -> ProgramError {
        ProgramError::Text(error)
    }
}

impl Reading {
    /// Nothing.
    fn new(alloc: Global) -> Reading
        ensures { reading_view result ≡ nothing_read }
    {
        Reading {
            sources: Sources::new(alloc, 0),
            units: Items::new(alloc),
        }
    }

    /// With one file more.
    fn with_file<T: Texts>(
        self,
        alloc: Global,
        texts: &mut T,
        file: &str,
    ) -> Result<Reading, ProgramError>
        requires texts { T.faults texts.old + 1 < 2 ^ 64 }
        requires within { IsOfFiles (reading_view self) }
        requires few { length self.units < 64 }
        ensures told { ReadsFile T.Texts texts.old self file.now result }
        ensures within { IfOk result (λ after. IsOfFiles (reading_view after)) }
        ensures count { IfOk result (λ after. length after.units ≡ length self.units + 1) }
        ensures named { IfErr result (FailsIn (file.now ∷ [])) }
        ensures keeps { T.texts texts.new ≡ T.texts texts.old }
        ensures cause { CountsText (T.faults texts.old) (T.faults texts.new) result }
    {
        let Reading { sources, units } = self;
        let (tokens, sources) = pre_behind(alloc, texts, file, sources)?;
        Reading { sources, units }.with_unit(alloc, tokens.as_slice())
    }

    /// With the tree of these tokens, for which the texts were opened already.
    fn with_unit(self, alloc: Global, tokens: &[Token]) -> Result<Reading, ProgramError>
        ensures { TakesUnit (reading_view self) tokens.now self.sources result }
    {
        let Reading { sources, mut units } = self;
        match parse(alloc, tokens) {
            Ok(unit) => {
                units.push(unit)?;
                Ok(Reading { sources, units })
            }
            Err(ParseError::Syntax { line }) => {
                let Sources { texts, .. } = sources;
                Err(ProgramError::Syntax { texts, line })
            }
            Err(ParseError::NoMemory) => Err(ProgramError::NoMemory),
        }
    }

    /// The program, behind its last file.
    fn finish(self, alloc: Global) -> Result<Program, ProgramError>
        requires some { 0 < length self.units }
        requires few { length self.units ≤ 64 }
        requires within { IsOfFiles (reading_view self) }
        ensures merged { Finishes (reading_view self) result }
        ensures texts { IfOk result (λ program. IsOfTexts (unit_view program.unit)) }
    {
        merges_rename();
        names_stay_short();
        let Reading { sources, units } = self;
        let Sources { texts, .. } = sources;
        match merge(alloc, units) {
            Ok(unit) => Ok(Program { texts, unit }),
            Err(MergeError::Conflict { name, line }) => {
                Err(ProgramError::Conflict { texts, name, line })
            }
            Err(MergeError::NoMemory) => Err(ProgramError::NoMemory),
        }
    }
}

/// Reads the program of these files. The first that is refused is answered, and behind the last file the first conflict of their
/// units.
pub(crate) fn read_program<T: Texts>(
    alloc: Global,
    texts: &mut T,
    files: &[&str],
) -> Result<Program, ProgramError>
    requires texts { T.faults texts.old + 1 < 2 ^ 64 }
    requires some { 0 < length files.now }
    requires few { length files.now ≤ 64 }
    ensures told { ReadsFiles T.Texts texts.old (spelt files.now) result }
    ensures named { IfErr result (FailsIn (spelt files.now)) }
    ensures cause { CountsText (T.faults texts.old) (T.faults texts.new) result }
    ensures texts { IfOk result (λ program. IsOfTexts (unit_view program.unit)) }
{
    let mut reading = Reading::new(alloc);
    for file in files {
        reading = reading.with_file(alloc, texts, file)?;
    }
    reading.finish(alloc)
}
