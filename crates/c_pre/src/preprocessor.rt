//! Texts, and the texts that they include.

ghost use Rattle.std.specs.Prelude.{◌≡◌, ℕ, ◌+◌, ◌*◌, ◌<◌, ◌≤◌, ◌^◌, List, Some, length, All, IfOk, IfErr, OnOk};
ghost use Rattle.c_pre.specs.Formed.{IsFormed, Formed};
ghost use Rattle.c_pre.specs.Texts.{most_bytes, line_count, refused, with_text, opened};
ghost use Rattle.c_pre.specs.Answering.{Gives, EntersTold, ComesTold, GivesBehind, GivesTold, CountsFault, FailsAt, FailsBelow};
ghost use Rattle.c_pre.specs.Bounds.{Adds, Opens, Grows, Lengthens, most_tokens};

use crate::answer::{Opened, Place, Pre, PreError, PreKind, Refusal, Sources};
use crate::comments::{blanked, open_comment};
use crate::copies::copied;
use crate::here::Here;
use crate::lines::first_line;
use crate::macros::Macros;
use crate::progress::Progress;
use crate::qualifiers::plain_tokens;
use crate::splices::{joined, unmark};
use crate::text_name::TextName;
use c_lexer::{LexKind, Token, pieces_are_the_cut};
use hs_base::{Items, Line, NoMemory, ReadError, Texts, read_all};
use std::alloc::Global;

/// How many bytes all texts of a run may have.
const MOST_BYTES: u32 = 1_048_576;

/// How many texts may be open, one in another.
const MOST_DEPTH: u32 = 16;

/// A text that is open.
#[derive(Drop)]
pub(crate) struct Source {
    name: Items<u8>,
    /// Its bytes as they were read.
    text: Items<u8>,
    /// Its bytes with spaces in place of comments, and its lines joined where they go on.
    plain: Items<u8>,
    /// The number of lines of the texts that were opened before.
    base: Line,
}

impl Source {
    /// The error for a line of this text that is refused.
    fn refused(self, refusal: Refusal) -> PreError
        ensures { result ≡ refused self refusal }
    {
        let Source { name, text, .. } = self;
        match refusal {
            Refusal::Bad { kind, line } => PreError::Bad {
                kind,
                at: Place { name, line, text },
            },
            Refusal::Lex { kind, line } => PreError::Lex {
                kind,
                at: Place { name, line, text },
            },
            Refusal::NoMemory => PreError::NoMemory,
        }
    }
}

/// How many lines a text has: one more than its bytes 10.
fn line_count(text: &[u8]) -> Line
    requires { length text.now ≤ most_bytes }
    ensures count { result ≡ line_count text.now }
    ensures bound { result ≤ length text.now + 1 }
{
    text.iter().filter(|byte| **byte == b'\n').count() as Line + 1
}

/// Opens a text: its comments become spaces, and lines that go on are joined.
#[tactic(auto, unfolding(crate::specs::Texts::opened))]
fn open_source(
    alloc: Global,
    name: Items<u8>,
    text: Items<u8>,
    base: Line,
) -> Result<Source, PreError>
    requires { length text ≤ most_bytes }
    ensures opened { Gives (opened name text base) result }
    ensures steady { (faults : ℕ) → CountsFault faults faults result }
    ensures named { (failed : List ℕ) → IfErr result (FailsAt failed) }
    ensures len { IfOk result (λ s. (length s.plain ≡ length text) × (s.base ≡ base)) }
{
    let comment = open_comment(text.as_slice());
    let mut blank = blanked(alloc, text.as_slice())?;
    unmark(&mut blank);
    let plain = Items::from(joined(alloc, blank.as_slice())?);
    let source = Source {
        name,
        text,
        plain,
        base,
    };
    match comment {
        None => Ok(source),
        Some(line) => Err(source.refused(Refusal::Lex {
            kind: LexKind::OpenComment,
            line,
        })),
    }
}

impl Progress {
    /// Keeps a text that was read.
    fn add_text(&mut self, alloc: Global, name: &TextName, text: &Items<u8>) -> Result<(), NoMemory>
        requires used { self.old.used + length text.now ≤ most_bytes }
        requires lines { self.old.lines ≤ 2 * self.old.used + 63 }
        ensures { OnOk result (self.new ≡ with_text name.now text.now self.old) }
    {
        self.texts.push(Opened {
            name: name.bytes(alloc)?,
            base: self.lines,
            text: copied(alloc, text.as_slice())?,
        })?;
        self.lines += line_count(text.as_slice());
        self.used += text.len() as u32;
        Ok(())
    }
}

impl Progress {
    /// Reads the text of a name and opens it.
    #[tactic(auto, unfolding(crate::specs::Texts::entered))]
    fn open<T: Texts>(
        &mut self,
        alloc: Global,
        texts: &mut T,
        name: TextName,
    ) -> Result<Source, PreError>
        requires count { T.faults texts.old + 1 < 2 ^ 64 }
        requires used { self.old.used ≤ most_bytes }
        requires lines { self.old.lines ≤ 2 * self.old.used + 63 }
        ensures told { EntersTold (T.texts texts.old) name self.old self.new result }
        ensures opens { IfOk result (Opens self.old self.new) }
        ensures named { IfErr result (FailsAt name) }
        ensures keeps { T.texts texts.new ≡ T.texts texts.old }
        ensures cause { CountsFault (T.faults texts.old) (T.faults texts.new) result }
    {
        let text = match read_all(alloc, texts, name.as_str(), MOST_BYTES - self.used) {
            Ok(text) => text,
            Err(ReadError::Fault) => {
                return Err(PreError::Fault {
                    name: name.into_bytes(),
                });
            }
            Err(ReadError::TooLong) => {
                return Err(PreError::TooLong {
                    name: name.into_bytes(),
                });
            }
            Err(ReadError::NoMemory) => return Err(PreError::NoMemory),
        };
        let base = self.lines;
        self.add_text(alloc, &name, &text)?;
        open_source(alloc, name.into_bytes(), text, base)
    }

    /// Reads the text of a name, and all that it includes. So many more texts may be open, one in another.
    fn read_text<T: Texts>(
        &mut self,
        alloc: Global,
        texts: &mut T,
        name: TextName,
        left: u32,
    ) -> Result<(), PreError>
        requires count { T.faults texts.old + 1 < 2 ^ 64 }
        requires used { self.old.used ≤ most_bytes }
        requires lines { self.old.lines ≤ 2 * self.old.used + 63 }
        ensures told { ComesTold (T.texts texts.old) left name self.old self.new result }
        ensures grows { OnOk result (Grows self.old self.new) }
        ensures formed { Formed self.old → OnOk result (Formed self.new) }
        ensures adds { Formed self.old → OnOk result (Adds self.old self.new) }
        ensures named { Formed self.old → IfErr result (FailsBelow name) }
        ensures keeps { T.texts texts.new ≡ T.texts texts.old }
        ensures cause { CountsFault (T.faults texts.old) (T.faults texts.new) result }
    {
        pieces_are_the_cut();
        let source = self.open(alloc, texts, name)?;
        let mut here = Here::new(alloc, source.base);
        let mut at = 0;
        'lines: while at < source.plain.len() {
            let line = first_line(&source.plain.as_slice()[at..]);
            at += line.len();
            let include = match self.read_line(alloc, &mut here, line) {
                Ok(include) => include,
                Err(refusal) => return Err(source.refused(refusal)),
            };
            if let Some(name) = include {
                if left == 0 {
                    return Err(source.refused(Refusal::Bad {
                        kind: PreKind::Depth,
                        line: here.line,
                    }));
                }
                self.read_text(alloc, texts, name, left - 1)?;
            }
            here.line += 1;
        }
        match self.end_text(alloc, &here) {
            Ok(()) => Ok(()),
            Err(refusal) => Err(source.refused(refusal)),
        }
    }
}

/// The tokens of a text and of all texts that it includes, with their directives obeyed and their macros replaced, and the
/// texts that were opened before and by the call. All of them may have 1,048,576 bytes together. A token's line is counted
/// over all of them.
///
/// # Errors
///
/// [`PreError::Bad`] and [`PreError::Lex`] at the first line that is refused, [`PreError::Fault`] exactly where the texts
/// failed, at the file or a text that an include names, [`PreError::TooLong`] exactly where one byte too many was read, and
/// [`PreError::NoMemory`] only for want of memory.
pub fn pre_behind<T: Texts>(
    alloc: Global,
    texts: &mut T,
    file: &str,
    before: Sources,
) -> Result<(Items<Token>, Sources), PreError>
    requires count { T.faults texts.old + 1 < 2 ^ 64 }
    requires used { before.used ≤ most_bytes }
    requires lines { before.lines ≤ 2 * before.used + 63 }
    ensures told { GivesBehind (T.texts texts.old) before file.now result }
    ensures forms { IfOk result (λ read. All IsFormed read.0) }
    ensures bounds { IfOk result (λ read. Lengthens before read.1 (length read.0)) }
    ensures named { IfErr result (FailsBelow file.now) }
    ensures keeps { T.texts texts.new ≡ T.texts texts.old }
    ensures cause { CountsFault (T.faults texts.old) (T.faults texts.new) result }
{
    let name = TextName::new(alloc, file)?;
    let mut progress = Progress {
        tokens: Items::new(alloc),
        texts: before.texts,
        lines: before.lines,
        used: before.used,
        macros: Macros::new(alloc),
        work: 0,
    };
    progress.read_text(alloc, texts, name, MOST_DEPTH - 1)?;
    let Progress {
        tokens,
        texts,
        lines,
        used,
        ..
    } = progress;
    Ok((plain_tokens(alloc, tokens)?, Sources { texts, lines, used }))
}

/// What [`pre_behind`] gives of a text alone, where so many bytes were read before the call.
///
/// # Errors
///
/// Those of [`pre_behind`].
pub fn pre<T: Texts>(alloc: Global, texts: &mut T, file: &str, used: u32) -> Result<Pre, PreError>
    requires count { T.faults texts.old + 1 < 2 ^ 64 }
    requires used { used ≤ most_bytes }
    ensures told { GivesTold (T.texts texts.old) file.now used result }
    ensures forms { IfOk result (λ pre. All IsFormed pre.tokens) }
    ensures few { IfOk result (λ pre. length pre.tokens ≤ most_tokens) }
    ensures named { IfErr result (FailsBelow file.now) }
    ensures keeps { T.texts texts.new ≡ T.texts texts.old }
    ensures cause { CountsFault (T.faults texts.old) (T.faults texts.new) result }
{
    let before = Sources::new(alloc, used);
    let (tokens, Sources { texts, used, .. }) = pre_behind(alloc, texts, file, before)?;
    Ok(Pre {
        tokens,
        texts,
        used,
    })
}
