//! What was read so far.

ghost use Rattle.std.specs.Prelude.{◌≡◌, [], ◌+◌, ◌-◌, ◌<◌, ◌^◌, ◌++◌, All, OnOk, length, map};
ghost use Rattle.c_pre.specs.Reading.{lexed, rest_lexed, moved, plain, run_expanded, run_ended, obeyed, directive_on, directed_from, directed, passed, line_read, text_ended};
ghost use Rattle.c_pre.specs.Conditions.{condition_asked};
ghost use Rattle.c_pre.specs.Answering.{Answers, Asks, Leaves, GivesLexed, Steps};
ghost use Rattle.c_pre.specs.Bounds.{Keeps, Stays, Counts, Fits};

use crate::answer::{Opened, PreKind, Refusal};
use crate::comments::begins_with;
use crate::conditions::{answered, without_words};
use crate::directive::{Directive, read_directive};
use crate::groups::Groups;
use crate::here::Here;
use crate::lines::{behind_spaces, directive_rest, first_word};
use crate::macros::Macros;
use crate::marked::Marked;
use crate::scan::{Expanded, expand};
use crate::text_name::TextName;
use c_conditions::condition_holds;
use c_lexer::{LexError, LexKind, Token, include_end, lex, pieces_are_the_cut};
use hs_base::{Items, Line, NoMemory};
use std::alloc::Global;

/// What the lines so far gave.
#[derive(Drop)]
pub(crate) struct Progress {
    pub(crate) tokens: Items<Token>,
    /// The texts that were opened, in order.
    pub(crate) texts: Items<Opened>,
    /// How many lines these have.
    pub(crate) lines: Line,
    /// How many bytes were read.
    pub(crate) used: u32,
    /// The macros that are defined.
    pub(crate) macros: Macros,
    /// The work that replacing macros took.
    pub(crate) work: u32,
}

/// The tokens of some text lines.
fn read_tokens(alloc: Global, text: &[u8]) -> Result<Items<Token>, LexError>
    requires { length text.now < 2 ^ 32 }
    ensures { GivesLexed (lexed text.now) (length text.now + 1) result }
{
    pieces_are_the_cut();
    lex(alloc, text)
}

/// The tokens behind the `#` of a directive. Another `#` there begins nothing.
fn read_rest(alloc: Global, rest: &[u8]) -> Result<Items<Token>, LexError>
    requires { length rest.now < 2 ^ 32 }
    ensures { GivesLexed (rest_lexed rest.now) (length rest.now + 1) result }
{
    if begins_with(b'#', behind_spaces(rest)) {
        return Err(LexError::Bad {
            kind: LexKind::BadByte,
            line: 1,
        });
    }
    read_tokens(alloc, rest)
}

/// The directive of a line, by what stands behind its `#`.
fn find_directive(alloc: Global, line: Line, rest: &[u8]) -> Result<Directive, Refusal>
    requires { length rest.now < 2 ^ 32 }
    ensures { Answers (directive_on line rest.now) result }
{
    let word = first_word(rest);
    if word == b"pragma".as_slice() {
        return Ok(Directive::Empty);
    }
    if word == b"error".as_slice() {
        return Err(Refusal::Bad {
            kind: PreKind::Error,
            line,
        });
    }
    let tokens = match read_rest(alloc, rest) {
        Ok(tokens) => tokens,
        Err(LexError::Bad { kind, .. }) => return Err(Refusal::Lex { kind, line }),
        Err(LexError::NoMemory) => return Err(Refusal::NoMemory),
    };
    match read_directive(alloc, rest, tokens.as_slice())? {
        Some(directive) => Ok(directive),
        None => Err(Refusal::Bad {
            kind: PreKind::Directive,
            line,
        }),
    }
}

/// The refusal of a line whose rest is no condition.
fn no_condition(line: Line) -> Refusal
    ensures { result ≡ Refusal.Bad PreKind.Condition line }
{
    Refusal::Bad {
        kind: PreKind::Condition,
        line,
    }
}

/// Puts tokens behind others, so many lines further down.
fn append(to: &mut Items<Token>, tokens: Items<Token>, lines: Line) -> Result<(), NoMemory>
    requires { All (λ token. token.line + lines < 2 ^ 32) tokens }
    ensures { OnOk result (to.new ≡ to.old ++ map (moved lines) tokens) }
{
    if lines == 0 && to.is_empty() {
        *to = tokens;
        return Ok(());
    }
    for token in tokens.into_vec() {
        let Token { line, kind, bytes } = token;
        to.push(Token {
            line: lines + line,
            kind,
            bytes,
        })?;
    }
    Ok(())
}

/// Puts tokens behind others, without what is hidden from them.
fn append_plain(to: &mut Items<Token>, tokens: Items<Marked>) -> Result<(), NoMemory>
    ensures { OnOk result (to.new ≡ to.old ++ map plain tokens) }
{
    for marked in tokens.into_vec() {
        let Marked { token, .. } = marked;
        to.push(token)?;
    }
    Ok(())
}

impl Progress {
    /// Replaces the macros of a run and takes its tokens.
    fn replace_macros(
        &mut self,
        alloc: Global,
        base: Line,
        tokens: Items<Token>,
    ) -> Result<(), Refusal>
        ensures run { Leaves (run_expanded base tokens self.old) self.new result }
        ensures counts { OnOk result (Counts self.old self.new) }
    {
        match expand(alloc, &self.macros, tokens, self.work) {
            Ok(Expanded { tokens, work }) => {
                self.work = work;
                append_plain(&mut self.tokens, tokens)?;
                Ok(())
            }
            Err(Refusal::Bad { kind, line }) => Err(Refusal::Bad {
                kind,
                line: line.saturating_sub(base),
            }),
            Err(Refusal::Lex { kind, line }) => Err(Refusal::Lex {
                kind,
                line: line.saturating_sub(base),
            }),
            Err(Refusal::NoMemory) => Err(Refusal::NoMemory),
        }
    }

    /// Takes the tokens of a run, so many lines further down, where no macro is defined: none is replaced.
    fn take_tokens(&mut self, base: Line, lines: Line, tokens: Items<Token>) -> Result<(), Refusal>
        requires none { self.old.macros.names ≡ [] }
        requires lines { All (λ token. token.line + lines < 2 ^ 32) tokens }
        ensures run { Leaves (run_expanded base (map (moved lines) tokens) self.old) self.new result }
        ensures counts { OnOk result (Counts self.old self.new) }
    {
        append(&mut self.tokens, tokens, lines)?;
        Ok(())
    }

    /// Ends the run of text lines since the last directive.
    #[tactic(auto, unfolding(crate::specs::Reading::run_ended))]
    fn end_run(&mut self, alloc: Global, here: &Here) -> Result<(), Refusal>
        requires { Fits here.now 0 }
        ensures run { Leaves (run_ended here.now self.old) self.new result }
        ensures counts { OnOk result (Counts self.old self.new) }
    {
        let above = here.run_line.saturating_sub(1);
        match read_tokens(alloc, here.run.as_slice()) {
            Ok(tokens) => {
                let lines = here.base + above;
                if self.macros.is_empty() {
                    return self.take_tokens(here.base, lines, tokens);
                }
                let mut moved = Items::new(alloc);
                append(&mut moved, tokens, lines)?;
                self.replace_macros(alloc, here.base, moved)
            }
            Err(LexError::Bad { kind, line }) => Err(Refusal::Lex {
                kind,
                line: above + line,
            }),
            Err(LexError::NoMemory) => Err(Refusal::NoMemory),
        }
    }

    /// Whether the condition of a line holds, by its tokens.
    #[tactic(auto, unfolding(crate::specs::Conditions::condition_asked))]
    fn ask(&mut self, alloc: Global, line: Line, tokens: Items<Token>) -> Result<bool, Refusal>
        ensures asks { Asks (condition_asked line tokens self.old) self.new result }
        ensures counts { OnOk result (Counts self.old self.new) }
    {
        let Some(tokens) = answered(alloc, &self.macros, tokens.as_slice())? else {
            return Err(no_condition(line));
        };
        let Expanded { tokens, work } = match expand(alloc, &self.macros, tokens, self.work) {
            Ok(expanded) => expanded,
            Err(refusal) => return Err(refusal.on_line(line)),
        };
        let Some(tokens) = without_words(alloc, tokens)? else {
            return Err(no_condition(line));
        };
        let Some(holds) = condition_holds(alloc, tokens.as_slice())? else {
            return Err(no_condition(line));
        };
        self.work = work;
        Ok(holds)
    }

    /// Goes on behind a directive, and answers the name of the text that it includes, if it includes one.
    #[tactic(auto, unfolding(crate::specs::Reading::obeyed))]
    fn obey(
        &mut self,
        alloc: Global,
        here: &mut Here,
        directive: Directive,
    ) -> Result<Option<TextName>, Refusal>
        ensures step { Steps (obeyed directive here.old self.old) here.new self.new result }
        ensures keeps { OnOk result (Keeps here.old here.new) }
        ensures counts { OnOk result (Counts self.old self.new) }
    {
        match directive {
            Directive::Empty => {}
            Directive::Include(name) => return Ok(Some(name)),
            Directive::Define(it) => self.macros.define(alloc, here.line, it)?,
            Directive::Undefine(name) => self.macros.undefine(alloc, name.as_slice())?,
            Directive::Group { name, defined } => {
                let live = self.macros.find(name.as_slice()).is_some() == defined;
                here.groups.open(here.line, live)?;
            }
            Directive::If(tokens) => {
                let holds = self.ask(alloc, here.line, tokens)?;
                here.groups.open(here.line, holds)?;
            }
            Directive::ElseIf(tokens) => {
                let holds = self.ask(alloc, here.line, tokens)?;
                here.groups.branch(here.line, holds)?;
            }
            Directive::Else => here.groups.turn(here.line)?,
            Directive::EndIf => here.groups.close(here.line)?,
        }
        Ok(None)
    }
}

impl Progress {
    /// Goes on behind a directive that is read, behind the run before it.
    fn direct_behind(
        &mut self,
        alloc: Global,
        here: &mut Here,
        line: &[u8],
        rest: &[u8],
    ) -> Result<Option<TextName>, Refusal>
        requires fits { Fits here.old (length line.now) }
        requires rest { length rest.now < 2 ^ 32 }
        ensures step { Steps (directed_from line.now rest.now here.old self.old) here.new self.new result }
        ensures stays { OnOk result (Stays here.old here.new (length line.now)) }
        ensures counts { OnOk result (Counts self.old self.new) }
    {
        if include_end(rest).is_some() {
            here.begin_with(line)?;
            return Ok(None);
        }
        if here.groups.is_over(first_word(rest)) {
            here.begin_run();
            here.groups.branch(here.line, false)?;
            return Ok(None);
        }
        let directive = find_directive(alloc, here.line, rest)?;
        here.begin_run();
        self.obey(alloc, here, directive)
    }

    /// Goes on behind a directive that is read. The run before it ends first.
    #[tactic(auto, unfolding(crate::specs::Reading::directed))]
    fn direct(
        &mut self,
        alloc: Global,
        here: &mut Here,
        line: &[u8],
        rest: &[u8],
    ) -> Result<Option<TextName>, Refusal>
        requires fits { Fits here.old (length line.now) }
        requires rest { length rest.now < 2 ^ 32 }
        ensures step { Steps (directed line.now rest.now here.old self.old) here.new self.new result }
        ensures stays { OnOk result (Stays here.old here.new (length line.now)) }
        ensures counts { OnOk result (Counts self.old self.new) }
    {
        self.end_run(alloc, here)?;
        self.direct_behind(alloc, here, line, rest)
    }

    /// Goes on behind a line, and answers the name of the text that it includes, if it includes one.
    #[tactic(auto, unfolding(crate::specs::Reading::line_read, crate::specs::Reading::passed))]
    pub(crate) fn read_line(
        &mut self,
        alloc: Global,
        here: &mut Here,
        line: &[u8],
    ) -> Result<Option<TextName>, Refusal>
        requires { Fits here.old (length line.now) }
        ensures step { Steps (line_read line.now here.old self.old) here.new self.new result }
        ensures stays { OnOk result (Stays here.old here.new (length line.now)) }
        ensures counts { OnOk result (Counts self.old self.new) }
    {
        let Some(rest) = directive_rest(line) else {
            here.take_text(line)?;
            return Ok(None);
        };
        let word = first_word(rest);
        if here.groups.is_read(word) {
            return self.direct(alloc, here, line, rest);
        }
        here.begin_run();
        here.groups.pass(word, here.line)?;
        Ok(None)
    }

    /// Goes on behind the last line of a text.
    #[tactic(auto, unfolding(crate::specs::Reading::text_ended))]
    pub(crate) fn end_text(&mut self, alloc: Global, here: &Here) -> Result<(), Refusal>
        requires { Fits here.now 0 }
        ensures text { Leaves (text_ended here.now self.old) self.new result }
        ensures counts { OnOk result (Counts self.old self.new) }
    {
        self.end_run(alloc, here)?;
        match here.groups.first_line() {
            None => Ok(()),
            Some(line) => Err(Refusal::Bad {
                kind: PreKind::Unbalanced,
                line,
            }),
        }
    }
}
