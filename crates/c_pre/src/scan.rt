//! The replacement of macros in a run of text lines (C99 6.10.3).

ghost use Rattle.std.specs.Prelude.{[]};
ghost use Rattle.c_pre.specs.Expansion.{replaced, expanded};
ghost use Rattle.c_pre.specs.Steps.{put_in, replaced_in, kept, call_begun, at_call, at_macro, ended, argument_ended, step};
ghost use Rattle.c_pre.specs.Macros.{found};
ghost use Rattle.c_pre.specs.Answering.{StepsTo, Answers};

use crate::answer::{PreKind, Refusal};
use crate::calls::{Call, Split, fits, is_open, keeps_commas, split_call};
use crate::hidden::Hidden;
use crate::macros::{Defined, Macro, Macros};
use crate::marked::{Marked, fresh, macro_for};
use crate::memo::Memo;
use crate::parameters::Parameters;
use crate::rest::Rest;
use crate::stack::Stack;
use crate::substitute::replaced;
use c_lexer::Token;
use hs_base::{Items, Line};
use std::alloc::Global;
use std::mem::replace;

/// The most work of all texts: one for each replacement, and one for each token that it puts in.
const MOST_WORK: u32 = 4_000_000;

/// A run while its macros are replaced.
#[derive(Drop)]
pub(crate) struct Scan {
    /// The tokens that are done, of the innermost call's argument or of the run.
    pub(crate) done: Items<Marked>,
    /// Those that are left of it.
    pub(crate) rest: Rest,
    /// The calls that wait, the innermost last.
    pub(crate) calls: Stack<Call>,
    /// The work so far.
    pub(crate) work: u32,
}

impl Scan {
    /// Puts in what stands in place of a macro, if the work allows it.
    fn put_in(
        &mut self,
        alloc: Global,
        line: Line,
        numbers: &Hidden,
        expanded: &[Items<Marked>],
        it: &Macro,
    ) -> Result<bool, Refusal>
        ensures { StepsTo (replaced_in line numbers.now expanded.now it.now self.old) self.new result }
    {
        let room = MOST_WORK.saturating_sub(self.work);
        let found = if room == 0 {
            None
        } else {
            replaced(alloc, line, numbers, expanded, it, room as usize - 1)?
        };
        match found {
            Some(tokens) => {
                self.work += 1 + tokens.len() as u32;
                self.rest.put_in_front(alloc, tokens.into_vec())?;
                Ok(true)
            }
            None => Err(Refusal::Bad {
                kind: PreKind::Work,
                line,
            }),
        }
    }

    /// A token is done.
    fn keep(&mut self, token: Marked) -> Result<bool, Refusal>
        ensures { StepsTo (kept token self.old) self.new result }
    {
        self.done.push(token)?;
        Ok(true)
    }

    /// Begins a call: the first of its arguments is scanned, and it waits.
    fn begin(
        &mut self,
        alloc: Global,
        memo: &mut Memo,
        token: Marked,
        number: u32,
        split: Split,
    ) -> Result<bool, Refusal>
        ensures { StepsTo (call_begun token number split self.old) self.new result }
    {
        let both = token.hidden.intersection(alloc, &split.hidden)?;
        let hidden = memo.with(alloc, &both, number)?;
        let Split { args, rest, .. } = split;
        let mut left = args;
        let first = match left.pop() {
            Some(arg) => arg,
            None => Rest::new(alloc),
        };
        let done = replace(&mut self.done, Items::new(alloc));
        let Marked { token, .. } = token;
        self.calls.push(Call {
            name: token.bytes,
            line: token.line,
            hidden,
            expanded: Items::new(alloc),
            left,
            done,
            rest,
        })?;
        self.rest = first;
        Ok(true)
    }

    /// At a call of a function-like macro with these parameters: its `(` is the next token.
    fn at_call(
        &mut self,
        alloc: Global,
        memo: &mut Memo,
        token: Marked,
        found: &Defined,
        parameters: &Parameters,
    ) -> Result<bool, Refusal>
        ensures { StepsTo (at_call token found.now parameters.now self.old) self.new result }
    {
        let line = token.token.line;
        let mut rest = replace(&mut self.rest, Rest::new(alloc));
        let _ = rest.pop(alloc)?;
        let variadic = found.it.variadic;
        if let Some(split) = split_call(alloc, keeps_commas(variadic, parameters), rest)? {
            if fits(variadic, parameters, &split.args) {
                return self.begin(alloc, memo, token, found.number, split);
            }
        }
        Err(Refusal::Bad {
            kind: PreKind::Arguments,
            line,
        })
    }

    /// At a name of a macro: a function-like one is replaced only before a `(`.
    fn at_macro(
        &mut self,
        alloc: Global,
        memo: &mut Memo,
        token: Marked,
        found: &Defined,
    ) -> Result<bool, Refusal>
        ensures { StepsTo (at_macro token found.now found.now.it.parameters self.old) self.new result }
    {
        match &found.it.parameters {
            None => {
                let hidden = memo.with(alloc, &token.hidden, found.number)?;
                self.put_in(alloc, token.token.line, &hidden, &[], &found.it)
            }
            Some(parameters) => {
                if is_open(&self.rest) {
                    self.at_call(alloc, memo, token, found, parameters)
                } else {
                    self.keep(token)
                }
            }
        }
    }

    /// Behind the last argument of a call: its macro is replaced.
    fn end_call(&mut self, alloc: Global, macros: &Macros, call: Call) -> Result<bool, Refusal>
        ensures { StepsTo (ended call (found call.name macros.now) self.old) self.new result }
    {
        let Some(found) = macros.find(call.name.as_slice()) else {
            return Err(Refusal::NoMemory);
        };
        self.done = call.done;
        self.rest = call.rest;
        self.put_in(
            alloc,
            call.line,
            &call.hidden,
            call.expanded.as_slice(),
            &found.it,
        )
    }

    /// Behind an argument of a call: the next is scanned, or the call ends.
    fn end_argument(&mut self, alloc: Global, macros: &Macros, call: Call) -> Result<bool, Refusal>
        ensures { StepsTo (argument_ended macros.now call self.old) self.new result }
    {
        let mut call = call;
        let done = replace(&mut self.done, Items::new(alloc));
        call.expanded.push(done)?;
        match call.left.pop() {
            Some(arg) => {
                self.rest = arg;
                self.calls.push(call)?;
                Ok(true)
            }
            None => self.end_call(alloc, macros, call),
        }
    }

    /// Makes one step, and says whether there may be more.
    #[tactic(auto, unfolding(crate::specs::Steps::step))]
    fn step(&mut self, alloc: Global, macros: &Macros, memo: &mut Memo) -> Result<bool, Refusal>
        ensures { StepsTo (step macros.now self.old) self.new result }
    {
        match self.rest.pop(alloc)? {
            Some(token) => match macro_for(macros, &token) {
                Some(found) => self.at_macro(alloc, memo, token, found),
                None => self.keep(token),
            },
            None => match self.calls.pop() {
                Some(call) => self.end_argument(alloc, macros, call),
                None => Ok(false),
            },
        }
    }
}

/// The tokens of a run with its macros replaced.
#[derive(Drop)]
pub(crate) struct Expanded {
    pub(crate) tokens: Items<Marked>,
    /// The work behind it.
    pub(crate) work: u32,
}

/// Replaces the macros of a run, behind so much work.
pub(crate) fn expand(
    alloc: Global,
    macros: &Macros,
    tokens: Items<Token>,
    work: u32,
) -> Result<Expanded, Refusal>
    ensures { Answers (expanded macros.now tokens work) result }
{
    let mut scan = Scan {
        done: Items::new(alloc),
        rest: fresh(alloc, tokens)?,
        calls: Stack::new(alloc),
        work,
    };
    let mut memo = Memo::new(alloc);
    'steps: while scan.step(alloc, macros, &mut memo)? {}
    let Scan { done, work, .. } = scan;
    Ok(Expanded { tokens: done, work })
}
