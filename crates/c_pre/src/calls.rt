//! Calls of function-like macros, whose arguments are expanded.

ghost use Rattle.std.specs.Prelude.{◌≡◌, [], IfOk, OnOk};
ghost use Rattle.c_pre.specs.Expansion.{keeps_commas, is_separator, split_from, is_open, fits};
ghost use Rattle.c_pre.specs.Splitting.{argument_ended, token_kept, TakesToken};

use crate::directive::is_sign;
use crate::hidden::Hidden;
use crate::marked::Marked;
use crate::parameters::Parameters;
use crate::queue::Queue;
use crate::rest::Rest;
use c_lexer::Token;
use hs_base::{Items, Line, NoMemory};
use std::alloc::Global;
use std::mem::replace;

/// A call that waits while one of its arguments is expanded.
#[derive(Drop)]
pub(crate) struct Call {
    /// The name of its macro.
    pub(crate) name: Items<u8>,
    /// The line of that name.
    pub(crate) line: Line,
    /// What is hidden from the tokens that will stand in its place.
    pub(crate) hidden: Hidden,
    /// Its arguments that are expanded.
    pub(crate) expanded: Items<Items<Marked>>,
    /// Those behind the one that is being expanded.
    pub(crate) left: Queue<Rest>,
    /// What was done before it.
    pub(crate) done: Items<Marked>,
    /// The tokens behind it.
    pub(crate) rest: Rest,
}

/// What a call has behind its `(`.
#[derive(Drop)]
pub(crate) struct Split {
    /// Its arguments, at least one.
    pub(crate) args: Queue<Rest>,
    /// What is hidden from its `)`.
    pub(crate) hidden: Hidden,
    /// The tokens behind that.
    pub(crate) rest: Rest,
}

/// Whether the next token is a `(`.
pub(crate) fn is_open(rest: &Rest) -> bool
    ensures { result ≡ is_open rest.now }
{
    match rest.front() {
        Some(token) => is_sign(b'(', &token.token),
        None => false,
    }
}

/// The place of the argument that keeps its commas: the last of a variadic macro (C99 6.10.3).
pub(crate) fn keeps_commas(variadic: bool, parameters: &Parameters) -> Option<usize>
    ensures { result ≡ keeps_commas variadic parameters.now }
{
    if variadic {
        Some(parameters.len().saturating_sub(1))
    } else {
        None
    }
}

/// Whether a token is a comma that ends the argument at a place.
pub(crate) fn is_separator(keeps: Option<usize>, place: usize, token: &Token) -> bool
    ensures { result ≡ is_separator keeps place token.now }
{
    is_sign(b',', token)
        && match keeps {
            Some(keeps) => place < keeps,
            None => true,
        }
}

/// A call while its tokens are taken, behind its `(`.
#[derive(Drop)]
pub(crate) struct Splitting {
    /// How many `(` stand open.
    depth: u64,
    /// The arguments that have ended.
    args: Queue<Rest>,
    /// The tokens of the one that has not.
    current: Items<Marked>,
}

impl Splitting {
    /// Ends the argument that has not ended.
    fn end_argument(&mut self, alloc: Global) -> Result<(), NoMemory>
        ensures { OnOk result (self.new ≡ argument_ended self.old) }
    {
        let current = replace(&mut self.current, Items::new(alloc));
        self.args.push(Rest::of(alloc, current.into_vec())?)?;
        Ok(())
    }

    /// Adds a token to the argument that has not ended, behind which so many `(` stand open.
    fn keep(&mut self, depth: u64, marked: Marked) -> Result<(), NoMemory>
        ensures { OnOk result (self.new ≡ token_kept depth marked self.old) }
    {
        self.depth = depth;
        self.current.push(marked)
    }

    /// Takes the next token, and answers what is hidden from it where it is the `)` of the call.
    fn take(
        &mut self,
        alloc: Global,
        keeps: Option<usize>,
        marked: Marked,
    ) -> Result<Option<Hidden>, NoMemory>
        ensures { IfOk result (TakesToken keeps marked self.old self.new) }
    {
        let depth = self.depth;
        if is_sign(b')', &marked.token) {
            if depth == 0 {
                self.end_argument(alloc)?;
                return Ok(Some(marked.hidden));
            }
            self.keep(depth - 1, marked)?;
        } else if is_sign(b'(', &marked.token) {
            self.keep(depth.checked_add(1).ok_or(NoMemory)?, marked)?;
        } else if depth == 0 && is_separator(keeps, self.args.len(), &marked.token) {
            self.end_argument(alloc)?;
        } else {
            self.keep(depth, marked)?;
        }
        Ok(None)
    }
}

/// Splits what stands behind the `(` of a call into its arguments, token by token.
fn split_tokens(alloc: Global, keeps: Option<usize>, rest: Rest) -> Result<Option<Split>, NoMemory>
    ensures { IfOk result (λ split. split ≡ split_from keeps 0 [] [] rest) }
{
    let mut rest = rest;
    let mut splitting = Splitting {
        depth: 0,
        args: Queue::new(alloc),
        current: Items::new(alloc),
    };
    while let Some(marked) = rest.pop(alloc)? {
        if let Some(hidden) = splitting.take(alloc, keeps, marked)? {
            let Splitting { args, .. } = splitting;
            return Ok(Some(Split { args, hidden, rest }));
        }
    }
    Ok(None)
}

/// Splits what stands behind the `(` of a call into its arguments, at commas outside parentheses, but those of the argument at
/// the place that keeps them.
pub(crate) fn split_call(
    alloc: Global,
    keeps: Option<usize>,
    rest: Rest,
) -> Result<Option<Split>, NoMemory>
    ensures { IfOk result (λ split. split ≡ split_from keeps 0 [] [] rest) }
{
    let mut rest = rest;
    match rest.split(alloc, keeps)? {
        Some((args, hidden)) => Ok(Some(Split { args, hidden, rest })),
        None => split_tokens(alloc, keeps, rest),
    }
}

/// Whether a macro with these parameters takes these arguments: as many, or one that is empty where it has none. The last of a
/// variadic macro may be left out.
pub(crate) fn fits(variadic: bool, parameters: &Parameters, args: &Queue<Rest>) -> bool
    ensures { result ≡ fits variadic parameters.now args.now }
{
    let count = args.len();
    if parameters.len() == 0 {
        count == 1
            && match args.front() {
                Some(arg) => arg.is_empty(),
                None => false,
            }
    } else {
        parameters.len() == count || variadic && 0 < count && parameters.len() - 1 == count
    }
}
