//! Tokens with the names that are hidden from them.

ghost use Rattle.std.specs.Prelude.{◌≡◌, IfOk, map, option_copied};
ghost use Rattle.c_pre.specs.Expansion.{fresh, marked, put_on, macro_for};

use crate::copies::copied;
use crate::directive::is_name;
use crate::hidden::Hidden;
use crate::macros::{Defined, Macros};
use crate::rest::Rest;
use c_lexer::Token;
use hs_base::{Items, Line, NoMemory};
use std::alloc::Global;

/// A token of a run, with the macros that are hidden from it.
#[derive(Drop)]
pub(crate) struct Marked {
    pub(crate) token: Token,
    pub(crate) hidden: Hidden,
}

impl Marked {
    /// A copy.
    pub(crate) fn copied(&self, alloc: Global) -> Result<Marked, NoMemory>
        ensures { IfOk result (λ copy. copy ≡ self.now) }
    {
        Ok(Marked {
            token: Token {
                line: self.token.line,
                kind: self.token.kind,
                bytes: copied(alloc, self.token.bytes.as_slice())?,
            },
            hidden: self.hidden.share()?,
        })
    }
}

/// The macro of a token: of a name that is not hidden from it.
pub(crate) fn macro_for<'a>(macros: &'a Macros, token: &Marked) -> Option<&'a Defined>
    ensures { option_copied result ≡ macro_for macros.now token.now }
{
    if !is_name(&token.token) {
        return None;
    }
    match macros.find(token.token.bytes.as_slice()) {
        Some(found) if !token.hidden.has(found.number) => Some(found),
        _ => None,
    }
}

/// A copy of a token that is put in on a line, with more macros hidden from it.
pub(crate) fn put_on(
    alloc: Global,
    line: Line,
    numbers: &Hidden,
    token: &Token,
    hidden: &Hidden,
) -> Result<Marked, NoMemory>
    ensures { IfOk result (λ made. made ≡ put_on line numbers.now (marked token.now hidden.now)) }
{
    Ok(Marked {
        token: Token {
            line,
            kind: token.kind,
            bytes: copied(alloc, token.bytes.as_slice())?,
        },
        hidden: hidden.union(alloc, numbers)?,
    })
}

/// Tokens from which nothing is hidden.
pub(crate) fn fresh(alloc: Global, tokens: Items<Token>) -> Result<Rest, NoMemory>
    ensures { IfOk result (λ marked. marked ≡ map fresh tokens) }
{
    let mut marked = Vec::new(alloc);
    for token in tokens.into_vec() {
        marked.push(Marked {
            token,
            hidden: Hidden::new(),
        })?;
    }
    Rest::of(alloc, marked)
}
