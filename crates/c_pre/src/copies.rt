//! Copies of lists.

ghost use Rattle.std.specs.Prelude.{◌≡◌, IfOk};

use c_lexer::Token;
use hs_base::{Items, NoMemory};
use std::alloc::Global;

/// A copy of some bytes.
pub(crate) fn copied(alloc: Global, bytes: &[u8]) -> Result<Items<u8>, NoMemory>
    ensures { IfOk result (λ copy. copy ≡ bytes.now) }
{
    Ok(Items::from(Vec::from_slice(alloc, bytes)?))
}

/// A copy of some tokens.
pub(crate) fn copied_tokens(alloc: Global, tokens: &[Token]) -> Result<Items<Token>, NoMemory>
    ensures { IfOk result (λ copy. copy ≡ tokens.now) }
{
    let mut copies = Items::new(alloc);
    for token in tokens {
        copies.push(Token {
            line: token.line,
            kind: token.kind,
            bytes: copied(alloc, token.bytes.as_slice())?,
        })?;
    }
    Ok(copies)
}
