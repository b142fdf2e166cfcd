//! Words without effect: each is read as `const`, which has none either.

ghost use Rattle.std.specs.Prelude.{◌≡◌, bytes_eq, IfOk, map};
ghost use Rattle.std.specs.List.{list_any};
ghost use Rattle.c_pre.specs.Qualifiers.{is_idle, plain_token};

use crate::copies::copied;
use c_lexer::{Token, TokenKind};
use hs_base::{Items, NoMemory};
use std::alloc::Global;

/// Whether a word is one of these.
fn is_among(word: &[u8], words: &[&[u8]]) -> bool
    ensures { result ≡ list_any (λ w. bytes_eq word.now w.now) words.now }
{
    words.iter().any(|other| word == *other)
}

/// Whether a word is one without effect (C99 6.7.1, 6.7.3 and 6.7.4).
#[tactic(auto, unfolding(crate::specs::Qualifiers::is_idle))]
fn is_idle(word: &[u8]) -> bool
    ensures { result ≡ is_idle word.now }
{
    is_among(
        word,
        &[b"auto", b"inline", b"register", b"restrict", b"volatile"],
    )
}

/// A token, with `const` in place of a word without effect.
#[tactic(auto, unfolding(crate::specs::Qualifiers::plain_token))]
fn plain_token(alloc: Global, token: Token) -> Result<Token, NoMemory>
    ensures { IfOk result (λ plain. plain ≡ plain_token token) }
{
    if !is_idle(token.bytes.as_slice()) {
        return Ok(token);
    }
    Ok(Token {
        line: token.line,
        kind: TokenKind::Keyword,
        bytes: copied(alloc, b"const")?,
    })
}

/// Some tokens, with `const` in place of each word without effect.
pub(crate) fn plain_tokens(alloc: Global, tokens: Items<Token>) -> Result<Items<Token>, NoMemory>
    ensures { IfOk result (λ plain. plain ≡ map plain_token tokens) }
{
    let mut plain = Items::new(alloc);
    for token in tokens.into_vec() {
        plain.push(plain_token(alloc, token)?)?;
    }
    Ok(plain)
}
