//! Conditions of `#if` and `#elif`, as far as macros are asked (C99 6.10.1).

ghost use Rattle.std.specs.Prelude.{◌≡◌, IfOk, option_map};
ghost use Rattle.std.specs.List.{list_any};
ghost use Rattle.c_pre.specs.Asking.{question_now, AnswersFirst};
ghost use Rattle.c_pre.specs.Conditions.{is_word, is_defined, digit, answer, answered, question_closed, question_inside, question, zeroed, is_defined_word, without_words};

use crate::copies::copied;
use crate::directive::{is_name, is_sign};
use crate::macros::Macros;
use crate::marked::Marked;
use c_lexer::{Token, TokenKind};
use hs_base::{Items, Line, NoMemory};
use std::alloc::Global;

/// Whether a token is a word: a name or a keyword, which the preprocessor does not tell apart.
fn is_word(token: &Token) -> bool
    ensures { result ≡ is_word token.now }
{
    matches!(token.kind, TokenKind::Name | TokenKind::Keyword)
}

/// Whether a token is the name `defined`.
fn is_defined(token: &Token) -> bool
    ensures { result ≡ is_defined token.now }
{
    is_name(token) && token.bytes.as_slice() == b"defined".as_slice()
}

/// 1 or 0, in place of a token.
fn digit(alloc: Global, holds: bool, token: &Token) -> Result<Token, NoMemory>
    ensures { IfOk result (λ made. made ≡ digit holds token.now) }
{
    let byte = if holds { b'1' } else { b'0' };
    Ok(Token {
        line: token.line,
        kind: TokenKind::Int,
        bytes: copied(alloc, [byte].as_slice())?,
    })
}

/// Whether a name has a macro, in its place.
fn answer(alloc: Global, macros: &Macros, name: &Token) -> Result<Token, NoMemory>
    ensures { IfOk result (λ made. made ≡ answer macros.now name.now) }
{
    digit(alloc, macros.find(name.bytes.as_slice()).is_some(), name)
}

/// A copy of a token.
fn copied_token(alloc: Global, token: &Token) -> Result<Token, NoMemory>
    ensures { IfOk result (λ copy. copy ≡ token.now) }
{
    Ok(Token {
        line: token.line,
        kind: token.kind,
        bytes: copied(alloc, token.bytes.as_slice())?,
    })
}

/// The name that is asked for, before its `)`, and what stands behind that.
fn question_closed<'a>(name: &'a Token, tokens: &'a [Token]) -> Option<(&'a Token, &'a [Token])>
    ensures { option_map question_now result ≡ question_closed name.now tokens.now }
{
    match tokens {
        [close, behind @ ..] if is_sign(b')', close) => Some((name, behind)),
        _ => None,
    }
}

/// The name that is asked for, behind its `(`, and what stands behind its `)`.
fn question_inside(tokens: &[Token]) -> Option<(&Token, &[Token])>
    ensures { option_map question_now result ≡ question_inside tokens.now }
{
    match tokens {
        [name, behind @ ..] if is_word(name) => question_closed(name, behind),
        _ => None,
    }
}

/// The name that is asked for behind a `defined`, with or without parentheses, and what stands behind it.
fn question(tokens: &[Token]) -> Option<(&Token, &[Token])>
    ensures { option_map question_now result ≡ question tokens.now }
{
    match tokens {
        [name, behind @ ..] if is_word(name) => Some((name, behind)),
        [open, behind @ ..] if is_sign(b'(', open) => question_inside(behind),
        _ => None,
    }
}

/// What the first token of a condition becomes, an answer where it is a `defined`, and what stands behind that.
fn answered_first<'a>(
    alloc: Global,
    macros: &Macros,
    first: &Token,
    behind: &'a [Token],
) -> Result<Option<(Token, &'a [Token])>, NoMemory>
    ensures { IfOk result (AnswersFirst macros.now first.now behind.now) }
{
    if !is_defined(first) {
        return Ok(Some((copied_token(alloc, first)?, behind)));
    }
    match question(behind) {
        Some((name, rest)) => Ok(Some((answer(alloc, macros, name)?, rest))),
        None => Ok(None),
    }
}

/// Some tokens with an answer in place of each `defined NAME` and `defined (NAME)`. `None` where a `defined` has neither form.
pub(crate) fn answered(
    alloc: Global,
    macros: &Macros,
    tokens: &[Token],
) -> Result<Option<Items<Token>>, NoMemory>
    ensures { IfOk result (λ found. found ≡ answered macros.now tokens.now) }
{
    let mut done = Items::new(alloc);
    let mut rest = tokens;
    while let [first, behind @ ..] = rest {
        let Some((token, left)) = answered_first(alloc, macros, first, behind)? else {
            return Ok(None);
        };
        done.push(token)?;
        rest = left;
    }
    Ok(Some(done))
}

/// A token, or 0 in place of a word.
fn zeroed(alloc: Global, token: Token) -> Result<Token, NoMemory>
    ensures { IfOk result (λ made. made ≡ zeroed token) }
{
    if is_word(&token) {
        digit(alloc, false, &token)
    } else {
        Ok(token)
    }
}

/// Whether one of these tokens is the name `defined`.
fn has_defined(tokens: &[Marked]) -> bool
    ensures { result ≡ list_any is_defined_word tokens.now }
{
    tokens.iter().any(|marked| is_defined(&marked.token))
}

/// Tokens whose macros are replaced, with 0 in place of each word. `None` where one is a `defined`, which a replacement made.
pub(crate) fn without_words(
    alloc: Global,
    tokens: Items<Marked>,
) -> Result<Option<Items<Token>>, NoMemory>
    ensures { IfOk result (λ found. found ≡ without_words tokens) }
{
    if has_defined(tokens.as_slice()) {
        return Ok(None);
    }
    let mut done = Items::new(alloc);
    for marked in tokens.into_vec() {
        let Marked { token, .. } = marked;
        done.push(zeroed(alloc, token)?)?;
    }
    Ok(Some(done))
}
