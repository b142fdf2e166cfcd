//! What stands in place of a macro.

ghost use Rattle.std.specs.Prelude.{◌≡◌, ◌++◌, [], IfOk, OnOk, length, map, slice_get, unwrap_or};
ghost use Rattle.c_pre.specs.Expansion.{put_on, place_of, part_of, parameters_of, replaced, put_part, TellsLonger, GivesAtMost};

use crate::hidden::Hidden;
use crate::macros::Macro;
use crate::marked::{Marked, put_on};
use c_lexer::Token;
use hs_base::{Items, Line, NoMemory};
use std::alloc::Global;

/// The place of a parameter. An object-like macro has none.
fn place_of(it: &Macro, word: &[u8]) -> Option<usize>
    ensures { result ≡ place_of (parameters_of it.now.parameters) word.now }
{
    match &it.parameters {
        Some(parameters) => parameters.place(word),
        None => None,
    }
}

/// Adds copies of tokens that are put in on a line, with more macros hidden from them.
fn add_tokens(
    alloc: Global,
    to: &mut Items<Marked>,
    line: Line,
    numbers: &Hidden,
    tokens: &[Marked],
) -> Result<(), NoMemory>
    ensures { OnOk result (to.new ≡ to.old ++ map (put_on line numbers.now) tokens.now) }
{
    for marked in tokens {
        to.push(put_on(alloc, line, numbers, &marked.token, &marked.hidden)?)?;
    }
    Ok(())
}

/// The expanded argument of a parameter, by its place.
fn argument(expanded: &[Items<Marked>], place: usize) -> &[Marked]
    ensures { result.now ≡ unwrap_or (slice_get expanded.now place) [] }
{
    match expanded.get(place) {
        Some(tokens) => tokens.as_slice(),
        None => &[],
    }
}

/// Adds what stands in place of one token of a macro: the expanded argument of a parameter, or the token itself.
fn add_part(
    alloc: Global,
    to: &mut Items<Marked>,
    line: Line,
    numbers: &Hidden,
    expanded: &[Items<Marked>],
    it: &Macro,
    token: &Token,
) -> Result<(), NoMemory>
    ensures { OnOk result (to.new ≡ to.old ++ put_part line numbers.now it.now expanded.now token.now) }
{
    match place_of(it, token.bytes.as_slice()) {
        Some(place) => add_tokens(alloc, to, line, numbers, argument(expanded, place)),
        None => to.push(put_on(alloc, line, numbers, token, &Hidden::new())?),
    }
}

/// How many tokens stand in place of one token of a macro.
fn part_length(expanded: &[Items<Marked>], it: &Macro, token: &Token) -> usize
    ensures { result ≡ length (part_of it.now expanded.now token.now) }
{
    match place_of(it, token.bytes.as_slice()) {
        Some(place) => argument(expanded, place).len(),
        None => 1,
    }
}

/// Whether more than so many tokens stand in place of a macro. Nothing is made for that, so that no memory is taken for
/// what is refused.
fn passes(expanded: &[Items<Marked>], it: &Macro, most: usize) -> bool
    ensures { TellsLonger most expanded.now it.now result }
{
    let mut room = most;
    for token in it.replacement.as_slice() {
        let count = part_length(expanded, it, token);
        if count > room {
            return true;
        }
        room -= count;
    }
    false
}

/// What stands in place of a macro, on a line, with macros hidden from it, unless it has more than so many tokens.
pub(crate) fn replaced(
    alloc: Global,
    line: Line,
    numbers: &Hidden,
    expanded: &[Items<Marked>],
    it: &Macro,
    most: usize,
) -> Result<Option<Items<Marked>>, NoMemory>
    ensures { IfOk result (GivesAtMost most (replaced line numbers.now expanded.now it.now)) }
{
    if passes(expanded, it, most) {
        return Ok(None);
    }
    let mut tokens = Items::new(alloc);
    for token in it.replacement.as_slice() {
        add_part(alloc, &mut tokens, line, numbers, expanded, it, token)?;
    }
    Ok(Some(tokens))
}
