//! Reading a text (C99 6.9).

ghost use Rattle.std.specs.Prelude.{◌≡◌, Some, IfOk, IfErr};
ghost use Rattle.c_tree.specs.Tree.{none};
ghost use Rattle.c_tree.specs.StatementView.{trees, decl_view, unit_view};
ghost use Rattle.c_parser.specs.Parses.{IsOnlyTree, IsRefused};
ghost use Rattle.grammar_reading.specs.Rooms.{Whole, text_from};
ghost use Rattle.c_parser.specs.Readers.{Pushes};
ghost use Rattle.c_parser.specs.Rests.{next_external};
ghost use Rattle.c_parser.specs.Told.{IsMissing, IsStopped};

use crate::error::ParseError;
use crate::external::external;
use crate::levels::DEPTH;
use c_lexer::Token;
use c_tree::{Decl, Unit};
use grammar_reading::{texts_are_read, trees_of_texts_are_read};
use hs_base::{Items, NoMemory};
use parser_parts::{ReadError, Reader};
use std::alloc::Global;

/// The tree of the tokens of a text.
///
/// # Errors
///
/// [`ParseError::Syntax`] exactly where the tokens have no tree, with the line of the first token of the first external
/// declaration that has none. [`ParseError::NoMemory`] only for want of memory.
pub fn parse(alloc: Global, tokens: &[Token]) -> Result<Unit, ParseError>
    ensures tree { IfOk result (λ unit. IsOnlyTree tokens.now (unit_view unit)) }
    ensures refused { IfErr result (IsRefused tokens.now) }
{
    texts_are_read();
    trees_of_texts_are_read();
    let mut reader = Reader::new(alloc, tokens)?;
    match externals(alloc, &mut reader, tokens.len() + 1) {
        Ok(decls) => Ok(Unit { decls }),
        Err(error) => Err(error),
    }
}

/// External declarations up to the end of the text, at most so many.
#[tactic(auto, using(crate::proofs::Texts::text_step))]
fn externals(alloc: Global, reader: &mut Reader, turns: usize) -> Result<Items<Decl>, ParseError>
    ensures tree { IfOk result (λ all. text_from turns none reader.old ≡ Whole (trees decl_view all)) }
    ensures stopped { IfErr result (IsStopped (text_from turns none reader.old)) }
{
    let mut list = Items::new(alloc);
    let mut left = turns;
    'all: while left > 0 {
        if reader.left() == 0 {
            return Ok(list);
        }
        match next(alloc, reader) {
            Ok(decl) => push(&mut list, decl)?,
            Err(error) => return Err(error),
        }
        left -= 1;
    }
    Err(ParseError::Syntax {
        line: reader.line(),
    })
}

/// The next external declaration.
fn next(alloc: Global, reader: &mut Reader) -> Result<Decl, ParseError>
    ensures tree { IfOk result (λ decl. next_external reader.old ≡ Some (decl_view decl, reader.new)) }
    ensures stopped { IfErr result (IsMissing reader.old) }
{
    let line = reader.line();
    match external(alloc, reader, DEPTH) {
        Ok(decl) => Ok(decl),
        Err(ReadError::Syntax) => Err(ParseError::Syntax { line }),
        Err(ReadError::NoMemory) => Err(ParseError::NoMemory),
    }
}

/// Puts a declaration behind others.
#[tactic(auto, using(parser_parts::specs::TreesEquations::trees_behind))]
fn push(list: &mut Items<Decl>, decl: Decl) -> Result<(), NoMemory>
    ensures { Pushes (trees decl_view) result list.old list.new (decl_view decl) }
{
    list.push(decl)?;
    Ok(())
}
