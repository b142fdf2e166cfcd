//! String literals one behind another.

ghost use Rattle.std.specs.Prelude.{◌≡◌};
ghost use Rattle.c_tree.specs.Tree.{Leaf};
ghost use Rattle.c_tree.specs.View.{literal_leaves};
ghost use Rattle.c_tree.specs.StatementView.{strings_view};
ghost use Rattle.c_tree.specs.Words.{Str};
ghost use Rattle.grammar_reading.specs.Expressions as spec;
ghost use Rattle.parser_parts.specs.Gives.{Reads};
ghost use Rattle.c_parser.specs.Pieces.{is_literal as spec_is_literal};
ghost use Rattle.c_parser.specs.Readers.{Pushes};

use grammar_reading::Kind;
use hs_base::{Items, NoMemory};
use parser_parts::{ReadError, Reader};
use std::alloc::Global;

/// String literals, by their spellings.
#[tactic(auto, using(crate::proofs::Loops::strings_go_on, crate::proofs::Loops::strings_end))]
pub fn strings(alloc: Global, reader: &mut Reader) -> Result<Items<Items<u8>>, ReadError>
    ensures { Reads strings_view result reader.new (spec.strings_at reader.old) }
{
    let mut list = Items::new(alloc);
    let mut turns = reader.left() + 1;
    'literals: while turns > 0 {
        if !is_literal(reader.kind()) {
            return Ok(list);
        }
        let spelling = reader.spelling(alloc)?;
        push(&mut list, spelling)?;
        reader.skip();
        turns -= 1;
    }
    Err(ReadError::Syntax)
}

/// Puts a string literal behind others.
#[tactic(auto, using(parser_parts::specs::TreesEquations::leaves_behind))]
fn push(list: &mut Items<Items<u8>>, literal: Items<u8>) -> Result<(), NoMemory>
    ensures { Pushes literal_leaves result list.old list.new (Leaf (Str literal)) }
{
    list.push(literal)?;
    Ok(())
}

/// Says whether a token is a string literal.
fn is_literal(kind: Kind) -> bool
    ensures { result ≡ spec_is_literal kind }
{
    match kind {
        Kind::Str => true,
        _ => false,
    }
}
