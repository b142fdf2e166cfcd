//! Reading a condition of the preprocessor (C99 6.10.1): one constant expression (6.6), with nothing behind it.

ghost use Rattle.std.specs.Prelude.{◌≡◌, IfOk, option_map};
ghost use Rattle.c_tree.specs.StatementView.{expr_view};
ghost use Rattle.grammar_reading.specs.Conditions.{read_condition};
ghost use Rattle.c_parser.specs.Parses.{IsOnlyCondition};

use crate::expression::expression;
use crate::levels::{CONDITION, DEPTH};
use c_lexer::Token;
use c_tree::Expr;
use grammar_reading::conditions_are_read;
use hs_base::NoMemory;
use parser_parts::{ReadError, Reader};
use std::alloc::Global;

/// The tree of a condition, where these tokens are one: a constant expression where no name is declared.
pub fn parse_condition(alloc: Global, tokens: &[Token]) -> Result<Option<Expr>, NoMemory>
    ensures read { IfOk result (λ found. option_map expr_view found ≡ read_condition tokens.now) }
    ensures tree { IfOk result (λ found. IsOnlyCondition tokens.now (option_map expr_view found)) }
{
    conditions_are_read();
    let mut reader = Reader::new(alloc, tokens)?;
    match expression(alloc, &mut reader, DEPTH, CONDITION) {
        Ok(found) => {
            if reader.left() == 0 {
                Ok(Some(found.tree))
            } else {
                Ok(None)
            }
        }
        Err(ReadError::Syntax) => Ok(None),
        Err(ReadError::NoMemory) => Err(NoMemory),
    }
}
