//! Whether a condition holds.

ghost use Rattle.std.specs.Prelude.{◌≡◌, IfOk};
ghost use Rattle.c_conditions.specs.Conditions.{condition_holds};

use crate::value::value;
use c_lexer::Token;
use c_parser::parse_condition;
use hs_base::NoMemory;
use std::alloc::Global;

/// Whether these tokens are a condition that holds. `None` where they are no condition, where it has a form that C99 6.6 keeps
/// out of one, or where what is evaluated of it overflows, divides by zero or shifts by less than 0 or more than 63 places.
#[tactic(auto, unfolding(crate::specs::Conditions::condition_holds))]
pub fn condition_holds(alloc: Global, tokens: &[Token]) -> Result<Option<bool>, NoMemory>
    ensures { IfOk result (λ holds. holds ≡ condition_holds tokens.now) }
{
    let Some(tree) = parse_condition(alloc, tokens)? else {
        return Ok(None);
    };
    match value(alloc, &tree)? {
        Some(operand) => Ok(operand.is_true()),
        None => Ok(None),
    }
}
