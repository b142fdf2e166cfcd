//! Calls on parts in hand: what a callee is by its name, formats, and the whole behind its arguments (C99 6.5.2.2, 7.19.6).

ghost use Rattle.std.specs.Prelude.{◌≡◌, Option, IfOk, map, option_map};
ghost use Rattle.c_types.specs.Types.{plain};
ghost use Rattle.c_tree.specs.View.{expr_tree};
ghost use Rattle.c_tree.specs.StatementView.{trees, expr_view};
ghost use Rattle.c_decls.specs.Named.{PlainNamed};
ghost use Rattle.c_decls.specs.Refusals.{Meets};
ghost use Rattle.c_decls.specs.Typed.{plain_typed};
ghost use Rattle.c_decls.specs.TypeNames.{Context as Names};
ghost use Rattle.c_typing.specs.Callee.{plain_callee};
ghost use Rattle.elab_rules.specs.PlainArguments.{plain_argument, called_of};
ghost use Rattle.elab_values.specs.Arguments.{format_of};
ghost use Rattle.elaboration.specs.Calls.{types_of, atoms_of};
ghost use Rattle.elaboration.specs.Expressions.{callee_name, call_answer};
ghost use Rattle.elab_base.specs.Outcomes.{Finds};
ghost use Rattle.elab_base.specs.PlainFound.{plain_found};
ghost use Rattle.elab_values.specs.Outcomes.{FindsCall, FindsFormat, call_of, plain_arguments};

use c_decls::{TypeError, Typed};
use c_tree::{Expr, ExprKind};
use c_types::CType;
use c_typing::{Callee, first_literal, joined, string};
use core_tree::Atom;
use elab_base::{Elaborator, Fixed, Found};
use elab_rules::{Argument, Called, call_named};
use hs_base::{Line, NoMemory};
use std::alloc::Global;

/// What the name of a call means, where the callee is a name.
#[tactic(auto, unfolding(c_tree::specs::View::expr_tree))]
pub(crate) fn called_name(state: &Elaborator, line: Line, callee: &ExprKind) -> Called
    ensures { result ≡ called_of (callee_name (expr_tree callee.now line) state.now) }
{
    match callee {
        ExprKind::Name(name) => Called::of(state.scopes().find(name.as_slice())),
        _ => Called::Nothing,
    }
}

/// The type of string literals at a line, through parentheses; `None` where an expression is anything else.
#[tactic(auto, unfolding(c_tree::specs::View::expr_tree, c_decls::specs::Expressions::typed))]
pub(crate) fn format_typed(
    alloc: Global,
    line: Line,
    kind: &ExprKind,
) -> Result<Option<Typed>, TypeError>
    ensures { FindsFormat (expr_tree kind.now line) result }
{
    match kind {
        ExprKind::Str(parts) => {
            let bytes = joined(alloc, parts.as_slice())?;
            Ok(Some(string(alloc, line, bytes.as_slice())?))
        }
        ExprKind::Paren(inner) => format_typed(alloc, inner.line, &inner.kind),
        _ => Ok(None),
    }
}

/// The types and the operands of arguments.
#[derive(Drop)]
struct Values {
    types: Vec<Typed>,
    atoms: Vec<Atom>,
}

/// Takes arguments apart.
fn taken_apart(alloc: Global, arguments: Vec<Argument>) -> Result<Values, NoMemory>
    ensures types { IfOk result (λ r. map plain_typed r.types.items ≡ types_of (plain_arguments arguments)) }
    ensures atoms { IfOk result (λ r. r.atoms.items ≡ atoms_of (plain_arguments arguments)) }
{
    let mut types = Vec::new(alloc);
    let mut atoms = Vec::new(alloc);
    for argument in arguments {
        types.push(argument.typed)?;
        atoms.push(argument.atom)?;
    }
    Ok(Values { types, atoms })
}

/// A call once its arguments are in hand: their number, their conversions in order, and then the statement.
pub(crate) fn call_answer(
    state: &mut Elaborator,
    line: Line,
    named: Called,
    callee: Callee,
    wanted: &CType,
    arguments: &[Expr],
    values: Vec<Argument>,
) -> Result<Found, TypeError>
    ensures { FindsCall named state.new result (λ n. call_of line n callee (plain wanted.now) arguments.now values state.old) }
{
    let alloc = state.alloc();
    let literal = first_literal(alloc, arguments)?;
    let Values { types, atoms } = taken_apart(alloc, values)?;
    let typed = c_typing::call(line, &literal, callee, &types)?;
    let spot = call_named(state, line, named, &typed.ty, wanted, literal, atoms)?;
    Ok(Found {
        typed,
        spot,
        fixed: Fixed::Unknown,
    })
}
