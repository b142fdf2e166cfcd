//! Switches, their cases and their default (C99 6.8.4.2).

ghost use Rattle.std.specs.Prelude.{◌≡◌, ◌++◌, IfOk};
ghost use Rattle.c_tree.specs.StatementView.{expr_view};
ghost use Rattle.elaboration.specs.Context.{here, with_pieces};
ghost use Rattle.elaboration.specs.Statements.{defaulted, switch_operand};
ghost use Rattle.elab_statements.specs.Switches.{case_pieces, dispatch_of};
ghost use Rattle.elab_statements.specs.PlainAround.{plain_around};
ghost use Rattle.elab_base.specs.Outcomes.{Becomes, Gives};
ghost use Rattle.c_decls.specs.Refusals.{Meets};
ghost use Rattle.elab_statements.specs.Stepping.{case_of, cased, dispatched};

use crate::around::Around;
use c_decls::{TypeError, TypeKind, line_of, promoted, refused};
use c_tree::Expr;
use c_types::{CType, IntType};
use core_tree::{Atom, Stm, StmKind};
use elab_base::{Cases, Elaborator, Piece, Pieces};
use elab_values::{closed, opened, value_of};
use hs_base::{Line, NoMemory};
use std::alloc::Global;

/// A case of a switch on that type, once its statement is gone through; it stands at a place before those inside its
/// statement.
fn case_of(
    state: &mut Elaborator,
    line: Line,
    around: Around,
    ty: IntType,
    place: usize,
    value: i128,
    label: u32,
) -> Result<(), TypeError>
    ensures { Becomes state.new result (case_of line around ty place value label state.old) }
{
    let value = ty.kind().wrap(value);
    if !around.labelled {
        return refused(TypeKind::LeftOut, line);
    }
    if state.has_case(value) {
        return refused(TypeKind::CaseTwice, line);
    }
    state.add_case(place, value, label)?;
    Ok(())
}

/// A case, which stands in a switch.
pub(crate) fn cased(
    state: &mut Elaborator,
    line: Line,
    around: Around,
    place: usize,
    value: i128,
    label: u32,
) -> Result<(), TypeError>
    ensures { Becomes state.new result (cased line around place value label state.old) }
{
    match around.switched {
        None => refused(TypeKind::StrayBreak, line),
        Some(ty) => case_of(state, line, around, ty, place, value, label),
    }
}

/// A default, which stands in a switch that has none yet.
pub(crate) fn defaulted(
    state: &mut Elaborator,
    line: Line,
    around: Around,
    label: u32,
) -> Result<(), TypeError>
    ensures { Becomes state.new result (defaulted line (plain_around around) label state.old) }
{
    if around.switched.is_none() {
        return refused(TypeKind::StrayBreak, line);
    }
    if !around.labelled {
        return refused(TypeKind::LeftOut, line);
    }
    if state.has_default() {
        return refused(TypeKind::CaseTwice, line);
    }
    state.set_default(label);
    Ok(())
}

/// The operand of a switch: an integer, converted to its promoted type.
pub(crate) fn switch_operand(
    state: &mut Elaborator,
    line: Line,
    e: &Expr,
) -> Result<(IntType, Atom), TypeError>
    ensures { Gives state.new result (switch_operand line (expr_view e.now) state.old) }
{
    opened(state, e)?;
    let found = value_of(state, e, &CType::Void)?;
    match &found.typed.ty {
        CType::Int(ty) => {
            let wide = promoted(*ty);
            let value = state.convert_integer(line, wide, *ty, found.atom())?;
            closed(state, e)?;
            Ok((wide, value))
        }
        CType::Void
        | CType::Pointer(_)
        | CType::Array(_, _)
        | CType::Struct(_)
        | CType::Union(_)
        | CType::Function(_) => refused(TypeKind::Operands, line_of(e)),
    }
}

/// A jump to the label of each case in order.
#[tactic(auto, using(crate::proofs::InTurn::cases_next))]
fn dispatch_cases(
    alloc: Global,
    line: Line,
    value: Atom,
    cases: &[(i128, u32)],
) -> Result<Pieces, NoMemory>
    ensures { IfOk result (λ pieces. pieces ≡ case_pieces line value cases.now) }
{
    let mut pieces = Pieces::new(alloc);
    for case in cases {
        let kind = StmKind::Case(value, case.0, case.1);
        pieces.push(Piece::Does(Stm { line, kind }))?;
    }
    Ok(pieces)
}

/// Behind the operand of a switch whose body was gone through apart: a jump to the label of each case in order, then to
/// the default or the end; the body, and the end.
pub(crate) fn switched(
    state: &mut Elaborator,
    line: Line,
    end: u32,
    value: Atom,
    inner: Cases,
    body: Pieces,
) -> Result<(), NoMemory>
    ensures { IfOk result (λ _. state.new ≡ dispatched line end value inner body state.old) }
{
    let cases = dispatch_cases(state.alloc(), line, value, inner.cases.as_slice())?;
    state.append(cases)?;
    let other = inner.otherwise.unwrap_or(end);
    state.emit(line, StmKind::Jump(other))?;
    state.append(body)?;
    state.here(end)
}
