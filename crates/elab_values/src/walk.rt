//! The walk (C99 6.5): the parts from left to right, and the whole after its parts.

ghost use Rattle.std.specs.Prelude.{◌≡◌, Ok, map, slice_get, option_copied};
ghost use Rattle.c_types.specs.Types.{plain, Void};
ghost use Rattle.c_tree.specs.declared.operator.AssignOp.TheVariants as a;
ghost use Rattle.c_tree.specs.declared.operator.BinaryOp.TheVariants as b;
ghost use Rattle.c_tree.specs.declared.operator.UnaryOp.TheVariants as u;
ghost use Rattle.c_tree.specs.Words as w;
ghost use Rattle.c_tree.specs.Forms as f;
ghost use Rattle.c_tree.specs.Tree.{Leaf, At, Node, none, ◌▹◌};
ghost use Rattle.c_tree.specs.StatementView.{trees, expr_view, typename_view};
ghost use Rattle.c_decls.specs.Refusals.{Meets, then};
ghost use Rattle.c_typing.specs.Callee.{plain_callee};
ghost use Rattle.elab_rules.specs.PlainArguments.{plain_argument};
ghost use Rattle.elab_values.specs.Arguments.{target_at, types_from, argument, loose_argument, printed_argument, taken_argument, all_arguments, argument_at};
ghost use Rattle.elab_values.specs.Forms.{before_value, between_values, changed_place, callee_of, cast_value, changing_place, comma_values, stepped_place, unused_value};
ghost use Rattle.elaboration.specs.Assignments.{stepped};
ghost use Rattle.elaboration.specs.Conversions.{unused};
ghost use Rattle.elaboration.specs.Expressions.{found, arguments, value_of, callee, cast_operand, changing, comma_answer, parameters};
ghost use Rattle.elab_base.specs.Outcomes.{Finds};
ghost use Rattle.c_tree.specs.View.{expr_tree};
ghost use Rattle.elab_base.specs.PlainFound.{plain_found};
ghost use Rattle.elab_values.specs.Outcomes.{Calls, Takes, TakesAll};
ghost use Rattle.elab_values.specs.Trees.{arrow_tree, assign_tree, binary_tree, call_tree, cast_tree, choice_tree, dot_tree, index_tree, unary_tree};

use crate::ahead::{left_operand, type_ahead};
use crate::calls::{call_answer, called_name, format_typed};
use crate::leaves::{character, integer, literal, name};
use crate::types::{typename, unevaluated};
use c_decls::{TypeError, is_record, is_void, line_of};
use c_tree::{AssignOp, BinaryOp, Expr, ExprKind, TypeName, UnaryOp};
use c_types::{CType, Signature};
use c_typing::{Callee, behind_comma, called};
use core_tree::Atom;
use elab_base::{Elaborator, Fixed, Found};
use elab_rules::{
    Argument, address_of, and_ended, and_then, applied, between, cast_to, changed_by, changing,
    choose_first, chosen, dotted, indexed, next_label, old_value, or_else, or_ended, pointed,
    record_assigned, scalar_assigned, stepped,
};
use hs_base::Line;

/// An expression as a place, or as a value where it is none (C99 6.5). A value that is wanted as a type, through
/// parentheses alone, is wanted as this.
///
/// # Errors
///
/// The first refusal in the order of the walk, or [`TypeError::NoMemory`]; then nothing is said of the state.
#[cycle(walk)]
#[tactic(auto, unfolding(elaboration::specs::Expressions::found, c_tree::specs::View::expr_tree), using(crate::proofs::Steps::call_is, crate::proofs::Steps::sizeof_expr_is, crate::proofs::Steps::sizeof_type_is))]
pub fn found(state: &mut Elaborator, tree: &Expr, wanted: &CType) -> Result<Found, TypeError>
    ensures { Finds state.new result (found (expr_view tree.now) (plain wanted.now) state.old) }
{
    let line = tree.line;
    match &tree.kind {
        ExprKind::Name(spelling) => name(state, line, spelling.as_slice()),
        ExprKind::Int(bytes) => Ok(integer(bytes.as_slice())?),
        ExprKind::Char(bytes) => Ok(character(state.alloc(), bytes.as_slice())?),
        ExprKind::Str(parts) => literal(state, line, parts.as_slice()),
        ExprKind::Paren(inner) => found(state, inner, wanted),
        ExprKind::Index(array, index) => element(state, line, array, index),
        ExprKind::Call(function, list) => call(state, line, list, function, wanted),
        ExprKind::Dot(whole, member) => dot(state, line, whole, member.as_slice()),
        ExprKind::Arrow(pointer, member) => arrow(state, line, pointer, member.as_slice()),
        ExprKind::PostInc(place) => step(state, line, AssignOp::Add, true, place),
        ExprKind::PostDec(place) => step(state, line, AssignOp::Subtract, true, place),
        ExprKind::PreInc(place) => step(state, line, AssignOp::Add, false, place),
        ExprKind::PreDec(place) => step(state, line, AssignOp::Subtract, false, place),
        ExprKind::Unary(op, operand) => in_front(state, line, *op, operand),
        ExprKind::SizeofExpr(_) => unevaluated(state, tree),
        ExprKind::SizeofType(_) => unevaluated(state, tree),
        ExprKind::Cast(ty, operand) => cast(state, line, ty, operand),
        ExprKind::Binary(op, left, right) => beside(state, line, *op, left, right),
        ExprKind::Cond(test, first, last) => choose(state, line, test, first, last),
        ExprKind::Assign(op, left, right) => written(state, line, *op, left, right),
        ExprKind::Comma(left, right) => comma(state, left, right),
    }
}

/// The value of an expression in a full expression that has begun.
///
/// # Errors
///
/// As [`found`].
#[cycle(walk)]
pub fn value_of(state: &mut Elaborator, tree: &Expr, wanted: &CType) -> Result<Found, TypeError>
    ensures { Finds state.new result (value_of (expr_view tree.now) (plain wanted.now) state.old) }
{
    let e = found(state, tree, wanted)?;
    state.wanted_from(tree, e)
}

/// An expression whose value is not used, in a full expression that has begun: an assignment to a struct or a union may
/// stand there.
///
/// # Errors
///
/// As [`found`].
#[cycle(walk)]
pub fn unused_of(state: &mut Elaborator, tree: &Expr, wanted: &CType) -> Result<Found, TypeError>
    ensures { Finds state.new result (unused_value (expr_view tree.now) (plain wanted.now) state.old) }
{
    let e = found(state, tree, wanted)?;
    state.valued_from(tree, e)
}

/// The operand of a cast to a type; to void no value is used (C99 6.5.4).
#[cycle(walk)]
fn cast_operand(state: &mut Elaborator, ty: &CType, tree: &Expr) -> Result<Found, TypeError>
    ensures { Finds state.new result (cast_value (plain ty.now) (expr_view tree.now) state.old) }
{
    if is_void(ty) {
        unused_of(state, tree, ty)
    } else {
        value_of(state, tree, ty)
    }
}

/// An operand that is read and written.
#[cycle(walk)]
fn place_of(state: &mut Elaborator, tree: &Expr) -> Result<Found, TypeError>
    ensures { Finds state.new result (changing_place (expr_view tree.now) state.old) }
{
    let e = found(state, tree, &CType::Void)?;
    changing(state, tree, e)
}

/// `e[g]` (C99 6.5.2.1)
#[cycle(walk)]
#[tactic(auto, unfolding(elaboration::specs::Expressions::found))]
fn element(state: &mut Elaborator, line: Line, e: &Expr, g: &Expr) -> Result<Found, TypeError>
    ensures { Finds state.new result (found (index_tree line e.now g.now) Void state.old) }
{
    let x = value_of(state, e, &CType::Void)?;
    let y = value_of(state, g, &CType::Void)?;
    indexed(state, line, x, y)
}

/// `e.name` (C99 6.5.2.3)
#[cycle(walk)]
#[tactic(auto, unfolding(elaboration::specs::Expressions::found))]
fn dot(state: &mut Elaborator, line: Line, e: &Expr, name: &[u8]) -> Result<Found, TypeError>
    ensures { Finds state.new result (found (dot_tree line e.now name.now) Void state.old) }
{
    let x = found(state, e, &CType::Void)?;
    dotted(state, line, name, x)
}

/// `e->name` (C99 6.5.2.3)
#[cycle(walk)]
#[tactic(auto, unfolding(elaboration::specs::Expressions::found))]
fn arrow(state: &mut Elaborator, line: Line, e: &Expr, name: &[u8]) -> Result<Found, TypeError>
    ensures { Finds state.new result (found (arrow_tree line e.now name.now) Void state.old) }
{
    let x = value_of(state, e, &CType::Void)?;
    pointed(state, line, name, x)
}

/// `++` and `--`, whose answer may be the old value (C99 6.5.2.4, 6.5.3.1)
#[cycle(walk)]
fn step(
    state: &mut Elaborator,
    line: Line,
    op: AssignOp,
    keeps_old: bool,
    e: &Expr,
) -> Result<Found, TypeError>
    ensures { Finds state.new result (stepped_place line op keeps_old (expr_view e.now) state.old) }
{
    let x = place_of(state, e)?;
    stepped(state, line, op, keeps_old, x)
}

/// An operator before an operand (C99 6.5.3)
#[cycle(walk)]
fn in_front(state: &mut Elaborator, line: Line, op: UnaryOp, e: &Expr) -> Result<Found, TypeError>
    ensures { Finds state.new result (found (unary_tree line op e.now) Void state.old) }
{
    match op {
        UnaryOp::Address => address(state, line, e),
        _ => unary(state, line, op, e),
    }
}

/// An operator between two operands (C99 6.5.5 to 6.5.14)
#[cycle(walk)]
fn beside(
    state: &mut Elaborator,
    line: Line,
    op: BinaryOp,
    e: &Expr,
    g: &Expr,
) -> Result<Found, TypeError>
    ensures { Finds state.new result (found (binary_tree line op e.now g.now) Void state.old) }
{
    match op {
        BinaryOp::And => and(state, line, e, g),
        BinaryOp::Or => or(state, line, e, g),
        _ => binary(state, line, op, e, g),
    }
}

/// An assignment (C99 6.5.16)
#[cycle(walk)]
fn written(
    state: &mut Elaborator,
    line: Line,
    op: AssignOp,
    e: &Expr,
    g: &Expr,
) -> Result<Found, TypeError>
    ensures { Finds state.new result (found (assign_tree line op e.now g.now) Void state.old) }
{
    match op {
        AssignOp::Plain => assign(state, line, e, g),
        _ => change(state, line, op, e, g),
    }
}

/// `&e` (C99 6.5.3.2)
#[cycle(walk)]
#[tactic(auto, unfolding(elaboration::specs::Expressions::found))]
fn address(state: &mut Elaborator, line: Line, e: &Expr) -> Result<Found, TypeError>
    ensures { Finds state.new result (found (unary_tree line u.Address e.now) Void state.old) }
{
    let x = found(state, e, &CType::Void)?;
    address_of(state, line, x)
}

/// An operator before a value, other than `&` (C99 6.5.3)
#[cycle(walk)]
fn unary(state: &mut Elaborator, line: Line, op: UnaryOp, e: &Expr) -> Result<Found, TypeError>
    ensures { Finds state.new result (before_value line op (expr_view e.now) state.old) }
{
    let x = value_of(state, e, &CType::Void)?;
    applied(state, line, op, e, x)
}

/// `(type)e` (C99 6.5.4)
#[cycle(walk)]
#[tactic(auto, unfolding(elaboration::specs::Expressions::found))]
fn cast(state: &mut Elaborator, line: Line, ty: &TypeName, e: &Expr) -> Result<Found, TypeError>
    ensures { Finds state.new result (found (cast_tree line ty.now e.now) Void state.old) }
{
    let before = state.mark();
    let ty = typename(state, ty)?;
    let x = cast_operand(state, &ty, e)?;
    cast_to(state, line, ty, before, x)
}

/// `e && g` (C99 6.5.13)
#[cycle(walk)]
#[tactic(auto, unfolding(elaboration::specs::Expressions::found))]
fn and(state: &mut Elaborator, line: Line, e: &Expr, g: &Expr) -> Result<Found, TypeError>
    ensures { Finds state.new result (found (binary_tree line b.And e.now g.now) Void state.old) }
{
    let x = value_of(state, e, &CType::Void)?;
    let label = and_then(state, line, e, &x)?;
    let y = value_of(state, g, &CType::Void)?;
    and_ended(state, line, label, g, x.typed, y)
}

/// `e || g` (C99 6.5.14)
#[cycle(walk)]
#[tactic(auto, unfolding(elaboration::specs::Expressions::found))]
fn or(state: &mut Elaborator, line: Line, e: &Expr, g: &Expr) -> Result<Found, TypeError>
    ensures { Finds state.new result (found (binary_tree line b.Or e.now g.now) Void state.old) }
{
    let x = value_of(state, e, &CType::Void)?;
    let ends = or_else(state, line, e, &x)?;
    let y = value_of(state, g, &CType::Void)?;
    or_ended(state, line, ends.0, g, ends.1, x.typed, y)
}

/// An operator between two values, other than `&&` and `||` (C99 6.5.5 to 6.5.12)
#[cycle(walk)]
fn binary(
    state: &mut Elaborator,
    line: Line,
    op: BinaryOp,
    e: &Expr,
    g: &Expr,
) -> Result<Found, TypeError>
    ensures { Finds state.new result (between_values line op (expr_view e.now) (expr_view g.now) state.old) }
{
    let before = state.mark();
    let x = value_of(state, e, &CType::Void)?;
    let left = left_operand(state, op, before, g, x)?;
    let middle = state.mark();
    let y = value_of(state, g, &CType::Void)?;
    between(state, line, op, middle, left, y)
}

/// `e ? g : h` (C99 6.5.15)
#[cycle(walk)]
#[tactic(auto, unfolding(elaboration::specs::Expressions::found))]
fn choose(
    state: &mut Elaborator,
    line: Line,
    e: &Expr,
    g: &Expr,
    h: &Expr,
) -> Result<Found, TypeError>
    ensures { Finds state.new result (found (choice_tree line e.now g.now h.now) Void state.old) }
{
    let test = value_of(state, e, &CType::Void)?;
    let other = and_then(state, line, e, &test)?;
    let end = next_label(other)?;
    let before = state.mark();
    let x = value_of(state, g, &CType::Void)?;
    let ty = type_ahead(state, line, h, &test.typed, &x.typed)?;
    let to = choose_first(state, line, other, before, &ty, &x)?;
    let middle = state.mark();
    let y = value_of(state, h, &CType::Void)?;
    chosen(state, line, end, middle, to, &test.typed, x.typed, y)
}

/// `e = g` (C99 6.5.16.1)
#[cycle(walk)]
#[tactic(auto, unfolding(elaboration::specs::Expressions::found))]
fn assign(state: &mut Elaborator, line: Line, e: &Expr, g: &Expr) -> Result<Found, TypeError>
    ensures { Finds state.new result (found (assign_tree line a.Plain e.now g.now) Void state.old) }
{
    let target = found(state, e, &CType::Void)?;
    let before = state.mark();
    let y = found(state, g, &target.typed.ty)?;
    if is_record(&target.typed.ty) {
        record_assigned(state, line, line_of(g), target, y)
    } else {
        scalar_assigned(state, line, before, g, target, y)
    }
}

/// `e OP= g` (C99 6.5.16.2)
#[cycle(walk)]
fn change(
    state: &mut Elaborator,
    line: Line,
    op: AssignOp,
    e: &Expr,
    g: &Expr,
) -> Result<Found, TypeError>
    ensures { Finds state.new result (changed_place line op (expr_view e.now) (expr_view g.now) state.old) }
{
    let target = place_of(state, e)?;
    let old = old_value(state, line, &target)?;
    let right = value_of(state, g, &CType::Void)?;
    changed_by(state, line, op, false, target, old, right)
}

/// `e, g` (C99 6.5.17)
#[cycle(walk)]
fn comma(state: &mut Elaborator, e: &Expr, g: &Expr) -> Result<Found, TypeError>
    ensures { Finds state.new result (comma_values (expr_view e.now) (expr_view g.now) state.old) }
{
    unused_of(state, e, &CType::Void)?;
    let last = unused_of(state, g, &CType::Void)?;
    Ok(Found {
        typed: behind_comma(last.typed),
        spot: last.spot,
        fixed: Fixed::Unknown,
    })
}

/// `e(g, ..)` (C99 6.5.2.2)
#[cycle(walk)]
#[tactic(auto, unfolding(elaboration::specs::Expressions::found))]
fn call(
    state: &mut Elaborator,
    line: Line,
    list: &[Expr],
    function: &Expr,
    wanted: &CType,
) -> Result<Found, TypeError>
    ensures { Finds state.new result (found (call_tree line function.now list.now) (plain wanted.now) state.old) }
{
    let named = called_name(state, function.line, &function.kind);
    let target = callee(state, function)?;
    let values = arguments(state, line, &target, list)?;
    call_answer(state, line, named, target, wanted, list, values)
}

/// What is called: a name is looked up, any other expression is gone through and is no function.
#[cycle(walk)]
#[tactic(auto, unfolding(c_tree::specs::View::expr_tree))]
fn callee(state: &mut Elaborator, tree: &Expr) -> Result<Callee, TypeError>
    ensures { Calls state.new result (callee_of (expr_view tree.now) state.old) }
{
    match &tree.kind {
        ExprKind::Name(name) => {
            let named = state.scopes().find(name.as_slice());
            called(state.alloc(), tree.line, state.tags(), named)
        }
        _ => {
            value_of(state, tree, &CType::Void)?;
            Ok(Callee::NoFunction)
        }
    }
}

/// Arguments in turn: the value of each, converted to the type of its parameter.
#[cycle(walk)]
fn arguments(
    state: &mut Elaborator,
    line: Line,
    target: &Callee,
    list: &[Expr],
) -> Result<Vec<Argument>, TypeError>
    ensures { TakesAll state.new result (all_arguments line (plain_callee target.now) list.now state.old) }
{
    let mut values = Vec::new(state.alloc());
    for (place, e) in list.iter().enumerate() {
        values.push(argument(state, line, target, place, e)?)?;
    }
    Ok(values)
}

/// The type of the parameter at a place, if there is one.
fn param_at(signature: &Signature, place: usize) -> Option<&CType>
    ensures { option_copied result ≡ slice_get signature.now.params.items place }
{
    signature.params.get(place)
}

/// The argument at a place.
#[cycle(walk)]
fn argument(
    state: &mut Elaborator,
    line: Line,
    target: &Callee,
    place: usize,
    e: &Expr,
) -> Result<Argument, TypeError>
    ensures { Takes state.new result (argument_at line place (plain_callee target.now) (expr_view e.now) state.old) }
{
    match target {
        Callee::Takes(signature) => match param_at(signature, place) {
            Some(ty) => taken_argument(state, line, ty, e),
            None => loose_argument(state, e),
        },
        Callee::Prints => {
            if place == 0 {
                printed_argument(state, e)
            } else {
                loose_argument(state, e)
            }
        }
        Callee::NoFunction => loose_argument(state, e),
    }
}

/// An argument that no parameter takes.
#[cycle(walk)]
fn loose_argument(state: &mut Elaborator, e: &Expr) -> Result<Argument, TypeError>
    ensures { Takes state.new result (loose_argument (expr_view e.now) state.old) }
{
    let x = value_of(state, e, &CType::Void)?;
    let atom = x.atom();
    Ok(Argument {
        typed: x.typed,
        atom,
    })
}

/// The first argument of `printf`: where it is string literals they are no object, but a format.
#[cycle(walk)]
fn printed_argument(state: &mut Elaborator, e: &Expr) -> Result<Argument, TypeError>
    ensures { Takes state.new result (printed_argument (expr_view e.now) state.old) }
{
    match format_typed(state.alloc(), e.line, &e.kind)? {
        Some(typed) => Ok(Argument {
            typed,
            atom: Atom::Null,
        }),
        None => loose_argument(state, e),
    }
}

/// An argument that is converted to the type of its parameter.
#[cycle(walk)]
fn taken_argument(
    state: &mut Elaborator,
    line: Line,
    ty: &CType,
    e: &Expr,
) -> Result<Argument, TypeError>
    ensures { Takes state.new result (taken_argument line (plain ty.now) (expr_view e.now) state.old) }
{
    let before = state.mark();
    let x = value_of(state, e, ty)?;
    let atom = state.convert(line, before, ty, &x.typed.ty, x.atom())?;
    Ok(Argument {
        typed: x.typed,
        atom,
    })
}
