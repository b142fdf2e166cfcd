//! Reading expressions (C99 6.5).
//!
//! Each function gives what the definition of its name in `Expressions.antt` of `grammar_reading` reads. `room` is
//! how deep the tree may be; `turns` is how often a chain may still grow, which each growth takes from `room`.

ghost use Rattle.std.specs.Prelude.{◌≡◌, ◌<◌, ◌≤◌, IfOk};
ghost use Rattle.c_tree.specs.Forms as form;
ghost use Rattle.c_tree.specs.Places.{Expression};
ghost use Rattle.c_tree.specs.StatementView.{expr_view};
ghost use Rattle.grammar_reading.specs.Expressions as spec;
ghost use Rattle.c_parser.specs.Growing.{Grows};
ghost use Rattle.c_parser.specs.Rests.{comma_behind, binary_behind};
ghost use Rattle.parser_parts.specs.Trees.{ReadsExpr};
ghost use Rattle.grammar_reading.specs.Rooms.{less, read};
ghost use Rattle.c_parser.specs.Nodes.{is_unary_kind as unary_kind};

use crate::levels::{ASSIGNMENT, COMMA, CONDITION};
use crate::operand::{cast, unary};
use crate::postfix::postfix;
use c_tree::{AssignOp, BinaryOp, Expr, ExprKind, Sign};
use parser_parts::{
    DeepExpr, ReadError, Reader, assign, assign_sign, binary, binary_sign, operand_level,
};
use std::alloc::Global;

/// An expression of at most a level.
#[cycle(grammar)]
#[tactic(auto, using(crate::proofs::Steps::guarded_step))]
pub fn expression(
    alloc: Global,
    reader: &mut Reader,
    room: usize,
    level: usize,
) -> Result<DeepExpr, ReadError>
    requires room { room < 401 }
    requires level { level < 16 }
    ensures value { ReadsExpr result reader.new (read room (Expression level) reader.old) }
    ensures deep { IfOk result (λ x. x.depth ≤ room) }
{
    if room == 0 {
        return Err(ReadError::Syntax);
    }
    leveled(alloc, reader, room, level)
}

/// The same, where there is room.
#[cycle(grammar)]
#[tactic(auto, using(crate::proofs::Steps::expression_step))]
fn leveled(
    alloc: Global,
    reader: &mut Reader,
    room: usize,
    level: usize,
) -> Result<DeepExpr, ReadError>
    requires room { room < 401 }
    requires some { 0 < room }
    requires level { level < 16 }
    ensures value { ReadsExpr result reader.new (spec.expression_at (less room) room level reader.old) }
    ensures deep { IfOk result (λ x. x.depth ≤ room) }
{
    if level == 0 {
        return postfix(alloc, reader, room);
    }
    if level == 1 {
        return unary(alloc, reader, room);
    }
    let looser = level - 2;
    if looser <= 10 {
        return operation(alloc, reader, room, looser);
    }
    loose(alloc, reader, room, looser - 11)
}

/// An expression so much looser than a condition.
#[cycle(grammar)]
#[tactic(auto, using(crate::proofs::Steps::loose_step))]
fn loose(
    alloc: Global,
    reader: &mut Reader,
    room: usize,
    looser: usize,
) -> Result<DeepExpr, ReadError>
    requires room { room < 401 }
    requires some { 0 < room }
    requires level { looser < 16 }
    ensures value { ReadsExpr result reader.new (spec.loose_at (less room) room looser reader.old) }
    ensures deep { IfOk result (λ x. x.depth ≤ room) }
{
    if looser == 0 {
        return condition(alloc, reader, room);
    }
    if looser == 1 {
        return assignment(alloc, reader, room);
    }
    comma(alloc, reader, room)
}

/// Expressions with commas between them.
#[cycle(grammar)]
fn comma(alloc: Global, reader: &mut Reader, room: usize) -> Result<DeepExpr, ReadError>
    requires room { room < 401 }
    requires some { 0 < room }
    ensures value { ReadsExpr result reader.new (spec.comma_at (less room) room reader.old) }
    ensures deep { IfOk result (λ x. x.depth ≤ room) }
{
    let line = reader.line();
    let left = assignment(alloc, reader, room)?;
    commas(alloc, reader, room, line, left)
}

/// The expressions behind commas.
#[inline(never)]
#[cycle(grammar)]
#[tactic(auto, using(crate::proofs::Steps::comma_from_step))]
fn commas(
    alloc: Global,
    reader: &mut Reader,
    room: usize,
    line: u32,
    left: DeepExpr,
) -> Result<DeepExpr, ReadError>
    requires room { room < 401 }
    requires some { 0 < room }
    requires fits { left.depth ≤ room }
    ensures value { ReadsExpr result reader.new (comma_behind room line left reader.old) }
    ensures deep { IfOk result (λ x. x.depth ≤ room) }
{
    let mut whole = left;
    let mut turns = room;
    'commas: while turns > 0 {
        if !reader.is_mark(Sign::Comma) {
            return Ok(whole);
        }
        whole = grow_comma(alloc, reader, room, line, whole)?;
        turns -= 1;
    }
    Err(ReadError::Syntax)
}

/// An expression behind a comma.
#[inline(never)]
#[cycle(grammar)]
#[tactic(auto, using(crate::proofs::Steps::less_step, crate::proofs::Steps::guarded_step), unfolding(c_tree::specs::Grammar::shape))]
fn grow_comma(
    alloc: Global,
    reader: &mut Reader,
    room: usize,
    line: u32,
    left: DeepExpr,
) -> Result<DeepExpr, ReadError>
    requires room { room < 401 }
    requires some { 0 < room }
    ensures value { Grows room form.Comma line left result reader.old reader.new }
    ensures deep { IfOk result (λ x. x.depth ≤ room) }
{
    if left.depth >= room {
        return Err(ReadError::Syntax);
    }
    reader.mark(Sign::Comma)?;
    let right = expression(alloc, reader, room - 1, ASSIGNMENT)?;
    Ok(DeepExpr::comma(alloc, line, left, right)?)
}

/// An assignment, or a condition.
#[cycle(grammar)]
fn assignment(alloc: Global, reader: &mut Reader, room: usize) -> Result<DeepExpr, ReadError>
    requires room { room < 401 }
    requires some { 0 < room }
    ensures value { ReadsExpr result reader.new (spec.assign_at (less room) room reader.old) }
    ensures deep { IfOk result (λ x. x.depth ≤ room) }
{
    let line = reader.line();
    let left = condition(alloc, reader, room)?;
    let Some(op) = assign(reader.kind()) else {
        return Ok(left);
    };
    if !is_unary(&left.tree) {
        return Err(ReadError::Syntax);
    }
    grow_assignment(alloc, reader, room, line, left, op)
}

/// What is assigned.
#[inline(never)]
#[cycle(grammar)]
#[tactic(auto, using(crate::proofs::Steps::less_step, crate::proofs::Steps::guarded_step), unfolding(c_tree::specs::Grammar::shape))]
fn grow_assignment(
    alloc: Global,
    reader: &mut Reader,
    room: usize,
    line: u32,
    left: DeepExpr,
    op: AssignOp,
) -> Result<DeepExpr, ReadError>
    requires room { room < 401 }
    requires some { 0 < room }
    ensures value { Grows room (form.Assign op) line left result reader.old reader.new }
    ensures deep { IfOk result (λ x. x.depth ≤ room) }
{
    if left.depth >= room {
        return Err(ReadError::Syntax);
    }
    reader.mark(assign_sign(op))?;
    let right = expression(alloc, reader, room - 1, ASSIGNMENT)?;
    Ok(DeepExpr::assign(alloc, line, op, left, right)?)
}

/// A condition with its two values, or an operation.
#[cycle(grammar)]
fn condition(alloc: Global, reader: &mut Reader, room: usize) -> Result<DeepExpr, ReadError>
    requires room { room < 401 }
    requires some { 0 < room }
    ensures value { ReadsExpr result reader.new (spec.cond_at (less room) room reader.old) }
    ensures deep { IfOk result (λ x. x.depth ≤ room) }
{
    let line = reader.line();
    let left = operation(alloc, reader, room, 10)?;
    if !reader.is_mark(Sign::Question) {
        return Ok(left);
    }
    grow_condition(alloc, reader, room, line, left)
}

/// The two values of a condition.
#[inline(never)]
#[cycle(grammar)]
#[tactic(auto, using(crate::proofs::Steps::less_step, crate::proofs::Steps::guarded_step), unfolding(c_tree::specs::Grammar::shape))]
fn grow_condition(
    alloc: Global,
    reader: &mut Reader,
    room: usize,
    line: u32,
    left: DeepExpr,
) -> Result<DeepExpr, ReadError>
    requires room { room < 401 }
    requires some { 0 < room }
    ensures value { Grows room form.Cond line left result reader.old reader.new }
    ensures deep { IfOk result (λ x. x.depth ≤ room) }
{
    if left.depth >= room {
        return Err(ReadError::Syntax);
    }
    reader.mark(Sign::Question)?;
    let yes = expression(alloc, reader, room - 1, COMMA)?;
    reader.mark(Sign::Colon)?;
    let no = expression(alloc, reader, room - 1, CONDITION)?;
    Ok(DeepExpr::cond(alloc, line, left, yes, no)?)
}

/// Operators between two operands, so many levels looser than a cast. A loop over the levels keeps the native stack small.
#[cycle(grammar)]
#[tactic(auto, using(crate::proofs::Operations::binary_next))]
fn operation(
    alloc: Global,
    reader: &mut Reader,
    room: usize,
    looser: usize,
) -> Result<DeepExpr, ReadError>
    requires room { room < 401 }
    requires some { 0 < room }
    requires level { looser ≤ 10 }
    ensures value { ReadsExpr result reader.new (spec.binary_at (less room) room looser reader.old) }
    ensures deep { IfOk result (λ x. x.depth ≤ room) }
{
    let line = reader.line();
    let mut whole = cast(alloc, reader, room)?;
    'levels: for level in 0..looser {
        whole = operators(alloc, reader, room, level + 2, line, whole)?;
    }
    Ok(whole)
}

/// The operators of one level, from left to right.
#[cycle(grammar)]
#[tactic(auto, using(crate::proofs::Steps::binary_from_step))]
fn operators(
    alloc: Global,
    reader: &mut Reader,
    room: usize,
    level: usize,
    line: u32,
    left: DeepExpr,
) -> Result<DeepExpr, ReadError>
    requires room { room < 401 }
    requires some { 0 < room }
    requires fits { left.depth ≤ room }
    ensures value { ReadsExpr result reader.new (binary_behind room level line left reader.old) }
    ensures deep { IfOk result (λ x. x.depth ≤ room) }
{
    let mut whole = left;
    let mut turns = room;
    'operators: while turns > 0 {
        let Some(op) = binary(reader.kind(), level) else {
            return Ok(whole);
        };
        whole = grow_operation(alloc, reader, room, line, whole, op)?;
        turns -= 1;
    }
    Err(ReadError::Syntax)
}

/// An operator and its right operand.
#[inline(never)]
#[cycle(grammar)]
#[tactic(auto, using(crate::proofs::Steps::less_step, crate::proofs::Steps::guarded_step), unfolding(c_tree::specs::Grammar::shape))]
fn grow_operation(
    alloc: Global,
    reader: &mut Reader,
    room: usize,
    line: u32,
    left: DeepExpr,
    op: BinaryOp,
) -> Result<DeepExpr, ReadError>
    requires room { room < 401 }
    requires some { 0 < room }
    ensures value { Grows room (form.Binary op) line left result reader.old reader.new }
    ensures deep { IfOk result (λ x. x.depth ≤ room) }
{
    if left.depth >= room {
        return Err(ReadError::Syntax);
    }
    reader.mark(binary_sign(op))?;
    let right = expression(alloc, reader, room - 1, operand_level(op))?;
    Ok(DeepExpr::binary(alloc, line, op, left, right)?)
}

/// Says whether an expression is a unary one, or tighter.
#[tactic(auto, using(crate::proofs::Unary::kind_is_unary))]
fn is_unary(e: &Expr) -> bool
    ensures { result ≡ spec.is_unary (expr_view e.now) }
{
    is_unary_kind(&e.kind)
}

/// The same, without the line.
fn is_unary_kind(kind: &ExprKind) -> bool
    ensures { result ≡ unary_kind kind.now }
{
    match kind {
        ExprKind::Cast(_, _)
        | ExprKind::Binary(_, _, _)
        | ExprKind::Cond(_, _, _)
        | ExprKind::Assign(_, _, _)
        | ExprKind::Comma(_, _) => false,
        _ => true,
    }
}
