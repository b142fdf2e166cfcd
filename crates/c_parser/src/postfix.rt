//! Reading what stands behind a primary expression (C99 6.5.2).
//!
//! Each function gives what the definition of its name in `Expressions.antt` of `grammar_reading` reads. `room` is
//! how deep the tree may be; `turns` is how often a chain may still grow, which each growth takes from `room`.

ghost use Rattle.std.specs.Prelude.{◌<◌, ◌≤◌, IfOk};
ghost use Rattle.c_tree.specs.Forms as form;
ghost use Rattle.c_tree.specs.Places.{Arguments};
ghost use Rattle.c_tree.specs.Tree.{none};
ghost use Rattle.grammar_reading.specs.Expressions as spec;
ghost use Rattle.c_parser.specs.Growing.{Grows};
ghost use Rattle.c_parser.specs.Rests.{postfix_behind, some_arguments};
ghost use Rattle.parser_parts.specs.Trees.{ReadsArguments, ReadsExpr};
ghost use Rattle.grammar_reading.specs.Rooms.{less, read};
ghost use Rattle.parser_parts.specs.Signs.{postfix_form};

use crate::expression::expression;
use crate::levels::{ASSIGNMENT, COMMA};
use crate::operand::primary;
use c_tree::Sign;
use parser_parts::{DeepExpr, DeepExprs, Postfix, ReadError, Reader, behind_operand};
use std::alloc::Global;

/// A primary expression and what stands behind it.
#[cycle(grammar)]
pub fn postfix(alloc: Global, reader: &mut Reader, room: usize) -> Result<DeepExpr, ReadError>
    requires room { room < 401 }
    requires some { 0 < room }
    ensures value { ReadsExpr result reader.new (spec.postfix_at (less room) room reader.old) }
    ensures deep { IfOk result (λ x. x.depth ≤ room) }
{
    let line = reader.line();
    let left = primary(alloc, reader, room)?;
    postfixes(alloc, reader, room, line, left)
}

/// What stands behind a primary expression.
#[cycle(grammar)]
#[tactic(auto, using(crate::proofs::Steps::postfix_from_step))]
fn postfixes(
    alloc: Global,
    reader: &mut Reader,
    room: usize,
    line: u32,
    left: DeepExpr,
) -> Result<DeepExpr, ReadError>
    requires room { room < 401 }
    requires some { 0 < room }
    requires fits { left.depth ≤ room }
    ensures value { ReadsExpr result reader.new (postfix_behind room line left reader.old) }
    ensures deep { IfOk result (λ x. x.depth ≤ room) }
{
    let mut whole = left;
    let mut turns = room;
    'postfixes: while turns > 0 {
        let Some(postfix) = behind_operand(reader.kind()) else {
            return Ok(whole);
        };
        whole = grow_postfix(alloc, reader, room, line, whole, postfix)?;
        turns -= 1;
    }
    Err(ReadError::Syntax)
}

/// What stands behind an operand.
#[cycle(grammar)]
fn grow_postfix(
    alloc: Global,
    reader: &mut Reader,
    room: usize,
    line: u32,
    left: DeepExpr,
    postfix: Postfix,
) -> Result<DeepExpr, ReadError>
    requires room { room < 401 }
    requires some { 0 < room }
    ensures value { Grows room (postfix_form postfix) line left result reader.old reader.new }
    ensures deep { IfOk result (λ x. x.depth ≤ room) }
{
    match postfix {
        Postfix::Index => index(alloc, reader, room, line, left),
        Postfix::Call => call(alloc, reader, room, line, left),
        Postfix::Dot => dot(alloc, reader, room, line, left),
        Postfix::Arrow => arrow(alloc, reader, room, line, left),
        Postfix::Inc => increment_behind(alloc, reader, room, line, left),
        Postfix::Dec => decrement_behind(alloc, reader, room, line, left),
    }
}

/// An index.
#[inline(never)]
#[cycle(grammar)]
#[tactic(auto, using(crate::proofs::Steps::less_step, crate::proofs::Steps::guarded_step), unfolding(c_tree::specs::Grammar::shape))]
fn index(
    alloc: Global,
    reader: &mut Reader,
    room: usize,
    line: u32,
    left: DeepExpr,
) -> Result<DeepExpr, ReadError>
    requires room { room < 401 }
    requires some { 0 < room }
    ensures value { Grows room form.Index line left result reader.old reader.new }
    ensures deep { IfOk result (λ x. x.depth ≤ room) }
{
    if left.depth >= room {
        return Err(ReadError::Syntax);
    }
    reader.mark(Sign::LeftBracket)?;
    let index = expression(alloc, reader, room - 1, COMMA)?;
    reader.mark(Sign::RightBracket)?;
    Ok(DeepExpr::index(alloc, line, left, index)?)
}

/// The arguments of a call.
#[inline(never)]
#[cycle(grammar)]
#[tactic(auto, using(crate::proofs::Steps::less_step, crate::proofs::Steps::guarded_step), unfolding(c_tree::specs::Grammar::shape))]
fn call(
    alloc: Global,
    reader: &mut Reader,
    room: usize,
    line: u32,
    left: DeepExpr,
) -> Result<DeepExpr, ReadError>
    requires room { room < 401 }
    requires some { 0 < room }
    ensures value { Grows room form.Call line left result reader.old reader.new }
    ensures deep { IfOk result (λ x. x.depth ≤ room) }
{
    if left.depth >= room {
        return Err(ReadError::Syntax);
    }
    reader.mark(Sign::LeftParen)?;
    let list = arguments(alloc, reader, room - 1)?;
    reader.mark(Sign::RightParen)?;
    Ok(DeepExpr::call(alloc, line, left, list)?)
}

/// A member.
#[inline(never)]
#[tactic(auto, using(crate::proofs::Steps::less_step, crate::proofs::Steps::guarded_step), unfolding(c_tree::specs::Grammar::shape))]
fn dot(
    alloc: Global,
    reader: &mut Reader,
    room: usize,
    line: u32,
    left: DeepExpr,
) -> Result<DeepExpr, ReadError>
    requires room { room < 401 }
    requires some { 0 < room }
    ensures value { Grows room form.Dot line left result reader.old reader.new }
    ensures deep { IfOk result (λ x. x.depth ≤ room) }
{
    if left.depth >= room {
        return Err(ReadError::Syntax);
    }
    reader.mark(Sign::Dot)?;
    let name = reader.name(alloc)?;
    Ok(DeepExpr::dot(alloc, line, left, name)?)
}

/// A member.
#[inline(never)]
#[tactic(auto, using(crate::proofs::Steps::less_step, crate::proofs::Steps::guarded_step), unfolding(c_tree::specs::Grammar::shape))]
fn arrow(
    alloc: Global,
    reader: &mut Reader,
    room: usize,
    line: u32,
    left: DeepExpr,
) -> Result<DeepExpr, ReadError>
    requires room { room < 401 }
    requires some { 0 < room }
    ensures value { Grows room form.Arrow line left result reader.old reader.new }
    ensures deep { IfOk result (λ x. x.depth ≤ room) }
{
    if left.depth >= room {
        return Err(ReadError::Syntax);
    }
    reader.mark(Sign::Arrow)?;
    let name = reader.name(alloc)?;
    Ok(DeepExpr::arrow(alloc, line, left, name)?)
}

/// `++` or `--`.
#[inline(never)]
#[tactic(auto, using(crate::proofs::Steps::less_step, crate::proofs::Steps::guarded_step), unfolding(c_tree::specs::Grammar::shape))]
fn increment_behind(
    alloc: Global,
    reader: &mut Reader,
    room: usize,
    line: u32,
    left: DeepExpr,
) -> Result<DeepExpr, ReadError>
    requires room { room < 401 }
    requires some { 0 < room }
    ensures value { Grows room form.PostInc line left result reader.old reader.new }
    ensures deep { IfOk result (λ x. x.depth ≤ room) }
{
    if left.depth >= room {
        return Err(ReadError::Syntax);
    }
    reader.mark(Sign::PlusPlus)?;
    Ok(DeepExpr::post_inc(alloc, line, left)?)
}

/// `++` or `--`.
#[inline(never)]
#[tactic(auto, using(crate::proofs::Steps::less_step, crate::proofs::Steps::guarded_step), unfolding(c_tree::specs::Grammar::shape))]
fn decrement_behind(
    alloc: Global,
    reader: &mut Reader,
    room: usize,
    line: u32,
    left: DeepExpr,
) -> Result<DeepExpr, ReadError>
    requires room { room < 401 }
    requires some { 0 < room }
    ensures value { Grows room form.PostDec line left result reader.old reader.new }
    ensures deep { IfOk result (λ x. x.depth ≤ room) }
{
    if left.depth >= room {
        return Err(ReadError::Syntax);
    }
    reader.mark(Sign::MinusMinus)?;
    Ok(DeepExpr::post_dec(alloc, line, left)?)
}

/// The arguments of a call.
#[cycle(grammar)]
fn arguments(alloc: Global, reader: &mut Reader, room: usize) -> Result<DeepExprs, ReadError>
    requires room { room < 401 }
    ensures value { ReadsArguments result reader.new (read room Arguments reader.old) }
    ensures deep { IfOk result (λ x. x.depth ≤ room) }
{
    if reader.is_mark(Sign::RightParen) {
        return Ok(DeepExprs::none(alloc));
    }
    some_arguments(alloc, reader, room)
}

/// The arguments of a call, at least one.
#[inline(never)]
#[cycle(grammar)]
#[tactic(auto, using(crate::proofs::Steps::commas_step))]
fn some_arguments(alloc: Global, reader: &mut Reader, room: usize) -> Result<DeepExprs, ReadError>
    requires room { room < 401 }
    ensures value { ReadsArguments result reader.new (some_arguments room reader.old) }
    ensures deep { IfOk result (λ x. x.depth ≤ room) }
{
    let mut list = DeepExprs::none(alloc);
    let mut turns = reader.left();
    'arguments: while turns > 0 {
        let argument = expression(alloc, reader, room, ASSIGNMENT)?;
        list = list.with(argument)?;
        if !reader.is_mark(Sign::Comma) {
            return Ok(list);
        }
        reader.skip();
        turns -= 1;
    }
    Err(ReadError::Syntax)
}
