//! Reading casts, unary and primary expressions (C99 6.5.1, 6.5.3 and 6.5.4).
//!
//! Each function gives what the definition of its name in `Expressions.antt` of `grammar_reading` reads. `room` is
//! how deep the tree may be.

ghost use Rattle.std.specs.Prelude.{◌≡◌, ◌<◌, ◌≤◌, IfOk};
ghost use Rattle.c_tree.specs.Forms as form;
ghost use Rattle.grammar_reading.specs.Expressions as spec;
ghost use Rattle.grammar_reading.specs.Expressions.{primary_by};
ghost use Rattle.parser_parts.specs.Trees.{ReadsExpr};
ghost use Rattle.grammar_reading.specs.State.{kind_at};
ghost use Rattle.grammar_reading.specs.declared.kind.Kind.TheVariants as kinds;
ghost use Rattle.grammar_reading.specs.Reading.{fixed};
ghost use Rattle.grammar_reading.specs.Rooms.{less};
ghost use Rattle.parser_parts.specs.Signs.{prefix_form};

use crate::declarator::typename;
use crate::expression::expression;
use crate::levels::{CAST, COMMA, UNARY};
use crate::postfix::postfix;
use crate::strings::strings;
use c_tree::{Keyword, Sign, UnaryOp};
use grammar_reading::Kind;
use parser_parts::{DeepExpr, Prefix, ReadError, Reader, before_operand, unary_sign};
use std::alloc::Global;

/// A cast, or a unary expression.
#[cycle(grammar)]
pub fn cast(alloc: Global, reader: &mut Reader, room: usize) -> Result<DeepExpr, ReadError>
    requires room { room < 401 }
    requires some { 0 < room }
    ensures value { ReadsExpr result reader.new (spec.cast_at (less room) room reader.old) }
    ensures deep { IfOk result (λ x. x.depth ≤ room) }
{
    if !reader.opens_type() {
        return unary(alloc, reader, room);
    }
    cast_typename(alloc, reader, room)
}

/// A type's name in parentheses, and what is cast.
#[inline(never)]
#[cycle(grammar)]
#[tactic(auto, using(crate::proofs::Steps::less_step, crate::proofs::Steps::guarded_step), unfolding(c_tree::specs::Grammar::shape))]
fn cast_typename(alloc: Global, reader: &mut Reader, room: usize) -> Result<DeepExpr, ReadError>
    requires room { room < 401 }
    requires some { 0 < room }
    ensures value { ReadsExpr result reader.new (fixed (less room) form.Cast reader.old) }
    ensures deep { IfOk result (λ x. x.depth ≤ room) }
{
    let line = reader.line();
    reader.mark(Sign::LeftParen)?;
    let name = typename(alloc, reader, room - 1)?;
    reader.mark(Sign::RightParen)?;
    let operand = expression(alloc, reader, room - 1, CAST)?;
    Ok(DeepExpr::cast(alloc, line, name, operand)?)
}

/// A unary expression.
#[cycle(grammar)]
pub fn unary(alloc: Global, reader: &mut Reader, room: usize) -> Result<DeepExpr, ReadError>
    requires room { room < 401 }
    requires some { 0 < room }
    ensures value { ReadsExpr result reader.new (spec.unary_at (less room) room reader.old) }
    ensures deep { IfOk result (λ x. x.depth ≤ room) }
{
    let Some(prefix) = before_operand(reader.kind()) else {
        if reader.is_key(Keyword::Sizeof) {
            return size(alloc, reader, room);
        }
        return postfix(alloc, reader, room);
    };
    prefixed(alloc, reader, room, prefix)
}

/// An operator and its operand.
#[cycle(grammar)]
fn prefixed(
    alloc: Global,
    reader: &mut Reader,
    room: usize,
    prefix: Prefix,
) -> Result<DeepExpr, ReadError>
    requires room { room < 401 }
    requires some { 0 < room }
    ensures value { ReadsExpr result reader.new (fixed (less room) (prefix_form prefix) reader.old) }
    ensures deep { IfOk result (λ x. x.depth ≤ room) }
{
    match prefix {
        Prefix::Inc => increment(alloc, reader, room),
        Prefix::Dec => decrement(alloc, reader, room),
        Prefix::Op(op) => operator(alloc, reader, room, op),
    }
}

/// `++` and its operand.
#[inline(never)]
#[cycle(grammar)]
#[tactic(auto, using(crate::proofs::Steps::less_step, crate::proofs::Steps::guarded_step), unfolding(c_tree::specs::Grammar::shape))]
fn increment(alloc: Global, reader: &mut Reader, room: usize) -> Result<DeepExpr, ReadError>
    requires room { room < 401 }
    requires some { 0 < room }
    ensures value { ReadsExpr result reader.new (fixed (less room) form.PreInc reader.old) }
    ensures deep { IfOk result (λ x. x.depth ≤ room) }
{
    let line = reader.line();
    reader.mark(Sign::PlusPlus)?;
    let operand = expression(alloc, reader, room - 1, UNARY)?;
    Ok(DeepExpr::pre_inc(alloc, line, operand)?)
}

/// `--` and its operand.
#[inline(never)]
#[cycle(grammar)]
#[tactic(auto, using(crate::proofs::Steps::less_step, crate::proofs::Steps::guarded_step), unfolding(c_tree::specs::Grammar::shape))]
fn decrement(alloc: Global, reader: &mut Reader, room: usize) -> Result<DeepExpr, ReadError>
    requires room { room < 401 }
    requires some { 0 < room }
    ensures value { ReadsExpr result reader.new (fixed (less room) form.PreDec reader.old) }
    ensures deep { IfOk result (λ x. x.depth ≤ room) }
{
    let line = reader.line();
    reader.mark(Sign::MinusMinus)?;
    let operand = expression(alloc, reader, room - 1, UNARY)?;
    Ok(DeepExpr::pre_dec(alloc, line, operand)?)
}

/// An operator and its operand.
#[inline(never)]
#[cycle(grammar)]
#[tactic(auto, using(crate::proofs::Steps::less_step, crate::proofs::Steps::guarded_step), unfolding(c_tree::specs::Grammar::shape))]
fn operator(
    alloc: Global,
    reader: &mut Reader,
    room: usize,
    op: UnaryOp,
) -> Result<DeepExpr, ReadError>
    requires room { room < 401 }
    requires some { 0 < room }
    ensures value { ReadsExpr result reader.new (fixed (less room) (form.Unary op) reader.old) }
    ensures deep { IfOk result (λ x. x.depth ≤ room) }
{
    let line = reader.line();
    reader.mark(unary_sign(op))?;
    let operand = expression(alloc, reader, room - 1, CAST)?;
    Ok(DeepExpr::unary(alloc, line, op, operand)?)
}

/// `sizeof` and its operand, or a type's name in parentheses.
#[cycle(grammar)]
fn size(alloc: Global, reader: &mut Reader, room: usize) -> Result<DeepExpr, ReadError>
    requires room { room < 401 }
    requires some { 0 < room }
    ensures value { ReadsExpr result reader.new (spec.sizeof_at (less room) room reader.old) }
    ensures deep { IfOk result (λ x. x.depth ≤ room) }
{
    if reader.opens_type_behind() {
        return size_of_type(alloc, reader, room);
    }
    size_of_value(alloc, reader, room)
}

/// `sizeof` and a type's name in parentheses.
#[inline(never)]
#[cycle(grammar)]
#[tactic(auto, using(crate::proofs::Steps::less_step, crate::proofs::Steps::guarded_step), unfolding(c_tree::specs::Grammar::shape))]
fn size_of_type(alloc: Global, reader: &mut Reader, room: usize) -> Result<DeepExpr, ReadError>
    requires room { room < 401 }
    requires some { 0 < room }
    ensures value { ReadsExpr result reader.new (fixed (less room) form.SizeofType reader.old) }
    ensures deep { IfOk result (λ x. x.depth ≤ room) }
{
    let line = reader.line();
    reader.key(Keyword::Sizeof)?;
    reader.mark(Sign::LeftParen)?;
    let name = typename(alloc, reader, room - 1)?;
    reader.mark(Sign::RightParen)?;
    Ok(DeepExpr::sizeof_type(alloc, line, name)?)
}

/// `sizeof` and its operand.
#[inline(never)]
#[cycle(grammar)]
#[tactic(auto, using(crate::proofs::Steps::less_step, crate::proofs::Steps::guarded_step), unfolding(c_tree::specs::Grammar::shape))]
fn size_of_value(alloc: Global, reader: &mut Reader, room: usize) -> Result<DeepExpr, ReadError>
    requires room { room < 401 }
    requires some { 0 < room }
    ensures value { ReadsExpr result reader.new (fixed (less room) form.SizeofExpr reader.old) }
    ensures deep { IfOk result (λ x. x.depth ≤ room) }
{
    let line = reader.line();
    reader.key(Keyword::Sizeof)?;
    let operand = expression(alloc, reader, room - 1, UNARY)?;
    Ok(DeepExpr::sizeof_expr(alloc, line, operand)?)
}

/// A name, a constant, string literals, or an expression in parentheses.
#[cycle(grammar)]
pub fn primary(alloc: Global, reader: &mut Reader, room: usize) -> Result<DeepExpr, ReadError>
    requires room { room < 401 }
    requires some { 0 < room }
    ensures value { ReadsExpr result reader.new (spec.primary_at (less room) room reader.old) }
    ensures deep { IfOk result (λ x. x.depth ≤ room) }
{
    match reader.kind() {
        Kind::Name => name(alloc, reader, room),
        Kind::Int => int(alloc, reader, room),
        Kind::Char => character(alloc, reader, room),
        Kind::Str => literals(alloc, reader, room),
        Kind::Mark(Sign::LeftParen) => parens(alloc, reader, room),
        _ => Err(ReadError::Syntax),
    }
}

/// An expression in parentheses.
#[inline(never)]
#[cycle(grammar)]
#[tactic(auto, using(crate::proofs::Steps::less_step, crate::proofs::Steps::guarded_step), unfolding(c_tree::specs::Grammar::shape))]
fn parens(alloc: Global, reader: &mut Reader, room: usize) -> Result<DeepExpr, ReadError>
    requires room { room < 401 }
    requires some { 0 < room }
    ensures value { ReadsExpr result reader.new (fixed (less room) form.Paren reader.old) }
    ensures deep { IfOk result (λ x. x.depth ≤ room) }
{
    let line = reader.line();
    reader.mark(Sign::LeftParen)?;
    let inner = expression(alloc, reader, room - 1, COMMA)?;
    reader.mark(Sign::RightParen)?;
    Ok(DeepExpr::paren(alloc, line, inner)?)
}

/// A name that is no type.
#[inline(never)]
#[tactic(auto, using(parser_parts::specs::WordEquations::name_words), unfolding(c_tree::specs::Grammar::shape))]
fn name(alloc: Global, reader: &mut Reader, room: usize) -> Result<DeepExpr, ReadError>
    requires room { room < 401 }
    requires some { 0 < room }
    requires kind { kind_at reader.old ≡ kinds.Name }
    ensures value { ReadsExpr result reader.new (primary_by (less room) room kinds.Name reader.old) }
    ensures deep { IfOk result (λ x. x.depth ≤ room) }
{
    if reader.is_type() {
        return Err(ReadError::Syntax);
    }
    let line = reader.line();
    let spelling = reader.spelling(alloc)?;
    reader.skip();
    Ok(DeepExpr::name(line, spelling))
}

/// An integer constant.
#[inline(never)]
#[tactic(auto, using(parser_parts::specs::WordEquations::int_words), unfolding(c_tree::specs::Grammar::shape))]
fn int(alloc: Global, reader: &mut Reader, room: usize) -> Result<DeepExpr, ReadError>
    requires room { room < 401 }
    requires some { 0 < room }
    requires kind { kind_at reader.old ≡ kinds.Int }
    ensures value { ReadsExpr result reader.new (primary_by (less room) room kinds.Int reader.old) }
    ensures deep { IfOk result (λ x. x.depth ≤ room) }
{
    let line = reader.line();
    let spelling = reader.spelling(alloc)?;
    reader.skip();
    Ok(DeepExpr::int(line, spelling))
}

/// A character constant.
#[inline(never)]
#[tactic(auto, using(parser_parts::specs::WordEquations::char_words), unfolding(c_tree::specs::Grammar::shape))]
fn character(alloc: Global, reader: &mut Reader, room: usize) -> Result<DeepExpr, ReadError>
    requires room { room < 401 }
    requires some { 0 < room }
    requires kind { kind_at reader.old ≡ kinds.Char }
    ensures value { ReadsExpr result reader.new (primary_by (less room) room kinds.Char reader.old) }
    ensures deep { IfOk result (λ x. x.depth ≤ room) }
{
    let line = reader.line();
    let spelling = reader.spelling(alloc)?;
    reader.skip();
    Ok(DeepExpr::char(line, spelling))
}

/// String literals.
#[inline(never)]
#[tactic(auto, unfolding(c_tree::specs::Grammar::shape))]
fn literals(alloc: Global, reader: &mut Reader, room: usize) -> Result<DeepExpr, ReadError>
    requires room { room < 401 }
    requires some { 0 < room }
    ensures value { ReadsExpr result reader.new (primary_by (less room) room kinds.Str reader.old) }
    ensures deep { IfOk result (λ x. x.depth ≤ room) }
{
    let line = reader.line();
    let spellings = strings(alloc, reader)?;
    Ok(DeepExpr::str(line, spellings))
}
