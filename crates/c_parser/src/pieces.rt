//! Statements without statements in them, and the other parts of statements (C99 6.8).
//!
//! Each function gives what the definition of its form in `Statements.antt` of `grammar_reading` reads; `room` is
//! how deep the tree may be.

ghost use Rattle.std.specs.Prelude.{◌≡◌, ◌<◌};
ghost use Rattle.c_tree.specs.Forms as form;
ghost use Rattle.c_tree.specs.Places.{ForStart as ForStartPlace, MaybeExpr};
ghost use Rattle.c_tree.specs.StatementView.{maybe_expr as maybe_expr_view, start_view, stmt_view};
ghost use Rattle.parser_parts.specs.Gives.{Reads};
ghost use Rattle.grammar_reading.specs.Reading.{fixed, unflagged};
ghost use Rattle.grammar_reading.specs.Rooms.{less, read};
ghost use Rattle.grammar_reading.specs.Statements as spec;
ghost use Rattle.c_parser.specs.Rests.{for_names_at, for_start_at};

use crate::expression::expression;
use crate::levels::COMMA;
use crate::names::{names, some_names};
use crate::specifiers::specs;
use c_tree::{Expr, ForStart, Keyword, Sign, Stmt};
use parser_parts::{ReadError, Reader};
use std::alloc::Global;

/// `;`
#[inline(never)]
#[tactic(auto, unfolding(c_tree::specs::Grammar::shape))]
pub fn empty(reader: &mut Reader, room: usize) -> Result<Stmt, ReadError>
    requires room { room < 401 }
    requires some { 0 < room }
    ensures { Reads stmt_view result reader.new (fixed (less room) form.Empty reader.old) }
{
    let line = reader.line();
    reader.mark(Sign::Semicolon)?;
    Ok(Stmt::empty(line))
}

/// `value;`
#[inline(never)]
#[tactic(auto, using(crate::proofs::Steps::less_step), unfolding(c_tree::specs::Grammar::shape))]
pub fn evaluation(alloc: Global, reader: &mut Reader, room: usize) -> Result<Stmt, ReadError>
    requires room { room < 401 }
    requires some { 0 < room }
    ensures { Reads stmt_view result reader.new (fixed (less room) form.Expr reader.old) }
{
    let line = reader.line();
    let value = expression(alloc, reader, room - 1, COMMA)?;
    reader.mark(Sign::Semicolon)?;
    Ok(Stmt::expr(line, value.tree))
}

/// `break;`
#[inline(never)]
#[tactic(auto, unfolding(c_tree::specs::Grammar::shape))]
pub fn break_out(reader: &mut Reader, room: usize) -> Result<Stmt, ReadError>
    requires room { room < 401 }
    requires some { 0 < room }
    ensures { Reads stmt_view result reader.new (fixed (less room) form.Break reader.old) }
{
    let line = reader.line();
    reader.key(Keyword::Break)?;
    reader.mark(Sign::Semicolon)?;
    Ok(Stmt::break_out(line))
}

/// `continue;`
#[inline(never)]
#[tactic(auto, unfolding(c_tree::specs::Grammar::shape))]
pub fn continue_on(reader: &mut Reader, room: usize) -> Result<Stmt, ReadError>
    requires room { room < 401 }
    requires some { 0 < room }
    ensures { Reads stmt_view result reader.new (fixed (less room) form.Continue reader.old) }
{
    let line = reader.line();
    reader.key(Keyword::Continue)?;
    reader.mark(Sign::Semicolon)?;
    Ok(Stmt::continue_on(line))
}

/// `return;` or `return value;`
#[inline(never)]
#[tactic(auto, using(crate::proofs::Steps::less_step), unfolding(c_tree::specs::Grammar::shape))]
pub fn return_with(alloc: Global, reader: &mut Reader, room: usize) -> Result<Stmt, ReadError>
    requires room { room < 401 }
    requires some { 0 < room }
    ensures { Reads stmt_view result reader.new (fixed (less room) form.Return reader.old) }
{
    let line = reader.line();
    reader.key(Keyword::Return)?;
    let value = maybe_expr(alloc, reader, room - 1)?;
    reader.mark(Sign::Semicolon)?;
    Ok(Stmt::return_with(line, value))
}

/// A declaration in a block.
#[inline(never)]
#[tactic(auto, using(crate::proofs::Steps::less_step), unfolding(c_tree::specs::Grammar::shape))]
pub fn local(alloc: Global, reader: &mut Reader, room: usize) -> Result<Stmt, ReadError>
    requires room { room < 401 }
    requires some { 0 < room }
    ensures { Reads stmt_view result reader.new (unflagged (fixed (less room) form.Local) reader.old) }
{
    let typedef = reader.is_typedef();
    let line = reader.line();
    let words = specs(alloc, reader, room - 1)?;
    let entries = names(alloc, reader, room - 1)?;
    reader.mark(Sign::Semicolon)?;
    reader.set_typedef(typedef);
    Ok(Stmt::local(line, words.tree, entries))
}

/// Says whether an expression that may be left out stands here.
fn has_expr(reader: &Reader) -> bool
    ensures { result ≡ spec.has_expr reader.now }
{
    !reader.is_mark(Sign::Semicolon) && !reader.is_mark(Sign::RightParen)
}

/// An expression that may be left out.
#[tactic(auto, unfolding(c_tree::specs::Grammar::shape))]
pub fn maybe_expr(
    alloc: Global,
    reader: &mut Reader,
    room: usize,
) -> Result<Option<Expr>, ReadError>
    requires room { room < 401 }
    ensures { Reads maybe_expr_view result reader.new (read room MaybeExpr reader.old) }
{
    if !has_expr(reader) {
        return Ok(None);
    }
    let value = expression(alloc, reader, room, COMMA)?;
    Ok(Some(value.tree))
}

/// What stands before the first `;` of a `for`, and that `;`.
#[inline(never)]
pub fn for_start(alloc: Global, reader: &mut Reader, room: usize) -> Result<ForStart, ReadError>
    requires room { room < 401 }
    ensures { Reads start_view result reader.new (read room ForStartPlace reader.old) }
{
    if reader.starts_type() {
        return for_names(alloc, reader, room);
    }
    for_expr(alloc, reader, room)
}

/// The names that a `for` declares.
#[tactic(auto, unfolding(c_tree::specs::Grammar::shape))]
fn for_names(alloc: Global, reader: &mut Reader, room: usize) -> Result<ForStart, ReadError>
    requires room { room < 401 }
    ensures { Reads start_view result reader.new (for_names_at room reader.old) }
{
    let typedef = reader.is_typedef();
    let words = specs(alloc, reader, room)?;
    let entries = some_names(alloc, reader, room)?;
    reader.mark(Sign::Semicolon)?;
    reader.set_typedef(typedef);
    Ok(ForStart::Names(words.tree, entries))
}

/// The expression that a `for` begins with.
#[tactic(auto, unfolding(c_tree::specs::Grammar::shape))]
fn for_expr(alloc: Global, reader: &mut Reader, room: usize) -> Result<ForStart, ReadError>
    requires room { room < 401 }
    ensures { Reads start_view result reader.new (for_start_at room reader.old) }
{
    let value = maybe_expr(alloc, reader, room)?;
    reader.mark(Sign::Semicolon)?;
    Ok(ForStart::Expr(value))
}
