//! Reading statements (C99 6.8).
//!
//! Each function gives what the definition of its form in `Statements.antt` of `grammar_reading` reads; `room` is
//! how deep the tree may be.

ghost use Rattle.std.specs.Prelude.{◌<◌};
ghost use Rattle.c_tree.specs.Forms as form;
ghost use Rattle.c_tree.specs.Places.{Statement, Branch, Items as ItemsPlace};
ghost use Rattle.c_tree.specs.StatementView.{trees, items_view, stmt_view};
ghost use Rattle.parser_parts.specs.Gives.{Reads};
ghost use Rattle.grammar_reading.specs.Reading.{fixed, scoped};
ghost use Rattle.grammar_reading.specs.Rooms.{less, read};
ghost use Rattle.grammar_reading.specs.Statements as spec;
ghost use Rattle.c_parser.specs.Ends.{Ends};
ghost use Rattle.c_parser.specs.Pieces.{open_at};
ghost use Rattle.c_parser.specs.Readers.{ReadsForRest, ReadsForStep, ReadsEnclosed, ReadsElse, Pushes};
ghost use Rattle.c_parser.specs.Rests.{if_behind, else_at, for_behind};
ghost use Rattle.c_parser.specs.Rests as rests;

use crate::expression::expression;
use crate::levels::{COMMA, CONDITION};
use crate::pieces::{
    break_out, continue_on, empty, evaluation, for_start, local, maybe_expr, return_with,
};
use c_tree::{Expr, Keyword, Sign, Stmt};
use grammar_reading::{Kind, trees_are_read};
use hs_base::{Line, NoMemory};
use parser_parts::{Outer, ReadError, Reader};
use std::alloc::Global;

/// A statement.
#[cycle(statements)]
#[tactic(auto, using(crate::proofs::Steps::guarded_step))]
pub fn statement(alloc: Global, reader: &mut Reader, room: usize) -> Result<Stmt, ReadError>
    requires room { room < 401 }
    ensures { Reads stmt_view result reader.new (read room Statement reader.old) }
{
    if room == 0 {
        return Err(ReadError::Syntax);
    }
    unguarded(alloc, reader, room)
}

/// The same, where there is room.
#[cycle(statements)]
fn unguarded(alloc: Global, reader: &mut Reader, room: usize) -> Result<Stmt, ReadError>
    requires room { room < 401 }
    requires some { 0 < room }
    ensures { Reads stmt_view result reader.new (spec.statement_at (less room) room reader.old) }
{
    match reader.kind() {
        Kind::Mark(Sign::Semicolon) => empty(reader, room),
        Kind::Mark(Sign::LeftBrace) => block(alloc, reader, room),
        Kind::Key(keyword) => by_keyword(alloc, reader, room, keyword),
        _ => evaluation(alloc, reader, room),
    }
}

/// A statement that may begin with a keyword.
#[cycle(statements)]
#[tactic(auto, unfolding(grammar_reading::specs::Statements::statement_key))]
fn by_keyword(
    alloc: Global,
    reader: &mut Reader,
    room: usize,
    keyword: Keyword,
) -> Result<Stmt, ReadError>
    requires room { room < 401 }
    requires some { 0 < room }
    ensures { Reads stmt_view result reader.new (rests.by_keyword room keyword reader.old) }
{
    match keyword {
        Keyword::DelayFrees => compound(alloc, reader, room, Keyword::DelayFrees),
        Keyword::If => compound(alloc, reader, room, Keyword::If),
        Keyword::While => compound(alloc, reader, room, Keyword::While),
        Keyword::Do => compound(alloc, reader, room, Keyword::Do),
        Keyword::For => compound(alloc, reader, room, Keyword::For),
        Keyword::Switch => compound(alloc, reader, room, Keyword::Switch),
        Keyword::Case => case(alloc, reader, room),
        Keyword::Default => default_case(alloc, reader, room),
        Keyword::Break => break_out(reader, room),
        Keyword::Continue => continue_on(reader, room),
        Keyword::Return => return_with(alloc, reader, room),
        _ => evaluation(alloc, reader, room),
    }
}

/// A statement with parts of its own, which is a scope.
#[inline(never)]
#[cycle(statements)]
fn compound(
    alloc: Global,
    reader: &mut Reader,
    room: usize,
    keyword: Keyword,
) -> Result<Stmt, ReadError>
    requires room { room < 401 }
    requires some { 0 < room }
    ensures { Reads stmt_view result reader.new (scoped (open_at (less room) room keyword) reader.old) }
{
    trees_are_read();
    let outer = reader.enter();
    let read = open(alloc, reader, room, keyword);
    ended(reader, outer, read)
}

/// The same, whose names still hold.
#[cycle(statements)]
fn open(
    alloc: Global,
    reader: &mut Reader,
    room: usize,
    keyword: Keyword,
) -> Result<Stmt, ReadError>
    requires room { room < 401 }
    requires some { 0 < room }
    ensures { Reads stmt_view result reader.new (open_at (less room) room keyword reader.old) }
{
    match keyword {
        Keyword::DelayFrees => delay(alloc, reader, room),
        Keyword::If => branching(alloc, reader, room),
        Keyword::While => while_loop(alloc, reader, room),
        Keyword::Do => do_loop(alloc, reader, room),
        Keyword::For => for_loop(alloc, reader, room),
        Keyword::Switch => switch(alloc, reader, room),
        _ => Err(ReadError::Syntax),
    }
}

/// A statement that is a scope of its own.
#[cycle(statements)]
fn branch(alloc: Global, reader: &mut Reader, room: usize) -> Result<Stmt, ReadError>
    requires room { room < 401 }
    ensures { Reads stmt_view result reader.new (read room Branch reader.old) }
{
    trees_are_read();
    let outer = reader.enter();
    let read = statement(alloc, reader, room);
    ended(reader, outer, read)
}

/// Ends the scope of what was read in it. For any type, since dropping a statement is long to prove.
#[inline(never)]
fn ended<T: Drop>(
    reader: &mut Reader,
    outer: Outer,
    read: Result<T, ReadError>,
) -> Result<T, ReadError>
    ensures { Ends outer read result reader.old reader.new }
{
    let tree = read?;
    reader.leave(outer)?;
    Ok(tree)
}

/// `{ items }`
#[cycle(statements)]
fn block(alloc: Global, reader: &mut Reader, room: usize) -> Result<Stmt, ReadError>
    requires room { room < 401 }
    requires some { 0 < room }
    ensures { Reads stmt_view result reader.new (scoped (fixed (less room) form.Block) reader.old) }
{
    trees_are_read();
    let outer = reader.enter();
    let read = open_block(alloc, reader, room);
    ended(reader, outer, read)
}

/// The same, whose names still hold.
#[inline(never)]
#[cycle(statements)]
#[tactic(auto, using(crate::proofs::Steps::less_step), unfolding(c_tree::specs::Grammar::shape))]
fn open_block(alloc: Global, reader: &mut Reader, room: usize) -> Result<Stmt, ReadError>
    requires room { room < 401 }
    requires some { 0 < room }
    ensures { Reads stmt_view result reader.new (fixed (less room) form.Block reader.old) }
{
    let line = reader.line();
    reader.mark(Sign::LeftBrace)?;
    let list = items(alloc, reader, room - 1)?;
    reader.mark(Sign::RightBrace)?;
    Ok(Stmt::block(line, list))
}

/// `__delay_frees { items }`
#[inline(never)]
#[cycle(statements)]
#[tactic(auto, using(crate::proofs::Steps::less_step), unfolding(c_tree::specs::Grammar::shape))]
fn delay(alloc: Global, reader: &mut Reader, room: usize) -> Result<Stmt, ReadError>
    requires room { room < 401 }
    requires some { 0 < room }
    ensures { Reads stmt_view result reader.new (fixed (less room) form.Delay reader.old) }
{
    let line = reader.line();
    reader.key(Keyword::DelayFrees)?;
    reader.mark(Sign::LeftBrace)?;
    let list = items(alloc, reader, room - 1)?;
    reader.mark(Sign::RightBrace)?;
    Ok(Stmt::delay(line, list))
}

/// `if (test) body`, and the statement behind `else`.
#[inline(never)]
#[cycle(statements)]
#[tactic(auto, using(crate::proofs::Steps::less_step), unfolding(c_tree::specs::Grammar::shape))]
fn branching(alloc: Global, reader: &mut Reader, room: usize) -> Result<Stmt, ReadError>
    requires room { room < 401 }
    requires some { 0 < room }
    ensures { Reads stmt_view result reader.new (spec.if_at (less room) room reader.old) }
{
    let line = reader.line();
    reader.key(Keyword::If)?;
    reader.mark(Sign::LeftParen)?;
    let test = expression(alloc, reader, room - 1, COMMA)?;
    let body = enclosed_body(alloc, reader, room)?;
    let stmt = otherwise(alloc, reader, room, line, test.tree, body)?;
    Ok(stmt)
}

/// The rest of an `if`, with its `else` where it has one.
#[inline(never)]
#[cycle(statements)]
#[tactic(auto, using(crate::proofs::Branches::else_is, crate::proofs::Branches::else_fails))]
fn otherwise(
    alloc: Global,
    reader: &mut Reader,
    room: usize,
    line: Line,
    test: Expr,
    body: Stmt,
) -> Result<Stmt, ReadError>
    requires room { room < 401 }
    requires some { 0 < room }
    ensures { Reads stmt_view result reader.new (if_behind room line test body reader.old) }
{
    let other = else_branch(alloc, reader, room)?;
    let stmt = Stmt::branch(alloc, line, test, body, other)?;
    Ok(stmt)
}

/// The statement behind `else`, where there is one.
#[inline(never)]
#[cycle(statements)]
#[tactic(auto, using(crate::proofs::Steps::less_step))]
fn else_branch(alloc: Global, reader: &mut Reader, room: usize) -> Result<Option<Stmt>, ReadError>
    requires room { room < 401 }
    requires some { 0 < room }
    ensures { ReadsElse result reader.new (else_at room reader.old) }
{
    if !reader.take_else() {
        return Ok(None);
    }
    let other = branch(alloc, reader, room - 1)?;
    Ok(Some(other))
}

/// `while (test) body`
#[inline(never)]
#[cycle(statements)]
#[tactic(auto, using(crate::proofs::Steps::less_step), unfolding(c_tree::specs::Grammar::shape))]
fn while_loop(alloc: Global, reader: &mut Reader, room: usize) -> Result<Stmt, ReadError>
    requires room { room < 401 }
    requires some { 0 < room }
    ensures { Reads stmt_view result reader.new (fixed (less room) form.While reader.old) }
{
    let line = reader.line();
    reader.key(Keyword::While)?;
    reader.mark(Sign::LeftParen)?;
    let test = expression(alloc, reader, room - 1, COMMA)?;
    let body = enclosed_body(alloc, reader, room)?;
    let stmt = Stmt::while_loop(alloc, line, test.tree, body)?;
    Ok(stmt)
}

/// `do body while (test);`
#[inline(never)]
#[cycle(statements)]
#[tactic(auto, using(crate::proofs::Steps::less_step), unfolding(c_tree::specs::Grammar::shape))]
fn do_loop(alloc: Global, reader: &mut Reader, room: usize) -> Result<Stmt, ReadError>
    requires room { room < 401 }
    requires some { 0 < room }
    ensures { Reads stmt_view result reader.new (fixed (less room) form.Do reader.old) }
{
    let line = reader.line();
    reader.key(Keyword::Do)?;
    let body = branch(alloc, reader, room - 1)?;
    reader.key(Keyword::While)?;
    reader.mark(Sign::LeftParen)?;
    let test = expression(alloc, reader, room - 1, COMMA)?;
    reader.mark(Sign::RightParen)?;
    reader.mark(Sign::Semicolon)?;
    let stmt = Stmt::do_loop(alloc, line, body, test.tree)?;
    Ok(stmt)
}

/// `for (start test; step) body`
#[inline(never)]
#[cycle(statements)]
#[tactic(auto, using(crate::proofs::Steps::less_step), unfolding(c_tree::specs::Grammar::shape))]
fn for_loop(alloc: Global, reader: &mut Reader, room: usize) -> Result<Stmt, ReadError>
    requires room { room < 401 }
    requires some { 0 < room }
    ensures { Reads stmt_view result reader.new (fixed (less room) form.For reader.old) }
{
    let line = reader.line();
    reader.key(Keyword::For)?;
    reader.mark(Sign::LeftParen)?;
    let start = for_start(alloc, reader, room - 1)?;
    let rest = for_rest(alloc, reader, room)?;
    let stmt = Stmt::for_loop(alloc, line, start, rest.test, rest.step, rest.body)?;
    Ok(stmt)
}

/// What stands behind the start of a `for`.
#[derive(Drop)]
struct ForRest {
    test: Option<Expr>,
    step: Option<Expr>,
    body: Stmt,
}

/// `test; step) body`
#[cycle(statements)]
#[tactic(auto, using(crate::proofs::Steps::less_step), unfolding(c_tree::specs::Grammar::shape))]
fn for_rest(alloc: Global, reader: &mut Reader, room: usize) -> Result<ForRest, ReadError>
    requires room { room < 401 }
    requires some { 0 < room }
    ensures { ReadsForRest result reader.new (for_behind room 4 reader.old) }
{
    let test = maybe_expr(alloc, reader, room - 1)?;
    let (step, body) = for_step(alloc, reader, room)?;
    Ok(ForRest { test, step, body })
}

/// `; step) body`
#[inline(never)]
#[cycle(statements)]
#[tactic(auto, using(crate::proofs::Steps::less_step), unfolding(c_tree::specs::Grammar::shape))]
fn for_step(
    alloc: Global,
    reader: &mut Reader,
    room: usize,
) -> Result<(Option<Expr>, Stmt), ReadError>
    requires room { room < 401 }
    requires some { 0 < room }
    ensures { ReadsForStep result reader.new (for_behind room 5 reader.old) }
{
    reader.mark(Sign::Semicolon)?;
    let step = maybe_expr(alloc, reader, room - 1)?;
    let body = enclosed_body(alloc, reader, room)?;
    Ok((step, body))
}

/// `) body`
#[cycle(statements)]
#[tactic(auto, using(crate::proofs::Steps::less_step))]
fn enclosed_body(alloc: Global, reader: &mut Reader, room: usize) -> Result<Stmt, ReadError>
    requires room { room < 401 }
    requires some { 0 < room }
    ensures { ReadsEnclosed result reader.new (rests.enclosed_body room reader.old) }
{
    reader.mark(Sign::RightParen)?;
    let body = branch(alloc, reader, room - 1)?;
    Ok(body)
}

/// `switch (value) body`
#[inline(never)]
#[cycle(statements)]
#[tactic(auto, using(crate::proofs::Steps::less_step), unfolding(c_tree::specs::Grammar::shape))]
fn switch(alloc: Global, reader: &mut Reader, room: usize) -> Result<Stmt, ReadError>
    requires room { room < 401 }
    requires some { 0 < room }
    ensures { Reads stmt_view result reader.new (fixed (less room) form.Switch reader.old) }
{
    let line = reader.line();
    reader.key(Keyword::Switch)?;
    reader.mark(Sign::LeftParen)?;
    let value = expression(alloc, reader, room - 1, COMMA)?;
    let body = enclosed_body(alloc, reader, room)?;
    let stmt = Stmt::switch(alloc, line, value.tree, body)?;
    Ok(stmt)
}

/// `case value: body`
#[inline(never)]
#[cycle(statements)]
#[tactic(auto, using(crate::proofs::Steps::less_step), unfolding(c_tree::specs::Grammar::shape))]
fn case(alloc: Global, reader: &mut Reader, room: usize) -> Result<Stmt, ReadError>
    requires room { room < 401 }
    requires some { 0 < room }
    ensures { Reads stmt_view result reader.new (fixed (less room) form.Case reader.old) }
{
    let line = reader.line();
    reader.key(Keyword::Case)?;
    let value = expression(alloc, reader, room - 1, CONDITION)?;
    reader.mark(Sign::Colon)?;
    let body = statement(alloc, reader, room - 1)?;
    let stmt = Stmt::case(alloc, line, value.tree, body)?;
    Ok(stmt)
}

/// `default: body`
#[inline(never)]
#[cycle(statements)]
#[tactic(auto, using(crate::proofs::Steps::less_step), unfolding(c_tree::specs::Grammar::shape))]
fn default_case(alloc: Global, reader: &mut Reader, room: usize) -> Result<Stmt, ReadError>
    requires room { room < 401 }
    requires some { 0 < room }
    ensures { Reads stmt_view result reader.new (fixed (less room) form.Default reader.old) }
{
    let line = reader.line();
    reader.key(Keyword::Default)?;
    reader.mark(Sign::Colon)?;
    let body = statement(alloc, reader, room - 1)?;
    let stmt = Stmt::default_case(alloc, line, body)?;
    Ok(stmt)
}

/// What stands in a block.
#[cycle(statements)]
#[tactic(auto, using(crate::proofs::Steps::list_step))]
pub fn items(alloc: Global, reader: &mut Reader, room: usize) -> Result<Vec<Stmt>, ReadError>
    requires room { room < 401 }
    ensures { Reads (λ all. items_view all.items) result reader.new (read room ItemsPlace reader.old) }
{
    let mut list = Vec::new(alloc);
    let mut turns = reader.left() + 1;
    'all: while turns > 0 {
        if reader.is_mark(Sign::RightBrace) {
            return Ok(list);
        }
        let stmt = item(alloc, reader, room)?;
        push(&mut list, stmt)?;
        turns -= 1;
    }
    Err(ReadError::Syntax)
}

/// Puts a statement behind others.
#[tactic(auto, using(parser_parts::specs::TreesEquations::trees_behind))]
fn push(list: &mut Vec<Stmt>, stmt: Stmt) -> Result<(), NoMemory>
    ensures { Pushes (trees stmt_view) result list.old.items list.new.items (stmt_view stmt) }
{
    list.push(stmt)?;
    Ok(())
}

/// A statement or a declaration.
#[cycle(statements)]
#[tactic(auto, using(crate::proofs::Steps::guarded_step))]
fn item(alloc: Global, reader: &mut Reader, room: usize) -> Result<Stmt, ReadError>
    requires room { room < 401 }
    ensures { Reads stmt_view result reader.new (spec.item_at (less room) room reader.old) }
{
    if !reader.starts_type() {
        return statement(alloc, reader, room);
    }
    if room == 0 {
        return Err(ReadError::Syntax);
    }
    local(alloc, reader, room)
}
