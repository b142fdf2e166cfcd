//! Reading external declarations (C99 6.9).
//!
//! Each function gives what the definition of its name in `Statements.antt` of `grammar_reading` reads; `room` is
//! how deep the tree may be.

ghost use Rattle.std.specs.Prelude.{◌≡◌, ◌<◌};
ghost use Rattle.c_tree.specs.Forms as form;
ghost use Rattle.c_tree.specs.StatementView.{declared_view, names_view};
ghost use Rattle.parser_parts.specs.Gives.{Reads};
ghost use Rattle.grammar_reading.specs.Reading.{fixed};
ghost use Rattle.grammar_reading.specs.Rooms.{less};
ghost use Rattle.grammar_reading.specs.Statements as spec;
ghost use Rattle.c_parser.specs.Readers.{ReadsBody, ReadsDecl};
ghost use Rattle.c_parser.specs.Rests.{external_behind, declared_behind, function_behind, declaration_behind, names_behind};

use crate::function::is_function;
use crate::names::{declared, entry_rest, names_more};
use crate::specifiers::specs;
use crate::statement::items;
use c_tree::{Decl, Declarator, Init, Sign, Specs, Stmt};
use grammar_reading::trees_are_read;
use hs_base::{Items, Line};
use parser_parts::{ReadError, Reader};
use std::alloc::Global;

/// The body of a function.
#[derive(Drop)]
struct Body {
    items: Items<Stmt>,
    /// The line of its closing brace.
    end: Line,
}

/// An external declaration.
pub fn external(alloc: Global, reader: &mut Reader, room: usize) -> Result<Decl, ReadError>
    requires room { room < 401 }
    requires some { 0 < room }
    ensures { ReadsDecl result reader.new (spec.external_at (less room) room reader.old) }
{
    let typedef = reader.is_typedef();
    let line = reader.line();
    let words = specs(alloc, reader, room)?;
    let decl = behind_specs(alloc, reader, room, line, words.tree)?;
    reader.set_typedef(typedef);
    Ok(decl)
}

/// The rest of an external declaration, behind its specs.
fn behind_specs(
    alloc: Global,
    reader: &mut Reader,
    room: usize,
    line: Line,
    words: Specs,
) -> Result<Decl, ReadError>
    requires room { room < 401 }
    requires some { 0 < room }
    ensures { ReadsDecl result reader.new (external_behind room line words reader.old) }
{
    if reader.is_mark(Sign::Semicolon) {
        return declaration(reader, line, words, Items::new(alloc));
    }
    let declarator = declared(alloc, reader, room)?;
    behind_declarator(alloc, reader, room, line, words, declarator)
}

/// The rest of an external declaration, behind its first declarator.
fn behind_declarator(
    alloc: Global,
    reader: &mut Reader,
    room: usize,
    line: Line,
    words: Specs,
    declarator: Declarator,
) -> Result<Decl, ReadError>
    requires room { room < 401 }
    requires some { 0 < room }
    ensures { ReadsDecl result reader.new (declared_behind room line words declarator reader.old) }
{
    if begins_body(reader, &declarator) {
        return function(alloc, reader, room, line, words, declarator);
    }
    let entries = names_from(alloc, reader, room, declarator)?;
    declaration(reader, line, words, entries)
}

/// Says whether the body of a function stands behind a declarator.
#[tactic(auto, using(crate::proofs::Functions::declared_params))]
fn begins_body(reader: &Reader, declarator: &Declarator) -> bool
    ensures { result ≡ spec.begins_body (less 0) 0 (declared_view declarator.now) reader.now }
{
    reader.is_mark(Sign::LeftBrace) && is_function(declarator) && !reader.is_typedef()
}

/// The rest of a declaration, behind its names.
fn declaration(
    reader: &mut Reader,
    line: Line,
    words: Specs,
    entries: Items<(Declarator, Option<Init>)>,
) -> Result<Decl, ReadError>
    ensures { ReadsDecl result reader.new (declaration_behind line words entries reader.old) }
{
    reader.mark(Sign::Semicolon)?;
    Ok(Decl::names(line, words, entries))
}

/// The names of a declaration, behind the first declarator.
fn names_from(
    alloc: Global,
    reader: &mut Reader,
    room: usize,
    declarator: Declarator,
) -> Result<Items<(Declarator, Option<Init>)>, ReadError>
    requires room { room < 401 }
    ensures { Reads names_view result reader.new (names_behind room declarator reader.old) }
{
    let first = entry_rest(alloc, reader, room, declarator)?;
    let mut list = Items::new(alloc);
    list.push(first)?;
    if !reader.is_mark(Sign::Comma) {
        return Ok(list);
    }
    let turns = reader.left();
    reader.skip();
    names_more(alloc, reader, room, turns, list)
}

/// The body of a function, which ends its definition.
fn function(
    alloc: Global,
    reader: &mut Reader,
    room: usize,
    line: Line,
    words: Specs,
    declarator: Declarator,
) -> Result<Decl, ReadError>
    requires room { room < 401 }
    requires some { 0 < room }
    ensures { ReadsDecl result reader.new (function_behind room line words declarator reader.old) }
{
    let body = read_body(alloc, reader, room)?;
    Ok(Decl::function(line, words, declarator, body.items, body.end))
}

/// The body of a function: the parameters are declared in it.
fn read_body(alloc: Global, reader: &mut Reader, room: usize) -> Result<Body, ReadError>
    requires room { room < 401 }
    requires some { 0 < room }
    ensures { ReadsBody result reader.new (spec.body_at (less room) room reader.old) }
{
    trees_are_read();
    let outer = reader.enter();
    reader.declare_params()?;
    let body = open_body(alloc, reader, room)?;
    reader.leave(outer)?;
    Ok(body)
}

/// The same, whose names still hold.
#[tactic(auto, using(crate::proofs::Steps::less_step), unfolding(c_tree::specs::Grammar::shape))]
fn open_body(alloc: Global, reader: &mut Reader, room: usize) -> Result<Body, ReadError>
    requires room { room < 401 }
    requires some { 0 < room }
    ensures { ReadsBody result reader.new (fixed (less room) form.Body reader.old) }
{
    reader.mark(Sign::LeftBrace)?;
    let list = items(alloc, reader, room - 1)?;
    let end = reader.line();
    reader.mark(Sign::RightBrace)?;
    Ok(Body {
        items: list.into(),
        end,
    })
}
