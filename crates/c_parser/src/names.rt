//! Reading initializers and the names of declarations (C99 6.7 and 6.7.8).

ghost use Rattle.std.specs.Prelude.{◌<◌};
ghost use Rattle.c_tree.specs.Places as place;
ghost use Rattle.c_tree.specs.StatementView.{trees, init_view, inits_view, declared_view, entry_view, names_view};
ghost use Rattle.c_parser.specs.Readers.{ReadsMaybeInit, Pushes};
ghost use Rattle.c_parser.specs.Rests.{init_expr_at, entry_behind};
ghost use Rattle.c_parser.specs.Rests as rests;
ghost use Rattle.grammar_reading.specs.Declarators as spec;
ghost use Rattle.parser_parts.specs.Gives.{Reads};
ghost use Rattle.grammar_reading.specs.Rooms.{less, read};

use crate::declarator::declarator;
use crate::expression::expression;
use crate::kind::NameSort;
use crate::levels::ASSIGNMENT;
use c_tree::{Declarator, Init, Sign};
use hs_base::{Items, NoMemory};
use parser_parts::{ReadError, Reader};
use std::alloc::Global;

/// An initializer.
#[cycle(init)]
fn init(alloc: Global, reader: &mut Reader, room: usize) -> Result<Init, ReadError>
    requires room { room < 401 }
    ensures { Reads init_view result reader.new (spec.init_at (less room) room reader.old) }
{
    if reader.is_mark(Sign::LeftBrace) {
        return init_list(alloc, reader, room);
    }
    init_value(alloc, reader, room)
}

/// An initializer that is an expression.
#[tactic(auto, unfolding(c_tree::specs::Grammar::shape))]
fn init_value(alloc: Global, reader: &mut Reader, room: usize) -> Result<Init, ReadError>
    requires room { room < 401 }
    ensures { Reads init_view result reader.new (init_expr_at room reader.old) }
{
    let line = reader.line();
    let value = expression(alloc, reader, room, ASSIGNMENT)?;
    Ok(Init::expr(line, value.tree))
}

/// Initializers in braces.
#[cycle(init)]
#[tactic(auto, using(crate::proofs::Steps::less_step, crate::proofs::Steps::less_none), unfolding(c_tree::specs::Grammar::shape))]
fn init_list(alloc: Global, reader: &mut Reader, room: usize) -> Result<Init, ReadError>
    requires room { room < 401 }
    ensures { Reads init_view result reader.new (spec.init_list_at (less room) room reader.old) }
{
    let line = reader.line();
    reader.mark(Sign::LeftBrace)?;
    if room == 0 {
        return Err(ReadError::Syntax);
    }
    let list = inits(alloc, reader, room - 1)?;
    let trailing = reader.is_mark(Sign::Comma);
    reader.closing(trailing)?;
    Ok(Init::list(line, list, trailing))
}

/// The initializers of a list.
#[cycle(init)]
#[tactic(auto, using(crate::proofs::Steps::commas_step))]
fn inits(alloc: Global, reader: &mut Reader, room: usize) -> Result<Vec<Init>, ReadError>
    requires room { room < 401 }
    ensures { Reads (λ x. inits_view x.items) result reader.new (read room place.Inits reader.old) }
{
    let mut list = Vec::new(alloc);
    let mut turns = reader.left();
    'inits: while turns > 0 {
        let next = init(alloc, reader, room)?;
        push_init(&mut list, next)?;
        if !reader.goes_on_inside() {
            return Ok(list);
        }
        reader.skip();
        turns -= 1;
    }
    Err(ReadError::Syntax)
}

/// Puts an initializer behind others.
#[tactic(auto, using(parser_parts::specs::TreesEquations::trees_behind))]
fn push_init(list: &mut Vec<Init>, next: Init) -> Result<(), NoMemory>
    ensures { Pushes (trees init_view) result list.old.items list.new.items (init_view next) }
{
    list.push(next)?;
    Ok(())
}

/// An initializer, where one is given; a typedef name has none.
#[tactic(auto, unfolding(c_tree::specs::Grammar::shape))]
fn maybe_init(alloc: Global, reader: &mut Reader, room: usize) -> Result<Option<Init>, ReadError>
    requires room { room < 401 }
    ensures { ReadsMaybeInit result reader.new (spec.maybe_init_at (less room) room reader.old) }
{
    if !reader.has_init() {
        return Ok(None);
    }
    reader.mark(Sign::Equal)?;
    let value = init(alloc, reader, room)?;
    Ok(Some(value))
}

/// A declarator with a name, which is declared behind it.
#[tactic(auto, unfolding(c_tree::specs::Grammar::shape, c_tree::specs::Scopes::name_among))]
pub fn declared(alloc: Global, reader: &mut Reader, room: usize) -> Result<Declarator, ReadError>
    requires room { room < 401 }
    ensures { Reads declared_view result reader.new (spec.declared_at (less room) room reader.old) }
{
    let is_type = reader.is_typedef();
    let d = declarator(alloc, reader, room, NameSort::Named)?;
    reader.declare(d.name, is_type)?;
    Ok(d.tree)
}

/// The rest of an entry, behind its declarator.
pub fn entry_rest(
    alloc: Global,
    reader: &mut Reader,
    room: usize,
    declarator: Declarator,
) -> Result<(Declarator, Option<Init>), ReadError>
    requires room { room < 401 }
    ensures { Reads entry_view result reader.new (entry_behind room declarator reader.old) }
{
    let value = maybe_init(alloc, reader, room)?;
    Ok((declarator, value))
}

/// A name of a declaration with its initializer.
fn entry(
    alloc: Global,
    reader: &mut Reader,
    room: usize,
) -> Result<(Declarator, Option<Init>), ReadError>
    requires room { room < 401 }
    ensures { Reads entry_view result reader.new (spec.entry_at (less room) room reader.old) }
{
    let name = declared(alloc, reader, room)?;
    entry_rest(alloc, reader, room, name)
}

/// More names of a declaration, behind some, at most so many.
#[tactic(auto, using(crate::proofs::Steps::commas_step))]
pub fn names_more(
    alloc: Global,
    reader: &mut Reader,
    room: usize,
    most: usize,
    some: Items<(Declarator, Option<Init>)>,
) -> Result<Items<(Declarator, Option<Init>)>, ReadError>
    requires room { room < 401 }
    ensures { Reads names_view result reader.new (rests.names_more room most some reader.old) }
{
    let mut list = some;
    let mut turns = most;
    'names: while turns > 0 {
        let next = entry(alloc, reader, room)?;
        push_entry(&mut list, next)?;
        if !reader.is_mark(Sign::Comma) {
            return Ok(list);
        }
        reader.skip();
        turns -= 1;
    }
    Err(ReadError::Syntax)
}

/// Puts a name behind others.
#[tactic(auto, using(parser_parts::specs::TreesEquations::trees_behind))]
fn push_entry(
    list: &mut Items<(Declarator, Option<Init>)>,
    next: (Declarator, Option<Init>),
) -> Result<(), NoMemory>
    ensures { Pushes (trees entry_view) result list.old list.new (entry_view next) }
{
    list.push(next)?;
    Ok(())
}

/// The names of a declaration, at least one.
pub fn some_names(
    alloc: Global,
    reader: &mut Reader,
    room: usize,
) -> Result<Items<(Declarator, Option<Init>)>, ReadError>
    requires room { room < 401 }
    ensures { Reads names_view result reader.new (spec.some_names_at (less room) room reader.old) }
{
    let turns = reader.left();
    names_more(alloc, reader, room, turns, Items::new(alloc))
}

/// The names of a declaration, which may be left out.
pub fn names(
    alloc: Global,
    reader: &mut Reader,
    room: usize,
) -> Result<Items<(Declarator, Option<Init>)>, ReadError>
    requires room { room < 401 }
    ensures { Reads names_view result reader.new (read room place.Names reader.old) }
{
    if reader.is_mark(Sign::Semicolon) {
        return Ok(Items::new(alloc));
    }
    some_names(alloc, reader, room)
}
