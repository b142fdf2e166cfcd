//! Reading tags, members and enumerators (C99 6.7.2.1 and 6.7.2.2).

ghost use Rattle.std.specs.Prelude.{◌<◌, ◌≤◌, false, IfOk};
ghost use Rattle.c_tree.specs.Forms as form;
ghost use Rattle.c_tree.specs.Grammar.{shape};
ghost use Rattle.c_tree.specs.Places as place;
ghost use Rattle.grammar_reading.specs.Declarators as spec;
ghost use Rattle.grammar_reading.specs.Declarators.{member_names_at, maybe_value_at};
ghost use Rattle.c_parser.specs.Readers.{ReadsMaybeValue};
ghost use Rattle.c_parser.specs.Rests.{enum_body_at};
ghost use Rattle.parser_parts.specs.Trees.{ReadsEnumerator, ReadsEnumerators, ReadsMember, ReadsMemberNames, ReadsMembers, ReadsTag};
ghost use Rattle.grammar_reading.specs.Reading.{fixed};
ghost use Rattle.grammar_reading.specs.Rooms.{less, read};

use crate::declarator::declarator;
use crate::expression::expression;
use crate::kind::{NameSort, record_word};
use crate::levels::CONDITION;
use crate::specifiers::plain_specs;
use c_tree::{Enumerator, Keyword, Member, RecordSort, Sign, Tag};
use parser_parts::{
    DeepDeclarators, DeepEnumerator, DeepEnumerators, DeepMaybeExpr, DeepMember, DeepMembers,
    DeepTag, ReadError, Reader,
};
use std::alloc::Global;

/// A struct or a union.
#[cycle(grammar)]
pub fn record(
    alloc: Global,
    reader: &mut Reader,
    room: usize,
    sort: RecordSort,
) -> Result<DeepTag, ReadError>
    requires room { room < 401 }
    ensures value { ReadsTag result reader.new (spec.record_at (less room) room sort reader.old) }
    ensures deep { IfOk result (λ x. x.depth ≤ room) }
{
    if reader.is_tag_alone() {
        return record_tag(alloc, reader, room, sort);
    }
    record_body(alloc, reader, room, sort)
}

/// A struct or a union by its name.
#[tactic(auto, unfolding(c_tree::specs::Grammar::shape, c_tree::specs::Depth::below, c_tree::specs::Depth::layers, c_tree::specs::Depth::greatest_depth, c_tree::specs::Depth::is_of_declarator, c_tree::specs::Depth::layer, c_tree::specs::Depth::weight, c_tree::specs::Grammar::form_home))]
fn record_tag(
    alloc: Global,
    reader: &mut Reader,
    room: usize,
    sort: RecordSort,
) -> Result<DeepTag, ReadError>
    requires room { room < 401 }
    ensures value { ReadsTag result reader.new (fixed spec.name_part (form.RecordTag sort) reader.old) }
    ensures deep { IfOk result (λ x. x.depth ≤ room) }
{
    let line = reader.line();
    reader.key(record_word(sort))?;
    let name = reader.name(alloc)?;
    Ok(DeepTag {
        tree: Tag::record(line, sort, name),
        depth: 0,
    })
}

/// A struct or a union with its members.
#[cycle(grammar)]
#[tactic(auto, using(crate::proofs::Steps::less_step, crate::proofs::Steps::less_none, crate::proofs::Steps::guarded_step), unfolding(c_tree::specs::Grammar::shape, c_tree::specs::Depth::below, c_tree::specs::Depth::layers, c_tree::specs::Depth::greatest_depth, c_tree::specs::Depth::is_of_declarator, c_tree::specs::Depth::layer, c_tree::specs::Depth::weight, c_tree::specs::Grammar::form_home))]
fn record_body(
    alloc: Global,
    reader: &mut Reader,
    room: usize,
    sort: RecordSort,
) -> Result<DeepTag, ReadError>
    requires room { room < 401 }
    ensures value { ReadsTag result reader.new (fixed (less room) (form.RecordBody sort) reader.old) }
    ensures deep { IfOk result (λ x. x.depth ≤ room) }
{
    let line = reader.line();
    reader.key(record_word(sort))?;
    if room == 0 {
        return Err(ReadError::Syntax);
    }
    let name = reader.maybe_name(alloc)?;
    reader.mark(Sign::LeftBrace)?;
    let members = members(alloc, reader, room - 1)?;
    reader.mark(Sign::RightBrace)?;
    let depth = members.depth + 1;
    Ok(DeepTag {
        tree: Tag::record_body(line, sort, name, members.list),
        depth,
    })
}

/// An enumeration.
#[cycle(grammar)]
pub fn enumeration(alloc: Global, reader: &mut Reader, room: usize) -> Result<DeepTag, ReadError>
    requires room { room < 401 }
    ensures value { ReadsTag result reader.new (spec.enum_at (less room) room reader.old) }
    ensures deep { IfOk result (λ x. x.depth ≤ room) }
{
    if reader.is_tag_alone() {
        return enum_tag(alloc, reader, room);
    }
    enum_body(alloc, reader, room)
}

/// An enumeration by its name.
#[tactic(auto, unfolding(c_tree::specs::Grammar::shape, c_tree::specs::Depth::below, c_tree::specs::Depth::layers, c_tree::specs::Depth::greatest_depth, c_tree::specs::Depth::is_of_declarator, c_tree::specs::Depth::layer, c_tree::specs::Depth::weight, c_tree::specs::Grammar::form_home))]
fn enum_tag(alloc: Global, reader: &mut Reader, room: usize) -> Result<DeepTag, ReadError>
    requires room { room < 401 }
    ensures value { ReadsTag result reader.new (fixed spec.name_part form.EnumTag reader.old) }
    ensures deep { IfOk result (λ x. x.depth ≤ room) }
{
    let line = reader.line();
    reader.key(Keyword::Enum)?;
    let name = reader.name(alloc)?;
    Ok(DeepTag {
        tree: Tag::enumeration(line, name),
        depth: 0,
    })
}

/// An enumeration with its enumerators.
#[cycle(grammar)]
#[tactic(auto, using(crate::proofs::Steps::less_step, crate::proofs::Steps::less_none, crate::proofs::Steps::guarded_step), unfolding(c_tree::specs::Grammar::shape, c_tree::specs::Depth::below, c_tree::specs::Depth::layers, c_tree::specs::Depth::greatest_depth, c_tree::specs::Depth::is_of_declarator, c_tree::specs::Depth::layer, c_tree::specs::Depth::weight, c_tree::specs::Grammar::form_home))]
fn enum_body(alloc: Global, reader: &mut Reader, room: usize) -> Result<DeepTag, ReadError>
    requires room { room < 401 }
    ensures value { ReadsTag result reader.new (enum_body_at room reader.old) }
    ensures deep { IfOk result (λ x. x.depth ≤ room) }
{
    let line = reader.line();
    reader.key(Keyword::Enum)?;
    if room == 0 {
        return Err(ReadError::Syntax);
    }
    let name = reader.maybe_name(alloc)?;
    reader.mark(Sign::LeftBrace)?;
    let list = enumerators(alloc, reader, room - 1)?;
    let trailing = reader.is_mark(Sign::Comma);
    reader.closing(trailing)?;
    let depth = list.depth + 1;
    Ok(DeepTag {
        tree: Tag::enum_body(line, name, list.list, trailing),
        depth,
    })
}

/// The members of a struct or a union, at least one.
#[cycle(grammar)]
#[tactic(auto, using(crate::proofs::Steps::list_step))]
fn members(alloc: Global, reader: &mut Reader, room: usize) -> Result<DeepMembers, ReadError>
    requires room { room < 401 }
    ensures value { ReadsMembers result reader.new (read room place.Members reader.old) }
    ensures deep { IfOk result (λ x. x.depth ≤ room) }
{
    let first = member(alloc, reader, room)?;
    let mut list = DeepMembers::none(alloc).with(first)?;
    let mut turns = reader.left() + 1;
    'members: while turns > 0 {
        if reader.is_mark(Sign::RightBrace) {
            return Ok(list);
        }
        let next = member(alloc, reader, room)?;
        list = list.with(next)?;
        turns -= 1;
    }
    Err(ReadError::Syntax)
}

/// A declaration of members.
#[cycle(grammar)]
#[tactic(auto, unfolding(c_tree::specs::Grammar::shape, c_tree::specs::Depth::below, c_tree::specs::Depth::layers, c_tree::specs::Depth::greatest_depth, c_tree::specs::Depth::is_of_declarator, c_tree::specs::Depth::layer, c_tree::specs::Depth::weight, c_tree::specs::Grammar::form_home))]
fn member(alloc: Global, reader: &mut Reader, room: usize) -> Result<DeepMember, ReadError>
    requires room { room < 401 }
    ensures value { ReadsMember result reader.new (spec.member_at (less room) room reader.old) }
    ensures deep { IfOk result (λ x. x.depth ≤ room) }
{
    let line = reader.line();
    let specs = plain_specs(alloc, reader, room)?;
    let names = member_names(alloc, reader, room)?;
    reader.mark(Sign::Semicolon)?;
    let depth = specs.depth.max(names.depth);
    let tree = Member {
        line,
        specs: specs.tree,
        declarators: names.list,
    };
    Ok(DeepMember { tree, depth })
}

/// The names of members.
#[cycle(grammar)]
#[tactic(auto, using(crate::proofs::Steps::commas_step))]
fn member_names(
    alloc: Global,
    reader: &mut Reader,
    room: usize,
) -> Result<DeepDeclarators, ReadError>
    requires room { room < 401 }
    ensures value { ReadsMemberNames result reader.new (member_names_at (less room) room reader.old) }
    ensures deep { IfOk result (λ x. x.depth ≤ room) }
{
    let mut list = DeepDeclarators::none(alloc);
    let mut turns = reader.left();
    'names: while turns > 0 {
        let name = declarator(alloc, reader, room, NameSort::Named)?;
        list = list.with(name)?;
        if !reader.is_mark(Sign::Comma) {
            return Ok(list);
        }
        reader.skip();
        turns -= 1;
    }
    Err(ReadError::Syntax)
}

/// The enumerators of an enumeration.
#[cycle(grammar)]
#[tactic(auto, using(crate::proofs::Steps::commas_step))]
fn enumerators(
    alloc: Global,
    reader: &mut Reader,
    room: usize,
) -> Result<DeepEnumerators, ReadError>
    requires room { room < 401 }
    ensures value { ReadsEnumerators result reader.new (read room place.Enumerators reader.old) }
    ensures deep { IfOk result (λ x. x.depth ≤ room) }
{
    let mut list = DeepEnumerators::none(alloc);
    let mut turns = reader.left();
    'enumerators: while turns > 0 {
        let next = enumerator(alloc, reader, room)?;
        list = list.with(next)?;
        if !reader.goes_on_inside() {
            return Ok(list);
        }
        reader.skip();
        turns -= 1;
    }
    Err(ReadError::Syntax)
}

/// An enumerator, which is declared behind its value.
#[cycle(grammar)]
#[tactic(auto, unfolding(c_tree::specs::Grammar::shape, c_tree::specs::Depth::below, c_tree::specs::Depth::layers, c_tree::specs::Depth::greatest_depth, c_tree::specs::Depth::is_of_declarator, c_tree::specs::Depth::layer, c_tree::specs::Depth::weight, c_tree::specs::Grammar::form_home, c_tree::specs::Scopes::name_of, c_tree::specs::Scopes::name_among, c_tree::specs::Scopes::leads_to_name))]
fn enumerator(alloc: Global, reader: &mut Reader, room: usize) -> Result<DeepEnumerator, ReadError>
    requires room { room < 401 }
    ensures value { ReadsEnumerator result reader.new (spec.enumerator_at (less room) room reader.old) }
    ensures deep { IfOk result (λ x. x.depth ≤ room) }
{
    let line = reader.line();
    let bytes = reader.bytes();
    let name = reader.name(alloc)?;
    let value = maybe_value(alloc, reader, room)?;
    reader.declare(Some(bytes), false)?;
    let depth = value.depth;
    let tree = Enumerator::new(alloc, line, name, value.tree)?;
    Ok(DeepEnumerator { tree, depth })
}

/// The value of an enumerator, where one is given.
#[cycle(grammar)]
#[tactic(auto, unfolding(c_tree::specs::Grammar::shape, c_tree::specs::Depth::below, c_tree::specs::Depth::layers, c_tree::specs::Depth::greatest_depth, c_tree::specs::Depth::is_of_declarator, c_tree::specs::Depth::layer, c_tree::specs::Depth::weight, c_tree::specs::Grammar::form_home))]
fn maybe_value(alloc: Global, reader: &mut Reader, room: usize) -> Result<DeepMaybeExpr, ReadError>
    requires room { room < 401 }
    ensures value { ReadsMaybeValue result reader.new (maybe_value_at (less room) room reader.old) }
    ensures deep { IfOk result (λ x. x.depth ≤ room) }
{
    if !reader.is_mark(Sign::Equal) {
        return Ok(DeepMaybeExpr {
            tree: None,
            depth: 0,
        });
    }
    reader.mark(Sign::Equal)?;
    let value = expression(alloc, reader, room, CONDITION)?;
    Ok(DeepMaybeExpr {
        depth: value.depth,
        tree: Some(value.tree),
    })
}
