//! Reading declarators, parameters and names of types (C99 6.7.5 and 6.7.6).

ghost use Rattle.std.specs.Prelude.{◌≡◌, ◌<◌, ◌≤◌, ◌+◌, ◌^◌, not, Some, None, IfOk};
ghost use Rattle.c_tree.specs.Forms as form;
ghost use Rattle.c_tree.specs.Places as place;
ghost use Rattle.c_tree.specs.Tree.{none};
ghost use Rattle.c_tree.specs.View.{base_tree};
ghost use Rattle.grammar_reading.specs.Declarators as spec;
ghost use Rattle.grammar_reading.specs.Declarators.{declarator_at, layers_at, pointer_at, direct_at, base_at};
ghost use Rattle.parser_parts.specs.Gives.{Ended};
ghost use Rattle.parser_parts.specs.Trees.{ReadsBase, ReadsDeclarator, ReadsParam, ReadsParams, ReadsSuffix, ReadsSuffixes, ReadsTypename};
ghost use Rattle.grammar_reading.specs.Reading.{fixed};
ghost use Rattle.grammar_reading.specs.Rooms.{less, read};
ghost use Rattle.c_parser.specs.Sorts.{sort_place};
ghost use Rattle.c_parser.specs.Readers.{ReadsMaybeLength};
ghost use Rattle.c_parser.specs.Rests.{of_sort, parens_at, name_base, no_name, all_suffixes, some_params};
ghost use Rattle.grammar_reading.specs.State.{kind_at};
ghost use Rattle.c_parser.specs.Pieces.{begins_suffix as spec_begins, suffix_at, kept_suffix_at, open_function_at};
ghost use Rattle.grammar_reading.specs.declared.kind.Kind.TheVariants as kinds;

use crate::expression::expression;
use crate::kind::NameSort;
use crate::levels::CONDITION;
use crate::specifiers::plain_specs;
use c_tree::{Base, Keyword, Param, Sign, Suffix, TypeName};
use grammar_reading::{Kind, trees_are_read};
use parser_parts::{
    DeepBase, DeepDeclarator, DeepMaybeExpr, DeepParam, DeepParams, DeepSuffix, DeepSuffixes,
    DeepTypename, ReadError, Reader, is_mark,
};
use std::alloc::Global;

/// A declarator; all its layers lie on each path through it.
#[cycle(grammar)]
pub fn declarator<'a>(
    alloc: Global,
    reader: &mut Reader<'a>,
    room: usize,
    sort: NameSort,
) -> Result<DeepDeclarator<'a>, ReadError>
    requires room { room < 401 }
    ensures value { ReadsDeclarator result reader.new (of_sort room declarator_at sort reader.old) }
    ensures deep { IfOk result (λ x. x.layers + x.inside ≤ room) }
{
    let d = layers(alloc, reader, room, sort)?;
    if d.inside > room || d.layers > room - d.inside {
        return Err(ReadError::Syntax);
    }
    Ok(d)
}

/// A declarator, however deep.
#[cycle(grammar)]
fn layers<'a>(
    alloc: Global,
    reader: &mut Reader<'a>,
    room: usize,
    sort: NameSort,
) -> Result<DeepDeclarator<'a>, ReadError>
    requires room { room < 401 }
    ensures value { ReadsDeclarator result reader.new (of_sort room layers_at sort reader.old) }
    ensures small { IfOk result (λ x. x.layers + 500 < 2 ^ 64) }
{
    if reader.is_mark(Sign::Star) {
        return pointer(alloc, reader, room, sort);
    }
    direct(alloc, reader, room, sort)
}

/// `*` and what it stands before.
#[cycle(grammar)]
#[tactic(auto, using(crate::proofs::Steps::less_step, crate::proofs::Steps::less_none, crate::proofs::Steps::guarded_step, crate::proofs::Steps::declarator_step), unfolding(c_tree::specs::Grammar::shape, c_tree::specs::Depth::below, c_tree::specs::Depth::layers, c_tree::specs::Depth::greatest_depth, c_tree::specs::Depth::is_of_declarator, c_tree::specs::Depth::layer, c_tree::specs::Depth::weight, c_tree::specs::Grammar::form_home))]
fn pointer<'a>(
    alloc: Global,
    reader: &mut Reader<'a>,
    room: usize,
    sort: NameSort,
) -> Result<DeepDeclarator<'a>, ReadError>
    requires room { room < 401 }
    ensures value { ReadsDeclarator result reader.new (of_sort room pointer_at sort reader.old) }
    ensures small { IfOk result (λ x. x.layers ≤ room) }
{
    let line = reader.line();
    reader.skip();
    let consts = reader.consts();
    if room == 0 {
        return Err(ReadError::Syntax);
    }
    let target = declarator(alloc, reader, room - 1, sort)?;
    Ok(target.pointed(alloc, line, consts)?)
}

/// A name, nothing, or parentheses, and the suffixes behind.
#[cycle(grammar)]
fn direct<'a>(
    alloc: Global,
    reader: &mut Reader<'a>,
    room: usize,
    sort: NameSort,
) -> Result<DeepDeclarator<'a>, ReadError>
    requires room { room < 401 }
    ensures value { ReadsDeclarator result reader.new (of_sort room direct_at sort reader.old) }
    ensures small { IfOk result (λ x. x.layers + 500 < 2 ^ 64) }
{
    let base = base(alloc, reader, room, sort)?;
    let suffixes = suffixes(alloc, reader, room, base.is_name)?;
    Ok(base.with_suffixes(suffixes))
}

/// What suffixes stand behind.
#[cycle(grammar)]
fn base<'a>(
    alloc: Global,
    reader: &mut Reader<'a>,
    room: usize,
    sort: NameSort,
) -> Result<DeepBase<'a>, ReadError>
    requires room { room < 401 }
    ensures value { ReadsBase result reader.new (of_sort room base_at sort reader.old) }
    ensures small { IfOk result (λ x. x.layers ≤ room) }
{
    match reader.kind() {
        Kind::Name => name(alloc, reader, sort),
        Kind::Mark(Sign::LeftParen) => {
            if !is_mark(reader.kind_behind(), Sign::Star) {
                return no_base(sort);
            }
            enclosed(alloc, reader, room, sort)
        }
        _ => no_base(sort),
    }
}

/// Parentheses around a declarator.
#[cycle(grammar)]
#[tactic(auto, using(crate::proofs::Steps::less_step, crate::proofs::Steps::less_none, crate::proofs::Steps::guarded_step, crate::proofs::Steps::declarator_step), unfolding(c_tree::specs::Grammar::shape, c_tree::specs::Depth::below, c_tree::specs::Depth::layers, c_tree::specs::Depth::greatest_depth, c_tree::specs::Depth::is_of_declarator, c_tree::specs::Depth::layer, c_tree::specs::Depth::weight, c_tree::specs::Grammar::form_home))]
fn enclosed<'a>(
    alloc: Global,
    reader: &mut Reader<'a>,
    room: usize,
    sort: NameSort,
) -> Result<DeepBase<'a>, ReadError>
    requires room { room < 401 }
    ensures value { ReadsBase result reader.new (parens_at room sort reader.old) }
    ensures small { IfOk result (λ x. x.layers ≤ room) }
{
    let line = reader.line();
    reader.mark(Sign::LeftParen)?;
    if room == 0 {
        return Err(ReadError::Syntax);
    }
    let inner = declarator(alloc, reader, room - 1, sort)?;
    reader.mark(Sign::RightParen)?;
    Ok(inner.in_parens(alloc, line)?)
}

/// A name, where the sort of declarator may have one.
#[tactic(auto, using(parser_parts::specs::WordEquations::name_words), unfolding(c_tree::specs::Depth::below, c_tree::specs::Depth::layers, c_tree::specs::Depth::layers_all, c_tree::specs::Depth::greatest_depth, c_tree::specs::Depth::greatest_below, c_tree::specs::Depth::is_of_declarator, c_tree::specs::Depth::layer, c_tree::specs::Scopes::name_of, c_tree::specs::Scopes::name_among, c_tree::specs::Scopes::leads_to_name, c_tree::specs::Scopes::params_of, c_tree::specs::Scopes::params_among, c_tree::specs::Scopes::suffix_params))]
fn name<'a>(
    alloc: Global,
    reader: &mut Reader<'a>,
    sort: NameSort,
) -> Result<DeepBase<'a>, ReadError>
    requires { kind_at reader.old ≡ kinds.Name }
    ensures value { ReadsBase result reader.new (name_base sort reader.old) }
    ensures small { IfOk result (λ x. x.layers ≡ 0) }
{
    if is_abstract(sort) {
        return no_base(sort);
    }
    let bytes = reader.bytes();
    let spelling = reader.spelling(alloc)?;
    reader.skip();
    Ok(DeepBase {
        tree: Base::name(spelling),
        layers: 0,
        inside: 0,
        name: Some(bytes),
        is_function: false,
        is_name: true,
    })
}

/// Says whether a declarator may have no name.
fn is_abstract(sort: NameSort) -> bool
    ensures { result ≡ not (spec.may_name (sort_place sort)) }
{
    match sort {
        NameSort::Abstract => true,
        NameSort::Named | NameSort::Either => false,
    }
}

/// Says whether a declarator must have a name.
fn is_named(sort: NameSort) -> bool
    ensures { result ≡ spec.must_name (sort_place sort) }
{
    match sort {
        NameSort::Named => true,
        NameSort::Abstract | NameSort::Either => false,
    }
}

/// No name and no parentheses, where the sort of declarator needs no name.
#[tactic(auto, unfolding(c_tree::specs::Depth::below, c_tree::specs::Depth::layers, c_tree::specs::Depth::layers_all, c_tree::specs::Depth::greatest_depth, c_tree::specs::Depth::greatest_below, c_tree::specs::Depth::is_of_declarator, c_tree::specs::Depth::layer, c_tree::specs::Scopes::name_of, c_tree::specs::Scopes::name_among, c_tree::specs::Scopes::leads_to_name, c_tree::specs::Scopes::params_of, c_tree::specs::Scopes::params_among, c_tree::specs::Scopes::suffix_params))]
fn no_base<'a>(sort: NameSort) -> Result<DeepBase<'a>, ReadError>
    ensures value { Ended (λ x. base_tree x.tree) result (no_name sort) }
    ensures small { IfOk result (λ x. x.layers ≡ 0) }
{
    if is_named(sort) {
        return Err(ReadError::Syntax);
    }
    Ok(DeepBase {
        tree: Base::nothing(),
        layers: 0,
        inside: 0,
        name: None,
        is_function: false,
        is_name: false,
    })
}

/// The suffixes behind a name, nothing, or parentheses.
#[cycle(grammar)]
#[tactic(auto, using(crate::proofs::Loops::suffixes_go_on, crate::proofs::Loops::suffixes_end, crate::proofs::Loops::suffixes_fail))]
fn suffixes(
    alloc: Global,
    reader: &mut Reader,
    room: usize,
    is_name: bool,
) -> Result<DeepSuffixes, ReadError>
    requires room { room < 401 }
    ensures value { ReadsSuffixes result reader.new (all_suffixes room is_name reader.old) }
    ensures small { IfOk result (λ x. x.layers + 999 < 2 ^ 64) }
{
    let mut list = DeepSuffixes::none(alloc);
    let mut first = is_name;
    let mut turns = reader.left() + 1;
    'suffixes: while turns > 0 {
        if !begins_suffix(reader.kind()) {
            return Ok(list);
        }
        let suffix = kept_suffix(alloc, reader, room, first)?;
        list = list.with(suffix)?;
        first = false;
        turns -= 1;
    }
    Err(ReadError::Syntax)
}

/// A suffix; only the first one of a name says what the parameters next to the name are.
#[cycle(grammar)]
fn kept_suffix(
    alloc: Global,
    reader: &mut Reader,
    room: usize,
    first: bool,
) -> Result<DeepSuffix, ReadError>
    requires room { room < 401 }
    ensures { ReadsSuffix result reader.new (kept_suffix_at (less room) room first reader.old) }
{
    if first {
        return suffix(alloc, reader, room);
    }
    let held = reader.params(alloc)?;
    let suffix = suffix(alloc, reader, room)?;
    reader.keep_params(held);
    Ok(suffix)
}

/// A suffix.
#[cycle(grammar)]
fn suffix(alloc: Global, reader: &mut Reader, room: usize) -> Result<DeepSuffix, ReadError>
    requires room { room < 401 }
    ensures { ReadsSuffix result reader.new (suffix_at (less room) room reader.old) }
{
    match reader.kind() {
        Kind::Mark(Sign::LeftBracket) => array(alloc, reader, room),
        Kind::Mark(Sign::LeftParen) => function(alloc, reader, room),
        _ => Err(ReadError::Syntax),
    }
}

/// Says whether a token begins a suffix.
fn begins_suffix(kind: Kind) -> bool
    ensures { result ≡ spec_begins kind }
{
    match kind {
        Kind::Mark(Sign::LeftBracket) | Kind::Mark(Sign::LeftParen) => true,
        _ => false,
    }
}

/// The length of an array, in brackets.
#[cycle(grammar)]
#[tactic(auto, using(crate::proofs::Steps::less_step, crate::proofs::Steps::less_none, crate::proofs::Steps::guarded_step, crate::proofs::Steps::declarator_step), unfolding(c_tree::specs::Grammar::shape, c_tree::specs::Depth::below, c_tree::specs::Depth::layers, c_tree::specs::Depth::greatest_depth, c_tree::specs::Depth::is_of_declarator, c_tree::specs::Depth::layer, c_tree::specs::Depth::weight, c_tree::specs::Grammar::form_home, c_tree::specs::Depth::layers_all, c_tree::specs::Depth::greatest_below, c_tree::specs::Scopes::suffix_params))]
fn array(alloc: Global, reader: &mut Reader, room: usize) -> Result<DeepSuffix, ReadError>
    requires room { room < 401 }
    ensures value { ReadsSuffix result reader.new (fixed (less room) form.ArraySuffix reader.old) }
{
    let line = reader.line();
    reader.mark(Sign::LeftBracket)?;
    if room == 0 {
        return Err(ReadError::Syntax);
    }
    let length = maybe_length(alloc, reader, room - 1)?;
    reader.mark(Sign::RightBracket)?;
    let inside = length.depth;
    Ok(DeepSuffix {
        tree: Suffix::array(alloc, line, length.tree)?,
        inside,
        is_function: false,
    })
}

/// The length of an array, where one is given.
#[cycle(grammar)]
#[tactic(auto, unfolding(c_tree::specs::Grammar::shape, c_tree::specs::Depth::below, c_tree::specs::Depth::layers, c_tree::specs::Depth::greatest_depth, c_tree::specs::Depth::is_of_declarator, c_tree::specs::Depth::layer, c_tree::specs::Depth::weight, c_tree::specs::Grammar::form_home))]
fn maybe_length(alloc: Global, reader: &mut Reader, room: usize) -> Result<DeepMaybeExpr, ReadError>
    requires room { room < 401 }
    ensures value { ReadsMaybeLength result reader.new (read room place.MaybeLength reader.old) }
    ensures deep { IfOk result (λ x. x.depth ≤ room) }
{
    if reader.is_mark(Sign::RightBracket) {
        return Ok(DeepMaybeExpr {
            tree: None,
            depth: 0,
        });
    }
    let value = expression(alloc, reader, room, CONDITION)?;
    Ok(DeepMaybeExpr {
        depth: value.depth,
        tree: Some(value.tree),
    })
}

/// A parameter list, whose names hold inside alone.
#[cycle(grammar)]
fn function(alloc: Global, reader: &mut Reader, room: usize) -> Result<DeepSuffix, ReadError>
    requires room { room < 401 }
    ensures { ReadsSuffix result reader.new (spec.function_suffix_at (less room) room reader.old) }
{
    trees_are_read();
    let outer = reader.enter();
    let suffix = open_function(alloc, reader, room)?;
    reader.leave_params(alloc, outer)?;
    Ok(suffix)
}

/// A parameter list, whose names still hold.
#[cycle(grammar)]
fn open_function(alloc: Global, reader: &mut Reader, room: usize) -> Result<DeepSuffix, ReadError>
    requires room { room < 401 }
    ensures { ReadsSuffix result reader.new (open_function_at (less room) reader.old) }
{
    if reader.is_void_list() {
        return void_list(reader, room);
    }
    parameter_list(alloc, reader, room)
}

/// `(void)`
#[tactic(auto, unfolding(c_tree::specs::Grammar::shape, c_tree::specs::Depth::below, c_tree::specs::Depth::layers, c_tree::specs::Depth::greatest_depth, c_tree::specs::Depth::is_of_declarator, c_tree::specs::Depth::layer, c_tree::specs::Depth::weight, c_tree::specs::Grammar::form_home, c_tree::specs::Depth::layers_all, c_tree::specs::Depth::greatest_below, c_tree::specs::Scopes::suffix_params))]
fn void_list(reader: &mut Reader, room: usize) -> Result<DeepSuffix, ReadError>
    requires room { room < 401 }
    ensures value { ReadsSuffix result reader.new (fixed (less room) form.VoidSuffix reader.old) }
{
    let line = reader.line();
    reader.mark(Sign::LeftParen)?;
    reader.key(Keyword::Void)?;
    reader.mark(Sign::RightParen)?;
    Ok(DeepSuffix {
        tree: Suffix::void(line),
        inside: 0,
        is_function: true,
    })
}

/// Parameters in parentheses.
#[cycle(grammar)]
#[tactic(auto, using(crate::proofs::Steps::less_step, crate::proofs::Steps::less_none, crate::proofs::Steps::guarded_step, crate::proofs::Steps::declarator_step), unfolding(c_tree::specs::Grammar::shape, c_tree::specs::Depth::below, c_tree::specs::Depth::layers, c_tree::specs::Depth::greatest_depth, c_tree::specs::Depth::is_of_declarator, c_tree::specs::Depth::layer, c_tree::specs::Depth::weight, c_tree::specs::Grammar::form_home, c_tree::specs::Depth::layers_all, c_tree::specs::Depth::greatest_below, c_tree::specs::Scopes::suffix_params))]
fn parameter_list(alloc: Global, reader: &mut Reader, room: usize) -> Result<DeepSuffix, ReadError>
    requires room { room < 401 }
    ensures value { ReadsSuffix result reader.new (fixed (less room) form.FunctionSuffix reader.old) }
{
    let line = reader.line();
    reader.mark(Sign::LeftParen)?;
    if room == 0 {
        return Err(ReadError::Syntax);
    }
    let list = params(alloc, reader, room - 1)?;
    reader.mark(Sign::RightParen)?;
    let inside = list.depth;
    Ok(DeepSuffix {
        tree: Suffix::params(line, list.list),
        inside,
        is_function: true,
    })
}

/// The parameters of a function.
#[cycle(grammar)]
fn params(alloc: Global, reader: &mut Reader, room: usize) -> Result<DeepParams, ReadError>
    requires room { room < 401 }
    ensures value { ReadsParams result reader.new (read room place.Params reader.old) }
    ensures deep { IfOk result (λ x. x.depth ≤ room) }
{
    if reader.is_mark(Sign::RightParen) {
        return Ok(DeepParams::none(alloc));
    }
    some_params(alloc, reader, room)
}

/// The parameters of a function, at least one.
#[cycle(grammar)]
#[tactic(auto, using(crate::proofs::Steps::commas_step))]
fn some_params(alloc: Global, reader: &mut Reader, room: usize) -> Result<DeepParams, ReadError>
    requires room { room < 401 }
    ensures value { ReadsParams result reader.new (some_params room reader.old) }
    ensures deep { IfOk result (λ x. x.depth ≤ room) }
{
    let mut list = DeepParams::none(alloc);
    let mut turns = reader.left();
    'params: while turns > 0 {
        let next = param(alloc, reader, room)?;
        list = list.with(next)?;
        if !reader.is_mark(Sign::Comma) {
            return Ok(list);
        }
        reader.skip();
        turns -= 1;
    }
    Err(ReadError::Syntax)
}

/// A parameter, which is declared at its end.
#[cycle(grammar)]
#[tactic(auto, unfolding(c_tree::specs::Grammar::shape, c_tree::specs::Depth::below, c_tree::specs::Depth::layers, c_tree::specs::Depth::greatest_depth, c_tree::specs::Depth::is_of_declarator, c_tree::specs::Depth::layer, c_tree::specs::Depth::weight, c_tree::specs::Grammar::form_home, c_tree::specs::Scopes::name_of, c_tree::specs::Scopes::name_among, c_tree::specs::Scopes::leads_to_name))]
fn param(alloc: Global, reader: &mut Reader, room: usize) -> Result<DeepParam, ReadError>
    requires room { room < 401 }
    ensures value { ReadsParam result reader.new (spec.param_at (less room) room reader.old) }
    ensures deep { IfOk result (λ x. x.depth ≤ room) }
{
    let line = reader.line();
    let specs = plain_specs(alloc, reader, room)?;
    let d = declarator(alloc, reader, room, NameSort::Either)?;
    reader.declare(d.name, false)?;
    let depth = specs.depth.max(d.layers + d.inside);
    let tree = Param {
        line,
        specs: specs.tree,
        declarator: d.tree,
    };
    Ok(DeepParam { tree, depth })
}

/// The name of a type.
#[cycle(grammar)]
#[tactic(auto, unfolding(c_tree::specs::Grammar::shape, c_tree::specs::Depth::below, c_tree::specs::Depth::layers, c_tree::specs::Depth::greatest_depth, c_tree::specs::Depth::is_of_declarator, c_tree::specs::Depth::layer, c_tree::specs::Depth::weight, c_tree::specs::Grammar::form_home))]
pub fn typename(alloc: Global, reader: &mut Reader, room: usize) -> Result<DeepTypename, ReadError>
    requires room { room < 401 }
    ensures value { ReadsTypename result reader.new (read room place.Typename reader.old) }
    ensures deep { IfOk result (λ x. x.depth ≤ room) }
{
    let line = reader.line();
    let specs = plain_specs(alloc, reader, room)?;
    let d = declarator(alloc, reader, room, NameSort::Abstract)?;
    let depth = specs.depth.max(d.layers + d.inside);
    let tree = TypeName {
        line,
        specs: specs.tree,
        declarator: d.tree,
    };
    Ok(DeepTypename { tree, depth })
}
