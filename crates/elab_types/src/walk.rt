//! The walk over specs and declarators (C99 6.7.2, 6.7.5): the parts in the order of the text.

ghost use Rattle.std.specs.Prelude.{◌≡◌, [], map, option_copied};
ghost use Rattle.c_types.specs.Types.{plain, plain_list};
ghost use Rattle.c_tree.specs.View.{spec_tree, tag_tree, declarator_tree, base_tree};
ghost use Rattle.c_tree.specs.StatementView.{trees, specs_view, member_view, suffix_view, param_view, tag_view};
ghost use Rattle.c_decls.specs.Refusals.{Meets};
ghost use Rattle.c_typing.specs.Layers.{plain_layer, plain_layers};
ghost use Rattle.elaboration.specs.Declarators as plain;
ghost use Rattle.elab_types.specs.Steps.{record_body, members_by, member_by, param_by, behind};
ghost use Rattle.elab_types.specs.Outcomes.{FindsLayers, FindsLayer, FindsMore, FindsTypes};
ghost use Rattle.elab_base.specs.Outcomes.{Types, Gives};
ghost use Rattle.elab_types.specs.Parts.{member_named, members_named, layers_behind, members_of, param_of, record_of, type_of_words};
ghost use Rattle.elab_base.specs.MaybeNames.{given};

use crate::asked::{array_layer, special_type};
use crate::enums::enum_body;
use crate::member_table::MemberTable;
use crate::members::member;
use crate::params::param;
use c_decls::{LayeredType, TypeError};
use c_tree::{
    Base, Declarator, Member, Param, RecordSort, Spec, Specs, Suffix, SuffixKind, Tag, TagKind,
};
use c_types::CType;
use c_typing::{
    Layer, adjusted, declared_name, is_special, with_layers, with_param_layers, word_type,
};
use elab_base::Elaborator;
use hs_base::{Items, Line};

/// The bytes of a name that may be left out.
fn bytes(name: &Option<Items<u8>>) -> Option<&[u8]>
    ensures { option_copied result ≡ name.now }
{
    match name {
        Some(name) => Some(name.as_slice()),
        None => None,
    }
}

/// The type that specs say (C99 6.7.2).
#[cycle(walk)]
#[tactic(auto, unfolding(elaboration::specs::Declarators::specs))]
pub fn specs(state: &mut Elaborator, specs: &Specs) -> Result<LayeredType, TypeError>
    ensures { Gives state.new result (plain.specs (specs_view specs.now) state.old) }
{
    words_type(state, specs.line, &specs.words)
}

/// The type that the words of specs at a line say: a tag or the name of a type says it alone.
#[cycle(walk)]
fn words_type(state: &mut Elaborator, line: Line, words: &[Spec]) -> Result<LayeredType, TypeError>
    ensures { Gives state.new result (type_of_words line words.now state.old) }
{
    for word in words {
        if is_special(word) {
            return one_type(state, line, word);
        }
    }
    Ok(word_type(words))
}

/// The type that a tag or the name of a type says.
#[cycle(walk)]
#[tactic(auto, unfolding(c_tree::specs::View::spec_tree, elaboration::specs::Declarators::tag_type))]
fn one_type(state: &mut Elaborator, line: Line, word: &Spec) -> Result<LayeredType, TypeError>
    ensures { Gives state.new result (plain.tag_type line (spec_tree word.now) state.old) }
{
    match word {
        Spec::Tag(tag) => tag_type(state, line, tag, word),
        _ => special_type(state, line, word),
    }
}

/// The type that a tag says, which is the word.
#[cycle(walk)]
#[tactic(auto, using(crate::proofs::Nodes::record_is, crate::proofs::Nodes::enum_is), unfolding(c_tree::specs::View::tag_tree, elaboration::specs::Declarators::tag_type))]
fn tag_type(
    state: &mut Elaborator,
    line: Line,
    tag: &Tag,
    word: &Spec,
) -> Result<LayeredType, TypeError>
    requires { spec_tree word.now ≡ tag_tree tag.now.kind tag.now.line }
    ensures { Gives state.new result (plain.tag_type line (tag_view tag.now) state.old) }
{
    match &tag.kind {
        TagKind::RecordBody(sort, name, list) => {
            let ty = record_body(state, list, tag.line, *sort, bytes(name))?;
            Ok(LayeredType::of(ty))
        }
        TagKind::EnumBody(name, list, _) => {
            let ty = enum_body(state, tag.line, bytes(name), list)?;
            Ok(LayeredType::of(ty))
        }
        TagKind::Record(_, _) | TagKind::Enum(_) => special_type(state, line, word),
    }
}

/// A struct or union with braces (C99 6.7.2.1, 6.7.2.3).
#[cycle(walk)]
fn record_body(
    state: &mut Elaborator,
    list: &[Member],
    line: Line,
    sort: RecordSort,
    name: Option<&[u8]>,
) -> Result<CType, TypeError>
    ensures { Types state.new result (record_of line sort (given name.entry) list.now state.old) }
{
    let ty = state.begin_record(sort, name)?;
    let all = members(state, list)?;
    let pairs = all.into_pairs()?;
    state.end_record(line, sort, &ty, Items::from(pairs))
}

/// The members in braces.
#[cycle(walk)]
fn members(state: &mut Elaborator, list: &[Member]) -> Result<MemberTable, TypeError>
    ensures { Gives state.new result (plain.members (trees member_view list.now) [] state.old) }
{
    let mut all = MemberTable::new(state.alloc());
    for part in list {
        all = members_by(state, part, all)?;
    }
    Ok(all)
}

/// Members with those of one declaration behind them.
#[cycle(walk)]
fn members_by(
    state: &mut Elaborator,
    part: &Member,
    before: MemberTable,
) -> Result<MemberTable, TypeError>
    ensures { Gives state.new result (members_of part.now before state.old) }
{
    let base = specs(state, &part.specs)?;
    member_names(state, &part.declarators, part.line, &base, before)
}

/// Members with those of a type and some declarators behind them.
#[cycle(walk)]
fn member_names(
    state: &mut Elaborator,
    list: &[Declarator],
    line: Line,
    base: &LayeredType,
    before: MemberTable,
) -> Result<MemberTable, TypeError>
    ensures { Gives state.new result (members_named line base.now list.now before state.old) }
{
    let mut all = before;
    for declarator in list {
        all = member_by(state, declarator, line, base, all)?;
    }
    Ok(all)
}

/// Members with one more.
#[cycle(walk)]
fn member_by(
    state: &mut Elaborator,
    declarator: &Declarator,
    line: Line,
    base: &LayeredType,
    before: MemberTable,
) -> Result<MemberTable, TypeError>
    ensures { Gives state.new result (member_named line base.now declarator.now before state.old) }
{
    let found = layers(state, declarator)?;
    let ty = with_layers(state.alloc(), state.tags(), found, base.copied())?;
    member(state, line, declared_name(declarator), ty.ty(), before)
}

/// The layers of a declarator, of which the last one stands next to the specs (C99 6.7.5).
#[cycle(walk)]
#[tactic(auto, unfolding(elaboration::specs::Declarators::layers, c_tree::specs::View::declarator_tree), using(c_typing::specs::LayersEquations::layer_pushed))]
pub fn layers(state: &mut Elaborator, declarator: &Declarator) -> Result<Vec<Layer>, TypeError>
    ensures { FindsLayers state.new result (plain.layers (declarator_tree declarator.now) state.old) }
{
    match declarator {
        Declarator::Pointer(line, _, target) => {
            let mut all = layers(state, target)?;
            all.push(Layer::PointerTo(*line))?;
            Ok(all)
        }
        Declarator::Direct(base, suffixes) => {
            let before = base_layers(state, base)?;
            suffix_layers(state, suffixes, before)
        }
    }
}

/// The layers of what suffixes stand behind.
#[cycle(walk)]
#[tactic(auto, unfolding(elaboration::specs::Declarators::layers, c_tree::specs::View::base_tree))]
fn base_layers(state: &mut Elaborator, base: &Base) -> Result<Vec<Layer>, TypeError>
    ensures { FindsLayers state.new result (plain.layers (base_tree base.now) state.old) }
{
    match base {
        Base::Nothing | Base::Name(_) => Ok(Vec::new(state.alloc())),
        Base::Parens(_, declarator) => layers(state, declarator),
    }
}

/// Layers with those of suffixes behind them, in turn.
#[cycle(walk)]
fn suffix_layers(
    state: &mut Elaborator,
    list: &[Suffix],
    before: Vec<Layer>,
) -> Result<Vec<Layer>, TypeError>
    ensures { FindsMore state.new result (layers_behind before.items list.now state.old) }
{
    let mut all = before;
    for suffix in list {
        all.push(suffix_layer(state, suffix)?)?;
    }
    Ok(all)
}

/// The layer of a suffix. The scope of a parameter list is kept for the body that may follow.
#[cycle(walk)]
#[tactic(auto, using(crate::proofs::Nodes::params_is, crate::proofs::Nodes::array_is), unfolding(elaboration::specs::Declarators::suffix_layer, c_decls::specs::Expressions::line_of, c_tree::specs::View::suffix_tree, c_tree::specs::View::held_trees))]
fn suffix_layer(state: &mut Elaborator, suffix: &Suffix) -> Result<Layer, TypeError>
    ensures { FindsLayer state.new result (plain.suffix_layer (suffix_view suffix.now) state.old) }
{
    let line = suffix.line;
    match &suffix.kind {
        SuffixKind::Array(None) => Ok(Layer::ArrayOf(line, None)),
        SuffixKind::Array(Some(length)) => array_layer(state, line, length),
        SuffixKind::Void => {
            state.forget_params();
            Ok(Layer::FunctionOf(line, Vec::new(state.alloc())))
        }
        SuffixKind::Params(list) => {
            state.enter()?;
            let types = params(state, list)?;
            state.leave_params();
            Ok(Layer::FunctionOf(line, types))
        }
    }
}

/// The types of parameters, each declared behind those before it.
#[cycle(walk)]
fn params(state: &mut Elaborator, list: &[Param]) -> Result<Vec<CType>, TypeError>
    ensures { FindsTypes state.new result (plain.params (trees param_view list.now) state.old) }
{
    let mut types = Vec::new(state.alloc());
    for part in list {
        types.push(param_by(state, part)?)?;
    }
    Ok(types)
}

/// The type of a parameter, which is declared; an array next to its name is a pointer.
#[cycle(walk)]
fn param_by(state: &mut Elaborator, part: &Param) -> Result<CType, TypeError>
    ensures { Types state.new result (param_of part.now state.old) }
{
    let base = specs(state, &part.specs)?;
    let found = layers(state, &part.declarator)?;
    let ty = with_param_layers(state.alloc(), state.tags(), found, base)?;
    param(
        state,
        part.line,
        declared_name(&part.declarator),
        adjusted(ty.ty()),
    )
}
