//! Arrays that take their length from their initializer (C99 6.7.8 paragraph 22).

ghost use Rattle.std.specs.Prelude.{◌≡◌, IfOk, option_copied};
ghost use Rattle.c_types.specs.Types.{plain};
ghost use Rattle.c_tree.specs.Tree.{none, ◌▹◌};
ghost use Rattle.c_tree.specs.StatementView.{expr_view, init_view};
ghost use Rattle.c_typing.specs.Layers.{plain_layer, plain_layers, Makes};
ghost use Rattle.elaboration.specs.Initializers as rules;
ghost use Rattle.elab_statements.specs.GivenLengths.{held, given_behind, with_given, layers_with_init, length_by_init, length_by_text};
ghost use Rattle.elab_base.specs.MaybeNames.{given};

use crate::strings::is_character;
use c_decls::{LayeredType, TypeError};
use c_tree::{Expr, ExprKind, Init, InitKind};
use c_types::{CType, Tags};
use c_typing::{Layer, joined, with_layers};
use hs_base::NoMemory;
use std::alloc::Global;

/// The length that an expression gives: for characters the bytes of a string and a zero.
#[tactic(auto, unfolding(c_tree::specs::View::expr_tree))]
fn text_length(alloc: Global, element: &CType, e: &Expr) -> Result<u128, NoMemory>
    ensures { IfOk result (λ n. n ≡ length_by_text element.now e.now) }
{
    match &e.kind {
        ExprKind::Str(literals) if is_character(element) => {
            let bytes = joined(alloc, literals.as_slice())?;
            Ok(bytes.len() as u128 + 1)
        }
        _ => Ok(1),
    }
}

/// The length that an initializer gives: that of a string, or how many initializers stand in its braces.
#[tactic(auto, using(crate::proofs::Forms::length_of_expr, crate::proofs::Forms::length_of_list))]
fn init_length(alloc: Global, element: &CType, init: &Init) -> Result<Option<u128>, NoMemory>
    ensures { IfOk result (λ n. n ≡ length_by_init element.now init.now) }
{
    match &init.kind {
        InitKind::Expr(e) => Ok(Some(text_length(alloc, element, e)?)),
        InitKind::List(list, _) => Ok(Some(list.len() as u128)),
    }
}

/// The length that an initializer gives to an array next to the name, where there is one. An element that has a layer of
/// its own is no character.
fn given_length(
    alloc: Global,
    layers: usize,
    base: &CType,
    init: Option<&Init>,
) -> Result<Option<u128>, NoMemory>
    ensures { IfOk result (λ n. n ≡ given_behind layers (plain base.now) (held (given init.entry))) }
{
    match init {
        Some(init) if layers == 1 => init_length(alloc, base, init),
        Some(init) => init_length(alloc, &CType::Void, init),
        None => Ok(None),
    }
}

/// Gives a length to an array that has none of its own.
fn give_length(layer: &mut Layer, given: Option<u128>)
    ensures { plain_layer layer.new ≡ with_given given (plain_layer layer.old) }
{
    if let Layer::ArrayOf(_, length) = layer {
        if length.is_none() {
            *length = given;
        }
    }
}

/// A type with layers, of which the last one stands next to the specs; the array next to the name may take its length from
/// the initializer.
///
/// # Errors
///
/// The first layer that is refused, at its line, or want of memory.
pub fn with_init_layers(
    alloc: Global,
    tags: &Tags,
    layers: Vec<Layer>,
    init: Option<&Init>,
    base: LayeredType,
) -> Result<LayeredType, TypeError>
    ensures { Makes result (layers_with_init tags.now layers (given init.entry) base) }
{
    let given = given_length(alloc, layers.len(), &base.ty(), init)?;
    let mut layers = layers;
    if let Some(layer) = layers.get_mut(0) {
        give_length(layer, given);
    }
    with_layers(alloc, tags, layers, base)
}
