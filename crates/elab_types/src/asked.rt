//! What the rules of types say of expressions and names, with what these declare (C99 6.5, 6.6, 6.7.2).

ghost use Rattle.c_tree.specs.View.{spec_tree};
ghost use Rattle.c_tree.specs.StatementView.{expr_view};
ghost use Rattle.c_decls.specs.Refusals.{Meets};
ghost use Rattle.c_decls.specs.Typed.{plain_typed};
ghost use Rattle.c_decls.specs.TypeNames.{special_type};
ghost use Rattle.c_typing.specs.Layers.{plain_layer};
ghost use Rattle.elaboration.specs.Context.{asked};
ghost use Rattle.elaboration.specs.Declarators as plain;
ghost use Rattle.elab_types.specs.Steps.{with_told, typed_in, wanted_in, array_layer};
ghost use Rattle.elab_base.specs.Outcomes.{Gives};
ghost use Rattle.std.specs.Prelude.{◌≡◌};
ghost use Rattle.elab_types.specs.Outcomes.{FindsLayer};
ghost use Rattle.elab_types.specs.Parts.{type_of_word};

use c_decls::{Constant, LayeredType, Scopes, TypeError, Typed, line_of};
use c_tree::{Expr, Spec};
use c_types::Tags;
use c_typing as types;
use c_typing::{Layer, array_length, constant_from};
use elab_base::Elaborator;
use hs_base::Line;

/// An expression: its type, and its value where it is constant. No code comes of it.
pub fn typed(state: &mut Elaborator, e: &Expr) -> Result<Typed, TypeError>
    ensures { Meets (λ x. (state.new, plain_typed x)) result (typed_in (expr_view e.now) state.old) }
{
    let alloc = state.alloc();
    let (mut scopes, mut tags) = state.swap_asked(Scopes::none(alloc), Tags::new(alloc)?);
    let x = types::typed(alloc, &mut scopes, &mut tags, e)?;
    let _ = state.swap_asked(scopes, tags);
    Ok(x)
}

/// An expression whose value is wanted.
pub fn wanted(state: &mut Elaborator, e: &Expr) -> Result<Typed, TypeError>
    ensures { Meets (λ x. (state.new, plain_typed x)) result (wanted_in (expr_view e.now) state.old) }
{
    let x = typed(state, e)?;
    let value = x.wanted_value(line_of(e), state.tags())?;
    Ok(value)
}

/// An expression that must be constant; it is gone through whole first (C99 6.6).
pub fn constant(state: &mut Elaborator, e: &Expr) -> Result<Constant, TypeError>
    ensures { Gives state.new result (plain.constant (expr_view e.now) state.old) }
{
    let x = wanted(state, e)?;
    let constant = constant_from(line_of(e), &x)?;
    Ok(constant)
}

/// The layer of an array whose length is given (C99 6.7.5.2).
pub(crate) fn array_layer(state: &mut Elaborator, line: Line, e: &Expr) -> Result<Layer, TypeError>
    ensures { FindsLayer state.new result (array_layer line (expr_view e.now) state.old) }
{
    let x = wanted(state, e)?;
    let length = array_length(line_of(e), &x)?;
    Ok(Layer::ArrayOf(line, Some(length)))
}

/// A tag without braces, or the name of a type, at a line (C99 6.7.2).
pub fn special_type(
    state: &mut Elaborator,
    line: Line,
    word: &Spec,
) -> Result<LayeredType, TypeError>
    ensures { Gives state.new result (type_of_word line word.now state.old) }
{
    let alloc = state.alloc();
    let (mut scopes, mut tags) = state.swap_asked(Scopes::none(alloc), Tags::new(alloc)?);
    let ty = types::special_type(alloc, &mut scopes, &mut tags, line, word)?;
    let _ = state.swap_asked(scopes, tags);
    Ok(ty)
}
