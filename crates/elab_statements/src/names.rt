//! Names with their initializers (C99 6.7, 6.9.2).

ghost use Rattle.std.specs.Prelude.{◌≡◌, Some, option_copied};
ghost use Rattle.c_types.specs.Types.{plain};
ghost use Rattle.c_tree.specs.View.{declarator_tree};
ghost use Rattle.c_tree.specs.StatementView.{trees, entry_view, names_view, specs_view};
ghost use Rattle.elaboration.specs.Declarations as rules;
ghost use Rattle.elab_statements.specs.GivenLengths.{held};
ghost use Rattle.elab_statements.specs.PlainStorage.{plain_storage};
ghost use Rattle.elab_base.specs.Outcomes.{Becomes};
ghost use Rattle.c_decls.specs.Refusals.{Meets};
ghost use Rattle.elab_base.specs.MaybeNames.{given};
ghost use Rattle.elab_statements.specs.Declaring.{declaration, entries, entry, name_in};

use crate::files::file_name;
use crate::lengths::with_init_layers;
use crate::locals::local_name;
use crate::words::{Storage, specs_before, storage_of};
use c_decls::{LayeredType, TypeError};
use c_tree::{Declarator, Init, Specs};
use c_typing::declared_name;
use elab_base::Elaborator;
use elab_types::layers;
use hs_base::Line;

/// A name at file scope or inside a function, of a type, with its initializer.
fn name_in(
    state: &mut Elaborator,
    file: bool,
    line: Line,
    storage: Storage,
    name: &[u8],
    ty: LayeredType,
    init: Option<&Init>,
) -> Result<(), TypeError>
    ensures { Becomes state.new result (name_in file line storage name.now ty init.entry state.old) }
{
    if file {
        file_name(state, line, storage, name, ty, init)
    } else {
        local_name(state, line, storage, name, ty, init)
    }
}

/// A declarator before its initializer: its type, and then its name, which may be left out.
fn entry(
    state: &mut Elaborator,
    file: bool,
    line: Line,
    storage: Storage,
    base: &LayeredType,
    declarator: &Declarator,
    init: Option<&Init>,
) -> Result<(), TypeError>
    ensures { Becomes state.new result (entry file line storage base.now declarator.now (given init.entry) state.old) }
{
    let layers = layers(state, declarator)?;
    let ty = with_init_layers(state.alloc(), state.tags(), layers, init, base.copied())?;
    match declared_name(declarator) {
        Some(name) => name_in(state, file, line, storage, name.as_slice(), ty, init),
        None => Ok(()),
    }
}

/// A name with its initializer, where it has one.
fn named_entry(
    state: &mut Elaborator,
    file: bool,
    line: Line,
    storage: Storage,
    base: &LayeredType,
    name: &(Declarator, Option<Init>),
) -> Result<(), TypeError>
    ensures { Becomes state.new result (entry file line storage base.now name.now.0 name.now.1 state.old) }
{
    entry(state, file, line, storage, base, &name.0, name.1.as_ref())
}

/// Names at file scope or inside a function, in turn.
fn entries(
    state: &mut Elaborator,
    file: bool,
    line: Line,
    storage: Storage,
    base: &LayeredType,
    names: &[(Declarator, Option<Init>)],
) -> Result<(), TypeError>
    ensures { Becomes state.new result (entries file line storage base.now names.now state.old) }
{
    for name in names {
        named_entry(state, file, line, storage, base, name)?;
    }
    Ok(())
}

/// A declaration at file scope or inside a function, which stands at a line: its specs, and then its names with their
/// initializers in turn.
///
/// # Errors
///
/// The first refusal in the order of the text, or want of memory. A refusal about a declared name has the line of the
/// declaration.
#[tactic(auto, unfolding(elaboration::specs::Declarations::declaration))]
pub(crate) fn declaration(
    state: &mut Elaborator,
    file: bool,
    line: Line,
    words: &Specs,
    names: &[(Declarator, Option<Init>)],
) -> Result<(), TypeError>
    ensures { Becomes state.new result (declaration file line words.now names.now state.old) }
{
    let base = specs_before(state, words, names)?;
    entries(state, file, line, storage_of(words), &base, names)
}
