//! File-scope names (C99 6.7, 6.9.2).

ghost use Rattle.std.specs.Prelude.{◌≡◌, option_copied};
ghost use Rattle.c_types.specs.Types.{plain};
ghost use Rattle.elaboration.specs.Declarations as rules;
ghost use Rattle.elab_statements.specs.GivenLengths.{held};
ghost use Rattle.elab_statements.specs.PlainTarget.{plain_target};
ghost use Rattle.elab_statements.specs.PlainStorage.{plain_storage};
ghost use Rattle.elab_base.specs.Outcomes.{Becomes};
ghost use Rattle.c_decls.specs.Refusals.{Meets};
ghost use Rattle.elab_base.specs.MaybeNames.{given};
ghost use Rattle.elab_statements.specs.Declaring.{file_name, file_object, file_value, fill_variable};

use crate::braces::initialize;
use crate::targets::Target;
use crate::unwanted::surplus;
use crate::words::Storage;
use c_decls::{
    LayeredType, Named, TypeError, TypeKind, has_no_size, init_line, is_function, refused,
};
use c_tree::Init;
use c_types::CType;
use c_typing::is_built_in;
use core_tree::Start;
use elab_base::{Elaborator, no_start, trimmed};
use hs_base::Line;
use std::alloc::Global;

/// A function has no initializer; one that it has is gone through, and refused.
fn no_initializer(state: &mut Elaborator, init: Option<&Init>) -> Result<(), TypeError>
    ensures { Becomes state.new result (rules.no_initializer (held (given init.entry)) state.old) }
{
    match init {
        None => Ok(()),
        Some(init) => {
            surplus(state, init)?;
            refused(TypeKind::Assignment, init_line(init))
        }
    }
}

/// What a static holds that was filled, without the zeros at the end.
fn start_in(alloc: Global, target: Target) -> Start
    ensures { result ≡ rules.start_in (plain_target target) }
{
    match target {
        Target::Static(start) => trimmed(start),
        Target::Register(_, _) | Target::Memory(_, _) => no_start(alloc),
    }
}

/// A variable of that number gets its initializer, if one is given; it must not have one yet.
fn fill_variable(
    state: &mut Elaborator,
    line: Line,
    index: u32,
    ty: &CType,
    init: Option<&Init>,
) -> Result<(), TypeError>
    ensures { Becomes state.new result (fill_variable line index ty.now init.entry state.old) }
{
    match init {
        None => Ok(()),
        Some(init) => {
            if state.is_started(index) {
                return refused(TypeKind::DeclaredTwice, line);
            }
            let zeros = Target::Static(no_start(state.alloc()));
            let filled = initialize(state, init, false, ty, 0, zeros)?;
            let start = start_in(state.alloc(), filled);
            state.start_variable(index, start);
            Ok(())
        }
    }
}

/// A file-scope variable: of a known size, not there as anything else, its block within the bytes of statics; then its
/// initializer (C99 6.9.2).
fn file_object(
    state: &mut Elaborator,
    line: Line,
    name: &[u8],
    ty: CType,
    init: Option<&Init>,
) -> Result<(), TypeError>
    ensures { Becomes state.new result (file_object line name.now ty init.entry state.old) }
{
    let index = state.variable_number(name)?;
    if has_no_size(state.tags(), &ty) {
        return refused(TypeKind::Incomplete, line);
    }
    state.declared_as(line, name, Named::Object { ty, index })?;
    state.with_variable(line, index, name, &ty)?;
    fill_variable(state, line, index, &ty, init)
}

/// A function or a variable at file scope. A built-in function that is declared by hand with its own type is the function
/// that it was (C99 7.1.4).
fn file_value(
    state: &mut Elaborator,
    line: Line,
    name: &[u8],
    ty: CType,
    init: Option<&Init>,
) -> Result<(), TypeError>
    ensures { Becomes state.new result (file_value line name.now ty init.entry state.old) }
{
    if is_built_in(state.alloc(), &ty, state.find_in_file(name))? {
        no_initializer(state, init)
    } else if is_function(&ty) {
        state.declared_function(line, name, ty)?;
        no_initializer(state, init)
    } else {
        file_object(state, line, name, ty, init)
    }
}

/// A file-scope name: of a type, or of a function or a variable.
pub(crate) fn file_name(
    state: &mut Elaborator,
    line: Line,
    storage: Storage,
    name: &[u8],
    ty: LayeredType,
    init: Option<&Init>,
) -> Result<(), TypeError>
    ensures { Becomes state.new result (file_name line storage name.now ty init.entry state.old) }
{
    match storage {
        Storage::Typedef => state.declared_as(line, name, Named::Typedef { ty }),
        Storage::Outside | Storage::Plain => file_value(state, line, name, ty.ty(), init),
    }
}
