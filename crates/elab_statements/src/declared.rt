//! External declarations (C99 6.9).

ghost use Rattle.std.specs.Prelude.{true, []};
ghost use Rattle.c_tree.specs.View.{declarator_tree};
ghost use Rattle.c_tree.specs.StatementView.{specs_view, names_view, body_view, decl_view};
ghost use Rattle.elaboration.specs.Declarations.{declaration};
ghost use Rattle.elaboration.specs.Externals.{begun, external};
ghost use Rattle.elab_base.specs.Idle.{idled};
ghost use Rattle.elab_base.specs.Outcomes.{Becomes};
ghost use Rattle.c_decls.specs.Refusals.{Meets};
ghost use Rattle.elaboration.specs.Context.{Context};
ghost use Rattle.elab_statements.specs.Declaring.{definition, file_names};

use crate::bodies::defined;
use crate::names::declaration;
use c_decls::{TypeError, TypeKind, refused};
use c_tree::{Decl, Declarator, Init, Specs, Stmt};
use c_typing::{declared_name, with_layers};
use elab_addressed::addressed_in;
use elab_base::Elaborator;
use elab_types::{layers, specs};
use hs_base::Line;

/// The definition of a function (C99 6.9.1).
fn definition(
    state: &mut Elaborator,
    line: Line,
    words: &Specs,
    declarator: &Declarator,
    list: &[Stmt],
    end: Line,
) -> Result<(), TypeError>
    ensures { Becomes state.new result (definition line words.now declarator.now list.now end state.old) }
{
    let base = specs(state, words)?;
    let layers = layers(state, declarator)?;
    let ty = with_layers(state.alloc(), state.tags(), layers, base)?;
    match declared_name(declarator) {
        Some(name) => defined(state, line, name.as_slice(), ty.ty(), list, end),
        None => refused(TypeKind::Operands, line),
    }
}

/// A declaration of names at file scope (C99 6.9.2).
fn file_names(
    state: &mut Elaborator,
    line: Line,
    words: &Specs,
    names: &[(Declarator, Option<Init>)],
) -> Result<(), TypeError>
    ensures { Becomes state.new result (file_names line words.now names.now state.old) }
{
    state.begin_external(line, Vec::new(state.alloc()))?;
    declaration(state, true, line, words, names)?;
    state.begin_external(0, Vec::new(state.alloc()))?;
    Ok(())
}

/// An external declaration, from its begin to its end, behind which no function runs.
#[tactic(auto, unfolding(elaboration::specs::Externals::external))]
pub(crate) fn external(state: &mut Elaborator, decl: &Decl) -> Result<(), TypeError>
    ensures { Becomes state.new result (idled (external (decl_view decl.now) state.old)) }
{
    match decl {
        Decl::Function {
            line,
            specs,
            declarator,
            body,
            end,
        } => {
            let addressed = addressed_in(state.alloc(), declarator, body.as_slice(), *end)?;
            state.begin_external(*line, addressed)?;
            definition(state, *line, specs, declarator, body.as_slice(), *end)
        }
        Decl::Names { line, specs, names } => file_names(state, *line, specs, names.as_slice()),
    }
}
