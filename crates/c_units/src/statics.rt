//! What a unit has for itself: the objects and functions that it declares `static` (C99 6.2.2).

ghost use Rattle.std.specs.Prelude.{◌≡◌, [], IfOk, OnOk};
ghost use Rattle.c_tree.specs.StatementView.{trees, decl_view, entry_view, unit_view};
ghost use Rattle.c_units.specs.Externals.{noted_name, entry_names, own_names, static_names};
ghost use Rattle.c_units.specs.Mentions.{all_noted};

use crate::declarations::declared_name;
use crate::name_set::NameSet;
use c_tree::{Decl, Declarator, Init, Unit};
use hs_base::NoMemory;
use std::alloc::Global;

/// Notes the name of a declarator, unless it is that of the program's first function.
fn note(alloc: Global, names: &mut NameSet, declarator: &Declarator) -> Result<(), NoMemory>
    ensures { OnOk result (names.new ≡ all_noted names.old (noted_name declarator.now)) }
{
    match declared_name(declarator) {
        Some(name) => {
            if name.as_slice() == b"main".as_slice() {
                Ok(())
            } else {
                names.note(alloc, name.as_slice())
            }
        }
        None => Ok(()),
    }
}

/// Notes the names of a declaration.
#[tactic(auto, using(crate::proofs::StaticNames::entry_next, crate::proofs::StaticNames::entry_end))]
fn note_all(
    alloc: Global,
    names: &mut NameSet,
    list: &[(Declarator, Option<Init>)],
) -> Result<(), NoMemory>
    ensures { OnOk result (names.new ≡ all_noted names.old (entry_names (trees entry_view list.now))) }
{
    for entry in list {
        note(alloc, names, &entry.0)?;
    }
    Ok(())
}

/// Notes what an external declaration declares `static`.
#[tactic(auto, unfolding(crate::specs::Externals::static_names, c_tree::specs::SpecWords::has_static), using(crate::proofs::StaticNames::function_static))]
fn note_static(alloc: Global, names: &mut NameSet, decl: &Decl) -> Result<(), NoMemory>
    ensures { OnOk result (names.new ≡ all_noted names.old (static_names (decl_view decl.now))) }
{
    match decl {
        Decl::Function {
            specs,
            declarator,
            ..
        } => {
            if specs.has_static() {
                note(alloc, names, declarator)
            } else {
                Ok(())
            }
        }
        Decl::Names {
            specs,
            names: list,
            ..
        } => {
            if specs.has_static() {
                note_all(alloc, names, list.as_slice())
            } else {
                Ok(())
            }
        }
    }
}

/// What a unit declares `static`.
#[tactic(auto, using(crate::proofs::StaticNames::decl_next, crate::proofs::StaticNames::decl_end))]
pub(crate) fn own_names(alloc: Global, unit: &Unit) -> Result<NameSet, NoMemory>
    ensures { IfOk result (λ names. names ≡ own_names (unit_view unit.now) []) }
{
    let mut names = NameSet::new(alloc);
    let decls = unit.decls.as_slice();
    for decl in decls {
        note_static(alloc, &mut names, decl)?;
    }
    Ok(names)
}
