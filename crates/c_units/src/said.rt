//! The external declarations of a unit as they stand in the program.

ghost use Rattle.std.specs.Prelude.{◌≡◌, IfOk, OnOk};
ghost use Rattle.c_tree.specs.StatementView.{trees, decl_view, entry_view, unit_view};
ghost use Rattle.c_units.specs.Externals.{each_said, suffix_of, unit_said};
ghost use Rattle.c_units.specs.Kept.{said_view, all_said};
ghost use Rattle.c_units.specs.Merge.{are_plain, is_plain, spelling};
ghost use Rattle.c_units.specs.Rewriting.{said_of, behind_said};

use crate::mention::Mention;
use crate::statics::own_names;
use crate::walk::Walk;
use c_tree::{Decl, Declarator, Init, Unit, write_unit};
use hs_base::{Items, NoMemory};
use itoa::Buffer;
use std::alloc::Global;

/// An external declaration as it stands in the program, with what it says of the names that units share.
#[derive(Drop)]
pub(crate) struct Said {
    pub(crate) decl: Decl,
    pub(crate) mentions: Vec<Mention>,
}

/// The external declarations of a unit in turn.
#[tactic(auto, using(crate::proofs::SaidTurns::said_next))]
fn each_said(walk: &mut Walk, decls: Vec<Decl>) -> Result<Vec<Said>, NoMemory>
    ensures { IfOk result (λ it. all_said it.items ≡ each_said (trees decl_view decls.items) walk.old) }
{
    let mut all = Vec::with_capacity(walk.alloc, decls.len())?;
    for decl in decls {
        all.push(one_said(walk, decl)?)?;
    }
    Ok(all)
}

/// An external declaration as it stands in the program, with what it says.
fn one_said(walk: &mut Walk, mut decl: Decl) -> Result<Said, NoMemory>
    ensures said { IfOk result (λ one. said_view one ≡ said_of (decl_view decl) walk.old) }
    ensures names { OnOk result (walk.new ≡ behind_said (decl_view decl) walk.old) }
{
    let _ = walk.take_mentions();
    walk.external(&mut decl)?;
    let mentions = walk.take_mentions();
    Ok(Said { decl, mentions })
}

/// The suffix of the unit of this number: a dot, which no name of a text has, and the number.
fn suffix_of(alloc: Global, number: usize) -> Result<Items<u8>, NoMemory>
    ensures { IfOk result (λ suffix. suffix ≡ suffix_of number) }
{
    let mut digits = Buffer::new();
    let mut suffix = Vec::from_slice(alloc, b".")?;
    suffix.extend_from_slice(digits.format(number).as_bytes())?;
    Ok(Items::from(suffix))
}

/// The external declarations of the unit of this number among several.
pub(crate) fn unit_said(alloc: Global, number: usize, unit: Unit) -> Result<Vec<Said>, NoMemory>
    ensures { IfOk result (λ it. all_said it.items ≡ unit_said number (unit_view unit)) }
{
    let own = own_names(alloc, &unit)?;
    let suffix = suffix_of(alloc, number)?;
    let mut walk = Walk::new(alloc, own, suffix);
    let Unit { decls } = unit;
    each_said(&mut walk, decls.into_vec())
}

/// Whether no name of a declaration has an initializer.
#[tactic(auto, using(crate::proofs::SaidTurns::plain_next, crate::proofs::SaidTurns::plain_found, crate::proofs::SaidTurns::plain_end))]
fn are_plain(names: &[(Declarator, Option<Init>)]) -> bool
    ensures { result ≡ are_plain (trees entry_view names.now) }
{
    for entry in names {
        if entry.1.is_some() {
            return false;
        }
    }
    true
}

/// Whether an external declaration has neither a body nor an initializer.
#[tactic(auto, unfolding(crate::specs::Merge::is_plain))]
pub(crate) fn is_plain(decl: &Decl) -> bool
    ensures { result ≡ is_plain (decl_view decl.now) }
{
    match decl {
        Decl::Function { .. } => false,
        Decl::Names { names, .. } => are_plain(names.as_slice()),
    }
}

/// How an external declaration is spelled, whatever its lines, and the declaration itself.
#[tactic(auto, using(crate::proofs::SaidTurns::alone_leaves))]
pub(crate) fn spelled(alloc: Global, decl: Decl) -> Result<(Items<u8>, Decl), NoMemory>
    ensures { IfOk result (λ r. (r.0 ≡ spelling (decl_view decl)) × (r.1 ≡ decl)) }
{
    let mut decls = Items::new(alloc);
    decls.push(decl)?;
    let unit = Unit { decls };
    let spelling = write_unit(alloc, &unit)?;
    let mut decls = unit.decls.into_vec();
    match decls.pop() {
        Some(decl) => Ok((spelling, decl)),
        None => Err(NoMemory),
    }
}
