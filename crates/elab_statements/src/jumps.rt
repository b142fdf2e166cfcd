//! Jumps out of statements, and the ends of loops (C99 6.8.5, 6.8.6).

ghost use Rattle.std.specs.Prelude.{◌≡◌, ◌-◌, IfOk};
ghost use Rattle.elaboration.specs.Statements.{leaves, leave_to, returned, looped};
ghost use Rattle.elab_base.specs.Outcomes.{Becomes};
ghost use Rattle.c_decls.specs.Refusals.{Meets};

use c_decls::{TypeError, TypeKind, refused};
use core_tree::{Atom, StmKind};
use elab_base::Elaborator;
use hs_base::{Line, NoMemory};

/// Leaves so many delay blocks.
#[tactic(auto, using(crate::proofs::InTurn::leaves_one, crate::proofs::InTurn::leaves_none))]
fn leaves(state: &mut Elaborator, line: Line, count: u32) -> Result<(), NoMemory>
    ensures { IfOk result (λ _. state.new ≡ leaves line count state.old) }
{
    let mut left = count;
    while left > 0 {
        state.emit(line, StmKind::Leave)?;
        left -= 1;
    }
    Ok(())
}

/// `break` and `continue`: leaves each delay block on the way, and jumps (C99 6.8.6.2, 6.8.6.3).
pub(crate) fn leave_to(
    state: &mut Elaborator,
    line: Line,
    delays: u32,
    exit: Option<(u32, u32)>,
) -> Result<(), TypeError>
    ensures { Becomes state.new result (leave_to line delays exit state.old) }
{
    match exit {
        None => refused(TypeKind::StrayBreak, line),
        Some((label, outer)) => {
            leaves(state, line, delays.saturating_sub(outer))?;
            state.emit(line, StmKind::Jump(label))?;
            Ok(())
        }
    }
}

/// `return`: leaves each open delay block of the function (C99 6.8.6.4).
pub(crate) fn returned(
    state: &mut Elaborator,
    line: Line,
    delays: u32,
    value: Option<Atom>,
) -> Result<(), NoMemory>
    ensures { IfOk result (λ _. state.new ≡ returned line delays value state.old) }
{
    leaves(state, line, delays)?;
    state.emit(line, StmKind::Return(value))
}

/// The loop back, and the end of a loop.
pub(crate) fn looped(
    state: &mut Elaborator,
    line: Line,
    head: u32,
    end: u32,
) -> Result<(), NoMemory>
    ensures { IfOk result (λ _. state.new ≡ looped line head end state.old) }
{
    state.emit(line, StmKind::Loop(head))?;
    state.here(end)
}
