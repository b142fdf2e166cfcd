//! The table of a function.

ghost use Rattle.std.specs.Prelude.{◌≡◌, ◌<◌, ◌+◌, ◌*◌, ◌&&◌, ◌||◌, ℕ, not, [], IfOk, length, replicate};
ghost use Rattle.std.specs.Int.{div_ceil};
ghost use Rattle.core_tree.specs.Statements.{reads_at, writes_at};
ghost use Rattle.local_liveness.specs.Sets.{has, Becomes};
ghost use Rattle.local_liveness.specs.Sweeps.{GivesRoom, IsBlank};
ghost use Rattle.local_liveness.specs.Tables.{IsTableOf, HasLive};

use crate::register_set::RegisterSet;
use crate::sweeps::{fill, follow};
use core_tree::{Func, Stm, live_by_paths};
use hs_base::NoMemory;
use std::alloc::Global;
use std::marker::Model;

/// The registers that are live in front of each point of a function to which a statement jumps. [`LiveTable::step_back`]
/// gives from them the registers that are live after each point, from the last point to the first.
#[derive(Debug, Drop)]
pub struct LiveTable {
    fronts: Vec<RegisterSet>,
}

impl Model for LiveTable {
    ghost use Rattle.std.specs.Prelude.{ℕ, List};

    ghost Value = { List (List ℕ) };

    ghost view = { λ table. table.fronts.items };
}

impl LiveTable {
    /// From the registers that are live after a point to those that are live after the point before it: `live` has those of
    /// `point + 1`, and gets those of `point`. Takes no memory.
    pub fn step_back(&self, func: &Func, live: &mut RegisterSet, point: usize)
        requires table { IsTableOf self.now func.now }
        requires point { point < length func.now.body }
        requires live { HasLive live.old func.now (point + 1) }
        ensures { HasLive live.new func.now point }
    {
        live_by_paths();
        let body = func.body.as_slice();
        go_in_front_at(live, body, point + 1);
        follow(live, &self.fronts, body[point].kind.edges());
    }
}

/// From the registers that are live after a point to those that are live in front of it. Past the last point there are as many.
fn go_in_front_at(live: &mut RegisterSet, body: &[Stm], point: usize)
    ensures { Becomes (λ r. reads_at body.now point r || (not (writes_at body.now point r) && has live.old r)) live.old live.new }
{
    if point < body.len() {
        live.go_in_front(&body[point].kind);
    }
}

/// The registers that are live after the last point: none. From here [`LiveTable::step_back`] begins.
///
/// # Errors
///
/// [`NoMemory`], where there is none for the set.
pub fn none_live(alloc: Global, func: &Func) -> Result<RegisterSet, NoMemory>
    ensures { IfOk result (λ live. HasLive live func.now (length func.now.body)) }
{
    live_by_paths();
    RegisterSet::empty(alloc, func.regs.len())
}

/// So many empty sets without room.
fn empty_sets(alloc: Global, points: usize) -> Result<Vec<RegisterSet>, NoMemory>
    ensures { IfOk result (λ sets. sets.items ≡ replicate points []) }
{
    let mut sets = Vec::with_capacity(alloc, points)?;
    for _ in 0..points {
        sets.push(RegisterSet::empty(alloc, 0)?)?;
    }
    Ok(sets)
}

/// Gives the set of a target, where there is one, room for so many registers, and empties it where it had not that room.
fn give_room(
    alloc: Global,
    sets: &mut [RegisterSet],
    target: Option<u32>,
    registers: usize,
) -> Result<(), NoMemory>
    ensures { IfOk result (λ _. GivesRoom target (div_ceil registers 64) sets.old sets.new) }
{
    let Some(target) = target else {
        return Ok(());
    };
    let place = target as usize;
    if place >= sets.len() || sets[place].room() == registers.div_ceil(64) {
        return Ok(());
    }
    sets[place] = RegisterSet::empty(alloc, registers)?;
    Ok(())
}

/// An empty set for each point, with room for so many registers where a statement jumps to the point.
fn blank(alloc: Global, body: &[Stm], registers: usize) -> Result<Vec<RegisterSet>, NoMemory>
    ensures { IfOk result (λ sets. IsBlank body.now (div_ceil registers 64) sets.items) }
{
    let mut sets = empty_sets(alloc, body.len())?;
    for stm in body {
        give_room(alloc, &mut sets, stm.kind.edges().target, registers)?;
    }
    Ok(sets)
}

/// The table of a function.
///
/// It has a set of registers, one bit each, for each point to which a statement jumps. The function may be any: an edge past
/// its last statement leads to nothing. A sweep over the body takes time by its points, and by the words of a set for each
/// jump and each such point. A body without loops takes two sweeps, and loops in one another take one more for each depth; no
/// body takes more than two more than it has points.
///
/// # Errors
///
/// [`NoMemory`], where there is none for the sets.
pub fn live_at(alloc: Global, func: &Func) -> Result<LiveTable, NoMemory>
    ensures { IfOk result (λ table. IsTableOf table func.now) }
{
    live_by_paths();
    let body = func.body.as_slice();
    let mut fronts = blank(alloc, body, func.regs.len())?;
    let mut live = none_live(alloc, func)?;
    fill(body, &mut fronts, &mut live);
    Ok(LiveTable { fronts })
}
