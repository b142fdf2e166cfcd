//! Sweeps over a body, from its last point to its first. A sweep carries one set along: what is live at the point where it is.
//! Of a point to which some statement jumps, the set that is live in front of it is kept, and sweeps go on until nothing is
//! added to these sets.

ghost use Rattle.std.specs.Prelude.{◌≡◌, ◌<◌, ◌*◌, ◌&&◌, ◌||◌, ℕ, false, length};
ghost use Rattle.std.specs.Option.{option_map_or};
ghost use Rattle.core_tree.specs.declared.flow.Edges.{Edges};
ghost use Rattle.local_liveness.specs.Sets.{has, has_target, set_at, Becomes};
ghost use Rattle.local_liveness.specs.Sweeps.{Fills, HasRoom, IsBlank, IsFilled};

use crate::register_set::RegisterSet;
use core_tree::{Edges, Stm, live_by_paths};

/// From the registers that are live in front of the next point to those that are live after a statement, by its edges.
pub(crate) fn follow(live: &mut RegisterSet, fronts: &[RegisterSet], edges: Edges)
    ensures { Becomes (λ r. (edges.next && has live.old r) || has_target fronts.now edges.target r) live.old live.new }
{
    keep_if(live, edges.next);
    match edges.target {
        Some(target) => follow_target(live, fronts, target as usize),
        None => (),
    }
}

/// Takes out all registers where the run does not go on to the next point.
fn keep_if(live: &mut RegisterSet, goes_on: bool)
    ensures { Becomes (λ r. goes_on && has live.old r) live.old live.new }
{
    if !goes_on {
        live.clear();
    }
}

/// Adds the registers that are live in front of a target.
fn follow_target(live: &mut RegisterSet, fronts: &[RegisterSet], target: usize)
    ensures { Becomes (λ r. has (set_at fronts.now target) r || has live.old r) live.old live.new }
{
    if target < fronts.len() {
        live.join(&fronts[target]);
    }
}

/// Goes over all points, from the last to the first, and adds to the set of each, as far as it has room, what is live in front
/// of it. Says whether that was more. `live` is overwritten.
fn sweep(body: &[Stm], fronts: &mut [RegisterSet], live: &mut RegisterSet) -> bool
    requires points { length fronts.old ≡ length body.now }
    requires room { HasRoom body.now (length live.old) fronts.old }
    ensures words { length live.new ≡ length live.old }
    ensures fills { Fills body.now (length live.old) fronts.old fronts.new }
    ensures same { result ≡ false → fronts.new ≡ fronts.old }
{
    live_by_paths();
    live.clear();
    let mut more = false;
    for point in (0..body.len()).rev() {
        let kind = &body[point].kind;
        follow(live, fronts, kind.edges());
        live.go_in_front(kind);
        more |= fronts[point].join(live);
    }
    more
}

/// Fills the sets of points to which statements jump with the registers that are live in front of them. One sweep more than
/// there are points finds all of them; one that adds nothing is the last. `live` has as many words as each of these sets.
pub(crate) fn fill(body: &[Stm], fronts: &mut [RegisterSet], live: &mut RegisterSet)
    requires { IsBlank body.now (length live.old) fronts.old }
    ensures words { length live.new ≡ length live.old }
    ensures filled { IsFilled body.now (length live.old) fronts.new }
{
    for _ in 0..body.len() + 1 {
        if !sweep(body, fronts, live) {
            return;
        }
    }
}
