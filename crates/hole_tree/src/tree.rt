//! A binary tree of nodes over the row, as a list: the root, all nodes of its left half, all nodes of its right half.
//!
//! A tree of height 0 is one node, over at most [`CHUNK`] granules, which are looked at one by one. One that is higher
//! has the first `CHUNK` times 2 to the power of its height less 1 granules of its part in its left half, and the others,
//! if any, in its right half.

ghost use Rattle.std.specs.Prelude.{◌≡◌, ◌+◌, ◌-◌, ◌*◌, ◌^◌, ◌<◌, ◌≤◌, false, length, replicate, MatchOption};
ghost use Rattle.hole_tree.specs.Granules.{HasNoHole, IsFirstHole};
ghost use Rattle.hole_tree.specs.Tree.{IsTree, WasTree, node_count};

use crate::node::{Node, first_in_part, joined, node_of};

/// How many granules one node of the lowest level has.
pub const CHUNK: usize = 32;

/// The greatest height, at which the row has up to 2 to the power of 32 granules.
pub const MAX_HEIGHT: u32 = 27;

/// How many granules the left half of a tree has, if its part has that many.
fn half_of(height: u32) -> usize
    requires above { 0 < height }
    requires most { height ≤ 27 }
    ensures half { result ≡ 32 * 2 ^ (height - 1) }
    ensures fits { result ≤ 2 ^ 31 }
{
    CHUNK << (height - 1)
}

/// Makes the tree of a part all of whose granules are free.
pub fn open(nodes: &mut [Node], height: u32, granules: u32)
    requires long { length nodes.old ≡ node_count height }
    requires most { height ≤ 27 }
    ensures { IsTree height (replicate granules false) nodes.new }
{
    let (root, below) = nodes.split_at_mut(1);
    root[0] = Node::all_free(granules);
    if height == 0 {
        return;
    }
    let first = (granules as usize).min(half_of(height)) as u32;
    let middle = below.len() / 2;
    let (left, right) = below.split_at_mut(middle);
    open(left, height - 1, first);
    open(right, height - 1, granules - first);
}

/// Counts the nodes again whose parts meet the granules from a place up to another, after these have changed.
pub fn refresh(nodes: &mut [Node], taken: &[bool], height: u32, from: usize, to: usize)
    requires long { length nodes.old ≡ node_count height }
    requires most { height ≤ 27 }
    requires fits { length taken.now < 2 ^ 32 }
    requires tree { WasTree height taken.now nodes.old from to }
    ensures { IsTree height taken.now nodes.new }
{
    let (root, below) = nodes.split_at_mut(1);
    if height == 0 {
        root[0] = node_of(taken);
        return;
    }
    let half = half_of(height);
    let (left_part, right_part) = taken.split_at(half.min(taken.len()));
    let middle = below.len() / 2;
    let (left, right) = below.split_at_mut(middle);
    if from < half {
        refresh(left, left_part, height - 1, from, to.min(half));
    }
    if to > half {
        refresh(
            right,
            right_part,
            height - 1,
            from.saturating_sub(half),
            to - half,
        );
    }
    let left_node = left[0];
    let right_node = right[0];
    root[0] = joined(left_node, left_part, right_node, right_part);
}

/// The lowest place of so many free granules in a row.
pub fn first_hole(nodes: &[Node], taken: &[bool], height: u32, n: u32) -> Option<u32>
    requires long { length nodes.now ≡ node_count height }
    requires most { height ≤ 27 }
    requires fits { length taken.now < 2 ^ 32 }
    requires tree { IsTree height taken.now nodes.now }
    requires some { 0 < n }
    ensures { MatchOption result (HasNoHole taken.now n) (IsFirstHole taken.now n) }
{
    if nodes[0].longest < n {
        return None;
    }
    if height == 0 {
        return first_in_part(taken, n);
    }
    let half = half_of(height);
    let (left_part, right_part) = taken.split_at(half.min(taken.len()));
    let (_, below) = nodes.split_at(1);
    let (left, right) = below.split_at(below.len() / 2);
    if let Some(place) = first_hole(left, left_part, height - 1, n) {
        return Some(place);
    }
    let left_len = left_part.len() as u32;
    let left_node = left[0];
    let right_node = right[0];
    if left_node.end + right_node.front >= n {
        return Some(left_len - left_node.end);
    }
    match first_hole(right, right_part, height - 1, n) {
        Some(place) => Some(left_len + place),
        None => None,
    }
}
