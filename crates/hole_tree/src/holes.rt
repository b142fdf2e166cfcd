//! The holes of a row of granules.

ghost use Rattle.std.specs.Prelude.{◌≡◌, ◌+◌, ◌*◌, ◌^◌, ◌<◌, ◌≤◌, ℕ, Bool, true, false, length, replicate, IfOk, MatchOption, IsTrue};
ghost use Rattle.hole_tree.specs.Granules.{HasNoHole, IsFirstHole, IsRun, IsSet};
ghost use Rattle.hole_tree.specs.Tree.{node_count};

use crate::node::{Node, first_in_part};
use crate::tree::{CHUNK, MAX_HEIGHT, first_hole, open, refresh};
use hs_base::NoMemory;
use std::alloc::Global;
use std::marker::Model;

/// The lowest height of a tree whose lowest nodes have at most [`CHUNK`] granules each.
fn height_for(granules: u32) -> u32
    ensures most { result ≤ 27 }
    ensures room { granules ≤ 32 * 2 ^ result }
    ensures lowest { (lower : ℕ) → lower < result → 32 * 2 ^ lower < granules }
{
    let mut room = CHUNK;
    for height in 0..MAX_HEIGHT {
        if granules as usize <= room {
            return height;
        }
        room *= 2;
    }
    MAX_HEIGHT
}

/// Sets so many granules from a place on.
pub fn set_run(row: &mut [bool], place: usize, n: usize, taken: bool)
    requires { place + n ≤ length row.old }
    ensures { IsSet row.old row.new place n taken }
{
    for granule in place..place + n {
        row[granule] = taken;
    }
}

/// Says whether so many granules from a place on are there and free, by a look at each of them.
fn is_free(row: &[bool], place: usize, n: usize) -> bool
    requires { place + n < 2 ^ 63 }
    ensures { IsTrue result → IsRun row.now place n false }
{
    if row.len() < place + n {
        return false;
    }
    for granule in place..place + n {
        if row[granule] {
            return false;
        }
    }
    true
}

/// A row of granules with the tree of its nodes. The granules from a place up to another may have changed since the nodes
/// were counted: so changes side by side, of which there are many, are counted together.
#[derive(Debug, Drop)]
struct Granules {
    row: Vec<bool>,
    nodes: Vec<Node>,
    height: u32,
    from: u32,
    to: u32,
}

impl Model for Granules {
    ghost use Rattle.std.specs.Prelude.{List, Bool};
    ghost use Rattle.hole_tree.specs.Tree.{IsTreeOf};

    ghost Value = { List Bool };

    ghost view = { λ h. h.row.items };

    ghost invariant = { λ h. IsTreeOf h.height h.row.items h.nodes.items h.from h.to };
}

impl Granules {
    /// So many granules, all of them free.
    fn new(alloc: Global, granules: u32) -> Result<Granules, NoMemory>
        ensures { IfOk result (λ row. row ≡ replicate granules false) }
    {
        let height = height_for(granules);
        let count = 2 * 2usize.pow(height) - 1;
        let mut nodes = vec![in alloc; Node::all_free(0); count]?;
        open(nodes.as_mut_slice(), height, granules);
        Ok(Granules {
            row: vec![in alloc; false; granules as usize]?,
            nodes,
            height,
            from: 0,
            to: 0,
        })
    }

    /// Counts the nodes again whose parts have granules that changed since.
    fn settle(&mut self)
        ensures { self.new ≡ self.old }
    {
        if self.from < self.to {
            refresh(
                self.nodes.as_mut_slice(),
                self.row.as_slice(),
                self.height,
                self.from as usize,
                self.to as usize,
            );
        }
        self.from = 0;
        self.to = 0;
    }

    /// The lowest place from which on so many granules in a row are free, if there is one: by a look at each granule where
    /// changes are not counted yet, and else by the tree.
    fn first(&self, n: u32) -> Option<u32>
        requires { 0 < n }
        ensures { MatchOption result (HasNoHole self.now n) (IsFirstHole self.now n) }
    {
        if self.from < self.to {
            return first_in_part(self.row.as_slice(), n);
        }
        first_hole(self.nodes.as_slice(), self.row.as_slice(), self.height, n)
    }

    /// Sets so many granules from a place on. They are counted later.
    fn set(&mut self, place: u32, n: u32, taken: bool)
        requires { place + n ≤ length self.old }
        ensures { IsSet self.old self.new place n taken }
    {
        let _ = &self.row;
        let end = place + n;
        if self.to < place || end < self.from {
            self.settle();
        }
        set_run(self.row.as_mut_slice(), place as usize, n as usize, taken);
        if self.from < self.to {
            self.from = self.from.min(place);
            self.to = self.to.max(end);
        } else {
            self.from = place;
            self.to = end;
        }
    }

    /// Says whether so many granules from a place on are there and free.
    fn is_free(&self, place: u32, n: u32) -> bool
        ensures { IsTrue result → IsRun self.now place n false }
    {
        is_free(self.row.as_slice(), place as usize, n as usize)
    }
}

/// A row of granules, each of which is taken or free.
#[derive(Debug, Drop)]
pub struct Holes {
    granules: Granules,
    /// All granules below it are taken. Where a hole is long enough there, no search is wanted.
    low: u32,
}

impl Model for Holes {
    ghost use Rattle.std.specs.Prelude.{List, Bool, true};
    ghost use Rattle.hole_tree.specs.Granules.{IsRun};

    ghost Value = { List Bool };

    ghost view = { λ h. h.granules };

    ghost invariant = { λ h. IsRun h.granules 0 h.low true };
}

impl Holes {
    /// One hole of so many granules. It takes all memory that later calls need.
    pub fn new(alloc: Global, granules: u32) -> Result<Holes, NoMemory>
        ensures { IfOk result (λ holes. holes ≡ replicate granules false) }
    {
        Ok(Holes {
            granules: Granules::new(alloc, granules)?,
            low: 0,
        })
    }

    /// Counts what has changed, unless the lowest place of so many granules is known without: behind it [`Holes::first`] for
    /// that many goes down one path of the tree at most. The row stays.
    pub fn settle(&mut self, n: u32)
        ensures { self.new ≡ self.old }
    {
        if !self.granules.is_free(self.low, n) {
            self.granules.settle();
        }
    }

    /// The lowest place from which on so many granules in a row are free, if there is one. Where changes are not counted yet
    /// ([`Holes::settle`]), it may look at each granule.
    pub fn first(&self, n: u32) -> Option<u32>
        requires { 0 < n }
        ensures { MatchOption result (HasNoHole self.now n) (IsFirstHole self.now n) }
    {
        if self.granules.is_free(self.low, n) {
            return Some(self.low);
        }
        self.granules.first(n)
    }

    /// Takes so many granules from a place on, which are free.
    pub fn take(&mut self, place: u32, n: u32)
        requires some { 0 < n }
        requires free { IsRun self.old place n false }
        ensures { IsSet self.old self.new place n true }
    {
        self.granules.set(place, n, true);
        if place == self.low {
            self.low = place.saturating_add(n);
        }
    }

    /// Gives back so many granules from a place on, which are taken.
    pub fn give(&mut self, place: u32, n: u32)
        requires some { 0 < n }
        requires taken { IsRun self.old place n true }
        ensures { IsSet self.old self.new place n false }
    {
        self.granules.set(place, n, false);
        self.low = self.low.min(place);
    }
}
