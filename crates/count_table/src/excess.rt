//! What exceeds 255 in the counts of granules.

ghost use Rattle.std.specs.Prelude.{◌≡◌, ◌↔◌, ◌+◌, ◌-◌, ◌<◌, ◌≤◌, ◌^◌, [], length, sum_by, IfOk, IsTrue};
ghost use Rattle.std.specs.Bool.{OnFalse, OnTrue};
ghost use Rattle.std.specs.List.Sorted.{IsPartitionPoint};
ghost use Rattle.count_table.specs.Excess.{excess_at, with_excess, pairs_within};

use hs_base::NoMemory;
use std::alloc::Global;
use std::marker::Model;

/// Granules, each with an excess above 0, in pairs ascending by granule. [`Excess::new`] takes the memory of all pairs
/// that there may be; those behind the pairs in use are spare.
#[derive(Debug, Drop)]
pub struct Excess {
    pairs: Vec<(u32, u32)>,
    used: usize,
}

impl Model for Excess {
    ghost use Rattle.std.specs.Prelude.{◌≤◌, length, take};
    ghost use Rattle.count_table.specs.Excess.{Pairs, IsAscending};

    ghost Value = { Pairs };

    ghost view = { λ e. record { list = take e.used e.pairs.items; room = length e.pairs.items } };

    ghost invariant = { λ e. IsAscending (take e.used e.pairs.items) × (e.used ≤ length e.pairs.items) };
}

impl Excess {
    /// No pairs, and room for so many.
    pub fn new(alloc: Global, room: usize) -> Result<Excess, NoMemory>
        ensures { IfOk result (λ excess. excess ≡ record { list = []; room = room }) }
    {
        Ok(Excess {
            pairs: vec![in alloc; (0, 0); room]?,
            used: 0,
        })
    }

    /// The pairs in use.
    pub fn as_slice(&self) -> &[(u32, u32)]
        ensures { result.now ≡ self.now.list }
    {
        &self.pairs[..self.used]
    }

    /// How many pairs have a granule below one: the place of its pair, if it has any. The search is by halves.
    fn place_of(&self, granule: usize) -> usize
        ensures within { result ≤ length self.now.list }
        ensures place { IsPartitionPoint (λ p. p.0 < granule) (λ p. granule ≤ p.0) self.now.list result }
    {
        let pairs = &self.pairs[..self.used];
        pairs.partition_point(|pair| (pair.0 as usize) < granule)
    }

    /// One more for a granule. Where it had no excess, its pair comes into use, and those behind it move up by one place.
    #[inline(never)]
    pub fn raise(&mut self, granule: u32)
        requires fits { excess_at self.old.list granule + 1 < 2 ^ 32 }
        requires room { length (with_excess self.old.list granule (excess_at self.old.list granule + 1)) ≤ self.old.room }
        ensures raised { self.new.list ≡ with_excess self.old.list granule (excess_at self.old.list granule + 1) }
        ensures room { self.new.room ≡ self.old.room }
    {
        let place = self.place_of(granule as usize);
        if place < self.used && self.pairs[place].0 == granule {
            self.pairs[place].1 += 1;
        } else {
            self.pairs.copy_within(place..self.used, place + 1);
            self.pairs[place] = (granule, 1);
            self.used += 1;
        }
    }

    /// One less for a granule, and whether it had any excess; if not, nothing changes. Where none is left, its pair falls
    /// out of use, and those behind it move down by one place.
    #[inline(never)]
    pub fn lower(&mut self, granule: u32) -> bool
        ensures had { IsTrue result ↔ (0 < excess_at self.old.list granule) }
        ensures lowered { OnTrue result (self.new.list ≡ with_excess self.old.list granule (excess_at self.old.list granule - 1)) }
        ensures same { OnFalse result (self.new.list ≡ self.old.list) }
        ensures room { self.new.room ≡ self.old.room }
    {
        let place = self.place_of(granule as usize);
        if place == self.used || self.pairs[place].0 != granule {
            return false;
        }
        if self.pairs[place].1 > 1 {
            self.pairs[place].1 -= 1;
        } else {
            self.pairs.copy_within(place + 1..self.used, place);
            self.used -= 1;
        }
        true
    }

    /// The sum of the excess of the granules from one up to another.
    pub fn total(&self, first: usize, end: usize) -> u32
        requires ordered { first ≤ end }
        requires fits { sum_by (λ p. p.1) self.now.list < 2 ^ 32 }
        ensures { result ≡ sum_by (λ p. p.1) (pairs_within self.now.list first end) }
    {
        let mut total = 0;
        for pair in &self.as_slice()[self.place_of(first)..self.place_of(end)] {
            total += pair.1;
        }
        total
    }
}
