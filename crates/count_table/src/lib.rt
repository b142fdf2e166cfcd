//! One count for each 16 bytes of memory.
//!
//! A granule is 16 bytes of memory, numbered from address 0 on. A [`Counts`] has a number for each granule: how many
//! pointers into it count. The pointers that count are the caller's affair; here a number goes up or down by one, and
//! the numbers of a range are summed up. All memory is taken by [`Counts::new`].
//!
//! The sum of all counts never exceeds a bound that is given when the table is made, so no count and no sum can
//! overflow. `specs/Table.antt` says what one count more and one less are. Each change of a count is one step of a
//! counter, and a sum takes one step for each granule.
//!
//! A count takes one byte: the lesser of it and 255. What exceeds 255 stands in a list of pairs, one for each granule
//! that has such an excess, ascending by granule. Each of these takes 256 of the bound at least, so a 256th of the bound
//! in pairs suffices for ever (the pigeonhole argument), and no change of a count takes memory. A pair is sought by
//! halves, which takes no step of the counter; where a count passes 255, up or down, the pairs behind its pair move by
//! one place.
#![tactic(auto)]

mod excess;

ghost use Rattle.std.specs.Prelude.{◌≡◌, ◌+◌, ◌-◌, ◌<◌, ◌≤◌, length, replicate, sum, slice_index, slice_range, IfOk};
ghost use Rattle.count_table.specs.Table.{with_count, lows_of, excess_of};

use byte_memory::Steps;
use excess::Excess;
use hs_base::NoMemory;
use std::alloc::Global;
use std::marker::Model;
use std::sync::ledger::Ledger;

/// A count for each 16 bytes of memory.
#[derive(Debug, Drop)]
pub struct Counts {
    lows: Vec<u8>,
    excess: Excess,
    most: u32,
}

impl Model for Counts {
    ghost use Rattle.count_table.specs.Table.{Table, IsTable, counts_of};

    ghost Value = { Table };

    ghost view = { λ c. record { counts = counts_of c.lows.items c.excess.list; most = c.most } };

    ghost invariant = { λ c. IsTable c.lows.items c.excess c.most };
}

impl Counts {
    /// A table of so many granules, with all counts 0, whose sum may become as great as the bound.
    pub fn new(alloc: Global, granules: u32, most: u32) -> Result<Counts, NoMemory>
        ensures { IfOk result (λ table. table ≡ record { counts = replicate granules 0; most = most }) }
    {
        Ok(Counts {
            lows: vec![in alloc; 0; granules as usize]?,
            excess: Excess::new(alloc, most as usize / 256)?,
            most,
        })
    }

    /// One more for a granule. One step.
    #[inline(always)]
    pub fn inc<L: Ledger>(&mut self, granule: u32, steps: &mut Steps<L>)
        requires granule { granule < length self.old.counts }
        requires room { sum self.old.counts < self.old.most }
        ensures count { self.new ≡ with_count self.old granule (slice_index self.old.counts granule + 1) }
        ensures long { length self.new.counts ≡ length self.old.counts }
        ensures sum { sum self.new.counts ≡ sum self.old.counts + 1 }
        ensures steps { steps.new ≡ steps.old + 1 }
    {
        steps.tick();
        let low = self.lows[granule as usize];
        if low < u8::MAX {
            self.lows[granule as usize] = low + 1;
        } else {
            self.excess.raise(granule);
        }
    }

    /// One less for a granule. One step.
    #[inline(always)]
    pub fn dec<L: Ledger>(&mut self, granule: u32, steps: &mut Steps<L>)
        requires granule { granule < length self.old.counts }
        requires some { 0 < slice_index self.old.counts granule }
        ensures count { self.new ≡ with_count self.old granule (slice_index self.old.counts granule - 1) }
        ensures long { length self.new.counts ≡ length self.old.counts }
        ensures sum { sum self.new.counts + 1 ≡ sum self.old.counts }
        ensures steps { steps.new ≡ steps.old + 1 }
    {
        steps.tick();
        let low = self.lows[granule as usize];
        // A full byte stays full as long as there is excess above it.
        if low < u8::MAX || !self.excess.lower(granule) {
            self.lows[granule as usize] = low - 1;
        }
    }

    /// The sum of the counts of so many granules from one on. One step for each of them.
    pub fn total<L: Ledger>(&self, first: u32, number: u32, steps: &mut Steps<L>) -> u32
        requires { first + number ≤ length self.now.counts }
        ensures total { result ≡ sum (slice_range self.now.counts first (first + number)) }
        ensures steps { steps.new ≡ steps.old + number }
    {
        let first = first as usize;
        let end = first + number as usize;
        let mut total = 0;
        for low in &self.lows[first..end] {
            steps.tick();
            total += u32::from(*low);
        }
        total + self.excess.total(first, end)
    }

    /// For each granule, the lesser of its count and 255. It is no step.
    pub fn lows(&self) -> &[u8]
        ensures { result.now ≡ lows_of self.now.counts }
    {
        &self.lows
    }

    /// The granules whose count is above 255, ascending, each with its count less 255. It is no step.
    pub fn excess(&self) -> &[(u32, u32)]
        ensures { result.now ≡ excess_of self.now.counts }
    {
        self.excess.as_slice()
    }
}
