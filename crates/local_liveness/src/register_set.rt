//! Sets of registers.

ghost use Rattle.std.specs.Prelude.{◌≡◌, ◌==◌, ◌<◌, ◌≤◌, ◌*◌, ◌^◌, ◌&&◌, ◌||◌, ℕ, not, false, bit_or, IfOk, MatchOption, length, replicate, slice_index, slice_set};
ghost use Rattle.std.specs.Int.{div_ceil};
ghost use Rattle.std.specs.List.{list_any};
ghost use Rattle.core_tree.specs.Statements.{is_register, reads, writes};
ghost use Rattle.local_liveness.specs.Sets.{has, in_both, Adds, Becomes, Drops, HasNone, IsFirst, IsRun};

use crate::runs::{Run, first_bit, put};
use core_tree::{Atom, StmKind};
use hs_base::NoMemory;
use std::alloc::Global;
use std::marker::Model;

/// A set of registers, one bit a register, in words of 64 bits. A register past the last word is in none.
///
/// Two more lists have one bit a word, so that the ends of a run are found without a look at each of its words.
#[derive(Debug, Drop)]
pub struct RegisterSet {
    words: Vec<u64>,
    /// The words that have a register.
    some: Vec<u64>,
    /// The words that have all of their registers.
    full: Vec<u64>,
}

impl Model for RegisterSet {
    ghost use Rattle.std.specs.Prelude.{ℕ, List};
    ghost use Rattle.local_liveness.specs.Sets.{AreMarks};

    ghost Value = { List ℕ };

    ghost view = { λ set. set.words.items };

    ghost invariant = { λ set. AreMarks set.words.items set.some.items set.full.items };
}

impl RegisterSet {
    /// The empty set, with room for so many registers.
    ///
    /// # Errors
    ///
    /// [`NoMemory`], where there is none for its bits.
    pub fn empty(alloc: Global, registers: usize) -> Result<RegisterSet, NoMemory>
        ensures { IfOk result (λ set. set ≡ replicate (div_ceil registers 64) 0) }
    {
        let words = registers.div_ceil(64);
        let marks = words.div_ceil(64);
        Ok(RegisterSet {
            words: zeros(alloc, words)?,
            some: zeros(alloc, marks)?,
            full: zeros(alloc, marks)?,
        })
    }

    /// A copy of the set.
    ///
    /// # Errors
    ///
    /// [`NoMemory`], where there is none for its bits.
    pub fn copy(&self, alloc: Global) -> Result<RegisterSet, NoMemory>
        ensures { IfOk result (λ set. set ≡ self.now) }
    {
        Ok(RegisterSet {
            words: self.words.as_slice().to_vec(alloc)?,
            some: self.some.as_slice().to_vec(alloc)?,
            full: self.full.as_slice().to_vec(alloc)?,
        })
    }

    /// Says whether a register is in the set.
    pub fn contains(&self, register: u32) -> bool
        ensures { result ≡ has self.now register }
    {
        let place = (register / 64) as usize;
        if place >= self.words.len() {
            return false;
        }
        (self.words[place] >> (register % 64)) & 1 == 1
    }

    /// Adds a register. One past the last word is left out.
    pub fn insert(&mut self, register: u32)
        ensures { Adds (λ r. register == r) self.old self.new }
    {
        let place = (register / 64) as usize;
        if place < self.room() {
            self.write(place, self.word(place) | 1 << (register % 64));
        }
    }

    /// Takes out a register.
    pub fn remove(&mut self, register: u32)
        ensures { Drops (λ r. register == r) self.old self.new }
    {
        let place = (register / 64) as usize;
        if place < self.room() {
            self.write(place, self.word(place) & !(1 << (register % 64)));
        }
    }

    /// A word of the set; past the last there are empty ones.
    fn word(&self, place: usize) -> u64
        ensures { result ≡ slice_index self.now place }
    {
        if place >= self.words.len() {
            return 0;
        }
        self.words[place]
    }

    /// Puts a word in place of one of the set.
    fn write(&mut self, place: usize, word: u64)
        requires { place < length self.old }
        ensures { self.new ≡ slice_set self.old place word }
    {
        self.words[place] = word;
        put(&mut self.some, place, word != 0);
        put(&mut self.full, place, word == u64::MAX);
    }

    /// How many words the set has.
    pub(crate) fn room(&self) -> usize
        ensures { result ≡ length self.now }
    {
        self.words.len()
    }

    /// Takes out all registers.
    pub(crate) fn clear(&mut self)
        ensures words { length self.new ≡ length self.old }
        ensures none { (r : ℕ) → has self.new r ≡ false }
    {
        clear(&mut self.words);
        clear(&mut self.some);
        clear(&mut self.full);
    }

    /// Adds the registers of another set, as far as there is room. Says whether one of them was missing.
    pub(crate) fn join(&mut self, other: &RegisterSet) -> bool
        ensures adds { Adds (has other.now) self.old self.new }
        ensures same { result ≡ false → self.new ≡ self.old }
    {
        let mut more = false;
        for i in 0..self.room().min(other.room()) {
            more |= self.join_word(i, other.word(i));
        }
        more
    }

    /// Adds the bits of a word. Says whether one of them was missing.
    fn join_word(&mut self, place: usize, bits: u64) -> bool
        requires { place < length self.old }
        ensures joins { self.new ≡ slice_set self.old place (bit_or (slice_index self.old place) bits) }
        ensures same { result ≡ false → self.new ≡ self.old }
    {
        let word = self.word(place);
        let joined = word | bits;
        if joined == word {
            return false;
        }
        self.write(place, joined);
        true
    }

    /// The next run of registers that this set and another have in common, from one on and below a bound; it goes as far as it can.
    pub fn next_common_run(&self, other: &RegisterSet, from: u32, until: u32) -> Option<Run>
        requires { from ≤ until }
        ensures { MatchOption result (HasNone (in_both self.now other.now) from until) (IsRun (in_both self.now other.now) from until) }
    {
        let first = self.first_common(other, from as usize, until as usize, true);
        if first >= until as usize {
            return None;
        }
        let end = self.first_common(other, first, until as usize, false);
        Some(Run {
            first: first as u32,
            end: end as u32,
        })
    }

    /// The first register from one on, below a bound, that two sets both have, or not; the bound where there is none such.
    fn first_common(&self, other: &RegisterSet, from: usize, until: usize, common: bool) -> usize
        requires order { from ≤ until }
        requires small { until < 2 ^ 32 }
        ensures { IsFirst (in_both self.now other.now) common from until result }
    {
        let mut register = from;
        while register < until {
            let place = register / 64;
            let end = 64 * place + 64;
            let found = first_bit(&self.words, &other.words, register, end, common);
            if found < end {
                return found.min(until);
            }
            register = 64 * self.next_place(other, place + 1, until.div_ceil(64), common);
        }
        until
    }

    /// Goes over words without a register that both sets have, or not: from a word on, to one that may have such a register, or to
    /// a bound.
    fn next_place(&self, other: &RegisterSet, from: usize, until: usize, common: bool) -> usize
        requires order { from ≤ until }
        requires small { until ≤ 2 ^ 32 }
        ensures starts { from ≤ result }
        ensures ends { result ≤ until }
        ensures passed { (r : ℕ) → 64 * from ≤ r → r < 64 * result → in_both self.now other.now r ≡ not common }
    {
        if common {
            first_bit(&self.some, &other.some, from, until, true)
        } else {
            first_bit(&self.full, &other.full, from, until, false)
        }
    }

    /// Adds the register that an operand is, if it is one.
    fn insert_atom(&mut self, atom: Atom)
        ensures { Adds (λ r. is_register r atom) self.old self.new }
    {
        match atom {
            Atom::Reg(register) => self.insert(register),
            Atom::Int(_) | Atom::Null | Atom::Static(_) | Atom::Mem(_) => (),
        }
    }

    /// Adds the registers among operands.
    fn insert_all(&mut self, atoms: &[Atom])
        ensures { Adds (λ r. list_any (is_register r) atoms.now) self.old self.new }
    {
        for atom in atoms {
            self.insert_atom(*atom);
        }
    }

    /// Adds the registers that a statement reads.
    fn insert_reads(&mut self, kind: &StmKind)
        ensures { Adds (reads kind.now) self.old self.new }
    {
        match kind {
            StmKind::Set(_, a)
            | StmKind::Conv(_, _, a)
            | StmKind::Un(_, _, _, a)
            | StmKind::Off(_, a, _)
            | StmKind::Test(_, a)
            | StmKind::Load(_, _, a)
            | StmKind::Loadp(_, a)
            | StmKind::Clear(a, _)
            | StmKind::Zero(a, _)
            | StmKind::Case(a, _, _)
            | StmKind::Malloc(_, a, _)
            | StmKind::Free(a)
            | StmKind::Return(Some(a)) => self.insert_all(&[*a]),
            StmKind::Bin(_, _, _, a, b)
            | StmKind::Cmp(_, _, a, b)
            | StmKind::Add(_, a, b, _)
            | StmKind::Sub(_, a, b, _)
            | StmKind::Diff(_, a, b, _)
            | StmKind::Pcmp(_, _, a, b)
            | StmKind::Store(_, a, b)
            | StmKind::Storep(a, b)
            | StmKind::Copy(a, b, _)
            | StmKind::Calloc(_, a, b, _)
            | StmKind::Realloc(_, a, b, _) => self.insert_all(&[*a, *b]),
            StmKind::Call(_, _, args) | StmKind::Lib(_, _, args) | StmKind::Printf(_, _, args) => {
                self.insert_all(args.as_slice())
            }
            StmKind::Jump(_)
            | StmKind::Loop(_)
            | StmKind::Enter
            | StmKind::Leave
            | StmKind::Return(None) => (),
        }
    }

    /// Takes out the register that a statement writes.
    fn remove_written(&mut self, kind: &StmKind)
        ensures { Drops (writes kind.now) self.old self.new }
    {
        if let Some(register) = kind.written() {
            self.remove(register);
        }
    }

    /// From the registers that are live after a statement to those that are live in front of it: those that it reads, and
    /// those that it does not write.
    pub(crate) fn go_in_front(&mut self, kind: &StmKind)
        ensures { Becomes (λ r. reads kind.now r || (not (writes kind.now r) && has self.old r)) self.old self.new }
    {
        self.remove_written(kind);
        self.insert_reads(kind);
    }
}

/// So many words without a bit.
fn zeros(alloc: Global, words: usize) -> Result<Vec<u64>, NoMemory>
    ensures { IfOk result (λ zeros. zeros.items ≡ replicate words 0) }
{
    Ok(vec![in alloc; 0; words]?)
}

/// Clears all bits of words.
fn clear(words: &mut [u64])
    ensures words { length words.new ≡ length words.old }
    ensures none { (place : ℕ) → slice_index words.new place ≡ 0 }
{
    for word in words.iter_mut() {
        *word = 0;
    }
}
