//! Lists of registers.

ghost use Rattle.std.specs.Prelude.{◌≡◌, ◌++◌, ◌∷◌, [], ◌<◌, ◌≤◌, ◌+◌, ◌-◌, ◌↔◌, All, AllPairs, Contains, IfOk, IsTrue, OnErr, false, length, nat_lt, true};
ghost use Rattle.std.specs.List.Sorted.{IsNonDecreasingBy, IsPartitionPoint};
ghost use Rattle.std.specs.Iterator.{YieldsFirst, item_count};
ghost use Rattle.std.specs.List.{range_with_len};
ghost use Rattle.flat_code.specs.declared.registers.Run.{Run as RegisterRun};
ghost use Rattle.flat_code.specs.Runs.{AreRuns, IsRun, registers_in, registers_of};

use hs_base::NoMemory;
use std::alloc::Global;
use std::marker::Model;

/// The registers from one to another, both of them too.
#[derive(Clone, Copy, Debug, PartialEq, Eq)]
struct Run {
    first: u32,
    last: u32,
}

/// A list of registers. Neighbours that follow each other are kept as one run, so a list takes memory by its runs.
#[derive(Debug, Drop)]
pub struct Registers {
    runs: Vec<Run>,
    count: usize,
}

impl Model for Registers {
    ghost use Rattle.std.specs.Prelude.{List, ℕ};
    ghost use Rattle.flat_code.specs.Runs.{AreRunsOf, registers_of};

    ghost Value = { List ℕ };

    ghost view = { λ r. registers_of r.runs.items };

    ghost invariant = { λ r. AreRunsOf r.count r.runs.items };
}

/// Adds a run behind others.
fn add(runs: &mut Vec<Run>, run: Run) -> Result<(), NoMemory>
    requires runs { AreRuns runs.old.items }
    requires run { IsRun run }
    ensures runs { IfOk result (λ _. AreRuns runs.new.items) }
    ensures added { IfOk result (λ _. registers_of runs.new.items ≡ registers_of runs.old.items ++ registers_in run) }
    ensures err { OnErr result (runs.new.items ≡ runs.old.items) }
{
    let count = runs.len();
    if count > 0 && run.first > 0 && runs[count - 1].last == run.first - 1 {
        runs[count - 1].last = run.last;
        return Ok(());
    }
    runs.push(run)?;
    Ok(())
}

/// Says whether all runs end below a number.
fn end_below(runs: &[Run], number: usize) -> bool
    ensures { IsTrue result ↔ All (λ (run : RegisterRun). run.last < number) runs.now }
{
    runs.iter().all(|run| (run.last as usize) < number)
}

/// How many runs end in front of a register, where each run ends behind those before it.
fn ended(runs: &[Run], register: u32) -> usize
    requires { IsNonDecreasingBy (λ (run : RegisterRun). run.last) runs.now }
    ensures { IsPartitionPoint (λ (run : RegisterRun). nat_lt run.last register ≡ true) (λ (run : RegisterRun). nat_lt run.last register ≡ false) runs.now result }
{
    runs.partition_point(|run| run.last < register)
}

impl Registers {
    /// The empty list, which takes no memory yet.
    pub fn new(alloc: Global) -> Registers
        ensures { result ≡ [] }
    {
        Registers {
            runs: Vec::new(alloc),
            count: 0,
        }
    }

    /// How many registers there are.
    pub fn len(&self) -> usize
        ensures { result ≡ length self.now }
    {
        self.count
    }

    /// Says whether there is none.
    pub fn is_empty(&self) -> bool
        ensures { IsTrue result ↔ (self.now ≡ []) }
    {
        self.count == 0
    }

    /// Adds a register at the end. An error leaves the list as it was.
    ///
    /// # Errors
    ///
    /// [`NoMemory`], where there is none for one more, or the number of registers would not fit.
    pub fn push(&mut self, register: u32) -> Result<(), NoMemory>
        ensures ok { IfOk result (λ _. self.new ≡ self.old ++ register ∷ []) }
        ensures err { OnErr result (self.new ≡ self.old) }
    {
        self.push_run(register, register)
    }

    /// Adds the registers from one to another, both of them too. An error leaves the list as it was.
    ///
    /// # Errors
    ///
    /// [`NoMemory`], where there is none for them, or the number of registers would not fit.
    pub fn push_run(&mut self, first: u32, last: u32) -> Result<(), NoMemory>
        requires { first ≤ last }
        ensures ok { IfOk result (λ _. self.new ≡ self.old ++ range_with_len first (last + 1 - first)) }
        ensures err { OnErr result (self.new ≡ self.old) }
    {
        let more = (last - first) as usize + 1;
        let Some(count) = self.count.checked_add(more) else {
            return Err(NoMemory);
        };
        add(&mut self.runs, Run { first, last })?;
        self.count = count;
        Ok(())
    }

    /// The same registers once more.
    ///
    /// # Errors
    ///
    /// [`NoMemory`], where there is none for them.
    pub fn copied(&self, alloc: Global) -> Result<Registers, NoMemory>
        ensures { IfOk result (λ copy. copy ≡ self.now) }
    {
        Ok(Registers {
            runs: self.runs.as_slice().to_vec(alloc)?,
            count: self.count,
        })
    }

    /// The registers in order.
    pub fn iter(&self) -> RegisterIter<'_>
        ensures { result ≡ self.now }
    {
        RegisterIter {
            next: 0,
            end: 0,
            runs: self.runs.as_slice(),
        }
    }

    /// Says whether each register is less than the one behind it.
    pub fn ascend(&self) -> bool
        ensures { IsTrue result ↔ AllPairs (λ one other. one < other) self.now }
    {
        for i in 1..self.runs.len() {
            if self.runs[i - 1].last >= self.runs[i].first {
                return false;
            }
        }
        true
    }

    /// Says whether all registers are less than a number.
    pub fn are_below(&self, number: usize) -> bool
        ensures { IsTrue result ↔ All (λ register. register < number) self.now }
    {
        end_below(&self.runs, number)
    }

    /// Says whether a register is one of the list, which ascends. It takes time by the logarithm of the number of runs.
    pub fn contains(&self, register: u32) -> bool
        requires { AllPairs (λ one other. one < other) self.now }
        ensures { IsTrue result ↔ Contains self.now register }
    {
        let place = ended(&self.runs, register);
        place < self.runs.len() && self.runs[place].first <= register
    }
}

/// What is left of a list of registers, in order.
#[derive(Drop)]
pub struct RegisterIter<'a> {
    /// The next register of the run that is gone through, where it is below `end`.
    next: u64,
    /// The one behind the last of that run.
    end: u64,
    /// The runs behind that one.
    runs: &'a [Run],
}

impl<'a> Model for RegisterIter<'a> {
    ghost use Rattle.std.specs.Prelude.{List, ℕ, ◌+◌, ◌≤◌, ◌^◌};
    ghost use Rattle.flat_code.specs.Runs.{IsLeft, registers_left};

    ghost Value = { List ℕ };

    ghost view = { λ it. registers_left it.next it.end it.runs.now };

    ghost invariant = { λ it. IsLeft it.end it.runs.now };
}

impl<'a> RegisterIter<'a> {
    /// The iterator over no registers.
    pub fn empty() -> RegisterIter<'a>
        ensures { result ≡ [] }
    {
        RegisterIter {
            next: 0,
            end: 0,
            runs: &[],
        }
    }
}

impl<'a> Iterator for RegisterIter<'a> {
    type Item = u32;

    ghost next_gives = { YieldsFirst (λ left. left) };

    ghost remaining = { item_count (λ left. left) };

    fn next(&mut self) -> Option<u32> {
        if self.next < self.end {
            let register = self.next as u32;
            self.next += 1;
            return Some(register);
        }
        match self.runs.split_first() {
            Some((run, others)) => {
                let Run { first, last } = *run;
                self.next = u64::from(first) + 1;
                self.end = u64::from(last) + 1;
                self.runs = others;
                Some(first)
            }
            None => None,
        }
    }
}
