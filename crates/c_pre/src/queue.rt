//! Lists that are taken from the front.

ghost use Rattle.std.specs.Prelude.{◌≡◌, ◌==◌, [], ◌∷◌, ◌++◌, length, OnOk, option_copied, slice_get};
ghost use Rattle.c_pre.specs.Taking.{TakesFirst};

use hs_base::NoMemory;
use std::alloc::Global;
use std::collections::VecDeque;
use std::marker::Model;

/// A list that is taken from the front.
#[derive(Drop)]
pub(crate) struct Queue<T> {
    list: VecDeque<T>,
}

impl<T> Model for Queue<T> {
    ghost use Rattle.std.specs.Prelude.{List};

    ghost Value = { List T };

    ghost view = { λ q. q.list.items };
}

impl<T> Queue<T> {
    /// The empty list.
    pub(crate) fn new(alloc: Global) -> Queue<T>
        ensures { result ≡ [] }
    {
        Queue {
            list: VecDeque::new(alloc),
        }
    }

    /// How many items there are.
    pub(crate) fn len(&self) -> usize
        ensures { result ≡ length self.now }
    {
        self.list.len()
    }

    /// Whether there is none.
    pub(crate) fn is_empty(&self) -> bool
        ensures { result ≡ (length self.now == 0) }
    {
        self.list.is_empty()
    }

    /// The first item.
    pub(crate) fn front(&self) -> Option<&T>
        ensures { option_copied result ≡ slice_get self.now 0 }
    {
        self.list.front()
    }

    /// Takes the first item.
    pub(crate) fn pop(&mut self) -> Option<T>
        ensures { TakesFirst self.old self.new result }
    {
        self.list.pop_front()
    }
}

impl<T: Drop> Queue<T> {
    /// Adds an item at the end.
    pub(crate) fn push(&mut self, item: T) -> Result<(), NoMemory>
        ensures { OnOk result (self.new ≡ self.old ++ item ∷ []) }
    {
        self.list.push_back(item)?;
        Ok(())
    }

    /// Adds an item in front.
    pub(crate) fn push_front(&mut self, item: T) -> Result<(), NoMemory>
        ensures { OnOk result (self.new ≡ item ∷ self.old) }
    {
        self.list.push_front(item)?;
        Ok(())
    }
}
