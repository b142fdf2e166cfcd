//! Lists that are taken from the end.

ghost use Rattle.std.specs.Prelude.{◌≡◌, ◌-◌, [], ◌∷◌, ◌++◌, OnOk, length, take, slice_get};

use hs_base::NoMemory;
use std::alloc::Global;
use std::marker::Model;

/// A list that is taken from the end.
#[derive(Drop)]
pub(crate) struct Stack<T> {
    list: Vec<T>,
}

impl<T> Model for Stack<T> {
    ghost use Rattle.std.specs.Prelude.{List};

    ghost Value = { List T };

    ghost view = { λ s. s.list.items };
}

impl<T> Stack<T> {
    /// The empty list.
    pub(crate) fn new(alloc: Global) -> Stack<T>
        ensures { result ≡ [] }
    {
        Stack {
            list: Vec::new(alloc),
        }
    }

    /// Takes the last item.
    pub(crate) fn pop(&mut self) -> Option<T>
        ensures item { result ≡ slice_get self.old (length self.old - 1) }
        ensures rest { self.new ≡ take (length self.old - 1) self.old }
    {
        self.list.pop()
    }
}

impl<T: Drop> Stack<T> {
    /// Adds an item at the end.
    pub(crate) fn push(&mut self, item: T) -> Result<(), NoMemory>
        ensures { OnOk result (self.new ≡ self.old ++ item ∷ []) }
    {
        self.list.push(item)?;
        Ok(())
    }
}
