//! The memory locals of a call that begins (C99 6.2.4).

ghost use Rattle.std.specs.Prelude.{◌≡◌, All, IsSome, slice_get};
ghost use Rattle.object_meaning.specs.code.Entering.{layout_in};
ghost use Rattle.flat_machine.specs.Locals.{MayMakeLocals, StandsForSome};
ghost use Rattle.flat_machine.specs.Instructions.{MakesLocals};

use crate::state::State;
use byte_memory::Steps;
use flat_code::{Code, Entry};
use std::sync::ledger::Ledger;

/// The size of a layout.
pub(crate) fn size_of(code: &Code, layout: u32) -> u32
    requires { IsSome (slice_get code.now.layouts layout) }
    ensures { result ≡ (layout_in code.now layout).size }
{
    let Some(layout) = code.layouts.get(layout as usize) else {
        unreachable!()
    };
    layout.size
}

impl State {
    /// Makes the memory locals of the running call, which is of a function, in their order. All their bytes are zero, and their
    /// pointers are null.
    #[inline(always)]
    pub(crate) fn make_locals<L: Ledger>(
        &mut self,
        code: &Code,
        entry: &Entry,
        steps: &mut Steps<L>,
    )
        requires there { All (λ n. IsSome (slice_get code.now.layouts n)) entry.now.mems }
        requires may { MayMakeLocals code.now entry.now self.old }
        requires standing { StandsForSome self.old }
        ensures { MakesLocals code.now entry.now self.old self.new }
    {
        for k in 0..entry.mems.len() {
            let layout = entry.mems.as_slice()[k];
            let size = size_of(code, layout);
            let _addr = self.new_local(size, layout, steps);
        }
    }
}
