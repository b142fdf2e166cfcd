//! Sets of hidden macros that were made before.

ghost use Rattle.std.specs.Prelude.{◌≡◌, IfOk};
ghost use Rattle.std.specs.FinSet as set;

use crate::hidden::Hidden;
use hs_base::NoMemory;
use indexmap::IndexMap;
use std::alloc::Global;

/// How often in turn a set may be another than the last before no more are kept.
const MOST_MISSES: u32 = 64;

/// A set and the same with one macro more.
#[derive(Drop)]
struct Made {
    base: Hidden,
    number: u32,
    more: Hidden,
    ghost more_is: { more ≡ set.insert base number },
}

/// For each macro the last set that it was added to, and what that gave. A macro that is replaced over and over mostly has the
/// same macros hidden from its name, and then what stands in its place shares one set.
#[derive(Drop)]
pub(crate) struct Memo {
    made: IndexMap<u32, Made>,
    /// How often in turn the set was another, or too great to be known again.
    misses: u32,
}

impl Memo {
    /// Nothing was made.
    pub(crate) fn new(alloc: Global) -> Memo {
        Memo {
            made: IndexMap::new(alloc),
            misses: 0,
        }
    }

    /// The set with one macro more.
    pub(crate) fn with(
        &mut self,
        alloc: Global,
        hidden: &Hidden,
        number: u32,
    ) -> Result<Hidden, NoMemory>
        ensures { IfOk result (λ more. more ≡ set.insert hidden.now number) }
    {
        if self.misses >= MOST_MISSES {
            return hidden.with(alloc, number);
        }
        if let Some(made) = self.made.get(&number) {
            if made.number == number && made.base.is_same(hidden) {
                self.misses = 0;
                return made.more.share();
            }
            self.misses += 1;
        }
        let more = hidden.with(alloc, number)?;
        if more.has_parts() {
            let base = hidden.share()?;
            let copy = more.share()?;
            self.made.insert(
                number,
                Made {
                    base,
                    number,
                    more: copy,
                },
            )?;
        }
        Ok(more)
    }
}
