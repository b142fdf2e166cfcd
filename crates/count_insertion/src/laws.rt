//! What holds of the pins of every core.

ghost use Rattle.count_insertion.specs.Laws.{ListedAreExact, ListedAscend, ListedCount};

/// The pins that [`crate::insert`] lists for a core are exact, and those of each point ascend: they are the registers that
/// count there.
pub fn listed_pins_are_exact()
    ensures exact { ListedAreExact }
    ensures ascending { ListedAscend }
    ensures counting { ListedCount }
{}
