//! Laws of the definitions.

ghost use Rattle.c_pre.specs.Expansion.{ReplacementEnds};

/// The replacement of macros comes to an end, by tokens or by a refusal: the bound of its definition is never used up.
pub fn replacement_ends()
    ensures { ReplacementEnds }
{}
