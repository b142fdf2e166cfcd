//! Laws of the definitions.

ghost use Rattle.std.specs.Prelude.{◌≡◌, ◌≤◌, ◌<◌, ℕ, List, slice_index};
ghost use Rattle.std.specs.Int.Digits.{number_from_digits, AllBelowBase};
ghost use Rattle.c_print.specs.declared.piece.Piece.{Piece};
ghost use Rattle.c_print.specs.Format.{IsFormat, FormatsAreOne};
ghost use Rattle.c_print.specs.Pieces.{pieces_of};
ghost use Rattle.c_print.specs.Print.{numeral_digits};

/// At most one list of pieces spells the bytes of a format.
pub fn one_format()
    ensures { FormatsAreOne }
{}

/// The pieces that spell the bytes of a format are the ones that the function reads from the left.
pub fn pieces_of_format()
    ensures { (bytes : List ℕ) (all : List Piece) → IsFormat bytes all → pieces_of bytes ≡ all }
{}

/// The digits of a numeral stand for its number, each is below the base, and the first is 0 for the number 0 alone.
pub fn numeral_of_its_number()
    ensures value { (base n : ℕ) → 2 ≤ base → number_from_digits base (numeral_digits base n) ≡ n }
    ensures digits { (base n : ℕ) → 2 ≤ base → AllBelowBase base (numeral_digits base n) }
    ensures first { (base n : ℕ) → 2 ≤ base → 0 < n → 0 < slice_index (numeral_digits base n) 0 }
{}
