//! Laws of the definitions, each the contract of a function that does nothing.

ghost use Rattle.c_lexer.specs.Characters.{StringsAreCharacters, ConstantsAreCharacters};
ghost use Rattle.c_lexer.specs.Cutting.{ConstantsFit, PiecesAreTheCut, TokensHaveForms};
ghost use Rattle.c_lexer.specs.Tokens.{OneAnswer};
ghost use Rattle.c_lexer.specs.Written.{TokensAreLongest, WrittenIsRead};

/// Every text has exactly one answer: its tokens, or its first bad place.
pub fn every_text_has_one_answer()
    ensures { OneAnswer }
{}

/// Tokens that are written one after another, each with a space or byte 10 behind it, are read again with their kinds
/// and spellings.
pub fn written_tokens_are_read_again()
    ensures { WrittenIsRead }
{}

/// A string literal is characters in turn, each the longest at its place, between its quotes; a character constant is
/// one such character (C99 6.4.4.4 and 6.4.5).
pub fn literals_are_characters()
    ensures strings { StringsAreCharacters }
    ensures constants { ConstantsAreCharacters }
{}

/// A token with a space or byte 10 behind it is the longest piece there.
pub fn tokens_are_longest()
    ensures { TokensAreLongest }
{}

/// The pieces that are read one after another are the one cut of a text, and the tokens of its answer have the forms of tokens.
pub fn pieces_are_the_cut()
    ensures cut { PiecesAreTheCut }
    ensures forms { TokensHaveForms }
{}

/// The value of an integer constant has at most 64 bits (C99 6.4.4.1).
pub fn constants_fit()
    ensures { ConstantsFit }
{}
