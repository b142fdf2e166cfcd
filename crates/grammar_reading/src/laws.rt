//! Laws of reading, each the contract of a function that does nothing.

ghost use Rattle.grammar_reading.specs.Conditions.{ConditionsAreRead, ReadConditionsAreTrees};
ghost use Rattle.grammar_reading.specs.Laws.{EachIsItsWord, TreesAreRead, WholeTextsAreRead, FrontsAreRead, TreesOfTextsAreRead, StopsWhereWrong, OneAnswer, WordsAreRead, CanonicalTreesAreRead};

use c_tree::canonical_text_is_read_again;

/// A token is the word that reading takes it for.
pub fn each_token_is_its_word()
    ensures { EachIsItsWord }
{}

/// What is read at a place is a tree that may stand there.
pub fn trees_are_read()
    ensures { TreesAreRead }
{}

/// A text that is read whole has the tree that was read; where reading stops, the tokens in front have it.
pub fn texts_are_read()
    ensures whole { WholeTextsAreRead }
    ensures fronts { FrontsAreRead }
{}

/// The tree of a text's tokens is the one that is read, so they have at most one; where reading stops there is a token, and
/// the tokens go wrong at its line.
pub fn trees_of_texts_are_read()
    ensures trees { TreesOfTextsAreRead }
    ensures wrong { StopsWhereWrong }
{}

/// The tokens of a condition have one tree, which is the one that is read.
pub fn conditions_are_read()
    ensures read { ConditionsAreRead }
    ensures trees { ReadConditionsAreTrees }
{}

/// Tokens have one tree and do not go wrong, or have none and go wrong at one line.
pub fn tokens_have_one_answer()
    ensures { OneAnswer }
{}

/// Tokens that are the words of an allowed tree are read as that tree, but for lines; so are those of its canonical text,
/// where names, constants and literals have the forms of tokens.
pub fn trees_are_read_again()
    ensures words { WordsAreRead }
    ensures canonical { CanonicalTreesAreRead }
{
    canonical_text_is_read_again();
}
