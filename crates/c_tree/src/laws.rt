//! Laws of the definitions, each the contract of a function that does nothing else.

ghost use Rattle.c_tree.specs.Reread.{CanonicalIsRead};

use c_lexer::written_tokens_are_read_again;

/// The tokens of the canonical spelling of a text are the words of its tree, where its names, constants and literals have
/// the forms of tokens.
pub fn canonical_text_is_read_again()
    ensures { CanonicalIsRead }
{
    written_tokens_are_read_again();
}
