//! The types that the words of specs say (C99 6.7.2).

ghost use Rattle.std.specs.Prelude.{◌≡◌, cond, nat_eq, count_by, option_copied};
ghost use Rattle.std.specs.List.{find, list_any};
ghost use Rattle.c_types.specs.Types.{plain};
ghost use Rattle.c_tree.specs.View.{spec_tree};
ghost use Rattle.c_tree.specs.StatementView.{trees};
ghost use Rattle.c_decls.specs.TypeNames as rules;
ghost use Rattle.c_typing.specs.SpecWords.{is_special, keyword, passes};
ghost use Rattle.c_typing.specs.WordCounts.{words_type};

use c_decls::LayeredType;
use c_tree::Spec;
use c_types::{CType, IntType};

/// Whether a word is a tag or the name of a type, which says the type alone.
pub fn is_special(word: &Spec) -> bool
    ensures { result ≡ is_special word.now }
{
    matches!(word, Spec::Named(_) | Spec::Tag(_))
}

/// The first tag or name of a type.
pub fn special_word(words: &[Spec]) -> Option<&Spec>
    ensures { option_copied result ≡ find is_special words.now }
{
    words.iter().find(|word| is_special(word))
}

/// Whether a word is `void`.
fn is_void(word: &Spec) -> bool
    ensures { result ≡ passes rules.is_void_word (keyword word.now) }
{
    matches!(word, Spec::Void)
}

/// Whether a word is `char`.
fn is_char(word: &Spec) -> bool
    ensures { result ≡ passes rules.is_char (keyword word.now) }
{
    matches!(word, Spec::Char)
}

/// Whether a word is `short`.
fn is_short(word: &Spec) -> bool
    ensures { result ≡ passes rules.is_short (keyword word.now) }
{
    matches!(word, Spec::Short)
}

/// Whether a word is `long`.
fn is_long(word: &Spec) -> bool
    ensures { result ≡ passes rules.is_long (keyword word.now) }
{
    matches!(word, Spec::Long)
}

/// Whether a word is `signed`.
fn is_signed(word: &Spec) -> bool
    ensures { result ≡ passes rules.is_signed_word (keyword word.now) }
{
    matches!(word, Spec::Signed)
}

/// Whether a word is `unsigned`.
fn is_unsigned(word: &Spec) -> bool
    ensures { result ≡ passes rules.is_unsigned_word (keyword word.now) }
{
    matches!(word, Spec::Unsigned)
}

/// The character type with a word for its sign, or without (C99 6.2.5).
fn char_type(is_unsigned: bool, is_signed: bool) -> IntType
    ensures { result ≡ cond is_unsigned IntType.UChar (cond is_signed IntType.SChar IntType.Char) }
{
    if is_unsigned {
        IntType::UChar
    } else if is_signed {
        IntType::SChar
    } else {
        IntType::Char
    }
}

/// The type of so many words `long`.
fn long_type(is_unsigned: bool, longs: usize) -> IntType
    ensures { result ≡
        cond (nat_eq longs 2) (cond is_unsigned IntType.ULongLong IntType.LongLong)
        (cond (nat_eq longs 1) (cond is_unsigned IntType.ULong IntType.Long)
        (cond is_unsigned IntType.UInt IntType.Int)) }
{
    match (longs, is_unsigned) {
        (2, true) => IntType::ULongLong,
        (2, false) => IntType::LongLong,
        (1, true) => IntType::ULong,
        (1, false) => IntType::Long,
        (_, true) => IntType::UInt,
        (_, false) => IntType::Int,
    }
}

/// Whether a word is `void`.
fn has_void(words: &[Spec]) -> bool
    ensures { result ≡ list_any (λ word. passes rules.is_void_word (keyword word)) words.now }
{
    words.iter().any(|word| is_void(word))
}

/// Whether a word is `char`.
fn has_char(words: &[Spec]) -> bool
    ensures { result ≡ list_any (λ word. passes rules.is_char (keyword word)) words.now }
{
    words.iter().any(|word| is_char(word))
}

/// Whether a word is `short`.
fn has_short(words: &[Spec]) -> bool
    ensures { result ≡ list_any (λ word. passes rules.is_short (keyword word)) words.now }
{
    words.iter().any(|word| is_short(word))
}

/// Whether a word is `signed`.
fn has_signed(words: &[Spec]) -> bool
    ensures { result ≡ list_any (λ word. passes rules.is_signed_word (keyword word)) words.now }
{
    words.iter().any(|word| is_signed(word))
}

/// Whether a word is `unsigned`.
fn has_unsigned(words: &[Spec]) -> bool
    ensures { result ≡ list_any (λ word. passes rules.is_unsigned_word (keyword word)) words.now }
{
    words.iter().any(|word| is_unsigned(word))
}

/// How many words are `long`.
fn longs(words: &[Spec]) -> usize
    ensures { result ≡ count_by (λ word. passes rules.is_long (keyword word)) words.now }
{
    words.iter().filter(|word| is_long(word)).count()
}

/// The words that say a type.
#[derive(Clone, Copy)]
struct Words {
    has_void: bool,
    has_char: bool,
    has_short: bool,
    has_signed: bool,
    has_unsigned: bool,
    longs: usize,
}

impl Words {
    /// The type that they say in any order.
    fn ty(self) -> CType
        ensures { plain result ≡ words_type self }
    {
        if self.has_void {
            CType::Void
        } else if self.has_char {
            CType::Int(char_type(self.has_unsigned, self.has_signed))
        } else if self.has_short {
            CType::Int(if self.has_unsigned {
                IntType::UShort
            } else {
                IntType::Short
            })
        } else {
            CType::Int(long_type(self.has_unsigned, self.longs))
        }
    }
}

/// The type of keywords in any order (C99 6.7.2).
pub fn word_type(words: &[Spec]) -> LayeredType
    ensures { result ≡ rules.word_type (trees spec_tree words.now) }
{
    let words = Words {
        has_void: has_void(words),
        has_char: has_char(words),
        has_short: has_short(words),
        has_signed: has_signed(words),
        has_unsigned: has_unsigned(words),
        longs: longs(words),
    };
    LayeredType::of(words.ty())
}
