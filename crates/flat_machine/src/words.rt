//! Words of registers.

ghost use Rattle.std.specs.Prelude.{◌≡◌, ◌+◌, ◌<◌, ◌≤◌, ◌++◌, [], ◌∷◌, map, drop, length};
ghost use Rattle.std.specs.Vec.{vec_len, vec_capacity};
ghost use Rattle.flat_machine.specs.Words.{integer_in, address_in, integer_at, address_at, first_word};

use crate::packed::PackedWord;
use flat_objects::Word;
use hs_base::IntKind;

/// The integer of a word. An address has 0, which no well formed code asks for.
pub(crate) fn integer_in(word: PackedWord) -> i128
    ensures { result ≡ integer_in word }
{
    match word.word() {
        Word::Number(n) => n,
        Word::Address(_) => 0,
    }
}

/// The address of a word. An integer has that of null, which no well formed code asks for.
pub(crate) fn address_in(word: PackedWord) -> u32
    ensures { result ≡ address_in word }
{
    match word.word() {
        Word::Number(_) => 0,
        Word::Address(addr) => addr,
    }
}

/// The integer among words at a place, and 0 where there is none.
pub(crate) fn integer_at(words: &[PackedWord], k: usize) -> i128
    ensures { result ≡ integer_at words.now k }
{
    if k < words.len() {
        integer_in(words[k])
    } else {
        0
    }
}

/// The address among words at a place, and that of null where there is none.
pub(crate) fn address_at(words: &[PackedWord], k: usize) -> u32
    ensures { result ≡ address_at words.now k }
{
    if k < words.len() {
        address_in(words[k])
    } else {
        0
    }
}

/// The word of a register at the start of a call.
fn first_word(is_pointer: bool) -> PackedWord
    ensures { result ≡ first_word is_pointer }
{
    if is_pointer {
        PackedWord::address(0)
    } else {
        PackedWord::number(IntKind::I32, 0)
    }
}

/// Adds a word, for which memory was taken before.
pub(crate) fn push(words: &mut Vec<PackedWord>, word: PackedWord)
    requires { vec_len words.old < vec_capacity words.old }
    ensures items { words.new.items ≡ words.old.items ++ word ∷ [] }
    ensures len { vec_len words.new ≡ vec_len words.old + 1 }
    ensures capacity { vec_capacity words.old ≤ vec_capacity words.new }
{
    words.push_reserved(word);
}

/// Adds words, for which memory was taken before.
pub(crate) fn push_all(words: &mut Vec<PackedWord>, more: &[PackedWord])
    requires { vec_len words.old + length more.now ≤ vec_capacity words.old }
    ensures items { words.new.items ≡ words.old.items ++ more.now }
    ensures len { vec_len words.new ≡ vec_len words.old + length more.now }
    ensures capacity { vec_capacity words.old ≤ vec_capacity words.new }
{
    for i in 0..more.len() {
        push(words, more[i]);
    }
}

/// The kinds of the registers behind so many.
pub(crate) fn behind(kinds: &[bool], count: usize) -> &[bool]
    ensures { result.now ≡ drop count kinds.now }
{
    if count <= kinds.len() {
        &kinds[count..]
    } else {
        &[]
    }
}

/// Adds the first words of registers.
pub(crate) fn push_first_words(words: &mut Vec<PackedWord>, kinds: &[bool])
    requires { vec_len words.old + length kinds.now ≤ vec_capacity words.old }
    ensures items { words.new.items ≡ words.old.items ++ map first_word kinds.now }
    ensures len { vec_len words.new ≡ vec_len words.old + length kinds.now }
    ensures capacity { vec_capacity words.old ≤ vec_capacity words.new }
{
    for i in 0..kinds.len() {
        push(words, first_word(kinds[i]));
    }
}
