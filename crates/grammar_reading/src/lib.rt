//! The reader of the grammar on lists (C99 6.5 to 6.9, narrowed to the language of HeapSafe), and its laws.
//!
//! `specs/` has the reader, `read_unit` (`specs/Rooms.antt`), which takes tokens from left to right: by the room that is left
//! for depth, by the place where a tree is wanted, and by the first words. The laws say that what it reads is a tree of the
//! grammar of `c_tree` ([`trees_are_read`], [`texts_are_read`]), and that the tree of a text's tokens is the one that it reads;
//! where it stops, the tokens go wrong ([`trees_of_texts_are_read`]), so every text has one answer ([`tokens_have_one_answer`]).
//! The canonical text of a tree is read as that tree, but for lines ([`trees_are_read_again`]).
//!
//! Nothing here is run but the comparisons of [`Kind`] and [`SpecStart`], what the next token is to a reader. The code that
//! gives what this reader reads is `c_parser`, whose readers need not wait for the laws.
#![tactic(auto)]

mod kind;
mod laws;

pub use kind::{Kind, SpecStart};
pub use laws::{
    conditions_are_read, each_token_is_its_word, texts_are_read, tokens_have_one_answer,
    trees_are_read, trees_are_read_again, trees_of_texts_are_read,
};
