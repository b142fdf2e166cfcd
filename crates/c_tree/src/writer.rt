//! Words that are written one behind another, each with the byte behind it.

ghost use Rattle.std.specs.Prelude.{◌≡◌, ◌++◌, [], ◌∷◌, IfOk};
ghost use Rattle.c_tree.specs.Tree.{Leaf};
ghost use Rattle.c_tree.specs.Words as word;
ghost use Rattle.c_tree.specs.Words.{Key, Mark};
ghost use Rattle.c_tree.specs.Canonical.{word_text, with_consts, with_close};
ghost use Rattle.c_tree.specs.Canonical as spec;
ghost use Rattle.c_tree.specs.View.{name_leaf, key_leaf, maybe_name};
ghost use Rattle.c_tree.specs.StatementView.{strings_view};
ghost use Rattle.c_tree.specs.Made.{Writes};

use crate::word::{Keyword, Sign};
use hs_base::{Items, NoMemory};
use std::alloc::Global;
use std::marker::Model;

/// A text that is being written. After an error nothing is said of it.
#[derive(Drop)]
pub(crate) struct Writer {
    text: Vec<u8>,
}

impl Model for Writer {
    ghost use Rattle.std.specs.Prelude.{List, ℕ};

    ghost Value = { List ℕ };

    ghost view = { λ w. w.text.items };
}

impl Writer {
    /// An empty text.
    pub(crate) fn new(alloc: Global) -> Writer
        ensures { result ≡ [] }
    {
        Writer {
            text: Vec::new(alloc),
        }
    }

    /// The text.
    pub(crate) fn into_items(self) -> Items<u8>
        ensures { result ≡ self }
    {
        let Writer { text } = self;
        Items::from(text)
    }

    /// Writes the bytes of a word, and the byte behind it.
    fn word(&mut self, bytes: &[u8], separator: u8) -> Result<(), NoMemory>
        ensures { IfOk result (λ _. self.new ≡ self.old ++ (bytes.now ++ separator ∷ [])) }
    {
        self.text.extend_from_slice(bytes)?;
        self.text.push(separator)?;
        Ok(())
    }

    /// Writes a keyword.
    pub(crate) fn key(&mut self, keyword: Keyword) -> Result<(), NoMemory>
        ensures { IfOk result (λ _. self.new ≡ self.old ++ word_text (Key keyword)) }
    {
        self.word(keyword.bytes(), b' ')
    }

    /// Writes a keyword that is a part.
    #[tactic(auto, unfolding(crate::specs::Canonical::tree_text, crate::specs::Canonical::words_text, crate::specs::Spelling::spell))]
    pub(crate) fn key_part(&mut self, keyword: Keyword) -> Result<(), NoMemory>
        ensures { Writes result self.old self.new (key_leaf keyword) }
    {
        self.key(keyword)
    }

    /// Writes a sign. A line ends behind `;`, `{` and `}`.
    pub(crate) fn mark(&mut self, sign: Sign) -> Result<(), NoMemory>
        ensures { IfOk result (λ _. self.new ≡ self.old ++ word_text (Mark sign)) }
    {
        self.word(sign.bytes(), separator(sign))
    }

    /// Writes a name.
    #[tactic(auto, unfolding(crate::specs::Canonical::tree_text, crate::specs::Canonical::words_text, crate::specs::Spelling::spell))]
    pub(crate) fn name(&mut self, bytes: &[u8]) -> Result<(), NoMemory>
        ensures { Writes result self.old self.new (name_leaf bytes.now) }
    {
        self.word(bytes, b' ')
    }

    /// Writes an integer constant.
    #[tactic(auto, unfolding(crate::specs::Canonical::tree_text, crate::specs::Canonical::words_text, crate::specs::Spelling::spell))]
    pub(crate) fn int(&mut self, bytes: &[u8]) -> Result<(), NoMemory>
        ensures { Writes result self.old self.new (Leaf (word.Int bytes.now)) }
    {
        self.word(bytes, b' ')
    }

    /// Writes a character constant.
    #[tactic(auto, unfolding(crate::specs::Canonical::tree_text, crate::specs::Canonical::words_text, crate::specs::Spelling::spell))]
    pub(crate) fn char(&mut self, bytes: &[u8]) -> Result<(), NoMemory>
        ensures { Writes result self.old self.new (Leaf (word.Char bytes.now)) }
    {
        self.word(bytes, b' ')
    }

    /// Writes string literals.
    #[tactic(auto, using(crate::proofs::ListTexts::strings_text))]
    pub(crate) fn strings(&mut self, list: &[Items<u8>]) -> Result<(), NoMemory>
        ensures { Writes result self.old self.new (strings_view list.now) }
    {
        for bytes in list {
            self.word(bytes.as_slice(), b' ')?;
        }
        Ok(())
    }

    /// Writes a name that may be left out.
    #[tactic(auto, using(crate::proofs::ListTexts::no_name_text, crate::proofs::ListTexts::some_name_text))]
    pub(crate) fn maybe_name(&mut self, name: &Option<Items<u8>>) -> Result<(), NoMemory>
        ensures { Writes result self.old self.new (maybe_name name.now) }
    {
        match name {
            Some(name) => {
                self.name(name.as_slice())?;
                Ok(())
            }
            None => Ok(()),
        }
    }

    /// Writes so many `const`.
    pub(crate) fn consts(&mut self, consts: usize) -> Result<(), NoMemory>
        ensures { IfOk result (λ _. self.new ≡ with_consts consts self.old) }
    {
        for i in 0..consts {
            self.key(Keyword::Const)?;
        }
        Ok(())
    }

    /// Writes a `}`, behind a comma or not.
    pub(crate) fn close(&mut self, trailing: bool) -> Result<(), NoMemory>
        ensures { IfOk result (λ _. self.new ≡ with_close trailing self.old) }
    {
        if trailing {
            self.mark(Sign::Comma)?;
            self.mark(Sign::RightBrace)?;
            Ok(())
        } else {
            self.mark(Sign::RightBrace)?;
            Ok(())
        }
    }
}

/// The byte behind a sign.
fn separator(sign: Sign) -> u8
    ensures { result ≡ spec.separator (Mark sign) }
{
    match sign {
        Sign::Semicolon | Sign::LeftBrace | Sign::RightBrace => b'\n',
        _ => b' ',
    }
}
