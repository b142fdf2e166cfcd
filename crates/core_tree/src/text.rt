//! The text of a listing as it is written, word by word.

ghost use Rattle.std.specs.Prelude.{◌≡◌, ◌++◌, ◌∷◌, [], map, codes, decimal, IfOk};
ghost use Rattle.std.specs.Fmt.{signed_decimal};
ghost use Rattle.std.specs.List.{flat_map, join_with_byte};
ghost use Rattle.core_tree.specs.Listing.{atom_word, layout_word, name_word, register_word, spaced};
ghost use Rattle.core_tree.specs.Parts.{word_text};

use crate::statements::Atom;
use c_types::Layout;
use hs_base::{Items, NoMemory};
use itoa::Buffer;
use std::alloc::Global;
use std::marker::Model;

/// A word of a statement, but for what it is called.
#[derive(Clone, Copy)]
pub(crate) enum Word {
    Register(u32),
    /// The register of a result, where one takes it.
    Result(Option<u32>),
    Operand(Atom),
    /// What a return has.
    Answer(Option<Atom>),
    Number(i128),
    Point(u32),
    /// A format of the function.
    Format(u32),
}

/// What is written so far. After an error it is not used any more.
#[derive(Drop)]
pub(crate) struct Text {
    bytes: Vec<u8>,
}

impl Model for Text {
    ghost use Rattle.std.specs.Prelude.{ℕ, List};

    ghost Value = { List ℕ };

    ghost view = { λ text. text.bytes.items };
}

impl Text {
    pub(crate) fn new(alloc: Global) -> Text
        ensures { result ≡ [] }
    {
        Text {
            bytes: Vec::new(alloc),
        }
    }

    /// The bytes that were written.
    pub(crate) fn into_items(self) -> Items<u8>
        ensures { result ≡ self }
    {
        let Text { bytes } = self;
        Items::from(bytes)
    }

    /// Writes bytes as they are.
    pub(crate) fn put(&mut self, bytes: &[u8]) -> Result<(), NoMemory>
        ensures { IfOk result (λ _. self.new ≡ self.old ++ bytes.now) }
    {
        self.bytes.extend_from_slice(bytes)?;
        Ok(())
    }

    /// Ends the line.
    pub(crate) fn end(&mut self) -> Result<(), NoMemory>
        ensures { IfOk result (λ _. self.new ≡ self.old ++ codes "\n") }
    {
        self.put(b"\n")
    }

    /// Writes a number.
    pub(crate) fn number(&mut self, number: u64) -> Result<(), NoMemory>
        ensures { IfOk result (λ _. self.new ≡ self.old ++ decimal number) }
    {
        let mut digits = Buffer::new();
        self.put(digits.format(number).as_bytes())
    }

    /// Writes a letter and a number.
    fn numbered(&mut self, letter: &[u8], number: u32) -> Result<(), NoMemory>
        ensures { IfOk result (λ _. self.new ≡ self.old ++ (letter.now ++ decimal number)) }
    {
        self.put(letter)?;
        self.number(u64::from(number))
    }

    /// Writes a number with its sign.
    fn signed(&mut self, number: i128) -> Result<(), NoMemory>
        ensures { IfOk result (λ _. self.new ≡ self.old ++ signed_decimal number) }
    {
        let mut digits = Buffer::new();
        self.put(digits.format(number).as_bytes())
    }

    fn atom(&mut self, atom: Atom) -> Result<(), NoMemory>
        ensures { IfOk result (λ _. self.new ≡ self.old ++ atom_word atom) }
    {
        match atom {
            Atom::Reg(register) => self.numbered(b"r", register),
            Atom::Int(number) => self.signed(number),
            Atom::Null => self.put(b"null"),
            Atom::Static(place) => self.numbered(b"g", place),
            Atom::Mem(place) => self.numbered(b"m", place),
        }
    }

    fn word(&mut self, word: Word) -> Result<(), NoMemory>
        ensures { IfOk result (λ _. self.new ≡ self.old ++ word_text word) }
    {
        match word {
            Word::Register(register) | Word::Result(Some(register)) => self.numbered(
                b"r", register,
            ),
            Word::Operand(atom) | Word::Answer(Some(atom)) => self.atom(atom),
            Word::Result(None) | Word::Answer(None) => self.put(b"-"),
            Word::Number(number) => self.signed(number),
            Word::Point(point) => self.number(u64::from(point)),
            Word::Format(format) => self.numbered(b"f", format),
        }
    }

    /// Writes each of these behind a space.
    pub(crate) fn names(&mut self, names: &[&[u8]]) -> Result<(), NoMemory>
        ensures { IfOk result (λ _. self.new ≡ self.old ++ spaced (map (λ name. name.now) names.now)) }
    {
        for name in names {
            self.put(b" ")?;
            self.put(name)?;
        }
        Ok(())
    }

    /// Writes each of these numbers behind a space.
    pub(crate) fn numbers(&mut self, numbers: &[u32]) -> Result<(), NoMemory>
        ensures { IfOk result (λ _. self.new ≡ self.old ++ spaced (map decimal numbers.now)) }
    {
        for number in numbers {
            self.put(b" ")?;
            self.number(u64::from(*number))?;
        }
        Ok(())
    }

    /// Writes each of these words behind a space.
    pub(crate) fn words(&mut self, words: &[Word]) -> Result<(), NoMemory>
        ensures { IfOk result (λ _. self.new ≡ self.old ++ spaced (map word_text words.now)) }
    {
        for word in words {
            self.put(b" ")?;
            self.word(*word)?;
        }
        Ok(())
    }

    /// Writes words and operands, each behind a space.
    pub(crate) fn call(&mut self, words: &[Word], args: &Items<Atom>) -> Result<(), NoMemory>
        ensures { IfOk result (λ _. self.new ≡ self.old ++ spaced (map word_text words.now ++ map atom_word args.now)) }
    {
        self.words(words)?;
        self.atoms(args.as_slice())
    }

    /// Writes each of these operands behind a space.
    fn atoms(&mut self, atoms: &[Atom]) -> Result<(), NoMemory>
        ensures { IfOk result (λ _. self.new ≡ self.old ++ spaced (map atom_word atoms.now)) }
    {
        for atom in atoms {
            self.put(b" ")?;
            self.atom(*atom)?;
        }
        Ok(())
    }

    /// Writes words and the layout of an element, each behind a space.
    pub(crate) fn object(&mut self, words: &[Word], element: &Layout) -> Result<(), NoMemory>
        ensures { IfOk result (λ _. self.new ≡ self.old ++ spaced (map word_text words.now ++ layout_word element.now ∷ [])) }
    {
        self.words(words)?;
        self.put(b" ")?;
        self.number(u64::from(element.size))?;
        self.put(b"[")?;
        self.slots(element.slots.as_slice())?;
        self.put(b"]")
    }

    /// Writes offsets with commas between them.
    fn slots(&mut self, slots: &[u32]) -> Result<(), NoMemory>
        ensures { IfOk result (λ _. self.new ≡ self.old ++ join_with_byte 44 (map decimal slots.now)) }
    {
        match slots.split_first() {
            Some((first, rest)) => {
                self.number(u64::from(*first))?;
                self.more_slots(rest)
            }
            None => Ok(()),
        }
    }

    /// Writes offsets, each behind a comma.
    fn more_slots(&mut self, slots: &[u32]) -> Result<(), NoMemory>
        ensures { IfOk result (λ _. self.new ≡ self.old ++ flat_map (λ slot. codes "," ++ decimal slot) slots.now) }
    {
        for slot in slots {
            self.put(b",")?;
            self.number(u64::from(*slot))?;
        }
        Ok(())
    }
}
