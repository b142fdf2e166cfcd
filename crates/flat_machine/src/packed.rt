//! Words of registers in 16 bytes.

ghost use Rattle.std.specs.Prelude.{◌≡◌};
ghost use Rattle.hs_base.specs.Arithmetic.{IsInRange};
ghost use Rattle.flat_machine.specs.Operations.{IsAddress, IsNumber};
ghost use Rattle.flat_machine.specs.Words.{Fits, address_in, integer_in};

use flat_objects::Word;
use hs_base::IntKind;
use std::marker::Model;

/// A word in 16 bytes: half of what the enum takes, which has room for each integer of 128 bits. Its two parts are of two sizes, so
/// that it is copied part by part, as it was written: a read of both at once would wait for the writes.
#[derive(Clone, Copy)]
pub(crate) struct PackedWord {
    /// An address, or the lowest 64 bits of a number.
    low: u64,
    /// What stands above them: 0 and -1 for a number, from 0 on and below it, and 1 for an address.
    high: i32,
}

impl Model for PackedWord {
    ghost use Rattle.flat_objects.specs.declared.words.Word.{Word};

    ghost Value = { Word };

    ghost use Rattle.flat_machine.specs.Packed.{AreParts, packed, packed_word_of, word_of};

    ghost view = { λ p. word_of p.low p.high };

    ghost invariant = { λ p. AreParts p.low p.high };

    ghost inverse = { packed };

    ghost inverse_ok = { λ p h. packed_word_of p.low p.high h };
}

impl PackedWord {
    /// The word of a number from -2^63 to 2^64 - 1.
    #[inline(always)]
    fn fitting(n: i128) -> PackedWord
        requires { Fits n }
        ensures { result ≡ Word.Number n }
    {
        if n < 0 {
            PackedWord {
                low: (n + (1 << 64)) as u64,
                high: -1,
            }
        } else {
            PackedWord {
                low: n as u64,
                high: 0,
            }
        }
    }

    /// The word of a number of a kind.
    #[inline(always)]
    pub(crate) fn number(kind: IntKind, n: i128) -> PackedWord
        requires { IsInRange kind n }
        ensures { result ≡ Word.Number n }
    {
        let _ = kind;
        PackedWord::fitting(n)
    }

    /// The word of an address.
    #[inline(always)]
    pub(crate) fn address(addr: u32) -> PackedWord
        ensures { result ≡ Word.Address addr }
    {
        PackedWord {
            low: u64::from(addr),
            high: 1,
        }
    }

    /// The number of a word that is one.
    #[inline(always)]
    pub(crate) fn integer(&self) -> i128
        requires { IsNumber self.now }
        ensures { result ≡ integer_in self.now }
    {
        i128::from(self.high) * (1 << 64) + i128::from(self.low)
    }

    /// The address of a word that is one.
    #[inline(always)]
    pub(crate) fn pointer(&self) -> u32
        requires { IsAddress self.now }
        ensures { result ≡ address_in self.now }
    {
        self.low as u32
    }

    /// The same word, copied part by part.
    #[inline(always)]
    pub(crate) fn copied(&self) -> PackedWord
        ensures { result ≡ self.now }
    {
        PackedWord {
            low: self.low,
            high: self.high,
        }
    }

    /// The word as an enum.
    #[inline(always)]
    pub(crate) fn word(&self) -> Word
        ensures { result ≡ self.now }
    {
        if self.high == 1 {
            Word::Address(self.low as u32)
        } else {
            Word::Number(i128::from(self.high) * (1 << 64) + i128::from(self.low))
        }
    }
}
