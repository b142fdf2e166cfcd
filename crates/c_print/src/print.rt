//! Writing an item's number.

ghost use Rattle.std.specs.Prelude.{◌≡◌, ◌+◌, ◌-◌, ◌<◌, ◌^◌, ◌⊎◌, false, IfOk, length, replicate, unsigned_abs};
ghost use Rattle.std.specs.Int.{is_negative};
ghost use Rattle.std.specs.Fmt.{sign_text};
ghost use Rattle.hs_base.specs.Outside.{CountsFaults};
ghost use Rattle.hs_base.specs.PutAll.{PutsAll};
ghost use Rattle.c_print.specs.Fields.{padded, shown, FillsWidth};
ghost use Rattle.c_print.specs.Print.{item_bytes, TakesNumber};

use crate::numeral::{LONGEST, write_numeral};
use crate::piece::Piece;
use hs_base::{Failed, Sink, put_all};
use itoa::Buffer;

/// Writes a byte to the sink, a number of times. After a failure, which is the last call on the sink, a part of them
/// was taken.
pub fn put_repeated<O: Sink>(out: &mut O, byte: u8, count: u32) -> Result<(), Failed>
    requires { O.faults out.old + 1 < 2 ^ 64 }
    ensures bytes { PutsAll (O.taken out.old) (O.taken out.new) (replicate count byte) result }
    ensures cause { CountsFaults (O.faults out.old) (O.faults out.new) result }
{
    let run = [byte; 64];
    let mut left = count as usize;
    while left > 0 {
        let len = left.min(64);
        put_all(out, &run[..len])?;
        left -= len;
    }
    Ok(())
}

/// The sign of a number.
fn sign_of(value: i128) -> &'static [u8]
    ensures { result.now ≡ sign_text (is_negative value) }
{
    if value < 0 { b"-" } else { b"" }
}

/// How an item stands in its width.
#[derive(Clone, Copy)]
struct Field {
    left: bool,
    zeros: bool,
    width: u32,
}

/// How often a space, a zero and again a space are put before a sign, behind it, and at the end.
#[derive(Clone, Copy)]
struct Fills {
    before: u32,
    zeros: u32,
    after: u32,
}

impl Field {
    /// What fills a text of that length.
    fn fills(self, len: u32) -> Fills
        ensures filled { FillsWidth self len result }
        ensures whole { result.before + result.zeros + result.after ≡ self.width - len }
    {
        let fill = self.width.saturating_sub(len);
        if self.left {
            Fills {
                before: 0,
                zeros: 0,
                after: fill,
            }
        } else if self.zeros {
            Fills {
                before: 0,
                zeros: fill,
                after: 0,
            }
        } else {
            Fills {
                before: fill,
                zeros: 0,
                after: 0,
            }
        }
    }

    /// Writes a sign and what follows it, filled to the width, and answers how many bytes that is.
    fn put<O: Sink>(self, out: &mut O, sign: &[u8], text: &[u8]) -> Result<u32, Failed>
        requires count { O.faults out.old + 1 < 2 ^ 64 }
        requires short { length sign.now + length text.now < 2 ^ 32 }
        ensures bytes { PutsAll (O.taken out.old) (O.taken out.new) (padded self sign.now text.now) result }
        ensures len { IfOk result (λ n. n ≡ length (padded self sign.now text.now)) }
        ensures cause { CountsFaults (O.faults out.old) (O.faults out.new) result }
    {
        let len = (sign.len() + text.len()) as u32;
        let fills = self.fills(len);
        put_repeated(out, b' ', fills.before)?;
        put_all(out, sign)?;
        put_repeated(out, b'0', fills.zeros)?;
        put_all(out, text)?;
        put_repeated(out, b' ', fills.after)?;
        Ok(len.max(self.width))
    }

    /// Writes a number in base 10.
    #[tactic(auto, using(crate::proofs::Numerals::decimal_is))]
    fn put_decimal<O: Sink>(self, out: &mut O, value: i128) -> Result<u32, Failed>
        requires count { O.faults out.old + 1 < 2 ^ 64 }
        requires fits { unsigned_abs value < 2 ^ 64 }
        ensures bytes { PutsAll (O.taken out.old) (O.taken out.new) (shown self 10 false value) result }
        ensures len { IfOk result (λ n. n ≡ length (shown self 10 false value)) }
        ensures cause { CountsFaults (O.faults out.old) (O.faults out.new) result }
    {
        let mut buffer = Buffer::new();
        let digits = buffer.format(value.unsigned_abs() as u64).as_bytes();
        self.put(out, sign_of(value), digits)
    }

    /// Writes a number in base 8 or 16.
    fn put_numeral<O: Sink>(
        self,
        out: &mut O,
        base: u64,
        capital: bool,
        value: i128,
    ) -> Result<u32, Failed>
        requires count { O.faults out.old + 1 < 2 ^ 64 }
        requires base { (base ≡ 8) ⊎ (base ≡ 16) }
        requires fits { unsigned_abs value < 2 ^ 64 }
        ensures bytes { PutsAll (O.taken out.old) (O.taken out.new) (shown self base capital value) result }
        ensures len { IfOk result (λ n. n ≡ length (shown self base capital value)) }
        ensures cause { CountsFaults (O.faults out.old) (O.faults out.new) result }
    {
        let mut buffer = [0; LONGEST];
        let start = write_numeral(value.unsigned_abs() as u64, base, capital, &mut buffer);
        self.put(out, sign_of(value), &buffer[start..])
    }
}

/// Writes the bytes of an item with its number, and answers how many they are. After a failure, which is the last call
/// on the sink, a part of them was taken.
#[tactic(auto, unfolding(crate::specs::Print::item_bytes))]
pub fn put_number<O: Sink>(out: &mut O, piece: &Piece, value: i128) -> Result<u32, Failed>
    requires count { O.faults out.old + 1 < 2 ^ 64 }
    requires number { TakesNumber piece.now value }
    ensures bytes { PutsAll (O.taken out.old) (O.taken out.new) (item_bytes piece.now value) result }
    ensures len { IfOk result (λ n. n ≡ length (item_bytes piece.now value)) }
    ensures cause { CountsFaults (O.faults out.old) (O.faults out.new) result }
{
    let Piece::Item {
        left,
        zeros,
        width,
        conv,
        ..
    } = piece
    else {
        unreachable!();
    };
    let field = Field {
        left: *left,
        zeros: *zeros,
        width: *width,
    };
    match *conv {
        b'c' => field.put(out, b"", &[value as u8]),
        b'o' => field.put_numeral(out, 8, false, value),
        b'x' => field.put_numeral(out, 16, false, value),
        b'X' => field.put_numeral(out, 16, true, value),
        _ => field.put_decimal(out, value),
    }
}
