//! What a format writes with its arguments (C99 7.19.6.1, 7.19.6.3).

ghost use Rattle.std.specs.Prelude.{◌≡◌, ◌≢◌, Some, replicate, pos, ◌+◌, ◌<◌, ◌≤◌, ◌^◌, ◌++◌, [], ◌∷◌, List, All, IfOk, OnOk, slice_index_or, drop, length};
ghost use Rattle.hs_base.specs.Outside.{CountsFaults};
ghost use Rattle.hs_base.specs.PutAll.{PutsAll};
ghost use Rattle.hs_base.specs.declared.values.Value as spec;
ghost use Rattle.meaning_state.specs.Printing.{piece_text, PrintsNoString, Adds, Prints};
ghost use Rattle.c_print.specs.Print.{field};
ghost use Rattle.c_print.specs.Format.{IsGiven};
ghost use Rattle.object_meaning.specs.objects.Values.{number};
ghost use Rattle.object_meaning.specs.objects.Printing.{item_text, arguments_behind, printed};

use crate::arithmetic::{number, pointer};
use crate::objects::Objects;
use crate::refusal::Refusal;
use c_print::{Piece, put_number};
use hs_base::{Failed, Items, NoMemory, Sink, Value, put_all};
use std::alloc::Global;

/// Bytes that are written, and why the rest is not.
#[derive(Drop)]
pub struct Printed {
    pub bytes: Items<u8>,
    pub refused: Option<Refusal>,
}

/// A list of bytes that are written to. It fails where memory is wanting.
#[derive(Drop)]
struct Buffer {
    bytes: Items<u8>,
    faults: u64,
}

impl Sink for Buffer {
    ghost taken = { λ b. Some b.bytes };

    ghost faults = { λ b. b.faults };

    fn put(&mut self, bytes: &[u8]) -> Result<usize, Failed> {
        match self.bytes.push(bytes[0]) {
            Ok(()) => Ok(1),
            Err(_) => {
                self.faults += 1;
                Err(Failed)
            }
        }
    }
}

/// Writes plain text, or an item with a number, which is converted to the item's kind. After a failure, which is the last
/// call on the sink, a part of the bytes was taken.
pub fn put_piece<O: Sink>(out: &mut O, piece: &Piece, n: i128) -> Result<(), Failed>
    requires count { O.faults out.old + 1 < 2 ^ 64 }
    requires given { IsGiven piece.now }
    requires number { PrintsNoString piece.now }
    ensures bytes { PutsAll (O.taken out.old) (O.taken out.new) (piece_text piece.now n) result }
    ensures cause { CountsFaults (O.faults out.old) (O.faults out.new) result }
{
    match piece {
        Piece::Plain(text) => put_all(out, text.as_slice()),
        Piece::Item { kind, .. } => {
            put_number(out, piece, kind.wrap(n))?;
            Ok(())
        }
    }
}

/// Adds bytes at the end.
fn add_all(bytes: &mut Items<u8>, more: &[u8]) -> Result<(), NoMemory>
    ensures { IfOk result (λ _. bytes.new ≡ bytes.old ++ more.now) }
{
    for byte in more {
        bytes.push(*byte)?;
    }
    Ok(())
}

/// Adds a byte at the end, a number of times.
fn add_repeated(bytes: &mut Items<u8>, byte: u8, count: u32) -> Result<(), NoMemory>
    ensures { IfOk result (λ _. bytes.new ≡ bytes.old ++ replicate count byte) }
{
    for _ in 0..count {
        bytes.push(byte)?;
    }
    Ok(())
}

/// Adds the bytes of a string, filled to a width.
#[tactic(auto, using(std::proofs::lemmas::List::append_assoc), unfolding(c_print::specs::Print::field))]
fn add_string(
    bytes: &mut Items<u8>,
    left: bool,
    zeros: bool,
    width: u32,
    text: &[u8],
) -> Result<(), NoMemory>
    ensures { IfOk result (λ _. bytes.new ≡ bytes.old ++ field left zeros width [] text.now) }
{
    let fill = (width as usize).saturating_sub(text.len()) as u32;
    if left {
        add_all(bytes, text)?;
        add_repeated(bytes, b' ', fill)
    } else if zeros {
        add_repeated(bytes, b'0', fill)?;
        add_all(bytes, text)
    } else {
        add_repeated(bytes, b' ', fill)?;
        add_all(bytes, text)
    }
}

/// Adds plain text, or an item with a number.
fn add_number(buffer: &mut Buffer, piece: &Piece, n: i128) -> Result<(), NoMemory>
    requires count { buffer.old.faults + 1 < 2 ^ 64 }
    requires given { IsGiven piece.now }
    requires number { PrintsNoString piece.now }
    ensures bytes { IfOk result (λ _. buffer.new.bytes ≡ buffer.old.bytes ++ piece_text piece.now n) }
    ensures faults { OnOk result (buffer.new.faults ≡ buffer.old.faults) }
{
    match put_piece(buffer, piece, n) {
        Ok(()) => Ok(()),
        Err(_) => Err(NoMemory),
    }
}

/// The bytes so far, where the rest is refused.
fn refused(buffer: Buffer, refusal: Refusal) -> Printed
    ensures bytes { result.bytes ≡ buffer.bytes }
    ensures refused { result.refused ≡ Some refusal }
{
    Printed {
        bytes: buffer.bytes,
        refused: Some(refusal),
    }
}

/// The place of the arguments behind a piece: an item takes one, plain text none.
fn place_behind(piece: &Piece, place: usize) -> usize
    requires { place + 1 < 2 ^ 64 }
    ensures arguments { (values : List spec.Value) → drop result values ≡ arguments_behind piece.now (drop place values) }
    ensures bound { result ≤ place + 1 }
{
    match piece {
        Piece::Plain(_) => place,
        Piece::Item { .. } => place + 1,
    }
}

/// The argument at a place.
fn argument(values: &[Value], place: usize) -> Value
    ensures { result ≡ slice_index_or values.now place (number (pos 0)) }
{
    if place < values.len() {
        values[place]
    } else {
        Value::Number(0)
    }
}

impl Objects {
    /// Adds what a piece prints with its argument.
    fn add_piece(
        &self,
        alloc: Global,
        buffer: &mut Buffer,
        piece: &Piece,
        value: Value,
    ) -> Result<(), Refusal>
        requires faults { buffer.old.faults + 1 < 2 ^ 64 }
        requires given { IsGiven piece.now }
        ensures text { Adds buffer.old.bytes result buffer.new.bytes (item_text self.now piece.now (value ∷ [])) }
        ensures faults { OnOk result (buffer.new.faults ≡ buffer.old.faults) }
    {
        match piece {
            Piece::Plain(text) => {
                add_all(&mut buffer.bytes, text.as_slice())?;
                Ok(())
            }
            Piece::Item {
                left,
                zeros,
                width,
                conv,
                ..
            } => {
                if *conv == b's' {
                    let text = self.string(alloc, pointer(value))?;
                    add_string(&mut buffer.bytes, *left, *zeros, *width, text.as_slice())?;
                } else {
                    add_number(buffer, piece, number(value))?;
                }
                Ok(())
            }
        }
    }

    /// What pieces print with their arguments, piece by piece.
    pub fn printed(
        &self,
        alloc: Global,
        pieces: &[Piece],
        values: &[Value],
    ) -> Result<Printed, NoMemory>
        requires { All IsGiven pieces.now }
        ensures { IfOk result (λ p. Prints p (printed self.now pieces.now values.now)) }
    {
        let mut buffer = Buffer {
            bytes: Items::new(alloc),
            faults: 0,
        };
        let mut place = 0;
        for i in 0..pieces.len() {
            let piece = &pieces[i];
            match self.add_piece(alloc, &mut buffer, piece, argument(values, place)) {
                Ok(()) => {}
                Err(Refusal::NoMemory) => return Err(NoMemory),
                Err(Refusal::ReadsDead) => return Ok(refused(buffer, Refusal::ReadsDead)),
                Err(Refusal::Trapped(kind)) => {
                    return Ok(refused(buffer, Refusal::Trapped(kind)));
                }
            }
            place = place_behind(piece, place);
        }
        Ok(Printed {
            bytes: buffer.bytes,
            refused: None,
        })
    }
}
