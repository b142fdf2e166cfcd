//! printf (C99 7.19.6.3).

ghost use Rattle.std.specs.Prelude.{◌≡◌, ◌+◌, ◌<◌, ◌≤◌, ◌^◌, ℕ, List, All, IfErr, IfOk, IfSome, None, drop, length};
ghost use Rattle.hs_base.specs.Outside.{CountsFaults};
ghost use Rattle.hs_base.specs.PutAll.{PutsAll};
ghost use Rattle.hs_base.specs.declared.values.Value as spec;
ghost use Rattle.c_print.specs.Format.{IsGiven};
ghost use Rattle.object_meaning.specs.objects.Printing.{arguments_behind};
ghost use Rattle.meaning_state.specs.Printing.{piece_text, PrintsNoString};
ghost use Rattle.flat_objects.specs.Keeping.{IsKept};
ghost use Rattle.flat_machine.specs.Words.{address_at};
ghost use Rattle.flat_machine.specs.Leading.{Counted};
ghost use Rattle.flat_machine.specs.Putting.{CountsPut};
ghost use Rattle.flat_machine.specs.Writing.{HasString, PrintsString};
ghost use Rattle.flat_machine.specs.Telling.{IsPaddedLength, MovesPrinting, Prints, PutsField, PutsPadded, PutsPiece, PutsPieces, CountsField, CountsPiece};
ghost use Rattle.flat_machine.specs.StateMemory.{KeepsHanded};

use crate::put_error::PutError;
use crate::state::State;
use byte_memory::Steps;
use c_print::{Piece, put_number, put_repeated};
use hs_base::{End, Failed, IntKind, Line, Sink, put_all};
use std::sync::ledger::Ledger;

/// How a string stands in its width.
#[derive(Clone, Copy)]
pub(crate) struct StringField {
    left: bool,
    width: u32,
}

/// How an item that prints a string stands in its width, and nothing where a piece prints none.
fn string_field(piece: &Piece) -> Option<StringField>
    requires { IsGiven piece.now }
    ensures string { IfSome result (PrintsString piece.now) }
    ensures other { result ≡ None → PrintsNoString piece.now }
{
    match piece {
        Piece::Plain(_) => None,
        Piece::Item {
            left,
            width,
            conv,
            ..
        } => {
            if *conv == b's' {
                Some(StringField {
                    left: *left,
                    width: *width,
                })
            } else {
                None
            }
        }
    }
}

/// Writes plain text, or an item with a number, which is converted to the item's kind; answers how many bytes that is. After
/// a failure, which is the last call on the sink, a part of the bytes was taken.
fn put_number_piece<O: Sink>(out: &mut O, piece: &Piece, n: i128) -> Result<u64, Failed>
    requires count { O.faults out.old + 1 < 2 ^ 64 }
    requires given { IsGiven piece.now }
    requires number { PrintsNoString piece.now }
    ensures bytes { PutsAll (O.taken out.old) (O.taken out.new) (piece_text piece.now n) result }
    ensures len { IfOk result (λ k. k ≡ length (piece_text piece.now n)) }
    ensures cause { CountsFaults (O.faults out.old) (O.faults out.new) result }
{
    match piece {
        Piece::Plain(text) => {
            put_all(out, text.as_slice())?;
            Ok(text.len() as u64)
        }
        Piece::Item { kind, .. } => {
            let len = put_number(out, piece, kind.wrap(n))?;
            Ok(u64::from(len))
        }
    }
}

/// The place of the arguments behind a piece: an item takes one, plain text none.
fn place_behind(piece: &Piece, place: usize) -> usize
    requires { place + 1 < 2 ^ 64 }
    ensures arguments { (values : List spec.Value) → drop result values ≡ arguments_behind piece.now (drop place values) }
    ensures bound { result ≤ place + 1 }
{
    match piece {
        Piece::Plain(_) => place,
        Piece::Item { .. } => place + 1,
    }
}

impl State {
    /// Writes the string of so many bytes at an address, filled by spaces to a width; answers how many bytes that is.
    fn put_padded<O: Sink, L: Ledger>(
        &self,
        addr: u32,
        len: u32,
        field: StringField,
        out: &mut O,
        steps: &mut Steps<L>,
    ) -> Result<u64, Failed>
        requires count { O.faults out.old + 1 < 2 ^ 64 }
        requires string { HasString self.now.memory addr len }
        ensures bytes { PutsPadded (O.taken out.old) (O.taken out.new) self.now.memory addr len field result }
        ensures len { IfOk result (IsPaddedLength field len) }
        ensures cause { CountsFaults (O.faults out.old) (O.faults out.new) result }
    {
        let fill = field.width.saturating_sub(len);
        if field.left {
            self.put_string(addr, len, out, steps)?;
            put_repeated(out, b' ', fill)?;
        } else {
            put_repeated(out, b' ', fill)?;
            self.put_string(addr, len, out, steps)?;
        }
        Ok(u64::from(len) + u64::from(fill))
    }

    /// Writes the string at an address as an item does; answers how many bytes that is. Nothing is written where the string
    /// traps.
    fn put_text<O: Sink, L: Ledger>(
        &self,
        addr: u32,
        field: StringField,
        out: &mut O,
        steps: &mut Steps<L>,
    ) -> Result<u64, PutError>
        requires count { O.faults out.old + 1 < 2 ^ 64 }
        requires kept { IsKept self.now.memory addr }
        ensures puts { PutsField (O.taken out.old) (O.taken out.new) self.now.memory addr field result }
        ensures len { CountsField self.now.memory addr field result }
        ensures cause { CountsPut (O.faults out.old) (O.faults out.new) result }
    {
        match self.string_length(addr, steps) {
            Ok(len) => Ok(self.put_padded(addr, len, field, out, steps)?),
            Err(kind) => Err(PutError::Trapped(kind)),
        }
    }

    /// Writes a piece with the argument at a place; answers how many bytes that is.
    fn put_piece<O: Sink, L: Ledger>(
        &self,
        piece: &Piece,
        place: usize,
        out: &mut O,
        steps: &mut Steps<L>,
    ) -> Result<u64, PutError>
        requires count { O.faults out.old + 1 < 2 ^ 64 }
        requires given { IsGiven piece.now }
        requires kept { IsKept self.now.memory (address_at self.now.handed place) }
        ensures puts { PutsPiece (O.taken out.old) (O.taken out.new) self.now piece.now place result }
        ensures len { CountsPiece self.now piece.now place result }
        ensures cause { CountsPut (O.faults out.old) (O.faults out.new) result }
    {
        match string_field(piece) {
            Some(field) => self.put_text(self.address(place), field, out, steps),
            None => Ok(put_number_piece(out, piece, self.integer(place))?),
        }
    }

    /// Writes pieces with what was handed over, one after another; answers how many bytes that is.
    fn put_pieces<O: Sink, L: Ledger>(
        &self,
        pieces: &[Piece],
        out: &mut O,
        steps: &mut Steps<L>,
    ) -> Result<i128, PutError>
        requires count { O.faults out.old + 1 < 2 ^ 64 }
        requires given { All IsGiven pieces.now }
        requires kept { (k : ℕ) → IsKept self.now.memory (address_at self.now.handed k) }
        ensures puts { PutsPieces (O.taken out.old) (O.taken out.new) self.now pieces.now result }
        ensures cause { CountsPut (O.faults out.old) (O.faults out.new) result }
    {
        let mut place = 0;
        let mut written = 0;
        for i in 0..pieces.len() {
            let piece = &pieces[i];
            match self.put_piece(piece, place, out, steps) {
                Ok(len) => written += i128::from(len),
                Err(error) => return Err(error),
            }
            place = place_behind(piece, place);
        }
        Ok(written)
    }

    /// A call of printf with a format of these pieces.
    pub(crate) fn act_printf<O: Sink, L: Ledger>(
        &mut self,
        line: Line,
        r: u32,
        pieces: &[Piece],
        out: &mut O,
        steps: &mut Steps<L>,
    ) -> Result<(), End>
        requires point { self.old.calls.running.point + 1 < 2 ^ 64 }
        requires count { O.faults out.old + 1 < 2 ^ 64 }
        requires given { All IsGiven pieces.now }
        requires kept { KeepsHanded self.old }
        ensures told { Prints (O.taken out.old) (O.taken out.new) self.old self.new line r pieces.now result }
        ensures faults { (i : ℕ) → Counted result i i (O.faults out.old) (O.faults out.new) }
        ensures unchanged { IfErr result (λ _. self.new ≡ self.old) }
        ensures moves { MovesPrinting self.old self.new line r pieces.now result }
    {
        match self.put_pieces(pieces, out, steps) {
            Ok(n) => {
                self.give_number(Some(r), IntKind::I32, IntKind::I32.wrap(n));
                Ok(())
            }
            Err(error) => Err(error.end(line)),
        }
    }
}
