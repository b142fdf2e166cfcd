//! printf (C99 7.19.6.3).

ghost use Rattle.std.specs.Prelude.{◌≡◌, ◌+◌, ◌<◌, ◌^◌, ℕ, List, All, IfOk, Some, [], pos, length, slice_get, slice_index_or};
ghost use Rattle.c_print.specs.Format.{IsFormat, IsGiven};
ghost use Rattle.c_print.specs.Pieces.{pieces_of};
ghost use Rattle.object_meaning.specs.objects.Printing as meant;
ghost use Rattle.hs_base.specs.Numbers.{wrapped};
ghost use Rattle.object_meaning.specs.objects.Values.{number};
ghost use Rattle.object_meaning.specs.objects.Printing.{print, printed};
ghost use Rattle.object_meaning.specs.objects.Meaning.{format_in, print_format, values_of};
ghost use Rattle.meaning_state.specs.Printing.{Prints};
ghost use Rattle.meaning_run.specs.Leading.{Moves, Seen, Counted, with_input};
ghost use Rattle.meaning_run.specs.Steps.{HasFormat, MovesPrinted, WritesPrinted, format_of, MovesBy, Writes, prints};

use crate::halt::Halt;
use crate::machine::Machine;
use c_print::{FormatError, Piece, read_format};
use core_tree::{Atom, Core};
use hs_base::{IntKind, Items, Line, NoMemory, Sink, Value};
use meaning_state::Printed;
use std::alloc::Global;

/// The format at a place, and the empty one where there is none.
fn format_at(formats: &[Items<u8>], k: usize) -> &[u8]
    ensures { result.now ≡ slice_index_or formats.now k [] }
{
    if k < formats.len() {
        formats[k].as_slice()
    } else {
        &[]
    }
}

/// A format of a function.
fn format_in(core: &Core, func: u32, k: u32) -> &[u8]
    ensures { result.now ≡ format_in (slice_get core.now.funcs func) k }
{
    match core.funcs.get(func as usize) {
        Some(f) => format_at(f.formats.as_slice(), k as usize),
        None => &[],
    }
}

/// The pieces of a format.
fn pieces_of(alloc: Global, format: &[u8]) -> Result<Items<Piece>, NoMemory>
    requires { IsFormat format.now (pieces_of format.now) }
    ensures pieces { IfOk result (λ pieces. pieces ≡ pieces_of format.now) }
    ensures given { IfOk result (All IsGiven) }
{
    match read_format(alloc, format) {
        Ok(pieces) => Ok(pieces),
        Err(FormatError::NoMemory) => Err(NoMemory),
        Err(FormatError::Bad) => unreachable!(),
    }
}

/// The number of bytes as an int.
fn length_as_int(bytes: &[u8]) -> Value
    ensures { result ≡ number (wrapped IntKind.I32 (pos (length bytes.now))) }
{
    Value::Number(IntKind::I32.wrap(bytes.len() as i128))
}

impl Machine {
    /// A format of the running function.
    fn format<'a>(&self, core: &'a Core, k: u32) -> &'a [u8]
        ensures { result.now ≡ format_in (slice_get core.now.funcs self.now.running.func) k }
    {
        format_in(core, self.func, k)
    }

    /// What pieces print with their arguments.
    fn printed(
        &self,
        alloc: Global,
        pieces: &[Piece],
        values: &[Value],
    ) -> Result<Printed, NoMemory>
        requires { All IsGiven pieces.now }
        ensures { IfOk result (λ p. Prints p (printed self.now.objects pieces.now values.now)) }
    {
        self.objects.printed(alloc, pieces, values)
    }

    /// Writes what was printed, and a register takes the number of bytes as an int.
    fn put_printed<O: Sink>(
        &mut self,
        line: Line,
        r: u32,
        printed: &Printed,
        out: &mut O,
    ) -> Result<(), Halt>
        requires point { self.old.running.point + 1 < 2 ^ 64 }
        requires count { O.faults out.old + 1 < 2 ^ 64 }
        ensures told { WritesPrinted line r printed.now self.old self.new O.taken out.old out.new result }
        ensures faults { (i : ℕ) → Counted result i i (O.faults out.old) (O.faults out.new) }
        ensures moves { MovesPrinted line r printed.now self.old self.new result }
    {
        let bytes = printed.bytes.as_slice();
        match printed.refused {
            None => { self.put_bytes(out, bytes, Some(r), length_as_int(bytes)) }
            Some(refusal) => self.put_refused(out, bytes, line, refusal),
        }
    }

    /// A call of printf.
    pub(crate) fn act_printf<O: Sink>(
        &mut self,
        alloc: Global,
        core: &Core,
        line: Line,
        r: u32,
        k: u32,
        args: &[Atom],
        out: &mut O,
    ) -> Result<(), Halt>
        requires point { self.old.running.point + 1 < 2 ^ 64 }
        requires count { O.faults out.old + 1 < 2 ^ 64 }
        requires format { HasFormat core.now self.old k }
        ensures told { Writes (prints core.now self.old line r k args.now) self.old self.new O.taken out.old out.new result }
        ensures faults { (i : ℕ) → Counted result i i (O.faults out.old) (O.faults out.new) }
        ensures moves { MovesBy (prints core.now self.old line r k args.now) self.old self.new result }
    {
        let values = self.values(alloc, args)?;
        let pieces = pieces_of(alloc, self.format(core, k))?;
        let printed = self.printed(alloc, pieces.as_slice(), values.as_slice())?;
        self.put_printed(line, r, &printed, out)
    }
}
