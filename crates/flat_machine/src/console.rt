//! The input and the output of a run. What is put waits until the source has no byte at hand, or the run ends.

ghost use Rattle.std.specs.Prelude.{◌≡◌, ◌≤◌, ◌<◌, ◌^◌, ◌+◌, ◌++◌, ◌⊎◌, [], ℕ, List, Option, Some, None, Ok, Err, IfOk, IfErr, IsTrue, false, drop, take, length};
ghost use Rattle.hs_base.specs.Outside.{CountsFaults};
ghost use Rattle.flat_machine.specs.Noting.{IsAtByte, bytes_put, marks_of, reads_in, ReadsOn};
ghost use Rattle.hs_base.specs.declared.ends.End.TheVariants as end;
ghost use Rattle.flat_machine.specs.declared.fault.Fault.TheVariants as fault;

use crate::fault::Fault;
use crate::log::{Log, Piece};
use crate::note::Note;
use crate::page::{CHUNK, Page, first_bytes, front_of};
use hs_base::{End, Failed, Sink, Source};
use std::marker::{Brand, PhantomData};

/// An input and an output as they were lent: the names of the loans, the bytes that were left, and those that were taken.
pub(crate) trait Lent {
    ghost input_loan: { ℕ };

    ghost out_loan: { ℕ };

    ghost left: { Option (List ℕ) };

    ghost taken: { Option (List ℕ) };
}

impl Lent for Brand {
    ghost input_loan = { 0 };

    ghost out_loan = { 0 };

    ghost left = { None };

    ghost taken = { None };
}

/// An input and an output that were lent, and what is noted of them. The input and the output themselves stand where the notes that
/// wait begin.
#[derive(Drop)]
pub(crate) struct Console<'i, 'o, I: Source, O: Sink, K: Lent> {
    pub(crate) input: &'i mut I,
    pub(crate) out: &'o mut O,
    /// What is noted since, and waits.
    pub(crate) page: Page,
    /// What was noted before.
    pub(crate) done: Log,
    lent: PhantomData<K>,
    ghost same_input: { input.ghost_name ≡ K.input_loan },
    ghost same_out: { out.ghost_name ≡ K.out_loan },
    ghost puts: { (t : List ℕ) → K.taken ≡ Some t → O.taken out.now ≡ Some (t ++ bytes_put done.notes) },
    ghost reads: { (l : List ℕ) → K.left ≡ Some l → I.left input.now ≡ Some (drop (reads_in done.notes) l) },
    ghost within: { (l : List ℕ) → K.left ≡ Some l → reads_in (done.notes ++ page.notes) ≤ length l },
    ghost ahead: { reads_in page.notes ≤ length (I.fetched input.now) },
}

/// Passes the notes in front of the byte behind so many, and answers the log behind them.
fn pass<I: Source>(page: &mut Page, input: &mut I, done: &Log, put: usize) -> Log
    requires ahead { reads_in page.old.notes ≤ length (I.fetched input.old) }
    ensures notes { result.notes ++ page.new.notes ≡ done.now.notes ++ page.old.notes }
    ensures bytes { bytes_put result.notes ≡ bytes_put done.now.notes ++ take put (bytes_put page.old.notes) }
    ensures rest { bytes_put page.new.notes ≡ drop put (bytes_put page.old.notes) }
    ensures left { ReadsOn (I.left input.old) (I.left input.new) done.now.notes result.notes }
    ensures ahead { reads_in page.new.notes ≤ length (I.fetched input.new) }
    ensures faults { I.faults input.new ≡ I.faults input.old }
    ensures at_byte { IsAtByte page.new }
{
    let front = front_of(page.notes(), put);
    let log = done.then(&Piece {
        notes: page.notes(),
        count: front.count,
    });
    page.pass(front);
    input.skip(front.reads);
    log
}

impl<'i, 'o, I: Source, O: Sink, K: Lent> Console<'i, 'o, I, O, K> {
    ghost use Rattle.flat_machine.specs.Consoles.{CountsFinish, CountsReadOf, Settles, TakesByteOf, bytes_waiting, input_left, noted};

    /// An input and an output as they were lent: nothing is noted.
    pub(crate) fn new(input: &'i mut I, out: &'o mut O) -> Console<'i, 'o, I, O, K>
        requires same_input { input.ghost_name ≡ K.input_loan }
        requires same_out { out.ghost_name ≡ K.out_loan }
        requires left { I.left input.old ≡ K.left }
        requires taken { O.taken out.old ≡ K.taken }
        ensures input { result.input.now ≡ input.old }
        ensures out { result.out.now ≡ out.old }
        ensures done { result.done.notes ≡ [] }
        ensures page { result.page.notes ≡ [] }
    {
        Console {
            input,
            out,
            page: Page::new(),
            done: Log::new(),
            lent: PhantomData,
        }
    }

    /// Puts the first bytes that wait, and says whether there were any.
    fn put_some(&mut self) -> Result<bool, Failed>
        requires count { O.faults self.old.out.now + 1 < 2 ^ 64 }
        requires at_byte { IsAtByte self.old.page }
        ensures notes { noted self.new ≡ noted self.old }
        ensures at_byte { IsAtByte self.new.page }
        ensures more { IfOk result (λ more. IsTrue more → bytes_waiting self.new < bytes_waiting self.old) }
        ensures none { IfOk result (λ more. more ≡ false → self.new.page.notes ≡ []) }
        ensures cause { CountsFaults (O.faults self.old.out.now) (O.faults self.new.out.now) result }
        ensures faults { I.faults self.new.input.now ≡ I.faults self.old.input.now }
    {
        let mut chunk = [0; CHUNK];
        let count = first_bytes(self.page.notes(), &mut chunk);
        if count == 0 {
            return Ok(false);
        }
        let put = self.out.put(&chunk[..count])?;
        self.done = pass(&mut self.page, self.input, &self.done, put);
        Ok(true)
    }

    /// Puts all that waits. After a failure the input and the output stand in front of the first byte that was not taken.
    #[inline(never)]
    pub(crate) fn flush(&mut self) -> Result<(), Failed>
        requires count { O.faults self.old.out.now + 1 < 2 ^ 64 }
        ensures notes { noted self.new ≡ noted self.old }
        ensures empty { IfOk result (λ _. self.new.page.notes ≡ []) }
        ensures room { IfOk result (λ _. self.new.page.room ≡ 4096) }
        ensures cause { CountsFaults (O.faults self.old.out.now) (O.faults self.new.out.now) result }
        ensures faults { I.faults self.new.input.now ≡ I.faults self.old.input.now }
    {
        self.done = pass(&mut self.page, self.input, &self.done, 0);
        'chunks: while self.put_some()? {}
        Ok(())
    }

    /// Puts all that waits where there is no room for another note.
    fn make_room(&mut self) -> Result<(), Failed>
        requires count { O.faults self.old.out.now + 1 < 2 ^ 64 }
        ensures notes { noted self.new ≡ noted self.old }
        ensures room { IfOk result (λ _. 0 < self.new.page.room) }
        ensures cause { CountsFaults (O.faults self.old.out.now) (O.faults self.new.out.now) result }
        ensures faults { I.faults self.new.input.now ≡ I.faults self.old.input.now }
    {
        if self.page.is_full() {
            self.flush()
        } else {
            Ok(())
        }
    }

    /// Reads the next byte, where none is at hand. All that waits is put before.
    #[inline(never)]
    fn fetch(&mut self) -> Result<Option<u8>, Fault>
        requires input { I.faults self.old.input.now + 1 < 2 ^ 64 }
        requires out { O.faults self.old.out.now + 1 < 2 ^ 64 }
        ensures bytes { TakesByteOf self.old self.new result }
        ensures notes { IfOk result (λ byte. noted self.new ≡ noted self.old ++ marks_of byte) }
        ensures failed { IfErr result (λ _. noted self.new ≡ noted self.old) }
        ensures settled { result ≡ Err fault.Input → self.new.page.notes ≡ [] }
        ensures cause { CountsReadOf self.old self.new result }
    {
        self.flush()?;
        match self.input.next() {
            Ok(Some(byte)) => {
                self.done = self.done.then(&Piece {
                    notes: &[Note::Read],
                    count: 1,
                });
                Ok(Some(byte))
            }
            Ok(None) => Ok(None),
            Err(_) => Err(Fault::Input),
        }
    }

    /// Reads the next byte, or says that there is none.
    #[inline(always)]
    pub(crate) fn next(&mut self) -> Result<Option<u8>, Fault>
        requires input { I.faults self.old.input.now + 1 < 2 ^ 64 }
        requires out { O.faults self.old.out.now + 1 < 2 ^ 64 }
        ensures bytes { TakesByteOf self.old self.new result }
        ensures notes { IfOk result (λ byte. noted self.new ≡ noted self.old ++ marks_of byte) }
        ensures failed { IfErr result (λ _. noted self.new ≡ noted self.old) }
        ensures settled { result ≡ Err fault.Input → self.new.page.notes ≡ [] }
        ensures cause { CountsReadOf self.old self.new result }
    {
        if !self.page.is_full() {
            if let Some(byte) = self.input.ready().get(self.page.reads()) {
                let byte = *byte;
                self.page.read();
                return Ok(Some(byte));
            }
        }
        self.fetch()
    }

    /// The end of a run that stopped so: by a fault of the output where not all could be put that waits. Behind a fault nothing is
    /// put.
    pub(crate) fn finish(&mut self, stopped: End) -> End
        requires count { (stopped ≡ end.OutputFault → ⊥) → O.faults self.old.out.now + 1 < 2 ^ 64 }
        ensures notes { noted self.new ≡ noted self.old }
        ensures end { (result ≡ stopped) ⊎ (result ≡ end.OutputFault) }
        ensures settled { Settles self.old self.new stopped result }
        ensures faults { CountsFinish self.old self.new stopped result }
    {
        match stopped {
            End::InputFault | End::OutputFault => stopped,
            _ => match self.flush() {
                Ok(()) => stopped,
                Err(_) => End::OutputFault,
            },
        }
    }
}

impl<I: Source, O: Sink, K: Lent> Sink for Console<'_, '_, I, O, K> {
    ghost use Rattle.std.specs.Prelude.{◌++◌, Some};
    ghost use Rattle.flat_machine.specs.Noting.{told};

    ghost taken = { λ s. Some (told (I.faults s.input.now) (s.done.notes ++ s.page.notes)) };

    ghost faults = { λ s. O.faults s.out.now };

    fn put(&mut self, bytes: &[u8]) -> Result<usize, Failed> {
        self.make_room()?;
        Ok(self.page.put_all(bytes))
    }
}
