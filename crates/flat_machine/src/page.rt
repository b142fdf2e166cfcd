//! Notes that wait.

ghost use Rattle.std.specs.Prelude.{◌≡◌, ◌<◌, ◌≤◌, ◌+◌, ◌++◌, [], ◌∷◌, IsTrue, false, drop, length, take};
ghost use Rattle.flat_machine.specs.Noting.{bytes_put, mark, reads_in};
ghost use Rattle.flat_machine.specs.Noted.{numbers};

use crate::note::Note;
use std::marker::Model;

/// For how many notes a page has room.
const ROOM: usize = 4096;

/// How many bytes are put at once at most.
pub(crate) const CHUNK: usize = 1024;

/// Some notes at the front of others: how many they are, and how many bytes are read among them.
#[derive(Clone, Copy)]
pub(crate) struct Front {
    pub(crate) count: usize,
    pub(crate) reads: usize,
}

/// A byte is below 256.
fn is_byte(_byte: u8)
    ensures { _byte < 256 }
{}

/// The first bytes that are put, as many as there is room for, and how many they are.
pub(crate) fn first_bytes(notes: &[Note], chunk: &mut [u8; CHUNK]) -> usize
    ensures bound { result ≤ length chunk.new }
    ensures bytes { take result chunk.new ≡ take result (bytes_put (numbers notes.now)) }
    ensures none { result ≡ 0 → bytes_put (numbers notes.now) ≡ [] }
{
    let mut count = 0;
    for i in 0..notes.len() {
        let note = notes[i];
        if let Note::Put(byte) = note {
            is_byte(byte);
            if count == CHUNK {
                return count;
            }
            chunk[count] = byte;
            count += 1;
        }
    }
    count
}

/// The notes in front of the byte behind so many.
pub(crate) fn front_of(notes: &[Note], bytes: usize) -> Front
    ensures within { result.count ≤ length notes.now }
    ensures bytes { bytes_put (numbers (take result.count notes.now)) ≡ take bytes (bytes_put (numbers notes.now)) }
    ensures reads { result.reads ≡ reads_in (numbers (take result.count notes.now)) }
    ensures next { bytes_put (numbers (drop result.count notes.now)) ≡ [] → drop result.count notes.now ≡ [] }
{
    let mut passed = 0;
    let mut reads = 0;
    for i in 0..notes.len() {
        let note = notes[i];
        match note {
            Note::Read => reads += 1,
            Note::Put(byte) => {
                is_byte(byte);
                if passed == bytes {
                    return Front { count: i, reads };
                }
                passed += 1;
            }
        }
    }
    Front {
        count: notes.len(),
        reads,
    }
}

/// Notes that wait, in their order.
#[derive(Drop)]
pub(crate) struct Page {
    notes: [Note; ROOM],
    start: usize,
    end: usize,
    /// How many of the bytes are read.
    reads: usize,
}

impl Model for Page {
    ghost use Rattle.std.specs.Prelude.{◌≡◌, ◌-◌, ◌≤◌, drop, take};
    ghost use Rattle.flat_machine.specs.Noting.{Waiting, reads_in};
    ghost use Rattle.flat_machine.specs.Noted.{numbers};

    ghost Value = { Waiting };

    ghost view = { λ p. record { notes = numbers (drop p.start (take p.end p.notes)); room = 4096 - p.end } };

    ghost invariant = { λ p. (p.start ≤ p.end) × (p.end ≤ 4096) × (p.reads ≡ reads_in (numbers (drop p.start (take p.end p.notes)))) };
}

impl Page {
    /// No notes.
    pub(crate) fn new() -> Page
        ensures { result ≡ record { notes = []; room = 4096 } }
    {
        Page {
            notes: [Note::Read; ROOM],
            start: 0,
            end: 0,
            reads: 0,
        }
    }

    /// Whether there is no room for another note.
    pub(crate) fn is_full(&self) -> bool
        ensures yes { IsTrue result → self.now.room ≡ 0 }
        ensures no { result ≡ false → 0 < self.now.room }
    {
        self.end == ROOM
    }

    /// How many of the bytes that wait are read.
    pub(crate) fn reads(&self) -> usize
        ensures { result ≡ reads_in self.now.notes }
    {
        self.reads
    }

    /// The notes.
    pub(crate) fn notes(&self) -> &[Note]
        ensures { numbers result.now ≡ self.now.notes }
    {
        &self.notes[..self.end][self.start..]
    }

    /// Notes a byte that is put.
    pub(crate) fn put(&mut self, byte: u8)
        requires { 0 < self.old.room }
        ensures notes { self.new.notes ≡ self.old.notes ++ byte ∷ [] }
        ensures room { self.new.room + 1 ≡ self.old.room }
        ensures reads { reads_in self.new.notes ≡ reads_in self.old.notes }
    {
        self.notes[self.end] = Note::Put(byte);
        self.end += 1;
    }

    /// Notes the first bytes that are put, as many as there is room for, and answers how many.
    pub(crate) fn put_all(&mut self, bytes: &[u8]) -> usize
        ensures bound { result ≤ length bytes.now }
        ensures some { 0 < self.old.room → 0 < length bytes.now → 0 < result }
        ensures notes { self.new.notes ≡ self.old.notes ++ take result bytes.now }
        ensures reads { reads_in self.new.notes ≡ reads_in self.old.notes }
    {
        let count = bytes.len().min(ROOM - self.end);
        for i in 0..count {
            self.put(bytes[i]);
        }
        count
    }

    /// Notes a byte that is read.
    pub(crate) fn read(&mut self)
        requires { 0 < self.old.room }
        ensures notes { self.new.notes ≡ self.old.notes ++ mark ∷ [] }
        ensures reads { reads_in self.new.notes ≡ reads_in self.old.notes + 1 }
    {
        self.notes[self.end] = Note::Read;
        self.end += 1;
        self.reads += 1;
    }

    /// Drops the notes of a front.
    pub(crate) fn pass(&mut self, front: Front)
        requires within { front.count ≤ length self.old.notes }
        requires reads { front.reads ≡ reads_in (take front.count self.old.notes) }
        ensures notes { self.new.notes ≡ drop front.count self.old.notes }
        ensures room { self.new.notes ≡ [] → self.new.room ≡ 4096 }
    {
        self.start += front.count;
        self.reads -= front.reads;
        if self.start == self.end {
            self.start = 0;
            self.end = 0;
        }
    }
}
