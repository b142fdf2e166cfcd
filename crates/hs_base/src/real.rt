//! The real files and streams. This is the trusted edge: nothing is told of what they hold, give or take.

ghost use Rattle.std.specs.Prelude.{◌≡◌, ◌≤◌, ℕ, None, IfOk, take, drop, length};

use crate::outside::{Failed, Sink, Source, Texts};
use std::fs::File;
use std::io::{Read, Seek, SeekFrom, Write};
use std::rt::Files;

/// A file that is open, and the place that it was read to.
#[derive(Drop)]
struct Opened<F: Read + Seek + Drop> {
    file: F,
    name: [u8; 4096],
    length: usize,
    place: u64,
    ghost inside: { length ≤ 4096 },
}

impl<F: Read + Seek + Drop> Opened<F> {
    /// Whether the next byte that is read is the one at this place of the file of this name.
    fn is_at(&self, name: &[u8], place: u64) -> bool {
        self.place == place && &self.name[..self.length] == name
    }
}

/// Opens a file and goes to a place of it: nowhere where that is its start, so that a pipe can be read.
fn open_at<R: Files>(files: &R, name: &str, place: u64) -> std::io::Result<Opened<R::File>> {
    let mut file = File::open(files, name)?;
    if place > 0 {
        file.seek(SeekFrom::Start(place))?;
    }
    let mut kept = [0; 4096];
    let length = name.len().min(kept.len());
    kept[..length].copy_from_slice(&name.as_bytes()[..length]);
    Ok(Opened {
        file,
        name: kept,
        length,
        place,
    })
}

/// Files by path. The one that was read last stays open and is read on where the next piece of it begins there. For any other piece
/// its file is opened and gone to the place.
#[derive(Drop)]
pub struct FileTexts<R: Files + Drop> {
    files: R,
    open: Option<Opened<R::File>>,
    faults: u64,
}

impl<R: Files + Drop> FileTexts<R> {
    /// The files that this runtime opens.
    pub fn new(files: R) -> FileTexts<R>
        ensures { result.faults ≡ 0 }
    {
        FileTexts {
            files,
            open: None,
            faults: 0,
        }
    }

    /// Reads from a place of a file. After a failure no file is open.
    fn read_at(&mut self, name: &str, place: u64, buffer: &mut [u8]) -> std::io::Result<usize>
        ensures bound { IfOk result (λ n. n ≤ length buffer.new) }
        ensures faults { self.new.faults ≡ self.old.faults }
    {
        let mut open = match self.open.take() {
            Some(open) if open.is_at(name.as_bytes(), place) => open,
            _ => open_at(&self.files, name, place)?,
        };
        let n = open.file.read(buffer)?;
        open.place = open.place.saturating_add(n as u64);
        self.open = Some(open);
        Ok(n)
    }
}

impl<R: Files + Drop> Texts for FileTexts<R> {
    ghost texts = { λ _. None };

    ghost faults = { λ s. s.faults };

    fn piece(&mut self, name: &str, place: u64, buffer: &mut [u8]) -> Result<usize, Failed> {
        match self.read_at(name, place, buffer) {
            Ok(n) => Ok(n),
            Err(_) => {
                self.faults += 1;
                Err(Failed)
            }
        }
    }
}

/// A reader, as standard input, read a chunk at a time.
#[derive(Drop)]
pub struct StdSource<R: Read + Drop> {
    reader: R,
    chunk: [u8; 4096],
    next: usize,
    end: usize,
    faults: u64,
    ghost inside: { end ≤ 4096 },
    ghost order: { next ≤ end },
}

impl<R: Read + Drop> StdSource<R> {
    /// What this reader gives.
    pub fn new(reader: R) -> StdSource<R>
        ensures { result.faults ≡ 0 }
    {
        StdSource {
            reader,
            chunk: [0; 4096],
            next: 0,
            end: 0,
            faults: 0,
        }
    }
}

impl<R: Read + Drop> Source for StdSource<R> {
    ghost left = { λ _. None };

    ghost faults = { λ s. s.faults };

    ghost fetched = { λ s. drop s.next (take s.end s.chunk) };

    fn next(&mut self) -> Result<Option<u8>, Failed> {
        if self.next >= self.end {
            match self.reader.read(&mut self.chunk) {
                Ok(n) => {
                    self.next = 0;
                    self.end = n;
                }
                Err(_) => {
                    self.faults += 1;
                    return Err(Failed);
                }
            }
        }
        if self.next < self.end {
            let byte = self.chunk[self.next];
            self.next += 1;
            Ok(Some(byte))
        } else {
            Ok(None)
        }
    }

    fn ready(&self) -> &[u8] {
        &self.chunk[..self.end][self.next..]
    }

    fn skip(&mut self, count: usize) {
        self.next += count;
    }
}

/// A writer, as standard output or error, flushed at each call. A write that takes nothing is a fault.
#[derive(Drop)]
pub struct StdSink<W: Write + Drop> {
    writer: W,
    faults: u64,
}

impl<W: Write + Drop> StdSink<W> {
    /// Writes to this writer.
    pub fn new(writer: W) -> StdSink<W>
        ensures { result.faults ≡ 0 }
    {
        StdSink { writer, faults: 0 }
    }

    /// Writes and flushes.
    fn write(&mut self, bytes: &[u8]) -> std::io::Result<usize>
        ensures bound { IfOk result (λ n. n ≤ length bytes.now) }
        ensures faults { self.new.faults ≡ self.old.faults }
    {
        let n = self.writer.write(bytes)?;
        self.writer.flush()?;
        Ok(n)
    }
}

impl<W: Write + Drop> Sink for StdSink<W> {
    ghost taken = { λ _. None };

    ghost faults = { λ s. s.faults };

    fn put(&mut self, bytes: &[u8]) -> Result<usize, Failed> {
        match self.write(bytes) {
            Ok(n) if n > 0 => Ok(n),
            _ => {
                self.faults += 1;
                Err(Failed)
            }
        }
    }
}
