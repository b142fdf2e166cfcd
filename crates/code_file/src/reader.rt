//! Where a reader of a code file stands.

ghost use Rattle.std.specs.Prelude.{◌≡◌, ◌==◌, ◌<◌, ◌++◌, length, IfErr, IfOk};
ghost use Rattle.code_file.specs.declared.file.CodeError.TheVariants as error;
ghost use Rattle.code_file.specs.Spelling.{IsByte, Reads, byte};

use crate::file::CodeError;
use std::alloc::Global;
use std::marker::Model;

/// The bytes that are left to read.
#[derive(Drop)]
pub(crate) struct Reader<'a> {
    alloc: Global,
    left: &'a [u8],
}

impl<'a> Model for Reader<'a> {
    ghost use Rattle.std.specs.Prelude.{ℕ, List};

    ghost Value = { List ℕ };

    ghost view = { λ reader. reader.left.now };
}

impl<'a> Reader<'a> {
    /// In front of these bytes.
    pub(crate) fn new(alloc: Global, bytes: &'a [u8]) -> Reader<'a>
        ensures { result ≡ bytes.now }
    {
        Reader { alloc, left: bytes }
    }

    /// Where memory is taken.
    pub(crate) fn alloc(&self) -> Global {
        self.alloc
    }

    /// Says whether nothing is left.
    pub(crate) fn is_at_end(&self) -> bool
        ensures { result ≡ (length self.now == 0) }
    {
        self.left.is_empty()
    }

    /// Takes the next byte.
    pub(crate) fn next(&mut self) -> Result<u8, CodeError>
        ensures { Reads IsByte byte self.old self.new result }
    {
        match self.left {
            [first, rest @ ..] => {
                self.left = rest;
                Ok(*first)
            }
            [] => Err(CodeError::Form),
        }
    }

    /// Takes so many bytes.
    pub(crate) fn take(&mut self, count: usize) -> Result<&'a [u8], CodeError>
        ensures some { IfOk result (λ bytes. (length bytes.now ≡ count) × (self.old ≡ bytes.now ++ self.new)) }
        ensures none { IfErr result (λ e. (e ≡ error.Form) × (length self.old < count)) }
    {
        if self.left.len() < count {
            return Err(CodeError::Form);
        }
        let (front, rest) = self.left.split_at(count);
        self.left = rest;
        Ok(front)
    }
}
