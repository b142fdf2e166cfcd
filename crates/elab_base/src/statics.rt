//! Statics, and what a function keeps of its calls.

ghost use Rattle.std.specs.Prelude.{◌≡◌, ◌++◌, ◌∷◌, ◌+◌, [], IfOk, length, is_some, slice_get};
ghost use Rattle.hs_base.specs.Place.{block_size};
ghost use Rattle.elaboration.specs.Calls.{with_format};
ghost use Rattle.elaboration.specs.Operations.{static_size};
ghost use Rattle.elaboration.specs.Rules.{is_inner, with_static, with_literal};
ghost use Rattle.elab_base.specs.Changes.{with_call};
ghost use Rattle.elab_base.specs.Outcomes.{Becomes, Gives};
ghost use Rattle.c_decls.specs.Refusals.{Meets};

use crate::elaborator::Elaborator;
use crate::numbers::fit;
use c_decls::{TypeError, TypeKind, refused};
use hs_base::{Items, Line, NoMemory};

/// The bytes that the blocks of statics may take together.
const MOST_BYTES: u64 = 67_108_864;

/// The bytes of the block of an object: a header of 32, the object and one byte more, rounded up to 16.
fn block_size(size: u64) -> Result<u64, NoMemory>
    ensures { IfOk result (λ bytes. bytes ≡ block_size size) }
{
    let rounded = size.checked_add(16).ok_or(NoMemory)? / 16 * 16;
    rounded.checked_add(32).ok_or(NoMemory)
}

impl Elaborator {
    /// Whether a name is declared inside a function.
    pub fn is_inner(&self, name: &[u8]) -> bool
        ensures { result ≡ is_inner self.now name.now }
    {
        self.scopes.is_inner(name)
    }

    /// Counts the block of a static of so many bytes, unless the statics would be too large together.
    pub fn with_static(&mut self, line: Line, size: u64) -> Result<(), TypeError>
        ensures { Becomes self.new result (with_static line size self.old) }
    {
        let block = block_size(size)?;
        let bytes = u64::from(self.static_bytes)
            .checked_add(block)
            .ok_or(NoMemory)?;
        if bytes > MOST_BYTES {
            return refused(TypeKind::StaticTooLarge, line);
        }
        self.static_bytes = bytes as u32;
        Ok(())
    }

    /// Adds a string literal that stands for an object, and answers its static (C99 6.4.5).
    pub fn with_literal(&mut self, line: Line, bytes: Items<u8>) -> Result<u32, TypeError>
        ensures { Gives self.new result (with_literal line bytes self.old) }
    {
        let size = (bytes.len() as u64).checked_add(1).ok_or(NoMemory)?;
        self.with_static(line, size)?;
        let number = fit(self.literals.len())?;
        let static_number = number.checked_mul(2).ok_or(NoMemory)?;
        let static_number = static_number.checked_add(1).ok_or(NoMemory)?;
        self.literals.push(bytes)?;
        Ok(static_number)
    }

    /// The size of a static: that of a variable, or that of a literal with its zero.
    pub fn static_size(&self, number: u32) -> Result<u64, NoMemory>
        ensures { IfOk result (λ size. size ≡ static_size self.now number) }
    {
        let place = (number / 2) as usize;
        if number % 2 == 0 {
            match self.variables.get(place) {
                Some(variable) => Ok(u64::from(variable.layout().size)),
                None => Ok(0),
            }
        } else {
            match self.literals.get(place) {
                Some(bytes) => (bytes.len() as u64).checked_add(1).ok_or(NoMemory),
                None => Ok(0),
            }
        }
    }

    /// Keeps a call of a declared function with its line.
    pub fn keep_call(&mut self, function: u32, line: Line) -> Result<(), NoMemory>
        ensures { IfOk result (λ _. self.new ≡ with_call function line self.old) }
    {
        self.calls.push((function, line))?;
        Ok(())
    }

    /// How many formats the running function has.
    pub fn format_count(&self) -> Result<u32, NoMemory>
        ensures { IfOk result (λ count. count ≡ length self.now.running.formats) }
    {
        self.running.format_count()
    }

    /// Adds a format to the running function.
    pub fn add_format(&mut self, bytes: Items<u8>) -> Result<(), NoMemory>
        ensures { IfOk result (λ _. self.new ≡ with_format bytes self.old) }
    {
        self.running.add_format(bytes)
    }
}
