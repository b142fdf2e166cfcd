//! Whole code files.

ghost use Rattle.std.specs.Prelude.{◌≡◌, ◌++◌, IfOk, length, codes};
ghost use Rattle.code_file.specs.declared.file.CodeError.TheVariants as error;
ghost use Rattle.code_file.specs.declared.file.CodeFile.{CodeFile};
ghost use Rattle.code_file.specs.CodeFile.{HasBytes, IsFileOf, IsWritable, spelling};
ghost use Rattle.code_file.specs.Spelling.{Reads};
ghost use Rattle.code_file.specs.Parts.{FitsFile, FitsNames, names_bytes};

use crate::file::{CodeError, CodeFile};
use crate::names::read_list_beside;
use crate::part::{Part, Spelled};
use crate::reader::Reader;
use core_tree::{Core, Static};
use flat_code::Code;
use hs_base::{Items, NoMemory};
use std::alloc::Global;

/// What a code file begins with.
const MAGIC: &[u8] = b"HSCODE01";

/// The bytes of a code file. Its numbers are those of their types, so [`read_code`] gives the file back.
///
/// # Errors
///
/// [`NoMemory`], where there is none for the bytes.
pub fn write_code(alloc: Global, file: &CodeFile) -> Result<Items<u8>, NoMemory>
    requires { IsWritable file.now }
    ensures { IfOk result (λ bytes. HasBytes bytes file.now) }
{
    let mut text = Vec::new(alloc);
    text.extend_from_slice(MAGIC)?;
    file.code.write(&mut text)?;
    file.names.statics.write(&mut text)?;
    file.names.funcs.write(&mut text)?;
    Ok(Items::from(text))
}

/// Takes what a code file begins with.
fn take_magic(reader: &mut Reader) -> Result<(), CodeError>
    ensures { Reads (λ _. Unit {0}) (λ _. codes "HSCODE01") reader.old reader.new result }
{
    let front = reader.take(MAGIC.len())?;
    if front != MAGIC {
        return Err(CodeError::Form);
    }
    Ok(())
}

/// Reads the names of a code.
fn read_names(code: &Code, reader: &mut Reader) -> Result<Core, CodeError>
    ensures { Reads (FitsNames code.now) names_bytes reader.old reader.new result }
{
    let statics = <Items<Static>>::read(reader)?;
    if statics.len() != code.statics.len() {
        return Err(CodeError::Form);
    }
    let funcs = read_list_beside(code.funcs.as_slice(), reader)?;
    Ok(Core { statics, funcs })
}

/// Reads a code file at the front.
fn read_file(reader: &mut Reader) -> Result<CodeFile, CodeError>
    ensures { Reads FitsFile spelling reader.old reader.new result }
{
    take_magic(reader)?;
    let code = Code::read(reader)?;
    let names = read_names(&code, reader)?;
    Ok(CodeFile { code, names })
}

/// The code file of bytes. It is the only one that has these bytes.
///
/// # Errors
///
/// [`CodeError::Form`], exactly where no code file has these bytes, and [`CodeError::NoMemory`].
pub fn read_code(alloc: Global, bytes: &[u8]) -> Result<CodeFile, CodeError>
    ensures file { IfOk result (IsFileOf bytes.now) }
    ensures form { result ≡ Err error.Form → (file : CodeFile) → HasBytes bytes.now file → ⊥ }
{
    let mut reader = Reader::new(alloc, bytes);
    let file = read_file(&mut reader)?;
    if !reader.is_at_end() {
        return Err(CodeError::Form);
    }
    Ok(file)
}
