//! Strings as initializers of character arrays (C99 6.7.8 paragraph 14).

ghost use Rattle.std.specs.Prelude.{◌≡◌, ◌+◌, IfOk, length, min, take};
ghost use Rattle.c_types.specs.Types.{plain};
ghost use Rattle.c_tree.specs.View.{literal_leaves};
ghost use Rattle.c_tree.specs.StatementView.{expr_view};
ghost use Rattle.c_decls.specs.Expressions.{joined, string};
ghost use Rattle.c_decls.specs.Refusals.{Meets, then};
ghost use Rattle.elaboration.specs.Initializers as rules;
ghost use Rattle.elab_statements.specs.PlainTarget.{plain_target, Fills};
ghost use Rattle.elab_statements.specs.Initializing.{fill_text};

use crate::starts::with_bytes;
use crate::targets::{Target, member_place};
use c_decls::{TypeError, TypeKind, refused};
use c_tree::Expr;
use c_types::{CType, IntType};
use c_typing::{joined, string};
use core_tree::{Atom, Start, StmKind};
use elab_base::Elaborator;
use elab_values::opened;
use hs_base::{Items, Line, NoMemory};

/// Whether a type is one of the three character types.
pub(crate) fn is_character(ty: &CType) -> bool
    ensures { result ≡ rules.is_character (plain ty.now) }
{
    match ty {
        CType::Int(IntType::Char | IntType::SChar | IntType::UChar) => true,
        CType::Int(_)
        | CType::Void
        | CType::Pointer(_)
        | CType::Array(_, _)
        | CType::Struct(_)
        | CType::Union(_)
        | CType::Function(_) => false,
    }
}

/// How many bytes of a string with its zero stand in an array of this size.
fn copied_bytes(bytes: &[u8], size: u32) -> Result<u64, NoMemory>
    ensures { IfOk result (λ count. count ≡ min (length bytes.now + 1) size) }
{
    let whole = (bytes.len() as u64).checked_add(1).ok_or(NoMemory)?;
    Ok(whole.min(u64::from(size)))
}

/// Copies a string that has a static to a memory local.
fn copy_text(
    state: &mut Elaborator,
    line: Line,
    mem: u32,
    offset: u32,
    size: u64,
    object: u32,
) -> Result<Target, TypeError>
    ensures { Fills state.new result (rules.copy_text line mem offset size (state.old, object)) }
{
    let place = member_place(state, line, mem, offset)?;
    let size = i128::from(size);
    state.emit(line, StmKind::Copy(place, Atom::Static(object), size))?;
    Ok(Target::Memory(line, mem))
}

/// Puts a string that is cut to a size at an offset of a static.
fn put_text(bytes: Items<u8>, size: u32, offset: u32, start: &mut Start) -> Result<(), NoMemory>
    ensures { IfOk result (λ _. start.new ≡ rules.with_bytes start.old offset (take size bytes)) }
{
    let mut bytes = bytes.into_vec();
    bytes.truncate(size as usize);
    with_bytes(start, offset, &bytes)
}

/// An array of a character type and of this size, by a string that is cut to it.
pub(crate) fn fill_text(
    state: &mut Elaborator,
    e: &Expr,
    line: Line,
    literals: &[Items<u8>],
    size: u32,
    offset: u32,
    target: Target,
) -> Result<Target, TypeError>
    ensures { Fills state.new result (fill_text e.now line literals.now size offset target state.old) }
{
    let bytes = joined(state.alloc(), literals)?;
    string(state.alloc(), line, bytes.as_slice())?;
    match target {
        Target::Memory(at, mem) => {
            opened(state, e)?;
            let count = copied_bytes(bytes.as_slice(), size)?;
            let object = state.with_literal(line, bytes)?;
            copy_text(state, at, mem, offset, count, object)
        }
        Target::Static(mut start) => {
            put_text(bytes, size, offset, &mut start)?;
            Ok(Target::Static(start))
        }
        Target::Register(_, _) => refused(TypeKind::Assignment, line),
    }
}
