//! What is initialized, and the code that initializes it with values in hand.

ghost use Rattle.std.specs.Prelude.{◌≡◌, IfOk};
ghost use Rattle.c_types.specs.Types.{plain};
ghost use Rattle.c_tree.specs.StatementView.{expr_view};
ghost use Rattle.c_decls.specs.Typed.{plain_typed};
ghost use Rattle.elab_base.specs.Marks.{cut};
ghost use Rattle.elaboration.specs.Initializers.{member_place, store_at, copy_to, not_whole, is_same_place};
ghost use Rattle.elab_statements.specs.PlainTarget.{plain_target, Fills};
ghost use Rattle.elab_base.specs.Outcomes.{Emits, at};
ghost use Rattle.c_decls.specs.Refusals.{Meets};
ghost use Rattle.elab_base.specs.PlainFound.{plain_found};
ghost use Rattle.elab_statements.specs.Initializing.{fill_record, fill_scalar, scalar, whole};

use crate::starts::static_scalar;
use c_decls::{TypeError, TypeKind, Typed, is_record, is_same, refused};
use c_tree::Expr;
use c_types::CType;
use c_typing::unconverted;
use core_tree::{Atom, Start, StmKind};
use elab_base::{Elaborator, Found, Mark, Spot};
use elab_values::{closed, found, opened, value_of};
use hs_base::{Line, NoMemory};

/// A local in a register, a memory local, or a static with what is known of its start so far; of a local also the line.
#[derive(Drop)]
pub enum Target {
    Register(Line, u32),
    Memory(Line, u32),
    Static(Start),
}

/// The address of what stands at an offset of a memory local.
pub(crate) fn member_place(
    state: &mut Elaborator,
    line: Line,
    mem: u32,
    offset: u32,
) -> Result<Atom, NoMemory>
    ensures { Emits state.new result (member_place line mem offset state.old) }
{
    let to = state.take_pointer()?;
    state.emit(line, StmKind::Off(to, Atom::Mem(mem), i128::from(offset)))?;
    Ok(Atom::Reg(to))
}

/// A scalar, once its value is in hand, whose code stands behind the mark: converted and written to a local, or what a
/// static holds.
fn fill_scalar(
    state: &mut Elaborator,
    e: &Expr,
    line: Line,
    ty: &CType,
    offset: u32,
    before: Mark,
    found: &Found,
    target: Target,
) -> Result<Target, TypeError>
    ensures { Fills state.new result (fill_scalar e.now line ty.now offset before found.now target state.old) }
{
    match target {
        Target::Register(at, register) => {
            let value = state.convert(at, before, ty, &found.typed.ty, found.atom())?;
            state.write(at, ty, Spot::Local(register), value)?;
            closed(state, e)?;
            Ok(Target::Register(at, register))
        }
        Target::Memory(at, mem) => {
            let value = state.convert(at, before, ty, &found.typed.ty, found.atom())?;
            let place = member_place(state, at, mem, offset)?;
            state.write(at, ty, Spot::Memory(place), value)?;
            closed(state, e)?;
            Ok(Target::Memory(at, mem))
        }
        Target::Static(mut start) => {
            static_scalar(line, ty, offset, &mut start, found)?;
            Ok(Target::Static(start))
        }
    }
}

/// A scalar by an expression.
#[tactic(auto, using(crate::proofs::Cuts::cut_value))]
pub(crate) fn scalar(
    state: &mut Elaborator,
    e: &Expr,
    line: Line,
    ty: &CType,
    offset: u32,
    target: Target,
) -> Result<Target, TypeError>
    ensures { Fills state.new result (scalar e.now line ty.now offset target state.old) }
{
    opened(state, e)?;
    let before = state.mark();
    let found = value_of(state, e, ty)?;
    match unconverted(ty, &found.typed) {
        Some(kind) => refused(kind, line),
        None => fill_scalar(state, e, line, ty, offset, before, &found, target),
    }
}

/// A struct or union by a place of the same one, which is copied to a local; a static holds no such value.
fn fill_record(
    state: &mut Elaborator,
    e: &Expr,
    line: Line,
    ty: &CType,
    offset: u32,
    found: &Found,
    target: Target,
) -> Result<Target, TypeError>
    ensures { Fills state.new result (fill_record e.now line ty.now offset found.now target state.old) }
{
    match target {
        Target::Memory(at, mem) => {
            let place = member_place(state, at, mem, offset)?;
            let size = state.size_or_zero(ty)?;
            state.emit(at, StmKind::Copy(place, found.atom(), i128::from(size)))?;
            closed(state, e)?;
            Ok(Target::Memory(at, mem))
        }
        Target::Register(_, _) | Target::Static(_) => refused(TypeKind::NotConstant, line),
    }
}

/// Why an expression is no place of a struct or union: an assignment has no value at all.
fn not_whole(e: &Typed) -> TypeKind
    ensures { result ≡ not_whole (plain_typed e.now) }
{
    if e.has_no_value() {
        TypeKind::Operands
    } else {
        TypeKind::Assignment
    }
}

/// A struct, union or array by an expression, which must be a place of this struct or union.
pub(crate) fn whole(
    state: &mut Elaborator,
    e: &Expr,
    line: Line,
    ty: &CType,
    offset: u32,
    target: Target,
) -> Result<Target, TypeError>
    ensures { Fills state.new result (whole e.now line ty.now offset target state.old) }
{
    opened(state, e)?;
    let found = found(state, e, ty)?;
    if !(found.typed.is_place && is_record(ty) && is_same(ty, &found.typed.ty)) {
        return refused(not_whole(&found.typed), line);
    }
    fill_record(state, e, line, ty, offset, &found, target)
}
