//! Local names (C99 6.2.4, 6.7.8).

ghost use Rattle.std.specs.Prelude.{◌≡◌, IfOk, option_copied};
ghost use Rattle.c_types.specs.Types.{plain};
ghost use Rattle.elab_base.specs.PlainFound.{plain_spot};
ghost use Rattle.elaboration.specs.Declarations as rules;
ghost use Rattle.elab_statements.specs.GivenLengths.{held};
ghost use Rattle.elab_statements.specs.PlainStorage.{plain_storage};
ghost use Rattle.elab_base.specs.Outcomes.{Becomes};
ghost use Rattle.c_decls.specs.Refusals.{Meets};
ghost use Rattle.elab_statements.specs.Declaring.{fill_at, fill_memory, fill_register, local_name, local_object};

use crate::braces::initialize;
use crate::targets::Target;
use crate::words::Storage;
use c_decls::{LayeredType, Named, TypeError, TypeKind, has_no_size, is_function, refused};
use c_tree::Init;
use c_types::CType;
use core_tree::{Atom, StmKind};
use elab_base::{Elaborator, Spot};
use hs_base::{Line, NoMemory};

/// What a register local without an initializer holds: zero or null.
fn zero_of(ty: &CType) -> Atom
    ensures { result ≡ rules.zero_of (plain ty.now) }
{
    match ty {
        CType::Pointer(_) => Atom::Null,
        CType::Void
        | CType::Int(_)
        | CType::Array(_, _)
        | CType::Struct(_)
        | CType::Union(_)
        | CType::Function(_) => Atom::Int(0),
    }
}

/// Clears a memory local.
fn cleared(state: &mut Elaborator, line: Line, ty: &CType, mem: Atom) -> Result<(), NoMemory>
    ensures { IfOk result (λ _. state.new ≡ rules.cleared line (plain ty.now) mem state.old) }
{
    let size = state.size_or_zero(ty)?;
    state.emit(line, StmKind::Clear(mem, i128::from(size)))
}

/// Fills a memory local, which is cleared first.
fn fill_memory(
    state: &mut Elaborator,
    line: Line,
    ty: &CType,
    init: Option<&Init>,
    mem: Atom,
) -> Result<(), TypeError>
    ensures { Becomes state.new result (fill_memory line ty.now init.entry mem state.old) }
{
    cleared(state, line, ty, mem)?;
    match init {
        None => Ok(()),
        Some(init) => match mem {
            Atom::Mem(number) => {
                let _ = initialize(state, init, false, ty, 0, Target::Memory(line, number))?;
                Ok(())
            }
            Atom::Reg(_) | Atom::Int(_) | Atom::Null | Atom::Static(_) => Ok(()),
        },
    }
}

/// Fills a register local.
fn fill_register(
    state: &mut Elaborator,
    line: Line,
    ty: &CType,
    init: Option<&Init>,
    register: u32,
) -> Result<(), TypeError>
    ensures { Becomes state.new result (fill_register line ty.now init.entry register state.old) }
{
    match init {
        None => {
            state.emit(line, StmKind::Set(register, zero_of(ty)))?;
            Ok(())
        }
        Some(init) => {
            let _ = initialize(state, init, false, ty, 0, Target::Register(line, register))?;
            Ok(())
        }
    }
}

/// Fills a local where it is.
fn fill_at(
    state: &mut Elaborator,
    line: Line,
    ty: &CType,
    init: Option<&Init>,
    spot: Spot,
) -> Result<(), TypeError>
    ensures { Becomes state.new result (fill_at line ty.now init.entry spot state.old) }
{
    match spot {
        Spot::Local(register) => fill_register(state, line, ty, init, register),
        Spot::Memory(mem) => fill_memory(state, line, ty, init, mem),
        Spot::Value(_) | Spot::Empty => Ok(()),
    }
}

/// A local of a type: no function, of a known size, not there yet; then its initializer. Locals stand inside functions
/// alone: outside, where a name may come again, there is no memory for one.
#[tactic(auto, using(crate::proofs::Again::inner_again, crate::proofs::Again::not_again, crate::proofs::Again::none_there))]
fn local_object(
    state: &mut Elaborator,
    line: Line,
    name: &[u8],
    ty: CType,
    init: Option<&Init>,
) -> Result<(), TypeError>
    ensures { Becomes state.new result (local_object line name.now ty init.entry state.old) }
{
    if is_function(&ty) {
        return refused(TypeKind::LeftOut, line);
    }
    if has_no_size(state.tags(), &ty) {
        return refused(TypeKind::Incomplete, line);
    }
    if state.is_declared(Some(name)) {
        if !state.is_inner(name) {
            return Err(TypeError::NoMemory);
        }
        return refused(TypeKind::DeclaredTwice, line);
    }
    let spot = state.with_local(name, ty)?;
    fill_at(state, line, &ty, init, spot)
}

/// A local name: of a type, or of a local, which is not `static` or `extern`.
pub(crate) fn local_name(
    state: &mut Elaborator,
    line: Line,
    storage: Storage,
    name: &[u8],
    ty: LayeredType,
    init: Option<&Init>,
) -> Result<(), TypeError>
    ensures { Becomes state.new result (local_name line storage name.now ty init.entry state.old) }
{
    match storage {
        Storage::Typedef => state.declared_as(line, name, Named::Typedef { ty }),
        Storage::Outside => refused(TypeKind::LeftOut, line),
        Storage::Plain => local_object(state, line, name, ty.ty(), init),
    }
}
