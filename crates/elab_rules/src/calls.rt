//! The statement of a function that is called, and the layouts of the elements that it makes (C99 6.5.2.2, 7.20.3).

ghost use Rattle.std.specs.Prelude.{◌≡◌, ℕ, List, Option, IfOk, map, option_map, slice_index_or, unwrap_or, drop};
ghost use Rattle.c_types.specs.Types.{plain};
ghost use Rattle.c_types.specs.Layouts.{number_layout};
ghost use Rattle.c_decls.specs.Named.{PlainNamed, plain_named};
ghost use Rattle.elab_base.specs.PlainFound.{plain_spot};
ghost use Rattle.elaboration.specs.Calls.{Argument as PlainArgument, atoms_of, element_layout, lib_name, printing, call_built_in, call_named};
ghost use Rattle.elab_rules.specs.PlainArguments.{plain_argument, called_of, register_for, spot_of};
ghost use Rattle.elab_base.specs.Outcomes.{Emits, Locates};
ghost use Rattle.elab_rules.specs.Steps.{CallsBuiltIn, CallsNamed};

use c_decls::{BuiltIn, Named, Typed};
use c_types::{CType, Layout, Tags};
use core_tree::{Atom, LibName, StmKind};
use elab_base::{Elaborator, Spot, layout_in};
use hs_base::{Items, Line, NoMemory};
use std::alloc::Global;

/// An argument with its type.
#[derive(Drop)]
pub struct Argument {
    pub typed: Typed,
    pub atom: Atom,
}

/// What a call's name means: a function with its number, a built-in name, or nothing that is called.
#[derive(Clone, Copy)]
pub enum Called {
    Function(u32),
    BuiltIn(BuiltIn),
    Nothing,
}

impl Called {
    /// What a name means.
    pub fn of(named: Option<&Named>) -> Called
        ensures { result ≡ called_of (option_map (λ n. plain_named n.now) named.entry) }
    {
        match named {
            Some(Named::Function { index, .. }) => Called::Function(*index),
            Some(Named::BuiltIn { index }) => match BuiltIn::numbered(*index) {
                Some(name) => Called::BuiltIn(name),
                None => Called::Nothing,
            },
            Some(
                Named::Object { .. }
                | Named::Register { .. }
                | Named::Typedef { .. }
                | Named::Constant { .. }
                | Named::Tag { .. },
            )
            | None => Called::Nothing,
        }
    }
}

/// The operands of arguments.
pub fn atoms_of(alloc: Global, arguments: &[Argument]) -> Result<Vec<Atom>, NoMemory>
    ensures { IfOk result (λ atoms. atoms.items ≡ atoms_of (map plain_argument arguments.now)) }
{
    let mut atoms = Vec::new(alloc);
    for argument in arguments {
        atoms.push(argument.atom)?;
    }
    Ok(atoms)
}

/// The layout of the elements of an object whose address is wanted as a type: that of what this points to; void and what
/// is incomplete have the layout of a byte.
#[tactic(auto, unfolding(elaboration::specs::Calls::element_layout))]
pub fn element_layout(alloc: Global, tags: &Tags, ty: &CType) -> Result<Layout, NoMemory>
    ensures { IfOk result (λ layout. layout ≡ element_layout tags.now (plain ty.now)) }
{
    match ty {
        CType::Pointer(target) => match layout_in(alloc, tags, target)? {
            Some(layout) => Ok(layout),
            None => Ok(byte_layout(alloc)),
        },
        CType::Void
        | CType::Int(_)
        | CType::Array(_, _)
        | CType::Struct(_)
        | CType::Union(_)
        | CType::Function(_) => Ok(byte_layout(alloc)),
    }
}

/// The layout of a byte.
fn byte_layout(alloc: Global) -> Layout
    ensures { result ≡ number_layout 1 }
{
    Layout {
        size: 1,
        align: 1,
        slots: Items::new(alloc),
    }
}

/// The statement of a built-in function that has it in common with others.
#[tactic(auto, unfolding(elaboration::specs::Calls::lib_name))]
fn lib_name(name: BuiltIn) -> LibName
    ensures { result ≡ lib_name name }
{
    match name {
        BuiltIn::Exit => LibName::Exit,
        BuiltIn::Memcpy => LibName::Memcpy,
        BuiltIn::Memmove => LibName::Memmove,
        BuiltIn::Memset => LibName::Memset,
        BuiltIn::Strlen => LibName::Strlen,
        BuiltIn::Strcmp => LibName::Strcmp,
        BuiltIn::Getchar => LibName::Getchar,
        BuiltIn::Putchar => LibName::Putchar,
        BuiltIn::Puts => LibName::Puts,
        _ => LibName::Abort,
    }
}

/// An operand by its place.
fn atom_at(atoms: &[Atom], place: usize) -> Atom
    ensures { result ≡ slice_index_or atoms.now place Atom.Null }
{
    match atoms.get(place) {
        Some(atom) => *atom,
        None => Atom::Null,
    }
}

/// A new temporary for a result, by its type; void needs none.
fn result_register(state: &mut Elaborator, ty: &CType) -> Result<Option<u32>, NoMemory>
    ensures { Emits state.new result (register_for (plain ty.now) state.old) }
{
    match ty {
        CType::Int(_) => Ok(Some(state.take_integer()?)),
        CType::Pointer(_) => Ok(Some(state.take_pointer()?)),
        CType::Void
        | CType::Array(_, _)
        | CType::Struct(_)
        | CType::Union(_)
        | CType::Function(_) => Ok(None),
    }
}

/// Where a result is.
fn result_spot(to: Option<u32>) -> Spot
    ensures { plain_spot result ≡ spot_of to }
{
    match to {
        Some(register) => Spot::Value(Atom::Reg(register)),
        None => Spot::Empty,
    }
}

/// A call of `printf`, whose format the function keeps (C99 7.19.6.3).
fn printing(
    state: &mut Elaborator,
    line: Line,
    format: Items<u8>,
    atoms: Items<Atom>,
) -> Result<Spot, NoMemory>
    ensures { Locates state.new result (printing line format atoms state.old) }
{
    let number = state.format_count()?;
    state.add_format(format)?;
    let to = state.take_integer()?;
    state.emit(line, StmKind::Printf(to, number, atoms))?;
    Ok(Spot::Value(Atom::Reg(to)))
}

/// The operands behind the first.
fn behind_first(alloc: Global, atoms: &[Atom]) -> Result<Items<Atom>, NoMemory>
    ensures { IfOk result (λ rest. rest ≡ drop 1 atoms.now) }
{
    match atoms {
        [] => Ok(Items::new(alloc)),
        [_, rest @ ..] => Ok(Items::from(rest.to_vec(alloc)?)),
    }
}

/// A call of a built-in function; what is made is wanted as a type.
#[tactic(auto, unfolding(elaboration::specs::Calls::call_built_in))]
fn call_built_in(
    state: &mut Elaborator,
    line: Line,
    name: BuiltIn,
    answer: &CType,
    wanted: &CType,
    format: Option<Items<u8>>,
    atoms: Vec<Atom>,
) -> Result<Spot, NoMemory>
    ensures { CallsBuiltIn line name answer.now wanted.now format atoms.items state.old state.new result }
{
    let alloc = state.alloc();
    match name {
        BuiltIn::Malloc => {
            let layout = element_layout(alloc, state.tags(), wanted)?;
            let to = state.take_pointer()?;
            state.emit(line, StmKind::Malloc(to, atom_at(&atoms, 0), layout))?;
            Ok(Spot::Value(Atom::Reg(to)))
        }
        BuiltIn::Calloc => {
            let layout = element_layout(alloc, state.tags(), wanted)?;
            let to = state.take_pointer()?;
            let kind = StmKind::Calloc(to, atom_at(&atoms, 0), atom_at(&atoms, 1), layout);
            state.emit(line, kind)?;
            Ok(Spot::Value(Atom::Reg(to)))
        }
        BuiltIn::Realloc => {
            let layout = element_layout(alloc, state.tags(), wanted)?;
            let to = state.take_pointer()?;
            let kind = StmKind::Realloc(to, atom_at(&atoms, 0), atom_at(&atoms, 1), layout);
            state.emit(line, kind)?;
            Ok(Spot::Value(Atom::Reg(to)))
        }
        BuiltIn::Free => {
            state.emit(line, StmKind::Enter)?;
            state.emit(line, StmKind::Free(atom_at(&atoms, 0)))?;
            state.emit(line, StmKind::Leave)?;
            Ok(Spot::Empty)
        }
        BuiltIn::Printf => {
            let format = format.unwrap_or(Items::new(alloc));
            let rest = behind_first(alloc, &atoms)?;
            printing(state, line, format, rest)
        }
        name => {
            let to = result_register(state, answer)?;
            state.emit(line, StmKind::Lib(lib_name(name), to, Items::from(atoms)))?;
            Ok(result_spot(to))
        }
    }
}

/// A call of what a name means; a call of a declared function is kept with its line.
pub fn call_named(
    state: &mut Elaborator,
    line: Line,
    called: Called,
    answer: &CType,
    wanted: &CType,
    format: Option<Items<u8>>,
    atoms: Vec<Atom>,
) -> Result<Spot, NoMemory>
    ensures { CallsNamed line called answer.now wanted.now format atoms.items state.old state.new result }
{
    match called {
        Called::Function(index) => {
            state.keep_call(index, line)?;
            let to = result_register(state, answer)?;
            state.emit(line, StmKind::Call(index, to, Items::from(atoms)))?;
            Ok(result_spot(to))
        }
        Called::BuiltIn(name) => call_built_in(state, line, name, answer, wanted, format, atoms),
        Called::Nothing => Ok(Spot::Empty),
    }
}
