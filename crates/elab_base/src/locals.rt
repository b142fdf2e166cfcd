//! Names that are declared, and the registers and memory of parameters and locals (C99 6.2.4, 6.7).

ghost use Rattle.std.specs.Prelude.{◌≡◌, None, IfOk, option_copied, unwrap_or};
ghost use Rattle.c_types.specs.Types.{plain};
ghost use Rattle.c_decls.specs.Named.{plain_named};
ghost use Rattle.c_decls.specs.ScopeList.{named_in, innermost};
ghost use Rattle.elaboration.specs.Context.{local_register};
ghost use Rattle.elaboration.specs.Locals.{is_pointer, declared_as, next_is_memory, with_register, with_memory, counted, with_named, memory_param, register_param, function_param, prototype_param, with_param, local_in, with_local};
ghost use Rattle.elab_base.specs.MaybeNames.{IsFree, given};
ghost use Rattle.elab_base.specs.Changes.{layout_or_none};
ghost use Rattle.elab_base.specs.Outcomes.{Becomes, Locates};
ghost use Rattle.c_types.specs.Layouts.{no_layout};
ghost use Rattle.c_types.specs.TagTable.{layout_in};
ghost use Rattle.c_decls.specs.Refusals.{Meets};
ghost use Rattle.elab_base.specs.PlainFound.{plain_spot};

use crate::elaborator::Elaborator;
use crate::found::Spot;
use crate::sizes::layout_in;
use c_decls::{DeclError, Named, TypeError, TypeKind, is_scalar, refused};
use c_types::{CType, Layout};
use core_tree::{Atom, Mem, Reg};
use hs_base::{Items, Line, NoMemory};
use std::alloc::Global;

/// A copy of a name.
pub(crate) fn copied(alloc: Global, name: &[u8]) -> Result<Items<u8>, NoMemory>
    ensures { IfOk result (λ copy. copy ≡ name.now) }
{
    Ok(Items::from(name.to_vec(alloc)?))
}

/// A copy of a name that may be left out.
fn maybe_copied(alloc: Global, name: Option<&[u8]>) -> Result<Option<Items<u8>>, NoMemory>
    ensures { IfOk result (λ copy. copy ≡ option_copied name.entry) }
{
    match name {
        Some(name) => Ok(Some(copied(alloc, name)?)),
        None => Ok(None),
    }
}

/// Whether a type is that of pointers.
fn is_pointer(ty: &CType) -> bool
    ensures { result ≡ is_pointer (plain ty.now) }
{
    match ty {
        CType::Pointer(_) => true,
        CType::Void
        | CType::Int(_)
        | CType::Array(_, _)
        | CType::Struct(_)
        | CType::Union(_)
        | CType::Function(_) => false,
    }
}

/// The register of a parameter or local by its number in its function.
fn local_register(number: u32) -> Result<u32, NoMemory>
    ensures { IfOk result (λ register. register ≡ local_register number) }
{
    number.checked_mul(3).ok_or(NoMemory)
}

impl Elaborator {
    /// Declares a name in the innermost scope; at file scope it may come again as the same sort with the same type (C99
    /// 6.7, 6.9.2).
    #[tactic(auto, using(crate::proofs::Twice::twice_is, crate::proofs::Twice::not_twice))]
    pub fn declared_as(&mut self, line: Line, name: &[u8], named: Named) -> Result<(), TypeError>
        ensures { Becomes self.new result (declared_as line name.now (plain_named named) self.old) }
    {
        match self.scopes.declare(name, named) {
            Ok(()) => Ok(()),
            Err(DeclError::Twice) => refused(TypeKind::DeclaredTwice, line),
            Err(DeclError::NoMemory) => Err(TypeError::NoMemory),
        }
    }

    /// Whether the parameter or local that is declared next is an object in memory: its address is taken, or it is no
    /// scalar.
    pub fn next_is_memory(&self, ty: &CType) -> bool
        ensures { result ≡ next_is_memory (plain ty.now) self.now }
    {
        !is_scalar(ty) || self.running.is_next_addressed()
    }

    /// Adds a register.
    fn with_register(&mut self, name: Option<&[u8]>, ty: &CType) -> Result<(), NoMemory>
        ensures { IfOk result (λ _. self.new ≡ with_register (given name.entry) (plain ty.now) self.old) }
    {
        let name = maybe_copied(self.alloc, name)?;
        let pointer = is_pointer(ty);
        self.running.add_local(Reg { name, pointer })
    }

    /// The layout of a memory local of a type.
    pub(crate) fn mem_layout(&self, ty: &CType) -> Result<Layout, NoMemory>
        ensures { IfOk result (λ layout. layout ≡ layout_or_none self.now.tags (plain ty.now)) }
    {
        match layout_in(self.alloc, &self.tags, ty)? {
            Some(layout) => Ok(layout),
            None => Ok(Layout {
                size: 0,
                align: 1,
                slots: Items::new(self.alloc),
            }),
        }
    }

    /// Adds a memory local.
    fn with_memory(&mut self, name: &[u8], ty: &CType) -> Result<(), NoMemory>
        ensures { IfOk result (λ _. self.new ≡ with_memory name.now (plain ty.now) self.old) }
    {
        let layout = self.mem_layout(ty)?;
        let name = copied(self.alloc, name)?;
        self.running.add_mem(Mem { name, layout })
    }

    /// Declares a name, where there is one, that the innermost scope does not have.
    fn with_named(&mut self, name: Option<&[u8]>, named: Named) -> Result<(), NoMemory>
        requires { IsFree (option_copied name) self.old.scopes }
        ensures { IfOk result (λ _. self.new ≡ with_named (given name.entry) (plain_named named) self.old) }
    {
        match name {
            Some(name) => self.scopes.declare(name, named).map_err(|_| NoMemory),
            None => Ok(()),
        }
    }

    /// Adds a parameter that is an object in memory: its register is stored there first.
    fn memory_param(&mut self, name: Option<&[u8]>, ty: CType) -> Result<(), NoMemory>
        requires { IsFree (option_copied name) self.old.scopes }
        ensures { IfOk result (λ _. self.new ≡ memory_param (given name.entry) (plain ty) self.old) }
    {
        let mem = self.running.mem_count()?;
        let register = local_register(self.running.local_count()?)?;
        let line = self.running.line();
        self.with_register(name, &ty)?;
        self.with_memory(name.unwrap_or(b""), &ty)?;
        self.with_named(name, Named::Object { ty, index: mem })?;
        self.write(line, &ty, Spot::Memory(Atom::Mem(mem)), Atom::Reg(register))
    }

    /// Adds a parameter that is kept in its register.
    fn register_param(&mut self, name: Option<&[u8]>, ty: CType) -> Result<(), NoMemory>
        requires { IsFree (option_copied name) self.old.scopes }
        ensures { IfOk result (λ _. self.new ≡ register_param (given name.entry) (plain ty) self.old) }
    {
        let index = self.running.local_count()?;
        self.with_register(name, &ty)?;
        self.with_named(name, Named::Register { ty, index })
    }

    /// Adds a parameter of the running function, which has a register.
    fn function_param(&mut self, name: Option<&[u8]>, ty: CType) -> Result<(), NoMemory>
        requires { IsFree (option_copied name) self.old.scopes }
        ensures { IfOk result (λ _. self.new ≡ function_param (given name.entry) (plain ty) self.old) }
    {
        if self.next_is_memory(&ty) {
            self.memory_param(name, ty)
        } else {
            self.register_param(name, ty)
        }
    }

    /// Adds a parameter of a prototype: its name stands for its type alone (C99 6.7.5.3).
    fn prototype_param(&mut self, name: Option<&[u8]>, ty: CType) -> Result<(), NoMemory>
        requires { IsFree (option_copied name) self.old.scopes }
        ensures { IfOk result (λ _. self.new ≡ prototype_param (given name.entry) (plain ty) self.old) }
    {
        self.with_named(name, Named::Object { ty, index: 0 })
    }

    /// Adds a parameter. A list inside another scope is that of a prototype (C99 6.2.1).
    pub fn with_param(&mut self, name: Option<&[u8]>, ty: CType) -> Result<(), NoMemory>
        requires { IsFree (option_copied name) self.old.scopes }
        ensures { IfOk result (λ _. self.new ≡ with_param (given name.entry) (plain ty) self.old) }
    {
        if self.scopes.is_nested() {
            self.prototype_param(name, ty)?;
        } else {
            self.function_param(name, ty)?;
        }
        self.running.count_declared()
    }

    /// Adds a local to memory or to the registers, and says where it is.
    fn local_in(&mut self, memory: bool, name: &[u8], ty: CType) -> Result<Spot, NoMemory>
        requires { named_in name.now (innermost self.old.scopes) ≡ None }
        ensures { Locates self.new result (local_in memory name.now (plain ty) self.old) }
    {
        if memory {
            let index = self.running.mem_count()?;
            self.with_memory(name, &ty)?;
            self.with_named(Some(name), Named::Object { ty, index })?;
            Ok(Spot::Memory(Atom::Mem(index)))
        } else {
            let index = self.running.local_count()?;
            let register = local_register(index)?;
            self.with_register(Some(name), &ty)?;
            self.with_named(Some(name), Named::Register { ty, index })?;
            Ok(Spot::Local(register))
        }
    }

    /// Adds a local that the innermost scope does not have, and says where it is.
    pub fn with_local(&mut self, name: &[u8], ty: CType) -> Result<Spot, NoMemory>
        requires { named_in name.now (innermost self.old.scopes) ≡ None }
        ensures { Locates self.new result (with_local name.now (plain ty) self.old) }
    {
        let memory = self.next_is_memory(&ty);
        let spot = self.local_in(memory, name, ty)?;
        self.running.count_declared()?;
        Ok(spot)
    }
}
