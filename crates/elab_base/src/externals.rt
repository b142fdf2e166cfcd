//! Functions at file scope, and where external declarations and bodies begin and end (C99 6.9).

ghost use Rattle.std.specs.Prelude.{◌≡◌, IfOk, length, option_map, slice_get};
ghost use Rattle.c_types.specs.Types.{plain};
ghost use Rattle.c_decls.specs.Named.{plain_named};
ghost use Rattle.c_decls.specs.Refusals.{Answers, Meets};
ghost use Rattle.c_decls.specs.ScopeList.{named_in};
ghost use Rattle.elaboration.specs.Declarations.{function_number, with_function, declared_function};
ghost use Rattle.elaboration.specs.Externals.{begun, answer_of, params_of, is_defined, define, body_begun, calls_defined};
ghost use Rattle.elab_base.specs.Calls.{first_undefined, calls_are_defined};
ghost use Rattle.elab_base.specs.Idle.{body_closed};
ghost use Rattle.elab_base.specs.Changes.{with_body};
ghost use Rattle.elab_base.specs.Outcomes.{Becomes};

use crate::code::Code;
use crate::elaborator::Elaborator;
use crate::locals::copied;
use crate::names::{Declared, Walked};
use crate::numbers::fit;
use crate::running::Running;
use c_decls::{Named, Scope, TypeError, TypeKind, refused};
use c_types::CType;
use hs_base::{Line, NoMemory};
use std::alloc::Global;
use std::mem;

/// The most statements and operands that a program has.
const MOST_LENGTH: u64 = 268_435_456;

/// What a function of a type answers.
fn answer_of(ty: &CType) -> CType
    ensures { plain result ≡ answer_of (plain ty.now) }
{
    match ty {
        CType::Function(signature) => signature.result,
        CType::Void
        | CType::Int(_)
        | CType::Pointer(_)
        | CType::Array(_, _)
        | CType::Struct(_)
        | CType::Union(_) => CType::Void,
    }
}

/// How many parameters a function of a type has.
#[tactic(auto, using(crate::proofs::Signatures::function_params))]
fn params_of(ty: &CType) -> Result<u32, NoMemory>
    ensures { IfOk result (λ count. count ≡ params_of (plain ty.now)) }
{
    match ty {
        CType::Function(signature) => fit(signature.params.len()),
        CType::Void
        | CType::Int(_)
        | CType::Pointer(_)
        | CType::Array(_, _)
        | CType::Struct(_)
        | CType::Union(_) => Ok(0),
    }
}

/// Whether the function of a number has a body.
fn is_defined(functions: &[Declared], index: u32) -> bool
    ensures { result ≡ is_defined (slice_get functions.now index) }
{
    match functions.get(index as usize) {
        Some(function) => function.defined().is_some(),
        None => false,
    }
}

/// The line of the first of some calls whose function has no body.
#[tactic(auto, using(crate::proofs::DefinedCalls::next_at, crate::proofs::DefinedCalls::found_at, crate::proofs::DefinedCalls::end_at))]
fn first_undefined(functions: &[Declared], calls: &[(u32, Line)]) -> Option<Line>
    ensures { result ≡ first_undefined functions.now calls.now }
{
    for call in calls {
        if !is_defined(functions, call.0) {
            return Some(call.1);
        }
    }
    None
}

impl Elaborator {
    /// An external declaration begins: no function runs, there is no code, and these of its parameters and locals are
    /// taken the address of.
    pub fn begin_external(&mut self, line: Line, addressed: Vec<u32>) -> Result<(), NoMemory>
        ensures { IfOk result (λ _. self.new ≡ begun line addressed.items self.old) }
    {
        self.running = Running::new(self.alloc, line, addressed)?;
        self.code = Code::new(self.alloc);
        Ok(())
    }

    /// What the file scope declares a name as.
    pub fn find_in_file(&self, name: &[u8]) -> Option<&Named>
        ensures { option_map (λ n. plain_named n.now) result ≡ named_in name.now self.now.scopes.file }
    {
        self.scopes.find_in_file(name)
    }

    /// The number of a function: that of its first declaration.
    pub fn function_number(&self, name: &[u8]) -> Result<u32, NoMemory>
        ensures { IfOk result (λ index. index ≡ function_number name.now self.now) }
    {
        match self.find_in_file(name) {
            Some(Named::Function { index, .. }) => Ok(*index),
            Some(
                Named::Object { .. }
                | Named::Register { .. }
                | Named::Typedef { .. }
                | Named::Constant { .. }
                | Named::BuiltIn { .. }
                | Named::Tag { .. },
            )
            | None => fit(self.functions.len()),
        }
    }

    /// Adds a function of that number, unless it is there.
    fn with_function(&mut self, index: u32, name: &[u8]) -> Result<(), NoMemory>
        ensures { IfOk result (λ _. self.new ≡ with_function index name.now self.old) }
    {
        if (index as usize) < self.functions.len() {
            return Ok(());
        }
        let name = copied(self.alloc, name)?;
        self.functions.push(Declared::new(name))?;
        Ok(())
    }

    /// Declares a function, which has its number from now on (C99 6.7.5.3).
    pub fn declared_function(&mut self, line: Line, name: &[u8], ty: CType) -> Result<(), TypeError>
        ensures { Becomes self.new result (declared_function line name.now (plain ty) self.old) }
    {
        let index = self.function_number(name)?;
        self.declared_as(line, name, Named::Function { ty, index })?;
        self.with_function(index, name)?;
        Ok(())
    }

    /// Whether the function of a number has a body.
    pub fn is_defined(&self, index: u32) -> bool
        ensures { result ≡ is_defined (slice_get self.now.functions index) }
    {
        is_defined(&self.functions, index)
    }

    /// The function of that number gets the next body, if it is there.
    fn define(&mut self, index: u32) -> Result<(), NoMemory>
        ensures { IfOk result (λ _. self.new ≡ with_body index self.old) }
    {
        let number = fit(self.walked.len())?;
        if let Some(function) = self.functions.get_mut(index as usize) {
            function.define(number);
        }
        Ok(())
    }

    /// The body of a function of that number and type begins, which shares a scope with its parameters (C99 6.2.1).
    pub fn begin_body(&mut self, index: u32, ty: &CType) -> Result<(), NoMemory>
        ensures { IfOk result (λ _. self.new ≡ body_begun index (plain ty.now) self.old) }
    {
        let answer = answer_of(ty);
        self.define(index)?;
        let params = mem::replace(&mut self.params, Scope::new(self.alloc));
        self.scopes.stand_in(params)?;
        self.running.set_answer(answer);
        Ok(())
    }

    /// The body of the function with that name and type ends, and no function runs behind it; the line is that of its
    /// declaration.
    pub fn end_body(&mut self, line: Line, name: &[u8], ty: &CType) -> Result<(), TypeError>
        ensures { Becomes self.new result (body_closed line name.now (plain ty.now) self.old) }
    {
        let size = self.code.size()?;
        let total = u64::from(self.total).checked_add(size).ok_or(NoMemory)?;
        if total > MOST_LENGTH {
            return refused(TypeKind::ProgramTooLong, line);
        }
        let params = params_of(ty)?;
        let name = copied(self.alloc, name)?;
        let idle = Running::new(self.alloc, 0, Vec::new(self.alloc))?;
        let running = mem::replace(&mut self.running, idle);
        let code = mem::replace(&mut self.code, Code::new(self.alloc));
        self.scopes.leave_all();
        self.total = total as u32;
        self.walked.push(Walked::new(name, params, running, code))?;
        Ok(())
    }

    /// Whether each function that is called has a body; else the first call of one without is refused.
    #[tactic(auto, using(crate::proofs::DefinedCalls::calls_are))]
    pub fn calls_defined(&self) -> Result<(), TypeError>
        ensures { Answers (λ _. self.now) result (calls_are_defined self.now) }
    {
        match first_undefined(&self.functions, &self.calls) {
            Some(line) => refused(TypeKind::Undeclared, line),
            None => Ok(()),
        }
    }
}
