//! Nested scopes.

ghost use Rattle.std.specs.Prelude.{◌≡◌, ◌↔◌, ◌<◌, ◌^◌, length, IsTrue, Err, option_map, IfOk, IfErr, OnOk, OnErr};
ghost use Rattle.c_decls.specs.Named.{plain_named};
ghost use Rattle.c_decls.specs.ScopeList.{no_scopes, named_in, innermost, found, with_name, after_declaration, entered, left, IsTwice};
ghost use Rattle.c_decls.specs.BuiltIns.{first_scopes, all_differ, numbered_from};

mod file;
mod kept;

use crate::built_in::BuiltIn;
use crate::named::{Named, is_same_again};
use crate::scope::Scope;
use hs_base::NoMemory;
use std::alloc::{AllocError, Global};
use std::marker::Model;
use thiserror::Error;

/// Why a name is not declared.
#[derive(Clone, Copy, Debug, PartialEq, Eq, Error)]
pub enum DeclError {
    /// The innermost scope has the name already.
    #[error("declared twice")]
    Twice,
    /// Memory was wanted and there was none.
    #[error("no memory")]
    NoMemory,
}

impl From<NoMemory> for DeclError {
    ghost use Rattle.std.specs.Prelude.{◌≡◌};
    ghost use Rattle.c_decls.specs.declared.scopes.DeclError.TheVariants.{NoMemory};

    ghost from_gives = { λ _ e. e ≡ NoMemory };

    fn from(_: NoMemory) -> DeclError {
        DeclError::NoMemory
    }
}

impl From<AllocError> for DeclError {
    ghost use Rattle.std.specs.Prelude.{◌≡◌};
    ghost use Rattle.c_decls.specs.declared.scopes.DeclError.TheVariants.{NoMemory};

    ghost from_gives = { λ _ e. e ≡ NoMemory };

    fn from(_: AllocError) -> DeclError {
        DeclError::NoMemory
    }
}

/// The scopes that are open at a place of a text (C99 6.2.1): the file scope, and those inside it.
#[derive(Drop)]
pub struct Scopes {
    alloc: Global,
    file: Scope,
    inner: Vec<Scope>,
}

impl Model for Scopes {
    ghost use Rattle.std.specs.Prelude.{reverse};
    ghost use Rattle.c_decls.specs.ScopeList.{ScopeList};
    ghost use Rattle.c_decls.specs.Codes.{scopes_code};

    ghost Value = { ScopeList };

    ghost coded = { scopes_code };

    ghost view = { λ s. record { file = s.file; inner = reverse s.inner.items } };
}

/// A scope with these names, each by its place.
fn numbered(alloc: Global, names: &[BuiltIn]) -> Result<Scope, NoMemory>
    requires differ { IsTrue (all_differ names.now) }
    requires few { length names.now < 2 ^ 32 }
    ensures { IfOk result (λ scope. scope ≡ numbered_from 0 names.now) }
{
    let mut scope = Scope::new(alloc);
    for (index, built_in) in names.iter().enumerate() {
        let name = built_in.name().to_vec(alloc)?;
        let index = index as u32;
        scope.add(name, Named::BuiltIn { index })?;
    }
    Ok(scope)
}

impl Scopes {
    /// The file scope alone, with the built-in names in it.
    pub fn new(alloc: Global) -> Result<Scopes, NoMemory>
        ensures { IfOk result (λ scopes. scopes ≡ first_scopes) }
    {
        let file = numbered(alloc, &BuiltIn::ALL)?;
        Ok(Scopes {
            alloc,
            file,
            inner: Vec::new(alloc),
        })
    }

    /// A file scope without names. It takes no memory.
    pub fn none(alloc: Global) -> Scopes
        ensures { result ≡ no_scopes }
    {
        Scopes {
            alloc,
            file: Scope::new(alloc),
            inner: Vec::new(alloc),
        }
    }

    /// Opens a scope inside the others. An error changes nothing.
    pub fn enter(&mut self) -> Result<(), NoMemory>
        ensures ok { OnOk result (self.new ≡ entered self.old) }
        ensures err { OnErr result (self.new ≡ self.old) }
    {
        self.inner.push(Scope::new(self.alloc))?;
        Ok(())
    }

    /// Closes the innermost scope and forgets its names. The file scope stays.
    pub fn leave(&mut self)
        ensures { self.new ≡ left self.old }
    {
        let _ = self.inner.pop();
    }

    /// What the innermost scope declares a name as.
    pub fn find_innermost(&self, name: &[u8]) -> Option<&Named>
        ensures { option_map (λ named. plain_named named.now) result ≡ named_in name.now (innermost self.now) }
    {
        match self.inner.last() {
            Some(scope) => scope.find(name),
            None => self.file.find(name),
        }
    }

    /// Adds a name to the innermost scope, which does not have it. An error changes nothing.
    fn add(&mut self, name: &[u8], named: Named) -> Result<(), DeclError>
        requires { named_in name.now (innermost self.old) ≡ None }
        ensures ok { OnOk result (self.new ≡ with_name self.old name.now (plain_named named)) }
        ensures no_memory { IfErr result (λ e. e ≡ DeclError.NoMemory) }
        ensures err { OnErr result (self.new ≡ self.old) }
        ensures depth { length self.new.inner ≡ length self.old.inner }
    {
        let name = name.to_vec(self.alloc)?;
        match self.inner.last_mut() {
            Some(scope) => scope.add(name, named)?,
            None => self.file.add(name, named)?,
        }
        Ok(())
    }

    /// Declares a name in the innermost scope (C99 6.2.1, 6.7). In the file scope a name may come again as the same sort
    /// with the same type, where it is an object, a function or a typedef name; then the scopes stay as they were. An
    /// error changes nothing: `Twice` comes exactly where the innermost scope has the name in any other way.
    pub fn declare(&mut self, name: &[u8], named: Named) -> Result<(), DeclError>
        ensures ok { OnOk result (self.new ≡ after_declaration self.old name.now (plain_named named)) }
        ensures twice { (result ≡ Err DeclError.Twice) ↔ IsTwice self.old name.now (plain_named named) }
        ensures err { OnErr result (self.new ≡ self.old) }
        ensures depth { length self.new.inner ≡ length self.old.inner }
    {
        match self.find_innermost(name) {
            None => self.add(name, named),
            Some(before) => {
                if self.inner.is_empty() && is_same_again(before, &named) {
                    Ok(())
                } else {
                    Err(DeclError::Twice)
                }
            }
        }
    }

    /// The innermost declaration of a name, or `None` where no open scope has it.
    pub fn find(&self, name: &[u8]) -> Option<&Named>
        ensures { option_map (λ named. plain_named named.now) result ≡ found self.now name.now }
    {
        for depth in (0..self.inner.len()).rev() {
            if let Some(named) = self.inner[depth].find(name) {
                return Some(named);
            }
        }
        self.file.find(name)
    }
}
