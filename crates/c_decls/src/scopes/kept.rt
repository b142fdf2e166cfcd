//! Scopes inside the file scope: that of a parameter list, which is closed behind the list and stands again for the body
//! (C99 6.2.1), and what is declared in any of them.

ghost use Rattle.std.specs.Prelude.{◌≡◌, ◌↔◌, ◌∷◌, [], IfOk, IsTrue, is_some, length, nat_lt};
ghost use Rattle.c_decls.specs.ScopeList.{first_or, found_from, left};

use crate::scope::Scope;
use crate::scopes::Scopes;
use hs_base::NoMemory;

impl Scopes {
    /// Closes the innermost scope inside the file scope and gives its names: none, where no such scope is open.
    pub fn leave_kept(&mut self) -> Scope
        ensures left { self.new ≡ left self.old }
        ensures kept { result ≡ first_or [] self.old.inner }
    {
        match self.inner.pop() {
            Some(scope) => scope,
            None => Scope::new(self.alloc),
        }
    }

    /// Stands with a scope inside the file scope, in place of those that are open.
    pub fn stand_in(&mut self, scope: Scope) -> Result<(), NoMemory>
        ensures { IfOk result (λ _. self.new ≡ record { file = self.old.file; inner = scope ∷ [] }) }
    {
        self.inner.clear();
        self.inner.push(scope)?;
        Ok(())
    }

    /// Closes every scope inside the file scope.
    pub fn leave_all(&mut self)
        ensures { self.new ≡ record { file = self.old.file; inner = [] } }
    {
        self.inner.clear();
    }

    /// Whether no scope inside the file scope is open.
    pub fn is_file_scope(&self) -> bool
        ensures { IsTrue result ↔ (self.now.inner ≡ []) }
    {
        self.inner.is_empty()
    }

    /// Whether the innermost scope stands inside another one than the file scope.
    pub fn is_nested(&self) -> bool
        ensures { result ≡ nat_lt 1 (length self.now.inner) }
    {
        self.inner.len() > 1
    }

    /// Whether a scope inside the file scope has a name.
    pub fn is_inner(&self, name: &[u8]) -> bool
        ensures { result ≡ is_some (found_from [] name.now self.now.inner) }
    {
        for depth in (0..self.inner.len()).rev() {
            if self.inner[depth].find(name).is_some() {
                return true;
            }
        }
        false
    }
}
