//! Scopes that are lent to a walk, which keeps beside them what it declares.

ghost use Rattle.std.specs.Prelude.{◌≡◌, [], IfOk, option_map};
ghost use Rattle.std.specs.Option.{option_or};
ghost use Rattle.c_decls.specs.Named.{plain_named};
ghost use Rattle.c_decls.specs.ScopeList.{ScopeList, found, entered, left};
ghost use Rattle.c_decls.specs.Refusals.{Meets};
ghost use Rattle.c_typing.specs.Lent.{joined};
ghost use Rattle.c_typing.specs.Walks.{declared, IsNeverAgain};

use c_decls::{DeclError, Named, Scopes, TypeError, TypeKind, refused};
use hs_base::{Line, NoMemory};
use std::alloc::Global;
use std::marker::Model;

/// The scopes at a place of an expression: those that are lent, if there are such, and what is declared since. Lent scopes
/// stay as they are.
#[derive(Drop)]
pub struct Around<'a> {
    lent: Option<&'a Scopes>,
    since: Scopes,
}

impl<'a> Model for Around<'a> {
    ghost use Rattle.std.specs.Prelude.{option_map};
    ghost use Rattle.c_decls.specs.Codes.{scopes_code};
    ghost use Rattle.c_decls.specs.ScopeList.{ScopeList};
    ghost use Rattle.c_typing.specs.Lent.{around};

    ghost Value = { ScopeList };

    ghost coded = { scopes_code };

    ghost view = { λ s. around (option_map (λ lent. lent.now) s.lent) s.since };
}

/// Declares a name that never comes again in the innermost scope, which must not have it.
fn declare(scopes: &mut Scopes, line: Line, name: &[u8], named: Named) -> Result<(), TypeError>
    requires { IsNeverAgain (plain_named named) }
    ensures { Meets (λ _. scopes.new) result (declared line name.now (plain_named named) scopes.old) }
{
    match scopes.declare(name, named) {
        Ok(()) => Ok(()),
        Err(DeclError::Twice) => refused(TypeKind::DeclaredTwice, line),
        Err(DeclError::NoMemory) => Err(TypeError::NoMemory),
    }
}

/// The same beside the names of the innermost of lent scopes.
fn declare_beside(
    lent: &Scopes,
    since: &mut Scopes,
    line: Line,
    name: &[u8],
    named: Named,
) -> Result<(), TypeError>
    requires never { IsNeverAgain (plain_named named) }
    requires beside { since.old.inner ≡ [] }
    ensures { Meets (λ _. joined lent.now since.new) result (declared line name.now (plain_named named) (joined lent.now since.old)) }
{
    match lent.find_innermost(name) {
        Some(_) => refused(TypeKind::DeclaredTwice, line),
        None => declare(since, line, name, named),
    }
}

/// The same behind lent scopes.
fn declare_since(
    lent: &Scopes,
    since: &mut Scopes,
    line: Line,
    name: &[u8],
    named: Named,
) -> Result<(), TypeError>
    requires { IsNeverAgain (plain_named named) }
    ensures { Meets (λ _. joined lent.now since.new) result (declared line name.now (plain_named named) (joined lent.now since.old)) }
{
    if since.is_file_scope() {
        declare_beside(lent, since, line, name, named)
    } else {
        declare(since, line, name, named)
    }
}

/// What a name is declared as since, or else in lent scopes.
fn find_last<'s>(lent: &'s Scopes, since: &'s Scopes, name: &[u8]) -> Option<&'s Named>
    ensures { option_map (λ named. plain_named named.now) result ≡ option_or (found since.now name.now) (found lent.now name.now) }
{
    match since.find(name) {
        Some(named) => Some(named),
        None => lent.find(name),
    }
}

/// The innermost declaration of a name, behind lent scopes.
fn find_since<'s>(lent: &'s Scopes, since: &'s Scopes, name: &[u8]) -> Option<&'s Named>
    ensures { option_map (λ named. plain_named named.now) result ≡ found (joined lent.now since.now) name.now }
{
    if since.is_inner(name) {
        return since.find(name);
    }
    match lent.find_innermost(name) {
        Some(named) => Some(named),
        None => find_last(lent, since, name),
    }
}

/// Closes the innermost of the scopes that were opened behind lent ones.
#[tactic(auto, using(crate::proofs::Lents::left_joined))]
fn leave_since(since: &mut Scopes) -> Result<(), NoMemory>
    ensures { (lent : ScopeList) → IfOk result (λ _. joined lent since.new ≡ left (joined lent since.old)) }
{
    if since.is_file_scope() {
        return Err(NoMemory);
    }
    since.leave();
    Ok(())
}

#[tactic(auto, using(crate::proofs::Lents::joined_none, crate::proofs::Lents::entered_around, crate::proofs::Lents::left_joined))]
impl<'a> Around<'a> {
    /// Scopes of its own.
    pub fn own(scopes: Scopes) -> Around<'a>
        ensures { result ≡ scopes }
    {
        Around {
            lent: None,
            since: scopes,
        }
    }

    /// Scopes that are lent.
    pub fn lent(alloc: Global, scopes: &'a Scopes) -> Around<'a>
        ensures { result ≡ scopes.now }
    {
        Around {
            lent: Some(scopes),
            since: Scopes::none(alloc),
        }
    }

    /// The scopes where they are its own; where they are lent it says that there is no memory.
    pub fn into_own(self) -> Result<Scopes, NoMemory>
        ensures { IfOk result (λ scopes. scopes ≡ self.entry) }
    {
        let Around { lent, since } = self;
        match lent {
            None => Ok(since),
            Some(_) => Err(NoMemory),
        }
    }

    /// The innermost declaration of a name, or `None` where no open scope has it.
    pub fn find(&self, name: &[u8]) -> Option<&Named>
        ensures { option_map (λ named. plain_named named.now) result ≡ found self.now name.now }
    {
        match self.lent {
            None => self.since.find(name),
            Some(lent) => find_since(lent, &self.since, name),
        }
    }

    /// Declares a parameter or a tag in the innermost scope, which must not have its name.
    pub fn declare(&mut self, line: Line, name: &[u8], named: Named) -> Result<(), TypeError>
        requires { IsNeverAgain (plain_named named) }
        ensures { Meets (λ _. self.new) result (declared line name.now (plain_named named) self.old) }
    {
        match self.lent {
            None => declare(&mut self.since, line, name, named),
            Some(lent) => declare_since(lent, &mut self.since, line, name, named),
        }
    }

    /// Opens a scope inside the others.
    pub fn enter(&mut self) -> Result<(), NoMemory>
        ensures { IfOk result (λ _. self.new ≡ entered self.old) }
    {
        self.since.enter()
    }

    /// Closes the innermost scope. It closes no scope that is lent, and says then that there is no memory.
    pub fn leave(&mut self) -> Result<(), NoMemory>
        ensures { IfOk result (λ _. self.new ≡ left self.old) }
    {
        match self.lent {
            None => {
                self.since.leave();
                Ok(())
            }
            Some(_) => leave_since(&mut self.since),
        }
    }
}
