//! What is known at a place of a function.

ghost use Rattle.std.specs.Prelude.{◌≡◌, ◌||◌, IfOk, Some, option_copied, length, reverse};
ghost use Rattle.c_tree.specs.StatementView.{expr_view};
ghost use Rattle.elaboration.specs.Addressed.{Taken as PlainTaken, nothing_taken, number_of, plain_name, with_address, with_known, with_local, declare};
ghost use Rattle.elab_addressed.specs.Turns.{back_to, left_if};

use c_tree::{Expr, ExprKind};
use hs_base::{Items, NoMemory};
use std::alloc::Global;
use std::marker::Model;

/// A name that is declared at a place: the number of a parameter or local, or something else.
#[derive(Drop)]
pub(crate) struct Known {
    name: Items<u8>,
    number: Option<u32>,
}

impl Model for Known {
    ghost use Rattle.elaboration.specs.Addressed.{Known as PlainKnown};

    ghost Value = { PlainKnown };

    ghost view = { λ s. record { name = s.name; number = s.number } };
}

/// The names at a place, the latest last; whether the running declaration is one of typedef names; how many parameters and
/// locals were declared; and which of them the address was taken of.
#[derive(Drop)]
pub(crate) struct Taken {
    alloc: Global,
    names: Vec<Known>,
    typedef: bool,
    declared: u32,
    addressed: Vec<u32>,
}

impl Model for Taken {
    ghost use Rattle.std.specs.Prelude.{reverse};
    ghost use Rattle.elaboration.specs.Addressed.{Taken as PlainTaken};

    ghost Value = { PlainTaken };

    ghost view = { λ s. record { names = reverse s.names.items; typedef = s.typedef; declared = s.declared; addressed = reverse s.addressed.items } };
}

/// The name in parentheses or without them.
#[tactic(auto, unfolding(elaboration::specs::Addressed::plain_name, c_tree::specs::View::expr_tree))]
pub(crate) fn plain_name(e: &Expr) -> Option<&Items<u8>>
    ensures { option_copied result ≡ plain_name (expr_view e.now) }
{
    match &e.kind {
        ExprKind::Name(name) => Some(name),
        ExprKind::Paren(inside) => plain_name(inside),
        _ => None,
    }
}

impl Taken {
    /// Before the first parameter.
    pub(crate) fn nothing(alloc: Global) -> Taken
        ensures { result ≡ nothing_taken }
    {
        Taken {
            alloc,
            names: Vec::new(alloc),
            typedef: false,
            declared: 0,
            addressed: Vec::new(alloc),
        }
    }

    /// How many names there are.
    pub(crate) fn depth(&self) -> usize
        ensures { result ≡ length self.now.names }
    {
        self.names.len()
    }

    /// Whether the running declaration is one of typedef names.
    pub(crate) fn is_typedef(&self) -> bool
        ensures { result ≡ self.now.typedef }
    {
        self.typedef
    }

    /// Says whether the running declaration is one of typedef names.
    pub(crate) fn set_typedef(&mut self, typedef: bool)
        ensures { self.new ≡ record self.old { typedef = typedef } }
    {
        self.typedef = typedef;
    }

    /// The running declaration is one of typedef names if its specs say so, or if it stands in one that is.
    pub(crate) fn set_typedef_by(&mut self, says: bool, outer: bool)
        ensures { self.new ≡ record self.old { typedef = says || outer } }
    {
        self.typedef = says || outer;
    }

    /// Forgets the names behind the first so many.
    pub(crate) fn leave(&mut self, depth: usize)
        ensures { self.new ≡ back_to depth self.old }
    {
        self.names.truncate(depth);
    }

    /// The same where a scope ends.
    pub(crate) fn leave_if(&mut self, is_scope: bool, depth: usize)
        ensures { self.new ≡ left_if is_scope depth self.old }
    {
        if is_scope {
            self.leave(depth);
        }
    }

    /// The number of the parameter or local that a name means.
    fn number_of(&self, name: &[u8]) -> Option<u32>
        ensures { result ≡ number_of self.now.names name.now }
    {
        for place in (0..self.names.len()).rev() {
            let known = &self.names[place];
            if known.name.as_slice() == name {
                return known.number;
            }
        }
        None
    }

    /// The address of a name is taken, where there is one.
    pub(crate) fn with_address(&mut self, name: Option<&Items<u8>>) -> Result<(), NoMemory>
        ensures { IfOk result (λ _. self.new ≡ with_address (option_copied name.entry) self.old) }
    {
        let Some(name) = name else {
            return Ok(());
        };
        if let Some(number) = self.number_of(name.as_slice()) {
            self.addressed.push(number)?;
        }
        Ok(())
    }

    /// Adds a name.
    pub(crate) fn with_known(
        &mut self,
        name: &Items<u8>,
        number: Option<u32>,
    ) -> Result<(), NoMemory>
        ensures { IfOk result (λ _. self.new ≡ with_known (Some name.now) number self.old) }
    {
        let name = Items::from(name.as_slice().to_vec(self.alloc)?);
        self.names.push(Known { name, number })?;
        Ok(())
    }

    /// Adds a parameter or local, which may have no name.
    pub(crate) fn with_local(&mut self, name: Option<&Items<u8>>) -> Result<(), NoMemory>
        ensures { IfOk result (λ _. self.new ≡ with_local (option_copied name.entry) self.old) }
    {
        if let Some(name) = name {
            self.with_known(name, Some(self.declared))?;
        }
        self.declared = self.declared.checked_add(1).ok_or(NoMemory)?;
        Ok(())
    }

    /// Adds a name of a declaration, which is one of typedef names or not.
    pub(crate) fn declare(
        &mut self,
        typedef: bool,
        name: Option<&Items<u8>>,
    ) -> Result<(), NoMemory>
        ensures { IfOk result (λ _. self.new ≡ declare typedef (option_copied name.entry) self.old) }
    {
        if !typedef {
            return self.with_local(name);
        }
        match name {
            Some(name) => self.with_known(name, None),
            None => Ok(()),
        }
    }

    /// The numbers of those whose address was taken, the latest first.
    pub(crate) fn into_addressed(self) -> Vec<u32>
        ensures { result.items ≡ self.addressed }
    {
        let Taken { mut addressed, .. } = self;
        addressed.reverse();
        addressed
    }
}
