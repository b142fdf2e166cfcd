//! The scope of a parameter list (C99 6.2.1, 6.7.5.3).

ghost use Rattle.std.specs.Prelude.{◌≡◌, [], option_copied};
ghost use Rattle.elaboration.specs.Declarators.{is_declared, left_params};

use crate::elaborator::Elaborator;
use c_decls::Scope;

impl Elaborator {
    /// Whether the innermost scope has a name.
    pub fn is_declared(&self, name: Option<&[u8]>) -> bool
        ensures { result ≡ is_declared (option_copied name.entry) self.now }
    {
        match name {
            Some(name) => self.scopes.find_innermost(name).is_some(),
            None => false,
        }
    }

    /// A parameter list ends: its scope is kept for the body that may follow.
    pub fn leave_params(&mut self)
        ensures { self.new ≡ left_params self.old }
    {
        self.params = self.scopes.leave_kept();
    }

    /// A parameter list without names ends.
    pub fn forget_params(&mut self)
        ensures { self.new ≡ record self.old { params = [] } }
    {
        self.params = Scope::new(self.alloc);
    }
}
