//! The file scope alone (C99 6.2.1).

ghost use Rattle.std.specs.Prelude.{◌≡◌, option_map};
ghost use Rattle.c_decls.specs.Named.{plain_named};
ghost use Rattle.c_decls.specs.ScopeList.{named_in};

use crate::named::Named;
use crate::scopes::Scopes;

impl Scopes {
    /// What the file scope declares a name as.
    pub fn find_in_file(&self, name: &[u8]) -> Option<&Named>
        ensures { option_map (λ named. plain_named named.now) result ≡ named_in name.now self.now.file }
    {
        self.file.find(name)
    }
}
