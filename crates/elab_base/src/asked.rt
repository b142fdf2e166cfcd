//! The scopes and tags of elaboration, lent to the rules of types.

ghost use Rattle.std.specs.Prelude.{◌≡◌};
ghost use Rattle.elaboration.specs.Context.{asked, told};

use crate::elaborator::Elaborator;
use c_decls::Scopes;
use c_types::Tags;
use std::mem;

impl Elaborator {
    /// Puts other scopes and tags in place of those so far, which it gives.
    pub fn swap_asked(&mut self, scopes: Scopes, tags: Tags) -> (Scopes, Tags)
        ensures before { record { scopes = result.0; tags = result.1 } ≡ asked self.old }
        ensures with { self.new ≡ told (record { scopes = scopes; tags = tags }) self.old }
    {
        let scopes = mem::replace(&mut self.scopes, scopes);
        let tags = mem::replace(&mut self.tags, tags);
        (scopes, tags)
    }
}
