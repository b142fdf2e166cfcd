//! Names in external declarations as they stand in the program.

ghost use Rattle.std.specs.Prelude.{◌≡◌, ℕ, OnOk};
ghost use Rattle.c_tree.specs.StatementView.{trees, decl_view};
ghost use Rattle.c_tree.specs.View.{declarator_tree};
ghost use Rattle.c_units.specs.Externals.{behind_external, renamed_external, role_of};
ghost use Rattle.c_units.specs.Turns.{inits_of};
ghost use Rattle.c_units.specs.Rewriting.{body_start, RenamesBody, LeavesBody, RewritesDeclared, behind_declared, RewritesEntry, behind_entry, RewritesEntries, behind_names};

use crate::declarations::declared_name;
use crate::mention::Role;
use crate::walk::Walk;
use c_tree::{Decl, Declarator, Init, Stmt};
use hs_base::{Items, Line, NoMemory};
use std::mem;

/// What a declaration without a body says of a name.
fn role_of(typedef: bool, init: &Option<Init>) -> Role
    ensures { result ≡ role_of typedef (inits_of init.now) }
{
    if typedef {
        return Role::Typedef;
    }
    match init {
        Some(_) => Role::Defined,
        None => Role::Declared,
    }
}

impl Walk {
    /// A declarator at file scope, in an external declaration at this line.
    #[tactic(auto, using(crate::proofs::FileNames::nameless_made, crate::proofs::FileNames::nameless_known, crate::proofs::FileNames::named_made, crate::proofs::FileNames::named_known, crate::proofs::BoundTrees::name_same))]
    fn file_declarator(
        &mut self,
        role: Role,
        line: Line,
        declarator: &mut Declarator,
    ) -> Result<(), NoMemory>
        ensures tree { OnOk result (RewritesDeclared role line declarator.old declarator.new self.old) }
        ensures names { OnOk result (self.new ≡ behind_declared role line declarator.old self.old) }
    {
        let Some(name) = declared_name(declarator) else {
            return self.declarator(declarator);
        };
        let binding = self.binding_as(role, name.as_slice());
        self.mention(binding, role, name.as_slice(), line)?;
        self.declarator(declarator)?;
        self.declare(declared_name(declarator), binding)?;
        self.rename_declared(binding, declarator)
    }

    /// A name of a declaration at file scope, which holds before its initializer (C99 6.2.1).
    #[tactic(auto, using(crate::proofs::SaidTurns::entry_made, crate::proofs::SaidTurns::entry_known))]
    fn file_entry(
        &mut self,
        line: Line,
        typedef: bool,
        entry: &mut (Declarator, Option<Init>),
    ) -> Result<(), NoMemory>
        ensures tree { OnOk result (RewritesEntry line typedef entry.old entry.new self.old) }
        ensures names { OnOk result (self.new ≡ behind_entry line typedef entry.old self.old) }
    {
        let role = role_of(typedef, &entry.1);
        self.file_declarator(role, line, &mut entry.0)?;
        self.maybe_init(&mut entry.1)
    }

    /// Names of a declaration at file scope, in turn.
    #[tactic(auto, using(crate::proofs::SaidTurns::entries_next, crate::proofs::SaidTurns::entries_made, crate::proofs::SaidTurns::entries_known))]
    fn each_file_entry(
        &mut self,
        line: Line,
        typedef: bool,
        list: &mut [(Declarator, Option<Init>)],
    ) -> Result<(), NoMemory>
        ensures trees { OnOk result (RewritesEntries line typedef list.old list.new self.old) }
        ensures names { OnOk result (self.new ≡ behind_names line typedef list.old self.old) }
    {
        for one in list.iter_mut() {
            self.file_entry(line, typedef, one)?;
        }
        Ok(())
    }

    /// The names of a declaration at file scope.
    fn file_entries(
        &mut self,
        line: Line,
        typedef: bool,
        names: &mut Items<(Declarator, Option<Init>)>,
    ) -> Result<(), NoMemory>
        ensures trees { OnOk result (RewritesEntries line typedef names.old names.new self.old) }
        ensures names { OnOk result (self.new ≡ behind_names line typedef names.old self.old) }
    {
        let mut list = mem::replace(names, Items::new(self.alloc)).into_vec();
        self.each_file_entry(line, typedef, &mut list)?;
        *names = Items::from(list);
        Ok(())
    }

    /// The parameters are declared where the body begins, and mention nothing a second time. They have their names already.
    #[tactic(auto, using(crate::proofs::KeptParams::suffix_back))]
    fn inside_params(&mut self, declarator: &mut Declarator) -> Result<(), NoMemory>
        ensures same { OnOk result (declarator_tree declarator.new ≡ declarator_tree declarator.old) }
        ensures names { OnOk result (self.new ≡ body_start declarator.old self.old) }
    {
        self.enter();
        let mentions = self.take_mentions();
        let suffix = self.take_suffix();
        self.defined_params(declarator)?;
        self.put_suffix(suffix);
        self.put_mentions(mentions);
        Ok(())
    }

    /// The body of a function with this declarator.
    #[tactic(auto, using(crate::proofs::ScopeEnds::function_back))]
    fn function_body(
        &mut self,
        declarator: &mut Declarator,
        body: &mut Items<Stmt>,
    ) -> Result<(), NoMemory>
        ensures same { OnOk result (declarator_tree declarator.new ≡ declarator_tree declarator.old) }
        ensures tree { (end : ℕ) → OnOk result (RenamesBody declarator.old end body.old body.new self.old) }
        ensures names { (end : ℕ) → OnOk result (LeavesBody declarator.old body.old end self.old self.new) }
    {
        let outer = self.outer();
        self.inside_params(declarator)?;
        self.body(body)?;
        self.leave(outer)
    }

    /// An external declaration.
    #[tactic(auto, unfolding(crate::specs::Externals::behind_external, crate::specs::Externals::renamed_external, c_tree::specs::Scopes::has_typedef))]
    pub(crate) fn external(&mut self, decl: &mut Decl) -> Result<(), NoMemory>
        ensures tree { OnOk result (decl_view decl.new ≡ renamed_external (decl_view decl.old) self.old) }
        ensures names { OnOk result (self.new ≡ behind_external (decl_view decl.old) self.old) }
    {
        match decl {
            Decl::Function {
                line,
                specs,
                declarator,
                body,
                ..
            } => {
                self.specs(specs)?;
                self.file_declarator(Role::Defined, *line, declarator)?;
                self.function_body(declarator, body)
            }
            Decl::Names { line, specs, names } => {
                let typedef = specs.has_typedef();
                self.specs(specs)?;
                self.file_entries(*line, typedef, names)
            }
        }
    }
}
