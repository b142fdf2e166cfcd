//! What is known at a place of a text, and the steps that change it.

ghost use Rattle.std.specs.Prelude.{◌≡◌, ◌++◌, ◌∷◌, ◌+◌, [], IfOk, OnOk};
ghost use Rattle.elaboration.specs.Context.{Context, Does, Here, first_context, asked, told, entered, left, emit, here, new_label, with_labels, integer_temporary, pointer_temporary, with_integer, with_pointer, anew, with_pieces};
ghost use Rattle.elab_base.specs.Marks.{mark_of, cut};
ghost use Rattle.elab_base.specs.Changes.{without_names};
ghost use Rattle.c_types.specs.TagTable.{no_tags};
ghost use Rattle.c_decls.specs.ScopeList.{no_scopes};

use crate::code::{Code, Mark};
use crate::names::{Declared, Variable, Walked};
use crate::pieces::{Piece, Pieces};
use crate::running::Running;
use c_decls::{Scope, Scopes};
use c_types::Tags;
use core_tree::{Stm, StmKind};
use hs_base::{Items, Line, NoMemory};
use std::alloc::Global;
use std::marker::Model;
use std::mem;

/// What is known at a place of a text: the scopes and tags; the file-scope variables, the bytes of literals, and the bytes
/// that the blocks of both take; the functions in order of declaration, the calls of them with their lines, and those
/// defined; how many statements and operands these have; the scope of the parameter list that ended last; the running
/// function and its code. After an error nothing is said of it.
#[derive(Drop)]
pub struct Elaborator {
    pub(crate) alloc: Global,
    pub(crate) scopes: Scopes,
    pub(crate) tags: Tags,
    pub(crate) variables: Vec<Variable>,
    pub(crate) literals: Vec<Items<u8>>,
    pub(crate) static_bytes: u32,
    pub(crate) functions: Vec<Declared>,
    pub(crate) calls: Vec<(u32, Line)>,
    pub(crate) walked: Vec<Walked>,
    pub(crate) total: u32,
    pub(crate) params: Scope,
    pub(crate) running: Running,
    pub(crate) code: Code,
}

impl Model for Elaborator {
    ghost use Rattle.elaboration.specs.Context.{Context};
    ghost use Rattle.elab_base.specs.Stored.{context_code};

    ghost Value = { Context };

    ghost coded = { context_code };

    ghost view = { λ s. record { scopes = s.scopes; tags = s.tags; variables = s.variables.items; literals = s.literals.items; static_bytes = s.static_bytes; functions = s.functions.items; calls = s.calls.items; walked = s.walked.items; length = s.total; params = s.params; running = s.running; code = s.code } };
}

/// What the core of a text is made of: its tags, its variables and literals, and its functions as they were declared and
/// as they were walked.
#[derive(Drop)]
pub struct Parts {
    pub tags: Tags,
    pub variables: Vec<Variable>,
    pub literals: Vec<Items<u8>>,
    pub functions: Vec<Declared>,
    pub walked: Vec<Walked>,
}

impl Elaborator {
    /// Before the first external declaration of a text.
    pub fn new(alloc: Global) -> Result<Elaborator, NoMemory>
        ensures { IfOk result (λ start. start ≡ first_context) }
    {
        Ok(Elaborator {
            alloc,
            scopes: Scopes::new(alloc)?,
            tags: Tags::new(alloc)?,
            variables: Vec::new(alloc),
            literals: Vec::new(alloc),
            static_bytes: 0,
            functions: Vec::new(alloc),
            calls: Vec::new(alloc),
            walked: Vec::new(alloc),
            total: 0,
            params: Scope::new(alloc),
            running: Running::new(alloc, 0, Vec::new(alloc))?,
            code: Code::new(alloc),
        })
    }

    /// Where memory comes from.
    pub fn alloc(&self) -> Global {
        self.alloc
    }

    /// The scopes that are open.
    pub fn scopes(&self) -> &Scopes
        ensures { result.now ≡ self.now.scopes }
    {
        &self.scopes
    }

    /// The tags so far.
    pub fn tags(&self) -> &Tags
        ensures { result.now ≡ self.now.tags }
    {
        &self.tags
    }

    /// Takes the scopes and the tags, until [`Elaborator::put_names`] puts others in their place.
    pub fn take_names(&mut self) -> Result<(Scopes, Tags), NoMemory>
        ensures names { IfOk result (λ n. asked self.old ≡ record { scopes = n.0; tags = n.1 }) }
        ensures rest { IfOk result (λ _. self.new ≡ without_names self.old) }
    {
        let scopes = mem::replace(&mut self.scopes, Scopes::none(self.alloc));
        let tags = mem::replace(&mut self.tags, Tags::new(self.alloc)?);
        Ok((scopes, tags))
    }

    /// Puts other scopes and tags in place of those so far.
    pub fn put_names(&mut self, scopes: Scopes, tags: Tags)
        ensures { self.new ≡ told (record { scopes = scopes; tags = tags }) self.old }
    {
        self.scopes = scopes;
        self.tags = tags;
    }

    /// A scope begins (C99 6.2.1).
    pub fn enter(&mut self) -> Result<(), NoMemory>
        ensures { IfOk result (λ _. self.new ≡ entered self.old) }
    {
        self.scopes.enter()
    }

    /// A scope ends.
    pub fn leave(&mut self)
        ensures { self.new ≡ left self.old }
    {
        self.scopes.leave();
    }

    /// Adds a statement at a line.
    pub fn emit(&mut self, line: Line, kind: StmKind) -> Result<(), NoMemory>
        ensures { IfOk result (λ _. self.new ≡ emit line kind self.old) }
    {
        self.code.put(Piece::Does(Stm { line, kind }))
    }

    /// A label leads here.
    pub fn here(&mut self, label: u32) -> Result<(), NoMemory>
        ensures { IfOk result (λ _. self.new ≡ here label self.old) }
    {
        self.code.put(Piece::Here(label))
    }

    /// So many new labels: the first of them.
    pub fn take_labels(&mut self, count: u32) -> Result<u32, NoMemory>
        ensures label { IfOk result (λ label. label ≡ new_label self.old) }
        ensures taken { IfOk result (λ _. self.new ≡ with_labels count self.old) }
    {
        self.code.take_labels(count)
    }

    /// The register of a new integer temporary.
    pub fn take_integer(&mut self) -> Result<u32, NoMemory>
        ensures register { IfOk result (λ r. r ≡ integer_temporary self.old.code.integers) }
        ensures taken { OnOk result (self.new ≡ record self.old { code = with_integer self.old.code }) }
    {
        self.code.take_integer()
    }

    /// The register of a new pointer temporary.
    pub fn take_pointer(&mut self) -> Result<u32, NoMemory>
        ensures register { IfOk result (λ r. r ≡ pointer_temporary self.old.code.pointers) }
        ensures taken { OnOk result (self.new ≡ record self.old { code = with_pointer self.old.code }) }
    {
        self.code.take_pointer()
    }

    /// A full expression begins: its temporaries are numbered anew.
    pub fn begin_expression(&mut self)
        ensures { self.new ≡ anew self.old }
    {
        self.code.begin_expression();
    }

    /// Where the code stands.
    pub fn mark(&self) -> Mark
        ensures { result ≡ mark_of self.now.code }
    {
        self.code.mark()
    }

    /// Forgets the code behind a mark.
    pub fn forget(&mut self, mark: Mark)
        ensures { self.new ≡ record self.old { code = cut mark self.old.code } }
    {
        self.code.forget(mark);
    }

    /// Puts other pieces of code in place of those so far, which it gives.
    pub fn swap_pieces(&mut self, pieces: Pieces) -> Pieces
        ensures before { result ≡ self.old.code.pieces }
        ensures with { self.new ≡ with_pieces pieces self.old }
    {
        self.code.swap_pieces(pieces)
    }

    /// What the core of a text is made of.
    pub fn into_parts(self) -> Parts
        ensures tags { result.tags ≡ self.tags }
        ensures variables { result.variables.items ≡ self.variables }
        ensures literals { result.literals.items ≡ self.literals }
        ensures functions { result.functions.items ≡ self.functions }
        ensures walked { result.walked.items ≡ self.walked }
    {
        let Elaborator {
            tags,
            variables,
            literals,
            functions,
            walked,
            ..
        } = self;
        Parts {
            tags,
            variables,
            literals,
            functions,
            walked,
        }
    }
}
