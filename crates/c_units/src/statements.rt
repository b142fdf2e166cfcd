//! Names in initializers and statements as they stand in the program.

ghost use Rattle.std.specs.Prelude.{◌≡◌, ℕ, OnOk};
ghost use Rattle.c_tree.specs.StatementView.{trees, expr_view, init_view, entry_view, maybe, maybe_expr, start_view, stmt_view, stmt_tree, body_view};
ghost use Rattle.c_tree.specs.Forms as form;
ghost use Rattle.c_units.specs.Names.{behind, renamed};
ghost use Rattle.c_units.specs.Turns.{behind_branch, in_turn, inner, is_scope_kind};
ghost use Rattle.c_units.specs.Rewriting.{Rewrites, RewritesMaybe, RewritesEach, boxed_stmt, RewritesBranch, RewritesItems, RewritesTest, RewritesStep, RewritesControlled, behind_scope, behind_step, behind_controlled};

use crate::declarations::declared_name;
use crate::walk::Walk;
use c_tree::{Declarator, Expr, ForStart, Init, InitKind, Stmt, StmtKind};
use hs_base::{Items, Line, NoMemory};
use std::mem;

/// Whether a statement of that kind is a scope (C99 6.8.2 to 6.8.5).
fn is_scope(kind: &StmtKind) -> bool
    ensures { result ≡ is_scope_kind kind.now }
{
    match kind {
        StmtKind::Block(_)
        | StmtKind::Delay(_)
        | StmtKind::If(_, _, _)
        | StmtKind::While(_, _)
        | StmtKind::Do(_, _)
        | StmtKind::For(_, _, _, _)
        | StmtKind::Switch(_, _) => true,
        StmtKind::Empty
        | StmtKind::Expr(_)
        | StmtKind::Case(_, _)
        | StmtKind::Default(_)
        | StmtKind::Break
        | StmtKind::Continue
        | StmtKind::Return(_)
        | StmtKind::Local(_, _) => false,
    }
}

impl Walk {
    /// An expression that may be left out.
    #[tactic(auto, unfolding(crate::specs::Names::behind, crate::specs::Names::all_behind, crate::specs::Names::renamed, crate::specs::Names::all_renamed, crate::specs::Names::left, crate::specs::Names::entered, crate::specs::Names::made, c_tree::specs::Grammar::shape, c_tree::specs::Scopes::is_scope))]
    fn maybe_expr(&mut self, e: &mut Option<Expr>) -> Result<(), NoMemory>
        ensures tree { OnOk result (RewritesMaybe form.MaybeExpr expr_view e.old e.new self.old) }
        ensures names { OnOk result (self.new ≡ behind (maybe_expr e.old) self.old) }
    {
        match e {
            Some(e) => self.expr(e),
            None => Ok(()),
        }
    }

    /// An initializer.
    #[cycle(inits)]
    #[tactic(auto, unfolding(c_tree::specs::StatementView::init_tree, crate::specs::Names::behind, crate::specs::Names::all_behind, crate::specs::Names::renamed, crate::specs::Names::all_renamed, crate::specs::Names::left, crate::specs::Names::entered, crate::specs::Names::made, c_tree::specs::Grammar::shape, c_tree::specs::Scopes::is_scope), using(crate::proofs::TreeParts::init_list_known, crate::proofs::TreeParts::init_list_made))]
    fn init(&mut self, init: &mut Init) -> Result<(), NoMemory>
        ensures tree { OnOk result (Rewrites init_view init.old init.new self.old) }
        ensures names { OnOk result (self.new ≡ behind (init_view init.old) self.old) }
    {
        match &mut init.kind {
            InitKind::Expr(value) => self.expr(value),
            InitKind::List(list, _) => self.inits(list),
        }
    }

    /// Initializers in turn.
    #[cycle(inits)]
    #[tactic(auto, using(crate::proofs::ItemTurns::item_next, crate::proofs::ItemTurns::all_made, crate::proofs::ItemTurns::all_known))]
    fn inits(&mut self, list: &mut [Init]) -> Result<(), NoMemory>
        ensures trees { OnOk result (RewritesEach init_view list.old list.new self.old) }
        ensures names { OnOk result (self.new ≡ in_turn (trees init_view list.old) self.old) }
    {
        for one in list.iter_mut() {
            self.init(one)?;
        }
        Ok(())
    }

    /// An initializer that may be left out.
    #[tactic(auto, unfolding(crate::specs::Names::behind, crate::specs::Names::all_behind, crate::specs::Names::renamed, crate::specs::Names::all_renamed, crate::specs::Names::left, crate::specs::Names::entered, crate::specs::Names::made, c_tree::specs::Grammar::shape, c_tree::specs::Scopes::is_scope))]
    pub(crate) fn maybe_init(&mut self, init: &mut Option<Init>) -> Result<(), NoMemory>
        ensures tree { OnOk result (RewritesMaybe form.MaybeInit init_view init.old init.new self.old) }
        ensures names { OnOk result (self.new ≡ behind (maybe form.MaybeInit init_view init.old) self.old) }
    {
        match init {
            Some(init) => self.init(init),
            None => Ok(()),
        }
    }

    /// A name of a declaration in an inner scope, which holds before its initializer (C99 6.2.1).
    #[tactic(auto, unfolding(crate::specs::Names::behind, crate::specs::Names::all_behind, crate::specs::Names::renamed, crate::specs::Names::all_renamed, crate::specs::Names::left, crate::specs::Names::entered, crate::specs::Names::made, c_tree::specs::Grammar::shape, c_tree::specs::Scopes::is_scope), using(crate::proofs::TreeParts::entry_known, crate::proofs::TreeParts::entry_made, crate::proofs::BoundTrees::name_same))]
    fn entry(&mut self, entry: &mut (Declarator, Option<Init>)) -> Result<(), NoMemory>
        ensures tree { OnOk result (Rewrites entry_view entry.old entry.new self.old) }
        ensures names { OnOk result (self.new ≡ behind (entry_view entry.old) self.old) }
    {
        self.declarator(&mut entry.0)?;
        let binding = self.binding_here();
        self.declare(declared_name(&entry.0), binding)?;
        self.maybe_init(&mut entry.1)
    }

    /// Names of a declaration in an inner scope, in turn.
    #[tactic(auto, using(crate::proofs::ItemTurns::item_next, crate::proofs::ItemTurns::all_made, crate::proofs::ItemTurns::all_known))]
    fn each_entry(&mut self, list: &mut [(Declarator, Option<Init>)]) -> Result<(), NoMemory>
        ensures trees { OnOk result (RewritesEach entry_view list.old list.new self.old) }
        ensures names { OnOk result (self.new ≡ in_turn (trees entry_view list.old) self.old) }
    {
        for one in list.iter_mut() {
            self.entry(one)?;
        }
        Ok(())
    }

    /// The names of a declaration in an inner scope.
    fn entries(&mut self, names: &mut Items<(Declarator, Option<Init>)>) -> Result<(), NoMemory>
        ensures trees { OnOk result (RewritesEach entry_view names.old names.new self.old) }
        ensures names { OnOk result (self.new ≡ in_turn (trees entry_view names.old) self.old) }
    {
        let mut list = mem::replace(names, Items::new(self.alloc)).into_vec();
        self.each_entry(&mut list)?;
        *names = Items::from(list);
        Ok(())
    }

    /// What stands before the first `;` of a `for`.
    #[tactic(auto, unfolding(crate::specs::Names::behind, crate::specs::Names::all_behind, crate::specs::Names::renamed, crate::specs::Names::all_renamed, crate::specs::Names::left, crate::specs::Names::entered, crate::specs::Names::made, c_tree::specs::Grammar::shape, c_tree::specs::Scopes::is_scope), using(crate::proofs::TreeParts::names_known, crate::proofs::TreeParts::names_made))]
    fn for_start(&mut self, start: &mut ForStart) -> Result<(), NoMemory>
        ensures tree { OnOk result (Rewrites start_view start.old start.new self.old) }
        ensures names { OnOk result (self.new ≡ behind (start_view start.old) self.old) }
    {
        match start {
            ForStart::Names(specs, names) => {
                self.specs(specs)?;
                self.entries(names)
            }
            ForStart::Expr(e) => self.maybe_expr(e),
        }
    }

    /// A statement, behind which the names of a scope that it is hold no more.
    #[cycle(statements)]
    #[tactic(auto, using(crate::proofs::ScopeEnds::statement_is))]
    fn stmt(&mut self, stmt: &mut Stmt) -> Result<(), NoMemory>
        ensures tree { OnOk result (Rewrites stmt_view stmt.old stmt.new self.old) }
        ensures names { OnOk result (self.new ≡ behind (stmt_view stmt.old) self.old) }
    {
        let is_scope = is_scope(&stmt.kind);
        let outer = self.outer();
        self.stmt_of(stmt.line, &mut stmt.kind)?;
        self.leave_if(is_scope, outer)
    }

    /// A statement that is a scope of its own.
    #[cycle(statements)]
    #[tactic(auto, using(crate::proofs::ScopeEnds::tree_back))]
    fn branch(&mut self, stmt: &mut Stmt) -> Result<(), NoMemory>
        ensures tree { OnOk result (Rewrites stmt_view stmt.old stmt.new self.old) }
        ensures names { OnOk result (self.new ≡ behind_scope (stmt_view stmt.old) self.old) }
    {
        let outer = self.outer();
        self.stmt(stmt)?;
        self.leave(outer)
    }

    /// A statement before the end of the scope that it is.
    #[cycle(statements)]
    #[tactic(auto, unfolding(c_tree::specs::StatementView::stmt_tree, crate::specs::Names::behind, crate::specs::Names::all_behind, crate::specs::Names::renamed, crate::specs::Names::all_renamed, crate::specs::Names::left, crate::specs::Names::entered, crate::specs::Names::made, c_tree::specs::Grammar::shape, c_tree::specs::Scopes::is_scope), using(crate::proofs::TreeParts::block_ends, crate::proofs::TreeParts::block_made, crate::proofs::TreeParts::delay_ends, crate::proofs::TreeParts::delay_made, crate::proofs::TreeParts::choice_ends, crate::proofs::TreeParts::choice_made, crate::proofs::TreeParts::names_known, crate::proofs::TreeParts::names_made))]
    fn stmt_of(&mut self, line: Line, kind: &mut StmtKind) -> Result<(), NoMemory>
        ensures tree { OnOk result (stmt_tree kind.new line ≡ renamed (stmt_tree kind.old line) self.old) }
        ensures names { OnOk result (self.new ≡ inner (stmt_tree kind.old line) self.old) }
    {
        match kind {
            StmtKind::Empty | StmtKind::Break | StmtKind::Continue => Ok(()),
            StmtKind::Expr(value) => self.expr(value),
            StmtKind::Block(items) => self.items(items),
            StmtKind::Delay(items) => self.items(items),
            StmtKind::If(test, body, other) => {
                self.guarded(test, body)?;
                self.maybe_branch(other)
            }
            StmtKind::While(test, body) => self.guarded(test, body),
            StmtKind::Switch(value, body) => self.guarded(value, body),
            StmtKind::Do(body, test) => {
                self.branch(body)?;
                self.expr(test)
            }
            StmtKind::For(start, test, step, body) => {
                self.for_head(start, test, step)?;
                self.branch(body)
            }
            StmtKind::Case(value, body) => {
                self.expr(value)?;
                self.stmt(body)
            }
            StmtKind::Default(body) => self.stmt(body),
            StmtKind::Return(value) => self.maybe_expr(value),
            StmtKind::Local(specs, names) => {
                self.specs(specs)?;
                self.entries(names)
            }
        }
    }

    /// An expression, and a statement behind it that is a scope of its own.
    #[cycle(statements)]
    fn guarded(&mut self, e: &mut Expr, body: &mut Stmt) -> Result<(), NoMemory>
        ensures e { OnOk result (Rewrites expr_view e.old e.new self.old) }
        ensures body { OnOk result (RewritesControlled e.old body.old body.new self.old) }
        ensures names { OnOk result (self.new ≡ behind_controlled e.old body.old self.old) }
    {
        self.expr(e)?;
        self.branch(body)
    }

    /// A statement that is a scope of its own and may be left out.
    #[cycle(statements)]
    fn maybe_branch(&mut self, stmt: &mut Option<Box<Stmt>>) -> Result<(), NoMemory>
        ensures tree { OnOk result (RewritesBranch stmt.old stmt.new self.old) }
        ensures names { OnOk result (self.new ≡ behind_branch (boxed_stmt stmt.old) self.old) }
    {
        match stmt {
            Some(stmt) => self.branch(stmt),
            None => Ok(()),
        }
    }

    /// What stands in the parentheses of a `for`.
    fn for_head(
        &mut self,
        start: &mut ForStart,
        test: &mut Option<Expr>,
        step: &mut Option<Expr>,
    ) -> Result<(), NoMemory>
        ensures start { OnOk result (Rewrites start_view start.old start.new self.old) }
        ensures test { OnOk result (RewritesTest start.old test.old test.new self.old) }
        ensures step { OnOk result (RewritesStep start.old test.old step.old step.new self.old) }
        ensures names { OnOk result (self.new ≡ behind_step start.old test.old step.old self.old) }
    {
        self.for_start(start)?;
        self.maybe_expr(test)?;
        self.maybe_expr(step)
    }

    /// What stands in a block.
    #[cycle(statements)]
    #[tactic(auto, using(crate::proofs::ItemTurns::item_next, crate::proofs::ItemTurns::all_made, crate::proofs::ItemTurns::all_known))]
    fn items(&mut self, list: &mut [Stmt]) -> Result<(), NoMemory>
        ensures trees { OnOk result (RewritesEach stmt_view list.old list.new self.old) }
        ensures names { OnOk result (self.new ≡ in_turn (trees stmt_view list.old) self.old) }
    {
        for one in list.iter_mut() {
            self.stmt(one)?;
        }
        Ok(())
    }

    /// The statements of a body.
    fn statements(&mut self, body: &mut Items<Stmt>) -> Result<(), NoMemory>
        ensures trees { OnOk result (RewritesEach stmt_view body.old body.new self.old) }
        ensures names { OnOk result (self.new ≡ in_turn (trees stmt_view body.old) self.old) }
    {
        let mut list = mem::replace(body, Items::new(self.alloc)).into_vec();
        self.items(&mut list)?;
        *body = Items::from(list);
        Ok(())
    }

    /// The body of a function, which is a scope.
    #[tactic(auto, using(crate::proofs::ScopeEnds::body_known, crate::proofs::ScopeEnds::body_made))]
    pub(crate) fn body(&mut self, body: &mut Items<Stmt>) -> Result<(), NoMemory>
        ensures trees { (end : ℕ) → OnOk result (RewritesItems end body.old body.new self.old) }
        ensures names { (end : ℕ) → OnOk result (self.new ≡ behind (body_view body.old end) self.old) }
    {
        let outer = self.outer();
        self.statements(body)?;
        self.leave(outer)
    }
}
