//! Initializers, statements and external declarations, written word by word.

ghost use Rattle.std.specs.Prelude.{◌≡◌, IfOk};
ghost use Rattle.c_tree.specs.Forms as form;
ghost use Rattle.c_tree.specs.Tree.{Node};
ghost use Rattle.c_tree.specs.Canonical.{canonical};
ghost use Rattle.c_tree.specs.StatementView.{trees, init_view, inits_view, entry_view, names_view, maybe_expr, start_view, stmt_view, items_view, decl_view, unit_view};
ghost use Rattle.c_tree.specs.Made.{Writes};

use crate::statement::{Decl, ForStart, Init, InitKind, Stmt, StmtKind, Unit};
use crate::tree::{Declarator, Expr};
use crate::word::{Keyword, Sign};
use crate::writer::Writer;
use hs_base::{Items, NoMemory};
use std::alloc::Global;

impl Writer {
    /// Writes an initializer.
    #[cycle(init)]
    #[tactic(auto, using(crate::proofs::StmtTexts::init_expr_text, crate::proofs::NameTexts::init_list_text))]
    fn init(&mut self, init: &Init) -> Result<(), NoMemory>
        ensures { Writes result self.old self.new (init_view init.now) }
    {
        match &init.kind {
            InitKind::Expr(value) => {
                self.expr(value)?;
                Ok(())
            }
            InitKind::List(inits, trailing) => {
                self.mark(Sign::LeftBrace)?;
                self.inits(inits)?;
                self.close(*trailing)?;
                Ok(())
            }
        }
    }

    /// Writes initializers.
    #[cycle(init)]
    #[tactic(auto, using(crate::proofs::NameTexts::inits_text))]
    fn inits(&mut self, list: &[Init]) -> Result<(), NoMemory>
        ensures { Writes result self.old self.new (inits_view list.now) }
    {
        match list {
            [] => Ok(()),
            [first, rest @ ..] => {
                self.init(first)?;
                for init in rest {
                    self.mark(Sign::Comma)?;
                    self.init(init)?;
                }
                Ok(())
            }
        }
    }

    /// Writes a name of a declaration with its initializer.
    #[tactic(auto, using(crate::proofs::NameTexts::plain_entry_text, crate::proofs::NameTexts::init_entry_text))]
    fn entry(&mut self, entry: &(Declarator, Option<Init>)) -> Result<(), NoMemory>
        ensures { Writes result self.old self.new (entry_view entry.now) }
    {
        self.declarator(&entry.0)?;
        match &entry.1 {
            Some(init) => {
                self.mark(Sign::Equal)?;
                self.init(init)?;
                Ok(())
            }
            None => Ok(()),
        }
    }

    /// Writes the names of a declaration.
    #[tactic(auto, using(crate::proofs::NameTexts::names_text))]
    fn names(&mut self, list: &[(Declarator, Option<Init>)]) -> Result<(), NoMemory>
        ensures { Writes result self.old self.new (names_view list.now) }
    {
        match list {
            [] => Ok(()),
            [first, rest @ ..] => {
                self.entry(first)?;
                for entry in rest {
                    self.mark(Sign::Comma)?;
                    self.entry(entry)?;
                }
                Ok(())
            }
        }
    }

    /// Writes an expression that may be left out.
    #[tactic(auto, using(crate::proofs::NameTexts::no_expr_text, crate::proofs::NameTexts::some_expr_text))]
    fn maybe_expr(&mut self, value: &Option<Expr>) -> Result<(), NoMemory>
        ensures { Writes result self.old self.new (maybe_expr value.now) }
    {
        match value {
            Some(value) => {
                self.expr(value)?;
                Ok(())
            }
            None => Ok(()),
        }
    }

    /// Writes what stands before the first `;` of a `for`, with the `;`.
    #[tactic(auto, using(crate::proofs::NameTexts::for_names_text, crate::proofs::NameTexts::for_start_text))]
    fn for_start(&mut self, start: &ForStart) -> Result<(), NoMemory>
        ensures { Writes result self.old self.new (start_view start.now) }
    {
        match start {
            ForStart::Names(specs, names) => {
                self.specs(specs)?;
                self.names(names.as_slice())?;
                self.mark(Sign::Semicolon)?;
                Ok(())
            }
            ForStart::Expr(value) => {
                self.maybe_expr(value)?;
                self.mark(Sign::Semicolon)?;
                Ok(())
            }
        }
    }

    /// Writes a statement.
    #[cycle(stmt)]
    #[tactic(auto, using(crate::proofs::StmtTexts::stmt_empty_text, crate::proofs::StmtTexts::stmt_expr_text, crate::proofs::StmtTexts::stmt_block_text, crate::proofs::StmtTexts::stmt_delay_text, crate::proofs::StmtTexts::stmt_while_text, crate::proofs::StmtTexts::stmt_do_text, crate::proofs::StmtTexts::stmt_for_text, crate::proofs::StmtTexts::stmt_switch_text, crate::proofs::StmtTexts::stmt_case_text, crate::proofs::StmtTexts::stmt_default_text, crate::proofs::StmtTexts::stmt_break_text, crate::proofs::StmtTexts::stmt_continue_text, crate::proofs::StmtTexts::stmt_return_text, crate::proofs::StmtTexts::stmt_local_text, crate::proofs::NameTexts::plain_if_text, crate::proofs::NameTexts::if_else_text))]
    fn stmt(&mut self, stmt: &Stmt) -> Result<(), NoMemory>
        ensures { Writes result self.old self.new (stmt_view stmt.now) }
    {
        match &stmt.kind {
            StmtKind::Empty => {
                self.mark(Sign::Semicolon)?;
                Ok(())
            }
            StmtKind::Expr(value) => {
                self.expr(value)?;
                self.mark(Sign::Semicolon)?;
                Ok(())
            }
            StmtKind::Block(items) => {
                self.mark(Sign::LeftBrace)?;
                self.items(items)?;
                self.mark(Sign::RightBrace)?;
                Ok(())
            }
            StmtKind::Delay(items) => {
                self.key(Keyword::DelayFrees)?;
                self.mark(Sign::LeftBrace)?;
                self.items(items)?;
                self.mark(Sign::RightBrace)?;
                Ok(())
            }
            StmtKind::While(test, body) => {
                self.key(Keyword::While)?;
                self.mark(Sign::LeftParen)?;
                self.expr(test)?;
                self.mark(Sign::RightParen)?;
                self.stmt(body)?;
                Ok(())
            }
            StmtKind::Do(body, test) => {
                self.key(Keyword::Do)?;
                self.stmt(body)?;
                self.key(Keyword::While)?;
                self.mark(Sign::LeftParen)?;
                self.expr(test)?;
                self.mark(Sign::RightParen)?;
                self.mark(Sign::Semicolon)?;
                Ok(())
            }
            StmtKind::For(start, test, step, body) => {
                self.key(Keyword::For)?;
                self.mark(Sign::LeftParen)?;
                self.for_start(start)?;
                self.maybe_expr(test)?;
                self.mark(Sign::Semicolon)?;
                self.maybe_expr(step)?;
                self.mark(Sign::RightParen)?;
                self.stmt(body)?;
                Ok(())
            }
            StmtKind::Switch(value, body) => {
                self.key(Keyword::Switch)?;
                self.mark(Sign::LeftParen)?;
                self.expr(value)?;
                self.mark(Sign::RightParen)?;
                self.stmt(body)?;
                Ok(())
            }
            StmtKind::Case(value, body) => {
                self.key(Keyword::Case)?;
                self.expr(value)?;
                self.mark(Sign::Colon)?;
                self.stmt(body)?;
                Ok(())
            }
            StmtKind::Default(body) => {
                self.key(Keyword::Default)?;
                self.mark(Sign::Colon)?;
                self.stmt(body)?;
                Ok(())
            }
            StmtKind::Break => {
                self.key(Keyword::Break)?;
                self.mark(Sign::Semicolon)?;
                Ok(())
            }
            StmtKind::Continue => {
                self.key(Keyword::Continue)?;
                self.mark(Sign::Semicolon)?;
                Ok(())
            }
            StmtKind::Return(value) => {
                self.key(Keyword::Return)?;
                self.maybe_expr(value)?;
                self.mark(Sign::Semicolon)?;
                Ok(())
            }
            StmtKind::Local(specs, names) => {
                self.specs(specs)?;
                self.names(names.as_slice())?;
                self.mark(Sign::Semicolon)?;
                Ok(())
            }
            StmtKind::If(test, body, other) => {
                self.key(Keyword::If)?;
                self.mark(Sign::LeftParen)?;
                self.expr(test)?;
                self.mark(Sign::RightParen)?;
                self.stmt(body)?;
                match other {
                    Some(other) => {
                        self.key(Keyword::Else)?;
                        self.stmt(other)?;
                        Ok(())
                    }
                    None => Ok(()),
                }
            }
        }
    }

    /// Writes what stands in a block.
    #[cycle(stmt)]
    #[tactic(auto, using(crate::proofs::NameTexts::items_text))]
    fn items(&mut self, list: &[Stmt]) -> Result<(), NoMemory>
        ensures { Writes result self.old self.new (items_view list.now) }
    {
        for stmt in list {
            self.stmt(stmt)?;
        }
        Ok(())
    }

    /// Writes an external declaration.
    #[tactic(auto, using(crate::proofs::NameTexts::function_text, crate::proofs::NameTexts::declaration_text))]
    fn decl(&mut self, decl: &Decl) -> Result<(), NoMemory>
        ensures { Writes result self.old self.new (decl_view decl.now) }
    {
        match decl {
            Decl::Function {
                specs,
                declarator,
                body,
                ..
            } => {
                self.specs(specs)?;
                self.declarator(declarator)?;
                self.mark(Sign::LeftBrace)?;
                self.items(body.as_slice())?;
                self.mark(Sign::RightBrace)?;
                Ok(())
            }
            Decl::Names { specs, names, .. } => {
                self.specs(specs)?;
                self.names(names.as_slice())?;
                self.mark(Sign::Semicolon)?;
                Ok(())
            }
        }
    }

    /// Writes external declarations.
    #[tactic(auto, using(crate::proofs::NameTexts::decls_text))]
    fn decls(&mut self, list: &[Decl]) -> Result<(), NoMemory>
        ensures { Writes result self.old self.new (Node form.Unit (trees decl_view list.now)) }
    {
        for decl in list {
            self.decl(decl)?;
        }
        Ok(())
    }
}

/// The canonical spelling of a text: its words in order, each followed by an end of line behind `;`, `{` and `}`, and by a
/// space behind every other.
///
/// # Errors
///
/// [`NoMemory`] only for want of memory.
pub fn write_unit(alloc: Global, unit: &Unit) -> Result<Items<u8>, NoMemory>
    ensures { IfOk result (λ text. text ≡ canonical (unit_view unit.now)) }
{
    let mut writer = Writer::new(alloc);
    writer.decls(unit.decls.as_slice())?;
    Ok(writer.into_items())
}
