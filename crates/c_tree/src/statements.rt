//! Initializers, statements and external declarations, made of their parts.
#![tactic(auto, unfolding(crate::specs::StatementView::init_tree, crate::specs::StatementView::stmt_tree, crate::specs::StatementView::if_tree))]

ghost use Rattle.std.specs.Prelude.{◌≡◌, IfOk, option_map, Option, Some, None};
ghost use Rattle.c_tree.specs.Forms as form;
ghost use Rattle.c_tree.specs.Tree.{At, Node, none, ◌▹◌};
ghost use Rattle.c_tree.specs.StatementView.{expr_view, init_view, init_list_view, declaration_parts, maybe_expr, stmt_view, items_view, branch_view, for_view, function_view, decl_view};
ghost use Rattle.c_tree.specs.Made.{MakesStmt};

use crate::statement::{Decl, ForStart, Init, InitKind, Stmt, StmtKind};
use crate::tree::{Declarator, Expr, Specs};
use hs_base::{Items, Line, NoMemory};
use std::alloc::Global;

impl Init {
    /// An expression.
    pub fn expr(line: Line, value: Expr) -> Init
        ensures { init_view result ≡ Node form.InitExpr (At line ▹ expr_view value ▹ none) }
    {
        Init {
            line,
            kind: InitKind::Expr(value),
        }
    }

    /// `{ inits }`, where a comma may stand behind the last one.
    #[tactic(auto, using(crate::specs::StatementViewEquations::init_list_tree))]
    pub fn list(line: Line, inits: Vec<Init>, trailing: bool) -> Init
        ensures { init_view result ≡ init_list_view line inits.items trailing }
    {
        Init {
            line,
            kind: InitKind::List(inits, trailing),
        }
    }
}

/// A statement, where there is one, in a box.
fn boxed(alloc: Global, value: Option<Stmt>) -> Result<Option<Box<Stmt>>, NoMemory>
    ensures { IfOk result (λ boxed. option_map (λ b. b.value) boxed ≡ value) }
{
    match value {
        Some(value) => Ok(Some(Box::new(alloc, value)?)),
        None => Ok(None),
    }
}

impl Stmt {
    /// `;`
    pub fn empty(line: Line) -> Stmt
        ensures { stmt_view result ≡ Node form.Empty (At line ▹ none) }
    {
        Stmt {
            line,
            kind: StmtKind::Empty,
        }
    }

    /// `value;`
    pub fn expr(line: Line, value: Expr) -> Stmt
        ensures { stmt_view result ≡ Node form.Expr (At line ▹ expr_view value ▹ none) }
    {
        Stmt {
            line,
            kind: StmtKind::Expr(value),
        }
    }

    /// `{ items }`
    #[tactic(auto, using(crate::specs::StatementViewEquations::block_tree))]
    pub fn block(line: Line, items: Vec<Stmt>) -> Stmt
        ensures { stmt_view result ≡ Node form.Block (At line ▹ items_view items.items ▹ none) }
    {
        Stmt {
            line,
            kind: StmtKind::Block(items),
        }
    }

    /// `__delay_frees { items }`
    #[tactic(auto, using(crate::specs::StatementViewEquations::delay_tree))]
    pub fn delay(line: Line, items: Vec<Stmt>) -> Stmt
        ensures { stmt_view result ≡ Node form.Delay (At line ▹ items_view items.items ▹ none) }
    {
        Stmt {
            line,
            kind: StmtKind::Delay(items),
        }
    }

    /// `if (test) body`, with the statement behind `else` where there is one.
    #[tactic(auto, using(crate::specs::StatementViewEquations::if_else_tree))]
    pub fn branch(
        alloc: Global,
        line: Line,
        test: Expr,
        body: Stmt,
        other: Option<Stmt>,
    ) -> Result<Stmt, NoMemory>
        ensures { IfOk result (λ s. stmt_view s ≡ branch_view line test body other) }
    {
        let body = Box::new(alloc, body)?;
        Ok(Stmt {
            line,
            kind: StmtKind::If(test, body, boxed(alloc, other)?),
        })
    }

    /// `while (test) body`
    pub fn while_loop(alloc: Global, line: Line, test: Expr, body: Stmt) -> Result<Stmt, NoMemory>
        ensures { MakesStmt result line form.While (expr_view test ▹ stmt_view body ▹ none) }
    {
        Ok(Stmt {
            line,
            kind: StmtKind::While(test, Box::new(alloc, body)?),
        })
    }

    /// `do body while (test);`
    pub fn do_loop(alloc: Global, line: Line, body: Stmt, test: Expr) -> Result<Stmt, NoMemory>
        ensures { MakesStmt result line form.Do (stmt_view body ▹ expr_view test ▹ none) }
    {
        Ok(Stmt {
            line,
            kind: StmtKind::Do(Box::new(alloc, body)?, test),
        })
    }

    /// `for (start test; step) body`, where the start has its `;`.
    pub fn for_loop(
        alloc: Global,
        line: Line,
        start: ForStart,
        test: Option<Expr>,
        step: Option<Expr>,
        body: Stmt,
    ) -> Result<Stmt, NoMemory>
        ensures { IfOk result (λ s. stmt_view s ≡ for_view line start test step body) }
    {
        Ok(Stmt {
            line,
            kind: StmtKind::For(start, test, step, Box::new(alloc, body)?),
        })
    }

    /// `switch (value) body`
    pub fn switch(alloc: Global, line: Line, value: Expr, body: Stmt) -> Result<Stmt, NoMemory>
        ensures { MakesStmt result line form.Switch (expr_view value ▹ stmt_view body ▹ none) }
    {
        Ok(Stmt {
            line,
            kind: StmtKind::Switch(value, Box::new(alloc, body)?),
        })
    }

    /// `case value: body`
    pub fn case(alloc: Global, line: Line, value: Expr, body: Stmt) -> Result<Stmt, NoMemory>
        ensures { MakesStmt result line form.Case (expr_view value ▹ stmt_view body ▹ none) }
    {
        Ok(Stmt {
            line,
            kind: StmtKind::Case(value, Box::new(alloc, body)?),
        })
    }

    /// `default: body`
    pub fn default_case(alloc: Global, line: Line, body: Stmt) -> Result<Stmt, NoMemory>
        ensures { MakesStmt result line form.Default (stmt_view body ▹ none) }
    {
        Ok(Stmt {
            line,
            kind: StmtKind::Default(Box::new(alloc, body)?),
        })
    }

    /// `break;`
    pub fn break_out(line: Line) -> Stmt
        ensures { stmt_view result ≡ Node form.Break (At line ▹ none) }
    {
        Stmt {
            line,
            kind: StmtKind::Break,
        }
    }

    /// `continue;`
    pub fn continue_on(line: Line) -> Stmt
        ensures { stmt_view result ≡ Node form.Continue (At line ▹ none) }
    {
        Stmt {
            line,
            kind: StmtKind::Continue,
        }
    }

    /// `return;` or `return value;`
    pub fn return_with(line: Line, value: Option<Expr>) -> Stmt
        ensures { stmt_view result ≡ Node form.Return (At line ▹ maybe_expr value ▹ none) }
    {
        Stmt {
            line,
            kind: StmtKind::Return(value),
        }
    }

    /// A declaration in a block.
    pub fn local(line: Line, specs: Specs, names: Items<(Declarator, Option<Init>)>) -> Stmt
        ensures { stmt_view result ≡ Node form.Local (At line ▹ declaration_parts specs names) }
    {
        Stmt {
            line,
            kind: StmtKind::Local(specs, names),
        }
    }
}

impl Decl {
    /// The definition of a function, with the line of its closing brace.
    pub fn function(
        line: Line,
        specs: Specs,
        declarator: Declarator,
        body: Items<Stmt>,
        end: Line,
    ) -> Decl
        ensures { decl_view result ≡ function_view line specs declarator body end }
    {
        Decl::Function {
            line,
            specs,
            declarator,
            body,
            end,
        }
    }

    /// A declaration.
    pub fn names(line: Line, specs: Specs, names: Items<(Declarator, Option<Init>)>) -> Decl
        ensures { decl_view result ≡ Node form.Declaration (At line ▹ declaration_parts specs names) }
    {
        Decl::Names { line, specs, names }
    }
}
