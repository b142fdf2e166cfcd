//! Initializers, statements and external declarations (C99 6.7.8, 6.8 and 6.9). `Drop` of a node is written out, as in
//! `tree`.

use crate::tree::{Declarator, Expr, Specs};
use hs_base::{Items, Line};

/// An initializer (C99 6.7.8).
#[cycle(init)]
pub struct Init {
    pub line: Line,
    pub kind: InitKind,
}

impl Drop for Init {
    #[cycle(init)]
    fn drop(self) {
        let Init { line: _, kind: _ } = self;
    }
}

/// What an initializer is.
#[cycle(init)]
#[derive(Drop)]
pub enum InitKind {
    Expr(Expr),
    /// `{ init, .. }`: at least one, and whether a comma stands behind the last one.
    List(Vec<Init>, bool),
}

/// A statement, or a declaration in a block (C99 6.8).
#[cycle(stmt)]
pub struct Stmt {
    pub line: Line,
    pub kind: StmtKind,
}

impl Drop for Stmt {
    #[cycle(stmt)]
    fn drop(self) {
        let Stmt { line: _, kind: _ } = self;
    }
}

/// What a statement is.
#[cycle(stmt)]
#[derive(Drop)]
pub enum StmtKind {
    /// `;`
    Empty,
    /// `e;`
    Expr(Expr),
    /// `{ .. }`
    Block(Vec<Stmt>),
    /// `__delay_frees { .. }`
    Delay(Vec<Stmt>),
    /// `if (e) s`, with the statement behind `else` where there is one.
    If(Expr, Box<Stmt>, Option<Box<Stmt>>),
    /// `while (e) s`
    While(Expr, Box<Stmt>),
    /// `do s while (e);`
    Do(Box<Stmt>, Expr),
    /// `for (start; e; f) s`
    For(ForStart, Option<Expr>, Option<Expr>, Box<Stmt>),
    /// `switch (e) s`
    Switch(Expr, Box<Stmt>),
    /// `case e: s`
    Case(Expr, Box<Stmt>),
    /// `default: s`
    Default(Box<Stmt>),
    /// `break;`
    Break,
    /// `continue;`
    Continue,
    /// `return;` or `return e;`
    Return(Option<Expr>),
    /// A declaration in a block: its names with their initializers.
    Local(Specs, Items<(Declarator, Option<Init>)>),
}

/// What stands before the first `;` of a `for`.
#[derive(Drop)]
pub enum ForStart {
    /// A declaration: its names with their initializers, at least one.
    Names(Specs, Items<(Declarator, Option<Init>)>),
    Expr(Option<Expr>),
}

/// An external declaration (C99 6.9).
#[derive(Drop)]
pub enum Decl {
    /// The definition of a function, with the line of its closing brace.
    Function {
        line: Line,
        specs: Specs,
        declarator: Declarator,
        body: Items<Stmt>,
        end: Line,
    },
    /// A declaration: its names with their initializers.
    Names {
        line: Line,
        specs: Specs,
        names: Items<(Declarator, Option<Init>)>,
    },
}

/// A text (C99 6.9).
#[derive(Drop)]
pub struct Unit {
    pub decls: Items<Decl>,
}
