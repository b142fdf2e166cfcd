//! Syntax trees of the C subset (C99 6.5 to 6.9, narrowed), and their spelling.
//!
//! A [`Unit`] is the tree of a text: external declarations, with statements, expressions, declarators and specs below
//! them. Each node has the line of its first token and its parts in the order of the grammar; tokens that are parts keep
//! their spelling, and parentheses are nodes. Each node is made by a function of its type ([`Expr::paren`],
//! [`Stmt::while_loop`], ..). [`write_unit`] gives the canonical spelling of a text; its one error is want of memory.
//!
//! Contracts see a tree as a `Tree` of `specs/`: a form with parts, without where it lies in memory (`View` and
//! `StatementView`). One table there, `shape` of `Grammar`, gives the words and the parts of each form in order. From it
//! come:
//!
//! - the spelling of a tree, with the lines that it tells (`Spelling`), and its canonical text (`Canonical`);
//! - which trees are allowed (`Allowed`): where a tree of each form may stand, and the rules beside the grammar, with
//!   the names that are types at each place (`Scopes`);
//! - how deep a tree is (`Depth`);
//! - which tree tokens have, and at which line they go wrong where they have none (`HasTree`).
//!
//! [`canonical_text_is_read_again`] says that the tokens of the canonical text are the words of the tree (`Reread`).
#![tactic(auto)]

mod declarations;
mod expressions;
mod laws;
mod operator;
mod spec_words;
mod statement;
mod statements;
mod tree;
mod word;
mod write_expressions;
mod write_statements;
mod writer;

pub use laws::canonical_text_is_read_again;
pub use operator::{AssignOp, BinaryOp, RecordSort, UnaryOp};
pub use statement::{Decl, ForStart, Init, InitKind, Stmt, StmtKind, Unit};
pub use tree::{
    Base, Declarator, Enumerator, Expr, ExprKind, Member, Param, Spec, Specs, Suffix, SuffixKind,
    Tag, TagKind, TypeName,
};
pub use word::{Keyword, Sign};
pub use write_statements::write_unit;
