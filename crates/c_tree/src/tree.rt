//! Syntax trees (C99 6.5 to 6.9). Every node has the line of its first token and its parts in the order of the grammar;
//! tokens that are parts keep their spelling.
//!
//! `Drop` of a node that functions hold by value is written out and not derived: a drop is then a call, and not a switch
//! over all forms of the node at each place where one may be dropped, which each time would be proved anew.

use crate::operator::{AssignOp, BinaryOp, RecordSort, UnaryOp};
use hs_base::{Items, Line};

/// An expression (C99 6.5).
#[cycle(tree)]
pub struct Expr {
    pub line: Line,
    pub kind: ExprKind,
}

impl Drop for Expr {
    #[cycle(tree)]
    fn drop(self) {
        let Expr { line: _, kind: _ } = self;
    }
}

/// What an expression is. Parentheses are nodes; a comma between expressions is an operator of two operands.
#[cycle(tree)]
#[derive(Drop)]
pub enum ExprKind {
    Name(Items<u8>),
    Int(Items<u8>),
    Char(Items<u8>),
    /// String literals one behind another, at least one.
    Str(Items<Items<u8>>),
    /// `(e)`
    Paren(Box<Expr>),
    /// `e[f]`
    Index(Box<Expr>, Box<Expr>),
    /// `e(f, ..)`
    Call(Box<Expr>, Vec<Expr>),
    /// `e.name`
    Dot(Box<Expr>, Items<u8>),
    /// `e->name`
    Arrow(Box<Expr>, Items<u8>),
    /// `e++`
    PostInc(Box<Expr>),
    /// `e--`
    PostDec(Box<Expr>),
    /// `++e`
    PreInc(Box<Expr>),
    /// `--e`
    PreDec(Box<Expr>),
    Unary(UnaryOp, Box<Expr>),
    /// `sizeof e`
    SizeofExpr(Box<Expr>),
    /// `sizeof(type)`
    SizeofType(Box<TypeName>),
    /// `(type)e`
    Cast(Box<TypeName>, Box<Expr>),
    Binary(BinaryOp, Box<Expr>, Box<Expr>),
    /// `c ? e : f`
    Cond(Box<Expr>, Box<Expr>, Box<Expr>),
    Assign(AssignOp, Box<Expr>, Box<Expr>),
    /// `e, f`
    Comma(Box<Expr>, Box<Expr>),
}

/// A type without a name that it is the type of (C99 6.7.6): specs and a declarator whose name is left out.
#[cycle(tree)]
#[derive(Drop)]
pub struct TypeName {
    pub line: Line,
    pub specs: Specs,
    pub declarator: Declarator,
}

/// The specifiers and qualifiers of a declaration, in their order (C99 6.7).
#[cycle(tree)]
#[derive(Drop)]
pub struct Specs {
    pub line: Line,
    pub words: Vec<Spec>,
}

/// A word of specs.
#[cycle(tree)]
#[derive(Drop)]
pub enum Spec {
    /// `static`
    Static,
    /// `extern`
    Extern,
    /// `typedef`
    Typedef,
    /// `const`
    Const,
    /// `void`
    Void,
    /// `char`
    Char,
    /// `short`
    Short,
    /// `int`
    Int,
    /// `long`
    Long,
    /// `signed`
    Signed,
    /// `unsigned`
    Unsigned,
    /// The name of a type.
    Named(Items<u8>),
    Tag(Tag),
}

/// A struct, union or enum by its tag, or with its braces (C99 6.7.2.1 to 6.7.2.3).
#[cycle(tree)]
pub struct Tag {
    pub line: Line,
    pub kind: TagKind,
}

impl Drop for Tag {
    #[cycle(tree)]
    fn drop(self) {
        let Tag { line: _, kind: _ } = self;
    }
}

/// What a tag is.
#[cycle(tree)]
#[derive(Drop)]
pub enum TagKind {
    /// `struct name` or `union name`
    Record(RecordSort, Items<u8>),
    /// `struct name { member .. }`, where the name may be left out; at least one member.
    RecordBody(RecordSort, Option<Items<u8>>, Vec<Member>),
    /// `enum name`
    Enum(Items<u8>),
    /// `enum name { enumerator, .. }`, where the name may be left out; at least one enumerator, and whether a comma
    /// stands behind the last one.
    EnumBody(Option<Items<u8>>, Vec<Enumerator>, bool),
}

/// Members of one declaration (C99 6.7.2.1): at least one declarator.
#[cycle(tree)]
#[derive(Drop)]
pub struct Member {
    pub line: Line,
    pub specs: Specs,
    pub declarators: Vec<Declarator>,
}

/// An enumerator, with its value where one is given (C99 6.7.2.2).
#[cycle(tree)]
#[derive(Drop)]
pub struct Enumerator {
    pub line: Line,
    pub name: Items<u8>,
    pub value: Option<Box<Expr>>,
}

/// A declarator (C99 6.7.5), or one whose name is left out (C99 6.7.6).
#[cycle(tree)]
pub enum Declarator {
    /// `*` with so many `const` behind it, before a declarator.
    Pointer(Line, usize, Box<Declarator>),
    /// What suffixes stand behind, and the suffixes from left to right.
    Direct(Base, Vec<Suffix>),
}

impl Drop for Declarator {
    #[cycle(tree)]
    fn drop(self) {
        match self {
            Declarator::Pointer(_, _, _) => {}
            Declarator::Direct(_, _) => {}
        }
    }
}

/// What the suffixes of a declarator stand behind.
#[cycle(tree)]
#[derive(Drop)]
pub enum Base {
    /// The name is left out.
    Nothing,
    Name(Items<u8>),
    /// Parentheses around a declarator that begins with `*`.
    Parens(Line, Box<Declarator>),
}

/// A suffix of a declarator: an array or a function.
#[cycle(tree)]
#[derive(Drop)]
pub struct Suffix {
    pub line: Line,
    pub kind: SuffixKind,
}

/// What a suffix is.
#[cycle(tree)]
#[derive(Drop)]
pub enum SuffixKind {
    /// `[length]`, where the length may be left out.
    Array(Option<Box<Expr>>),
    /// `(void)`
    Void,
    /// `(param, ..)`, also without any.
    Params(Vec<Param>),
}

/// A parameter, of which the name may be left out (C99 6.7.5.3).
#[cycle(tree)]
#[derive(Drop)]
pub struct Param {
    pub line: Line,
    pub specs: Specs,
    pub declarator: Declarator,
}
