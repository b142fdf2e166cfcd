//! The tree of the tokens of a C text (C99 6.5 to 6.9, narrowed to the language of HeapSafe).
//!
//! [`parse`] gives the tree of a text's tokens, of which there is one alone, or says at which line they go wrong. Its code reads
//! as `read_unit` of `grammar_reading` does, in the same order: each function gives what the definition of its part reads
//! (`Reads` of `parser_parts`), and the laws of that crate say that this is the tree of the grammar of `c_tree`. Lists are read
//! by loops, so a text of any length takes no more of the stack than its depth asks for.
//!
//! [`parse_condition`] gives the tree of a condition of the preprocessor, one expression alone, where tokens are one.
//!
//! The readers of expressions, declarators and specs call one another, and so do those of statements: each such cycle has one
//! proof. What a reader asks of a token, a name, an operator or a depth is answered outside of them, in `parser_parts`.
//!
//! A function that is marked `inline(never)` stands apart, so that those that call it keep little of the native stack while
//! they call themselves through others: a text at the greatest depth has to be read with 4 MiB of it.
#![tactic(auto)]

mod condition;
mod declarator;
mod error;
mod expression;
mod external;
mod function;
mod kind;
mod levels;
mod names;
mod operand;
mod pieces;
mod postfix;
mod specifiers;
mod statement;
mod strings;
mod tags;
mod unit;

pub use condition::parse_condition;
pub use error::ParseError;
pub use unit::parse;
