//! Why a text is refused by its types.

ghost use Rattle.std.specs.Prelude.{◌≡◌, Some};
ghost use Rattle.c_decls.specs.Refusals.{word_of};

use hs_base::{Line, NoMemory};
use std::alloc::AllocFailed;
use std::fmt;
use thiserror::Error;

/// What is wrong with an expression, a declaration or a statement.
#[derive(Clone, Copy, Debug, PartialEq, Eq)]
pub enum TypeKind {
    /// A name without a declaration in scope (C99 6.5.1).
    Undeclared,
    /// A name declared again in its scope (C99 6.7).
    DeclaredTwice,
    /// Operand types that an operator does not take (C99 6.5).
    Operands,
    /// No place where one is wanted (C99 6.5.3.1, 6.5.16).
    NotLvalue,
    /// A call with another number of arguments (C99 6.5.2.2).
    ArgumentCount,
    /// A type that does not convert (C99 6.5.16.1).
    Assignment,
    /// An incomplete type or void where a size is wanted (C99 6.2.5).
    Incomplete,
    /// A name that is no member of the type (C99 6.5.2.3).
    NoMember,
    /// A slot of one member of a union is other bytes of another one.
    PointerInUnion,
    /// A pointer where an integer is wanted, or an integer where a pointer is.
    PointerAndInteger,
    /// No constant where one is wanted (C99 6.6).
    NotConstant,
    /// A `break`, `continue`, `case` or `default` outside a statement that takes it (C99 6.8.1, 6.8.6).
    StrayBreak,
    /// Two equal cases of one switch (C99 6.8.4.2).
    CaseTwice,
    /// A type over 268,435,456 bytes.
    TypeTooLarge,
    /// A format, or arguments for it, that `printf` does not take (C99 7.19.6.1).
    Format,
    /// No definition of `main` (C99 5.1.2.2.1).
    NoMain,
    /// A form that is no part of this language.
    LeftOut,
    /// The statics are too large together.
    StaticTooLarge,
    /// The functions are too long together.
    ProgramTooLong,
}

impl TypeKind {
    /// The words that a report has for it.
    pub fn word(self) -> &'static str
        ensures { result.now ≡ word_of self }
    {
        match self {
            TypeKind::Undeclared => "undeclared",
            TypeKind::DeclaredTwice => "declared twice",
            TypeKind::Operands => "operands",
            TypeKind::NotLvalue => "not an lvalue",
            TypeKind::ArgumentCount => "argument count",
            TypeKind::Assignment => "assignment",
            TypeKind::Incomplete => "incomplete",
            TypeKind::NoMember => "no member",
            TypeKind::PointerInUnion => "pointer in union",
            TypeKind::PointerAndInteger => "pointer and integer",
            TypeKind::NotConstant => "not constant",
            TypeKind::StrayBreak => "stray break",
            TypeKind::CaseTwice => "case twice",
            TypeKind::TypeTooLarge => "type too large",
            TypeKind::Format => "format",
            TypeKind::NoMain => "no main",
            TypeKind::LeftOut => "left out",
            TypeKind::StaticTooLarge => "static too large",
            TypeKind::ProgramTooLong => "program too long",
        }
    }
}

impl fmt::Display for TypeKind {
    ghost output = { λ kind. Some (word_of kind) };

    fn fmt<W: fmt::Write>(&self, f: &mut fmt::Formatter<W>) -> fmt::Result {
        f.write_str(self.word())
    }
}

/// Why an expression has no type or no value.
#[derive(Clone, Copy, Debug, PartialEq, Eq, Error)]
pub enum TypeError {
    /// The first refusal, at the line of its node.
    #[error("line {line}: {kind}")]
    Bad { kind: TypeKind, line: Line },
    /// Memory was wanted and there was none.
    #[error("no memory")]
    NoMemory,
}

impl From<NoMemory> for TypeError {
    ghost use Rattle.std.specs.Prelude.{◌≡◌};
    ghost use Rattle.c_decls.specs.declared.refusal.TypeError.TheVariants.{NoMemory};

    ghost from_gives = { λ _ e. e ≡ NoMemory };

    fn from(_: NoMemory) -> TypeError {
        TypeError::NoMemory
    }
}

impl<T: Drop> From<AllocFailed<T>> for TypeError {
    ghost use Rattle.std.specs.Prelude.{◌≡◌};
    ghost use Rattle.c_decls.specs.declared.refusal.TypeError.TheVariants.{NoMemory};

    ghost from_gives = { λ _ e. e ≡ NoMemory };

    fn from(_: AllocFailed<T>) -> TypeError {
        TypeError::NoMemory
    }
}
