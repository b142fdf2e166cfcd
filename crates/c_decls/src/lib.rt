//! Scopes and integer constants of C, and the types of expressions (C99 6.2.1, 6.3, 6.5, 6.6).
//!
//! - [`Scopes`] are the scopes that are open at a place of a text: the file scope, which has the built-in names from
//!   the start, and those inside it. Contracts see them as lists of names in order of declaration
//!   (`specs/ScopeList.antt`), the innermost scope first; what [`Scopes::declare`] and [`Scopes::find`] answer is by these
//!   lists alone. Types are seen as plain data (`specs/Named.antt`). An error changes nothing.
//! - [`LayeredType`] is a type with a part of it and how often that part stands in it, as the name of a type keeps it: so a type
//!   of very many array layers is measured by its part.
//! - [`BuiltIn`] is a name that stands in every text; its number is its place in [`BuiltIn::ALL`].
//! - [`promoted`], [`common_type`] and [`number_type`] are the integer promotions, the usual arithmetic conversions and the
//!   type of a number (`specs/IntegerTypes.antt`): `int` and `long` are different types of one width.
//! - [`Constant`] is an integer with its type. Each operator has a method (`specs/Constants.antt`): results wrap, and
//!   there is none for a divisor that is zero or a shift count out of range.
//! - `specs/Expressions.antt` defines the type of an expression, the value of an integer constant expression, and the
//!   first refusal, over the trees of the grammar: the parts from left to right, and the whole after its parts. The rules
//!   of the operators stand in `specs/TypeRules.antt` and `specs/PlaceRules.antt`, those of calls in `specs/Callees.antt`,
//!   and those of the names of types in `specs/TypeNames.antt`. `proofs/Examples.antt` has expressions worked out by hand.
//! - [`Typed`] is what is known of an expression; [`binary`], [`unary`] and [`address`] are the rules of operators as code.
//!   Where they refuse, [`TypeError::Bad`] has the kind and the line. [`line_of`] is the line of an expression.
#![tactic(auto)]

mod built_in;
mod constant;
mod integers;
mod layered;
mod lines;
mod named;
mod refusal;
mod rules;
mod scope;
mod scopes;
mod typed;

pub use built_in::BuiltIn;
pub use constant::Constant;
pub use integers::{common_type, number_type, promoted};
pub use layered::LayeredType;
pub use lines::{init_line, inner_line, line_of};
pub use named::{Named, tag_name};
pub use refusal::{TypeError, TypeKind};
pub use rules::{address, binary, chosen, immovable, result_type, unary, value_unless};
pub use scope::Scope;
pub use scopes::{DeclError, Scopes};
pub use typed::{
    Folded, Operand, Typed, has_no_size, is_array, is_function, is_record, is_same, is_scalar,
    is_void, operand_of, refused,
};
