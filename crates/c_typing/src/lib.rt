//! Types of expressions and values of constants (C99 6.3, 6.5, 6.6, 6.7.6), over the trees of `c_tree`.
//!
//! - The rules of operators, as small functions beside those of `c_decls`: [`cast`], [`choice`], [`size`], [`element`],
//!   [`dot`], [`arrow`], [`assigned`], [`changed`], [`stepped`], [`held_place`]; those of names and calls: [`named`],
//!   [`called`], [`no_function`], [`call`]; and those of constants and literals: [`int_constant`], [`char_constant`],
//!   [`string`]. Each meets the definition of its name in `c_decls/specs`; where it refuses, [`c_decls::TypeError::Bad`]
//!   has the kind and the line.
//! - [`word_type`], [`with_layers`] and [`with_param_layers`] make the types that words and the layers of a declarator say.
//! - The walk over an expression (`walk.rt`) meets the definitions of `c_decls/specs/Expressions.antt`: the parts from left
//!   to right, and the whole after its parts. [`typed`], [`typename`] and [`special_type`] are the walk for scopes and tags
//!   of the caller, [`value_ahead`] and [`constant`] the walk for scopes and tags that are only lent; inside it a [`Typer`]
//!   keeps what the expression declares: scopes, and the tags that are first named in it.
#![tactic(auto)]

mod api;
mod callees;
mod formats;
mod layers;
mod lent;
mod literals;
mod members;
mod places;
mod typer;
mod walk;
mod words;

pub use api::{constant, constant_from, special_type, typed, typename, value_ahead};
pub use callees::{Callee, call, called, is_built_in, named, no_function};
pub use layers::{Layer, adjusted, array_length, with_layers, with_param_layers};
pub use lent::Around;
pub use literals::{char_constant, first_literal, int_constant, joined, string};
pub use members::{arrow, dot};
pub use places::{
    assigned, behind_comma, cast, changed, choice, element, held_place, is_written, measured, size,
    stepped, unconverted,
};
pub use typer::Typer;
pub use walk::declared_name;
pub use words::{is_special, special_word, word_type};
