//! What elaboration keeps while it walks over the tree of a text, and the steps that change it.
//!
//! [`Elaborator`] is that state: contracts see it as the `Context` of the definition, and each method as one of its words.
//! A method answers [`hs_base::NoMemory`] where there is no memory, or a refusal of the definition; after an error nothing
//! is said of the state. Where the definition forgets code, [`Elaborator::forget`] cuts it back to a [`Mark`].
#![tactic(auto)]

mod asked;
mod cases;
mod code;
mod conversions;
mod elaborator;
mod externals;
mod found;
mod lengths;
mod locals;
mod names;
mod number_set;
mod numbers;
mod params;
mod pieces;
mod records;
mod running;
mod sizes;
mod starts;
mod statics;
mod switches;
mod variables;

pub use cases::CaseList;
pub use code::{Code, Mark};
pub use elaborator::{Elaborator, Parts};
pub use found::{Fixed, Found, Spot};
pub use names::{Declared, Variable, Walked};
pub use numbers::fit;
pub use pieces::{Piece, Pieces};
pub use running::{Cases, Running};
pub use sizes::{layout_in, size_in};
pub use starts::{no_start, trimmed};
