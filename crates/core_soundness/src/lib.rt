//! Laws of every core that elaboration gives: it is sound, as `IsSound` of `core_tree` says.
//!
//! The laws of `src/laws.rt` are its parts: how control flows through a function, how large a core is, and that it has one
//! `main`; that the types of expressions are those that their types alone give them; that layouts are those of types, and
//! numbers in range (`specs/Whole.antt`, `specs/Ranges.antt`); that what statics hold first lies in them; that names,
//! formats and the lists of functions are short, where the tokens are few and short; and that the operands of every
//! statement are there and have their sorts. For this the walk keeps a world of what was declared so far
//! (`specs/Worlds.antt`), and `&` stands before no local in a register (`specs/Spoken.antt`). What of this the grammar
//! gives is in `specs/Written.antt`.
//!
//! No code stands on these laws but that of `c_elab`, whose answer is a sound core: so the crates of the walk do not wait for them.
#![tactic(auto)]

mod laws;

pub use laws::{
    calls_are_inside, control_flows, cores_are_sound, formats_are_read, functions_are_sound,
    layouts_are_of_types, lists_are_short, main_answers, names_stay_short, numbers_are_in_range,
    numbers_are_kept, one_main, sizes_are_kept, statements_are_typed, static_pointers_are_inside,
    statics_are_sound, texts_are_made_of_themselves, tokens_are_within, trees_are_written,
    types_agree, types_are_whole,
};
