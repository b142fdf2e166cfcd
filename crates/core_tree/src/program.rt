//! A program: its statics and its functions.

use crate::statements::Stm;
use c_types::Layout;
use hs_base::{Items, Line};

/// A program: its statics, by birth, and its functions in order of definition. The run begins in the function `main`.
#[derive(Debug, Drop)]
pub struct Core {
    pub statics: Items<Static>,
    pub funcs: Items<Func>,
}

/// An object that is there for the whole run (C99 6.2.4 paragraph 3): a file-scope variable with its name, or a string
/// literal, which has none.
#[derive(Debug, Drop)]
pub struct Static {
    pub name: Option<Items<u8>>,
    pub layout: Layout,
    pub start: Start,
}

/// What an object holds before the run (C99 6.7.8).
#[derive(Debug, Drop)]
pub struct Start {
    /// Its bytes from offset 0 on. The bytes behind them are zero, and so are those of its slots.
    pub bytes: Items<u8>,
    /// Its pointers that are not null: the offset of the slot, the static that is pointed to, and the offset in that one.
    pub pointers: Items<(u32, u32, u32)>,
}

/// A function. Its parameters are the first of its registers.
#[derive(Debug, Drop)]
pub struct Func {
    pub name: Items<u8>,
    /// The line of its definition's first token.
    pub line: Line,
    pub params: u32,
    pub regs: Items<Reg>,
    pub mems: Items<Mem>,
    pub body: Items<Stm>,
    /// The formats of its calls of `printf`, in the order of the text.
    pub formats: Items<Items<u8>>,
}

/// A register: its name, where it is a local or a named parameter, and whether it holds a pointer.
#[derive(Debug, Drop)]
pub struct Reg {
    pub name: Option<Items<u8>>,
    pub pointer: bool,
}

/// A local that is an object: one for each call of its function.
#[derive(Debug, Drop)]
pub struct Mem {
    pub name: Items<u8>,
    pub layout: Layout,
}
