//! Code: its instructions and its tables.

use crate::instructions::Instr;
use crate::registers::Registers;
use c_types::Layout;
use hs_base::{Items, Line};

/// The code of a program. Functions, statics, layouts and formats are named by their numbers in these lists.
#[derive(Debug, Drop)]
pub struct Code {
    pub instrs: Items<Instr>,
    pub funcs: Items<Entry>,
    pub statics: Items<StaticInit>,
    pub layouts: Items<Layout>,
    /// The sites of freeing, ascending by their instruction.
    pub sites: Items<Site>,
    /// The line of the text that each instruction comes from.
    pub lines: Items<Line>,
    /// The formats of all calls of `printf`.
    pub formats: Items<Items<u8>>,
}

/// A function.
#[derive(Debug, Drop)]
pub struct Entry {
    /// Its first instruction. Its code ends where that of the next function begins.
    pub first: u32,
    /// How many of its registers, from the first on, take the arguments.
    pub params: u32,
    /// Whether each of its registers holds a pointer.
    pub kinds: Items<bool>,
    /// The layouts of its memory locals.
    pub mems: Items<u32>,
}

/// An object that is there for the whole run, and what it holds first (C99 6.7.8).
#[derive(Debug, Drop)]
pub struct StaticInit {
    pub layout: u32,
    /// Its bytes from offset 0 on. Those behind them are zero, and so are those of its slots.
    pub bytes: Items<u8>,
    /// Its pointers that are not null: the offset of the slot, the static that is pointed to, and the offset in that one.
    pub pointers: Items<(u32, u32, u32)>,
}

/// An instruction at which objects may be freed or locals may end, and the pointer registers that count there, ascending.
#[derive(Debug, Drop)]
pub struct Site {
    pub instr: u32,
    pub pins: Registers,
}
