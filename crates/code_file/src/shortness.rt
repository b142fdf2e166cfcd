//! Whether the lists of code are short enough for a code file.

ghost use Rattle.std.specs.Prelude.{◌<◌, ◌↔◌, ◌^◌, All, IsTrue};
ghost use Rattle.c_types.specs.declared.layouts.Layout.{Layout as CodeLayout};
ghost use Rattle.flat_code.specs.declared.program.Site.{Site as CodeSite};
ghost use Rattle.code_file.specs.CodeFile.{IsShortCode, IsShortEntry, IsShortStatic};
ghost use Rattle.code_file.specs.Spelling.{IsShort, IsShortList};

use c_types::Layout;
use flat_code::{Code, Entry, Site, StaticInit};
use hs_base::Items;

/// What the length of a list of a code file is below.
pub(crate) const SHORT: usize = 1 << 32;

/// Says whether functions are few, with few registers and memory locals.
fn are_short_entries(entries: &[Entry]) -> bool
    ensures { IsTrue result ↔ IsShortList IsShortEntry entries.now }
{
    entries.len() < SHORT
        && entries.iter().all(|entry| entry.kinds.len() < SHORT && entry.mems.len() < SHORT)
}

/// Says whether statics are few, with few bytes and pointers.
fn are_short_statics(statics: &[StaticInit]) -> bool
    ensures { IsTrue result ↔ IsShortList IsShortStatic statics.now }
{
    statics.len() < SHORT
        && statics.iter().all(|item| item.bytes.len() < SHORT && item.pointers.len() < SHORT)
}

/// Says whether layouts are few, with few slots.
fn are_short_layouts(layouts: &[Layout]) -> bool
    ensures { IsTrue result ↔ IsShortList (λ (l : CodeLayout). IsShort l.slots) layouts.now }
{
    layouts.len() < SHORT && layouts.iter().all(|layout| layout.slots.len() < SHORT)
}

/// Says whether sites are few, with few pins.
fn are_short_sites(sites: &[Site]) -> bool
    ensures { IsTrue result ↔ IsShortList (λ (s : CodeSite). IsShort s.pins) sites.now }
{
    sites.len() < SHORT && sites.iter().all(|site| site.pins.len() < SHORT)
}

/// Says whether formats are few and short.
fn are_short_formats(formats: &[Items<u8>]) -> bool
    ensures { IsTrue result ↔ IsShortList IsShort formats.now }
{
    formats.len() < SHORT && formats.iter().all(|format| format.len() < SHORT)
}

/// Says whether the lists of code are short enough for a code file: whether each has fewer than 2^32 items.
pub fn has_short_lists(code: &Code) -> bool
    ensures { IsTrue result ↔ IsShortCode code.now }
{
    if code.instrs.len() >= SHORT || code.lines.len() >= SHORT {
        return false;
    }
    if !are_short_entries(code.funcs.as_slice()) || !are_short_statics(code.statics.as_slice()) {
        return false;
    }
    if !are_short_layouts(code.layouts.as_slice()) || !are_short_sites(code.sites.as_slice()) {
        return false;
    }
    are_short_formats(code.formats.as_slice())
}
