//! What an object of JSON says of a refusal or of an end.

ghost use Rattle.std.specs.Prelude.{◌≡◌, option_and_then, option_copied, option_map};
ghost use Rattle.bad_free_report.specs.Notice.{facts_of, file_of, first_place, freed_of, help_of, holder_of, is_own, kind_of, limit_of, line_of, place_of, register_kind, source_of, spot_line, spot_source, word_of};
ghost use Rattle.bad_free_report.specs.Told.{ending_of, told_facts, told_limit, told_place, told_refusal_facts, told_spot};

use crate::explanation::{ESCAPE_HELP, Freed, Known, STACK_HELP, STEPS_HELP, free_help, trap_help};
use crate::lines::shown_part;
use crate::names::{func_name, local_name, register_name, static_name};
use crate::words::{reason_words, trap_word};
use core_tree::Core;
use hs_base::{BadFree, End, Holder, Line, Reason};

/// A refusal or a failure: what it is, perhaps with a word for why, perhaps of a file and at a line of its text, and its status.
#[derive(Clone, Copy)]
pub struct Refused<'a> {
    pub kind: &'static [u8],
    pub word: Option<&'a [u8]>,
    pub file: Option<&'a [u8]>,
    pub spot: Option<Spot<'a>>,
    pub status: u8,
}

/// A line of a text, from 1.
#[derive(Clone, Copy)]
pub struct Spot<'a> {
    pub line: Line,
    pub text: &'a [u8],
}

/// How a program ended that has this core: its end, with the name and the bytes of the text in which its line stands; and the
/// what is known of its run, where it is to be explained.
#[derive(Clone, Copy)]
pub struct Ending<'a> {
    pub core: &'a Core,
    pub name: &'a [u8],
    pub text: &'a [u8],
    pub known: Option<Known>,
    pub how: End,
}

/// Where a pointer stands that holds a freed object: in what, its name, its function, the line where it was made, and the offset
/// in bytes, each where there is one.
#[derive(Clone, Copy)]
pub(crate) struct Place<'a> {
    pub(crate) kind: &'static [u8],
    pub(crate) name: Option<&'a [u8]>,
    pub(crate) func: Option<&'a [u8]>,
    pub(crate) line: Option<Line>,
    pub(crate) offset: Option<u32>,
}

/// A limit, what it counts, and the option that raises it.
#[derive(Clone, Copy)]
pub(crate) struct Limit {
    pub(crate) value: u64,
    pub(crate) unit: &'static [u8],
    pub(crate) option: &'static [u8],
}

/// What an object says.
#[derive(Clone, Copy)]
pub(crate) struct Facts<'a> {
    pub(crate) kind: &'static [u8],
    pub(crate) word: Option<&'a [u8]>,
    pub(crate) status: u8,
    pub(crate) own: bool,
    pub(crate) file: Option<&'a [u8]>,
    pub(crate) line: Option<Line>,
    pub(crate) source: Option<&'a [u8]>,
    pub(crate) holder: Option<Place<'a>>,
    pub(crate) freed: Option<Freed>,
    pub(crate) help: Option<&'static [u8]>,
    pub(crate) limit: Option<Limit>,
}

/// The kind of an end.
fn kind_of(end: End) -> &'static [u8]
    ensures { result.now ≡ kind_of end }
{
    match end {
        End::Exit(_) => b"exit",
        End::Trap(..) => b"trap",
        End::BadFree(..) => b"bad free",
        End::Escape { .. } => b"escape",
        End::Spent => b"out of steps",
        End::OutOfStack(_) => b"out of stack",
        End::InputFault => b"input fault",
        End::OutputFault => b"output fault",
    }
}

/// Its word: of which kind a trap is, why a free is wrong, or the name of the local that escapes.
fn word_of(core: &Core, end: End) -> Option<&[u8]>
    ensures { option_copied result ≡ word_of core.now end }
{
    match end {
        End::Trap(kind, _) => Some(trap_word(kind)),
        End::BadFree(free, _) => Some(reason_words(free.reason)),
        End::Escape { func, local, .. } => Some(local_name(core, func, local)),
        _ => None,
    }
}

/// Says whether the status of an end is the program's own.
fn is_own(end: End) -> bool
    ensures { result ≡ is_own end }
{
    match end {
        End::Exit(_) => true,
        _ => false,
    }
}

/// The file that is named of an end: none where the input or the output failed.
fn file_of(name: &[u8], end: End) -> Option<&[u8]>
    ensures { option_copied result ≡ file_of name.now end }
{
    match end {
        End::InputFault | End::OutputFault => None,
        _ => Some(name),
    }
}

/// The line of an end, where it has one.
fn line_of(end: End) -> Option<Line>
    ensures { result ≡ line_of end }
{
    match end {
        End::Trap(_, line)
        | End::BadFree(BadFree { line, .. }, _)
        | End::Escape { line, .. }
        | End::OutOfStack(line) => Some(line),
        _ => None,
    }
}

/// What is shown of a line of a text.
fn source_of(text: &[u8], line: Option<Line>) -> Option<&[u8]>
    ensures { option_copied result ≡ source_of text.now line }
{
    match line {
        Some(line) => shown_part(text, line),
        None => None,
    }
}

/// What a register is: a local where it has a name, and else a value.
fn register_kind(name: Option<&[u8]>) -> &'static [u8]
    ensures { result.now ≡ register_kind (option_copied name.entry) }
{
    match name {
        Some(_) => b"local",
        None => b"value",
    }
}

/// Where a pointer stands.
fn place_of(core: &Core, holder: Holder) -> Place<'_>
    ensures { told_place result ≡ place_of core.now holder }
{
    match holder {
        Holder::Global { index, offset } => Place {
            kind: b"global",
            name: Some(static_name(core, index)),
            func: None,
            line: None,
            offset: Some(offset),
        },
        Holder::Memory {
            func,
            index,
            offset,
        } => Place {
            kind: b"local",
            name: Some(local_name(core, func, index)),
            func: Some(func_name(core, func)),
            line: None,
            offset: Some(offset),
        },
        Holder::Block { line, offset } => Place {
            kind: b"block",
            name: None,
            func: None,
            line: Some(line),
            offset: Some(offset),
        },
        Holder::Register { func, index } => Place {
            kind: register_kind(register_name(core, func, index)),
            name: register_name(core, func, index),
            func: Some(func_name(core, func)),
            line: None,
            offset: None,
        },
    }
}

/// The first holder of an object that is freed and held.
fn first_place(core: &Core, reason: Reason, holder: Option<Holder>) -> Option<Place<'_>>
    ensures { option_map told_place result ≡ first_place core.now reason holder }
{
    match (reason, holder) {
        (Reason::Held, Some(holder)) => Some(place_of(core, holder)),
        _ => None,
    }
}

/// The first holder at a bad free.
fn holder_of(core: &Core, end: End) -> Option<Place<'_>>
    ensures { option_map told_place result ≡ holder_of core.now end }
{
    match end {
        End::BadFree(free, holder) => first_place(core, free.reason, holder),
        _ => None,
    }
}

/// What to mend.
fn help_of(end: End) -> Option<&'static [u8]>
    ensures { option_copied result ≡ help_of end }
{
    match end {
        End::Trap(kind, _) => Some(trap_help(kind)),
        End::BadFree(free, holder) => Some(free_help(free.reason, holder)),
        End::Escape { .. } => Some(ESCAPE_HELP),
        End::Spent => Some(STEPS_HELP),
        End::OutOfStack(_) => Some(STACK_HELP),
        End::Exit(_) | End::InputFault | End::OutputFault => None,
    }
}

/// What was freed at a bad free, where that is known.
fn freed_of(known: Option<Known>, end: End) -> Option<Freed>
    ensures { result ≡ freed_of known end }
{
    let known = known?;
    match end {
        End::BadFree(..) => known.freed,
        _ => None,
    }
}

/// The limit at which a program ended.
fn limit_of(known: Option<Known>, end: End) -> Option<Limit>
    ensures { option_map told_limit result ≡ option_and_then (λ k. limit_of k.limits end) known }
{
    let known = known?;
    let limits = known.limits;
    match end {
        End::Spent => Some(Limit {
            value: limits.steps,
            unit: b"steps",
            option: b"--steps",
        }),
        End::OutOfStack(_) => Some(Limit {
            value: u64::from(limits.stack),
            unit: b"bytes of stack",
            option: b"--stack",
        }),
        _ => None,
    }
}

/// What an object says of an end.
pub(crate) fn facts_of<'a>(ending: &Ending<'a>, status: u8) -> Facts<'a>
    ensures { told_facts result ≡ facts_of (ending_of ending.now) status }
{
    let line = line_of(ending.how);
    Facts {
        kind: kind_of(ending.how),
        word: word_of(ending.core, ending.how),
        status,
        own: is_own(ending.how),
        file: file_of(ending.name, ending.how),
        line,
        source: source_of(ending.text, line),
        holder: holder_of(ending.core, ending.how),
        freed: freed_of(ending.known, ending.how),
        help: help_of(ending.how),
        limit: limit_of(ending.known, ending.how),
    }
}

/// The line of a spot, and what is shown of it.
fn spot_parts<'a>(spot: Option<Spot<'a>>) -> (Option<Line>, Option<&'a [u8]>)
    ensures line { result.0 ≡ spot_line (option_map told_spot spot.entry) }
    ensures source { option_copied result.1 ≡ spot_source (option_map told_spot spot.entry) }
{
    match spot {
        Some(spot) => (Some(spot.line), shown_part(spot.text, spot.line)),
        None => (None, None),
    }
}

/// What an object says of a refusal.
pub(crate) fn refusal_facts<'a>(refused: &Refused<'a>) -> Facts<'a>
    ensures { told_facts result ≡ told_refusal_facts refused.now }
{
    let (line, source) = spot_parts(refused.spot);
    Facts {
        kind: refused.kind,
        word: refused.word,
        status: refused.status,
        own: false,
        file: refused.file,
        line,
        source,
        holder: None,
        freed: None,
        help: None,
        limit: None,
    }
}
