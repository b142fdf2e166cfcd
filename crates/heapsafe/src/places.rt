//! Lines of the texts that were opened. Below the tokens a line is counted over all of them; what is said names a text and
//! counts in it.

ghost use Rattle.std.specs.Prelude.{◌≡◌, option_copied, option_map};
ghost use Rattle.heapsafe.specs.Places.{named_place, text_of, told_line, told_holder, told_free, told_end, told_freed, told_known, told_leak, line_of_end};

use bad_free_report::{Freed, Known};
use c_pre::Opened;
use hs_base::{BadFree, End, Holder, Leak, Line};

/// The text that a line stands in: the last of those that begin before it.
pub(crate) fn text_of(opened: &[Opened], line: Line) -> Option<&Opened>
    ensures { option_copied result ≡ text_of opened.now line }
{
    let mut found = None;
    for text in opened {
        if text.base < line {
            found = Some(text);
        }
    }
    found
}

/// The number that a line has in its text.
pub(crate) fn told_line(opened: &[Opened], line: Line) -> Line
    ensures { result ≡ told_line opened.now line }
{
    match text_of(opened, line) {
        Some(text) => line.saturating_sub(text.base),
        None => line,
    }
}

/// A holder with the line of its text.
fn told_holder(opened: &[Opened], holder: Holder) -> Holder
    ensures { result ≡ told_holder opened.now holder }
{
    match holder {
        Holder::Block { line, offset } => Holder::Block {
            line: told_line(opened, line),
            offset,
        },
        _ => holder,
    }
}

/// A first holder, if there is one, with the line of its text.
fn told_first(opened: &[Opened], holder: Option<Holder>) -> Option<Holder>
    ensures { result ≡ option_map (told_holder opened.now) holder }
{
    match holder {
        Some(holder) => Some(told_holder(opened, holder)),
        None => None,
    }
}

/// A wrong free with the line of its text.
fn told_free(opened: &[Opened], free: BadFree) -> BadFree
    ensures { result ≡ told_free opened.now free }
{
    BadFree {
        reason: free.reason,
        line: told_line(opened, free.line),
    }
}

/// An end with the lines of their texts.
pub(crate) fn told_end(opened: &[Opened], end: End) -> End
    ensures { result ≡ told_end opened.now end }
{
    match end {
        End::Trap(kind, line) => End::Trap(kind, told_line(opened, line)),
        End::BadFree(free, holder) => {
            End::BadFree(told_free(opened, free), told_first(opened, holder))
        }
        End::Escape { func, local, line } => End::Escape {
            func,
            local,
            line: told_line(opened, line),
        },
        End::OutOfStack(line) => End::OutOfStack(told_line(opened, line)),
        _ => end,
    }
}

/// What was freed, with the line of its text.
fn told_freed(opened: &[Opened], freed: Freed) -> Freed
    ensures { result ≡ told_freed opened.now freed }
{
    Freed {
        blocks: freed.blocks,
        bytes: freed.bytes,
        line: match freed.line {
            Some(line) => Some(told_line(opened, line)),
            None => None,
        },
    }
}

/// What was freed, if that is known, with the line of its text.
fn told_some_freed(opened: &[Opened], freed: Option<Freed>) -> Option<Freed>
    ensures { result ≡ option_map (told_freed opened.now) freed }
{
    match freed {
        Some(freed) => Some(told_freed(opened, freed)),
        None => None,
    }
}

/// What is known of a run, if anything is, with the line of its text.
pub(crate) fn told_known(opened: &[Opened], known: Option<Known>) -> Option<Known>
    ensures { result ≡ option_map (told_known opened.now) known }
{
    match known {
        Some(known) => Some(Known {
            limits: known.limits,
            freed: told_some_freed(opened, known.freed),
        }),
        None => None,
    }
}

/// A leak with the line of its text.
pub(crate) fn told_leak(opened: &[Opened], leak: Leak) -> Leak
    ensures { result ≡ told_leak opened.now leak }
{
    Leak {
        line: told_line(opened, leak.line),
        blocks: leak.blocks,
        bytes: leak.bytes,
    }
}

/// The line of an end, where it has one.
pub(crate) fn line_of_end(end: &End) -> Option<Line>
    ensures { result ≡ line_of_end end.now }
{
    match end {
        End::Trap(_, line)
        | End::BadFree(BadFree { line, .. }, _)
        | End::Escape { line, .. }
        | End::OutOfStack(line) => Some(*line),
        _ => None,
    }
}

/// The name and the bytes of the text that is named of an end: of one without a line the file that was asked for, without a byte.
pub(crate) fn named_text<'a>(
    file: &'a str,
    opened: &'a [Opened],
    line: Option<Line>,
) -> (&'a [u8], &'a [u8])
    ensures name { result.0.now ≡ (named_place file.now opened.now line).name }
    ensures text { result.1.now ≡ (named_place file.now opened.now line).text }
{
    let Some(line) = line else {
        return (file.as_bytes(), b"");
    };
    match text_of(opened, line) {
        Some(text) => (text.name.as_slice(), text.text.as_slice()),
        None => (b"", b""),
    }
}
