//! What is said on the error stream, in one form or the other.

ghost use Rattle.std.specs.Prelude.{◌≡◌, ◌+◌, ◌<◌, ◌^◌, [], option_copied, option_map};
ghost use Rattle.hs_base.specs.Outside.{CountsFaults};
ghost use Rattle.bad_free_report.specs.Json.{comma_if};
ghost use Rattle.bad_free_report.specs.Notice.{Ended, as_object, end_lines, said};
ghost use Rattle.bad_free_report.specs.Parts.{AreParts, before_leaks, behind_leaks, freed_text, front, help_text, leak_said, limit_text, members_before, place_text};
ghost use Rattle.bad_free_report.specs.Told.{ending_of, refused_of, told_facts, told_limit, told_place};
ghost use Rattle.bad_free_report.specs.Putting.{Puts};

use crate::ends::report;
use crate::explanation::{Freed, explain};
use crate::facts::{Ending, Facts, Limit, Place, Refused, facts_of, refusal_facts};
use crate::form::Form;
use crate::json::{Piece, number_or_null, put_pieces, text_or_null};
use crate::leaks::leak_line;
use crate::lines::put_refusal_lines;
use hs_base::{Failed, Leak, Sink, put_all};

/// Writes what an object says happened, and where, up to its first holder.
fn put_before<E: Sink>(err: &mut E, facts: &Facts<'_>) -> Result<(), Failed>
    requires { E.faults err.old + 1 < 2 ^ 64 }
    ensures bytes { Puts E.Sink err.old err.new
        (members_before (told_facts facts.now)) result }
    ensures cause { CountsFaults (E.faults err.old) (E.faults err.new) result }
{
    let word = text_or_null(facts.word);
    let file = text_or_null(facts.file);
    let line = number_or_null(facts.line);
    let source = text_or_null(facts.source);
    put_pieces(
        err,
        &[
            Piece::Between(b"{\"kind\":"),
            Piece::Text(facts.kind),
            Piece::Between(b",\"word\":"),
            word,
            Piece::Between(b",\"status\":"),
            Piece::Number(u64::from(facts.status)),
            Piece::Between(b",\"own\":"),
            Piece::Truth(facts.own),
            Piece::Between(b",\"file\":"),
            file,
            Piece::Between(b",\"line\":"),
            line,
            Piece::Between(b",\"source\":"),
            source,
            Piece::Between(b",\"holder\":"),
        ],
    )
}

/// Writes the first holder, up to what was freed.
fn put_place<E: Sink>(err: &mut E, place: Option<Place<'_>>) -> Result<(), Failed>
    requires { E.faults err.old + 1 < 2 ^ 64 }
    ensures bytes { Puts E.Sink err.old err.new
        (place_text (option_map told_place place.entry)) result }
    ensures cause { CountsFaults (E.faults err.old) (E.faults err.new) result }
{
    let Some(place) = place else {
        return put_all(err, b"null,\"freed\":");
    };
    let name = text_or_null(place.name);
    let func = text_or_null(place.func);
    let line = number_or_null(place.line);
    let offset = number_or_null(place.offset);
    put_pieces(
        err,
        &[
            Piece::Between(b"{\"kind\":"),
            Piece::Text(place.kind),
            Piece::Between(b",\"name\":"),
            name,
            Piece::Between(b",\"function\":"),
            func,
            Piece::Between(b",\"line\":"),
            line,
            Piece::Between(b",\"offset\":"),
            offset,
            Piece::Between(b"},\"freed\":"),
        ],
    )
}

/// Writes what was freed, up to what to mend.
fn put_freed<E: Sink>(err: &mut E, freed: Option<Freed>) -> Result<(), Failed>
    requires { E.faults err.old + 1 < 2 ^ 64 }
    ensures bytes { Puts E.Sink err.old err.new
        (freed_text freed) result }
    ensures cause { CountsFaults (E.faults err.old) (E.faults err.new) result }
{
    let Some(freed) = freed else {
        return put_all(err, b"null,\"help\":");
    };
    let line = number_or_null(freed.line);
    put_pieces(
        err,
        &[
            Piece::Between(b"{\"blocks\":"),
            Piece::Number(u64::from(freed.blocks)),
            Piece::Between(b",\"bytes\":"),
            Piece::Number(freed.bytes),
            Piece::Between(b",\"line\":"),
            line,
            Piece::Between(b"},\"help\":"),
        ],
    )
}

/// Writes what to mend, up to the limit.
fn put_help<E: Sink>(err: &mut E, help: Option<&[u8]>) -> Result<(), Failed>
    requires { E.faults err.old + 1 < 2 ^ 64 }
    ensures bytes { Puts E.Sink err.old err.new
        (help_text (option_copied help.entry)) result }
    ensures cause { CountsFaults (E.faults err.old) (E.faults err.new) result }
{
    let help = text_or_null(help);
    put_pieces(err, &[help, Piece::Between(b",\"limit\":")])
}

/// Writes the limit, up to the leaks.
fn put_limit<E: Sink>(err: &mut E, limit: Option<Limit>) -> Result<(), Failed>
    requires { E.faults err.old + 1 < 2 ^ 64 }
    ensures bytes { Puts E.Sink err.old err.new
        (limit_text (option_map told_limit limit)) result }
    ensures cause { CountsFaults (E.faults err.old) (E.faults err.new) result }
{
    let Some(limit) = limit else {
        return put_all(err, b"null,\"leaks\":[");
    };
    put_pieces(
        err,
        &[
            Piece::Between(b"{\"value\":"),
            Piece::Number(limit.value),
            Piece::Between(b",\"unit\":"),
            Piece::Text(limit.unit),
            Piece::Between(b",\"option\":"),
            Piece::Text(limit.option),
            Piece::Between(b"},\"leaks\":["),
        ],
    )
}

/// Writes an object up to its leaks.
fn put_front<E: Sink>(err: &mut E, facts: &Facts<'_>) -> Result<(), Failed>
    requires { E.faults err.old + 1 < 2 ^ 64 }
    ensures bytes { Puts E.Sink err.old err.new
        (front (told_facts facts.now)) result }
    ensures cause { CountsFaults (E.faults err.old) (E.faults err.new) result }
{
    put_before(err, facts)?;
    put_place(err, facts.holder)?;
    put_freed(err, facts.freed)?;
    put_help(err, facts.help)?;
    put_limit(err, facts.limit)
}

/// Writes the object of a refusal.
fn put_refusal_object<E: Sink>(err: &mut E, refused: &Refused<'_>) -> Result<(), Failed>
    requires { E.faults err.old + 1 < 2 ^ 64 }
    ensures bytes { Puts E.Sink err.old err.new
        (as_object (refused_of refused.now)) result }
    ensures cause { CountsFaults (E.faults err.old) (E.faults err.new) result }
{
    put_front(err, &refusal_facts(refused))?;
    put_all(err, b"]}\n")
}

/// Writes what is said of a refusal or a failure: one line, and below it the line of the text, if it is at one; or one object. After
/// a failure, which is the last call on the sink, a prefix was taken.
pub fn say_refused<E: Sink>(err: &mut E, form: Form, refused: &Refused<'_>) -> Result<(), Failed>
    requires { E.faults err.old + 1 < 2 ^ 64 }
    ensures bytes { Puts E.Sink err.old err.new
        (said form (refused_of refused.now)) result }
    ensures cause { CountsFaults (E.faults err.old) (E.faults err.new) result }
{
    match form {
        Form::Lines => put_refusal_lines(err, refused),
        Form::Json => put_refusal_object(err, refused),
    }
}

/// Writes the report of an end, and behind it what explains it, where what is known of its run is given.
fn put_end_lines<E: Sink>(err: &mut E, ending: &Ending<'_>) -> Result<(), Failed>
    requires { E.faults err.old + 1 < 2 ^ 64 }
    ensures bytes { Puts E.Sink err.old err.new
        (end_lines (ending_of ending.now)) result }
    ensures cause { CountsFaults (E.faults err.old) (E.faults err.new) result }
{
    report(&ending.how, ending.core, ending.name, ending.text, err)?;
    explain(&ending.how, ending.known, err)
}

/// Writes what is said of an end before its leaks. After a failure, which is the last call on the sink, a prefix was taken.
pub fn say_before_leaks<E: Sink>(
    err: &mut E,
    form: Form,
    ending: &Ending<'_>,
    status: u8,
) -> Result<(), Failed>
    requires { E.faults err.old + 1 < 2 ^ 64 }
    ensures bytes { Puts E.Sink err.old err.new
        (before_leaks form (ending_of ending.now) status) result }
    ensures cause { CountsFaults (E.faults err.old) (E.faults err.new) result }
{
    match form {
        Form::Lines => put_end_lines(err, ending),
        Form::Json => put_front(err, &facts_of(ending, status)),
    }
}

/// What stands before a value that follows others.
fn comma_if(later: bool) -> &'static [u8]
    ensures { result.now ≡ comma_if later }
{
    if later { b"," } else { b"" }
}

/// Writes the object of a leak.
fn put_leak<E: Sink>(err: &mut E, later: bool, leak: &Leak) -> Result<(), Failed>
    requires { E.faults err.old + 1 < 2 ^ 64 }
    ensures bytes { Puts E.Sink err.old err.new
        (leak_said Form.Json later leak.now) result }
    ensures cause { CountsFaults (E.faults err.old) (E.faults err.new) result }
{
    put_pieces(
        err,
        &[
            Piece::Between(comma_if(later)),
            Piece::Between(b"{\"line\":"),
            Piece::Number(u64::from(leak.line)),
            Piece::Between(b",\"blocks\":"),
            Piece::Number(u64::from(leak.blocks)),
            Piece::Between(b",\"bytes\":"),
            Piece::Number(leak.bytes),
            Piece::Between(b"}"),
        ],
    )
}

/// Writes what is said of a leak, which follows others or not. After a failure, which is the last call on the sink, a prefix was
/// taken.
pub fn say_leak<E: Sink>(err: &mut E, form: Form, later: bool, leak: &Leak) -> Result<(), Failed>
    requires { E.faults err.old + 1 < 2 ^ 64 }
    ensures bytes { Puts E.Sink err.old err.new
        (leak_said form later leak.now) result }
    ensures cause { CountsFaults (E.faults err.old) (E.faults err.new) result }
{
    match form {
        Form::Lines => leak_line(leak, err),
        Form::Json => put_leak(err, later, leak),
    }
}

/// Writes what stands behind the leaks. After a failure, which is the last call on the sink, a prefix was taken.
pub fn say_behind_leaks<E: Sink>(err: &mut E, form: Form) -> Result<(), Failed>
    requires { E.faults err.old + 1 < 2 ^ 64 }
    ensures bytes { Puts E.Sink err.old err.new (behind_leaks form) result }
    ensures cause { CountsFaults (E.faults err.old) (E.faults err.new) result }
{
    match form {
        Form::Lines => Ok(()),
        Form::Json => put_all(err, b"]}\n"),
    }
}

/// Writes what is said of an end of which no leaks are told. After a failure, which is the last call on the sink, a prefix was taken.
pub fn say_ended<E: Sink>(
    err: &mut E,
    form: Form,
    ending: &Ending<'_>,
    status: u8,
) -> Result<(), Failed>
    requires { E.faults err.old + 1 < 2 ^ 64 }
    ensures bytes { Puts E.Sink err.old err.new
        (said form (Ended (ending_of ending.now) [] status)) result }
    ensures cause { CountsFaults (E.faults err.old) (E.faults err.new) result }
{
    say_before_leaks(err, form, ending, status)?;
    say_behind_leaks(err, form)
}

/// All that is said of an end is what is said before its leaks, of each leak, and behind them.
pub fn ends_are_said_in_parts()
    ensures { AreParts }
{}
