//! What explains how a run ended.

ghost use Rattle.std.specs.Prelude.{◌≡◌, ◌+◌, ◌<◌, ◌^◌};
ghost use Rattle.hs_base.specs.Outside.{CountsFaults};
ghost use Rattle.bad_free_report.specs.Explanation.{bad_free_lines, explanation, free_help, freed_block, freed_line, freed_lines, freed_one_of, help_line, holder_help, limit_line, spent_lines, stack_lines, trap_help};
ghost use Rattle.bad_free_report.specs.Putting.{Puts};

use crate::parts::put_parts;
use hs_base::{End, Failed, Holder, Line, Reason, Sink, TrapKind};
use itoa::Buffer;

/// What to mend at an escape.
pub(crate) const ESCAPE_HELP: &[u8] =
    b"the local ends here: take the object from malloc, let the caller pass it in, or make it a variable at file scope";

/// What to mend where the steps are used up.
pub(crate) const STEPS_HELP: &[u8] =
    b"look for a loop or a recursion that does not end, or allow more steps";

/// What to mend where the stack is.
pub(crate) const STACK_HELP: &[u8] =
    b"look for a recursion that does not end, take large arrays from malloc, or allow more stack";

/// The limits that a run was under: how many steps it was allowed, and the bytes of its stack.
#[derive(Clone, Copy)]
pub struct InForce {
    pub steps: u64,
    pub stack: u32,
}

/// The block of the heap that was freed, or several of which it is one: how many they are, the sum of their sizes in bytes, and the
/// line that made it, where it is one.
#[derive(Clone, Copy)]
pub struct Freed {
    pub blocks: u32,
    pub bytes: u64,
    pub line: Option<Line>,
}

/// What is known of a run, by which its end is explained: the limits that it was under and, at a bad free, what was freed.
#[derive(Clone, Copy)]
pub struct Known {
    pub limits: InForce,
    pub freed: Option<Freed>,
}

/// What to mend where an object is held.
fn holder_help(holder: Option<Holder>) -> &'static [u8]
    ensures { result.now ≡ holder_help holder }
{
    match holder {
        None => b"clear the pointer that is left before the free",
        Some(Holder::Global { .. }) =>
            b"clear the pointer in this variable before the free, or free and clear it in one __delay_frees block",
        Some(Holder::Memory { .. }) =>
            b"clear the pointer in this local before the free, or free and clear it in one __delay_frees block",
        Some(Holder::Block { .. }) =>
            b"free both objects in one __delay_frees block, or clear the pointer in the other object first",
        Some(Holder::Register { .. }) =>
            b"it is read again behind the free: read what is wanted before it, in a statement of its own",
    }
}

/// What to mend at a bad free.
pub(crate) fn free_help(reason: Reason, holder: Option<Holder>) -> &'static [u8]
    ensures { result.now ≡ free_help reason holder }
{
    match reason {
        Reason::Held => holder_help(holder),
        Reason::Again => b"free the object once: it is freed already in this __delay_frees block",
        Reason::NotStart => b"free the pointer that malloc, calloc or realloc gave, and no other",
    }
}

/// What to mend at a trap.
pub(crate) fn trap_help(kind: TrapKind) -> &'static [u8]
    ensures { result.now ≡ trap_help kind }
{
    match kind {
        TrapKind::Null =>
            b"make the pointer point to an object, or test it for NULL first; malloc gives NULL where the heap is full",
        TrapKind::Bounds => b"stay inside the object: the indices of n elements are 0 to n - 1",
        TrapKind::Align => b"move the pointer by whole elements, or copy the bytes by memcpy",
        TrapKind::Layout =>
            b"read and write the object by the type that it was made for: pointers as pointers, integers as integers",
        TrapKind::Range =>
            b"keep the pointer inside its object or just behind its end: count by an index",
        TrapKind::Objects => b"compare by < and subtract only pointers into one object",
        TrapKind::Divide => b"test the divisor for 0 first",
        TrapKind::Shift => b"keep the count at 0 or more, and below the number of bits",
        TrapKind::Abort => b"the program stopped itself: look for what led to this call of abort",
    }
}

/// Writes the line that says what to mend.
fn put_help<E: Sink>(err: &mut E, words: &[u8]) -> Result<(), Failed>
    requires { E.faults err.old + 1 < 2 ^ 64 }
    ensures bytes { Puts E.Sink err.old err.new (help_line words.now) result }
    ensures cause { CountsFaults (E.faults err.old) (E.faults err.new) result }
{
    put_parts(err, &[b"    help: ", words, b"\n"])
}

/// Writes the line that says which block was freed, where it is one.
fn put_one_freed<E: Sink>(err: &mut E, line: Line, bytes: u64) -> Result<(), Failed>
    requires { E.faults err.old + 1 < 2 ^ 64 }
    ensures bytes { Puts E.Sink err.old err.new (freed_block line bytes) result }
    ensures cause { CountsFaults (E.faults err.old) (E.faults err.new) result }
{
    let (mut line_digits, mut byte_digits) = (Buffer::new(), Buffer::new());
    let line = line_digits.format(line).as_bytes();
    let bytes = byte_digits.format(bytes).as_bytes();
    put_parts(
        err,
        &[
            b"    freed: block of line ",
            line,
            b", ",
            bytes,
            b" bytes\n",
        ],
    )
}

/// Writes the line that says of which blocks one was freed.
fn put_some_freed<E: Sink>(err: &mut E, blocks: u32, bytes: u64) -> Result<(), Failed>
    requires { E.faults err.old + 1 < 2 ^ 64 }
    ensures bytes { Puts E.Sink err.old err.new (freed_one_of blocks bytes) result }
    ensures cause { CountsFaults (E.faults err.old) (E.faults err.new) result }
{
    let (mut block_digits, mut byte_digits) = (Buffer::new(), Buffer::new());
    let blocks = block_digits.format(blocks).as_bytes();
    let bytes = byte_digits.format(bytes).as_bytes();
    put_parts(
        err,
        &[
            b"    freed: one of ",
            blocks,
            b" blocks, ",
            bytes,
            b" bytes together\n",
        ],
    )
}

/// Writes the line that says what was freed.
fn put_freed_line<E: Sink>(err: &mut E, freed: Freed) -> Result<(), Failed>
    requires { E.faults err.old + 1 < 2 ^ 64 }
    ensures bytes { Puts E.Sink err.old err.new (freed_line freed.line freed) result }
    ensures cause { CountsFaults (E.faults err.old) (E.faults err.new) result }
{
    match freed.line {
        Some(line) => put_one_freed(err, line, freed.bytes),
        None => put_some_freed(err, freed.blocks, freed.bytes),
    }
}

/// Writes the line that says what was freed, where that is known.
fn put_freed<E: Sink>(err: &mut E, freed: Option<Freed>) -> Result<(), Failed>
    requires { E.faults err.old + 1 < 2 ^ 64 }
    ensures bytes { Puts E.Sink err.old err.new (freed_lines freed) result }
    ensures cause { CountsFaults (E.faults err.old) (E.faults err.new) result }
{
    match freed {
        Some(freed) => put_freed_line(err, freed),
        None => Ok(()),
    }
}

/// Writes what was freed, and what to mend at a bad free.
fn put_bad_free<E: Sink>(err: &mut E, freed: Option<Freed>, words: &[u8]) -> Result<(), Failed>
    requires { E.faults err.old + 1 < 2 ^ 64 }
    ensures bytes { Puts E.Sink err.old err.new (bad_free_lines freed words.now) result }
    ensures cause { CountsFaults (E.faults err.old) (E.faults err.new) result }
{
    put_freed(err, freed)?;
    put_help(err, words)
}

/// Writes the line that says a limit, and what raises it.
fn put_limit<E: Sink>(err: &mut E, limit: u64, words: &[u8]) -> Result<(), Failed>
    requires { E.faults err.old + 1 < 2 ^ 64 }
    ensures bytes { Puts E.Sink err.old err.new (limit_line limit words.now) result }
    ensures cause { CountsFaults (E.faults err.old) (E.faults err.new) result }
{
    let mut digits = Buffer::new();
    let limit = digits.format(limit).as_bytes();
    put_parts(err, &[b"    limit: ", limit, words, b"\n"])
}

/// Writes what to mend where a run made all of its steps.
fn put_spent<E: Sink>(err: &mut E, limits: InForce) -> Result<(), Failed>
    requires { E.faults err.old + 1 < 2 ^ 64 }
    ensures bytes { Puts E.Sink err.old err.new (spent_lines limits) result }
    ensures cause { CountsFaults (E.faults err.old) (E.faults err.new) result }
{
    put_help(err, STEPS_HELP)?;
    put_limit(err, limits.steps, b" steps, raised by --steps")
}

/// Writes what to mend where the stack had no room for a call.
fn put_out_of_stack<E: Sink>(err: &mut E, limits: InForce) -> Result<(), Failed>
    requires { E.faults err.old + 1 < 2 ^ 64 }
    ensures bytes { Puts E.Sink err.old err.new (stack_lines limits) result }
    ensures cause { CountsFaults (E.faults err.old) (E.faults err.new) result }
{
    put_help(err, STACK_HELP)?;
    put_limit(
        err,
        u64::from(limits.stack),
        b" bytes of stack, raised by --stack",
    )
}

/// Writes the lines that explain how a run ended, where what is known of it is given, since they are asked for; each begins with four
/// spaces. One says what to mend. Before it stands at a bad free what was freed, and behind it, where the stack or the steps were used
/// up, the limit that was in force and the option that raises it. Of an exit nothing is written, nor where the input or the output
/// failed. After a failure, which is the last call on the sink, a prefix was taken.
pub(crate) fn explain<E: Sink>(end: &End, asked: Option<Known>, err: &mut E) -> Result<(), Failed>
    requires { E.faults err.old + 1 < 2 ^ 64 }
    ensures bytes { Puts E.Sink err.old err.new (explanation end.now asked) result }
    ensures cause { CountsFaults (E.faults err.old) (E.faults err.new) result }
{
    let Some(known) = asked else {
        return Ok(());
    };
    match *end {
        End::Trap(kind, _) => put_help(err, trap_help(kind)),
        End::BadFree(free, holder) => {
            put_bad_free(err, known.freed, free_help(free.reason, holder))
        }
        End::Escape { .. } => put_help(err, ESCAPE_HELP),
        End::Spent => put_spent(err, known.limits),
        End::OutOfStack(_) => put_out_of_stack(err, known.limits),
        End::Exit(_) | End::InputFault | End::OutputFault => Ok(()),
    }
}
