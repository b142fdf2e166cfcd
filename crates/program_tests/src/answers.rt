//! One call of `heapsafe`, and what is seen of it.

ghost use Rattle.std.specs.Prelude.{◌+◌, ◌<◌, ◌^◌};

use heapsafe::heapsafe;
use hs_base::{Items, MemSink, MemSource, MemTexts, Sink};
use std::alloc::Global;
use std::test::Fail;

/// A program that writes its input.
pub(crate) const COPIES: &[u8] =
    b"int main(void){int c;while((c=getchar())!=EOF)putchar(c);return 0;}";

/// A program that writes two bytes.
pub(crate) const TWO: &[u8] = b"int main(void){putchar('a');putchar('b');return 0;}";

/// A program with a bad free.
pub(crate) const HELD: &[u8] =
    b"char *g;\nint main(void){\ng = malloc(1);\nfree(g);\nputchar('x');\nreturn 0;}";

/// The number of the call that fails, of each object: none where it is 0.
#[derive(Clone, Copy)]
pub(crate) struct Failing {
    pub(crate) text: u64,
    pub(crate) input: u64,
    pub(crate) out: u64,
    pub(crate) err: u64,
}

/// Nothing fails.
pub(crate) const NONE: Failing = Failing {
    text: 0,
    input: 0,
    out: 0,
    err: 0,
};

/// What is left of the input, what is written to the two streams, and the status.
#[derive(Drop)]
pub(crate) struct Seen {
    pub(crate) input: MemSource,
    pub(crate) out: MemSink,
    pub(crate) err: MemSink,
    pub(crate) status: u8,
}

/// The calls that fail: one of that number, and none where it is 0. An input whose calls do not fail has all its bytes at hand.
pub(crate) fn calls(alloc: Global, number: u64) -> Result<Items<u64>, Fail> {
    if number == 0 {
        return Ok(Items::new(alloc));
    }
    Ok(Items::from(Vec::from_slice(alloc, &[number])?))
}

/// What is done for words with this text under the name a.c, this input and these streams: what is left of the input, and the
/// status.
pub(crate) fn answer_to<O: Sink, E: Sink>(
    alloc: Global,
    words: &[&str],
    text: &[u8],
    input: &[u8],
    failing: Failing,
    out: &mut O,
    err: &mut E,
) -> Result<(MemSource, u8), Fail>
    requires out { O.faults out.old + 1 < 2 ^ 64 }
    requires err { E.faults err.old + 1 < 2 ^ 64 }
{
    let mut texts = Items::new(alloc);
    texts.push((
        Items::from(Vec::from_slice(alloc, b"a.c")?),
        Items::from(Vec::from_slice(alloc, text)?),
    ))?;
    let mut texts = MemTexts::new(texts, calls(alloc, failing.text)?);
    let mut input = MemSource::new(
        Items::from(Vec::from_slice(alloc, input)?),
        calls(alloc, failing.input)?,
    );
    let status = heapsafe(alloc, words, &mut texts, &mut input, out, err);
    Ok((input, status))
}

/// The same with streams that take a byte per call.
pub(crate) fn answer(
    alloc: Global,
    words: &[&str],
    text: &[u8],
    input: &[u8],
    failing: Failing,
) -> Result<Seen, Fail> {
    let mut out = MemSink::new(alloc, 1, calls(alloc, failing.out)?);
    let mut err = MemSink::new(alloc, 1, calls(alloc, failing.err)?);
    let (input, status) = answer_to(alloc, words, text, input, failing, &mut out, &mut err)?;
    Ok(Seen {
        input,
        out,
        err,
        status,
    })
}
