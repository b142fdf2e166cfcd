//! The outside in memory, with planned failures, and one test of each real adapter.

ghost use Rattle.std.specs.Prelude.{◌+◌, ◌<◌, ◌≤◌, ◌^◌, length};

use hs_base::{
    Failed, FileTexts, Items, MemSink, MemSource, MemTexts, Sink, Source, StdSink, StdSource,
    SureSink, SureSource, SureTexts, Texts,
};
use std::alloc::Global;
use std::process::Abort;
use std::test::Fail;

/// Bytes as a list.
fn bytes(alloc: Global, text: &[u8]) -> Result<Items<u8>, Fail> {
    Ok(Items::from(Vec::from_slice(alloc, text)?))
}

/// One text, named a.
fn one_text(alloc: Global, text: &[u8]) -> Result<Items<(Items<u8>, Items<u8>)>, Fail> {
    let mut texts = Items::new(alloc);
    texts.push((bytes(alloc, b"a")?, bytes(alloc, text)?))?;
    Ok(texts)
}

/// The numbers of the calls that are to fail.
fn calls(alloc: Global, numbers: &[u64]) -> Result<Items<u64>, Fail> {
    Ok(Items::from(Vec::from_slice(alloc, numbers)?))
}

/// A read of a text: its name, the place, and the bytes that it gives.
type Read<'a> = (&'a str, u64, Result<&'a [u8], Failed>);

/// The reads give what stands beside them, in order, four bytes at most.
fn read<T: Texts>(rt: &impl Abort, texts: &mut T, reads: &[Read<'_>])
    requires { T.faults texts.old + length reads.now < 2 ^ 64 }
{
    let mut buffer = [0u8; 4];
    for (name, place, wanted) in reads {
        let found = match texts.piece(name, *place, &mut buffer) {
            Ok(length) => Ok(&buffer[..length]),
            Err(failed) => Err(failed),
        };
        assert_eq!(rt; found, *wanted, "{name} at {place}");
    }
}

#[test]
fn texts_in_memory(rt: HostRuntime) -> Result<(), Fail> {
    let alloc = rt.alloc();
    let mut texts = MemTexts::new(one_text(alloc, b"hello")?, calls(alloc, &[2])?);
    let reads: [Read<'_>; 5] = [
        ("a", 0, Ok(b"hell")),
        ("a", 4, Err(Failed)),
        ("a", 4, Ok(b"o")),
        ("a", 5, Ok(b"")),
        ("b", 0, Err(Failed)),
    ];
    read(&rt, &mut texts, &reads);
    Ok(())
}

#[test]
fn sure_texts(rt: HostRuntime) -> Result<(), Fail> {
    let mut texts = SureTexts::new(one_text(rt.alloc(), b"hello")?);
    read(&rt, &mut texts, &[("b", 0, Ok(b"")), ("a", 3, Ok(b"lo"))]);
    Ok(())
}

/// The calls for the next byte give these answers, in order.
fn give<S: Source>(rt: &impl Abort, input: &mut S, answers: &[Result<Option<u8>, Failed>])
    requires { S.faults input.old + length answers.now < 2 ^ 64 }
    ensures { S.faults input.new ≤ S.faults input.old + length answers.now }
{
    for answer in answers {
        assert_eq!(rt; input.next(), *answer);
    }
}

#[test]
fn input_in_memory(rt: HostRuntime) -> Result<(), Fail> {
    let alloc = rt.alloc();
    let mut input = MemSource::new(bytes(alloc, b"hi")?, calls(alloc, &[2])?);
    give(&rt, &mut input, &[Ok(Some(b'h')), Err(Failed)]);
    assert_eq!(rt; input.left(), b"i".as_slice());
    give(&rt, &mut input, &[Ok(Some(b'i')), Ok(None)]);
    Ok(())
}

#[test]
fn sure_input(rt: HostRuntime) -> Result<(), Fail> {
    let mut input = SureSource::new(bytes(rt.alloc(), b"i")?);
    give(&rt, &mut input, &[Ok(Some(b'i')), Ok(None), Ok(None)]);
    Ok(())
}

/// What is put gives this count or failure.
fn put<S: Sink>(rt: &impl Abort, out: &mut S, bytes: &[u8], answer: Result<usize, Failed>)
    requires count { S.faults out.old + 1 < 2 ^ 64 }
    requires some { 0 < length bytes.now }
    ensures { S.faults out.new ≤ S.faults out.old + 1 }
{
    assert_eq!(rt; out.put(bytes), answer);
}

#[test]
fn output_in_memory(rt: HostRuntime) -> Result<(), Fail> {
    let alloc = rt.alloc();
    let mut out = MemSink::new(alloc, 2, calls(alloc, &[2])?);
    put(&rt, &mut out, b"abc", Ok(2));
    put(&rt, &mut out, b"c", Err(Failed));
    put(&rt, &mut out, b"c", Ok(1));
    assert_eq!(rt; out.bytes(), b"abc".as_slice());
    put(&rt, &mut SureSink::new(), b"abc", Ok(3));
    Ok(())
}

#[test]
fn real_files_and_streams(rt: HostRuntime) -> Result<(), Fail> {
    read(
        &rt,
        &mut FileTexts::new(&rt),
        &[("no such file", 0, Err(Failed))],
    );
    let mut input = StdSource::new(b"hi".as_slice());
    give(&rt, &mut input, &[Ok(Some(b'h')), Ok(Some(b'i')), Ok(None)]);
    let mut written = Vec::new(rt.alloc());
    put(&rt, &mut StdSink::new(&mut written), b"hi", Ok(2));
    assert_eq!(rt; written.as_slice(), b"hi".as_slice());
    Ok(())
}
