//! What no clause says: that calls succeed, and that the pieces fit together. Whole scripts in pieces of 1, 7 and 5000 bytes, and one
//! of none, are cases of run_cases.
ghost use Rattle.std.specs.Prelude.{◌<◌, ◌≤◌, IfOk};

use crate::rows::holds;
use ctss_io::{
    Got, MemorySink, MemorySource, NoMemory, ReadEnd, Sink, Source, StdSink, StdSource, Took,
    WriteFault, read_bytes, write_all,
};
use std::alloc::Global;
use std::io;
use std::io::{ErrorKind, Read, Write};
use std::process::Abort;
use std::test::Fail;

/// Tries what a source answers to one read after another, and what stands in the buffer behind each.
fn gives<S: Source, const N: usize>(rt: &impl Abort, source: &mut S, reads: &[(Got, [u8; N])])
    requires { 0 < N }
{
    let mut buffer = [b'-'; N];
    for (row, (got, held)) in reads.iter().enumerate() {
        let answer = source.read(&mut buffer);
        holds(rt, row, (answer, buffer) == (*got, *held));
    }
}

/// Tries what a sink answers to one put after another; none puts nothing.
fn takes<K: Sink>(rt: &impl Abort, sink: &mut K, puts: &[(&[u8], Took)]) {
    for (row, (bytes, took)) in puts.iter().enumerate() {
        assert!(rt; !bytes.is_empty());
        holds(rt, row, sink.put(bytes) == *took);
    }
}

static PIECES: [(Got, [u8; 4]); 4] = [
    (Got::Bytes(2), *b"ab--"),
    (Got::Failed, *b"ab--"),
    (Got::Bytes(1), *b"cb--"),
    (Got::End, *b"cb--"),
];

#[test]
fn memory_source_gives_pieces(rt: HostRuntime) -> Result<(), Fail> {
    let mut source = MemorySource::new(rt.alloc(), b"abc", 2, &[2])?;
    gives(&rt, &mut source, &PIECES);
    Ok(())
}

static PUTS: [(&[u8], Took); 4] = [
    (b"abcdef", Took::Bytes(4)),
    (b"ef", Took::Failed),
    (b"e", Took::Bytes(1)),
    (b"f", Took::Failed),
];

#[test]
fn memory_sink_keeps_to_its_room(rt: HostRuntime) -> Result<(), Fail> {
    let mut sink = MemorySink::new(rt.alloc(), 5, 4, &[5])?;
    takes(&rt, &mut sink, &PUTS);
    assert!(rt; sink.bytes() == b"abcde".as_slice());
    Ok(())
}

#[test]
fn want_of_memory_converts(rt: HostRuntime) -> Result<(), NoMemory> {
    let mut bytes = vec![in rt.alloc(); 1u8]?;
    bytes.push(2)?;
    assert!(rt; bytes.as_slice() == [1, 2].as_slice());
    Ok(())
}

/// How many bytes a source gives, or why a read gave nothing. Want of memory, which may come at any time, ends the test.
fn count_read<S: Source>(
    alloc: Global,
    source: &mut S,
) -> Result<Result<usize, ReadEnd>, NoMemory> {
    match read_bytes(alloc, source) {
        Ok(bytes) => Ok(Ok(bytes.len())),
        Err(ReadEnd::NoMemory) => Err(NoMemory),
        Err(end) => Ok(Err(end)),
    }
}

/// Tries the bytes that a source gives.
fn reads<S: Source>(
    rt: &impl Abort,
    alloc: Global,
    source: &mut S,
    want: &[u8],
) -> Result<(), Fail> {
    let bytes = read_bytes(alloc, source)?;
    assert!(rt; bytes.as_slice() == want);
    Ok(())
}

#[test]
fn reading_stops_at_a_fault(rt: HostRuntime) -> Result<(), Fail> {
    let mut source = MemorySource::new(rt.alloc(), b"abcd", 1, &[3])?;
    assert!(rt; count_read(rt.alloc(), &mut source)? == Err(ReadEnd::Fault));
    // The two bytes before the fault are gone.
    reads(&rt, rt.alloc(), &mut source, b"cd")
}

/// What comes of reading so many bytes.
fn count_read_of(alloc: Global, count: usize) -> Result<Result<usize, ReadEnd>, Fail> {
    let bytes = vec![in alloc; 7u8; count]?;
    let mut source = MemorySource::new(alloc, &bytes, 4096, &[])?;
    Ok(count_read(alloc, &mut source)?)
}

#[test]
fn reads_up_to_the_limit(rt: HostRuntime) -> Result<(), Fail> {
    assert!(rt; count_read_of(rt.alloc(), 4_194_304)? == Ok(4_194_304));
    assert!(rt; count_read_of(rt.alloc(), 4_194_305)? == Err(ReadEnd::TooLong));
    Ok(())
}

/// Tries what comes of writing one text after another.
fn writes<K: Sink>(rt: &impl Abort, sink: &mut K, texts: &[(&[u8], Result<(), WriteFault>)]) {
    for (row, (text, wrote)) in texts.iter().enumerate() {
        holds(rt, row, write_all(sink, text) == *wrote);
    }
}

/// The puts that fail, what comes of writing texts, and what the sink holds then.
static WRITES: [(&[u64], &[(&[u8], Result<(), WriteFault>)], &[u8]); 3] = [
    (&[], &[(b"abcde", Ok(()))], b"abcde"),
    (&[], &[(b"abcdef", Err(WriteFault))], b"abcd"),
    (&[1], &[(b"", Ok(())), (b"a", Err(WriteFault))], b""),
];

#[test]
fn writes_all(rt: HostRuntime) -> Result<(), Fail> {
    for (fails, texts, held) in &WRITES {
        let mut sink = MemorySink::new(rt.alloc(), 5, 2, fails)?;
        writes(&rt, &mut sink, texts);
        assert!(rt; sink.bytes() == *held);
    }
    Ok(())
}

// One call of a reader or a writer.
#[derive(Clone, Copy)]
enum Call {
    Moves,
    MovesNone,
    IsInterrupted,
    Breaks,
}

// Answers each call as it is told, and then moves nothing.
#[derive(Drop)]
struct Script<'a>(&'a [Call]);

fn answer(script: &mut Script<'_>) -> io::Result<usize>
    ensures { IfOk result (λ n. n ≤ 1) }
{
    let Some((call, rest)) = script.0.split_first() else {
        return Ok(0);
    };
    script.0 = rest;
    match call {
        Call::Moves => Ok(1),
        Call::MovesNone => Ok(0),
        Call::IsInterrupted => Err(io::Error::new(ErrorKind::Interrupted, "a signal came")),
        Call::Breaks => Err(io::Error::new(ErrorKind::BrokenPipe, "it broke")),
    }
}

impl Read for Script<'_> {
    fn read(&mut self, into: &mut [u8]) -> io::Result<usize> {
        let Some(first) = into.first_mut() else {
            return Ok(0);
        };
        *first = b'x';
        answer(self)
    }
}

impl Write for Script<'_> {
    fn write(&mut self, bytes: &[u8]) -> io::Result<usize> {
        if bytes.is_empty() {
            return Ok(0);
        }
        answer(self)
    }

    fn flush(&mut self) -> io::Result<()> {
        Ok(())
    }
}

/// What comes of the calls, and then nothing moves.
const CALLS: &[Call] = &[
    Call::IsInterrupted,
    Call::Moves,
    Call::Breaks,
    Call::MovesNone,
];

static READS: [(Got, [u8; 2]); 3] = [
    (Got::Bytes(1), *b"x-"),
    (Got::Failed, *b"x-"),
    (Got::End, *b"x-"),
];

static DEAF: [(Got, [u8; 2]); 1] = [(Got::Failed, *b"x-")];

#[test]
fn standard_source_counts_faults(rt: HostRuntime) -> Result<(), Fail> {
    gives(&rt, &mut StdSource::new(Script(CALLS)), &READS);
    gives(
        &rt,
        &mut StdSource::new(Script(&[Call::IsInterrupted; 64])),
        &DEAF,
    );
    let mut greeting = StdSource::new(b"hello".as_slice());
    reads(&rt, rt.alloc(), &mut greeting, b"hello")
}

static PUTS_OF_CALLS: [(&[u8], Took); 3] = [
    (b"ab", Took::Bytes(1)),
    (b"b", Took::Failed),
    (b"b", Took::Failed),
];

#[test]
fn standard_sink_counts_faults(rt: HostRuntime) {
    takes(&rt, &mut StdSink::new(Script(CALLS)), &PUTS_OF_CALLS);
    let printed = write_all(&mut StdSink::new(io::writer(&rt)), b"written\n");
    assert!(rt; printed.is_ok());
    let mut out = Vec::new(rt.alloc());
    let written = write_all(&mut StdSink::new(&mut out), b"hello");
    assert!(rt; written.is_ok() && out.as_slice() == b"hello".as_slice());
}
