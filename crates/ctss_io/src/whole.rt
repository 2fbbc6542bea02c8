//! Reading all that is left, and writing the whole of a text.
ghost use Rattle.std.specs.Prelude.{◌≡◌, ◌≢◌, ◌≤◌, ◌+◌, [], length, IfOk, OnOk, OnErr};
ghost use Rattle.ctss_io.specs.Outside.{Rose, prepended, after, IsAtEnd};
ghost use Rattle.ctss_io.specs.Whole.{GrewByPrefix, GrewByProperPrefix, ShrankBy, ShrankByAtMost, HasAtLeast, WhereTold};

use crate::outside::{Got, Sink, Source, Took};
use std::alloc::{AllocError, Global};
use std::error::Error;
use std::fmt;

/// The most bytes that `read_bytes` gives: 4 MiB.
pub const LIMIT: usize = 4_194_304;

// How many bytes one read asks for at most.
const PIECE: usize = 4096;

/// Why reading ended with no result.
#[derive(Clone, Copy, Debug, PartialEq, Eq)]
pub enum ReadEnd {
    /// More than `LIMIT` bytes came.
    TooLong,
    /// A read failed.
    Fault,
    /// Memory ran out.
    NoMemory,
}

impl fmt::Display for ReadEnd {
    ghost use Rattle.std.specs.Prelude.{Some};
    ghost use Rattle.ctss_io.specs.Whole.{message_of};

    ghost output = { λ end. Some (message_of end) };

    fn fmt<W: fmt::Write>(&self, f: &mut fmt::Formatter<W>) -> fmt::Result {
        match self {
            ReadEnd::TooLong => write!(f, "the input is too long"),
            ReadEnd::Fault => write!(f, "reading failed"),
            ReadEnd::NoMemory => write!(f, "memory ran out"),
        }
    }
}

impl Error for ReadEnd {}

impl From<AllocError> for ReadEnd {
    ghost use Rattle.std.specs.Prelude.{◌≡◌};
    ghost use Rattle.ctss_io.specs.declared.whole.ReadEnd.TheVariants as ends;

    ghost from_gives = { λ _ e. e ≡ ends.NoMemory };

    fn from(_: AllocError) -> Self {
        ReadEnd::NoMemory
    }
}

/// A put failed before all was written.
#[derive(Clone, Copy, Debug, PartialEq, Eq)]
pub struct WriteFault;

impl fmt::Display for WriteFault {
    ghost use Rattle.std.specs.Prelude.{Some, codes};

    ghost output = { λ _. Some (codes "writing failed") };

    fn fmt<W: fmt::Write>(&self, f: &mut fmt::Formatter<W>) -> fmt::Result {
        write!(f, "writing failed")
    }
}

impl Error for WriteFault {}

/// All bytes that are left, of which there are at most `LIMIT`. At the first fault it gives up.
pub fn read_bytes<S: Source>(alloc: Global, source: &mut S) -> Result<Vec<u8>, ReadEnd>
    ensures bytes { IfOk result
        (λ bytes. S.left source.old ≡ prepended bytes.items (S.left source.new)) }
    ensures end { OnOk result (IsAtEnd (S.left source.new)) }
    ensures size { IfOk result (λ bytes. length bytes.items ≤ LIMIT) }

    // It is too long where the byte after the limit came, and never otherwise.
    ensures too_long { result ≡ Err ReadEnd.TooLong → HasAtLeast (LIMIT + 1) (S.left source.old) }
    ensures stopped { result ≡ Err ReadEnd.TooLong →
        ShrankBy (LIMIT + 1) (S.left source.old) (S.left source.new) }
    ensures within { WhereTold (S.left source.old)
        (λ left. length left ≤ LIMIT → result ≢ Err ReadEnd.TooLong) }

    // It fails only where a read did; and what any error took is gone, from the front.
    ensures fault { result ≡ Err ReadEnd.Fault → Rose (S.faults source.old) (S.faults source.new) }
    ensures prefix { OnErr result
        (ShrankByAtMost (LIMIT + 1) (S.left source.old) (S.left source.new)) }
    ensures faults_grow { S.faults source.old ≤ S.faults source.new }
{
    let mut bytes = Vec::new(alloc);
    let mut buffer = [0u8; PIECE];
    'reading: while bytes.len() <= LIMIT {
        let room = (LIMIT + 1 - bytes.len()).min(PIECE);
        match source.read(&mut buffer[..room]) {
            Got::Bytes(count) => bytes.extend_from_slice(&buffer[..count])?,
            Got::End => return Ok(bytes),
            Got::Failed => return Err(ReadEnd::Fault),
        }
    }
    Err(ReadEnd::TooLong)
}

/// Writes all of the text, in as many puts as the sink needs. At the first fault it gives up. The
/// empty text makes no call.
#[tactic(auto, using(crate::proofs::Pieces::after_more))]
pub fn write_all<K: Sink>(sink: &mut K, text: &[u8]) -> Result<(), WriteFault>
    ensures done { OnOk result (K.held sink.new ≡ after (K.held sink.old) text.now) }
    ensures fault { OnErr result (Rose (K.faults sink.old) (K.faults sink.new)) }
    ensures prefix { GrewByPrefix (K.held sink.old) text.now (K.held sink.new) }
    ensures short { OnErr result (GrewByProperPrefix (K.held sink.old) text.now (K.held sink.new)) }
    ensures faults_grow { K.faults sink.old ≤ K.faults sink.new }
    ensures empty { text.now ≡ [] → result ≡ Ok tt }
    ensures untouched { text.now ≡ [] → sink.new ≡ sink.old }
{
    let mut done = 0;
    'writing: while done < text.len() {
        match sink.put(&text[done..]) {
            Took::Bytes(count) => done += count,
            Took::Failed => return Err(WriteFault),
        }
    }
    Ok(())
}
