//! The standard streams as a source and a sink.
ghost use Rattle.std.specs.Prelude.{◌≡◌, ◌<◌, ◌≤◌, length};
ghost use Rattle.std.specs.Io.KnownBytes.{Consumes, Appends, IsAtEnd};
ghost use Rattle.ctss_io.specs.Outside.{Rose, GotFits, given, faults_after_got, TookFits, bytes_taken, faults_after_took};

use crate::outside::{Got, Sink, Source, Took};
use std::io::{ErrorKind, Read, Write};
use std::marker::Model;

// How often one call is tried, where a signal interrupts it.
const TRIES: usize = 64;

/// A reader as a source, as `StdSource::new(rt.reader())` for standard input. It tells no content.
#[derive(Drop)]
pub struct StdSource<R> {
    reader: R,
    faults: u64,
}

impl<R> Model for StdSource<R> {
    ghost use Rattle.ctss_io.specs.Standard.{Counted};

    ghost Value = { Counted R };

    ghost view = { λ s. record { inner = s.reader; faults = s.faults } };
}

impl<R: Read> StdSource<R> {
    /// A source over this reader, with no fault yet.
    pub fn new(reader: R) -> Self
        ensures { result ≡ record { inner = reader; faults = 0 } }
    {
        StdSource { reader, faults: 0 }
    }
}

impl<R: Read> Source for StdSource<R> {
    ghost use Rattle.std.specs.Prelude.{None};

    ghost left = { λ _. None };

    ghost faults = { λ s. s.faults };

    /// One read of the reader. Where a signal interrupts it, it is tried again, up to 64 times in
    /// all. A read that never came through, or that met any other error, is a fault.
    fn read(&mut self, into: &mut [u8]) -> Got
        requires { 0 < length into.old }
        ensures amount { GotFits result (length into.new) }
        ensures faults_grow { self.old.faults ≤ self.new.faults }
        ensures cause { result ≡ Got.Failed → Rose self.old.faults self.new.faults }
        ensures counted { self.new.faults ≡ faults_after_got result self.old.faults }

        // Where the reader knows its bytes, as one in memory does, they come through as they are.
        ensures bytes { Consumes (R.remaining self.old.inner) (R.remaining self.new.inner)
            (given result into.new) }
        ensures end { result ≡ Got.End → IsAtEnd (R.remaining self.new.inner) }
    {
        for _ in 0..TRIES {
            match self.reader.read(into) {
                Ok(0) => return Got::End,
                Ok(count) => return Got::Bytes(count),
                Err(error) if error.kind() == ErrorKind::Interrupted => {}
                Err(_) => break,
            }
        }
        self.faults = self.faults.saturating_add(1);
        Got::Failed
    }
}

/// A writer as a sink, as `StdSink::new(io::writer(&rt))` for standard output. It tells no content.
///
/// What a put took was handed to the writer, and nothing here flushes it. The writer that the
/// runtime gives keeps nothing back, so no byte is lost where the program ends; one with a buffer
/// of its own is the caller's to flush.
#[derive(Drop)]
pub struct StdSink<W> {
    writer: W,
    faults: u64,
}

impl<W> Model for StdSink<W> {
    ghost use Rattle.ctss_io.specs.Standard.{Counted};

    ghost Value = { Counted W };

    ghost view = { λ s. record { inner = s.writer; faults = s.faults } };
}

impl<W: Write> StdSink<W> {
    /// A sink over this writer, with no fault yet.
    pub fn new(writer: W) -> Self
        ensures { result ≡ record { inner = writer; faults = 0 } }
    {
        StdSink { writer, faults: 0 }
    }
}

impl<W: Write> Sink for StdSink<W> {
    ghost use Rattle.std.specs.Prelude.{None};

    ghost held = { λ _. None };

    ghost faults = { λ s. s.faults };

    /// One write to the writer. Where a signal interrupts it, it is tried again, up to 64 times in
    /// all. A write that never came through, that took nothing, or that met any other error, is a
    /// fault.
    fn put(&mut self, bytes: &[u8]) -> Took
        requires { 0 < length bytes.now }
        ensures amount { TookFits result (length bytes.now) }
        ensures faults_grow { self.old.faults ≤ self.new.faults }
        ensures cause { result ≡ Took.Failed → Rose self.old.faults self.new.faults }
        ensures counted { self.new.faults ≡ faults_after_took result self.old.faults }

        // Where the writer knows its bytes, as one in memory does, they come through as they are.
        ensures bytes { Appends (W.contents self.old.inner) (W.contents self.new.inner)
            (bytes_taken result bytes.now) }
    {
        for _ in 0..TRIES {
            match self.writer.write(bytes) {
                Ok(0) => break,
                Ok(count) => return Took::Bytes(count),
                Err(error) if error.kind() == ErrorKind::Interrupted => {}
                Err(_) => break,
            }
        }
        self.faults = self.faults.saturating_add(1);
        Took::Failed
    }
}
