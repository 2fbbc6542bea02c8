//! A source and a sink in memory, which fail where they are told to.
ghost use Rattle.std.specs.Prelude.{◌≡◌, ◌<◌, ◌≤◌, [], length, IfOk};
ghost use Rattle.ctss_io.specs.Outside.{Rose, prepended, after, given, GotFits, bytes_taken, TookFits, IsAtEnd};
ghost use Rattle.ctss_io.specs.Memory.{answer_of_read, source_after, buffer_after, answer_of_put, sink_after};

use crate::outside::{Got, Sink, Source, Took};
use faults::NoMemory;
use std::alloc::Global;
use std::marker::Model;

/// Gives the bytes that it was made with, a piece at a time. Reads count from 1, failed ones too.
#[derive(Drop)]
pub struct MemorySource {
    bytes: Vec<u8>,
    at: usize,
    piece: usize,
    fails: Vec<u64>,
    calls: u64,
    faults: u64,
}

impl Model for MemorySource {
    ghost use Rattle.std.specs.Prelude.{◌≤◌, length, drop};
    ghost use Rattle.ctss_io.specs.Memory.{SourceState};

    ghost Value = { SourceState };

    ghost view = { λ s. record {
      left = drop s.at s.bytes.items;
      piece = s.piece;
      fails = s.fails.items;
      calls = s.calls;
      faults = s.faults;
    } };

    ghost invariant = { λ s. (s.at ≤ length s.bytes.items) × (1 ≤ s.piece) };
}

impl MemorySource {
    /// A source that gives these bytes, at most `piece` at a time, and whose reads with the numbers
    /// in `fails` fail. It copies both lists, and takes no memory after that.
    pub fn new(
        alloc: Global,
        bytes: &[u8],
        piece: usize,
        fails: &[u64],
    ) -> Result<MemorySource, NoMemory>
        requires { 1 ≤ piece }
        ensures { IfOk result (λ s. s ≡ record {
          left = bytes.now;
          piece = piece;
          fails = fails.now;
          calls = 0;
          faults = 0;
        }) }
    {
        Ok(MemorySource {
            bytes: bytes.to_vec(alloc)?,
            at: 0,
            piece,
            fails: fails.to_vec(alloc)?,
            calls: 0,
            faults: 0,
        })
    }
}

impl Source for MemorySource {
    ghost use Rattle.std.specs.Prelude.{Some};

    ghost left = { λ s. Some s.left };

    ghost faults = { λ s. s.faults };

    /// Gives as many bytes as there are left, up to the piece and the room. What stands behind them
    /// in the buffer stays.
    fn read(&mut self, into: &mut [u8]) -> Got
        requires { 0 < length into.old }
        ensures amount { GotFits result (length into.new) }
        ensures moved { Some self.old.left ≡ prepended (given result into.new) (Some self.new.left) }
        ensures end { result ≡ Got.End → IsAtEnd (Some self.new.left) }
        ensures faults_grow { self.old.faults ≤ self.new.faults }
        ensures cause { result ≡ Got.Failed → Rose self.old.faults self.new.faults }

        // In memory all is determined.
        ensures answer { result ≡ answer_of_read self.old (length into.old) }
        ensures state { self.new ≡ source_after self.old result }
        ensures buffer { into.new ≡ buffer_after self.old.left result into.old }
    {
        self.calls = self.calls.saturating_add(1);
        if self.fails.contains(&self.calls) {
            self.faults = self.faults.saturating_add(1);
            return Got::Failed;
        }
        let left = self.bytes.len() - self.at;
        if left == 0 {
            return Got::End;
        }
        let count = self.piece.min(into.len()).min(left);
        into[..count].copy_from_slice(&self.bytes[self.at..self.at + count]);
        self.at += count;
        Got::Bytes(count)
    }
}

/// Holds the bytes that it takes, a piece at a time. Puts count from 1, failed ones too.
#[derive(Drop)]
pub struct MemorySink {
    bytes: Vec<u8>,
    room: usize,
    piece: usize,
    fails: Vec<u64>,
    calls: u64,
    faults: u64,
}

impl Model for MemorySink {
    ghost use Rattle.std.specs.Prelude.{◌≤◌, length, vec_capacity};
    ghost use Rattle.ctss_io.specs.Memory.{SinkState};

    ghost Value = { SinkState };

    ghost view = { λ s. record {
      held = s.bytes.items;
      room = s.room;
      piece = s.piece;
      fails = s.fails.items;
      calls = s.calls;
      faults = s.faults;
    } };

    ghost invariant = { λ s.
        (length s.bytes.items ≤ s.room) × (s.room ≤ vec_capacity s.bytes) × (1 ≤ s.piece) };
}

impl MemorySink {
    /// A sink that holds at most `room` bytes, takes at most `piece` at a time, and whose puts with
    /// the numbers in `fails` fail. It takes all of its memory here.
    pub fn new(
        alloc: Global,
        room: usize,
        piece: usize,
        fails: &[u64],
    ) -> Result<MemorySink, NoMemory>
        requires { 1 ≤ piece }
        ensures { IfOk result (λ s. s ≡ record {
          held = [];
          room = room;
          piece = piece;
          fails = fails.now;
          calls = 0;
          faults = 0;
        }) }
    {
        Ok(MemorySink {
            bytes: Vec::with_capacity(alloc, room)?,
            room,
            piece,
            fails: fails.to_vec(alloc)?,
            calls: 0,
            faults: 0,
        })
    }

    /// The bytes held, first put first.
    pub fn bytes(&self) -> &[u8]
        ensures bytes { result.now ≡ self.now.held }
        ensures within { length result.now ≤ self.now.room }
    {
        self.bytes.as_slice()
    }
}

impl Sink for MemorySink {
    ghost use Rattle.std.specs.Prelude.{Some};

    ghost held = { λ s. Some s.held };

    ghost faults = { λ s. s.faults };

    /// Takes up to a piece. A put that would pass the room takes nothing and is a fault.
    fn put(&mut self, bytes: &[u8]) -> Took
        requires { 0 < length bytes.now }
        ensures amount { TookFits result (length bytes.now) }
        ensures moved { Some self.new.held ≡ after (Some self.old.held) (bytes_taken result bytes.now) }
        ensures faults_grow { self.old.faults ≤ self.new.faults }
        ensures cause { result ≡ Took.Failed → Rose self.old.faults self.new.faults }

        // In memory all is determined.
        ensures answer { result ≡ answer_of_put self.old (length bytes.now) }
        ensures state { self.new ≡ sink_after self.old bytes.now result }
    {
        self.calls = self.calls.saturating_add(1);
        let count = self.piece.min(bytes.len());
        if self.fails.contains(&self.calls) || count > self.room - self.bytes.len() {
            self.faults = self.faults.saturating_add(1);
            return Took::Failed;
        }
        // The room was taken when the sink was made.
        self.bytes.extend_from_slice(&bytes[..count]).unwrap();
        Took::Bytes(count)
    }
}
