//! One connection in memory.
ghost use Rattle.std.specs.Prelude.{◌≡◌, ◌<◌, ◌≤◌, ◌++◌, IfOk, length, take, drop};
ghost use Rattle.console_link.specs.Links.{given, bytes_taken, GotFits, TookFits};
ghost use Rattle.console_link.specs.Memory.{connection_of, cut_of as first_cut, count_given, read_answer, write_answer, after_read, after_write, with_open, OverAtEnd};
ghost use Rattle.console_link.specs.Fields.{AreCounts};

use crate::link::{LinkGot, LinkTook};
use crate::memory::Peer;
use faults::NoMemory;
use std::alloc::Global;
use std::marker::Model;

/// A peer's bytes and what was sent to it. All memory is taken when it is made.
#[derive(Drop)]
pub(crate) struct Connection {
    bytes: Vec<u8>,
    at: usize,
    cuts: Vec<usize>,
    ends: bool,
    opened: bool,
    sent: Vec<u8>,
    room: usize,
    reads: u64,
    writes: u64,
    faults: u64,
    read_waits: u64,
    write_waits: u64,
}

impl Model for Connection {
    ghost use Rattle.console_link.specs.Memory.{ConnectionState};

    ghost Value = { ConnectionState };

    ghost use Rattle.console_link.specs.Fields.{connection_state, IsConnection};

    ghost view = { connection_state };

    ghost invariant = { IsConnection };
}

/// The first of these places behind a place.
fn cut_of(at: usize, cuts: &[usize]) -> usize
    ensures { result ≡ first_cut at cuts.now }
{
    for cut in cuts {
        if at < *cut {
            return *cut;
        }
    }
    at
}

impl Connection {
    /// A peer's connection before its first call, with room for so many bytes sent.
    #[tactic(auto, using(crate::proofs::Cuts::all_pieces))]
    pub(crate) fn new(alloc: Global, peer: &Peer, room: usize) -> Result<Connection, NoMemory>
        ensures { IfOk result (λ connection. connection ≡ connection_of room peer.now) }
    {
        let mut bytes = Vec::new(alloc);
        let mut cuts = Vec::new(alloc);
        for piece in &peer.pieces {
            bytes.extend_from_slice(piece)?;
            cuts.push(bytes.len())?;
        }
        Ok(Connection {
            bytes,
            at: 0,
            cuts,
            ends: peer.ends,
            opened: false,
            sent: Vec::with_capacity(alloc, room)?,
            room,
            reads: 0,
            writes: 0,
            faults: 0,
            read_waits: 0,
            write_waits: 0,
        })
    }

    /// How often it was read.
    pub(crate) fn reads(&self) -> u64
        ensures { result ≡ self.now.reads }
    {
        self.reads
    }

    /// How often it was written to.
    pub(crate) fn writes(&self) -> u64
        ensures { result ≡ self.now.writes }
    {
        self.writes
    }

    /// The bytes that were sent to the peer.
    pub(crate) fn sent(&self) -> &[u8]
        ensures { result.now ≡ self.now.sent }
    {
        self.sent.as_slice()
    }

    /// Opens or closes it.
    pub(crate) fn set_open(&mut self, opened: bool)
        ensures { self.new ≡ with_open opened self.old }
    {
        self.opened = opened;
    }

    /// Reads up to the next cut.
    #[tactic(auto, using(crate::proofs::Cuts::cut_within))]
    pub(crate) fn read(&mut self, fails: bool, waits: bool, into: &mut [u8]) -> LinkGot
        requires { 0 < length into.old }
        ensures amount { GotFits result (length into.new) }
        ensures answer { result ≡ read_answer fails waits self.old (length into.old) }
        ensures state { self.new ≡ after_read result self.old }
        ensures bytes { given result into.new ≡ take (count_given result) (drop self.old.at self.old.bytes) }
        ensures over { OverAtEnd result self.new }
        ensures counts { AreCounts self.old }
    {
        self.reads = self.reads.saturating_add(1);
        if fails {
            self.faults = self.faults.saturating_add(1);
            return LinkGot::Failed;
        }
        let cut = cut_of(self.at, &self.cuts);
        if waits || (cut <= self.at && !self.ends) {
            self.read_waits = self.read_waits.saturating_add(1);
            return LinkGot::NotYet;
        }
        if cut <= self.at {
            return LinkGot::End;
        }
        let count = into.len().min(cut - self.at);
        into[..count].copy_from_slice(&self.bytes[self.at..self.at + count]);
        self.at += count;
        LinkGot::Bytes(count)
    }

    /// Takes the whole piece, where there is room for it.
    pub(crate) fn write(&mut self, fails: bool, waits: bool, bytes: &[u8]) -> LinkTook
        requires { 0 < length bytes.now }
        ensures amount { TookFits result (length bytes.now) }
        ensures answer { result ≡ write_answer fails waits self.old (length bytes.now) }
        ensures state { self.new ≡ after_write result (bytes_taken result bytes.now) self.old }
        ensures counts { AreCounts self.old }
    {
        self.writes = self.writes.saturating_add(1);
        if !fails && waits {
            self.write_waits = self.write_waits.saturating_add(1);
            return LinkTook::NotYet;
        }
        if fails || self.room - self.sent.len() < bytes.len() {
            self.faults = self.faults.saturating_add(1);
            return LinkTook::Failed;
        }
        self.sent.extend_from_slice(bytes).unwrap();
        LinkTook::Bytes(bytes.len())
    }
}
