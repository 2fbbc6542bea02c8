//! A link in memory, which fails and is not ready where it is told to.
ghost use Rattle.std.specs.Prelude.{◌≡◌, ◌<◌, ◌≤◌, ◌^◌, ◌&&◌, nat_eq, true, length, take, drop, is_err, IfOk};
ghost use Rattle.console_link.specs.Fields.{AreCounts, IsListening};
ghost use Rattle.console_link.specs.Links.{Did, DidOpen, DidAccept, DidRead, DidWrite, DidClose, DidWait, given, bytes_taken, GotFits, TookFits};
ghost use Rattle.console_link.specs.Memory.{LinkState, link_of, is_listed as is_named, same_call as are_same, memory_seen, open_fails, after_open, wait_fails, after_wait, accept_answer, after_accept, link_read_answer, link_after_read, link_write_answer, link_after_write, link_after_close, connection_at, count_given, after_read, OverAtEnd, calls_told};

use crate::connection::Connection;
use crate::link::{Accepted, CallMade, Failed, Link, LinkGot, LinkTook};
use crate::log::CallLog;
use faults::NoMemory;
use std::alloc::Global;
use std::marker::Model;

/// What a peer sends, piece by piece, and whether it ends the connection behind that.
#[derive(Drop)]
pub struct Peer {
    pub pieces: Vec<Vec<u8>>,
    pub ends: bool,
}

/// The kinds of calls, each of which is numbered by itself, reads and writes for each connection.
#[derive(Clone, Copy, Debug, PartialEq, Eq)]
pub enum LinkCall {
    Open,
    Accept,
    Wait,
    Read(u32),
    Write(u32),
}

/// A call of this kind and number, where the first has number 1.
#[derive(Clone, Copy, Debug, PartialEq, Eq)]
pub struct LinkAt {
    pub call: LinkCall,
    pub number: u64,
}

/// Connections in memory: the peers in order, with the numbers 0, 1 and on.
///
/// A read gives bytes of one piece alone. A call that is one of those that fail fails; another one that is one of those
/// that are not ready is not; neither moves a byte or takes a peer. An open and a wait are always ready. A write takes
/// its whole piece, and fails where there is no room for it.
#[derive(Drop)]
pub struct MemoryLink {
    connections: Vec<Connection>,
    accepted: u32,
    fails: Vec<LinkAt>,
    not_ready: Vec<LinkAt>,
    opens: u64,
    accepts: u64,
    rests: u64,
    faults: u64,
    waits: u64,
    log: CallLog,
}

impl Model for MemoryLink {
    ghost use Rattle.console_link.specs.Memory.{LinkState};

    ghost Value = { LinkState };

    ghost use Rattle.console_link.specs.Fields.{link_state, IsLink};

    ghost view = { link_state };

    ghost invariant = { IsLink };
}

fn is_same(a: LinkCall, b: LinkCall) -> bool
    ensures { result ≡ are_same a b }
{
    match a {
        LinkCall::Open => matches!(b, LinkCall::Open),
        LinkCall::Accept => matches!(b, LinkCall::Accept),
        LinkCall::Wait => matches!(b, LinkCall::Wait),
        LinkCall::Read(id) => match b {
            LinkCall::Read(other) => id == other,
            _ => false,
        },
        LinkCall::Write(id) => match b {
            LinkCall::Write(other) => id == other,
            _ => false,
        },
    }
}

/// Whether the call of this kind and number is one of these.
fn is_listed(list: &[LinkAt], call: LinkCall, number: u64) -> bool
    ensures { result ≡ is_named list.now call number }
{
    for at in list {
        if is_same(at.call, call) && at.number == number {
            return true;
        }
    }
    false
}

impl MemoryLink {
    /// A link to these peers, with room for so many calls and for so many bytes sent to each. Without room for calls it
    /// tells none.
    #[tactic(auto, using(crate::proofs::MemoryLaws::all_new, crate::proofs::MemoryLaws::all_peers))]
    pub fn new(
        alloc: Global,
        peers: &[Peer],
        fails: &[LinkAt],
        not_ready: &[LinkAt],
        calls: u64,
        bytes: usize,
    ) -> Result<MemoryLink, NoMemory>
        requires { length peers.now < 2 ^ 32 }
        ensures { IfOk result (λ link. link ≡ link_of peers.now fails.now not_ready.now calls bytes) }
    {
        let mut connections = Vec::with_capacity(alloc, peers.len())?;
        for peer in peers {
            connections.push(Connection::new(alloc, peer, bytes)?)?;
        }
        let mut failing = Vec::new(alloc);
        failing.extend_from_slice(fails)?;
        let mut waiting = Vec::new(alloc);
        waiting.extend_from_slice(not_ready)?;
        Ok(MemoryLink {
            connections,
            accepted: 0,
            fails: failing,
            not_ready: waiting,
            opens: 0,
            accepts: 0,
            rests: 0,
            faults: 0,
            waits: 0,
            log: CallLog::new(alloc, calls)?,
        })
    }

    /// The bytes that were sent to a peer, none to one that there is not.
    pub fn sent(&self, id: u32) -> &[u8]
        ensures { result.now ≡ (connection_at self.now id).sent }
    {
        match self.connections.get(id as usize) {
            Some(connection) => connection.sent(),
            None => &[],
        }
    }

    /// The calls made so far, none where they are not told.
    pub fn calls(&self) -> &[CallMade]
        ensures { result.now ≡ calls_told self.now.calls }
    {
        self.log.calls()
    }

    /// The next peer's connection.
    #[tactic(auto, using(crate::proofs::MemoryLaws::news_left))]
    fn take_peer(&mut self) -> Accepted
        ensures answer { result ≡ accept_answer self.old }
        ensures state { self.new ≡ record (after_accept result self.old) { calls = self.old.calls } }
        ensures listening { IsListening self.old }
    {
        self.accepts = self.accepts.saturating_add(1);
        if is_listed(&self.fails, LinkCall::Accept, self.accepts) {
            self.faults = self.faults.saturating_add(1);
            return Accepted::Failed;
        }
        let waits = is_listed(&self.not_ready, LinkCall::Accept, self.accepts);
        if waits || self.accepted as usize >= self.connections.len() {
            self.waits = self.waits.saturating_add(1);
            return Accepted::NotYet;
        }
        let id = self.accepted;
        self.connections[id as usize].set_open(true);
        self.accepted += 1;
        Accepted::New(id)
    }

    fn accept_next(&mut self) -> Accepted
        ensures answer { result ≡ accept_answer self.old }
        ensures state { self.new ≡ after_accept result self.old }
        ensures listening { IsListening self.old }
    {
        let answer = self.take_peer();
        self.log.push(CallMade::Accept(answer));
        answer
    }

    #[tactic(auto, using(crate::proofs::MemoryLaws::open_within, crate::proofs::MemoryLaws::news_kept))]
    fn read_next(&mut self, id: u32, into: &mut [u8]) -> LinkGot
        requires open { (connection_at self.old id).opened ≡ true }
        requires room { 0 < length into.old }
        ensures amount { GotFits result (length into.new) }
        ensures answer { result ≡ link_read_answer id (length into.old) self.old }
        ensures state { self.new ≡ link_after_read id result self.old }
        ensures bytes { given result into.new
            ≡ take (count_given result) (drop (connection_at self.old id).at (connection_at self.old id).bytes) }
        ensures over { OverAtEnd result (after_read result (connection_at self.old id)) }
        ensures counts { AreCounts (connection_at self.old id) }
    {
        let number = self.connections[id as usize].reads().saturating_add(1);
        let fails = is_listed(&self.fails, LinkCall::Read(id), number);
        let waits = is_listed(&self.not_ready, LinkCall::Read(id), number);
        let answer = self.connections[id as usize].read(fails, waits, into);
        self.log.push(CallMade::Read(id, answer));
        answer
    }

    #[tactic(auto, using(crate::proofs::MemoryLaws::open_within, crate::proofs::MemoryLaws::news_kept))]
    fn write_next(&mut self, id: u32, bytes: &[u8]) -> LinkTook
        requires open { (connection_at self.old id).opened ≡ true }
        requires some { 0 < length bytes.now }
        ensures amount { TookFits result (length bytes.now) }
        ensures answer { result ≡ link_write_answer id (length bytes.now) self.old }
        ensures state { self.new ≡ link_after_write id result (bytes_taken result bytes.now) self.old }
        ensures counts { AreCounts (connection_at self.old id) }
    {
        let number = self.connections[id as usize].writes().saturating_add(1);
        let fails = is_listed(&self.fails, LinkCall::Write(id), number);
        let waits = is_listed(&self.not_ready, LinkCall::Write(id), number);
        let answer = self.connections[id as usize].write(fails, waits, bytes);
        self.log.push(CallMade::Write(id, answer));
        answer
    }
}

impl Link for MemoryLink {
    ghost use Rattle.console_link.specs.Memory.{memory_seen};

    ghost seen = { memory_seen };

    #[tactic(auto, using(crate::proofs::MemoryLaws::open_did))]
    fn open(&mut self, port: u16) -> Result<(), Failed>
        ensures answer { is_err result ≡ open_fails self.old }
        ensures state { self.new ≡ after_open port self.old }
        ensures did { Did (DidOpen port (is_err result)) (memory_seen self.old) (memory_seen self.new) }
    {
        self.opens = self.opens.saturating_add(1);
        let fails = is_listed(&self.fails, LinkCall::Open, self.opens);
        self.log.push(CallMade::Open {
            port,
            failed: fails,
        });
        if fails {
            self.faults = self.faults.saturating_add(1);
            return Err(Failed);
        }
        Ok(())
    }

    fn accept(&mut self) -> Accepted
        ensures answer { result ≡ accept_answer self.old }
        ensures state { self.new ≡ after_accept result self.old }
        ensures did { Did (DidAccept result) (memory_seen self.old) (memory_seen self.new) }
    {
        self.accept_next()
    }

    fn read(&mut self, id: u32, into: &mut [u8]) -> LinkGot
        requires open { (memory_seen self.old).is_open id ≡ true }
        requires room { 0 < length into.old }
        ensures amount { GotFits result (length into.new) }
        ensures answer { result ≡ link_read_answer id (length into.old) self.old }
        ensures state { self.new ≡ link_after_read id result self.old }
        ensures did { Did (DidRead id result (given result into.new)) (memory_seen self.old) (memory_seen self.new) }
    {
        self.read_next(id, into)
    }

    fn write(&mut self, id: u32, bytes: &[u8]) -> LinkTook
        requires open { (memory_seen self.old).is_open id ≡ true }
        requires some { 0 < length bytes.now }
        ensures amount { TookFits result (length bytes.now) }
        ensures answer { result ≡ link_write_answer id (length bytes.now) self.old }
        ensures state { self.new ≡ link_after_write id result (bytes_taken result bytes.now) self.old }
        ensures did { Did (DidWrite id result (bytes_taken result bytes.now)) (memory_seen self.old)
            (memory_seen self.new) }
    {
        self.write_next(id, bytes)
    }

    #[tactic(auto, using(crate::proofs::MemoryLaws::close_did, crate::proofs::MemoryLaws::open_within))]
    fn close(&mut self, id: u32)
        requires open { (memory_seen self.old).is_open id ≡ true }
        ensures state { self.new ≡ link_after_close id self.old }
        ensures did { Did (DidClose id) (memory_seen self.old) (memory_seen self.new) }
    {
        self.connections[id as usize].set_open(false);
        self.log.push(CallMade::Close(id));
    }

    #[tactic(auto, using(crate::proofs::MemoryLaws::wait_did))]
    fn wait(&mut self, millis: u32) -> Result<(), Failed>
        ensures answer { is_err result ≡ wait_fails self.old }
        ensures state { self.new ≡ after_wait millis self.old }
        ensures did { Did (DidWait millis (is_err result)) (memory_seen self.old) (memory_seen self.new) }
    {
        self.rests = self.rests.saturating_add(1);
        let fails = is_listed(&self.fails, LinkCall::Wait, self.rests);
        self.log.push(CallMade::Wait {
            millis,
            failed: fails,
        });
        if fails {
            self.faults = self.faults.saturating_add(1);
            return Err(Failed);
        }
        Ok(())
    }
}
