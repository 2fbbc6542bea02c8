//! A link over sockets.
ghost use Rattle.std.specs.Prelude.{◌≡◌, ◌<◌, ◌≤◌, ℕ, true, false, length, vec_len, is_err, OnOk, IfOk};
ghost use Rattle.console_link.specs.Links.{Did, DidOpen, DidAccept, DidRead, DidWrite, DidClose, DidWait, given, bytes_taken, GotFits, TookFits};

use crate::link::{Accepted, Failed, Link, LinkGot, LinkTook};
use faults::NoMemory;
use mio::net::{TcpListener, TcpStream};
use mio::{Events, Interest, Poll, Token};
use slab::Slab;
use std::alloc::Global;
use std::io;
use std::io::{ErrorKind, Read, Write};
use std::net::{Ipv4Addr, Net, SocketAddr};
use std::time::Duration;

const MOST: usize = 33;

#[derive(Clone, Copy)]
struct Tally {
    faults: u64,
    read_waits: u64,
    write_waits: u64,
}

#[derive(Drop)]
struct Listening {
    poll: Poll,
    listener: TcpListener,
}

/// Sockets at 127.0.0.1. It tells no content and no calls.
#[derive(Drop)]
pub struct MioLink<'r, R: Net> {
    net: &'r R,
    listening: Option<Listening>,
    events: Events,
    streams: Slab<TcpStream>,
    tallies: Vec<Tally>,
    faults: u64,
    waits: u64,
    ghost places: { vec_len tallies ≡ 33 },
    ghost room: { 33 ≤ streams.capacity },
}

fn is_not_ready(error: &io::Error) -> bool {
    matches!(error.kind(), ErrorKind::WouldBlock | ErrorKind::Interrupted)
}

impl<'r, R: Net> MioLink<'r, R> {
    ghost use Rattle.slab.specs.Slab.{slab_len};

    /// A link that doesn't listen yet, with room for 33 open connections.
    pub fn new(alloc: Global, net: &'r R) -> Result<MioLink<'r, R>, NoMemory>
        ensures { IfOk result (λ link. (k : ℕ) → (⟦<MioLink<'r, R> as Link>⟧.seen link).is_open k ≡ false) }
    {
        let events = Events::with_capacity(alloc, 64)?;
        let streams = Slab::with_capacity(alloc, MOST)?;
        let tally = Tally {
            faults: 0,
            read_waits: 0,
            write_waits: 0,
        };
        let tallies = vec![in alloc; tally; MOST]?;
        Ok(MioLink {
            net,
            listening: None,
            events,
            streams,
            tallies,
            faults: 0,
            waits: 0,
        })
    }

    /// The port at which it listens.
    pub fn port(&self) -> Option<u16> {
        let listening = self.listening.as_ref()?;
        match listening.listener.local_addr() {
            Ok(address) => Some(address.port()),
            Err(_) => None,
        }
    }

    fn listen(&self, port: u16) -> io::Result<Listening> {
        let poll = Poll::new(self.net)?;
        let address = SocketAddr::from((Ipv4Addr::LOCALHOST, port));
        let mut listener = TcpListener::bind(self.net, address)?;
        poll.registry()
            .register(&mut listener, Token(usize::MAX), Interest::READABLE)?;
        Ok(Listening { poll, listener })
    }

    /// The next connection, watched by the poll; else whether none waits. A place past the 33rd is a fault.
    fn next_connection(&self) -> Result<TcpStream, bool>
        ensures room { OnOk result (slab_len self.now.streams < 33) }
        ensures place { OnOk result (self.now.streams.vacant_key < 33) }
    {
        let Some(listening) = &self.listening else {
            return Err(false);
        };
        let mut stream = match listening.listener.accept() {
            Ok((stream, _)) => stream,
            Err(error) => return Err(is_not_ready(&error)),
        };
        let key = self.streams.vacant_key();
        if self.streams.len() >= MOST || key >= MOST {
            return Err(false);
        }
        match listening
            .poll
            .registry()
            .register(&mut stream, Token(key), Interest::READABLE)
        {
            Ok(()) => Ok(stream),
            Err(_) => Err(false),
        }
    }
}

impl<'r, R: Net> Link for MioLink<'r, R> {
    ghost use Rattle.console_link.specs.Tallies.{seen_of, is_place};

    ghost seen = { λ m. seen_of m.streams m.tallies.items m.faults m.waits };

    fn open(&mut self, port: u16) -> Result<(), Failed> {
        match self.listen(port) {
            Ok(listening) => {
                self.listening = Some(listening);
                Ok(())
            }
            Err(_) => {
                self.faults = self.faults.saturating_add(1);
                Err(Failed)
            }
        }
    }

    #[tactic(auto, using(crate::proofs::Muted::accepted_new))]
    fn accept(&mut self) -> Accepted {
        match self.next_connection() {
            Ok(stream) => Accepted::New(self.streams.insert_reserved(stream) as u32),
            Err(true) => {
                self.waits = self.waits.saturating_add(1);
                Accepted::NotYet
            }
            Err(false) => {
                self.faults = self.faults.saturating_add(1);
                Accepted::Failed
            }
        }
    }

    #[tactic(auto, using(crate::proofs::Muted::placed, crate::proofs::Muted::seen_here, crate::proofs::Muted::read_nothing, crate::proofs::Muted::read_changed))]
    fn read(&mut self, id: u32, into: &mut [u8]) -> LinkGot {
        let Some(mut stream) = self.streams.get(id as usize) else {
            unreachable!()
        };
        match stream.read(into) {
            Ok(0) => LinkGot::End,
            Ok(count) => LinkGot::Bytes(count),
            Err(error) => {
                let tally = &mut self.tallies[id as usize];
                if is_not_ready(&error) {
                    tally.read_waits = tally.read_waits.saturating_add(1);
                    LinkGot::NotYet
                } else {
                    tally.faults = tally.faults.saturating_add(1);
                    LinkGot::Failed
                }
            }
        }
    }

    #[tactic(auto, using(crate::proofs::Muted::placed, crate::proofs::Muted::seen_here, crate::proofs::Muted::write_nothing, crate::proofs::Muted::write_changed))]
    fn write(&mut self, id: u32, bytes: &[u8]) -> LinkTook {
        let Some(mut stream) = self.streams.get(id as usize) else {
            unreachable!()
        };
        match stream.write(bytes) {
            Ok(0) => {
                let tally = &mut self.tallies[id as usize];
                tally.faults = tally.faults.saturating_add(1);
                LinkTook::Failed
            }
            Ok(count) => LinkTook::Bytes(count),
            Err(error) => {
                let tally = &mut self.tallies[id as usize];
                if is_not_ready(&error) {
                    tally.write_waits = tally.write_waits.saturating_add(1);
                    LinkTook::NotYet
                } else {
                    tally.faults = tally.faults.saturating_add(1);
                    LinkTook::Failed
                }
            }
        }
    }

    fn close(&mut self, id: u32) {
        let stream = self.streams.remove(id as usize);
        drop(stream);
    }

    fn wait(&mut self, millis: u32) -> Result<(), Failed> {
        let done = match &mut self.listening {
            Some(listening) => listening
                .poll
                .poll(
                    &mut self.events,
                    Some(Duration::from_millis(u64::from(millis))),
                )
                .is_ok(),
            None => false,
        };
        if done {
            Ok(())
        } else {
            self.faults = self.faults.saturating_add(1);
            Err(Failed)
        }
    }
}
