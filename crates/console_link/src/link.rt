//! What a server may ask of a link, and what it may count on.
ghost use Rattle.std.specs.Prelude.{◌≡◌, ◌<◌, ℕ, true, length, is_err};
ghost use Rattle.console_link.specs.Links.{LinkSeen, Did, DidOpen, DidAccept, DidRead, DidWrite, DidClose, DidWait, given, bytes_taken, GotFits, TookFits};

use std::error::Error;
use std::fmt;

/// A call that the link did not do.
#[derive(Clone, Copy, Debug, PartialEq, Eq, Hash)]
pub struct Failed;

impl fmt::Display for Failed {
    ghost use Rattle.std.specs.Prelude.{Some, codes};

    ghost output = { λ _. Some (codes "the link failed") };

    fn fmt<W: fmt::Write>(&self, f: &mut fmt::Formatter<W>) -> fmt::Result {
        f.write_str("the link failed")
    }
}

impl Error for Failed {}

/// What came of an accept.
#[derive(Clone, Copy, Debug, PartialEq, Eq)]
pub enum Accepted {
    New(u32),
    NotYet,
    Failed,
}

/// What a read gave.
#[derive(Clone, Copy, Debug, PartialEq, Eq)]
pub enum LinkGot {
    Bytes(usize),
    End,
    NotYet,
    Failed,
}

/// What a write took.
#[derive(Clone, Copy, Debug, PartialEq, Eq)]
pub enum LinkTook {
    Bytes(usize),
    NotYet,
    Failed,
}

/// A call that was made, with its answer.
#[derive(Clone, Copy, Debug, PartialEq, Eq)]
pub enum CallMade {
    Open { port: u16, failed: bool },
    Accept(Accepted),
    Read(u32, LinkGot),
    Write(u32, LinkTook),
    Close(u32),
    Wait { millis: u32, failed: bool },
}

/// A listener and its connections, which are named by numbers. No call waits but `wait`.
pub trait Link {
    /// All that contracts see of it.
    ghost seen: { Self → LinkSeen };

    /// Listens at a port.
    fn open(&mut self, port: u16) -> Result<(), Failed>
        ensures { Did (DidOpen port (is_err result)) (seen self.old) (seen self.new) };

    /// The next connection, where one waits.
    fn accept(&mut self) -> Accepted
        ensures { Did (DidAccept result) (seen self.old) (seen self.new) };

    /// Puts the next bytes of a connection at the front of the buffer.
    fn read(&mut self, id: u32, into: &mut [u8]) -> LinkGot
        requires open { (seen self.old).is_open id ≡ true }
        requires room { 0 < length into.old }
        ensures amount { GotFits result (length into.new) }
        ensures did { Did (DidRead id result (given result into.new)) (seen self.old) (seen self.new) };

    /// Takes bytes from the front of the piece.
    fn write(&mut self, id: u32, bytes: &[u8]) -> LinkTook
        requires open { (seen self.old).is_open id ≡ true }
        requires some { 0 < length bytes.now }
        ensures amount { TookFits result (length bytes.now) }
        ensures did { Did (DidWrite id result (bytes_taken result bytes.now)) (seen self.old) (seen self.new) };

    /// Ends a connection.
    fn close(&mut self, id: u32)
        requires open { (seen self.old).is_open id ≡ true }
        ensures { Did (DidClose id) (seen self.old) (seen self.new) };

    /// Waits until something may have come, at most so many milliseconds.
    fn wait(&mut self, millis: u32) -> Result<(), Failed>
        ensures { Did (DidWait millis (is_err result)) (seen self.old) (seen self.new) };
}
