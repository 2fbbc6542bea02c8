//! A source and a sink of bytes, as a program is handed them.
ghost use Rattle.std.specs.Prelude.{◌≡◌, ◌<◌, ◌≤◌, ℕ, List, Option, length};
ghost use Rattle.ctss_io.specs.Outside.{Rose, prepended, after, given, GotFits, bytes_taken, TookFits, IsAtEnd};

/// What a read gave.
#[derive(Clone, Copy, Debug, PartialEq, Eq)]
pub enum Got {
    /// So many bytes, at least one, now stand at the front of the buffer.
    Bytes(usize),
    /// No byte is left.
    End,
    /// The read failed, and no byte has moved. The source may be read again.
    Failed,
}

/// What a put took.
#[derive(Clone, Copy, Debug, PartialEq, Eq)]
pub enum Took {
    /// So many bytes, at least one, were taken from the front of the piece.
    Bytes(usize),
    /// The put failed, and no byte has moved. A sink that takes nothing answers so.
    Failed,
}

/// Where bytes come from, a piece at a time.
///
/// A source may tell its contracts which bytes are left in it. One over the real world tells
/// nothing, and then its answers are bound by the count of faults alone.
pub trait Source {
    /// The bytes left, where told. What is told stays told.
    ghost left: { Self → Option (List ℕ) };

    /// How often a read has failed. It never falls, and stands still at 2^64 - 1.
    ghost faults: { Self → ℕ };

    /// Puts the next bytes at the front of the buffer, which has room for at least one.
    fn read(&mut self, into: &mut [u8]) -> Got
        requires { 0 < length into.old }
        ensures amount { GotFits result (length into.new) }
        ensures moved { left self.old ≡ prepended (given result into.new) (left self.new) }
        ensures end { result ≡ Got.End → IsAtEnd (left self.new) }
        ensures faults_grow { faults self.old ≤ faults self.new }
        ensures cause { result ≡ Got.Failed → Rose (faults self.old) (faults self.new) };
}

/// Where bytes go, a piece at a time.
///
/// A sink may tell its contracts which bytes it holds. One over the real world tells nothing, and
/// then its answers are bound by the count of faults alone.
pub trait Sink {
    /// The bytes held, where told. What is told stays told.
    ghost held: { Self → Option (List ℕ) };

    /// How often a put has failed. It never falls, and stands still at 2^64 - 1.
    ghost faults: { Self → ℕ };

    /// Takes bytes from the front of the piece, which is not empty.
    fn put(&mut self, bytes: &[u8]) -> Took
        requires { 0 < length bytes.now }
        ensures amount { TookFits result (length bytes.now) }
        ensures moved { held self.new ≡ after (held self.old) (bytes_taken result bytes.now) }
        ensures faults_grow { faults self.old ≤ faults self.new }
        ensures cause { result ≡ Took.Failed → Rose (faults self.old) (faults self.new) };
}
