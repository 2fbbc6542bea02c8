//! What a layer above may ask of a medium, and what it may count on.
ghost use Rattle.std.specs.Prelude.{◌≡◌, ◌<◌, ℕ, List, Option, length};
ghost use Rattle.medium.specs.Called.{seen_by, ReadsRecord, WritesRecord};
ghost use Rattle.medium.specs.Medium.{AreWords, CallList, HasShape};

use std::error::Error;
use std::fmt;

/// A read or a write that the medium did not do.
#[derive(Clone, Copy, Debug, PartialEq, Eq, Hash)]
pub struct Failed;

impl fmt::Display for Failed {
    ghost use Rattle.std.specs.Prelude.{Some, codes};

    ghost output = { λ _. Some (codes "the medium failed") };

    fn fmt<W: fmt::Write>(&self, f: &mut fmt::Formatter<W>) -> fmt::Result {
        f.write_str("the medium failed")
    }
}

impl Error for Failed {}

/// Records of words of 36 bits, numbered from 0, each read and written as a whole. All have the same
/// number of words.
///
/// Contracts speak of two things where the medium tells them: what its records hold, and which calls
/// were made of it. A medium that tells its records is honest. One that doesn't may give any words.
pub trait Medium {
    /// How many records there are.
    ghost record_count: { Self → ℕ };

    /// How many words a record has.
    ghost words_each: { Self → ℕ };

    /// What each record holds, where told.
    ghost contents: { Self → Option (List (List ℕ)) };

    /// The calls made, with the room for more, where told.
    ghost calls: { Self → Option CallList };

    /// How often a call has failed, up to the end of the count.
    ghost faults: { Self → ℕ };

    /// How many records there are. It never changes.
    fn records(&self) -> u16
        ensures count { result ≡ record_count self.now }
        ensures shape { HasShape (contents self.now) (record_count self.now) };

    /// How many words a record has. It never changes.
    fn record_words(&self) -> u16
        ensures { result ≡ words_each self.now };

    /// Reads a record: on a medium that tells its records, the words that were last written there.
    /// After `Failed` that record is unknown, and `into` holds any words.
    fn read(&mut self, at: u16, into: &mut [u64]) -> Result<(), Failed>
        requires inside { at < record_count self.old }
        requires whole { length into.old ≡ words_each self.old }
        requires words { AreWords into.old }
        ensures { let seen = seen_by contents record_count words_each calls faults in
            ReadsRecord at into.new result (seen self.old) (seen self.new) };

    /// Writes a record. After `Failed` that record is unknown.
    fn write(&mut self, at: u16, from: &[u64]) -> Result<(), Failed>
        requires inside { at < record_count self.old }
        requires whole { length from.now ≡ words_each self.old }
        requires words { AreWords from.now }
        ensures { let seen = seen_by contents record_count words_each calls faults in
            WritesRecord at from.now result (seen self.old) (seen self.new) };
}
