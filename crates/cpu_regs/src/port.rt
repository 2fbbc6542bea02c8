ghost use Rattle.std.specs.Prelude.{◌≡◌, ◌*◌, ◌<◌, ◌≤◌, ◌↔◌, List, ℕ, length, slice_set, IsOk, OnOk, OnErr};
ghost use Rattle.cpu_regs.specs.Core.{load_of};

use std::error::Error;
use std::fmt;
use word36::Word;

/// An address outside the program's core.
#[derive(Clone, Copy, Debug, PartialEq, Eq, Hash)]
pub struct Outside;

impl fmt::Display for Outside {
    ghost use Rattle.std.specs.Prelude.{codes, Some};

    ghost output = { λ _. Some (codes "address outside the core") };

    fn fmt<W: fmt::Write>(&self, f: &mut fmt::Formatter<W>) -> fmt::Result {
        f.write_str("address outside the core")
    }
}

impl Error for Outside {}

/// The core that a program sees: blocks of 256 words, numbered from 0, at most 128 of them. In clauses it is the
/// list of its words.
pub trait MemoryPort {
    ghost words: { Self → List ℕ };

    /// What a port stands over, and its size, stay the same: a relation that every call through the port keeps.
    ghost Keeps: { Self → Self → Type 0 };

    /// The number of blocks.
    fn size(&self) -> u8
        ensures blocks { 256 * result ≡ length (words self.now) }
        ensures most { result ≤ 128 };

    /// The word at an address.
    fn load(&self, address: u16) -> Result<Word, Outside>
        ensures { result ≡ load_of (words self.now) address };

    /// Puts a word at an address. Outside the core nothing changes.
    fn store(&mut self, address: u16, word: Word) -> Result<(), Outside>
        ensures inside { IsOk result ↔ (address < length (words self.old)) }
        ensures stored { OnOk result (words self.new ≡ slice_set (words self.old) address word) }
        ensures kept { OnErr result (words self.new ≡ words self.old) }
        ensures keeps { Keeps self.old self.new };

    ghost stays: { (a : Self) → Keeps a a };

    ghost goes_on: { (a b c : Self) → Keeps a b → Keeps b c → Keeps a c };

    ghost same_size: { (a b : Self) → Keeps a b → length (words b) ≡ length (words a) };
}
