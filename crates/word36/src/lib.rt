//! The 36-bit words of the machine, and its accumulator.
#![tactic(auto)]

ghost use Rattle.std.specs.Prelude.{◌≡◌, ◌+◌, ◌*◌, ◌/◌, ◌%◌, ◌^◌, ◌<◌, ◌≤◌, ◌↔◌, IsTrue, IsOk, IfOk};
ghost use Rattle.std.specs.Result.{OkIff};
ghost use Rattle.word36.specs.Bits.{is_minus, magnitude_of, word_of, address_of, tag_of, decrement_of, prefix_of, with_address, with_decrement};

use std::error::Error;
use std::fmt;
use std::marker::Model;

mod acc;
pub mod laws;

pub use acc::Acc;

const ADDRESS_MASK: u64 = 0o77777;

const DECREMENT_MASK: u64 = 0o77777;

const TAG_MASK: u64 = 0o7;

const MAGNITUDE_MASK: u64 = 0o377777777777;

/// A number that needs more than 36 bits.
#[derive(Clone, Copy, Debug, PartialEq, Eq)]
pub struct TooWide;

impl fmt::Display for TooWide {
    ghost use Rattle.std.specs.Prelude.{codes, Some};

    ghost output = { λ _. Some (codes "more than 36 bits") };

    fn fmt<W: fmt::Write>(&self, f: &mut fmt::Formatter<W>) -> fmt::Result {
        f.write_str("more than 36 bits")
    }
}

impl Error for TooWide {}

/// A word of 36 bits, as the machine's reference manual numbers them: S, which is the highest bit, and 1 to 35.
///
/// As a number a word is a sign (minus where S is one) and a magnitude of 35 bits, so plus zero and minus zero are
/// two words. `==`, `<` and the hash go by the 36 bits, and by them minus zero is above each plus word.
/// `Word::default()` is plus zero. In clauses a word is the number of its 36 bits.
#[derive(Clone, Copy, Debug, PartialEq, Eq, PartialOrd, Ord, Hash, Default)]
pub struct Word {
    bits: u64,
}

impl Model for Word {
    ghost use Rattle.std.specs.Prelude.{ℕ, ◌^◌, ◌<◌};

    ghost Value = { ℕ };

    ghost view = { λ w. w.bits };

    ghost invariant = { λ w. w.bits < 2 ^ 36 };

    ghost inverse = { λ w. record { bits = w } };
}

impl Word {
    /// The word with these bits, S as bit 35 and position 35 as bit 0.
    pub fn from_bits(bits: u64) -> Result<Word, TooWide>
        ensures fits { IsOk result ↔ (bits < 2 ^ 36) }
        ensures value { IfOk result (λ w. w ≡ bits) }
    {
        if bits < 1 << 36 {
            Ok(Word { bits })
        } else {
            Err(TooWide)
        }
    }

    /// The word with these bits, where the caller knows that they are 36: `from_bits` without its test.
    pub fn of(bits: u64) -> Word
        requires { bits < 2 ^ 36 }
        ensures { result ≡ bits }
    {
        Word { bits }
    }

    /// The word of a sign and a magnitude.
    pub fn signed(negative: bool, magnitude: u64) -> Word
        requires { magnitude < 2 ^ 35 }
        ensures { result ≡ word_of negative magnitude }
    {
        Word {
            bits: u64::from(negative) << 35 | magnitude,
        }
    }

    /// The 36 bits as a number.
    pub fn bits(self) -> u64
        ensures bits { result ≡ self }
        ensures below { result < 2 ^ 36 }
    {
        self.bits
    }

    /// Whether the sign, position S, is minus. It is so of minus zero too.
    pub fn negative(self) -> bool
        ensures { result ≡ is_minus self }
    {
        self.bits >> 35 != 0
    }

    /// Positions 1 to 35 as a number.
    pub fn magnitude(self) -> u64
        ensures value { result ≡ magnitude_of self }
        ensures below { result < 2 ^ 35 }
    {
        self.bits & MAGNITUDE_MASK
    }

    /// The address, positions 21 to 35.
    pub fn address(self) -> u16
        ensures value { result ≡ address_of self }
        ensures below { result < 2 ^ 15 }
    {
        (self.bits & ADDRESS_MASK) as u16
    }

    /// The tag, positions 18 to 20.
    pub fn tag(self) -> u8
        ensures value { result ≡ tag_of self }
        ensures below { result < 8 }
    {
        (self.bits >> 15 & TAG_MASK) as u8
    }

    /// The decrement, positions 3 to 17.
    pub fn decrement(self) -> u16
        ensures value { result ≡ decrement_of self }
        ensures below { result < 2 ^ 15 }
    {
        (self.bits >> 18 & DECREMENT_MASK) as u16
    }

    /// The prefix, positions S, 1 and 2.
    pub fn prefix(self) -> u8
        ensures value { result ≡ prefix_of self }
        ensures below { result < 8 }
    {
        (self.bits >> 33) as u8
    }

    /// The word with `v` as its address and its other positions as they were.
    pub fn with_address(self, v: u16) -> Word
        requires { v < 2 ^ 15 }
        ensures { result ≡ with_address self v }
    {
        Word {
            bits: (self.bits >> 15 << 15) + u64::from(v),
        }
    }

    /// The word with `v` as its decrement and its other positions as they were.
    pub fn with_decrement(self, v: u16) -> Word
        requires { v < 2 ^ 15 }
        ensures { result ≡ with_decrement self v }
    {
        let prefix = self.bits >> 33 << 33;
        let tag_and_address = self.bits & 0o777777;
        Word {
            bits: prefix + (u64::from(v) << 18) + tag_and_address,
        }
    }
}

impl TryFrom<u64> for Word {
    type Error = TooWide;

    ghost try_from_gives = { λ bits r. OkIff r (bits < 2 ^ 36) bits };

    fn try_from(bits: u64) -> Result<Word, TooWide> {
        Word::from_bits(bits)
    }
}

/// Twelve octal digits: one of the prefix, five of the decrement, one of the tag and five of the address.
impl fmt::Display for Word {
    ghost use Rattle.std.specs.Prelude.{Some};
    ghost use Rattle.word36.specs.Octal.{octal_text};

    ghost output = { λ w. Some (octal_text w) };

    fn fmt<W: fmt::Write>(&self, f: &mut fmt::Formatter<W>) -> fmt::Result {
        write!(f, "{:012o}", self.bits)
    }
}
