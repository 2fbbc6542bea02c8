ghost use Rattle.std.specs.Prelude.{◌≡◌, ◌+◌, ◌^◌, ◌<◌};
ghost use Rattle.word36.specs.Bits.{Acc37, logical_of, acc_word};

use crate::Word;
use std::marker::Model;

/// The accumulator, as the machine's reference manual numbers its positions: a sign S, and a magnitude of 37 bits in
/// positions Q, P and 1 to 35. Q counts 2^36 and P 2^35.
///
/// Plus zero and minus zero are two values, and `==` tells them apart. `Acc::default()` is plus zero. In clauses an
/// accumulator is the record of its sign and its magnitude.
#[derive(Clone, Copy, Debug, PartialEq, Eq, Hash, Default)]
pub struct Acc {
    negative: bool,
    magnitude: u64,
}

impl Model for Acc {
    ghost use Rattle.std.specs.Prelude.{◌^◌, ◌<◌};
    ghost use Rattle.word36.specs.Bits.{Acc37};

    ghost Value = { Acc37 };

    ghost view = { λ a. record { negative = a.negative; magnitude = a.magnitude } };

    ghost invariant = { λ a. a.magnitude < 2 ^ 37 };

    ghost inverse = { λ v. record { negative = v.negative; magnitude = v.magnitude } };
}

impl Acc {
    /// The accumulator of a sign and a magnitude.
    pub fn new(negative: bool, magnitude: u64) -> Acc
        requires { magnitude < 2 ^ 37 }
        ensures { result ≡ record { negative = negative; magnitude = magnitude } }
    {
        Acc {
            negative,
            magnitude,
        }
    }

    /// Sets the sign and the magnitude.
    pub fn set(&mut self, negative: bool, magnitude: u64)
        requires { magnitude < 2 ^ 37 }
        ensures { self.new ≡ record { negative = negative; magnitude = magnitude } }
    {
        self.negative = negative;
        self.magnitude = magnitude;
    }

    /// Whether the sign is minus. It is so of minus zero too.
    pub fn negative(self) -> bool
        ensures { result ≡ self.negative }
    {
        self.negative
    }

    /// Positions Q, P and 1 to 35 as a number.
    pub fn magnitude(self) -> u64
        ensures value { result ≡ self.magnitude }
        ensures below { result < 2 ^ 37 }
    {
        self.magnitude
    }

    /// The sign with positions 1 to 35: what a store of a signed number writes. Q and P are left out.
    pub fn word(self) -> Word
        ensures { result ≡ acc_word self }
    {
        Word::signed(self.negative, self.magnitude & 0o377777777777)
    }

    /// Positions P and 1 to 35, P as the word's sign: what a store of 36 bits writes. The sign and Q are left out.
    pub fn logical(self) -> Word
        ensures { result ≡ logical_of self }
    {
        match Word::from_bits(self.magnitude & 0o777777777777) {
            Ok(word) => word,
            Err(_) => unreachable!(),
        }
    }
}
