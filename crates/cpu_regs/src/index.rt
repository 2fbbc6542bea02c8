ghost use Rattle.std.specs.Prelude.{◌≡◌, ◌<◌, ◌^◌, replicate};
ghost use Rattle.cpu_regs.specs.Index.{index_at, with_index};

use std::marker::Model;

/// The index registers 1 to 7, each a number below 2^15, which are zero at first. In clauses they are the list of
/// these seven numbers.
#[derive(Clone, Copy, Debug, PartialEq, Eq, Hash)]
pub struct IndexRegisters {
    values: [u16; 7],
}

impl Model for IndexRegisters {
    ghost use Rattle.std.specs.Prelude.{List, ℕ};
    ghost use Rattle.cpu_regs.specs.Index.{AreIndexes};

    ghost Value = { List ℕ };

    ghost view = { λ r. r.values };

    ghost invariant = { λ r. AreIndexes r.values };

    ghost inverse = { λ xs. record { values = xs } };
}

impl IndexRegisters {
    /// All zero.
    pub fn new() -> IndexRegisters
        ensures { result ≡ replicate 7 0 }
    {
        IndexRegisters { values: [0; 7] }
    }

    /// The index that a tag names. Tag 0 names none and reads as 0.
    #[inline]
    pub fn get(&self, tag: u8) -> u16
        requires { tag < 8 }
        ensures value { result ≡ index_at self.now tag }
        ensures below { result < 2 ^ 15 }
    {
        if tag == 0 {
            0
        } else {
            self.values[tag as usize - 1]
        }
    }

    /// Sets the register that a tag names. Tag 0 names none, and nothing is set.
    #[inline]
    pub fn set(&mut self, tag: u8, index: u16)
        requires tag { tag < 8 }
        requires index { index < 2 ^ 15 }
        ensures { self.new ≡ with_index self.old tag index }
    {
        if tag != 0 {
            self.values[tag as usize - 1] = index;
        }
    }
}
