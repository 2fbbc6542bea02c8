//! The relocation and protection registers through which a program reaches its blocks of core.
ghost use Rattle.std.specs.Prelude.{◌≡◌, ◌+◌, ◌*◌, ◌/◌, ◌<◌, ◌≤◌, ◌↔◌, IsOk, IfOk};
ghost use Rattle.core_bank.specs.Window.{IsLegal, HasBlock, relocated_address};

use std::error::Error;
use std::fmt;
use std::marker::Model;

const BLOCK_WORDS: usize = 256;

/// An address outside the program's blocks.
#[derive(Clone, Copy, Debug, PartialEq, Eq)]
pub struct Outside;

impl fmt::Display for Outside {
    ghost use Rattle.std.specs.Prelude.{codes, Some};

    ghost output = { λ _. Some (codes "address outside the program") };

    fn fmt<W: fmt::Write>(&self, f: &mut fmt::Formatter<W>) -> fmt::Result {
        f.write_str("address outside the program")
    }
}

impl Error for Outside {}

/// The blocks of 256 words that a program may reach, in a core of 128 blocks: `blocks` of them, from
/// block `base` on. In clauses it is the record of the two.
#[derive(Clone, Copy, Debug, PartialEq, Eq)]
pub struct Registers {
    base: u8,
    blocks: u8,
}

impl Model for Registers {
    ghost use Rattle.std.specs.Prelude.{◌+◌, ◌≤◌};
    ghost use Rattle.core_bank.specs.Window.{Window};

    ghost Value = { Window };

    ghost view = { λ r. record { base = r.base; blocks = r.blocks } };

    ghost invariant = { λ r. r.base + r.blocks ≤ 128 };

    ghost inverse = { λ w. record { base = w.base; blocks = w.blocks } };
}

impl Registers {
    /// Registers that open `blocks` blocks from block `base` on.
    pub fn new(base: u8, blocks: u8) -> Registers
        requires { base + blocks ≤ 128 }
        ensures { result ≡ record { base = base; blocks = blocks } }
    {
        Registers { base, blocks }
    }

    /// The word of core that stands for one of the program's addresses.
    pub fn map(&self, address: u16) -> Result<u16, Outside>
        ensures legal { IsOk result ↔ IsLegal address self.now.blocks }
        ensures block { address < 32768
            → (IsOk result ↔ HasBlock self.now (relocated_address self.now address / 256)) }
        ensures value { IfOk result (λ at. at ≡ address + 256 * self.now.base) }
    {
        match self.place(address) {
            Ok(at) => Ok(at as u16),
            Err(outside) => Err(outside),
        }
    }

    /// The word of core that stands for one of the program's addresses, in the width that core is indexed with: each word
    /// that a program reaches comes this way.
    ///
    /// An address of 15 bits is relocated round the end of core, and then its block is tested. No address past the
    /// program's end comes round to one of its words in that way, so the one test is made before.
    pub fn place(&self, address: u16) -> Result<usize, Outside>
        ensures legal { IsOk result ↔ IsLegal address self.now.blocks }
        ensures value { IfOk result (λ at. at ≡ address + 256 * self.now.base) }
        ensures core { IfOk result (λ at. at < 32768) }
    {
        let address = usize::from(address);
        if address < BLOCK_WORDS * usize::from(self.blocks) {
            Ok(address + BLOCK_WORDS * usize::from(self.base))
        } else {
            Err(Outside)
        }
    }
}
