//! The core that a user's program sees: some blocks of a bank.
ghost use Rattle.std.specs.Prelude.{◌≡◌, ◌+◌, ◌*◌, ◌<◌, ◌≤◌, ◌↔◌, length, take, drop, slice_set, IsOk, OnOk, OnErr};
ghost use Rattle.core_bank.specs.Bank.{AreWords};
ghost use Rattle.image_map.specs.Windows.{window, KeepsAround};

use core_bank::Bank;
use core_bank::reloc_protect::Registers;
use cpu_regs::{MemoryPort, Outside};
use word36::Word;

/// The words of so many blocks of a bank from a place on, as a program loads and stores them: through the
/// relocation and protection registers, with their one test of the bounds. In clauses of `MemoryPort` it is the list of these words.
#[derive(Drop)]
pub struct Port<'a> {
    bank: &'a mut Bank,
    base: u8,
    blocks: u8,
    ghost most: { base + blocks ≤ 128 },
    ghost whole: { length bank.now ≡ 32768 },
    ghost below: { AreWords bank.now },
}

impl<'a> Port<'a> {
    /// A port to so many blocks of a bank from a place on.
    ///
    /// A caller learns what came of the bank where it has it as a parameter, or hands what
    /// `Image::bank_mut` lends straight to a function that does.
    pub fn over(bank: &'a mut Bank, base: u8, blocks: u8) -> Port<'a>
        requires most { base + blocks ≤ 128 }
        requires words { AreWords bank.old }
        ensures same { result.bank.ghost_name ≡ bank.entry.ghost_name }
        ensures now { result.bank.now ≡ bank.old }
        ensures base { result.base ≡ base }
        ensures blocks { result.blocks ≡ blocks }
    {
        let _count = bank.word_count();
        Port { bank, base, blocks }
    }

    /// The registers for a program that lies there.
    fn registers(&self) -> Registers
        ensures { result ≡ record { base = self.now.base; blocks = self.now.blocks } }
    {
        Registers::new(self.base, self.blocks)
    }
}

impl MemoryPort for Port<'_> {
    ghost use Rattle.std.specs.Prelude.{◌≡◌, ◌+◌, ◌*◌, take, drop, refl};
    ghost use Rattle.std.proofs.Common.{◌∙◌};
    ghost use Rattle.image_map.specs.Stores.{ChangesWord};
    ghost use Rattle.image_map.specs.Windows.{window, same_length};

    ghost words = { λ p. window p.bank.now p.base p.blocks };

    // The same blocks of the same bank, and the same words before and behind them.
    ghost Keeps = { λ a b. (b.bank.ghost_name ≡ a.bank.ghost_name) × (b.base ≡ a.base) × (b.blocks ≡ a.blocks)
        × (take (256 * b.base) b.bank.now ≡ take (256 * a.base) a.bank.now)
        × (drop (256 * (b.base + b.blocks)) b.bank.now ≡ drop (256 * (a.base + a.blocks)) a.bank.now) };

    ghost stays = { λ a. (refl, refl, refl, refl, refl) };

    ghost goes_on = { λ a b c one two. (two.0 ∙ one.0, two.1 ∙ one.1, two.2 ∙ one.2, two.3 ∙ one.3, two.4 ∙ one.4) };

    ghost same_size = { λ a b same. same_length b.base a.base b.blocks a.blocks b.bank.now a.bank.now b.whole a.whole
        same.1 same.2 };

    fn size(&self) -> u8 {
        self.blocks
    }

    fn load(&self, address: u16) -> Result<Word, Outside> {
        match self.registers().place(address) {
            Ok(at) => Ok(Word::of(self.bank.word(at))),
            Err(_) => Err(Outside),
        }
    }

    fn store(&mut self, address: u16, word: Word) -> Result<(), Outside>
        ensures inside { IsOk result ↔ (address < length (window self.old.bank.now self.old.base self.old.blocks)) }
        ensures stored { OnOk result (window self.new.bank.now self.new.base self.new.blocks
            ≡ slice_set (window self.old.bank.now self.old.base self.old.blocks) address word) }
        ensures kept { OnErr result (window self.new.bank.now self.new.base self.new.blocks
            ≡ window self.old.bank.now self.old.base self.old.blocks) }
        ensures keeps { (self.new.bank.ghost_name ≡ self.old.bank.ghost_name)
            × (self.new.base ≡ self.old.base) × (self.new.blocks ≡ self.old.blocks)
            × (take (256 * self.new.base) self.new.bank.now ≡ take (256 * self.old.base) self.old.bank.now)
            × (drop (256 * (self.new.base + self.new.blocks)) self.new.bank.now
            ≡ drop (256 * (self.old.base + self.old.blocks)) self.old.bank.now) }

        // The port stands over the same blocks of the same bank, of which one word changes.
        ensures changes { ChangesWord address word result self.old self.new }
    {
        match self.registers().place(address) {
            Ok(at) => {
                self.bank.put(at, word.bits());
                Ok(())
            }
            Err(_) => Err(Outside),
        }
    }
}

/// Puts a word at an address of so many blocks of a bank from a place on. The words before and behind them stay.
#[tactic(auto, using(crate::proofs::Ports::whole_of))]
pub fn store_in(
    bank: &mut Bank,
    base: u8,
    blocks: u8,
    address: u16,
    word: Word,
) -> Result<(), Outside>
    requires most { base + blocks ≤ 128 }
    requires words { AreWords bank.old }
    ensures words { AreWords bank.new }
    ensures inside { IsOk result ↔ (address < 256 * blocks) }
    ensures stored { OnOk result (window bank.new base blocks ≡ slice_set (window bank.old base blocks) address word) }
    ensures kept { OnErr result (bank.new ≡ bank.old) }
    ensures around { KeepsAround base blocks bank.old bank.new }
{
    let mut port = Port::over(bank, base, blocks);
    port.store(address, word)
}
