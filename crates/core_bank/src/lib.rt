//! The words of a core: 32768 words of 36 bits, in 128 blocks of 256; and the relocation and protection registers through
//! which a program reaches its blocks of it (`reloc_protect`).
#![tactic(auto)]

ghost use Rattle.std.specs.Prelude.{◌≡◌, ◌≢◌, ◌<◌, ◌≤◌, ◌+◌, ◌*◌, ◌^◌, ℕ, length, replicate, slice_index, slice_range, slice_set, IfOk};
ghost use Rattle.std.specs.Borrow.{sem};
ghost use Rattle.core_bank.specs.Bank.{AreWords, block_at, blank, with_block, LendsWindow, LendsWords};

mod memory;
pub mod reloc_protect;

use faults::NoMemory;
use memory::Memory;
use std::alloc::Global;
use std::marker::Model;

const BLOCK_WORDS: usize = 256;

const CORE_WORDS: usize = 32768;

/// The words of a core, each a number below 2^36. Words and blocks are numbered from 0.
///
/// In clauses it is the list of its 32768 words. That each is below 2^36 is for its owner to keep:
/// numbers written by `copy_in` and through `window` and `words_mut` may be any.
#[derive(Drop)]
pub struct Bank {
    memory: Memory,
}

impl Model for Bank {
    ghost use Rattle.std.specs.Prelude.{List, ℕ};

    ghost Value = { List ℕ };

    ghost view = { λ b. b.memory.words };
}

impl Bank {
    /// A core of plus zeros.
    pub fn new(alloc: Global) -> Result<Bank, NoMemory>
        ensures value { IfOk result (λ bank. bank ≡ replicate 32768 0) }
        ensures len { IfOk result (λ bank. length bank ≡ 32768) }
        ensures words { IfOk result AreWords }
    {
        let memory = Memory::zeros(alloc)?;
        Ok(Bank { memory })
    }

    /// How many words there are: 32768, which a caller then knows of the list.
    pub fn word_count(&self) -> usize
        ensures value { result ≡ 32768 }
        ensures len { result ≡ length self.now }
    {
        let words: &[u64] = self.memory.words();
        words.len()
    }

    /// The word at an address.
    pub fn load(&self, at: u16) -> u64
        requires { at < 32768 }
        ensures { result ≡ slice_index self.now at }
    {
        self.word(usize::from(at))
    }

    /// The word at a place that is as wide as an index.
    pub fn word(&self, at: usize) -> u64
        requires { at < 32768 }
        ensures { result ≡ slice_index self.now at }
    {
        self.memory.words()[at]
    }

    /// Puts a word at an address.
    pub fn store(&mut self, at: u16, word: u64)
        requires inside { at < 32768 }
        requires word { word < 2 ^ 36 }
        ensures value { self.new ≡ slice_set self.old at word }
        ensures words { AreWords self.old → AreWords self.new }
    {
        self.put(usize::from(at), word);
    }

    /// Puts a word at a place that is as wide as an index.
    pub fn put(&mut self, at: usize, word: u64)
        requires inside { at < 32768 }
        requires word { word < 2 ^ 36 }
        ensures value { self.new ≡ slice_set self.old at word }
        ensures words { AreWords self.old → AreWords self.new }
    {
        self.memory.all_mut()[at] = word;
    }

    /// The words of a block.
    pub fn block(&self, block: u8) -> &[u64]
        requires { block < 128 }
        ensures value { result.now ≡ block_at self.now block }
        ensures len { length result.now ≡ 256 }
    {
        let at = BLOCK_WORDS * block as usize;
        &self.memory.words()[at..at + BLOCK_WORDS]
    }

    /// Copies a block's words out.
    pub fn copy_out(&self, block: u8, into: &mut [u64])
        requires block { block < 128 }
        requires whole { length into.old ≡ 256 }
        ensures { into.new ≡ block_at self.now block }
    {
        into.copy_from_slice(self.block(block));
    }

    /// Copies words into a block. The other blocks stay.
    pub fn copy_in(&mut self, block: u8, from: &[u64])
        requires block { block < 128 }
        requires whole { length from.now ≡ 256 }
        ensures value { self.new ≡ with_block self.old block from.now }
        ensures here { block_at self.new block ≡ from.now }
        ensures others { (b : ℕ) → b ≢ block → block_at self.new b ≡ block_at self.old b }
        ensures words { AreWords from.now → AreWords self.old → AreWords self.new }
    {
        // Then it is known of the list how many words it has.
        let _count = self.word_count();
        self.window(block, 1).copy_from_slice(from);
    }

    /// Makes a block plus zeros. The other blocks stay.
    #[tactic(auto, unfolding(crate::specs::Bank::blank))]
    pub fn clear_block(&mut self, block: u8)
        requires { block < 128 }
        ensures value { self.new ≡ with_block self.old block blank }
        ensures here { block_at self.new block ≡ blank }
        ensures others { (b : ℕ) → b ≢ block → block_at self.new b ≡ block_at self.old b }
        ensures words { AreWords self.old → AreWords self.new }
    {
        self.copy_in(block, &[0; BLOCK_WORDS]);
    }

    /// Lends blocks and no others: so many, from this one on.
    pub fn window(&mut self, base: u8, blocks: u8) -> &mut [u64]
        requires { base + blocks ≤ 128 }
        ensures* lends { sem 𝓛 (LendsWindow self.entry base blocks result) }
        ensures value { result.now ≡ slice_range self.old (256 * base) (256 * base + 256 * blocks) }
        ensures len { length result.now ≡ 256 * blocks }
    {
        let from = BLOCK_WORDS * base as usize;
        self.memory
            .part_mut(from, from + BLOCK_WORDS * blocks as usize)
    }

    /// Lends all words, so that a record of a drum can be read straight into a block.
    pub fn words_mut(&mut self) -> &mut [u64]
        ensures* lends { sem 𝓛 (LendsWords self.entry result) }
        ensures value { result.now ≡ self.old }
        ensures len { length result.now ≡ 32768 }
    {
        self.memory.all_mut()
    }
}
