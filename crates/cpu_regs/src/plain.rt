//! A core of its own, for a program that is alone: tests and cases of the machine run in it.
ghost use Rattle.std.specs.Prelude.{◌≡◌, ◌*◌, ◌≤◌, replicate, IfOk};

use crate::{MemoryPort, Outside};
use std::alloc::{AllocError, Global};
use std::marker::Model;
use word36::Word;

/// The blocks of 256 words of a program that is alone. In clauses it is the list of the words.
#[derive(Drop)]
pub struct PlainCore {
    words: Vec<Word>,
    blocks: u8,
}

impl Model for PlainCore {
    ghost use Rattle.std.specs.Prelude.{◌≡◌, ◌*◌, ◌≤◌, ℕ, List, length};

    ghost Value = { List ℕ };

    ghost view = { λ c. c.words.items };

    ghost invariant = { λ c. (length c.words.items ≡ 256 * c.blocks) × (c.blocks ≤ 128) };
}

impl PlainCore {
    /// Blocks of plus zeros.
    pub fn new(alloc: Global, blocks: u8) -> Result<PlainCore, AllocError>
        requires { blocks ≤ 128 }
        ensures { IfOk result (λ core. core ≡ replicate (256 * blocks) 0) }
    {
        let words = vec![in alloc; Word::default(); 256 * blocks as usize]?;
        Ok(PlainCore { words, blocks })
    }

    /// Another core with the same words.
    pub fn copy(&self, alloc: Global) -> Result<PlainCore, AllocError>
        ensures { IfOk result (λ core. core ≡ self.now) }
    {
        let words = Vec::from_slice(alloc, &self.words)?;
        Ok(PlainCore {
            words,
            blocks: self.blocks,
        })
    }

    /// All words.
    pub fn words(&self) -> &[Word]
        ensures { result.now ≡ self.now }
    {
        &self.words
    }
}

impl MemoryPort for PlainCore {
    ghost use Rattle.std.specs.Prelude.{◌≡◌, length, refl};
    ghost use Rattle.std.proofs.Common.{◌∙◌};

    ghost words = { λ c. c };

    ghost Keeps = { λ a b. length b ≡ length a };

    ghost stays = { λ a. refl };

    ghost goes_on = { λ a b c one two. two ∙ one };

    ghost same_size = { λ a b same. same };

    fn size(&self) -> u8 {
        self.blocks
    }

    fn load(&self, address: u16) -> Result<Word, Outside> {
        match self.words.get(address as usize) {
            Some(word) => Ok(*word),
            None => Err(Outside),
        }
    }

    fn store(&mut self, address: u16, word: Word) -> Result<(), Outside> {
        if (address as usize) < self.words.len() {
            self.words[address as usize] = word;
            Ok(())
        } else {
            Err(Outside)
        }
    }
}
