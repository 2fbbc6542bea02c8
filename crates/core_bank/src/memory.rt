//! The memory of a core: words behind a pointer.
ghost use Rattle.std.specs.Prelude.{◌≡◌, ◌≤◌, ◌-◌, ℕ, List, length, replicate, slice_range, IfOk};
ghost use Rattle.std.specs.Borrow.{u64, Array, lent_at};
ghost use Rattle.std.specs.Box.Ownership.{box_owns};
ghost use Rattle.std.specs.contracts.impls.GlobalAllocator.TheImpl.{ghosts};

use crate::CORE_WORDS;
use faults::NoMemory;
use std::alloc::Global;
use std::marker::Model;
use std::slice;

/// The words of a core, in a block of memory of their own, which goes back to `alloc` at the end.
///
/// Only `of`, `into_box`, `words`, `part_mut` and `all_mut` touch the pointer, and each is proved by
/// hand. All else is safe code over them.
pub(crate) struct Memory {
    at: *mut [u64; CORE_WORDS],
    alloc: Global,
    ghost words: { List ℕ },
}

impl Model for Memory {
    ghost also_owns = { λ m. box_owns (ghosts.dealloc_token m.alloc) (Array u64 32768) m.at m.words };

    ghost also_shares = { λ m _ κ. lent_at (Array u64 32768) m.at m.words κ };
}

impl Memory {
    ghost use Rattle.std.specs.Borrow.{sem};
    ghost use Rattle.core_bank.specs.Bank.{AreWords};
    ghost use Rattle.core_bank.specs.Lent.{LendsPart, LendsAll};

    /// Plus zeros.
    pub(crate) fn zeros(alloc: Global) -> Result<Memory, NoMemory>
        ensures value { IfOk result (λ memory. memory.words ≡ replicate 32768 0) }
        ensures words { IfOk result (λ memory. AreWords memory.words) }
    {
        let words = Box::new(alloc, [0; CORE_WORDS])?;
        Ok(Memory::of(words))
    }

    /// Takes over the block of a box.
    pub(crate) fn of(words: Box<[u64; CORE_WORDS]>) -> Memory
        ensures { result.words ≡ words.value }
    {
        let (at, alloc) = Box::into_raw_with_allocator(words);
        Memory { at, alloc }
    }

    /// Gives the block to a box, which frees it.
    pub(crate) fn into_box(self) -> Box<[u64; CORE_WORDS]>
        ensures { result.value ≡ self.words }
    {
        let Memory { at, alloc } = self;
        unsafe { Box::from_raw(alloc, at) }
    }

    /// All words.
    pub(crate) fn words(&self) -> &[u64; CORE_WORDS]
        ensures { result.now ≡ self.now.words }
    {
        unsafe { &*self.at }
    }

    /// Lends the words from one place up to another.
    pub(crate) fn part_mut(&mut self, from: usize, to: usize) -> &mut [u64]
        requires order { from ≤ to }
        requires inside { to ≤ 32768 }
        ensures* lends { sem 𝓛 (LendsPart self.entry from to result) }
        ensures value { (result.now ≡ slice_range self.old.words from to) × (length result.now ≡ to - from) }
    {
        unsafe {
            let start = (self.at as *mut u64).add(from);
            slice::from_raw_parts_mut(start, to - from)
        }
    }

    /// Lends all words.
    pub(crate) fn all_mut(&mut self) -> &mut [u64]
        ensures* lends { sem 𝓛 (LendsAll self.entry result) }
        ensures value { (result.now ≡ self.old.words) × (length result.now ≡ 32768) }
    {
        unsafe { slice::from_raw_parts_mut(self.at as *mut u64, CORE_WORDS) }
    }
}

impl Drop for Memory {
    fn drop(self) {
        drop(self.into_box());
    }
}
