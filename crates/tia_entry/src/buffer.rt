ghost use Rattle.std.specs.Prelude.{◌≡◌, ◌≤◌, ◌+◌, length, IfOk};
ghost use Rattle.program_model.specs.Lines.{words_at, with_words};

use cpu_regs::MemoryPort;
use ctss_types::NoMemory;
use std::alloc::Global;
use word36::Word;

/// Stores words from an address on.
#[tactic(auto, using(crate::proofs::Parts::store_next))]
pub fn store_words<M: MemoryPort>(core: &mut M, at: u16, words: &[Word])
    requires { at + length words.now ≤ length (M.words core.old) }
    ensures words { M.words core.new ≡ with_words (M.words core.old) at words.now }
    ensures keeps { M.Keeps core.old core.new }
{
    // Then it is known of the core how many words it has at most.
    let _blocks = core.size();
    'storing: for (i, word) in words.iter().enumerate() {
        let _ = core.store(at + i as u16, *word);
    }
}

/// Stores words from an address on. What lies outside is passed over.
#[tactic(auto, using(crate::proofs::Fitting::fitting))]
pub fn store_fitting<M: MemoryPort>(core: &mut M, at: u16, words: &[Word])
    ensures words { M.words core.new ≡ with_words (M.words core.old) at words.now }
    ensures keeps { M.Keeps core.old core.new }
{
    let size = 256 * usize::from(core.size());
    let start = usize::from(at);
    if start > size {
        return;
    }
    if words.len() > size - start {
        store_words(core, at, &words[..size - start]);
    } else {
        store_words(core, at, words);
    }
}

/// So many words from an address on.
#[tactic(auto, using(crate::proofs::Parts::words_more))]
pub fn words_in<M: MemoryPort>(
    alloc: Global,
    core: &M,
    at: u16,
    count: u16,
) -> Result<Vec<Word>, NoMemory>
    requires { at + count ≤ length (M.words core.now) }
    ensures { IfOk result (λ words. words.items ≡ words_at (M.words core.now) at count) }
{
    // Then it is known of the core how many words it has at most.
    let _blocks = core.size();
    let mut words = Vec::with_capacity(alloc, count as usize)?;
    'reading: for i in 0..count {
        let Ok(word) = core.load(at + i) else {
            unreachable!()
        };
        words.push(word)?;
    }
    Ok(words)
}
