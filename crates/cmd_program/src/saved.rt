//! Programs as the words of files that they are saved in.
ghost use Rattle.std.specs.Prelude.{◌≡◌, ◌≤◌, ◌<◌, ◌+◌, ◌*◌, ◌^◌, ◌++◌, [], ◌∷◌, ℕ, length, slice_index, drop, map, IfOk, OnOk};
ghost use Rattle.word36.specs.Bits.{acc_word};
ghost use Rattle.program_model.specs.Lines.{with_words};
ghost use Rattle.program_model.specs.Saved.{acc_in, bit, high_of, index_in, indexes, is_odd, is_saved, regs_in, saved, saved_in as saved_in_list, tags};

use cpu_regs::{MemoryPort, Regs};
use ctss_types::NoMemory;
use program_model::LoadFault;
use std::alloc::Global;
use tia_entry::store_fitting;
use word36::{Acc, Word};

/// Whether this first word is the number of blocks of so many words.
fn is_saved(first: Word, count: usize) -> bool
    ensures { result ≡ is_saved first count }
{
    let blocks = first.bits();
    1 <= blocks && blocks <= 128 && count as u64 == 16 + 256 * blocks
}

/// How many blocks words say as a saved program, for a user of so many blocks.
pub fn saved_in(words: &[Word], quota: u8) -> Result<u8, LoadFault>
    ensures value { result ≡ saved_in_list quota words.now }
    ensures blocks { IfOk result (λ b. b ≤ quota) }
    ensures most { IfOk result (λ b. b ≤ 128) }
{
    let [first, ..] = words else {
        return Err(LoadFault::BadDeck);
    };
    if !is_saved(*first, words.len()) {
        return Err(LoadFault::BadDeck);
    }
    let blocks = first.bits();
    if blocks > u64::from(quota) {
        return Err(LoadFault::TooLarge);
    }
    Ok(blocks as u8)
}

/// The word of an address.
fn address_word(address: u16) -> Word
    ensures { result ≡ address }
{
    Word::of(u64::from(address))
}

/// The words of a saved program before the index registers.
fn first_words(blocks: u8, regs: &Regs) -> [Word; 5]
    ensures { result ≡ blocks ∷ acc_word regs.now.ac ∷ high_of regs.now.ac ∷ regs.now.mq ∷ regs.now.si ∷ [] }
{
    let high = Word::of(regs.ac.magnitude() >> 35);
    [
        Word::of(u64::from(blocks)),
        regs.ac.word(),
        high,
        regs.mq,
        regs.si,
    ]
}

/// The index registers by tag.
pub(crate) fn indexes_of(regs: &Regs) -> [u16; 7]
    ensures { result ≡ indexes regs.now }
{
    [
        regs.xr(1),
        regs.xr(2),
        regs.xr(3),
        regs.xr(4),
        regs.xr(5),
        regs.xr(6),
        regs.xr(7),
    ]
}

/// Index registers as words.
fn index_words(indexes: [u16; 7]) -> [Word; 7]
    ensures { result ≡ indexes }
{
    indexes.map(address_word)
}

/// The words of a saved program behind the index registers.
fn last_words(regs: &Regs) -> [Word; 4]
    ensures { result ≡ regs.now.ic ∷ (2 * bit regs.now.divide_check + bit regs.now.overflow) ∷ 0 ∷ 0 ∷ [] }
{
    let indicators = 2 * u64::from(regs.divide_check) + u64::from(regs.overflow);
    let place = address_word(regs.ic);
    [
        place,
        Word::of(indicators),
        Word::default(),
        Word::default(),
    ]
}

/// Adds the words of a core.
#[tactic(auto, using(crate::proofs::Heads::cores))]
fn push_core<M: MemoryPort>(core: &M, words: &mut Vec<Word>) -> Result<(), NoMemory>
    ensures { OnOk result (words.new.items ≡ words.old.items ++ M.words core.now) }
{
    let count = 256 * u16::from(core.size());
    'pushing: for place in 0..count {
        let Ok(word) = core.load(place) else {
            unreachable!()
        };
        words.push(word)?;
    }
    Ok(())
}

/// A program's size in blocks, registers and core as the words of a saved program.
pub fn saved_words<M: MemoryPort>(
    alloc: Global,
    blocks: u8,
    regs: &Regs,
    core: &M,
) -> Result<Vec<Word>, NoMemory>
    requires { length (M.words core.now) ≡ 256 * blocks }
    ensures { IfOk result (λ words. words.items ≡ saved blocks regs.now (M.words core.now)) }
{
    let mut words = Vec::with_capacity(alloc, 16 + 256 * usize::from(blocks))?;
    words.extend_from_slice(&first_words(blocks, regs))?;
    words.extend_from_slice(&index_words(indexes_of(regs)))?;
    words.extend_from_slice(&last_words(regs))?;
    push_core(core, &mut words)?;
    Ok(words)
}

/// The accumulator of its sign and low positions, and its positions Q and P.
fn acc_in(low: Word, high: Word) -> Acc
    ensures { result ≡ acc_in low high }
{
    Acc::new(low.negative(), (high.bits() % 4 << 35) + low.magnitude())
}

/// The word at a place, or zero where there is none.
fn word_at(words: &[Word], place: usize) -> Word
    ensures { result ≡ slice_index words.now place }
{
    words.get(place).copied().unwrap_or_default()
}

/// The index register of a tag that a saved program says.
fn index_in(words: &[Word], tag: u8) -> u16
    ensures value { result ≡ index_in words.now tag }
    ensures below { result < 2 ^ 15 }
{
    word_at(words, usize::from(tag) + 4).address()
}

/// Sets the index registers to those that a saved program says.
fn set_indexes(words: &[Word], regs: &mut Regs)
    requires seven { length regs.old.index ≡ 7 }
    ensures { regs.new ≡ record regs.old { index = map (index_in words.now) tags } }
{
    for tag in 1..8u8 {
        regs.set_xr(tag, index_in(words, tag));
    }
}

/// The registers that a saved program says.
pub fn saved_regs(words: &[Word]) -> Regs
    ensures value { result ≡ regs_in words.now }
    ensures ic { result.ic < 2 ^ 15 }
{
    let mut regs = Regs::new();
    regs.ac = acc_in(word_at(words, 1), word_at(words, 2));
    regs.mq = word_at(words, 3);
    regs.si = word_at(words, 4);
    set_indexes(words, &mut regs);
    regs.ic = word_at(words, 12).address();
    let indicators = word_at(words, 13).bits();
    regs.overflow = indicators % 2 == 1;
    regs.divide_check = indicators / 2 % 2 == 1;
    regs
}

/// Stores the core of a saved program: the words behind the first sixteen.
#[tactic(auto, using(crate::proofs::Heads::behind))]
pub fn store_saved<M: MemoryPort>(words: &[Word], core: &mut M)
    ensures words { M.words core.new ≡ with_words (M.words core.old) 0 (drop 16 words.now) }
    ensures keeps { M.Keeps core.old core.new }
{
    if words.len() > 16 {
        store_fitting(core, 0, &words[16..]);
    }
}
