//! Decks as words.
ghost use Rattle.std.specs.Prelude.{◌≡◌, ◌≤◌, ◌<◌, ◌+◌, ◌*◌, ◌^◌, length, drop, IfOk};
ghost use Rattle.program_model.specs.Decks.{are_segments, is_deck, deck_in, filled};

use cpu_regs::MemoryPort;
use program_model::{Deck, LoadFault};
use word36::Word;

/// Whether the words behind a deck's first one are segments within so many words of core.
#[tactic(auto, using(crate::proofs::Stores::segments))]
fn are_segments(words: &[Word], size: u32) -> bool
    requires { size ≤ 32768 }
    ensures { result ≡ are_segments size 0 words.now }
{
    let mut left = 0u16;
    'segments: for word in words {
        if left > 0 {
            left -= 1;
        } else {
            let count = word.decrement();
            if count == 0 || u32::from(word.address()) + u32::from(count) > size {
                return false;
            }
            left = count;
        }
    }
    left == 0
}

/// Whether a deck begins with this word, before these.
fn is_deck(first: Word, rest: &[Word]) -> bool
    ensures { result ≡ is_deck first rest.now }
{
    let blocks = first.address();
    if blocks == 0 || blocks > 128 {
        return false;
    }
    let size = 256 * u32::from(blocks);
    u32::from(first.decrement()) < size && are_segments(rest, size)
}

/// What words say as a deck, for a user of so many blocks.
pub fn deck_in(words: &[Word], quota: u8) -> Result<Deck, LoadFault>
    ensures value { result ≡ deck_in quota words.now }
    ensures blocks { IfOk result (λ d. d.blocks ≤ quota) }
    ensures start { IfOk result (λ d. d.start < 256 * d.blocks) }
    ensures most { IfOk result (λ d. d.blocks ≤ 128) }
{
    let [first, rest @ ..] = words else {
        return Err(LoadFault::BadDeck);
    };
    if !is_deck(*first, rest) {
        return Err(LoadFault::BadDeck);
    }
    let blocks = first.address();
    if blocks > u16::from(quota) {
        return Err(LoadFault::TooLarge);
    }
    Ok(Deck {
        start: first.decrement(),
        blocks: blocks as u8,
    })
}

/// Stores the words of a deck's segments. What lies outside the core is passed over.
#[tactic(auto, using(crate::proofs::Stores::stores), unfolding(program_model::specs::Decks::filled))]
pub fn store_deck<M: MemoryPort>(words: &[Word], core: &mut M)
    ensures words { M.words core.new ≡ filled words.now (M.words core.old) }
    ensures keeps { M.Keeps core.old core.new }
{
    let mut left = 0u16;
    let mut place = 0u16;
    let [_, rest @ ..] = words else {
        return;
    };
    'storing: for word in rest {
        if left > 0 {
            let _ = core.store(place, *word);
            left -= 1;
            place += 1;
        } else {
            left = word.decrement();
            place = word.address();
        }
    }
}
