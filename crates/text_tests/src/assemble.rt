//! How long a segment of a deck is at most. Other decks, and the faults of cards, are cases of run_cases.
use ctss_types::WordList;
use fap_assemble::assemble;
use fap_read::cards_of_text;
use std::alloc::Global;
use std::process::Abort;
use std::test::Fail;
use word36::Word;

/// A card of six words.
const SIX: &[u8] = b"       BCI     6,ABCDEFABCDEFABCDEFABCDEFABCDEFABCDEF\n";

/// Cards of 4098 words.
fn cards_text(alloc: Global) -> Result<Vec<u8>, Fail> {
    let mut text = SIX.repeat(alloc, 683)?;
    text.extend_from_slice(b"       END\n")?;
    Ok(text)
}

/// The words of the deck of these cards.
fn deck_words(rt: &impl Abort, alloc: Global, text: &[u8]) -> Result<WordList, Fail> {
    let cards = cards_of_text(alloc, text)?;
    assert!(rt; cards.len() < 1000);
    Ok(assemble(alloc, cards.as_slice())?.words)
}

/// Tries how many words there are, and those where the two segments begin.
fn has_two_segments(rt: &impl Abort, words: &[Word]) {
    assert!(rt; words.len() == 4101);
    assert!(rt; words[1].bits() == 4096 << 18);
    assert!(rt; words[4098].bits() == (2 << 18) + 4096);
}

#[test]
fn a_segment_has_4096_words_at_most(rt: HostRuntime) -> Result<(), Fail> {
    let text = cards_text(rt.alloc())?;
    let words = deck_words(&rt, rt.alloc(), &text)?;
    has_two_segments(&rt, words.as_slice());
    Ok(())
}
