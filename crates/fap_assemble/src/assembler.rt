ghost use Rattle.std.specs.Prelude.{◌≡◌, ◌+◌, ◌-◌, ◌*◌, ◌^◌, ◌<◌, ◌≤◌, ◌++◌, [], Some, IfOk, OnOk, length, map};
ghost use Rattle.fap_model.specs.Places.{nothing_known};
ghost use Rattle.fap_model.specs.Decks.{is_end, operation_in, cards_read, whole_of, faults_of, start_from, deck_words, assembled};
ghost use Rattle.fap_assemble.specs.Steps.{texts};
ghost use Rattle.fap_assemble.specs.Wholes.{whole_in};
ghost use Rattle.fap_assemble.specs.Follows.{numbered};
ghost use Rattle.fap_assemble.specs.Answers.{IsAssembled, end_index, missing_end};

use crate::fault::{AsmFault, CardFault, FaultList};
use crate::field::{number, read};
use crate::judge;
use crate::place::operation_in;
use crate::tables::tables_of;
use crate::whole::Whole;
use crate::words::words_of;
use ctss_types::{NoMemory, WordList};
use fap_model::Operation;
use fap_read::Card;
use std::alloc::Global;
use word36::Word;

/// A deck: start and blocks in the first word, then the segments, each behind a word with its length and its first place.
#[derive(Debug, Drop)]
pub struct Deck {
    pub words: WordList,
}

/// Whether an operation is END.
fn is_end(op: Operation) -> bool
    ensures { result ≡ is_end (Some op) }
{
    match op {
        Operation::End => true,
        _ => false,
    }
}

/// Whether a card is an END.
fn is_end_card(text: &[u8]) -> bool
    ensures { result ≡ is_end (operation_in text.now) }
{
    match operation_in(text) {
        Some(op) => is_end(op),
        None => false,
    }
}

/// How many cards stand before the first END.
pub(crate) fn end_index(cards: &[Card]) -> usize
    ensures value { result ≡ end_index cards.now }
    ensures within { result ≤ length cards.now }
{
    cards
        .iter()
        .take_while(|card| !is_end_card(card.text.as_slice()))
        .count()
}

/// The cards up to the first END with it, which are those that are read.
#[tactic(auto, using(crate::proofs::Reading::read_to_end, crate::proofs::Reading::read_all))]
pub(crate) fn cards_read(cards: &[Card], end: usize) -> &[Card]
    requires { end ≡ end_index cards.now }
    ensures value { texts result.now ≡ cards_read (texts cards.now) }
    ensures few { length result.now ≤ length cards.now }
{
    if end < cards.len() {
        cards.split_at(end + 1).0
    } else {
        cards
    }
}

/// What all cards together tell, from those that are read.
pub(crate) fn whole_of(alloc: Global, cards: &[Card], read: &[Card]) -> Result<Whole, NoMemory>
    requires read { texts read.now ≡ cards_read (texts cards.now) }
    requires few { length read.now < 2 ^ 32 }
    ensures value { IfOk result (λ w. whole_in w ≡ whole_of (texts cards.now)) }
    ensures place { IfOk result (λ w. w.end_place < 2 ^ 33) }
    ensures few { IfOk result (λ w. length w.literals < 2 ^ 33) }
    ensures blocks { IfOk result (λ w. w.blocks < 2 ^ 30) }
{
    let tables = tables_of(alloc, read)?;
    Ok(Whole::new(tables))
}

/// Notes a missing END as a fault of the card behind the last one.
pub(crate) fn note_missing_end(
    faults: &mut FaultList,
    cards: &[Card],
    end: usize,
) -> Result<(), NoMemory>
    requires few { length cards.now < 2 ^ 32 - 1 }
    requires end { end ≡ end_index cards.now }
    ensures { OnOk result (numbered faults.new ≡ numbered faults.old ++ missing_end cards.now) }
{
    if end < cards.len() {
        return Ok(());
    }
    let card = cards.len() as u32 + 1;
    faults.push(CardFault { card, number: 6 })?;
    Ok(())
}

/// The faults of all cards, with a missing END's.
fn faults_of(
    alloc: Global,
    cards: &[Card],
    read: &[Card],
    end: usize,
    whole: &Whole,
) -> Result<FaultList, NoMemory>
    requires few { length cards.now < 2 ^ 32 - 1 }
    requires fewer { length read.now ≤ length cards.now }
    requires end { end ≡ end_index cards.now }
    requires read { texts read.now ≡ cards_read (texts cards.now) }
    requires blocks { whole.now.blocks < 2 ^ 30 }
    requires whole { whole_in whole.now ≡ whole_of (texts cards.now) }
    ensures { IfOk result (λ fs. numbered fs ≡ faults_of (texts cards.now)) }
{
    let mut faults = judge::faults_of(alloc, read, whole)?;
    note_missing_end(&mut faults, cards, end)?;
    Ok(faults)
}

/// The start that the END card says.
pub(crate) fn start(
    alloc: Global,
    cards: &[Card],
    end: usize,
    whole: &Whole,
) -> Result<u16, NoMemory>
    requires end { end ≡ end_index cards.now }
    requires within { end < length cards.now }
    requires whole { whole_in whole.now ≡ whole_of (texts cards.now) }
    ensures { IfOk result (λ n. n ≡ start_from (whole_in whole.now) nothing_known (texts cards.now)) }
{
    let text = cards[end].text.as_slice();
    let symbols = &whole.symbols;
    let said = read(
        alloc,
        Operation::End,
        text,
        symbols,
        symbols.len(),
        whole.end_place,
    )?;
    Ok(number(&said))
}

/// A deck's first word.
fn head(start: u16, blocks: u64) -> Word
    requires { blocks < 2 ^ 30 }
    ensures { result ≡ start * 2 ^ 18 + blocks }
{
    Word::of((u64::from(start) << 18) + blocks)
}

/// The words of the deck of cards without a fault.
fn deck_words(
    alloc: Global,
    cards: &[Card],
    read: &[Card],
    end: usize,
    whole: &Whole,
) -> Result<WordList, NoMemory>
    requires few { length read.now < 2 ^ 32 }
    requires end { end ≡ end_index cards.now }
    requires read { texts read.now ≡ cards_read (texts cards.now) }
    requires place { whole.now.end_place < 2 ^ 33 }
    requires literals { length whole.now.literals < 2 ^ 33 }
    requires blocks { whole.now.blocks < 2 ^ 30 }
    requires whole { whole_in whole.now ≡ whole_of (texts cards.now) }
    requires sound { faults_of (texts cards.now) ≡ [] }
    ensures { IfOk result (λ ws. ws ≡ deck_words (texts cards.now)) }
{
    let start = start(alloc, cards, end, whole)?;
    words_of(alloc, read, whole, head(start, whole.blocks))
}

/// The deck of cards that together tell this, or their faults.
fn deck_of(
    alloc: Global,
    cards: &[Card],
    read: &[Card],
    end: usize,
    whole: &Whole,
) -> Result<Deck, AsmFault>
    requires few { length cards.now < 2 ^ 32 - 1 }
    requires fewer { length read.now ≤ length cards.now }
    requires end { end ≡ end_index cards.now }
    requires read { texts read.now ≡ cards_read (texts cards.now) }
    requires place { whole.now.end_place < 2 ^ 33 }
    requires literals { length whole.now.literals < 2 ^ 33 }
    requires blocks { whole.now.blocks < 2 ^ 30 }
    requires whole { whole_in whole.now ≡ whole_of (texts cards.now) }
    ensures { IsAssembled result (assembled (texts cards.now)) }
{
    let faults = faults_of(alloc, cards, read, end, whole)?;
    if !faults.is_empty() {
        return Err(AsmFault::Faults(faults));
    }
    let words = deck_words(alloc, cards, read, end, whole)?;
    Ok(Deck { words })
}

/// The deck of a list of cards, or the faults of its cards. Nothing is searched from the front, so time and memory go with the
/// length of the cards.
pub fn assemble(alloc: Global, cards: &[Card]) -> Result<Deck, AsmFault>
    requires { length cards.now < 2 ^ 32 - 1 }
    ensures { IsAssembled result (assembled (texts cards.now)) }
{
    let end = end_index(cards);
    let read = cards_read(cards, end);
    let whole = whole_of(alloc, cards, read)?;
    deck_of(alloc, cards, read, end, &whole)
}
