//! What a listing shows of a program's cards.
ghost use Rattle.std.specs.Prelude.{◌≡◌, ◌++◌, ◌-◌, ◌^◌, ◌<◌, ◌≤◌, ◌∷◌, [], Some, None, false, IfOk, IfSome, OnOk, length, map};
ghost use Rattle.fap_model.specs.Causes.{cause_of};
ghost use Rattle.fap_model.specs.Decks.{cards_read, has_end, operation_in, start_from, whole_of};
ghost use Rattle.fap_model.specs.Listed.{listed, row_of, rows_from, sound_words, symbol_value};
ghost use Rattle.fap_model.specs.Places.{known_after, nothing_known};
ghost use Rattle.fap_assemble.specs.Answers.{end_index};
ghost use Rattle.fap_assemble.specs.CardWords.{words_said};
ghost use Rattle.fap_assemble.specs.Fields.{known_at, given_words, is_wrong, HasShortValues};
ghost use Rattle.fap_assemble.specs.Listings.{words_shown};
ghost use Rattle.fap_assemble.specs.Steps.{texts};
ghost use Rattle.fap_assemble.specs.Wholes.{whole_in};

use crate::assembler::{cards_read, end_index, start, whole_of};
use crate::cause::cause_of;
use crate::column::column_of;
use crate::field::{Said, read};
use crate::mention::{definitions_of, uses_of};
use crate::place::{operation_in, place_behind, visible_behind};
use crate::whole::Whole;
use crate::words::{machine_word, plain_word};
use ctss_types::{NoMemory, Sequence, WordList};
use fap_model::{CardRow, FaultCause, Listed, Operation, SymbolValue};
use fap_read::{Card, flag};
use std::alloc::Global;
use word36::Word;

/// A list of one word.
fn one_word(alloc: Global, word: Word) -> Result<WordList, NoMemory>
    ensures { IfOk result (λ ws. ws ≡ word ∷ []) }
{
    let mut words = Sequence::new(alloc);
    words.push(word)?;
    Ok(words)
}

/// The words that a field gives.
fn given_words(alloc: Global, said: Option<Said>) -> WordList
    ensures { result ≡ given_words said }
{
    match said {
        Some(Said::Words(words)) => words,
        _ => Sequence::new(alloc),
    }
}

/// The words of a card with an operation.
pub(crate) fn words_said(
    alloc: Global,
    whole: &Whole,
    op: Operation,
    flag: bool,
    said: Option<Said>,
) -> Result<WordList, NoMemory>
    requires right { is_wrong said ≡ false }
    requires short { IfSome said HasShortValues }
    requires place { whole.now.end_place < 2 ^ 33 }
    requires few { length whole.now.literals < 2 ^ 33 }
    ensures { IfOk result (λ ws. ws ≡ words_said (whole_in whole.now) op flag said) }
{
    match op {
        Operation::Machine(op) => one_word(alloc, machine_word(whole, op, flag, &said)),
        Operation::Pze => one_word(alloc, plain_word(whole, &said)),
        Operation::Dec | Operation::Oct | Operation::Bci => Ok(given_words(alloc, said)),
        Operation::Org | Operation::Bss | Operation::Equ | Operation::End => {
            Ok(Sequence::new(alloc))
        }
    }
}

/// The words of a card that isn't at fault.
fn card_words(
    alloc: Global,
    whole: &Whole,
    visible: usize,
    place: u64,
    op: Option<Operation>,
    text: &[u8],
) -> Result<WordList, NoMemory>
    requires op { op ≡ operation_in text.now }
    requires sound { cause_of (whole_in whole.now) (known_at whole.now.symbols visible place) text.now ≡ None }
    requires place { whole.now.end_place < 2 ^ 33 }
    requires few { length whole.now.literals < 2 ^ 33 }
    ensures { IfOk result (λ ws. ws
        ≡ words_shown (whole_in whole.now) (known_at whole.now.symbols visible place) text.now) }
{
    let Some(op) = op else {
        return Ok(Sequence::new(alloc));
    };
    let symbols = &whole.symbols;
    let said = read(alloc, op, text, symbols, symbols.len(), place)?;
    words_said(alloc, whole, op, flag(text), said)
}

/// The words that are shown of a card.
fn shown_words(
    alloc: Global,
    whole: &Whole,
    visible: usize,
    place: u64,
    text: &[u8],
    cause: Option<FaultCause>,
) -> Result<WordList, NoMemory>
    requires cause { cause ≡ cause_of (whole_in whole.now) (known_at whole.now.symbols visible place) text.now }
    requires place { whole.now.end_place < 2 ^ 33 }
    requires few { length whole.now.literals < 2 ^ 33 }
    ensures { IfOk result (λ ws. ws ≡ sound_words cause
        (words_shown (whole_in whole.now) (known_at whole.now.symbols visible place) text.now)) }
{
    match cause {
        Some(_) => Ok(Sequence::new(alloc)),
        None => card_words(alloc, whole, visible, place, operation_in(text), text),
    }
}

/// What a card comes to.
fn row(
    alloc: Global,
    whole: &Whole,
    visible: usize,
    place: u64,
    text: &[u8],
) -> Result<CardRow, NoMemory>
    requires place { whole.now.end_place < 2 ^ 33 }
    requires few { length whole.now.literals < 2 ^ 33 }
    requires blocks { whole.now.blocks < 2 ^ 30 }
    ensures { IfOk result (λ row. row
        ≡ row_of (whole_in whole.now) (known_at whole.now.symbols visible place) text.now) }
{
    let cause = cause_of(alloc, text, whole, visible, place)?;
    let column = column_of(operation_in(text), whole, visible, place, text, cause);
    let words = shown_words(alloc, whole, visible, place, text, cause)?;
    Ok(CardRow {
        place,
        cause,
        column,
        words,
    })
}

/// What the cards that are read come to.
fn rows_of(alloc: Global, cards: &[Card], whole: &Whole) -> Result<Sequence<CardRow>, NoMemory>
    requires few { length cards.now < 2 ^ 32 }
    requires place { whole.now.end_place < 2 ^ 33 }
    requires literals { length whole.now.literals < 2 ^ 33 }
    requires blocks { whole.now.blocks < 2 ^ 30 }
    requires symbols { (known_after nothing_known (texts cards.now)).symbols ≡ whole.now.symbols }
    ensures { IfOk result (λ rows. rows ≡ rows_from (whole_in whole.now) nothing_known (texts cards.now)) }
{
    let symbols = &whole.symbols;
    let mut rows = Sequence::new(alloc);
    let mut visible = 0;
    let mut place = 0;
    for card in cards {
        let text = card.text.as_slice();
        let row = row(alloc, whole, visible, place, text)?;
        rows.push(row)?;
        let next = place_behind(alloc, operation_in(text), text, symbols, visible, place)?;
        visible = visible_behind(text, symbols, visible);
        place = next;
    }
    Ok(rows)
}

/// The start that the END card says, and 0 where there is none.
#[tactic(auto, using(crate::proofs::Reading::no_start))]
fn start_of(alloc: Global, cards: &[Card], end: usize, whole: &Whole) -> Result<u16, NoMemory>
    requires end { end ≡ end_index cards.now }
    requires whole { whole_in whole.now ≡ whole_of (texts cards.now) }
    ensures { IfOk result (λ n. n ≡ start_from (whole_in whole.now) nothing_known (texts cards.now)) }
{
    if end < cards.len() {
        start(alloc, cards, end, whole)
    } else {
        Ok(0)
    }
}

/// What all cards come to, by what they tell together.
fn listed_with(
    alloc: Global,
    cards: &[Card],
    read: &[Card],
    end: usize,
    whole: &Whole,
) -> Result<Listed, NoMemory>
    requires few { length read.now < 2 ^ 32 - 1 }
    requires end { end ≡ end_index cards.now }
    requires read { texts read.now ≡ cards_read (texts cards.now) }
    requires whole { whole_in whole.now ≡ whole_of (texts cards.now) }
    requires place { whole.now.end_place < 2 ^ 33 }
    requires literals { length whole.now.literals < 2 ^ 33 }
    requires blocks { whole.now.blocks < 2 ^ 30 }
    ensures { IfOk result (λ l. l ≡ listed (texts cards.now)) }
{
    let rows = rows_of(alloc, read, whole)?;
    let definitions = definitions_of(alloc, read)?;
    let uses = uses_of(alloc, read)?;
    let start = start_of(alloc, cards, end, whole)?;
    let symbols = whole.symbols.to_list(alloc)?;
    Ok(Listed {
        rows,
        symbols,
        definitions,
        uses,
        end_place: whole.end_place,
        blocks: whole.blocks,
        start,
        has_end: end < cards.len(),
        literals: whole.literals.to_list(alloc)?,
    })
}

/// What all cards of a program come to: the cards up to the first END are those of the deck that `assemble` makes, or that it
/// finds at fault.
pub fn list(alloc: Global, cards: &[Card]) -> Result<Listed, NoMemory>
    requires { length cards.now < 2 ^ 32 - 1 }
    ensures { IfOk result (λ l. l ≡ listed (texts cards.now)) }
{
    let end = end_index(cards);
    let read = cards_read(cards, end);
    let whole = whole_of(alloc, cards, read)?;
    let listed = listed_with(alloc, cards, read, end, &whole);
    drop(whole);
    listed
}
