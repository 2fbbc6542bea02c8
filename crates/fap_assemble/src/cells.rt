ghost use Rattle.std.specs.Prelude.{◌≡◌, ◌+◌, ◌++◌, ◌^◌, ◌<◌, ◌≤◌, [], Some, false, IfSome, OnOk, IfOk, length, map, replicate};
ghost use Rattle.link_model.specs.Moves.{nothing_moved, module_operation, moved_after};
ghost use Rattle.link_model.specs.ModuleCards.{cell, cells_by, cells_from, module_faults_from};
ghost use Rattle.fap_assemble.specs.Fields.{HasShortValues, is_wrong};
ghost use Rattle.fap_assemble.specs.Steps.{texts};
ghost use Rattle.fap_assemble.specs.Wholes.{whole_in};
ghost use Rattle.fap_assemble.specs.CardWords.{words_said};
ghost use Rattle.fap_assemble.specs.Judging.{relocated_in, moved_at};
ghost use Rattle.fap_assemble.specs.CellWords.{IsSound, word_cells};

use crate::field::Said;
use crate::module_judge::{card_kind, card_said};
use crate::moves::{module_operation, moved_size};
use crate::relocated::{Relocated, Spot};
use crate::whole::Whole;
use crate::words::{machine_word, plain_word};
use ctss_types::{NoMemory, Sequence};
use fap_model::Operation;
use fap_read::{Card, flag};
use link_model::{ModulePlace, PlaceList};
use std::alloc::Global;
use word36::Word;

/// Adds words of one kind.
fn add_words(places: &mut PlaceList, kind: u16, words: &[Word]) -> Result<(), NoMemory>
    ensures { OnOk result (places.new ≡ places.old ++ map (cell kind) words.now) }
{
    for word in words {
        places.push(ModulePlace { kind, word: *word })?;
    }
    Ok(())
}

/// Adds places that are reserved.
fn add_reserved(places: &mut PlaceList, count: u64) -> Result<(), NoMemory>
    ensures { OnOk result (places.new ≡ places.old ++ replicate count (cell 0 0)) }
{
    let mut left = count;
    'reserving: while 0 < left {
        places.push(ModulePlace {
            kind: 0,
            word: Word::default(),
        })?;
        left -= 1;
    }
    Ok(())
}

/// Adds the words of a card with an operation.
fn add_said(
    places: &mut PlaceList,
    kind: u16,
    whole: &Whole,
    op: Operation,
    flag: bool,
    said: &Option<Said>,
) -> Result<(), NoMemory>
    requires right { is_wrong said.now ≡ false }
    requires short { IfSome said.now HasShortValues }
    requires place { whole.now.end_place < 2 ^ 33 }
    requires few { length whole.now.literals < 2 ^ 33 }
    ensures { OnOk result (places.new
        ≡ places.old ++ map (cell kind) (words_said (whole_in whole.now) op flag said.now)) }
{
    match op {
        Operation::Machine(op) => places.push(ModulePlace {
            kind,
            word: machine_word(whole, op, flag, said),
        }),
        Operation::Pze => places.push(ModulePlace {
            kind,
            word: plain_word(whole, said),
        }),
        Operation::Dec | Operation::Oct | Operation::Bci => match said {
            Some(Said::Words(words)) => add_words(places, kind, words.as_slice()),
            _ => Ok(()),
        },
        Operation::Org | Operation::Bss | Operation::Equ | Operation::End => Ok(()),
    }
}

/// Adds the words of a card with an operation that isn't BSS.
fn add_read(
    places: &mut PlaceList,
    alloc: Global,
    op: Operation,
    r: &Relocated,
    spot: Spot,
    text: &[u8],
) -> Result<(), NoMemory>
    requires sound { IsSound (relocated_in r.now) (moved_at r.now spot) text.now }
    requires op { module_operation text.now ≡ Some op }
    requires place { r.now.whole.end_place < 2 ^ 33 }
    requires few { length r.now.whole.literals < 2 ^ 33 }
    requires externs { length r.now.externs ≤ 32768 }
    ensures { OnOk result (places.new
        ≡ places.old ++ word_cells (relocated_in r.now) (moved_at r.now spot) op text.now) }
{
    let said = card_said(alloc, op, r, spot, text)?;
    let kind = card_kind(op, r, spot, text).unwrap_or(0) as u16;
    add_said(places, kind, &r.whole, op, flag(text), &said)
}

/// Adds the places of a card with an operation.
fn add_operation(
    places: &mut PlaceList,
    alloc: Global,
    op: Operation,
    r: &Relocated,
    spot: Spot,
    text: &[u8],
) -> Result<(), NoMemory>
    requires sound { IsSound (relocated_in r.now) (moved_at r.now spot) text.now }
    requires op { module_operation text.now ≡ Some op }
    requires at { spot.place < 2 ^ 40 }
    requires place { r.now.whole.end_place < 2 ^ 33 }
    requires few { length r.now.whole.literals < 2 ^ 33 }
    requires externs { length r.now.externs ≤ 32768 }
    ensures { OnOk result (places.new
        ≡ places.old ++ cells_by (relocated_in r.now) (moved_at r.now spot) (Some op) text.now) }
{
    match op {
        Operation::Bss => add_reserved(places, r.size(alloc, spot, Some(op), text)?),
        _ => add_read(places, alloc, op, r, spot, text),
    }
}

/// Adds the places of a card: what it reserves, or its words.
fn add_card(
    places: &mut PlaceList,
    alloc: Global,
    r: &Relocated,
    spot: Spot,
    text: &[u8],
) -> Result<(), NoMemory>
    requires sound { IsSound (relocated_in r.now) (moved_at r.now spot) text.now }
    requires at { spot.place < 2 ^ 40 }
    requires place { r.now.whole.end_place < 2 ^ 33 }
    requires few { length r.now.whole.literals < 2 ^ 33 }
    requires externs { length r.now.externs ≤ 32768 }
    ensures { OnOk result (places.new
        ≡ places.old ++ cells_by (relocated_in r.now) (moved_at r.now spot) (module_operation text.now) text.now) }
{
    match module_operation(text) {
        Some(op) => add_operation(places, alloc, op, r, spot, text),
        None => Ok(()),
    }
}

/// The places of cards without a fault, and the literals behind them.
pub(crate) fn cells_of(alloc: Global, cards: &[Card], r: &Relocated) -> Result<PlaceList, NoMemory>
    requires few { length cards.now < 2 ^ 32 }
    requires place { r.now.whole.end_place < 2 ^ 33 }
    requires literals { length r.now.whole.literals < 2 ^ 33 }
    requires externs { length r.now.externs ≤ 32768 }
    requires symbols { (moved_after r.now.externs nothing_moved (texts cards.now)).known.symbols ≡ r.now.whole.symbols }
    requires weights { (moved_after r.now.externs nothing_moved (texts cards.now)).weights ≡ r.now.weights }
    requires sound { module_faults_from (relocated_in r.now) 1 nothing_moved [] (texts cards.now) ≡ [] }
    ensures { IfOk result (λ ps. ps
        ≡ cells_from (relocated_in r.now) nothing_moved (texts cards.now) ++ map (cell 0) r.now.whole.literals) }
{
    let mut places = Sequence::new(alloc);
    let mut spot = Spot::first();
    for card in cards {
        let text = card.text.as_slice();
        add_card(&mut places, alloc, r, spot, text)?;
        let next = r.behind(alloc, spot, text)?;
        spot = next;
    }
    add_words(&mut places, 0, r.whole.literals.as_slice())?;
    Ok(places)
}
