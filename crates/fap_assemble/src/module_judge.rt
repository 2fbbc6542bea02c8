ghost use Rattle.std.specs.Prelude.{◌≡◌, ◌+◌, ◌-◌, ◌++◌, ◌^◌, ◌<◌, ◌≤◌, ◌||◌, [], Some, codes, not, is_none, IfOk, IfSome, OnOk, length, max, take};
ghost use Rattle.std.specs.Option.{option_map};
ghost use Rattle.fap_model.specs.Cards.{symbol_of};
ghost use Rattle.fap_model.specs.Statements.{field_for};
ghost use Rattle.fap_model.specs.declared.types.Operation.TheVariants.{End as end};
ghost use Rattle.fap_model.specs.Places.{value_in, symbol_is_known};
ghost use Rattle.link_model.specs.Weights.{with_externs};
ghost use Rattle.link_model.specs.Moves.{nothing_moved, moved_after};
ghost use Rattle.link_model.specs.ModuleCards.{card_kind, names_of, module_faults_from};
ghost use Rattle.fap_model.specs.Decks.{fault_entry};
ghost use Rattle.fap_assemble.specs.Wholes.{is_start_outside};
ghost use Rattle.fap_assemble.specs.Fields.{said, HasShortValues};
ghost use Rattle.fap_assemble.specs.Steps.{texts};
ghost use Rattle.fap_assemble.specs.Follows.{numbered};
ghost use Rattle.fap_assemble.specs.Judging.{relocated_in, moved_at, is_over_by, rel_fault_by, entry_fault_of_by, entry_fault_by, seen_by, word_fault_by, extern_fault_of_by, extern_fault_by, plain_fault_by, module_fault_by};

use crate::fault::FaultList;
use crate::field::{Said, read_with};
use crate::judge::note;
use crate::kind::kind;
use crate::module_cards::{field_symbol, is_marked};
use crate::moves::without_org;
use crate::names::Names;
use crate::past::{ENTRY, EXTERN, Past};
use crate::place::{Surroundings, fault_known};
use crate::relocated::{Relocated, Spot};
use crate::whole::{is_start_outside, names_seen};
use ctss_types::{NoMemory, Sequence};
use fap_model::Operation;
use fap_read::{Card, field, is_bad, is_comment, operation, operation_text, symbol};
use std::alloc::Global;
use word36::Word;

/// The number of places.
const MAX_PLACE: u64 = 32768;

/// Whether a card stands behind the last place, or so many of its operation stand before it that no more are taken.
fn is_over(place: u64, cards: usize) -> bool
    ensures { result ≡ is_over_by place cards }
{
    place >= MAX_PLACE || cards >= 32766
}

/// The fault of a REL.
fn rel_fault(only_comments: bool, place: u64, text: &[u8]) -> u8
    ensures { result ≡ rel_fault_by only_comments place text.now }
{
    if !only_comments {
        1
    } else if is_marked(text) || !field(text).is_empty() {
        2
    } else if place >= MAX_PLACE {
        5
    } else {
        0
    }
}

/// The fault of an ENTRY that names a symbol.
fn named_entry_fault(r: &Relocated, past: &Past, place: u64, name: Word) -> u8
    ensures { result ≡ entry_fault_of_by (relocated_in r.now) past.now place (Some name) }
{
    let names = Names {
        externs: Some(&r.externs),
        symbols: &r.whole.symbols,
        visible: r.whole.symbols.len(),
    };
    if r.externs.has(name) || r.equs.has(name) {
        2
    } else if names.value(name).is_none() {
        3
    } else if past.entries.has(name) {
        4
    } else if is_over(place, past.entry_cards) {
        5
    } else {
        0
    }
}

/// The fault of an ENTRY.
fn entry_fault(r: &Relocated, past: &Past, place: u64, text: &[u8]) -> u8
    ensures { result ≡ entry_fault_by (relocated_in r.now) past.now place text.now }
{
    if is_marked(text) {
        return 2;
    }
    match field_symbol(text) {
        Some(name) => named_entry_fault(r, past, place, name),
        None => 2,
    }
}

/// Whether an earlier card has a symbol, or an earlier EXTERN names it.
#[tactic(auto, using(crate::proofs::Judging::seen_value))]
fn is_seen(r: &Relocated, past: &Past, spot: Spot, name: Word) -> bool
    ensures { result ≡ not (is_none (value_in (seen_by past.now (moved_at r.now spot).known).symbols name)) }
{
    r.whole.symbols.value(spot.visible, name).is_some() || past.externs.has(name)
}

/// The fault of an EXTERN.
fn extern_fault(r: &Relocated, past: &Past, spot: Spot, text: &[u8]) -> u8
    ensures { result ≡ extern_fault_by past.now (moved_at r.now spot).known text.now }
{
    if is_marked(text) {
        return 2;
    }
    let Some(name) = field_symbol(text) else {
        return 2;
    };
    if is_seen(r, past, spot, name) {
        4
    } else if is_over(spot.place, past.extern_cards) {
        5
    } else {
        0
    }
}

/// Whether an earlier card has a card's symbol, or an earlier EXTERN names it.
fn is_known(r: &Relocated, past: &Past, spot: Spot, text: &[u8]) -> bool
    ensures { result ≡ symbol_is_known (seen_by past.now (moved_at r.now spot).known) (symbol_of text.now) }
{
    match symbol(text) {
        Some(name) => is_seen(r, past, spot, name),
        None => false,
    }
}

/// The kind of a card's field, if its expressions weigh what they may.
#[tactic(auto, using(crate::proofs::Judging::names_are))]
pub(crate) fn card_kind(op: Operation, r: &Relocated, spot: Spot, text: &[u8]) -> Option<u64>
    ensures { result ≡ card_kind op (relocated_in r.now) (moved_at r.now spot) text.now }
{
    let weights = Names {
        externs: Some(&r.externs),
        symbols: &r.weights,
        visible: names_seen(op, &r.weights, spot.weighed),
    };
    kind(op, weights, text)
}

/// What the field of a card says, with the symbols that it may use.
#[tactic(auto, using(crate::proofs::Judging::names_are))]
pub(crate) fn card_said(
    alloc: Global,
    op: Operation,
    r: &Relocated,
    spot: Spot,
    text: &[u8],
) -> Result<Option<Said>, NoMemory>
    ensures value { IfOk result (λ s. s
        ≡ option_map (said (names_of op (relocated_in r.now) (moved_at r.now spot)) spot.place)
        (field_for op text.now)) }
    ensures short { IfOk result (λ s. IfSome s HasShortValues) }
{
    let names = Names {
        externs: Some(&r.externs),
        symbols: &r.whole.symbols,
        visible: names_seen(op, &r.whole.symbols, spot.visible),
    };
    read_with(alloc, op, text, names, spot.place)
}

/// Whether a start weighs what it may not, or lies outside the blocks.
fn is_end_wrong(r: &Relocated, spot: Spot, text: &[u8], said: &Option<Said>) -> bool
    requires { r.now.whole.blocks < 2 ^ 30 }
    ensures { result
        ≡ (is_none (card_kind end (relocated_in r.now) (moved_at r.now spot) text.now)
        || is_start_outside r.now.whole.blocks said.now) }
{
    card_kind(Operation::End, r, spot, text).is_none() || is_start_outside(r.whole.blocks, said)
}

/// The literals stand behind the last card, and the last place is 32766.
fn words_behind(r: &Relocated) -> usize
    requires { length r.now.whole.literals < 2 ^ 33 }
    ensures { result ≡ length r.now.whole.literals + 1 }
{
    r.whole.literals.len() + 1
}

/// The fault of an END.
fn end_fault(
    alloc: Global,
    r: &Relocated,
    past: &Past,
    spot: Spot,
    text: &[u8],
) -> Result<u8, NoMemory>
    requires blocks { r.now.whole.blocks < 2 ^ 30 }
    requires literals { length r.now.whole.literals < 2 ^ 33 }
    ensures { IfOk result (λ f. f
        ≡ plain_fault_by (Some end) (relocated_in r.now) past.now (moved_at r.now spot) text.now) }
{
    let op = Operation::End;
    let said = card_said(alloc, op, r, spot, text)?;
    let wrong = is_end_wrong(r, spot, text, &said);
    let more = words_behind(r);
    let around = Surroundings {
        known: is_known(r, past, spot, text),
        place: spot.place,
        more,
        wrong,
    };
    Ok(fault_known(op, text, &said, around))
}

/// The fault of a card with another operation, where the last place is 32766.
fn word_fault(
    alloc: Global,
    op: Operation,
    r: &Relocated,
    past: &Past,
    spot: Spot,
    text: &[u8],
) -> Result<u8, NoMemory>
    ensures { IfOk result (λ f. f ≡ word_fault_by op (relocated_in r.now) past.now (moved_at r.now spot) text.now) }
{
    let said = card_said(alloc, op, r, spot, text)?;
    let wrong = card_kind(op, r, spot, text).is_none();
    let around = Surroundings {
        known: is_known(r, past, spot, text),
        place: spot.place,
        more: 1,
        wrong,
    };
    Ok(fault_known(op, text, &said, around))
}

/// The fault of a card with an operation that is none of a module's own.
fn named_fault(
    alloc: Global,
    op: Operation,
    r: &Relocated,
    past: &Past,
    spot: Spot,
    text: &[u8],
) -> Result<u8, NoMemory>
    requires blocks { r.now.whole.blocks < 2 ^ 30 }
    requires literals { length r.now.whole.literals < 2 ^ 33 }
    ensures { IfOk result (λ f. f
        ≡ plain_fault_by (Some op) (relocated_in r.now) past.now (moved_at r.now spot) text.now) }
{
    match op {
        Operation::End => end_fault(alloc, r, past, spot, text),
        _ => word_fault(alloc, op, r, past, spot, text),
    }
}

/// The fault of a card that is none of a module's own.
fn plain_fault(
    alloc: Global,
    op: Option<Operation>,
    r: &Relocated,
    past: &Past,
    spot: Spot,
    text: &[u8],
) -> Result<u8, NoMemory>
    requires blocks { r.now.whole.blocks < 2 ^ 30 }
    requires literals { length r.now.whole.literals < 2 ^ 33 }
    ensures { IfOk result (λ f. f ≡ plain_fault_by op (relocated_in r.now) past.now (moved_at r.now spot) text.now) }
{
    match op {
        None => Ok(1),
        Some(op) => named_fault(alloc, op, r, past, spot, text),
    }
}

/// The least fault of a module's card, 0 where there is none.
pub(crate) fn module_fault(
    alloc: Global,
    r: &Relocated,
    past: &Past,
    spot: Spot,
    text: &[u8],
) -> Result<u8, NoMemory>
    requires blocks { r.now.whole.blocks < 2 ^ 30 }
    requires literals { length r.now.whole.literals < 2 ^ 33 }
    ensures { IfOk result (λ f. f ≡ module_fault_by (relocated_in r.now) past.now (moved_at r.now spot) text.now) }
{
    if is_comment(text) {
        return Ok(if is_bad(text) { 2 } else { 0 });
    }
    let name = operation_text(text);
    if name == b"REL".as_slice() {
        Ok(rel_fault(past.only_comments, spot.place, text))
    } else if name == ENTRY {
        Ok(entry_fault(r, past, spot.place, text))
    } else if name == EXTERN {
        Ok(extern_fault(r, past, spot, text))
    } else {
        plain_fault(alloc, without_org(operation(text)), r, past, spot, text)
    }
}

/// The text of a card, and its number.
#[derive(Clone, Copy)]
struct NumberedCard<'a> {
    number: u32,
    text: &'a [u8],
}

/// Notes a card's fault, if it has one.
fn judge_card(
    faults: &mut FaultList,
    alloc: Global,
    card: NumberedCard<'_>,
    r: &Relocated,
    past: &Past,
    spot: Spot,
) -> Result<(), NoMemory>
    requires blocks { r.now.whole.blocks < 2 ^ 30 }
    requires literals { length r.now.whole.literals < 2 ^ 33 }
    ensures { OnOk result (numbered faults.new
        ≡ numbered faults.old ++ fault_entry card.entry.number
        (module_fault_by (relocated_in r.now) past.now (moved_at r.now spot) card.entry.text.now)) }
{
    let fault = module_fault(alloc, r, past, spot, card.text)?;
    note(faults, card.number, fault)?;
    Ok(())
}

/// The faults of cards that are read.
pub(crate) fn module_faults(
    alloc: Global,
    cards: &[Card],
    r: &Relocated,
) -> Result<FaultList, NoMemory>
    requires few { length cards.now < 2 ^ 32 - 1 }
    requires blocks { r.now.whole.blocks < 2 ^ 30 }
    requires literals { length r.now.whole.literals < 2 ^ 33 }
    requires symbols { (moved_after r.now.externs nothing_moved (texts cards.now)).known.symbols ≡ r.now.whole.symbols }
    requires weights { (moved_after r.now.externs nothing_moved (texts cards.now)).weights ≡ r.now.weights }
    ensures { IfOk result (λ fs. numbered fs
        ≡ module_faults_from (relocated_in r.now) 1 nothing_moved [] (texts cards.now)) }
{
    let mut faults = Sequence::new(alloc);
    let mut past = Past::new(alloc);
    let mut spot = Spot::first();
    let mut number = 1;
    for card in cards {
        let text = card.text.as_slice();
        judge_card(
            &mut faults,
            alloc,
            NumberedCard { number, text },
            r,
            &past,
            spot,
        )?;
        let more = past.with(text)?;
        past = more;
        let next = r.behind(alloc, spot, text)?;
        spot = next;
        number += 1;
    }
    Ok(faults)
}
