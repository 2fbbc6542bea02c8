//! What a listing shows of a module's cards.
ghost use Rattle.std.specs.Prelude.{◌≡◌, ◌+◌, ◌-◌, ◌^◌, ◌<◌, ◌≤◌, ◌++◌, ◌∷◌, [], IfOk, OnOk, length};
ghost use Rattle.fap_model.specs.Decks.{cards_read};
ghost use Rattle.link_model.specs.Listed.{kind_placed, listed_module, module_rows_from, places_reserved, words_placed};
ghost use Rattle.link_model.specs.ModuleCards.{module_start, relocated_of};
ghost use Rattle.link_model.specs.Moves.{module_operation, nothing_moved};
ghost use Rattle.fap_assemble.specs.Answers.{end_index};
ghost use Rattle.fap_assemble.specs.CellWords.{IsSound};
ghost use Rattle.fap_assemble.specs.Judging.{module_fault_by, moved_at, relocated_in};
ghost use Rattle.fap_assemble.specs.ModuleFollows.{TellsAll};
ghost use Rattle.fap_assemble.specs.ModuleListings.{module_row_by};
ghost use Rattle.fap_assemble.specs.Steps.{texts};

use crate::assembler::{cards_read, end_index};
use crate::listing::words_said;
use crate::mention::{definitions_of, uses_of};
use crate::module_assembler::{entries_of, start};
use crate::module_judge::{card_kind, card_said, module_fault};
use crate::moves::module_operation;
use crate::past::Past;
use crate::relocated::{Relocated, Spot, relocated_of};
use ctss_types::{NoMemory, Sequence, WordList};
use fap_model::Operation;
use fap_read::{Card, flag};
use link_model::{ListedModule, ModuleRow};
use std::alloc::Global;

/// How many places a card reserves.
fn places_reserved(
    alloc: Global,
    fault: u8,
    r: &Relocated,
    spot: Spot,
    op: Option<Operation>,
    text: &[u8],
) -> Result<u64, NoMemory>
    requires { spot.place < 2 ^ 40 }
    ensures { IfOk result (λ n. n ≡ places_reserved (relocated_in r.now) (moved_at r.now spot) fault op text.now) }
{
    if fault != 0 {
        return Ok(0);
    }
    match op {
        Some(Operation::Bss) => r.size(alloc, spot, op, text),
        _ => Ok(0),
    }
}

/// The kind of a card's words, if it has any.
fn kind_placed(r: &Relocated, spot: Spot, op: Option<Operation>, text: &[u8]) -> u64
    ensures { result ≡ kind_placed (relocated_in r.now) (moved_at r.now spot) op text.now }
{
    match op {
        Some(op) => card_kind(op, r, spot, text).unwrap_or(0),
        None => 0,
    }
}

/// The words of a card that isn't at fault.
fn sound_words(
    alloc: Global,
    r: &Relocated,
    spot: Spot,
    op: Option<Operation>,
    text: &[u8],
) -> Result<WordList, NoMemory>
    requires op { op ≡ module_operation text.now }
    requires sound { IsSound (relocated_in r.now) (moved_at r.now spot) text.now }
    requires place { r.now.whole.end_place < 2 ^ 33 }
    requires few { length r.now.whole.literals < 2 ^ 33 }
    ensures { IfOk result (λ ws. ws ≡ words_placed (relocated_in r.now) (moved_at r.now spot) 0 op text.now) }
{
    let Some(op) = op else {
        return Ok(Sequence::new(alloc));
    };
    let said = card_said(alloc, op, r, spot, text)?;
    words_said(alloc, &r.whole, op, flag(text), said)
}

/// The words of a card.
fn words_placed(
    alloc: Global,
    fault: u8,
    r: &Relocated,
    spot: Spot,
    op: Option<Operation>,
    text: &[u8],
) -> Result<WordList, NoMemory>
    requires op { op ≡ module_operation text.now }
    requires sound { fault ≡ 0 → IsSound (relocated_in r.now) (moved_at r.now spot) text.now }
    requires place { r.now.whole.end_place < 2 ^ 33 }
    requires few { length r.now.whole.literals < 2 ^ 33 }
    ensures { IfOk result (λ ws. ws ≡ words_placed (relocated_in r.now) (moved_at r.now spot) fault op text.now) }
{
    if fault == 0 {
        sound_words(alloc, r, spot, op, text)
    } else {
        Ok(Sequence::new(alloc))
    }
}

/// What a card comes to.
fn row(
    alloc: Global,
    r: &Relocated,
    past: &Past,
    spot: Spot,
    text: &[u8],
) -> Result<ModuleRow, NoMemory>
    requires at { spot.place < 2 ^ 40 }
    requires place { r.now.whole.end_place < 2 ^ 33 }
    requires few { length r.now.whole.literals < 2 ^ 33 }
    requires blocks { r.now.whole.blocks < 2 ^ 30 }
    ensures { IfOk result (λ row. row
        ≡ module_row_by (relocated_in r.now) past.now (moved_at r.now spot) text.now) }
{
    let op = module_operation(text);
    let fault = module_fault(alloc, r, past, spot, text)?;
    let reserved = places_reserved(alloc, fault, r, spot, op, text)?;
    let words = words_placed(alloc, fault, r, spot, op, text)?;
    Ok(ModuleRow {
        place: spot.place,
        fault,
        reserved,
        kind: kind_placed(r, spot, op, text),
        words,
    })
}

/// Adds what a card comes to.
fn add_row(
    rows: &mut Sequence<ModuleRow>,
    alloc: Global,
    r: &Relocated,
    past: &Past,
    spot: Spot,
    text: &[u8],
) -> Result<(), NoMemory>
    requires at { spot.place < 2 ^ 40 }
    requires place { r.now.whole.end_place < 2 ^ 33 }
    requires few { length r.now.whole.literals < 2 ^ 33 }
    requires blocks { r.now.whole.blocks < 2 ^ 30 }
    ensures { OnOk result (rows.new
        ≡ rows.old ++ module_row_by (relocated_in r.now) past.now (moved_at r.now spot) text.now ∷ []) }
{
    let row = row(alloc, r, past, spot, text)?;
    rows.push(row)
}

/// What the cards that are read come to.
fn rows_of(alloc: Global, cards: &[Card], r: &Relocated) -> Result<Sequence<ModuleRow>, NoMemory>
    requires few { length cards.now < 2 ^ 32 - 1 }
    requires place { r.now.whole.end_place < 2 ^ 33 }
    requires literals { length r.now.whole.literals < 2 ^ 33 }
    requires blocks { r.now.whole.blocks < 2 ^ 30 }
    requires tells { TellsAll r.now (texts cards.now) }
    ensures { IfOk result (λ rows. rows ≡ module_rows_from (relocated_in r.now) nothing_moved [] (texts cards.now)) }
{
    let mut rows = Sequence::new(alloc);
    let mut past = Past::new(alloc);
    let mut spot = Spot::first();
    for card in cards {
        let text = card.text.as_slice();
        add_row(&mut rows, alloc, r, &past, spot, text)?;
        let more = past.with(text)?;
        past = more;
        let next = r.behind(alloc, spot, text)?;
        spot = next;
    }
    Ok(rows)
}

/// The start that the END card says, and 0 where there is none.
#[tactic(auto, using(crate::proofs::ModuleListings::no_start))]
fn start_of(alloc: Global, cards: &[Card], end: usize, r: &Relocated) -> Result<u16, NoMemory>
    requires end { end ≡ end_index cards.now }
    requires told { relocated_in r.now ≡ relocated_of (texts cards.now) }
    ensures { IfOk result (λ n. n ≡ module_start (relocated_in r.now) nothing_moved (texts cards.now)) }
{
    if end < cards.len() {
        start(alloc, cards, end, r)
    } else {
        Ok(0)
    }
}

/// What cards come to that together tell this.
fn listed_by(
    alloc: Global,
    cards: &[Card],
    read: &[Card],
    end: usize,
    r: &Relocated,
) -> Result<ListedModule, NoMemory>
    requires few { length read.now < 2 ^ 32 - 1 }
    requires end { end ≡ end_index cards.now }
    requires read { texts read.now ≡ cards_read (texts cards.now) }
    requires place { r.now.whole.end_place < 2 ^ 33 }
    requires literals { length r.now.whole.literals < 2 ^ 33 }
    requires blocks { r.now.whole.blocks < 2 ^ 30 }
    requires tells { TellsAll r.now (texts read.now) }
    ensures { IfOk result (λ l. l ≡ listed_module (texts cards.now)) }
{
    Ok(ListedModule {
        rows: rows_of(alloc, read, r)?,
        symbols: r.whole.symbols.to_list(alloc)?,
        definitions: definitions_of(alloc, read)?,
        uses: uses_of(alloc, read)?,
        entries: entries_of(alloc, read, r)?,
        externs: r.externs.to_list(alloc)?,
        literals: r.whole.literals.to_list(alloc)?,
        end_place: r.whole.end_place,
        start: start_of(alloc, cards, end, r)?,
        has_end: end < cards.len(),
    })
}

/// What all cards of a module come to: the cards up to the first END are those of the module that `assemble_module` makes, or
/// that it finds at fault.
pub fn list_module(alloc: Global, cards: &[Card]) -> Result<ListedModule, NoMemory>
    requires { length cards.now < 2 ^ 32 - 1 }
    ensures { IfOk result (λ l. l ≡ listed_module (texts cards.now)) }
{
    let end = end_index(cards);
    let read = cards_read(cards, end);
    let r = relocated_of(alloc, read)?;
    listed_by(alloc, cards, read, end, &r)
}
