//! Cards with their places, their words and their faults.
ghost use Rattle.std.specs.Prelude.{◌≡◌, ◌∷◌, [], drop};
ghost use Rattle.std.specs.List.{flat_map};
ghost use Rattle.fap_model.specs.Decks.{operation_in};
ghost use Rattle.fap_listing.specs.Listing.{card_line, first_card, row_text, rows_text, shown_byte, shown_text};
ghost use Rattle.fap_assemble.specs.Steps.{texts};
ghost use Rattle.fap_listing.specs.Rows.{shown_bytes};
ghost use Rattle.text_writer.specs.Writing.{Adds};

use crate::fault::{add_fault, add_looks};
use crate::word::{add_first_word, add_gap, add_place, add_word_lines, next_place, split_of};
use ctss_io::Sink;
use fap_model::{CardRow, Operation};
use fap_read::{Card, is_comment, operation};
use text_writer::TextWriter;
use text_writer::columns::add_column;
use word36::Word;

/// The operation of a card that isn't a comment.
pub(crate) fn operation_in(text: &[u8]) -> Option<Operation>
    ensures { result ≡ operation_in text.now }
{
    if is_comment(text) {
        None
    } else {
        operation(text)
    }
}

/// Adds a byte, and ? for one that doesn't show.
fn add_byte<K: Sink>(out: &mut TextWriter<'_, K>, byte: u8)
    ensures { Adds K.Sink (shown_byte byte ∷ []) out.old out.new }
{
    if 32 <= byte && byte <= 126 {
        out.add(&[byte]);
    } else {
        out.add(b"?");
    }
}

/// Adds a card as it stands.
#[tactic(auto, using(crate::proofs::Rows::shown_is))]
pub(crate) fn add_text<K: Sink>(out: &mut TextWriter<'_, K>, text: &[u8])
    ensures { Adds K.Sink (shown_text text.now) out.old out.new }
{
    add_bytes(out, text);
}

/// Adds bytes.
fn add_bytes<K: Sink>(out: &mut TextWriter<'_, K>, text: &[u8])
    ensures { Adds K.Sink (flat_map shown_bytes text.now) out.old out.new }
{
    for byte in text {
        add_byte(out, *byte);
    }
}

/// Adds a card with its number, its place and its first word.
fn add_card<K: Sink>(out: &mut TextWriter<'_, K>, number: u64, row: &CardRow, text: &[u8])
    ensures { Adds K.Sink (card_line number row.now text.now) out.old out.new }
{
    let op = operation_in(text);
    add_column(out, 4, number);
    add_gap(out, 2);
    add_place(out, op, row.place);
    add_gap(out, 2);
    add_first_word(out, split_of(op), row.words.as_slice());
    add_gap(out, 2);
    add_text(out, text);
    out.end_line();
}

/// The words behind the first.
pub(crate) fn later_words(words: &[Word]) -> &[Word]
    ensures { result.now ≡ drop 1 words.now }
{
    words.split_at(words.len().min(1)).1
}

/// Adds all that is told of a card.
fn add_row<K: Sink>(out: &mut TextWriter<'_, K>, number: u64, row: &CardRow, text: &[u8])
    ensures { Adds K.Sink (row_text number row.now text.now) out.old out.new }
{
    let op = operation_in(text);
    add_card(out, number, row, text);
    let later = later_words(row.words.as_slice());
    add_word_lines(out, split_of(op), next_place(row.place), later);
    add_fault(out, op, row.cause, row.column);
    add_looks(out, text);
}

/// The text of the first card, and none where there is no card.
pub(crate) fn first_text(cards: &[Card]) -> &[u8]
    ensures { result.now ≡ first_card (texts cards.now) }
{
    match cards.first() {
        Some(card) => card.text.as_slice(),
        None => &[],
    }
}

/// The cards behind the first.
pub(crate) fn later_cards(cards: &[Card]) -> &[Card]
    ensures { texts result.now ≡ drop 1 (texts cards.now) }
{
    cards.split_at(cards.len().min(1)).1
}

/// Adds all that is told of cards.
pub(crate) fn add_rows<K: Sink>(out: &mut TextWriter<'_, K>, rows: &[CardRow], cards: &[Card])
    ensures { Adds K.Sink (rows_text 1 rows.now (texts cards.now)) out.old out.new }
{
    let mut cards = cards;
    let mut number = 1;
    for row in rows {
        add_row(out, number, row, first_text(cards));
        cards = later_cards(cards);
        number += 1;
    }
}
