//! Cards of a module with their places, their words with their kind, and their faults.
ghost use Rattle.std.specs.Prelude.{◌≡◌};
ghost use Rattle.link_model.specs.Moves.{module_operation, without_org};
ghost use Rattle.fap_assemble.specs.Steps.{texts};
ghost use Rattle.fap_listing.specs.ModuleListing.{first_kind, kind_mark, module_card_line, module_fault_lines, module_row_text, module_rows_text, module_wanted};
ghost use Rattle.text_writer.specs.Writing.{Adds};

use crate::card::{add_text, first_text, later_cards, later_words, operation_in};
use crate::fault::add_looks;
use crate::word::{add_first_word, add_gap, add_place, add_word_lines, next_place, split_of};
use ctss_io::Sink;
use fap_model::Operation;
use fap_read::Card;
use link_model::ModuleRow;
use text_writer::TextWriter;
use text_writer::columns::{add_column, add_number};
use word36::Word;

/// A module has no ORG.
fn without_org(op: Option<Operation>) -> Option<Operation>
    ensures { result ≡ without_org op }
{
    match op {
        None => None,
        Some(Operation::Org) => None,
        Some(op) => Some(op),
    }
}

/// The operation of a module's card.
fn module_operation(text: &[u8]) -> Option<Operation>
    ensures { result ≡ module_operation text.now }
{
    without_org(operation_in(text))
}

/// Adds what a kind is shown by.
fn add_kind<K: Sink>(out: &mut TextWriter<'_, K>, kind: u64)
    ensures { Adds K.Sink (kind_mark kind) out.old out.new }
{
    if kind == 0 {
        out.add(b" ");
    } else if kind == 1 {
        out.add(b"M");
    } else {
        out.add(b"X");
    }
}

/// Adds the kind of the first word, if there is one.
fn add_first_kind<K: Sink>(out: &mut TextWriter<'_, K>, kind: u64, words: &[Word])
    ensures { Adds K.Sink (first_kind kind words.now) out.old out.new }
{
    match words {
        [] => out.add(b" "),
        [_, ..] => add_kind(out, kind),
    }
}

/// Adds a card with its number, its place, its first word and the kind of this word.
fn add_module_card<K: Sink>(out: &mut TextWriter<'_, K>, number: u64, row: &ModuleRow, text: &[u8])
    ensures { Adds K.Sink (module_card_line number row.now text.now) out.old out.new }
{
    let op = module_operation(text);
    let words = row.words.as_slice();
    add_column(out, 4, number);
    add_gap(out, 2);
    add_place(out, op, row.place);
    add_gap(out, 2);
    add_first_word(out, split_of(op), words);
    add_first_kind(out, row.kind, words);
    add_gap(out, 1);
    add_text(out, text);
    out.end_line();
}

/// What is wrong, by the number of a fault.
fn module_wanted(fault: u8) -> &'static [u8]
    ensures { result.now ≡ module_wanted fault }
{
    if fault == 1 {
        b"NO OPERATION OF A MODULE HAS THIS NAME, OR IT STANDS WHERE IT MAY NOT"
    } else if fault == 2 {
        b"CHARACTERS, SYMBOL, FLAG OR FIELD AREN'T WHAT THE OPERATION WANTS, OR THE FIELD CAN'T MOVE WITH THE MODULE"
    } else if fault == 3 {
        b"NO CARD HAS THIS SYMBOL, OR NO EARLIER ONE"
    } else if fault == 4 {
        b"AN EARLIER CARD HAS THIS SYMBOL, OR NAMES IT"
    } else {
        b"THE WORDS PASS THE LAST PLACE OF A MODULE, 77776"
    }
}

/// Adds the line of a fault, if there is one.
#[tactic(auto, using(text_writer::proofs::Added::adds_none))]
fn add_module_fault<K: Sink>(out: &mut TextWriter<'_, K>, fault: u8)
    ensures { Adds K.Sink (module_fault_lines fault) out.old out.new }
{
    if fault != 0 {
        add_gap(out, 30);
        out.add(b"FAULT ");
        add_number(out, fault);
        out.add(b": ");
        out.add(module_wanted(fault));
        out.end_line();
    }
}

/// Adds all that is told of a card.
fn add_module_row<K: Sink>(out: &mut TextWriter<'_, K>, number: u64, row: &ModuleRow, text: &[u8])
    ensures { Adds K.Sink (module_row_text number row.now text.now) out.old out.new }
{
    add_module_card(out, number, row, text);
    let op = module_operation(text);
    let later = later_words(row.words.as_slice());
    add_word_lines(out, split_of(op), next_place(row.place), later);
    add_module_fault(out, row.fault);
    add_looks(out, text);
}

/// Adds all that is told of cards.
pub(crate) fn add_module_rows<K: Sink>(
    out: &mut TextWriter<'_, K>,
    rows: &[ModuleRow],
    cards: &[Card],
)
    ensures { Adds K.Sink (module_rows_text 1 rows.now (texts cards.now)) out.old out.new }
{
    let mut cards = cards;
    let mut number = 1;
    for row in rows {
        add_module_row(out, number, row, first_text(cards));
        cards = later_cards(cards);
        number += 1;
    }
}
