//! The listing of a deck's cards as a text.
ghost use Rattle.std.specs.Prelude.{◌≡◌, ◌*◌, ◌-◌, ◌^◌, ◌<◌, ◌≤◌, length};
ghost use Rattle.fap_assemble.specs.Steps.{texts};
ghost use Rattle.fap_listing.specs.Listing.{deck_figures, end_text, fault_count, figures_line, first_figures, listing_text, row_faults, row_words, word_count};
ghost use Rattle.text_writer.specs.Writing.{Adds};

use crate::card::add_rows;
use crate::symbol::{add_literals, add_symbols};
use crate::word::add_gap;
use ctss_io::Sink;
use fap_model::{CardRow, Listed};
use fap_read::Card;
use text_writer::TextWriter;
use text_writer::cards::add_digits;
use text_writer::columns::add_number;

/// How many rows are at fault.
fn row_faults(rows: &[CardRow]) -> usize
    ensures value { result ≡ row_faults rows.now }
    ensures within { result ≤ length rows.now }
{
    rows.iter().filter(|row| row.cause.is_some()).count()
}

/// How many faults there are, a missing END with them.
pub(crate) fn fault_count(listed: &Listed) -> usize
    ensures { result ≡ fault_count listed.now }
{
    let rows = row_faults(listed.rows.as_slice());
    if listed.has_end { rows } else { rows + 1 }
}

/// How many words rows have.
fn row_words(rows: &[CardRow]) -> u128
    ensures value { result ≡ row_words rows.now }
    ensures within { result ≤ 2 ^ 64 * length rows.now }
{
    let mut words = 0;
    for row in rows {
        words += row.words.len() as u128;
    }
    words
}

/// How many words there are, the literals with them.
fn word_count(listed: &Listed) -> u128
    ensures { result ≡ word_count listed.now }
{
    row_words(listed.rows.as_slice()) + listed.literals.len() as u128
}

/// Adds what is told of a program without a fault.
fn add_deck_figures<K: Sink>(out: &mut TextWriter<'_, K>, listed: &Listed)
    ensures { Adds K.Sink (deck_figures listed.now) out.old out.new }
{
    out.add(b"START ");
    add_digits(out, 5, u64::from(listed.start));
    out.add(b"   BLOCKS ");
    add_number(out, listed.blocks);
    out.add(b"   WORDS ");
    add_number(out, word_count(listed));
    out.add(b"   LITERALS ");
    add_number(out, listed.literals.len());
    out.add(b"   ");
}

/// Adds the same, if there is no fault.
#[tactic(auto, using(text_writer::proofs::Added::adds_none))]
fn add_first_figures<K: Sink>(out: &mut TextWriter<'_, K>, listed: &Listed, faults: usize)
    requires { faults ≡ fault_count listed.now }
    ensures { Adds K.Sink (first_figures listed.now) out.old out.new }
{
    if faults == 0 {
        add_deck_figures(out, listed);
    }
}

/// Adds the figures.
fn add_figures<K: Sink>(out: &mut TextWriter<'_, K>, listed: &Listed)
    ensures { Adds K.Sink (figures_line listed.now) out.old out.new }
{
    let faults = fault_count(listed);
    add_first_figures(out, listed, faults);
    out.add(b"CARDS ");
    add_number(out, listed.rows.len());
    out.add(b"   FAULTS ");
    add_number(out, faults);
    out.end_line();
}

/// Adds that an END is missing, if it is.
#[tactic(auto, using(text_writer::proofs::Added::adds_none))]
pub(crate) fn add_end<K: Sink>(out: &mut TextWriter<'_, K>, has_end: bool, count: usize)
    requires { count < 2 ^ 63 }
    ensures { Adds K.Sink (end_text has_end count) out.old out.new }
{
    if !has_end {
        add_gap(out, 30);
        out.add(b"CARD ");
        add_number(out, count + 1);
        out.add(b" FAULT 6: THERE IS NO END");
        out.end_line();
    }
}

/// Adds the listing of cards that come to this.
pub(crate) fn add_listing<K: Sink>(out: &mut TextWriter<'_, K>, listed: &Listed, cards: &[Card])
    ensures { Adds K.Sink (listing_text listed.now (texts cards.now)) out.old out.new }
{
    out.line(b"CARD  PLACE  WORD             CARD AS IT STANDS");
    add_rows(out, listed.rows.as_slice(), cards);
    add_end(out, listed.has_end, cards.len());
    add_literals(out, listed.end_place, listed.literals.as_slice());
    add_symbols(
        out,
        listed.symbols.as_slice(),
        listed.definitions.as_slice(),
        listed.uses.as_slice(),
    );
    out.end_line();
    add_figures(out, listed);
}
