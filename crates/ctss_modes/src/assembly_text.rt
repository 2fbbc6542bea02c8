//! The text of an assembly: a deck as O cards, or a line for each card at fault.
ghost use Rattle.std.specs.List.{flat_map};
ghost use Rattle.text_writer.specs.Writing.{Adds};
ghost use Rattle.ctss_modes.specs.Faults.{line_of_fault};

use ctss_io::Sink;
use fap_assemble::CardFault;
use text_writer::cards::add_word_cards;
use text_writer::{Text, TextWriter};
use word36::Word;

/// A deck as O cards.
#[derive(Clone, Copy)]
pub struct DeckText<'a> {
    pub words: &'a [Word],
}

impl Text for DeckText<'_> {
    ghost use Rattle.text_model.specs.Canonical.{word_cards};

    ghost bytes = { λ t. word_cards t.words.now };

    fn add_to<K: Sink>(&self, out: &mut TextWriter<'_, K>) {
        add_word_cards(out, self.words);
    }
}

/// Adds the line of a card at fault.
fn add_fault<K: Sink>(out: &mut TextWriter<'_, K>, fault: &CardFault)
    ensures { Adds K.Sink (line_of_fault fault.now) out.old out.new }
{
    out.add(b"CARD");
    out.number(fault.card);
    out.blank(b"FAULT");
    out.number(fault.number);
    out.end_line();
}

/// Adds the lines of cards at fault.
fn add_faults<K: Sink>(out: &mut TextWriter<'_, K>, faults: &[CardFault])
    ensures { Adds K.Sink (flat_map line_of_fault faults.now) out.old out.new }
{
    for fault in faults {
        add_fault(out, fault);
    }
}

/// A line for each card at fault.
#[derive(Clone, Copy)]
pub struct FaultsText<'a> {
    pub faults: &'a [CardFault],
}

impl Text for FaultsText<'_> {
    ghost use Rattle.fap_assemble.specs.Follows.{numbered};
    ghost use Rattle.text_model.specs.Words.{faults_text};

    ghost bytes = { λ t. faults_text (numbered t.faults.now) };

    fn add_to<K: Sink>(&self, out: &mut TextWriter<'_, K>) {
        add_faults(out, self.faults);
    }
}
