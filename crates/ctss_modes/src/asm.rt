//! Assembly: cards are read, and their deck or their faults are written.
ghost use Rattle.std.specs.Prelude.{◌≤◌, length};
ghost use Rattle.fap_assemble.specs.Answers.{IsAssembled};
ghost use Rattle.fap_assemble.specs.Follows.{numbered};
ghost use Rattle.text_model.specs.Canonical.{word_cards};
ghost use Rattle.text_model.specs.Words.{faults_text};
ghost use Rattle.console_link.specs.Links.{LinkSeen};
ghost use Rattle.live_run.specs.Media.{MediaSeen};
ghost use Rattle.ctss_modes.specs.Devices.{input_seen, output_seen, devices};
ghost use Rattle.ctss_modes.specs.Asm.{assembled_from};
ghost use Rattle.ctss_modes.specs.Statuses.{WritesText, WritesCards, Assembles};

use crate::assembly_text::{DeckText, FaultsText};
use crate::outcome::Outcome;
use crate::write::end_unread;
use ctss_io::{Sink, Source, read_bytes};
use fap_assemble::{AsmFault, CardFault, Deck, assemble};
use fap_read::cards_of_text;
use std::alloc::Global;
use text_writer::{TextFault, write_text};
use word36::Word;

/// What the cards of a text make.
fn assemble_text(alloc: Global, bytes: &[u8]) -> Result<Deck, AsmFault>
    requires { length bytes.now ≤ 4194304 }
    ensures { IsAssembled result (assembled_from bytes.now) }
{
    let cards = cards_of_text(alloc, bytes)?;
    assemble(alloc, cards.as_slice())
}

/// Writes a deck.
fn write_deck<K: Sink>(alloc: Global, words: &[Word], sink: &mut K) -> Outcome
    ensures { WritesText 0 (word_cards words.now) (output_seen K.Sink sink.old) (output_seen K.Sink sink.new) result }
{
    match write_text(alloc, sink, &DeckText { words }) {
        Ok(()) => Outcome::bare(alloc, 0, 0, 0),
        Err(TextFault::Write) => Outcome::bare(alloc, 4, 0, 0),
        Err(TextFault::NoMemory) => Outcome::bare(alloc, 8, 0, 0),
    }
}

/// Writes faults.
fn write_faults<K: Sink>(alloc: Global, faults: &[CardFault], sink: &mut K) -> Outcome
    ensures { WritesText 9 (faults_text (numbered faults.now))
        (output_seen K.Sink sink.old) (output_seen K.Sink sink.new) result }
{
    match write_text(alloc, sink, &FaultsText { faults }) {
        Ok(()) => Outcome::bare(alloc, 9, 0, 0),
        Err(TextFault::Write) => Outcome::bare(alloc, 4, 0, 0),
        Err(TextFault::NoMemory) => Outcome::bare(alloc, 8, 0, 0),
    }
}

/// Assembles the cards of a text, and writes what they make.
fn write_assembled<K: Sink>(alloc: Global, bytes: &[u8], sink: &mut K) -> Outcome
    requires { length bytes.now ≤ 4194304 }
    ensures { WritesCards bytes.now (output_seen K.Sink sink.old) (output_seen K.Sink sink.new) result }
{
    match assemble_text(alloc, bytes) {
        Ok(deck) => write_deck(alloc, deck.words.as_slice(), sink),
        Err(AsmFault::Faults(faults)) => write_faults(alloc, faults.as_slice(), sink),
        Err(AsmFault::NoMemory) => Outcome::bare(alloc, 8, 0, 0),
    }
}

/// Cards are read, assembled, and their deck or their faults are written.
pub(crate) fn asm<S: Source, K: Sink>(alloc: Global, cards: &mut S, sink: &mut K) -> Outcome
    ensures { (media : MediaSeen) (link : LinkSeen) → Assembles
        (devices (input_seen S.Source cards.old) (output_seen K.Sink sink.old) media link)
        (devices (input_seen S.Source cards.new) (output_seen K.Sink sink.new) media link) result }
{
    match read_bytes(alloc, cards) {
        Ok(bytes) => write_assembled(alloc, &bytes, sink),
        Err(end) => end_unread(alloc, sink, end),
    }
}
