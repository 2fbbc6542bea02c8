//! The symbols of a program, and the cards that mention them.
ghost use Rattle.std.specs.Prelude.{◌≡◌};
ghost use Rattle.std.specs.List.{flat_map};
ghost use Rattle.fap_listing.specs.Listing.{literals_text, mention_number, mention_numbers, symbol_line, symbols_text};
ghost use Rattle.text_writer.specs.Writing.{Adds};

use crate::word::{Split, add_gap, add_word_lines};
use ctss_io::Sink;
use fap_model::{Mention, SymbolValue};
use text_writer::TextWriter;
use text_writer::cards::add_digits;
use text_writer::columns::add_characters;
use word36::Word;

/// Adds the number of a card that mentions a symbol, if it does.
#[tactic(auto, using(text_writer::proofs::Added::adds_none))]
fn add_mention<K: Sink>(out: &mut TextWriter<'_, K>, name: Word, mention: &Mention)
    ensures { Adds K.Sink (mention_number name mention.now) out.old out.new }
{
    if mention.name == name {
        out.number(mention.card);
    }
}

/// Adds the numbers of the cards that mention a symbol.
fn add_mentions<K: Sink>(out: &mut TextWriter<'_, K>, name: Word, mentions: &[Mention])
    ensures { Adds K.Sink (flat_map (mention_number name) mentions.now) out.old out.new }
{
    for mention in mentions {
        add_mention(out, name, mention);
    }
}

/// Adds a symbol with its value and its cards.
fn add_symbol<K: Sink>(
    out: &mut TextWriter<'_, K>,
    definitions: &[Mention],
    uses: &[Mention],
    symbol: &SymbolValue,
)
    ensures { Adds K.Sink (symbol_line definitions.now uses.now symbol.now) out.old out.new }
{
    add_characters(out, symbol.name);
    add_gap(out, 2);
    add_digits(out, 5, u64::from(symbol.value));
    out.add(b"  CARD");
    add_mentions(out, symbol.name, definitions);
    out.add(b"  USED BY");
    add_mentions(out, symbol.name, uses);
    out.end_line();
}

/// Adds symbols.
fn add_all<K: Sink>(
    out: &mut TextWriter<'_, K>,
    symbols: &[SymbolValue],
    definitions: &[Mention],
    uses: &[Mention],
)
    ensures { Adds K.Sink (flat_map (symbol_line definitions.now uses.now) symbols.now) out.old out.new }
{
    for symbol in symbols {
        add_symbol(out, definitions, uses, symbol);
    }
}

/// Adds the table of symbols, if there are any.
#[tactic(auto, using(text_writer::proofs::Added::adds_none))]
pub(crate) fn add_symbols<K: Sink>(
    out: &mut TextWriter<'_, K>,
    symbols: &[SymbolValue],
    definitions: &[Mention],
    uses: &[Mention],
)
    ensures { Adds K.Sink (symbols_text symbols.now definitions.now uses.now) out.old out.new }
{
    if let [_, ..] = symbols {
        out.end_line();
        out.line(b"SYMBOL  VALUE");
        add_all(out, symbols, definitions, uses);
    }
}

/// Adds the literals with their places, if there are any.
#[tactic(auto, using(text_writer::proofs::Added::adds_none))]
pub(crate) fn add_literals<K: Sink>(out: &mut TextWriter<'_, K>, place: u64, literals: &[Word])
    ensures { Adds K.Sink (literals_text place literals.now) out.old out.new }
{
    if let [_, ..] = literals {
        add_gap(out, 30);
        out.line(b"LITERALS");
        add_word_lines(out, Split::Data, place, literals);
    }
}
