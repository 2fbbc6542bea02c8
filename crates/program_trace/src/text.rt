//! The text of a trace.
ghost use Rattle.std.specs.Prelude.{◌≡◌, ◌≤◌, ◌<◌, ◌+◌, ◌^◌, length};
ghost use Rattle.std.specs.List.{flat_map};
ghost use Rattle.program_trace.specs.Texts.{card_at, card_text, covers, end_line, end_place, end_text, item_line, last_place, place_text, step_line, step_text, steps_text, symbol_text, trace_text};
ghost use Rattle.text_writer.specs.Writing.{Adds};

use crate::changes::add_changes;
use crate::instruction::{add_word_column, symbol_with};
use crate::types::{Trace, TraceEnd, TracedStep};
use ctss_io::Sink;
use ctss_types::{Item, name_text};
use fap_listing::word::add_gap;
use fap_model::{CardRow, SymbolValue};
use text_writer::cards::add_digits;
use text_writer::columns::{add_column, add_number};
use text_writer::{Text, TextWriter};

/// Adds a line that was read or written; a program quits and hangs nowhere.
#[tactic(auto, using(text_writer::proofs::Added::adds_none))]
fn add_item<K: Sink>(out: &mut TextWriter<'_, K>, item: &Item)
    ensures { Adds K.Sink (item_line item.now) out.old out.new }
{
    match item {
        Item::In(line) => {
            add_gap(out, 32);
            out.add(b"READ   ");
            out.line(line.as_slice());
        }
        Item::Out(line) => {
            add_gap(out, 32);
            out.add(b"WROTE  ");
            out.line(line.as_slice());
        }
        Item::Quit | Item::Hang => {}
    }
}

/// Adds lines that were read and written.
fn add_items<K: Sink>(out: &mut TextWriter<'_, K>, items: &[Item])
    ensures { Adds K.Sink (flat_map item_line items.now) out.old out.new }
{
    for item in items {
        add_item(out, item);
    }
}

/// Adds the line of a step.
fn add_step_line<K: Sink>(
    out: &mut TextWriter<'_, K>,
    symbols: &[SymbolValue],
    number: u64,
    step: &TracedStep,
)
    ensures { Adds K.Sink (step_line symbols.now number step.now) out.old out.new }
{
    add_column(out, 6, number);
    add_gap(out, 2);
    add_digits(out, 5, u64::from(step.place));
    add_gap(out, 2);
    add_word_column(out, symbols, step.word);
    add_changes(out, &step.before, &step.after);
    out.end_line();
}

/// Adds a step.
fn add_step<K: Sink>(
    out: &mut TextWriter<'_, K>,
    symbols: &[SymbolValue],
    number: u64,
    step: &TracedStep,
)
    ensures { Adds K.Sink (step_text symbols.now number step.now) out.old out.new }
{
    add_step_line(out, symbols, number, step);
    add_items(out, step.items.as_slice());
}

/// Adds steps.
fn add_steps<K: Sink>(out: &mut TextWriter<'_, K>, symbols: &[SymbolValue], steps: &[TracedStep])
    ensures { Adds K.Sink (steps_text symbols.now 1 steps.now) out.old out.new }
{
    let mut number = 1;
    for step in steps {
        add_step(out, symbols, number, step);
        number += 1;
    }
}

/// Whether a card has a word at a place.
fn covers(row: &CardRow, place: u16) -> bool
    ensures { result ≡ covers place row.now }
{
    let place = u64::from(place);
    row.place <= place && place - row.place < row.words.len() as u64
}

/// The number of the first card that has a word at a place.
fn card_at(rows: &[CardRow], place: u16) -> Option<u64>
    ensures { result ≡ card_at place rows.now }
{
    let index = rows.iter().position(|row| covers(row, place))?;
    Some(index as u64 + 1)
}

/// Adds a card's number, if there is one.
#[tactic(auto, using(text_writer::proofs::Added::adds_none))]
fn add_card<K: Sink>(out: &mut TextWriter<'_, K>, card: Option<u64>)
    ensures { Adds K.Sink (card_text card) out.old out.new }
{
    if let Some(number) = card {
        out.add(b", CARD ");
        add_number(out, number);
    }
}

/// Adds a symbol, if there is one.
#[tactic(auto, using(text_writer::proofs::Added::adds_none))]
fn add_symbol<K: Sink>(out: &mut TextWriter<'_, K>, symbol: Option<SymbolValue>)
    ensures { Adds K.Sink (symbol_text symbol) out.old out.new }
{
    if let Some(symbol) = symbol {
        out.add(b", ");
        out.add(name_text(symbol.name).as_slice());
    }
}

/// Adds a place with its card and its symbol.
fn add_place<K: Sink>(
    out: &mut TextWriter<'_, K>,
    rows: &[CardRow],
    symbols: &[SymbolValue],
    place: u16,
)
    ensures { Adds K.Sink (place_text rows.now symbols.now place) out.old out.new }
{
    add_digits(out, 5, u64::from(place));
    add_card(out, card_at(rows, place));
    add_symbol(out, symbol_with(symbols, place));
}

/// The place of the last step, or where the program begins.
fn last_place(place: u16, steps: &[TracedStep]) -> u16
    ensures { result ≡ last_place place steps.now }
{
    match steps.last() {
        Some(step) => step.place,
        None => place,
    }
}

/// How a trace ends.
fn end_text(end: TraceEnd) -> &'static [u8]
    ensures { result.now ≡ end_text end }
{
    match end {
        TraceEnd::Stopped => b"STOPPED AT ",
        TraceEnd::Waits => b"WAITS FOR A LINE AT ",
        TraceEnd::Unfinished => b"GOES ON AT ",
    }
}

/// Where a trace ends.
fn end_place(trace: &Trace) -> u16
    ensures { result ≡ end_place trace.now.end trace.now }
{
    match trace.end {
        TraceEnd::Stopped => last_place(trace.place, trace.steps.as_slice()),
        TraceEnd::Waits | TraceEnd::Unfinished => trace.place,
    }
}

/// Adds how a trace ends.
fn add_end<K: Sink>(
    out: &mut TextWriter<'_, K>,
    rows: &[CardRow],
    symbols: &[SymbolValue],
    trace: &Trace,
)
    ensures { Adds K.Sink (end_line rows.now symbols.now trace.now) out.old out.new }
{
    add_number(out, trace.steps.len());
    out.add(b" STEPS, ");
    out.add(end_text(trace.end));
    add_place(out, rows, symbols, end_place(trace));
    out.end_line();
}

/// The trace of a program whose cards come to these rows and symbols.
#[derive(Clone, Copy)]
pub struct TraceText<'a> {
    pub rows: &'a [CardRow],
    pub symbols: &'a [SymbolValue],
    pub trace: &'a Trace,
}

impl Text for TraceText<'_> {
    ghost use Rattle.program_trace.specs.Texts.{trace_text};

    ghost bytes = { λ t. trace_text t.rows.now t.symbols.now t.trace.now };

    fn add_to<K: Sink>(&self, out: &mut TextWriter<'_, K>) {
        out.line(
            b"  STEP  PLACE  WORD             OPERATION             READ, WRITTEN AND CHANGED",
        );
        add_steps(out, self.symbols, self.trace.steps.as_slice());
        out.end_line();
        add_end(out, self.rows, self.symbols, self.trace);
    }
}
