//! The text that answers cards.
ghost use Rattle.std.specs.Prelude.{◌≡◌, ◌≤◌, ◌<◌, ◌-◌, ◌^◌, IfOk, length};
ghost use Rattle.std.specs.Str.Lines.{lines};
ghost use Rattle.fap_assemble.specs.Steps.{texts};
ghost use Rattle.fap_listing.specs.Cards.{made_of};
ghost use Rattle.run_listing.specs.Answer.{Lists, Traces, no_line_text};
ghost use Rattle.fap_model.specs.Listed.{listed as listed_of};
ghost use Rattle.run_listing.specs.Texts.{IsAsked, IsTraceOf};
ghost use Rattle.text_writer.specs.Writing.{Adds};

use ctss_io::Sink;
use ctss_types::NoMemory;
use fap_listing::{ListedCards, Made, fault_count, list_cards};
use fap_model::Listed;
use fap_read::{Cards, cards_of_text};
use program_trace::{ProgramFault, Trace, TraceText, program_of, trace};
use std::alloc::Global;
use text_writer::columns::add_number;
use text_writer::{Text, TextWriter};

/// A text that answers cards.
#[derive(Drop)]
pub(crate) enum AnswerText {
    Listing(ListedCards),
    Traced(Listed, Trace),
    /// The card of this number is no line that the program can read.
    NoLine(u64),
    /// The cards are a module's, which isn't run alone.
    Module,
}

/// Adds that a card behind END can't be read by the program.
fn add_no_line<K: Sink>(out: &mut TextWriter<'_, K>, card: u64)
    ensures { Adds K.Sink (no_line_text card) out.old out.new }
{
    out.add(b"CARD ");
    add_number(out, card);
    out.add(
        b": A LINE FOR THE PROGRAM HAS AT MOST 84 CHARACTERS, NONE BUT THE 48, AND THERE ARE AT MOST 2047",
    );
    out.end_line();
}

impl Text for AnswerText {
    ghost use Rattle.run_listing.specs.Texts.{text_bytes};

    ghost bytes = { text_bytes };

    fn add_to<K: Sink>(&self, out: &mut TextWriter<'_, K>) {
        match self {
            AnswerText::Listing(listed) => listed.add_to(out),
            AnswerText::Traced(listed, trace) => {
                let text = TraceText {
                    rows: listed.rows.as_slice(),
                    symbols: listed.symbols.as_slice(),
                    trace,
                };
                text.add_to(out);
            }
            AnswerText::NoLine(card) => add_no_line(out, *card),
            AnswerText::Module => out.line(
                b"THE CARDS ARE A MODULE'S, WHICH IS LINKED BEFORE IT RUNS",
            ),
        }
    }
}

/// A text, and the status that it is written with.
#[derive(Drop)]
pub(crate) struct Answer {
    pub(crate) text: AnswerText,
    pub(crate) status: u8,
}

/// The cards of a text, a line each, and what they come to.
fn listed(alloc: Global, bytes: &[u8]) -> Result<ListedCards, NoMemory>
    requires { length bytes.now ≤ 4194304 }
    ensures cards { IfOk result (λ l. texts l.cards ≡ lines bytes.now) }
    ensures made { IfOk result (λ l. l.made ≡ made_of (lines bytes.now)) }
    ensures few { IfOk result (λ l. length l.cards < 2 ^ 32 - 1) }
{
    let cards = cards_of_text(alloc, bytes)?;
    list_cards(alloc, cards)
}

/// The listing of the cards of a text.
pub(crate) fn listing(alloc: Global, bytes: &[u8]) -> Result<Answer, NoMemory>
    requires { length bytes.now ≤ 4194304 }
    ensures { IfOk result (IsAsked Lists bytes.now) }
{
    let listed = listed(alloc, bytes)?;
    let status = if fault_count(&listed.made) == 0 { 0 } else { 9 };
    Ok(Answer {
        text: AnswerText::Listing(listed),
        status,
    })
}

/// The text and the status 9, which says that there is no trace.
fn refusal(text: AnswerText) -> Answer
    ensures { result ≡ record { text = text; status = 9 } }
{
    Answer { text, status: 9 }
}

/// The trace of the program that cards make which come to this, of at most so many steps.
fn deck_traced(alloc: Global, most: u32, cards: Cards, listed: Listed) -> Result<Answer, NoMemory>
    requires few { length cards < 2 ^ 32 - 1 }
    requires listed { listed ≡ listed_of (texts cards) }
    ensures { IfOk result (IsTraceOf most (texts cards)) }
{
    match program_of(alloc, cards.as_slice(), &listed)? {
        Ok(program) => {
            let trace = trace(
                alloc,
                program.deck.as_slice(),
                program.lines.as_slice(),
                most,
            )?;
            Ok(Answer {
                text: AnswerText::Traced(listed, trace),
                status: 0,
            })
        }
        Err(ProgramFault::Cards) => {
            let made = Made::Deck(listed);
            Ok(refusal(AnswerText::Listing(ListedCards { cards, made })))
        }
        Err(ProgramFault::Line(card)) => Ok(refusal(AnswerText::NoLine(card))),
    }
}

/// The trace of the program that the cards of a text make, of at most so many steps.
pub(crate) fn traced(alloc: Global, most: u32, bytes: &[u8]) -> Result<Answer, NoMemory>
    requires { length bytes.now ≤ 4194304 }
    ensures { IfOk result (IsAsked (Traces most) bytes.now) }
{
    let ListedCards { cards, made } = listed(alloc, bytes)?;
    match made {
        Made::Deck(listed) => deck_traced(alloc, most, cards, listed),
        Made::Module(_) => Ok(refusal(AnswerText::Module)),
    }
}
