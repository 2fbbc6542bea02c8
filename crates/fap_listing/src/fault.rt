//! Cards at fault, and what stands on a card and isn't read.
ghost use Rattle.std.specs.Prelude.{◌≡◌, ◌≤◌, ◌+◌, drop, length};
ghost use Rattle.std.specs.List.{list_all, prefix_len};
ghost use Rattle.fap_model.specs.declared.types.FaultCause.TheVariants.{Undefined};
ghost use Rattle.fap_listing.specs.Faults.{at_column, dark_column, early_column, fault_lines, field_wanted, form_wanted, is_blank, is_early, is_numbered, is_numeral, late_column, look_lines, looks, mark, part, wanted};
ghost use Rattle.text_writer.specs.Writing.{Adds};

use crate::word::add_gap;
use ctss_io::Sink;
use fap_model::{FaultCause, Form, Operation};
use fap_read::{form, is_comment, operation_columns};
use text_writer::TextWriter;
use text_writer::columns::add_number;

/// What a form wants.
fn form_wanted(form: Form) -> &'static [u8]
    ensures { result.now ≡ form_wanted form }
{
    match form {
        Form::Parts(2) => {
            b"WANTED: ADDRESS,TAG, EACH AN EXPRESSION; THE ADDRESS MAY BE A LITERAL, WHICH BEGINS WITH ="
        }
        Form::Parts(_) => {
            b"WANTED: ADDRESS,TAG,DECREMENT, EACH AN EXPRESSION; NONE BEGINS WITH A SIGN, AND 32767 STANDS FOR -1"
        }
        Form::OctalHalf => b"WANTED: AT MOST SIX OCTAL DIGITS",
        Form::Empty => b"WANTED: NO FIELD",
        Form::OneValue => b"WANTED: ONE EXPRESSION",
        Form::Decimals => {
            b"WANTED: DECIMAL NUMBERS BELOW 34359738368, WITH A SIGN OR NONE, BY COMMAS"
        }
        Form::Octals => b"WANTED: AT MOST TWELVE OCTAL DIGITS EACH, BY COMMAS",
        Form::Characters => b"WANTED: A DIGIT FROM 1 TO 9, A COMMA, AND SIX CHARACTERS A WORD",
    }
}

/// What the field of an operation wants.
fn field_wanted(op: Option<Operation>) -> &'static [u8]
    ensures { result.now ≡ field_wanted op }
{
    match op {
        Some(op) => form_wanted(form(op)),
        None => b"",
    }
}

/// Whether a field may use the symbols of earlier cards alone.
fn is_early(op: Option<Operation>) -> bool
    ensures { result ≡ is_early op }
{
    matches!(op, Some(Operation::Org | Operation::Bss | Operation::Equ))
}

/// What symbols a field may use.
fn symbol_wanted(op: Option<Operation>) -> &'static [u8]
    ensures { result.now ≡ wanted op Undefined }
{
    if is_early(op) {
        b"NO EARLIER CARD HAS THIS SYMBOL"
    } else {
        b"NO CARD HAS THIS SYMBOL"
    }
}

/// What is wrong, or what was wanted.
fn wanted(op: Option<Operation>, cause: FaultCause) -> &'static [u8]
    ensures { result.now ≡ wanted op cause }
{
    match cause {
        FaultCause::NoOperation => b"NO OPERATION HAS THIS NAME; AN OPERATION BEGINS AT COLUMN 8",
        FaultCause::Characters => b"A CARD HAS AT MOST 84 CHARACTERS, AND NONE BUT THE 48",
        FaultCause::BadSymbol => {
            b"A SYMBOL HAS AT MOST SIX LETTERS, DIGITS AND POINTS, AND NOT DIGITS ALONE"
        }
        FaultCause::Flag => b"THIS OPERATION TAKES NO FLAG",
        FaultCause::NoSymbol => b"EQU WANTS A SYMBOL AT COLUMN 1",
        FaultCause::BadForm => field_wanted(op),
        FaultCause::HighTag => b"A TAG IS AT MOST 7",
        FaultCause::Start => b"THE START LIES OUTSIDE THE BLOCKS OF THE PROGRAM",
        FaultCause::Undefined => symbol_wanted(op),
        FaultCause::Repeated => b"AN EARLIER CARD HAS THIS SYMBOL",
        FaultCause::PastEnd => b"THE WORDS PASS THE LAST PLACE, 77777",
    }
}

/// Adds a mark below a column.
fn add_mark<K: Sink>(out: &mut TextWriter<'_, K>, column: u8)
    ensures { Adds K.Sink (mark column) out.old out.new }
{
    add_gap(out, 29 + u16::from(column));
    out.add(b"^");
    out.end_line();
}

/// Adds at which column something stands, and a text.
fn add_at_column<K: Sink>(out: &mut TextWriter<'_, K>, column: u8, text: &[u8])
    ensures { Adds K.Sink (at_column column text.now) out.old out.new }
{
    out.add(b" AT COLUMN ");
    add_number(out, column);
    out.add(b": ");
    out.add(text);
}

/// Adds the lines of a fault, if there is one.
#[tactic(auto, using(text_writer::proofs::Added::adds_none))]
pub(crate) fn add_fault<K: Sink>(
    out: &mut TextWriter<'_, K>,
    op: Option<Operation>,
    cause: Option<FaultCause>,
    column: u8,
)
    ensures { Adds K.Sink (fault_lines op cause column) out.old out.new }
{
    if let Some(cause) = cause {
        add_mark(out, column);
        add_gap(out, 30);
        out.add(b"FAULT ");
        add_number(out, cause.number());
        add_at_column(out, column, wanted(op, cause));
        out.end_line();
    }
}

/// How many blanks a text begins with.
fn blank_count(text: &[u8]) -> usize
    ensures value { result ≡ prefix_len is_blank text.now }
    ensures within { result ≤ length text.now }
{
    text.iter().take_while(|b| **b == b' ').count()
}

/// Whether all bytes of a text are blanks.
fn is_blank_text(text: &[u8]) -> bool
    ensures { result ≡ list_all is_blank text.now }
{
    text.iter().all(|b| *b == b' ')
}

/// The column of the first byte that is no blank, of a few from a column on; 0 where there is none.
fn dark_column(from: u8, text: &[u8]) -> u8
    requires from { from ≤ 73 }
    requires few { length text.now ≤ 12 }
    ensures { result ≡ dark_column from text.now }
{
    if is_blank_text(text) {
        0
    } else {
        from + blank_count(text) as u8
    }
}

/// A card's columns behind the first.
fn behind(text: &[u8], count: usize) -> &[u8]
    ensures { result.now ≡ drop count text.now }
{
    text.split_at(count.min(text.len())).1
}

/// So many of a card's columns behind others.
fn part(text: &[u8], before: usize, count: usize) -> &[u8]
    ensures value { result.now ≡ part before count text.now }
    ensures few { length result.now ≤ count }
{
    let rest = behind(text, before);
    rest.split_at(count.min(rest.len())).0
}

/// The column of what stands behind the operation and before the field.
fn early_column(text: &[u8]) -> u8
    ensures { result ≡ early_column text.now }
{
    let count = operation_columns(text).len();
    dark_column(8 + count as u8, part(text, 7 + count, 8 - count))
}

/// Whether a byte is a blank or a digit.
fn is_numeral(byte: u8) -> bool
    ensures { result ≡ is_numeral byte }
{
    byte == b' ' || b'0' <= byte && byte <= b'9'
}

/// Whether a text is a number, or blank.
fn is_number(text: &[u8]) -> bool
    ensures { result ≡ list_all is_numeral text.now }
{
    text.iter().all(|b| is_numeral(*b))
}

/// Whether nothing stands behind column 72 but the card's number.
fn is_numbered(text: &[u8]) -> bool
    ensures { result ≡ is_numbered text.now }
{
    is_number(behind(text, 72)) && is_blank_text(part(text, 71, 1))
}

/// The column of what stands behind column 72.
fn late_column(text: &[u8]) -> u8
    ensures { result ≡ late_column text.now }
{
    if is_numbered(text) {
        0
    } else {
        dark_column(73, part(text, 72, 12))
    }
}

/// Adds what is said of something that isn't read, if there is such.
#[tactic(auto, using(text_writer::proofs::Added::adds_none))]
fn add_look<K: Sink>(out: &mut TextWriter<'_, K>, column: u8, text: &[u8])
    ensures { Adds K.Sink (look_lines column text.now) out.old out.new }
{
    if column != 0 {
        add_mark(out, column);
        add_gap(out, 30);
        out.add(b"LOOK");
        add_at_column(out, column, text);
        out.end_line();
    }
}

/// Adds what is said of what stands on a card and isn't read.
#[tactic(auto, using(text_writer::proofs::Added::adds_none))]
pub(crate) fn add_looks<K: Sink>(out: &mut TextWriter<'_, K>, text: &[u8])
    ensures { Adds K.Sink (looks text.now) out.old out.new }
{
    if !is_comment(text) {
        let seventh = dark_column(7, part(text, 6, 1));
        add_look(
            out,
            seventh,
            b"COLUMN 7 ISN'T READ; A SYMBOL ENDS AT COLUMN 6",
        );
        let early = early_column(text);
        add_look(
            out,
            early,
            b"NOTHING IS READ HERE; THE FIELD BEGINS AT COLUMN 16",
        );
        add_look(out, late_column(text), b"NOTHING IS READ BEHIND COLUMN 72");
    }
}
