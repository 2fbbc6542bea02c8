//! Places and words of cards, and words split by their fields.
ghost use Rattle.std.specs.Prelude.{◌≡◌, ◌≤◌};
ghost use Rattle.fap_listing.specs.Words.{blanks, class_split, first_word, has_place, next_place, place_text, split_of, word_gap, word_line, word_lines, word_text};
ghost use Rattle.text_writer.specs.Writing.{Adds};

use ctss_io::Sink;
use fap_model::Operation;
use opcode_table::{Class, class};
use text_writer::TextWriter;
use text_writer::cards::add_digits;
use word36::Word;

/// The most blanks that are added at once.
const MOST_BLANKS: usize = 284;

/// How a word is split where it is shown.
#[derive(Clone, Copy)]
pub enum Split {
    /// Into prefix, decrement, tag and address.
    Prefixed,
    /// Into operation, tag and address.
    Addressed,
    /// Not at all.
    Data,
}

/// Adds so many blanks.
pub fn add_gap<K: Sink>(out: &mut TextWriter<'_, K>, count: u16)
    requires { count ≤ 284 }
    ensures { Adds K.Sink (blanks count) out.old out.new }
{
    let blanks = [b' '; MOST_BLANKS];
    out.add(blanks.split_at(usize::from(count)).0);
}

/// How the word of an instruction is split.
pub fn class_split(class: Class) -> Split
    ensures { result ≡ class_split class }
{
    match class {
        Class::Prefixed => Split::Prefixed,
        _ => Split::Addressed,
    }
}

/// How the word of an operation is split.
pub(crate) fn split_of(op: Option<Operation>) -> Split
    ensures { result ≡ split_of op }
{
    match op {
        Some(Operation::Machine(op)) => class_split(class(op)),
        Some(Operation::Pze) => Split::Prefixed,
        _ => Split::Data,
    }
}

/// Adds a word.
pub fn add_word<K: Sink>(out: &mut TextWriter<'_, K>, split: Split, word: Word)
    ensures { Adds K.Sink (word_text split word) out.old out.new }
{
    let bits = word.bits();
    match split {
        Split::Prefixed => {
            add_digits(out, 1, bits / 0o100000000000);
            add_gap(out, 1);
            add_digits(out, 5, bits / 0o1000000);
            add_gap(out, 1);
            add_digits(out, 1, bits / 0o100000);
            add_gap(out, 1);
            add_digits(out, 5, bits);
        }
        Split::Addressed => {
            add_digits(out, 5, bits / 0o10000000);
            add_gap(out, 1);
            add_digits(out, 2, bits / 0o100000);
            add_gap(out, 1);
            add_digits(out, 5, bits);
        }
        Split::Data => add_digits(out, 12, bits),
    }
}

/// How many blanks fill a word's text up to 15 places.
pub fn gap(split: Split) -> u16
    ensures value { blanks result ≡ word_gap split }
    ensures few { result ≤ 3 }
{
    match split {
        Split::Prefixed => 0,
        Split::Addressed => 1,
        Split::Data => 3,
    }
}

/// Adds the first word in 15 places.
pub(crate) fn add_first_word<K: Sink>(out: &mut TextWriter<'_, K>, split: Split, words: &[Word])
    ensures { Adds K.Sink (first_word split words.now) out.old out.new }
{
    match words {
        [] => add_gap(out, 15),
        [word, ..] => {
            add_word(out, split, *word);
            add_gap(out, gap(split));
        }
    }
}

/// Adds a line with a word at a place.
fn add_word_line<K: Sink>(out: &mut TextWriter<'_, K>, split: Split, place: u64, word: Word)
    ensures { Adds K.Sink (word_line split place word) out.old out.new }
{
    add_gap(out, 6);
    add_digits(out, 5, place);
    add_gap(out, 2);
    add_word(out, split, word);
    out.end_line();
}

/// The place behind one, as an address.
pub(crate) fn next_place(place: u64) -> u64
    ensures { result ≡ next_place place }
{
    (place % 32768 + 1) % 32768
}

/// Adds a line each of words at successive places.
pub(crate) fn add_word_lines<K: Sink>(
    out: &mut TextWriter<'_, K>,
    split: Split,
    place: u64,
    words: &[Word],
)
    ensures { Adds K.Sink (word_lines split place words.now) out.old out.new }
{
    let mut place = place;
    for word in words {
        add_word_line(out, split, place, *word);
        place = next_place(place);
    }
}

/// Whether a card of an operation has a place.
fn has_place(op: Option<Operation>) -> bool
    ensures { result ≡ has_place op }
{
    match op {
        None | Some(Operation::Org | Operation::Equ) => false,
        Some(_) => true,
    }
}

/// Adds the place of a card, where it has one.
pub(crate) fn add_place<K: Sink>(out: &mut TextWriter<'_, K>, op: Option<Operation>, place: u64)
    ensures { Adds K.Sink (place_text op place) out.old out.new }
{
    if has_place(op) {
        add_digits(out, 5, place);
    } else {
        add_gap(out, 5);
    }
}
