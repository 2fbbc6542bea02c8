//! Words of the machine as the cards of a text: each card is O and up to five words of twelve octal digits.
ghost use Rattle.std.specs.Prelude.{◌≡◌, ◌++◌, codes};
ghost use Rattle.std.specs.List.{flat_map};
ghost use Rattle.word36.specs.Octal.{octal_digits};
ghost use Rattle.text_model.specs.Canonical.{octal, word_cards};
ghost use Rattle.text_model.specs.Parts.{line};
ghost use Rattle.text_writer.specs.Writing.{Adds};

use crate::TextWriter;
use ctss_io::Sink;
use word36::Word;

/// The words of a card.
const WORDS: usize = 5;

/// Adds the last octal digits of a number, so many.
pub fn add_digits<K: Sink>(out: &mut TextWriter<'_, K>, count: u8, number: u64)
    ensures { Adds K.Sink (octal_digits count number) out.old out.new }
{
    if count > 0 {
        add_digits(out, count - 1, number / 8);
        out.add(&[b'0' + (number % 8) as u8]);
    }
}

/// Adds a word behind a blank.
fn add_word<K: Sink>(out: &mut TextWriter<'_, K>, word: Word)
    ensures { Adds K.Sink (octal word) out.old out.new }
{
    out.add(b" ");
    add_digits(out, 12, word.bits());
}

/// Adds words, each behind a blank.
fn add_words<K: Sink>(out: &mut TextWriter<'_, K>, words: &[Word])
    ensures { Adds K.Sink (flat_map octal words.now) out.old out.new }
{
    for word in words {
        add_word(out, *word);
    }
}

/// Adds the card of a few words.
fn add_card<K: Sink>(out: &mut TextWriter<'_, K>, words: &[Word])
    ensures { Adds K.Sink (line (codes "O" ++ flat_map octal words.now)) out.old out.new }
{
    out.add(b"O");
    add_words(out, words);
    out.end_line();
}

/// Adds the cards of words, five a card; the last card has what is left.
pub fn add_word_cards<K: Sink>(out: &mut TextWriter<'_, K>, words: &[Word])
    ensures { Adds K.Sink (word_cards words.now) out.old out.new }
{
    let mut rest = words;
    'cards: while !rest.is_empty() {
        let (card, more) = rest.split_at(rest.len().min(WORDS));
        add_card(out, card);
        rest = more;
    }
}
