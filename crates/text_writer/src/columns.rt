//! Texts and numbers in columns.
ghost use Rattle.std.specs.Prelude.{◌≤◌, replicate};
ghost use Rattle.bcd48.specs.Words.{characters_of};
ghost use Rattle.text_model.specs.Parts.{in_places};
ghost use Rattle.text_writer.specs.Writing.{Adds};

use crate::TextWriter;
use bcd48::text6;
use ctss_io::Sink;
use itoa::{Buffer, Integer};
use word36::Word;

/// The most places that a column has.
const MOST_PLACES: usize = 10;

/// Adds so many blanks, at most a column's.
pub fn add_blanks<K: Sink>(out: &mut TextWriter<'_, K>, count: usize)
    requires { count ≤ 10 }
    ensures { Adds K.Sink (replicate count 32) out.old out.new }
{
    let blanks = [b' '; MOST_PLACES];
    out.add(blanks.split_at(count).0);
}

/// Adds a text right in at most 10 places; a longer one stands whole.
pub fn add_in_places<K: Sink>(out: &mut TextWriter<'_, K>, places: usize, text: &[u8])
    requires { places ≤ 10 }
    ensures { Adds K.Sink (in_places places text.now) out.old out.new }
{
    add_blanks(out, places.saturating_sub(text.len()));
    out.add(text);
}

/// Adds a number right in at most 10 places; a longer one stands whole.
pub fn add_column<K: Sink, I: Integer>(out: &mut TextWriter<'_, K>, places: usize, n: I)
    requires { places ≤ 10 }
    ensures { Adds K.Sink (in_places places (I.text n)) out.old out.new }
{
    let mut digits = Buffer::new();
    add_in_places(out, places, digits.format(n).as_bytes());
}

/// Adds a number, and no blank.
pub fn add_number<K: Sink, I: Integer>(out: &mut TextWriter<'_, K>, n: I)
    ensures { Adds K.Sink (I.text n) out.old out.new }
{
    let mut digits = Buffer::new();
    out.add(digits.format(n).as_bytes());
}

/// Adds the six characters of a word, the blanks behind a name included.
pub fn add_characters<K: Sink>(out: &mut TextWriter<'_, K>, word: Word)
    ensures { Adds K.Sink (characters_of word) out.old out.new }
{
    out.add(&text6(word.bits()));
}
