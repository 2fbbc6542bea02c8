//! The words of a line.
ghost use Rattle.std.specs.Prelude.{◌≡◌, ◌<◌, ◌≤◌, [], length, get_or};
ghost use Rattle.ctss_types.specs.Words.{words_of};

use ctss_types::{LineText, first_word};
use std::marker::Model;

/// The words of one line: what stands between blanks. Contracts see the list of them.
#[derive(Drop)]
pub struct Words {
    line: LineText,
}

impl Model for Words {
    ghost use Rattle.std.specs.Prelude.{List, ℕ};
    ghost use Rattle.ctss_types.specs.Words.{words_of};

    ghost Value = { List (List ℕ) };

    ghost view = { λ w. words_of w.line };
}

/// The words of a line, at most 42.
pub fn split(line: &LineText) -> Words
    ensures { result ≡ words_of line.now }
{
    Words { line: *line }
}

/// How many words a text has.
fn count_words(text: &[u8]) -> u8
    requires { length (words_of text.now) ≤ 42 }
    ensures { result ≡ length (words_of text.now) }
{
    let (word, rest) = first_word(text);
    if word.is_empty() {
        return 0;
    }
    1 + count_words(rest)
}

/// A word of a text, counted from 0; empty where there are fewer.
fn word_at(text: &[u8], place: u8) -> &[u8]
    ensures { result.now ≡ get_or (words_of text.now) place [] }
{
    let (word, rest) = first_word(text);
    if word.is_empty() || place == 0 {
        return word;
    }
    word_at(rest, place - 1)
}

impl Words {
    /// How many there are.
    #[tactic(auto, using(crate::proofs::Counts::few_words))]
    pub fn len(&self) -> u8
        ensures value { result ≡ length self.now }
        ensures few { result ≤ 42 }
    {
        count_words(self.line.as_slice())
    }

    /// One of them, counted from 0; empty where there are fewer.
    pub fn word(&self, place: u8) -> &[u8]
        ensures { result.now ≡ get_or self.now place [] }
    {
        word_at(self.line.as_slice(), place)
    }
}
