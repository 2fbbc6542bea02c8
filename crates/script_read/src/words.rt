ghost use Rattle.std.specs.Prelude.{◌≡◌, ◌≤◌, ◌++◌, Ok, OnOk, length, take, drop};
ghost use Rattle.program_model.specs.Lines.{words_of_line};
ghost use Rattle.text_model.specs.Cards.{words_card_in};
ghost use Rattle.text_model.specs.Drafts.{by_form};
ghost use Rattle.script_read.specs.Drafts.{Enters};

use crate::draft::CardFault;
use crate::field::is_over;
use ctss_types::{LineText, NoMemory, WordList, first_word, name_word};
use text_model::ScriptCause;
use text_model::fields::octal;

/// The most words of an O card.
const MOST_WORDS: u8 = 5;

/// The words of a T card.
const LINE_WORDS: u8 = 14;

/// What has no form is no card.
const NOT_A_CARD: CardFault = CardFault::Refused(ScriptCause::NotACard);

/// Adds the words of an O card.
pub fn add_words(words: &mut WordList, text: &[u8]) -> Result<(), CardFault>
    ensures { Enters result (by_form (λ ws. Ok (words.old ++ ws)) (words_card_in text.now)) words.new }
{
    if is_over(text) {
        return Err(NOT_A_CARD);
    }
    let mut rest = text;
    let mut left = MOST_WORDS;
    'words: while !is_over(rest) {
        if left == 0 {
            return Err(NOT_A_CARD);
        }
        let (field, more) = first_word(rest);
        let Some(word) = octal(field) else {
            return Err(NOT_A_CARD);
        };
        words.push(word)?;
        rest = more;
        left -= 1;
    }
    Ok(())
}

/// The first six characters of a text, or all where it has fewer, and what stands behind them.
fn first_six(text: &[u8]) -> (&[u8], &[u8])
    ensures front { result.0.now ≡ take 6 text.now }
    ensures few { length result.0.now ≤ 6 }
    ensures behind { result.1.now ≡ drop 6 text.now }
{
    if text.len() < 6 {
        text.split_at(text.len())
    } else {
        text.split_at(6)
    }
}

/// Adds a line as 14 words, with blanks behind it.
pub fn add_line(words: &mut WordList, line: &LineText) -> Result<(), NoMemory>
    ensures { OnOk result (words.new ≡ words.old ++ words_of_line 14 line.now) }
{
    let mut rest = line.as_slice();
    let mut left = LINE_WORDS;
    'words: while left > 0 {
        let (front, behind) = first_six(rest);
        words.push(name_word(front))?;
        rest = behind;
        left -= 1;
    }
    Ok(())
}
