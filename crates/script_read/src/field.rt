ghost use Rattle.std.specs.Prelude.{◌≡◌};
ghost use Rattle.std.specs.Option.{option_map};
ghost use Rattle.text_model.specs.Fields.{text_in, first_number, first_name, is_over, text_behind};

use ctss_types::{LineText, first_word};
use text_model::CardText;
use text_model::fields::{are_characters, name, number};
use word36::Word;

/// A text of characters, without the blanks behind it.
#[tactic(auto, using(crate::proofs::Trimmed::all_trimmed))]
fn text(text: &[u8]) -> Option<CardText>
    ensures { result ≡ text_in text.now }
{
    if !are_characters(text) {
        return None;
    }
    match LineText::from_bytes(text) {
        Ok(line) => Some(CardText::Fits(line)),
        Err(_) => Some(CardText::TooLong),
    }
}

/// The first field as a number, and what stands behind it.
pub fn first_number(text: &[u8]) -> Option<(u32, &[u8])>
    ensures { option_map (λ p. (p.0, p.1.now)) result ≡ first_number text.now }
{
    let (field, rest) = first_word(text);
    let n = number(field)?;
    Some((n, rest))
}

/// The first field as a name, and what stands behind it.
pub fn first_name(text: &[u8]) -> Option<(Word, &[u8])>
    ensures { option_map (λ p. (p.0, p.1.now)) result ≡ first_name text.now }
{
    let (field, rest) = first_word(text);
    let word = name(field)?;
    Some((word, rest))
}

/// Whether no field is left.
pub fn is_over(text: &[u8]) -> bool
    ensures { result ≡ is_over text.now }
{
    first_word(text).0.is_empty()
}

/// The text behind a word and one blank, empty where nothing stands there.
pub fn text_behind(behind: &[u8]) -> Option<CardText>
    ensures { result ≡ text_behind behind.now }
{
    match behind {
        [] => Some(CardText::Fits(LineText::of(&[]))),
        [_, rest @ ..] => text(rest),
    }
}
