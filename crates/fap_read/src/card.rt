ghost use Rattle.std.specs.Prelude.{◌≡◌, ◌∷◌, ◌<◌, ◌≤◌, ◌==◌, IfOk, length, map, not};
ghost use Rattle.std.specs.List.{flat_map, prefix_len};
ghost use Rattle.std.specs.Str.Lines.{lines, strip_carriage_return};
ghost use Rattle.bcd48.specs.Words.{characters_of};
ghost use Rattle.fap_model.specs.Cards.{cards_of};

use bcd48::text6;
use ctss_types::{Bytes, NoMemory, Sequence};
use std::alloc::Global;
use word36::Word;

/// The most words of a card.
const MOST_WORDS: usize = 14;

/// A card: its text.
#[derive(Debug, Drop, PartialEq)]
pub struct Card {
    pub text: Bytes,
}

/// What stands where on a card.
#[derive(Clone, Copy, Debug, PartialEq, Eq)]
pub struct Fields {
    pub comment: bool,
    /// Whether the card is too long or has a byte that is none of the 48 characters.
    pub bad: bool,
    /// Columns 1 to 6.
    pub symbol: [u8; 6],
    /// The operation without its asterisk, and blanks behind it.
    pub operation: [u8; 8],
    /// Whether an asterisk follows the operation.
    pub flag: bool,
    /// The last column of the variable field, and 15 where it is empty.
    pub end: u8,
}

/// Cards in order.
pub type Cards = Sequence<Card>;

/// The number of bytes up to a newline.
fn line_len(text: &[u8]) -> usize
    ensures value { result ≡ prefix_len (λ b. not (b == 10)) text.now }
    ensures within { result ≤ length text.now }
{
    text.iter().take_while(|b| **b != b'\n').count()
}

/// The line without the carriage return at its end.
fn without_return(line: &[u8]) -> &[u8]
    ensures { result.now ≡ strip_carriage_return line.now }
{
    if !line.is_empty() && line[line.len() - 1] == b'\r' {
        &line[..line.len() - 1]
    } else {
        line
    }
}

/// The first line, and what stands behind it.
#[tactic(auto, using(crate::proofs::FirstLine::lines_last, crate::proofs::FirstLine::lines_first))]
fn first_line(text: &[u8]) -> (&[u8], &[u8])
    requires { 0 < length text.now }
    ensures line { lines text.now ≡ result.0.now ∷ lines result.1.now }
    ensures shorter { length result.1.now < length text.now }
{
    let n = line_len(text);
    if n == text.len() {
        text.split_at(n)
    } else {
        (without_return(text.split_at(n).0), text.split_at(n + 1).1)
    }
}

/// A card with this text.
fn card_with(alloc: Global, text: &[u8]) -> Result<Card, NoMemory>
    ensures { IfOk result (λ c. c.text ≡ text.now) }
{
    let bytes = text.to_vec(alloc)?;
    Ok(Card {
        text: Sequence::from_vec(bytes),
    })
}

/// The cards of a text, a line each. A carriage return before the end of a line is no part of it.
pub fn cards_of_text(alloc: Global, bytes: &[u8]) -> Result<Cards, NoMemory>
    ensures { IfOk result (λ cards. map (λ c. c.text) cards ≡ lines bytes.now) }
{
    let mut cards = Sequence::new(alloc);
    let mut rest = bytes;
    'lines: while !rest.is_empty() {
        let (line, more) = first_line(rest);
        cards.push(card_with(alloc, line)?)?;
        rest = more;
    }
    Ok(cards)
}

/// The card that words print as.
fn card_of_words(alloc: Global, words: &[Word]) -> Result<Card, NoMemory>
    ensures { IfOk result (λ c. c.text ≡ flat_map characters_of words.now) }
{
    let mut text = Vec::new(alloc);
    'words: for word in words {
        text.extend_from_slice(&text6(word.bits()))?;
    }
    Ok(Card {
        text: Sequence::from_vec(text),
    })
}

/// The cards of a file's words, 14 words each; the last card has those that are left.
pub fn cards_of_words(alloc: Global, words: &[Word]) -> Result<Cards, NoMemory>
    ensures { IfOk result (λ cards. map (λ c. c.text) cards ≡ cards_of words.now) }
{
    let mut cards = Sequence::new(alloc);
    let mut rest = words;
    'cards: while !rest.is_empty() {
        let (first, more) = rest.split_at(rest.len().min(MOST_WORDS));
        cards.push(card_of_words(alloc, first)?)?;
        rest = more;
    }
    Ok(cards)
}
