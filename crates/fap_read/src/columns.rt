ghost use Rattle.std.specs.Prelude.{◌≡◌, ◌<◌, ◌≤◌, ◌==◌, length, take, drop, nat_eq, not, true};
ghost use Rattle.std.specs.List.{list_all, prefix_len};
ghost use Rattle.bcd48.specs.Characters.{is_character};
ghost use Rattle.ctss_types.specs.Line.{trimmed};
ghost use Rattle.fap_model.specs.Cards.{until_blank, starred, is_comment, is_bad, operation_columns, flag_of, operation_of, field_of, symbol_text, symbol_of, has_bad_symbol};

use crate::digits::is_symbol;
use bcd48::is_character;
use ctss_types::{MOST_CHARACTERS, name_word};
use word36::Word;

/// The first `count` bytes, or all.
pub fn front(text: &[u8], count: usize) -> &[u8]
    ensures { result.now ≡ take count text.now }
{
    text.split_at(count.min(text.len())).0
}

/// What stands behind the first `count` bytes.
pub fn behind(text: &[u8], count: usize) -> &[u8]
    ensures { result.now ≡ drop count text.now }
{
    text.split_at(count.min(text.len())).1
}

/// The number of bytes up to a blank.
fn dark_len(text: &[u8]) -> usize
    ensures value { result ≡ prefix_len (λ b. not (b == 32)) text.now }
    ensures within { result ≤ length text.now }
{
    text.iter().take_while(|b| **b != b' ').count()
}

/// What stands up to a blank.
fn until_blank(text: &[u8]) -> &[u8]
    ensures value { result.now ≡ until_blank text.now }
    ensures within { length result.now ≤ length text.now }
{
    text.split_at(dark_len(text)).0
}

/// The length without the blanks at the end.
fn trimmed_len(text: &[u8]) -> usize
    ensures within { result ≤ length text.now }
    ensures value { take result text.now ≡ trimmed text.now }
{
    let mut end = text.len();
    'trimming: while 0 < end && text[end - 1] == b' ' {
        end -= 1;
    }
    end
}

/// The text without the blanks at its end.
fn trimmed(text: &[u8]) -> &[u8]
    ensures value { result.now ≡ trimmed text.now }
    ensures within { length result.now ≤ length text.now }
{
    text.split_at(trimmed_len(text)).0
}

/// Columns 1 to 6, without the blanks at their end.
#[tactic(auto, using(crate::proofs::Blanks::symbol_seen))]
pub fn symbol_text(text: &[u8]) -> &[u8]
    ensures value { result.now ≡ symbol_text text.now }
    ensures most { length result.now ≤ 6 }
{
    trimmed(front(text, 6))
}

/// Columns 8 to 15 up to a blank.
#[tactic(auto, using(crate::proofs::Blanks::operation_seen))]
pub fn operation_columns(text: &[u8]) -> &[u8]
    ensures value { result.now ≡ operation_columns text.now }
    ensures most { length result.now ≤ 8 }
{
    until_blank(front(behind(text, 7), 8))
}

/// Whether an asterisk stands at the end.
#[tactic(auto, using(crate::proofs::Blanks::starred_last))]
fn is_starred(text: &[u8]) -> bool
    ensures value { result ≡ starred text.now }
    ensures some { result ≡ true → 0 < length text.now }
{
    if text.is_empty() {
        false
    } else {
        text[text.len() - 1] == b'*'
    }
}

/// The operation's columns without an asterisk at their end.
pub fn operation_text(text: &[u8]) -> &[u8]
    ensures value { result.now ≡ operation_of text.now }
    ensures most { length result.now ≤ 8 }
{
    let columns = operation_columns(text);
    if is_starred(columns) {
        columns.split_at(columns.len() - 1).0
    } else {
        columns
    }
}

/// How many bytes there are before the first that is none of the 48 characters.
pub fn character_count(text: &[u8]) -> usize
    ensures value { result ≡ prefix_len is_character text.now }
    ensures within { result ≤ length text.now }
{
    text.iter().take_while(|b| is_character(**b)).count()
}

/// Whether all are of the 48 characters.
fn are_characters(text: &[u8]) -> bool
    ensures { result ≡ list_all is_character text.now }
{
    text.iter().all(|b| is_character(*b))
}

/// Whether the card is a comment.
pub fn is_comment(text: &[u8]) -> bool
    ensures { result ≡ is_comment text.now }
{
    front(text, 1) == b"*".as_slice()
}

/// Whether the card is too long or has a byte that is none of the 48 characters.
pub fn is_bad(text: &[u8]) -> bool
    ensures { result ≡ is_bad text.now }
{
    MOST_CHARACTERS < text.len() || !are_characters(text)
}

/// Whether anything stands in the symbol's columns.
pub fn has_symbol(text: &[u8]) -> bool
    ensures { result ≡ not (nat_eq (length (symbol_text text.now)) 0) }
{
    !symbol_text(text).is_empty()
}

/// Whether what stands in the symbol's columns is no symbol.
pub fn has_bad_symbol(text: &[u8]) -> bool
    ensures { result ≡ has_bad_symbol text.now }
{
    let symbol = symbol_text(text);
    0 < symbol.len() && !is_symbol(symbol)
}

/// The card's symbol, as a word of six characters.
pub fn symbol(text: &[u8]) -> Option<Word>
    ensures { result ≡ symbol_of text.now }
{
    let symbol = symbol_text(text);
    if is_symbol(symbol) {
        Some(name_word(symbol))
    } else {
        None
    }
}

/// Whether an asterisk follows the operation.
pub fn flag(text: &[u8]) -> bool
    ensures { result ≡ flag_of text.now }
{
    is_starred(operation_columns(text))
}

/// The variable field: columns 16 to 72 up to a blank.
#[tactic(auto, using(crate::proofs::Blanks::field_seen))]
pub fn field(text: &[u8]) -> &[u8]
    ensures value { result.now ≡ field_of text.now }
    ensures most { length result.now ≤ 57 }
{
    until_blank(front(behind(text, 15), 57))
}
