ghost use Rattle.std.specs.Prelude.{◌≡◌, ◌≤◌, IfOk, get_or, true};
ghost use Rattle.std.specs.Option.{option_map};
ghost use Rattle.fap_model.specs.Cards.{field_of};
ghost use Rattle.fap_model.specs.Terms.{all_words, items_of};
ghost use Rattle.fap_model.specs.Statements.{text_words, field_for, words};
ghost use Rattle.fap_read.specs.Given.{gives_words, item_word, words_in};

use crate::columns::{behind, field, front};
use crate::item::first_item;
use crate::number::{decimal_word, octal_word};
use ctss_types::{NoMemory, Sequence, WordList, name_word};
use fap_model::Operation;
use std::alloc::Global;
use word36::Word;

/// The word of an item.
fn item_word(octal: bool, item: &[u8]) -> Option<Word>
    ensures { result ≡ item_word octal item.now }
{
    if octal {
        octal_word(item)
    } else {
        decimal_word(item)
    }
}

/// The words of a field's items, if each is a number.
fn item_words(alloc: Global, octal: bool, field: &[u8]) -> Result<Option<WordList>, NoMemory>
    ensures { IfOk result (λ r. r ≡ all_words (item_word octal) (items_of field.now)) }
{
    let mut words = Sequence::new(alloc);
    let mut rest = field;
    'items: loop {
        let (item, more) = first_item(rest);
        let Some(word) = item_word(octal, item) else {
            return Ok(None);
        };
        words.push(word)?;
        match more {
            None => return Ok(Some(words)),
            Some(more) => rest = more,
        }
    }
}

/// The byte at a place, blank where the text has none.
fn byte_at(text: &[u8], place: usize) -> u8
    ensures { result ≡ get_or text.now place 32 }
{
    if place < text.len() {
        text[place]
    } else {
        b' '
    }
}

/// So many words of six characters each.
fn packed_words(alloc: Global, count: u8, text: &[u8]) -> Result<WordList, NoMemory>
    ensures { IfOk result (λ ws. ws ≡ words_in count text.now) }
{
    let mut words = Sequence::new(alloc);
    let mut rest = text;
    let mut left = count;
    'words: while 0 < left {
        words.push(name_word(front(rest, 6)))?;
        rest = behind(rest, 6);
        left -= 1;
    }
    Ok(words)
}

/// The words of a text that a digit and a comma announce.
fn text_words(alloc: Global, text: &[u8]) -> Result<Option<WordList>, NoMemory>
    ensures { IfOk result (λ r. r ≡ text_words text.now) }
{
    let digit = byte_at(text, 15);
    if b'1' <= digit && digit <= b'9' && byte_at(text, 16) == b',' {
        let words = packed_words(alloc, digit - b'0', behind(text, 17))?;
        Ok(Some(words))
    } else {
        Ok(None)
    }
}

/// The words that a card with this operation gives, if its field is of the operation's form.
pub fn given_words(alloc: Global, op: Operation, text: &[u8]) -> Result<Option<WordList>, NoMemory>
    requires { gives_words op ≡ true }
    ensures { IfOk result (λ r. option_map (λ ws. words ws) r ≡ field_for op text.now) }
{
    match op {
        Operation::Dec => item_words(alloc, false, field(text)),
        Operation::Oct => item_words(alloc, true, field(text)),
        Operation::Bci => text_words(alloc, text),
        _ => unreachable!(),
    }
}
