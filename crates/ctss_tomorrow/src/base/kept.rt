//! Which files the next session begins with.
ghost use Rattle.std.specs.Prelude.{◌≡◌};
ghost use Rattle.std.specs.List.{list_all};
ghost use Rattle.text_model.specs.Lawful.{is_name_character};
ghost use Rattle.ctss_tomorrow.specs.Tomorrow.{is_card_name, is_kept};

use bcd48::is_character;
use ctss_types::{FileBody, name_text, name_word};
use word36::Word;

/// Whether a byte may stand in a name.
fn is_name_character(byte: u8) -> bool
    ensures { result ≡ is_name_character byte }
{
    is_character(byte) && byte != b' '
}

/// Whether all bytes of a text may stand in a name.
fn are_name_characters(text: &[u8]) -> bool
    ensures { result ≡ list_all is_name_character text.now }
{
    text.iter().all(|byte| is_name_character(*byte))
}

/// Whether a card can say this name.
pub(crate) fn is_card_name(word: Word) -> bool
    ensures { result ≡ is_card_name word }
{
    let text = name_text(word);
    !text.is_empty() && are_name_characters(text.as_slice()) && name_word(text.as_slice()) == word
}

/// Whether the next session begins with this file.
pub(crate) fn is_kept(file: &FileBody) -> bool
    ensures { result ≡ is_kept file.now }
{
    file.mode != 0 && is_card_name(file.name.first) && is_card_name(file.name.second)
}
