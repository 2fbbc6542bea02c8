//! What one field of a card says: a number, a word in octal, or a name.
ghost use Rattle.std.specs.Prelude.{◌≡◌, ◌^◌, ◌<◌, ◌≤◌, length, true};
ghost use Rattle.std.specs.List.{list_all};
ghost use Rattle.std.specs.Str.Parse.{digits_value};
ghost use Rattle.bcd48.specs.Characters.{is_character};
ghost use Rattle.text_model.specs.Fields.{is_decimal, is_octal, number_in, octal_in, name_in};

use bcd48::is_character;
use ctss_types::name_word;
use word36::Word;

/// Whether all are decimal digits.
fn are_digits(field: &[u8]) -> bool
    ensures { result ≡ list_all is_decimal field.now }
{
    field.iter().all(|b| 48 <= *b && *b <= 57)
}

/// The number that at most 9 digits spell.
fn value(field: &[u8]) -> u32
    requires digits { list_all is_decimal field.now ≡ true }
    requires length { length field.now ≤ 9 }
    ensures { result ≡ digits_value 10 field.now }
{
    let mut n = 0;
    'digits: for b in field {
        n = 10 * n + u32::from(*b - b'0');
    }
    n
}

/// The number that 1 to 9 digits spell.
pub fn number(field: &[u8]) -> Option<u32>
    ensures { result ≡ number_in field.now }
{
    if 1 <= field.len() && field.len() <= 9 && are_digits(field) {
        Some(value(field))
    } else {
        None
    }
}

/// Whether all are octal digits.
fn are_octal(field: &[u8]) -> bool
    ensures { result ≡ list_all is_octal field.now }
{
    field.iter().all(|b| 48 <= *b && *b <= 55)
}

/// The number that at most 12 octal digits spell.
fn octal_value(field: &[u8]) -> u64
    requires digits { list_all is_octal field.now ≡ true }
    requires length { length field.now ≤ 12 }
    ensures value { result ≡ digits_value 8 field.now }
    ensures below { result < 2 ^ 36 }
{
    let mut n = 0;
    'digits: for b in field {
        n = 8 * n + u64::from(*b - b'0');
    }
    n
}

/// The word that 1 to 12 octal digits spell.
pub fn octal(field: &[u8]) -> Option<Word>
    ensures { result ≡ octal_in field.now }
{
    if 1 <= field.len() && field.len() <= 12 && are_octal(field) {
        Word::from_bits(octal_value(field)).ok()
    } else {
        None
    }
}

/// Whether all are of the 48 characters.
pub fn are_characters(text: &[u8]) -> bool
    ensures { result ≡ list_all is_character text.now }
{
    text.iter().all(|b| is_character(*b))
}

/// The name that 1 to 6 characters spell.
pub fn name(field: &[u8]) -> Option<Word>
    ensures { result ≡ name_in field.now }
{
    if 1 <= field.len() && field.len() <= 6 && are_characters(field) {
        Some(name_word(field))
    } else {
        None
    }
}
