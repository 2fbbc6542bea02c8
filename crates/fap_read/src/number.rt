ghost use Rattle.std.specs.Prelude.{◌≡◌, ◌<◌, ◌≤◌, ◌^◌, IfSome};
ghost use Rattle.fap_model.specs.Cards.{field_of};
ghost use Rattle.fap_model.specs.Terms.{digits_word, decimal_word, octal_number, literal_word};

use crate::columns::field;
use crate::digits::{LIMIT, are_digits, are_octal, decimal_value, octal_value};
use crate::terms::is_sign;
use ctss_types::name_word;
use word36::Word;

/// The word of a sign and decimal digits.
fn digits_word(negative: bool, text: &[u8]) -> Option<Word>
    ensures { result ≡ digits_word negative text.now }
{
    if text.is_empty() || !are_digits(text) {
        return None;
    }
    let n = decimal_value(text);
    if n < LIMIT {
        Some(Word::signed(negative, n))
    } else {
        None
    }
}

/// The word of a decimal number, with a sign or without one.
pub fn decimal_word(text: &[u8]) -> Option<Word>
    ensures { result ≡ decimal_word text.now }
{
    match text {
        [] => None,
        [sign, digits @ ..] => {
            if is_sign(*sign) {
                digits_word(*sign == b'-', digits)
            } else {
                digits_word(false, text)
            }
        }
    }
}

/// The number of at most so many octal digits. No digits are zero.
pub fn octal_number(most: u8, text: &[u8]) -> Option<u64>
    requires { most ≤ 12 }
    ensures value { result ≡ octal_number most text.now }
    ensures below { IfSome result (λ n. n < 8 ^ most) }
{
    if text.len() <= usize::from(most) && are_octal(text) {
        Some(octal_value(text))
    } else {
        None
    }
}

/// The word of at most twelve octal digits.
pub fn octal_word(text: &[u8]) -> Option<Word>
    ensures { result ≡ octal_number 12 text.now }
{
    let n = octal_number(12, text)?;
    match Word::from_bits(n) {
        Ok(word) => Some(word),
        Err(_) => unreachable!(),
    }
}

/// The word of what stands behind a literal's equals sign.
pub fn literal_word(text: &[u8]) -> Option<Word>
    ensures { result ≡ literal_word text.now }
{
    match text {
        [] => None,
        [kind, rest @ ..] => {
            if *kind == b'O' {
                if 0 < rest.len() {
                    octal_word(rest)
                } else {
                    None
                }
            } else if *kind == b'H' {
                if rest.len() <= 6 {
                    Some(name_word(rest))
                } else {
                    None
                }
            } else {
                decimal_word(text)
            }
        }
    }
}

/// The six octal digits of a card whose operation names a half of the indicators.
pub fn half(text: &[u8]) -> Option<u32>
    ensures value { result ≡ octal_number 6 (field_of text.now) }
    ensures below { IfSome result (λ n. n < 2 ^ 18) }
{
    let n = octal_number(6, field(text))?;
    Some(n as u32)
}
