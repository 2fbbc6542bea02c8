ghost use Rattle.std.specs.Prelude.{◌≡◌, ◌<◌, ◌≤◌, ◌-◌, ◌∷◌, ◌++◌, [], All, length, map, replicate, nat_eq, if◌then◌else◌, not, ◌==◌};
ghost use Rattle.std.specs.List.{prefix_len};
ghost use Rattle.ctss_types.specs.Words.{words_of, word_in, behind_word, name_of, code_for, text_of_name};

use crate::LineText;
use bcd48::{code_of, pack6, text6};
use word36::Word;

/// The number of blanks in front.
fn blanks(text: &[u8]) -> usize
    ensures value { result ≡ prefix_len (λ b. b == 32) text.now }
    ensures within { result ≤ length text.now }
{
    text.iter().take_while(|b| **b == b' ').count()
}

/// The number of bytes up to a blank.
fn word_len(text: &[u8]) -> usize
    ensures value { result ≡ prefix_len (λ b. not (b == 32)) text.now }
    ensures within { result ≤ length text.now }
{
    text.iter().take_while(|b| **b != b' ').count()
}

/// The first word of a text and what stands behind it; an empty word where there is none.
#[tactic(auto, using(crate::proofs::FirstWord::words_first))]
pub fn first_word(text: &[u8]) -> (&[u8], &[u8])
    ensures word { result.0.now ≡ word_in text.now }
    ensures behind { result.1.now ≡ behind_word text.now }
    ensures words { words_of text.now ≡ (if nat_eq (length result.0.now) 0 then [] else result.0.now
        ∷ words_of result.1.now) }
{
    let text = text.split_at(blanks(text)).1;
    text.split_at(word_len(text))
}

/// The code of a character, and the blank's for any other byte.
fn code_for(byte: u8) -> u8
    ensures value { result ≡ code_for byte }
    ensures below { result < 64 }
{
    match code_of(byte) {
        Some(code) => code,
        None => 0o60,
    }
}

/// The codes of a name's characters, with blanks behind them.
#[tactic(auto, using(crate::proofs::NameCodes::next_codes, crate::proofs::NameCodes::last_codes))]
fn name_codes(text: &[u8]) -> [u8; 6]
    requires { length text.now ≤ 6 }
    ensures codes { result ≡ map code_for (text.now ++ replicate (6 - length text.now) 32) }
    ensures below { All (λ code. code < 64) result }
{
    let mut codes = [0o60; 6];
    'codes: for i in 0..text.len() {
        codes[i] = code_for(text[i]);
    }
    codes
}

/// A name of at most six characters as a word, with blanks behind it.
#[tactic(auto, unfolding(crate::specs::Words::name_of))]
pub fn name_word(text: &[u8]) -> Word
    requires { length text.now ≤ 6 }
    ensures { result ≡ name_of text.now }
{
    match Word::from_bits(pack6(&name_codes(text))) {
        Ok(word) => word,
        Err(_) => unreachable!(),
    }
}

/// A name as it is written, without the blanks behind it.
#[tactic(auto, using(crate::proofs::NameText::name_fits), unfolding(crate::specs::Words::text_of_name))]
pub fn name_text(name: Word) -> LineText
    ensures value { result ≡ text_of_name name }
    ensures short { length result ≤ 6 }
{
    match LineText::from_bytes(&text6(name.bits())) {
        Ok(line) => line,
        Err(_) => unreachable!(),
    }
}
