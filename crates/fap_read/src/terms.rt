ghost use Rattle.std.specs.Prelude.{◌≡◌, ◌<◌, ◌≤◌, ◌∷◌, ◌+◌, ℕ, IfSome, length, not, nat_le, if◌then◌else◌, Some, None, true};
ghost use Rattle.std.specs.Option.{option_map};
ghost use Rattle.std.specs.List.{list_all, prefix_len};
ghost use Rattle.std.specs.Str.Parse.{digits_value};
ghost use Rattle.fap_model.specs.Cards.{is_digit};
ghost use Rattle.fap_model.specs.Terms.{term_of, is_sign};
ghost use Rattle.fap_read.specs.Peeled.{parts_from, parts_behind, HasShortNumber};
ghost use Rattle.fap_model.specs.declared.types.Term.TheVariants.{Number};

use crate::digits::{are_digits, decimal_value, is_symbol};
use ctss_types::name_word;
use fap_model::Term;

/// The term of a number that fits an address.
fn number(digits: &[u8]) -> Option<Term>
    requires { list_all is_digit digits.now ≡ true }
    ensures value { result ≡ (if nat_le (digits_value 10 digits.now) 32767 then Some
        (Number (digits_value 10 digits.now)) else None) }
    ensures short { IfSome result HasShortNumber }
{
    let n = decimal_value(digits);
    if n <= 32767 {
        Some(Term::Number(n as u16))
    } else {
        None
    }
}

/// The term that a text is.
pub fn term(text: &[u8]) -> Option<Term>
    ensures value { result ≡ term_of text.now }
    ensures short { IfSome result HasShortNumber }
{
    if text == b"*".as_slice() {
        Some(Term::Here)
    } else if text == b"**".as_slice() {
        Some(Term::Number(0))
    } else if 0 < text.len() && are_digits(text) {
        number(text)
    } else if is_symbol(text) {
        Some(Term::Named(name_word(text)))
    } else {
        None
    }
}

/// Whether a byte is plus or minus.
pub fn is_sign(byte: u8) -> bool
    ensures { result ≡ is_sign byte }
{
    byte == b'+' || byte == b'-'
}

/// The number of bytes up to a sign.
fn term_len(text: &[u8]) -> usize
    ensures value { result ≡ prefix_len (λ b. not (is_sign b)) text.now }
    ensures within { result ≤ length text.now }
{
    text.iter().take_while(|b| !is_sign(**b)).count()
}

/// The text up to the first sign; and where there is one, whether it is minus, with what stands behind it.
#[tactic(auto, using(crate::proofs::Parts::parts_last, crate::proofs::Parts::parts_first))]
pub fn first_term(text: &[u8]) -> (&[u8], Option<(bool, &[u8])>)
    ensures parts { (sign : ℕ) → parts_from sign text.now ≡ (sign, result.0.now)
        ∷ parts_behind (option_map (λ p. (p.0, p.1.now)) result.1) }
    ensures shorter { IfSome result.1 (λ p. length p.1.now < length text.now) }
{
    let n = term_len(text);
    let first = text.split_at(n).0;
    if n == text.len() {
        (first, None)
    } else {
        (first, Some((text[n] == b'-', text.split_at(n + 1).1)))
    }
}
