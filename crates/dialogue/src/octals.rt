//! Numbers in octal digits, as words of a line have them.
ghost use Rattle.std.specs.Prelude.{◌≡◌, ◌≤◌, ◌<◌, ◌^◌, length, true, IfSome};
ghost use Rattle.std.specs.List.{list_all};
ghost use Rattle.program_model.specs.Octals.{is_octal_digit, octal_from, octal_in};

/// A word of one to so many octal digits as a number.
pub(crate) fn octal_in(word: &[u8], most: usize) -> Option<u64>
    requires { most ≤ 12 }
    ensures value { result ≡ octal_in most word.now }
    ensures below { IfSome result (λ n. n < 8 ^ most) }
{
    if 1 <= word.len() && word.len() <= most && are_octal(word) {
        Some(octal_value(word))
    } else {
        None
    }
}

/// Whether all are octal digits.
fn are_octal(word: &[u8]) -> bool
    ensures { result ≡ list_all is_octal_digit word.now }
{
    word.iter().all(|digit| 48 <= *digit && *digit <= 55)
}

/// The number that at most twelve octal digits spell.
#[tactic(auto, using(crate::proofs::Digits::digits))]
fn octal_value(word: &[u8]) -> u64
    requires digits { list_all is_octal_digit word.now ≡ true }
    requires few { length word.now ≤ 12 }
    ensures value { result ≡ octal_from 0 word.now }
    ensures below { result < 8 ^ length word.now }
{
    let mut number = 0;
    'digits: for digit in word {
        number = 8 * number + u64::from(*digit - b'0');
    }
    number
}
