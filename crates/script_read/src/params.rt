//! The numbers of PARAM, as a card has them and as the script's params.
ghost use Rattle.std.specs.Prelude.{◌≡◌, ◌&&◌, true, get_or, length, nat_le};
ghost use Rattle.std.specs.Option.{option_map};
ghost use Rattle.ctss_types.specs.Params.{param_limits, least_numbers, numbers_of, params_of, are_within, written_out};
ghost use Rattle.text_model.specs.Fields.{number_in};
ghost use Rattle.text_model.specs.Cards.{fields_in, param_card_in};

use crate::field::{first_number, is_over};
use arrayvec::ArrayVec;
use ctss_types::Params;

/// How many numbers PARAM has.
const NUMBERS: usize = 7;

/// How many of them stand at least; those left out behind them are 0.
const LEAST: usize = 6;

/// The numbers of a text, at most as many as PARAM has.
fn numbers_in(text: &[u8]) -> Option<ArrayVec<u32, NUMBERS>>
    ensures { option_map (λ numbers. numbers.items) result ≡ fields_in number_in (length param_limits) text.now }
{
    let mut numbers = ArrayVec::new();
    let mut rest = text;
    'numbers: while !is_over(rest) {
        if numbers.is_full() {
            return None;
        }
        let (n, more) = first_number(rest)?;
        numbers.push(n);
        rest = more;
    }
    Some(numbers)
}

/// The numbers of a PARAM card.
pub fn param_card(text: &[u8]) -> Option<ArrayVec<u32, NUMBERS>>
    ensures { option_map (λ numbers. params_of numbers.items) result ≡ param_card_in text.now }
{
    let numbers = numbers_in(text)?;
    if numbers.len() < LEAST {
        return None;
    }
    Some(numbers)
}

/// The number at a place, and 0 where it is left out.
fn at(numbers: &[u32], place: usize) -> u32
    ensures { result ≡ get_or numbers.now place 0 }
{
    match numbers.get(place) {
        Some(n) => *n,
        None => 0,
    }
}

/// Whether the number at a place is within these limits.
fn is_within(numbers: &[u32], place: usize, low: u32, high: u32) -> bool
    ensures { result ≡ (nat_le low (get_or numbers.now place 0) && nat_le (get_or numbers.now place 0) high) }
{
    let n = at(numbers, place);
    low <= n && n <= high
}

/// Whether each number of PARAM is within its limits.
pub fn are_within(numbers: &[u32]) -> bool
    ensures { result ≡ are_within param_limits (numbers_of (params_of numbers.now)) }
{
    is_within(numbers, 0, 1, 32_768)
        && is_within(numbers, 1, 1, 1_000_000)
        && is_within(numbers, 2, 0, 1_000_000)
        && is_within(numbers, 3, 0, 3840)
        && is_within(numbers, 4, 0, 10_000)
        && is_within(numbers, 5, 0, 10_000)
        && is_within(numbers, 6, 0, 1_000_000)
}

/// The params of numbers that are within their limits.
pub fn params(numbers: &[u32]) -> Params
    requires { are_within param_limits (numbers_of (params_of numbers.now)) ≡ true }
    ensures { result ≡ params_of numbers.now }
{
    Params {
        wq: at(numbers, 0),
        quantum: u64::from(at(numbers, 1)),
        swap: u64::from(at(numbers, 2)),
        drum: at(numbers, 3) as u16,
        disk: at(numbers, 4) as u16,
        common: at(numbers, 5) as u16,
        age: u64::from(at(numbers, 6)),
    }
}

/// The numbers of params, in order.
pub fn numbers(params: Params) -> [u64; NUMBERS]
    ensures { result ≡ numbers_of params }
{
    [
        u64::from(params.wq),
        params.quantum,
        params.swap,
        u64::from(params.drum),
        u64::from(params.disk),
        u64::from(params.common),
        params.age,
    ]
}

/// Numbers as a card has them: without the zeros at their end that may be left out.
pub fn written_out(numbers: &[u64]) -> &[u64]
    ensures { result.now ≡ written_out least_numbers numbers.now }
{
    let mut count = numbers.len();
    'zeros: while LEAST < count && numbers[count - 1] == 0 {
        count -= 1;
    }
    &numbers[..count]
}
