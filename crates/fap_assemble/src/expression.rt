ghost use Rattle.std.specs.Prelude.{◌≡◌, ◌<◌, ◌^◌, Some, IfSome};
ghost use Rattle.std.specs.Option.{option_map};
ghost use Rattle.fap_model.specs.Terms.{expression};
ghost use Rattle.fap_model.specs.Places.{term_value, value_of};
ghost use Rattle.fap_read.specs.Peeled.{HasShortNumber};
ghost use Rattle.fap_assemble.specs.Names.{names_in};
ghost use Rattle.fap_assemble.specs.Expressions.{sum_with};

use crate::names::Names;
use fap_model::Term;
use fap_read::{first_term, term};

/// Addresses are numbers modulo this.
const MODULUS: u32 = 32768;

/// The value of a term.
fn term_value(names: Names<'_>, place: u64, term: Term) -> Option<u16>
    ensures { result ≡ term_value (names_in names.entry) place term }
{
    match term {
        Term::Named(name) => names.value(name),
        Term::Number(number) => Some(number),
        Term::Here => Some((place % u64::from(MODULUS)) as u16),
    }
}

/// A sum with a term more.
fn sum_with(sum: Option<u16>, minus: bool, value: Option<u16>) -> Option<u16>
    requires { IfSome sum (λ n. n < 2 ^ 15) }
    ensures value { result ≡ sum_with sum minus value }
    ensures below { IfSome result (λ n. n < 2 ^ 15) }
{
    let (sum, value) = (u32::from(sum?), u32::from(value?));
    let next = if minus {
        (sum + MODULUS).saturating_sub(value)
    } else {
        sum + value
    };
    Some((next % MODULUS) as u16)
}

/// The value of an expression modulo 2^15, where `*` is the place; `Some(None)` where one of its symbols isn't
/// among the names, and `None` where the text is no expression.
#[tactic(auto, using(crate::proofs::Expressions::empty_value))]
pub(crate) fn value(names: Names<'_>, place: u64, text: &[u8]) -> Option<Option<u16>>
    ensures value { result ≡ option_map (λ ts. value_of (names_in names.entry) place ts) (expression text.now) }
    ensures below { IfSome result (λ v. IfSome v (λ n. n < 2 ^ 15)) }
{
    if text.is_empty() {
        return Some(Some(0));
    }
    let mut sum = Some(0);
    let mut next = Some((false, text));
    'terms: while let Some((minus, rest)) = next {
        let (first, more) = first_term(rest);
        let Some(term) = term(first) else {
            return None;
        };
        sum = sum_with(sum, minus, term_value(names, place, term));
        next = more;
    }
    Some(sum)
}
