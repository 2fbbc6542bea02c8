ghost use Rattle.std.specs.Prelude.{◌≡◌, ◌<◌, ◌^◌, IfSome};
ghost use Rattle.std.specs.Option.{option_map};
ghost use Rattle.fap_model.specs.declared.types.Term.TheVariants.{Named};
ghost use Rattle.fap_model.specs.Terms.{expression};
ghost use Rattle.fap_model.specs.Places.{with_term};
ghost use Rattle.fap_assemble.specs.Names.{externs_in, names_in};
ghost use Rattle.fap_assemble.specs.Weighing.{kind_found, found_next, heft_with, heft_of};

use crate::names::Names;
use fap_model::Term;
use fap_read::{first_term, term};
use word36::Word;

/// Weights are numbers modulo this.
const MODULUS: u32 = 32768;

/// The externs of an expression: none, one with the kind that it makes, if it is added, or more.
#[derive(Clone, Copy)]
pub(crate) enum Found {
    Nothing,
    One(Option<u64>),
    More,
}

/// The weight of an expression modulo 2^15, and its externs.
#[derive(Clone, Copy)]
pub(crate) struct Heft {
    pub(crate) weight: u16,
    pub(crate) found: Found,
}

/// A sum with a term more.
fn with_term(sum: u16, minus: bool, weight: u16) -> u16
    requires { sum < 2 ^ 15 }
    ensures value { result ≡ with_term sum minus weight }
    ensures below { result < 2 ^ 15 }
{
    let (sum, weight) = (u32::from(sum), u32::from(weight));
    let next = if minus {
        (sum + MODULUS).saturating_sub(weight)
    } else {
        sum + weight
    };
    (next % MODULUS) as u16
}

/// The kind that an extern makes, if it is added; and nothing where the name is none's.
#[tactic(auto, using(crate::proofs::Weighing::found_none, crate::proofs::Weighing::found_minus, crate::proofs::Weighing::found_plus))]
fn extern_kind(names: Names<'_>, minus: bool, name: Word) -> Option<Option<u64>>
    ensures { result ≡ kind_found (externs_in names.entry) minus (Named name) }
{
    let number = names.extern_number(name)?;
    Some(if minus {
        None
    } else {
        Some(u64::from(number) + 2)
    })
}

/// The externs with one more.
fn found_next(found: Found, kind: Option<Option<u64>>) -> Found
    ensures { result ≡ found_next found kind }
{
    match kind {
        None => found,
        Some(kind) => match found {
            Found::Nothing => Found::One(kind),
            _ => Found::More,
        },
    }
}

/// What terms weigh with a symbol more.
fn with_named(names: Names<'_>, heft: Heft, minus: bool, name: Word) -> Heft
    requires { heft.weight < 2 ^ 15 }
    ensures value { result ≡ heft_with (externs_in names.entry) (names_in names.entry) heft minus (Named name) }
    ensures below { result.weight < 2 ^ 15 }
{
    let kind = extern_kind(names, minus, name);
    let more = names.value(name).unwrap_or(0);
    Heft {
        weight: with_term(heft.weight, minus, more),
        found: found_next(heft.found, kind),
    }
}

/// What terms weigh with one more.
fn heft_with(names: Names<'_>, heft: Heft, minus: bool, term: Term) -> Heft
    requires { heft.weight < 2 ^ 15 }
    ensures value { result ≡ heft_with (externs_in names.entry) (names_in names.entry) heft minus term }
    ensures below { result.weight < 2 ^ 15 }
{
    match term {
        Term::Named(name) => with_named(names, heft, minus, name),
        Term::Number(_) => Heft {
            weight: with_term(heft.weight, minus, 0),
            found: heft.found,
        },
        Term::Here => Heft {
            weight: with_term(heft.weight, minus, 1),
            found: heft.found,
        },
    }
}

/// The weight of an expression by the weights of symbols, and its externs; `None` where the text is no expression.
#[tactic(auto, using(crate::proofs::Weighing::empty_weight))]
pub(crate) fn heft_of(weights: Names<'_>, text: &[u8]) -> Option<Heft>
    ensures value { result
        ≡ option_map (λ ts. heft_of (externs_in weights.entry) (names_in weights.entry) ts) (expression text.now) }
    ensures below { IfSome result (λ h. h.weight < 2 ^ 15) }
{
    let mut sum = Heft {
        weight: 0,
        found: Found::Nothing,
    };
    if text.is_empty() {
        return Some(sum);
    }
    let mut next = Some((false, text));
    'terms: while let Some((minus, rest)) = next {
        let (first, more) = first_term(rest);
        let Some(term) = term(first) else {
            return None;
        };
        sum = heft_with(weights, sum, minus, term);
        next = more;
    }
    Some(sum)
}
