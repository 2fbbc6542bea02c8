ghost use Rattle.std.specs.Prelude.{◌≡◌, Some};
ghost use Rattle.std.specs.Option.{option_map};
ghost use Rattle.fap_model.specs.Terms.{expression, items_of};
ghost use Rattle.fap_model.specs.Statements.{address_of, parts_of, field_for, value};
ghost use Rattle.link_model.specs.Weights.{address_kind, is_light, most_weight, kind_of};
ghost use Rattle.fap_assemble.specs.Names.{externs_in, names_in};
ghost use Rattle.fap_assemble.specs.Weighing.{is_light_heft, heft_kind};
ghost use Rattle.fap_assemble.specs.FieldKinds.{joined_kind};

use crate::field::begins_literal;
use crate::names::Names;
use crate::weigh::{Found, Heft, heft_of};
use fap_model::{Form, Operation};
use fap_read::{field, form, item_at, item_count, literal_word};

/// Whether an expression has at most so much weight, and no extern.
fn is_light(most: u16, heft: Heft) -> bool
    ensures { result ≡ is_light_heft most heft }
{
    match heft.found {
        Found::Nothing => heft.weight <= most,
        _ => false,
    }
}

/// The kind of an address that weighs this, if it may.
fn heft_kind(heft: Heft) -> Option<u64>
    ensures { result ≡ heft_kind heft }
{
    match heft.found {
        Found::Nothing => {
            if heft.weight <= 1 {
                Some(u64::from(heft.weight))
            } else {
                None
            }
        }
        Found::One(kind) => { if heft.weight == 0 { kind } else { None } }
        Found::More => None,
    }
}

/// Whether an expression weighs nothing and has no extern; `None` where the text is no expression.
#[tactic(auto, using(crate::proofs::FieldKinds::light_seen))]
fn light_text(weights: Names<'_>, text: &[u8]) -> Option<bool>
    ensures { result
        ≡ option_map (λ ts. is_light 0 (externs_in weights.entry) (names_in weights.entry) ts) (expression text.now) }
{
    Some(is_light(0, heft_of(weights, text)?))
}

/// The kind of an address, if it weighs what it may; `None` where the text is no address.
#[tactic(auto, using(crate::proofs::FieldKinds::address_kind_seen))]
fn address_kind(weights: Names<'_>, text: &[u8]) -> Option<Option<u64>>
    ensures { result
        ≡ option_map (address_kind (externs_in weights.entry) (names_in weights.entry)) (address_of text.now) }
{
    if begins_literal(text) {
        let _ = literal_word(text.split_at(1).1)?;
        Some(Some(1))
    } else {
        Some(heft_kind(heft_of(weights, text)?))
    }
}

/// The kind of address, tag and decrement together; a field that isn't of its form is at fault anyway.
fn joined_kind(
    address: Option<Option<u64>>,
    tag: Option<bool>,
    decrement: Option<bool>,
) -> Option<u64>
    ensures { result ≡ joined_kind address tag decrement }
{
    let Some(address) = address else {
        return Some(0);
    };
    let Some(tag) = tag else {
        return Some(0);
    };
    let Some(decrement) = decrement else {
        return Some(0);
    };
    if tag && decrement { address } else { None }
}

/// The kind of a field with an address, a tag and a decrement.
#[tactic(auto, using(crate::proofs::FieldKinds::joined_kinds, crate::proofs::FieldKinds::many_kinds))]
fn parts_kind(op: Operation, weights: Names<'_>, most: u8, field: &[u8]) -> Option<u64>
    ensures { result
        ≡ kind_of op (externs_in weights.entry) (names_in weights.entry) (parts_of most (items_of field.now)) }
{
    if item_count(field) > usize::from(most) {
        return Some(0);
    }
    joined_kind(
        address_kind(weights, item_at(field, 0)),
        light_text(weights, item_at(field, 1)),
        light_text(weights, item_at(field, 2)),
    )
}

/// How much a field of one expression may weigh.
fn most_weight(op: Operation) -> u16
    ensures { result ≡ most_weight op }
{
    match op {
        Operation::Equ | Operation::End => 1,
        _ => 0,
    }
}

/// The kind of a field of one expression, which is what it weighs.
#[tactic(auto, using(crate::proofs::FieldKinds::value_kind_seen))]
pub(crate) fn value_kind(op: Operation, weights: Names<'_>, field: &[u8]) -> Option<u16>
    ensures { result
        ≡ kind_of op (externs_in weights.entry) (names_in weights.entry)
        (option_map (λ ts. value ts) (expression field.now)) }
{
    let Some(heft) = heft_of(weights, field) else {
        return Some(0);
    };
    if is_light(most_weight(op), heft) {
        Some(heft.weight)
    } else {
        None
    }
}

/// The kind of a card's field, if its expressions weigh what they may.
#[tactic(auto, using(crate::proofs::FieldKinds::half_kind, crate::proofs::FieldKinds::empty_kind, crate::proofs::FieldKinds::decimals_kind, crate::proofs::FieldKinds::octals_kind, crate::proofs::FieldKinds::characters_kind))]
pub(crate) fn kind(op: Operation, weights: Names<'_>, text: &[u8]) -> Option<u64>
    ensures { result ≡ kind_of op (externs_in weights.entry) (names_in weights.entry) (field_for op text.now) }
{
    match form(op) {
        Form::Parts(most) => parts_kind(op, weights, most, field(text)),
        Form::OneValue => Some(u64::from(value_kind(op, weights, field(text))?)),
        Form::OctalHalf | Form::Empty | Form::Decimals | Form::Octals | Form::Characters => Some(0),
    }
}
