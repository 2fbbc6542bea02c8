//! The cards that have a symbol in their columns or their field.
ghost use Rattle.std.specs.Prelude.{◌≡◌, ◌++◌, ◌-◌, ◌^◌, ◌<◌, Some, length, IfOk, OnOk};
ghost use Rattle.std.specs.List.{flat_map};
ghost use Rattle.fap_model.specs.Listed.{defined_on, mentioned, mentions_from, name_in, has_expressions, used_by, used_in, used_on};
ghost use Rattle.fap_model.specs.Terms.{items_of};
ghost use Rattle.fap_assemble.specs.Mentions.{named_term};
ghost use Rattle.fap_assemble.specs.Steps.{texts};

use crate::field::begins_literal;
use crate::place::{definition, operation_in};
use ctss_types::{NoMemory, Sequence};
use fap_model::{Form, Mention, Operation, Term};
use fap_read::{Card, field, first_item, first_term, form, term};
use std::alloc::Global;
use word36::Word;

/// Mentions in order of cards.
pub type Mentions = Sequence<Mention>;

/// Notes that a card has a symbol, if it has one.
fn note(mentions: &mut Mentions, card: u32, name: Option<Word>) -> Result<(), NoMemory>
    ensures { OnOk result (mentions.new ≡ mentions.old ++ mentioned card name) }
{
    match name {
        Some(name) => mentions.push(Mention { name, card }),
        None => Ok(()),
    }
}

/// The symbol that a term is.
fn name_of(term: Term) -> Option<Word>
    ensures { result ≡ name_in (Some term) }
{
    match term {
        Term::Named(name) => Some(name),
        Term::Number(_) | Term::Here => None,
    }
}

/// The symbol that a text is as a term.
fn named_term(text: &[u8]) -> Option<Word>
    ensures { result ≡ named_term text.now }
{
    match term(text) {
        Some(term) => name_of(term),
        None => None,
    }
}

/// Notes the symbols among the terms of an item.
fn note_item(mentions: &mut Mentions, card: u32, item: &[u8]) -> Result<(), NoMemory>
    ensures { OnOk result (mentions.new ≡ mentions.old ++ used_in card item.now) }
{
    if begins_literal(item) {
        return Ok(());
    }
    let mut next = Some((false, item));
    'terms: while let Some((_, rest)) = next {
        let (first, more) = first_term(rest);
        note(mentions, card, named_term(first))?;
        next = more;
    }
    Ok(())
}

/// Notes the symbols of a field with expressions.
fn note_items(mentions: &mut Mentions, card: u32, field: &[u8]) -> Result<(), NoMemory>
    ensures { OnOk result (mentions.new ≡ mentions.old ++ flat_map (used_in card) (items_of field.now)) }
{
    let mut next = Some(field);
    'items: while let Some(rest) = next {
        let (item, more) = first_item(rest);
        note_item(mentions, card, item)?;
        next = more;
    }
    Ok(())
}

/// Whether a field of a form has expressions.
fn has_expressions(form: Form) -> bool
    ensures { result ≡ has_expressions form }
{
    matches!(form, Form::Parts(_) | Form::OneValue)
}

/// Notes the symbols of the field of a card with an operation.
fn note_field(
    mentions: &mut Mentions,
    card: u32,
    op: Option<Operation>,
    text: &[u8],
) -> Result<(), NoMemory>
    ensures { OnOk result (mentions.new ≡ mentions.old ++ used_by card op text.now) }
{
    match op {
        Some(op) => {
            if has_expressions(form(op)) {
                note_items(mentions, card, field(text))
            } else {
                Ok(())
            }
        }
        None => Ok(()),
    }
}

/// The cards with a symbol in their columns.
pub(crate) fn definitions_of(alloc: Global, cards: &[Card]) -> Result<Mentions, NoMemory>
    requires { length cards.now < 2 ^ 32 - 1 }
    ensures { IfOk result (λ ms. ms ≡ mentions_from defined_on 1 (texts cards.now)) }
{
    let mut mentions = Sequence::new(alloc);
    let mut number = 1;
    for card in cards {
        note(&mut mentions, number, definition(card.text.as_slice()))?;
        number += 1;
    }
    Ok(mentions)
}

/// The cards with symbols in their field.
pub(crate) fn uses_of(alloc: Global, cards: &[Card]) -> Result<Mentions, NoMemory>
    requires { length cards.now < 2 ^ 32 - 1 }
    ensures { IfOk result (λ ms. ms ≡ mentions_from used_on 1 (texts cards.now)) }
{
    let mut mentions = Sequence::new(alloc);
    let mut number = 1;
    for card in cards {
        let text = card.text.as_slice();
        note_field(&mut mentions, number, operation_in(text), text)?;
        number += 1;
    }
    Ok(mentions)
}
