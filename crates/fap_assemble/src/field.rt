ghost use Rattle.std.specs.Prelude.{◌≡◌, ◌<◌, ◌^◌, IfOk, IfSome, take, drop, length, nat_eq, nat_lt};
ghost use Rattle.std.specs.Option.{option_map};
ghost use Rattle.fap_model.specs.Terms.{begins_literal, items_of};
ghost use Rattle.fap_model.specs.Statements.{address_of, parts_of, field_for, literal_at};
ghost use Rattle.fap_model.specs.Decks.{literal_by};
ghost use Rattle.fap_model.specs.Places.{value_of};
ghost use Rattle.fap_assemble.specs.Names.{names_in};
ghost use Rattle.fap_assemble.specs.Fields.{address_said, said, fields_joined, HasShortAddress, HasShortValues, IsShort, is_wrong, address_is_defined, is_defined, number, data_words};
ghost use Rattle.fap_assemble.specs.declared.field.Said.TheVariants.{Words};

use crate::expression::value;
use crate::names::Names;
use crate::symbols::Symbols;
use ctss_types::{NoMemory, WordList};
use fap_model::{Form, Operation};
use fap_read::{field, form, given_words, half, item_at, item_count, literal_word};
use std::alloc::Global;
use word36::Word;

/// An address: the value of an expression, if its symbols have one, or a literal.
#[derive(Clone, Copy)]
pub(crate) enum Address {
    Plain(Option<u16>),
    Literal(Word),
}

/// What a field says, with the values of its expressions.
#[derive(Drop)]
pub(crate) enum Said {
    Placed {
        address: Address,
        tag: Option<u16>,
        decrement: Option<u16>,
    },
    Half(u32),
    Nothing,
    Value(Option<u16>),
    Words(WordList),
}

/// Whether a text begins as a literal does.
pub(crate) fn begins_literal(text: &[u8]) -> bool
    ensures { result ≡ begins_literal text.now }
{
    match text {
        [first, ..] => *first == b'=',
        [] => false,
    }
}

/// The literal that an address is.
#[tactic(auto, using(crate::proofs::Fields::literal_seen))]
fn literal_in(text: &[u8]) -> Option<Word>
    ensures { result ≡ literal_at (address_of text.now) }
{
    if begins_literal(text) {
        literal_word(text.split_at(1).1)
    } else {
        None
    }
}

/// The literal that a card uses.
pub(crate) fn literal(op: Operation, text: &[u8]) -> Option<Word>
    ensures { result ≡ literal_by (Some op) text.now }
{
    match form(op) {
        Form::Parts(_) => literal_in(item_at(field(text), 0)),
        _ => None,
    }
}

/// An address, where its text is one.
#[tactic(auto, using(crate::proofs::Fields::address_seen))]
pub(crate) fn address_in(names: Names<'_>, place: u64, text: &[u8]) -> Option<Address>
    ensures value { result ≡ option_map (address_said (names_in names.entry) place) (address_of text.now) }
    ensures short { IfSome result HasShortAddress }
{
    if begins_literal(text) {
        Some(Address::Literal(literal_word(text.split_at(1).1)?))
    } else {
        Some(Address::Plain(value(names, place, text)?))
    }
}

/// Address, tag and decrement together.
fn joined(
    address: Option<Address>,
    tag: Option<Option<u16>>,
    decrement: Option<Option<u16>>,
) -> Option<Said>
    requires address { IfSome address HasShortAddress }
    requires tag { IfSome tag IsShort }
    requires decrement { IfSome decrement IsShort }
    ensures value { result ≡ fields_joined address tag decrement }
    ensures short { IfSome result HasShortValues }
{
    Some(Said::Placed {
        address: address?,
        tag: tag?,
        decrement: decrement?,
    })
}

/// Address, tag and decrement, of which there are at most so many.
#[tactic(auto, using(crate::proofs::Fields::joined_parts, crate::proofs::Fields::many_parts))]
fn parts(names: Names<'_>, place: u64, most: u8, field: &[u8]) -> Option<Said>
    ensures value { result ≡ option_map (said (names_in names.entry) place) (parts_of most (items_of field.now)) }
    ensures short { IfSome result HasShortValues }
{
    if item_count(field) > usize::from(most) {
        return None;
    }
    joined(
        address_in(names, place, item_at(field, 0)),
        value(names, place, item_at(field, 1)),
        value(names, place, item_at(field, 2)),
    )
}

/// What a field of words says.
fn words(words: Option<WordList>) -> Option<Said>
    ensures value { result ≡ option_map (λ ws. Words ws) words }
    ensures short { IfSome result HasShortValues }
{
    Some(Said::Words(words?))
}

/// What the field of a card with an operation says, where it is of its form.
pub(crate) fn read_with(
    alloc: Global,
    op: Operation,
    text: &[u8],
    names: Names<'_>,
    place: u64,
) -> Result<Option<Said>, NoMemory>
    ensures value { IfOk result (λ r. r ≡ option_map (said (names_in names.entry) place) (field_for op text.now)) }
    ensures short { IfOk result (λ r. IfSome r HasShortValues) }
{
    Ok(match form(op) {
        Form::Parts(most) => parts(names, place, most, field(text)),
        Form::OctalHalf => half(text).map(|n| Said::Half(n)),
        Form::Empty => {
            if field(text).is_empty() {
                Some(Said::Nothing)
            } else {
                None
            }
        }
        Form::OneValue => value(names, place, field(text)).map(|v| Said::Value(v)),
        _ => words(given_words(alloc, op, text)?),
    })
}

/// The same where the first `visible` symbols of a table may be used.
pub(crate) fn read(
    alloc: Global,
    op: Operation,
    text: &[u8],
    symbols: &Symbols,
    visible: usize,
    place: u64,
) -> Result<Option<Said>, NoMemory>
    ensures value { IfOk result (λ r. r ≡ option_map (said (take visible symbols.now) place) (field_for op text.now)) }
    ensures short { IfOk result (λ r. IfSome r HasShortValues) }
{
    let names = Names {
        externs: None,
        symbols,
        visible,
    };
    read_with(alloc, op, text, names, place)
}

/// Whether a field isn't of its form, or has a tag above 7.
pub(crate) fn is_wrong(said: &Option<Said>) -> bool
    ensures { result ≡ is_wrong said.now }
{
    match said {
        None => true,
        Some(Said::Placed { tag, .. }) => match tag {
            Some(tag) => *tag > 7,
            None => false,
        },
        _ => false,
    }
}

/// Whether each symbol of an address has a value.
fn address_is_defined(address: Address) -> bool
    ensures { result ≡ address_is_defined address }
{
    match address {
        Address::Plain(value) => value.is_some(),
        Address::Literal(_) => true,
    }
}

/// Whether each symbol of a field has a value.
pub(crate) fn is_defined(said: &Option<Said>) -> bool
    ensures { result ≡ is_defined said.now }
{
    match said {
        Some(
            Said::Placed {
                address,
                tag,
                decrement,
            },
        ) => address_is_defined(*address) && tag.is_some() && decrement.is_some(),
        Some(Said::Value(value)) => value.is_some(),
        _ => true,
    }
}

/// The value that a field says, and 0 where there is none.
pub(crate) fn number(said: &Option<Said>) -> u16
    ensures { result ≡ number said.now }
{
    match said {
        Some(Said::Value(Some(value))) => *value,
        _ => 0,
    }
}

/// How many words a field gives.
pub(crate) fn data_words(said: &Option<Said>) -> usize
    ensures { result ≡ data_words said.now }
{
    match said {
        Some(Said::Words(words)) => words.len(),
        _ => 0,
    }
}
