//! At which of its columns a card is at fault.
ghost use Rattle.std.specs.Prelude.{◌≡◌, ◌+◌, ◌-◌, ◌<◌, ℕ, suc, not, is_none, IfSome, None, length, take};
ghost use Rattle.fap_model.specs.Places.{Known};
ghost use Rattle.fap_model.specs.Decks.{Whole as KnownOfAll};
ghost use Rattle.fap_model.specs.Terms.{expression, items_of};
ghost use Rattle.fap_model.specs.declared.types.FaultCause.TheVariants.{BadForm};
ghost use Rattle.fap_model.specs.Statements.{address_of};
ghost use Rattle.fap_model.specs.Causes.{address_has_value, bad_column, column_by, column_of, column_where, field_column, is_of_form};
ghost use Rattle.fap_assemble.specs.Columns.{passes, value_column};
ghost use Rattle.fap_assemble.specs.Fields.{known_at};
ghost use Rattle.fap_assemble.specs.Names.{names_in};
ghost use Rattle.fap_assemble.specs.Wholes.{whole_in};

use crate::expression::value;
use crate::field::{Address, address_in};
use crate::names::Names;
use crate::symbols::Symbols;
use crate::whole::{Whole, names_seen};
use fap_model::{FaultCause, Form, Operation};
use fap_read::{
    character_count, decimal_word, field, first_item, form, octal_number, operation_columns,
};

/// What an item of a field is tested for: that it is what a form has at its place, that it is the first one, or that its symbols
/// have a value.
#[derive(Clone, Copy)]
enum ItemTest {
    OfForm(Form),
    First,
    HasValue,
}

/// Whether a text is an address.
fn is_address(names: Names<'_>, item: &[u8]) -> bool
    ensures { result ≡ not (is_none (address_of item.now)) }
{
    address_in(names, 0, item).is_some()
}

/// Whether a text is an expression.
fn is_expression(names: Names<'_>, item: &[u8]) -> bool
    ensures { result ≡ not (is_none (expression item.now)) }
{
    value(names, 0, item).is_some()
}

/// Whether an item is what a form has at its place.
fn is_of_form(form: Form, names: Names<'_>, index: usize, item: &[u8]) -> bool
    ensures { result ≡ is_of_form form index item.now }
{
    match form {
        Form::Parts(most) => {
            index < usize::from(most)
                && if index == 0 {
                    is_address(names, item)
                } else {
                    is_expression(names, item)
                }
        }
        Form::OneValue => index == 0 && is_expression(names, item),
        Form::Decimals => decimal_word(item).is_some(),
        Form::Octals => octal_number(12, item).is_some(),
        Form::OctalHalf | Form::Empty | Form::Characters => false,
    }
}

/// Whether all symbols of an address have a value.
fn address_has_value(names: Names<'_>, item: &[u8]) -> bool
    ensures { result ≡ address_has_value (names_in names.entry) (address_of item.now) }
{
    match address_in(names, 0, item) {
        Some(Address::Plain(value)) => value.is_some(),
        _ => true,
    }
}

impl ItemTest {
    /// Whether an item passes, the number of which this is, from 0 on.
    fn passes(self, names: Names<'_>, index: usize, item: &[u8]) -> bool
        ensures { result ≡ passes self (names_in names.entry) index item.now }
    {
        match self {
            ItemTest::OfForm(form) => is_of_form(form, names, index, item),
            ItemTest::First => index == 0,
            ItemTest::HasValue => address_has_value(names, item),
        }
    }

    /// What stands behind the first item, if there is another and the first one passes.
    fn behind<'a>(self, names: Names<'_>, index: usize, items: &'a [u8]) -> Option<&'a [u8]>
        ensures stays { result ≡ None → (column : ℕ)
            → column_where (passes self (names_in names.entry)) index column (items_of items.now) ≡ column }
        ensures goes { IfSome result (λ rest. (column : ℕ)
            → column_where (passes self (names_in names.entry)) index column (items_of items.now)
            ≡ column_where (passes self (names_in names.entry)) (suc index)
            (column + (length items.now - length rest.now)) (items_of rest.now)) }
        ensures shorter { IfSome result (λ rest. length rest.now < length items.now) }
    {
        let (item, more) = first_item(items);
        let rest = more?;
        if self.passes(names, index, item) {
            Some(rest)
        } else {
            None
        }
    }

    /// The column of the first item of a card's field that doesn't pass, or of the last one.
    fn column(self, names: Names<'_>, text: &[u8]) -> u8
        ensures { result ≡ field_column (passes self (names_in names.entry)) text.now }
    {
        let field = field(text);
        let mut items = field;
        let mut index = 0;
        'items: while let Some(rest) = self.behind(names, index, items) {
            items = rest;
            index += 1;
        }
        16 + (field.len() - items.len()) as u8
    }
}

/// The first column with a character outside the 48, or the one behind the last that a card has.
fn bad_column(text: &[u8]) -> u8
    ensures { result ≡ bad_column text.now }
{
    if 84 < text.len() {
        85
    } else {
        1 + character_count(text) as u8
    }
}

/// The first symbols of a table.
fn first_names(symbols: &Symbols, visible: usize) -> Names<'_>
    ensures { names_in result ≡ take visible symbols.now }
{
    Names {
        externs: None,
        symbols,
        visible,
    }
}

/// The column of a field that isn't of its operation's form.
fn form_column(op: Option<Operation>, symbols: &Symbols, text: &[u8]) -> u8
    ensures { (whole : KnownOfAll) (k : Known) → result ≡ column_by op whole k text.now BadForm }
{
    match op {
        Some(op) => ItemTest::OfForm(form(op)).column(first_names(symbols, 0), text),
        None => 16,
    }
}

/// The column of a field with a symbol that has no value.
fn value_column(op: Option<Operation>, symbols: &Symbols, visible: usize, text: &[u8]) -> u8
    ensures { result ≡ value_column op symbols.now visible text.now }
{
    match op {
        Some(op) => {
            let seen = names_seen(op, symbols, visible);
            ItemTest::HasValue.column(first_names(symbols, seen), text)
        }
        None => 16,
    }
}

/// The column at which a card is at fault for a cause.
fn column_by(
    op: Option<Operation>,
    whole: &Whole,
    visible: usize,
    place: u64,
    text: &[u8],
    cause: FaultCause,
) -> u8
    ensures { result ≡ column_by op (whole_in whole.now) (known_at whole.now.symbols visible place) text.now cause }
{
    let symbols = &whole.symbols;
    match cause {
        FaultCause::NoOperation | FaultCause::PastEnd => 8,
        FaultCause::Characters => bad_column(text),
        FaultCause::BadSymbol | FaultCause::NoSymbol | FaultCause::Repeated => 1,
        FaultCause::Flag => 7 + operation_columns(text).len() as u8,
        FaultCause::BadForm => form_column(op, symbols, text),
        FaultCause::HighTag => ItemTest::First.column(first_names(symbols, 0), text),
        FaultCause::Start => 16,
        FaultCause::Undefined => value_column(op, symbols, visible, text),
    }
}

/// The column at which a card is at fault, 0 where it isn't.
pub(crate) fn column_of(
    op: Option<Operation>,
    whole: &Whole,
    visible: usize,
    place: u64,
    text: &[u8],
    cause: Option<FaultCause>,
) -> u8
    ensures { result ≡ column_of op (whole_in whole.now) (known_at whole.now.symbols visible place) text.now cause }
{
    match cause {
        Some(cause) => column_by(op, whole, visible, place, text, cause),
        None => 0,
    }
}
