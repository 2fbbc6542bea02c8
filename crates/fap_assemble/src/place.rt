ghost use Rattle.std.specs.Prelude.{◌≡◌, ◌+◌, ◌%◌, ◌^◌, ◌<◌, ◌≤◌, ◌&&◌, ◌||◌, IfOk, max, nat_lt, nat_eq, not, take, length, is_some};
ghost use Rattle.fap_model.specs.Cards.{symbol_of};
ghost use Rattle.fap_model.specs.Statements.{field_for};
ghost use Rattle.fap_model.specs.Places.{takes_flag, is_equ, symbol_is_known, max_place, early_fault, size_of, next_place, symbol_value, known_behind};
ghost use Rattle.fap_model.specs.Places.{said as said_by};
ghost use Rattle.fap_model.specs.Decks.{operation_in, size_by};
ghost use Rattle.fap_assemble.specs.Fields.{known_at, known_in, count, fitting, word_count_at, is_misshapen, least, fault_known, fault, said_or};
ghost use Rattle.fap_assemble.specs.Steps.{definition, place_by, value_by, new_symbols};

use crate::field::{Said, data_words, is_defined, is_wrong, number, read};
use crate::symbols::Symbols;
use ctss_types::NoMemory;
use fap_model::Operation;
use fap_read::{flag, has_bad_symbol, has_symbol, is_bad, is_comment, operation, symbol};
use opcode_table::{Class, class};
use std::alloc::Global;
use word36::Word;

/// The number of places.
const MAX_PLACE: u64 = 32768;

/// What is known before a card: its place, and the first `visible` symbols, which are those of earlier cards.
#[derive(Clone, Copy)]
pub(crate) struct KnownAt<'a> {
    pub(crate) symbols: &'a Symbols,
    pub(crate) visible: usize,
    pub(crate) place: u64,
}

/// What a card's fault depends on beside its text: whether an earlier card has its symbol, its place, how many words follow
/// its own, and whether its field has a fault that only the whole list shows.
#[derive(Clone, Copy)]
pub(crate) struct Surroundings {
    pub(crate) known: bool,
    pub(crate) place: u64,
    pub(crate) more: usize,
    pub(crate) wrong: bool,
}

/// The operation of a card that isn't a comment.
pub(crate) fn operation_in(text: &[u8]) -> Option<Operation>
    ensures { result ≡ operation_in text.now }
{
    if is_comment(text) {
        None
    } else {
        operation(text)
    }
}

/// How many words a field takes or reserves.
pub(crate) fn count(op: Operation, said: &Option<Said>) -> usize
    ensures { result ≡ count op said.now }
{
    match op {
        Operation::Machine(_) | Operation::Pze => 1,
        Operation::Bss => usize::from(number(said)),
        Operation::Dec | Operation::Oct | Operation::Bci => data_words(said),
        Operation::Org | Operation::Equ | Operation::End => 0,
    }
}

/// The words up to the last place, or none.
fn fitting(place: u64, words: usize) -> u64
    requires { place < 2 ^ 40 }
    ensures value { result ≡ fitting place words }
    ensures within { place + result ≤ max 32768 place }
{
    let words = words as u64;
    if words <= MAX_PLACE && place + words <= MAX_PLACE {
        words
    } else {
        0
    }
}

/// How many words a card takes or reserves, where they end by the last place or don't depend on the field.
fn size(op: Operation, place: u64, said: &Option<Said>) -> u64
    requires { place < 2 ^ 40 }
    ensures value { result ≡ word_count_at op place said.now }
    ensures within { place + result ≤ max 32768 (place + 1) }
{
    match op {
        Operation::Machine(_) | Operation::Pze => 1,
        _ => fitting(place, count(op, said)),
    }
}

/// Whether an operation can have a flag.
pub(crate) fn takes_flag(op: Operation) -> bool
    ensures { result ≡ takes_flag op }
{
    match op {
        Operation::Machine(op) => match class(op) {
            Class::Addressed => true,
            _ => false,
        },
        _ => false,
    }
}

/// Whether an operation is EQU.
pub(crate) fn is_equ(op: Operation) -> bool
    ensures { result ≡ is_equ op }
{
    match op {
        Operation::Equ => true,
        _ => false,
    }
}

/// Whether a card is at fault whatever its field says.
fn is_misshapen(op: Operation, text: &[u8]) -> bool
    ensures { result ≡ is_misshapen op text.now }
{
    is_bad(text)
        || has_bad_symbol(text)
        || flag(text) && !takes_flag(op)
        || is_equ(op) && !has_symbol(text)
}

/// Whether an earlier card has a card's symbol.
pub(crate) fn is_known(text: &[u8], symbols: &Symbols, visible: usize, place: u64) -> bool
    ensures { result ≡ symbol_is_known (known_at symbols.now visible place) (symbol_of text.now) }
{
    match symbol(text) {
        Some(name) => symbols.value(visible, name).is_some(),
        None => false,
    }
}

/// Whether words behind a place pass the last one.
pub(crate) fn is_far(place: u64, words: usize, more: usize) -> bool
    ensures { result ≡ nat_lt max_place (place + words + more) }
{
    place
        .saturating_add(words as u64)
        .saturating_add(more as u64)
        > MAX_PLACE
}

/// The least of the faults.
fn least(misshapen: bool, wrong: bool, undefined: bool, known: bool, far: bool) -> u8
    ensures { result ≡ least misshapen wrong undefined known far }
{
    if misshapen || wrong {
        2
    } else if undefined {
        3
    } else if known {
        4
    } else if far {
        5
    } else {
        0
    }
}

/// The least fault of a card with an operation, 0 where there is none.
pub(crate) fn fault_known(
    op: Operation,
    text: &[u8],
    said: &Option<Said>,
    around: Surroundings,
) -> u8
    ensures { result ≡ fault_known op text.now said.now around.known around.place around.more around.wrong }
{
    least(
        is_misshapen(op, text),
        is_wrong(said) || around.wrong,
        !is_defined(said),
        around.known,
        is_far(around.place, count(op, said), around.more),
    )
}

/// The same by what is known before the card, where `more` words follow its own, and `wrong` is a fault of its field that only
/// the whole list shows.
pub(crate) fn fault(
    op: Operation,
    text: &[u8],
    said: &Option<Said>,
    k: KnownAt<'_>,
    more: usize,
    wrong: bool,
) -> u8
    ensures { result ≡ fault more wrong (known_in k.entry) op text.now said.now }
{
    let around = Surroundings {
        known: is_known(text, k.symbols, k.visible, k.place),
        place: k.place,
        more,
        wrong,
    };
    fault_known(op, text, said, around)
}

/// The fault of a card whose field uses earlier symbols alone.
#[tactic(auto, using(crate::proofs::Places::early_fault_is))]
fn early_fault(
    alloc: Global,
    op: Operation,
    text: &[u8],
    symbols: &Symbols,
    visible: usize,
    place: u64,
) -> Result<u8, NoMemory>
    ensures { IfOk result (λ f. f ≡ early_fault (known_at symbols.now visible place) op text.now) }
{
    let said = read(alloc, op, text, symbols, visible, place)?;
    let k = KnownAt {
        symbols,
        visible,
        place,
    };
    Ok(fault(op, text, &said, k, 0, false))
}

/// The value that a field says.
#[tactic(auto, using(crate::proofs::Places::number_is))]
pub(crate) fn said_number(
    alloc: Global,
    op: Operation,
    text: &[u8],
    symbols: &Symbols,
    visible: usize,
    place: u64,
) -> Result<u16, NoMemory>
    ensures { IfOk result (λ n. n ≡ said_by (known_at symbols.now visible place) (field_for op text.now)) }
{
    let said = read(alloc, op, text, symbols, visible, place)?;
    Ok(number(&said))
}

/// How many words a card takes or reserves.
#[tactic(auto, using(crate::proofs::Places::size_is))]
fn size_of(
    alloc: Global,
    op: Operation,
    text: &[u8],
    symbols: &Symbols,
    visible: usize,
    place: u64,
) -> Result<u64, NoMemory>
    requires { place < 2 ^ 40 }
    ensures value { IfOk result (λ n. n ≡ size_of op (known_at symbols.now visible place) (field_for op text.now)) }
    ensures within { IfOk result (λ n. place + n ≤ max 32768 (place + 1)) }
{
    match op {
        Operation::Machine(_) | Operation::Pze => Ok(1),
        _ => {
            let said = read(alloc, op, text, symbols, visible, place)?;
            Ok(size(op, place, &said))
        }
    }
}

/// What an ORG or an EQU says if it isn't at fault, and else another value.
fn said_or(
    alloc: Global,
    op: Operation,
    text: &[u8],
    k: KnownAt<'_>,
    other: u64,
) -> Result<u64, NoMemory>
    ensures value { IfOk result (λ n. n ≡ said_or op (known_in k.entry) text.now other) }
    ensures within { IfOk result (λ n. n ≤ max 65535 other) }
{
    let fault = early_fault(alloc, op, text, k.symbols, k.visible, k.place)?;
    if fault == 0 {
        let number = said_number(alloc, op, text, k.symbols, k.visible, k.place)?;
        Ok(u64::from(number))
    } else {
        Ok(other)
    }
}

/// The place behind a card with an operation.
fn next_place(
    alloc: Global,
    op: Operation,
    text: &[u8],
    symbols: &Symbols,
    visible: usize,
    place: u64,
) -> Result<u64, NoMemory>
    requires { place < 2 ^ 40 }
    ensures value { IfOk result (λ n. n ≡ next_place (known_at symbols.now visible place) op text.now) }
    ensures within { IfOk result (λ n. n ≤ max 65535 (place + 1)) }
{
    match op {
        Operation::Org => {
            let k = KnownAt {
                symbols,
                visible,
                place,
            };
            said_or(alloc, op, text, k, place)
        }
        _ => {
            let size = size_of(alloc, op, text, symbols, visible, place)?;
            Ok(place + size)
        }
    }
}

/// The value of the symbol of a card with an operation.
fn symbol_value(
    alloc: Global,
    op: Operation,
    text: &[u8],
    symbols: &Symbols,
    visible: usize,
    place: u64,
) -> Result<u16, NoMemory>
    ensures { IfOk result (λ n. n ≡ symbol_value (known_at symbols.now visible place) op text.now) }
{
    match op {
        Operation::Equ => {
            let fault = early_fault(alloc, op, text, symbols, visible, place)?;
            if fault == 0 {
                said_number(alloc, op, text, symbols, visible, place)
            } else {
                Ok(0)
            }
        }
        _ => Ok((place % MAX_PLACE) as u16),
    }
}

/// The place behind a card.
pub(crate) fn place_behind(
    alloc: Global,
    op: Option<Operation>,
    text: &[u8],
    symbols: &Symbols,
    visible: usize,
    place: u64,
) -> Result<u64, NoMemory>
    requires { place < 2 ^ 40 }
    ensures value { IfOk result (λ n. n ≡ place_by op (known_at symbols.now visible place) text.now) }
    ensures within { IfOk result (λ n. n ≤ max 65535 (place + 1)) }
{
    match op {
        Some(op) => next_place(alloc, op, text, symbols, visible, place),
        None => Ok(place),
    }
}

/// The value of a card's symbol.
pub(crate) fn value_behind(
    alloc: Global,
    op: Option<Operation>,
    text: &[u8],
    symbols: &Symbols,
    visible: usize,
    place: u64,
) -> Result<u16, NoMemory>
    ensures { IfOk result (λ n. n ≡ value_by op (known_at symbols.now visible place) text.now) }
{
    match op {
        Some(op) => symbol_value(alloc, op, text, symbols, visible, place),
        None => Ok((place % MAX_PLACE) as u16),
    }
}

/// How many words a card takes or reserves.
pub(crate) fn size_behind(
    alloc: Global,
    op: Option<Operation>,
    text: &[u8],
    symbols: &Symbols,
    visible: usize,
    place: u64,
) -> Result<u64, NoMemory>
    requires { place < 2 ^ 40 }
    ensures value { IfOk result (λ n. n ≡ size_by op (known_at symbols.now visible place) text.now) }
    ensures within { IfOk result (λ n. place + n ≤ max 32768 (place + 1)) }
{
    match op {
        Some(op) => size_of(alloc, op, text, symbols, visible, place),
        None => Ok(0),
    }
}

/// The symbol that a card defines, if no earlier card does.
pub(crate) fn definition(text: &[u8]) -> Option<Word>
    ensures { result ≡ definition text.now }
{
    if is_comment(text) { None } else { symbol(text) }
}

/// How many of a whole table's symbols are known behind a card.
pub(crate) fn visible_behind(text: &[u8], symbols: &Symbols, visible: usize) -> usize
    requires { visible < 2 ^ 40 }
    ensures value { result ≡ visible + new_symbols (take visible symbols.now) (definition text.now) }
    ensures few { result ≤ visible + 1 }
{
    match definition(text) {
        Some(name) => {
            if symbols.value(visible, name).is_none() {
                visible + 1
            } else {
                visible
            }
        }
        None => visible,
    }
}
