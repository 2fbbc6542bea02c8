//! Why cards are at fault.
ghost use Rattle.std.specs.Prelude.{◌≡◌, ◌^◌, ◌<◌, Some, IfOk};
ghost use Rattle.fap_model.specs.Causes.{fault_number, cause_by, cause_of};
ghost use Rattle.fap_model.specs.Decks.{fault_of};
ghost use Rattle.fap_assemble.specs.Causes.{cause_said, card_cause};
ghost use Rattle.fap_assemble.specs.Fields.{known_at, known_in};
ghost use Rattle.fap_assemble.specs.Wholes.{whole_in};
ghost use Rattle.fap_model.specs.declared.types.Operation.TheVariants.{End as end};

use crate::field::{Said, is_defined, is_wrong, read};
use crate::place::{KnownAt, count, is_equ, is_far, is_known, takes_flag};
use crate::symbols::Symbols;
use crate::whole::{Whole, is_start_outside, names_seen};
use ctss_types::NoMemory;
use fap_model::{FaultCause, Operation};
use fap_read::{flag, has_bad_symbol, has_symbol, is_bad, is_comment, operation};
use std::alloc::Global;

/// Why a card with an operation is at fault, if it is: `more` words follow its own, and `wrong` is a fault of its field that
/// only the whole list shows.
fn cause(
    op: Operation,
    text: &[u8],
    said: &Option<Said>,
    k: KnownAt<'_>,
    more: usize,
    wrong: bool,
) -> Option<FaultCause>
    ensures { result ≡ cause_said more wrong (known_in k.entry) op text.now said.now }
{
    if is_bad(text) {
        Some(FaultCause::Characters)
    } else if has_bad_symbol(text) {
        Some(FaultCause::BadSymbol)
    } else if flag(text) && !takes_flag(op) {
        Some(FaultCause::Flag)
    } else if is_equ(op) && !has_symbol(text) {
        Some(FaultCause::NoSymbol)
    } else if said.is_none() {
        Some(FaultCause::BadForm)
    } else if is_wrong(said) {
        Some(FaultCause::HighTag)
    } else if wrong {
        Some(FaultCause::Start)
    } else if !is_defined(said) {
        Some(FaultCause::Undefined)
    } else if is_known(text, k.symbols, k.visible, k.place) {
        Some(FaultCause::Repeated)
    } else if is_far(k.place, count(op, said), more) {
        Some(FaultCause::PastEnd)
    } else {
        None
    }
}

/// Why the END card is at fault.
fn end_cause(
    alloc: Global,
    text: &[u8],
    whole: &Whole,
    visible: usize,
    place: u64,
) -> Result<Option<FaultCause>, NoMemory>
    requires { whole.now.blocks < 2 ^ 30 }
    ensures { IfOk result (λ c. c ≡ cause_by (Some end) (whole_in whole.now)
        (known_at whole.now.symbols visible place) text.now) }
{
    let symbols = &whole.symbols;
    let said = read(alloc, Operation::End, text, symbols, symbols.len(), place)?;
    let more = whole.literals.len();
    let wrong = is_start_outside(whole.blocks, &said);
    let k = KnownAt {
        symbols,
        visible,
        place,
    };
    Ok(cause(Operation::End, text, &said, k, more, wrong))
}

/// Why a card with an operation that isn't END is at fault.
fn card_cause(
    alloc: Global,
    op: Operation,
    text: &[u8],
    symbols: &Symbols,
    visible: usize,
    place: u64,
) -> Result<Option<FaultCause>, NoMemory>
    ensures { IfOk result (λ c. c ≡ card_cause op symbols.now visible place text.now) }
{
    let names = names_seen(op, symbols, visible);
    let said = read(alloc, op, text, symbols, names, place)?;
    let k = KnownAt {
        symbols,
        visible,
        place,
    };
    Ok(cause(op, text, &said, k, 0, false))
}

/// Why a card with an operation is at fault.
fn cause_by(
    alloc: Global,
    op: Operation,
    text: &[u8],
    whole: &Whole,
    visible: usize,
    place: u64,
) -> Result<Option<FaultCause>, NoMemory>
    requires { whole.now.blocks < 2 ^ 30 }
    ensures { IfOk result (λ c. c ≡ cause_by (Some op) (whole_in whole.now) (known_at whole.now.symbols visible place)
        text.now) }
{
    match op {
        Operation::End => end_cause(alloc, text, whole, visible, place),
        _ => card_cause(alloc, op, text, &whole.symbols, visible, place),
    }
}

/// Why a card is at fault, if it is.
pub(crate) fn cause_of(
    alloc: Global,
    text: &[u8],
    whole: &Whole,
    visible: usize,
    place: u64,
) -> Result<Option<FaultCause>, NoMemory>
    requires { whole.now.blocks < 2 ^ 30 }
    ensures { IfOk result (λ c. c ≡ cause_of (whole_in whole.now) (known_at whole.now.symbols visible place) text.now) }
{
    if is_comment(text) {
        return Ok(if is_bad(text) {
            Some(FaultCause::Characters)
        } else {
            None
        });
    }
    match operation(text) {
        Some(op) => cause_by(alloc, op, text, whole, visible, place),
        None => Ok(Some(FaultCause::NoOperation)),
    }
}

/// The number of a card's fault, 0 where there is none.
fn fault_number(cause: Option<FaultCause>) -> u8
    ensures { result ≡ fault_number cause }
{
    match cause {
        Some(cause) => cause.number(),
        None => 0,
    }
}

/// The least fault of a card, 0 where there is none.
pub(crate) fn fault_of(
    alloc: Global,
    text: &[u8],
    whole: &Whole,
    visible: usize,
    place: u64,
) -> Result<u8, NoMemory>
    requires { whole.now.blocks < 2 ^ 30 }
    ensures { IfOk result (λ f. f ≡ fault_of (whole_in whole.now) (known_at whole.now.symbols visible place) text.now) }
{
    let cause = cause_of(alloc, text, whole, visible, place)?;
    Ok(fault_number(cause))
}
