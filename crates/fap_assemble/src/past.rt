ghost use Rattle.std.specs.Prelude.{◌≡◌, ◌+◌, ◌++◌, ◌^◌, ◌<◌, ◌≤◌, [], ◌∷◌, ◌&&◌, codes, length, IfOk};
ghost use Rattle.fap_model.specs.Cards.{is_comment};
ghost use Rattle.link_model.specs.ModuleCards.{has_operation, named_by, with_named};
ghost use Rattle.fap_assemble.specs.Steps.{texts};
ghost use Rattle.fap_assemble.specs.Judging.{past_of, past_with, one_if};

use crate::module_cards::field_symbol;
use crate::roster::Roster;
use ctss_types::NoMemory;
use fap_read::{Card, is_comment, operation_text};
use std::alloc::Global;
use word36::Word;

pub(crate) const ENTRY: &[u8] = b"ENTRY";

pub(crate) const EXTERN: &[u8] = b"EXTERN";

/// Whether a card that is no comment has an operation of this name.
pub(crate) fn has_operation(name: &[u8], text: &[u8]) -> bool
    ensures { result ≡ has_operation name.now text.now }
{
    !is_comment(text) && operation_text(text) == name
}

/// Names with one more, if there is one.
fn with_named(names: Roster, name: Option<Word>) -> Result<Roster, NoMemory>
    requires { length names < 2 ^ 32 }
    ensures value { IfOk result (λ r. r ≡ names ++ with_named name []) }
    ensures few { IfOk result (λ r. length r ≤ length names + 1) }
{
    match name {
        Some(name) => names.with(name),
        None => Ok(names),
    }
}

/// Names with the one that a card names, if it has the operation.
fn named_with(names: Roster, operation: &[u8], text: &[u8]) -> Result<Roster, NoMemory>
    requires { length names < 2 ^ 32 }
    ensures value { IfOk result (λ r. r ≡ names ++ named_by operation.now (text.now ∷ [])) }
    ensures few { IfOk result (λ r. length r ≤ length names + 1) }
{
    if has_operation(operation, text) {
        with_named(names, field_symbol(text))
    } else {
        Ok(names)
    }
}

/// The symbols that the cards with an operation name.
pub(crate) fn named_by(alloc: Global, operation: &[u8], cards: &[Card]) -> Result<Roster, NoMemory>
    requires { length cards.now < 2 ^ 32 }
    ensures { IfOk result (λ r. r ≡ named_by operation.now (texts cards.now)) }
{
    let mut names = Roster::new(alloc);
    for card in cards {
        let next = named_with(names, operation, card.text.as_slice())?;
        names = next;
    }
    Ok(names)
}

/// Whether comments alone stood before, with a card more.
fn only_with(only_comments: bool, text: &[u8]) -> bool
    ensures { result ≡ (only_comments && is_comment text.now) }
{
    only_comments && is_comment(text)
}

/// How many cards have an operation, with a card more.
fn count_with(cards: usize, operation: &[u8], text: &[u8]) -> usize
    requires { cards < 2 ^ 32 }
    ensures { result ≡ cards + one_if (has_operation operation.now text.now) }
{
    if has_operation(operation, text) {
        cards + 1
    } else {
        cards
    }
}

/// What stood before a card of a module: whether comments alone, what its ENTRYs and EXTERNs name, and how many of each there are.
#[derive(Drop)]
pub(crate) struct Past {
    pub(crate) only_comments: bool,
    pub(crate) entries: Roster,
    pub(crate) entry_cards: usize,
    pub(crate) externs: Roster,
    pub(crate) extern_cards: usize,
}

impl Past {
    /// No card.
    pub(crate) fn new(alloc: Global) -> Past
        ensures { result ≡ past_of [] }
    {
        Past {
            only_comments: true,
            entries: Roster::new(alloc),
            entry_cards: 0,
            externs: Roster::new(alloc),
            extern_cards: 0,
        }
    }

    /// A card more.
    pub(crate) fn with(self, text: &[u8]) -> Result<Past, NoMemory>
        requires entries { length self.entries < 2 ^ 32 }
        requires entry_cards { self.entry_cards < 2 ^ 32 }
        requires externs { length self.externs < 2 ^ 32 }
        requires extern_cards { self.extern_cards < 2 ^ 32 }
        ensures { IfOk result (λ p. p ≡ past_with self text.now) }
    {
        let Past {
            only_comments,
            entries,
            entry_cards,
            externs,
            extern_cards,
        } = self;
        let named = named_with(entries, ENTRY, text)?;
        let used = named_with(externs, EXTERN, text)?;
        Ok(Past {
            only_comments: only_with(only_comments, text),
            entries: named,
            entry_cards: count_with(entry_cards, ENTRY, text),
            externs: used,
            extern_cards: count_with(extern_cards, EXTERN, text),
        })
    }
}
