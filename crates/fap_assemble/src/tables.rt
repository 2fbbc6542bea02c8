ghost use Rattle.std.specs.Prelude.{◌≡◌, ◌+◌, ◌^◌, ◌<◌, ◌≤◌, [], Some, IfOk, OnOk, length, map, max};
ghost use Rattle.fap_model.specs.Places.{with_symbol, known_behind, known_after, nothing_known};
ghost use Rattle.fap_model.specs.Decks.{operation_in, literal_by, with_literal, size_by, reach_of};
ghost use Rattle.fap_assemble.specs.Fields.{known_at};
ghost use Rattle.fap_assemble.specs.Steps.{place_by, value_by, texts};
ghost use Rattle.fap_assemble.specs.Passes.{symbol_entered, known_in, HasAll};

use crate::field::literal;
use crate::literals::Literals;
use crate::place::{definition, operation_in, place_behind, size_behind, value_behind};
use crate::symbols::Symbols;
use ctss_types::NoMemory;
use fap_model::Operation;
use fap_read::Card;
use std::alloc::Global;
use word36::Word;

/// What the cards so far come to: their symbols and literals, the place behind them, and one more than the highest place
/// that has a word or is reserved.
#[derive(Drop)]
pub(crate) struct Tables {
    pub(crate) symbols: Symbols,
    pub(crate) literals: Literals,
    pub(crate) place: u64,
    pub(crate) reach: u64,
}

/// What a card comes to: how many words it takes or reserves, the place behind it, the value of its symbol.
#[derive(Clone, Copy)]
struct Measured {
    size: u64,
    next: u64,
    value: u16,
}

/// What a card comes to at a place, where all symbols of earlier cards are known.
fn measure(
    alloc: Global,
    op: Option<Operation>,
    text: &[u8],
    symbols: &Symbols,
    place: u64,
) -> Result<Measured, NoMemory>
    requires { place < 2 ^ 40 }
    ensures size { IfOk result (λ m. m.size ≡ size_by op (known_at symbols.now (length symbols.now) place) text.now) }
    ensures next { IfOk result (λ m. m.next ≡ place_by op (known_at symbols.now (length symbols.now) place) text.now) }
    ensures value { IfOk result (λ m. m.value
        ≡ value_by op (known_at symbols.now (length symbols.now) place) text.now) }
    ensures size_within { IfOk result (λ m. place + m.size ≤ max 32768 (place + 1)) }
    ensures next_within { IfOk result (λ m. m.next ≤ max 65535 (place + 1)) }
{
    let visible = symbols.len();
    Ok(Measured {
        size: size_behind(alloc, op, text, symbols, visible, place)?,
        next: place_behind(alloc, op, text, symbols, visible, place)?,
        value: value_behind(alloc, op, text, symbols, visible, place)?,
    })
}

/// Defines the symbol that a card has.
fn enter_symbol(symbols: &mut Symbols, name: Option<Word>, value: u16) -> Result<(), NoMemory>
    ensures { OnOk result (symbols.new ≡ symbol_entered symbols.old name value) }
{
    match name {
        Some(name) => symbols.define(name, value),
        None => Ok(()),
    }
}

/// The literal that a card uses.
pub(crate) fn literal_by(op: Option<Operation>, text: &[u8]) -> Option<Word>
    ensures { result ≡ literal_by op text.now }
{
    literal(op?, text)
}

/// Takes a literal if there is one.
pub(crate) fn enter_literal(literals: &mut Literals, word: Option<Word>) -> Result<(), NoMemory>
    ensures value { OnOk result (literals.new ≡ with_literal literals.old word) }
    ensures few { OnOk result (length literals.new ≤ length literals.old + 1) }
{
    match word {
        Some(word) => literals.add(word),
        None => Ok(()),
    }
}

/// One more than the highest place so far, behind so many words from a place on.
pub(crate) fn reach_of(reach: u64, place: u64, words: u64) -> u64
    requires place { place < 2 ^ 40 }
    requires words { words < 2 ^ 40 }
    ensures { result ≡ reach_of reach place words }
{
    if words == 0 {
        reach
    } else {
        reach.max(place + words)
    }
}

impl Tables {
    fn new(alloc: Global) -> Tables
        ensures { result ≡ record { symbols = []; literals = []; place = 0; reach = 0 } }
    {
        Tables {
            symbols: Symbols::new(alloc),
            literals: Literals::new(alloc),
            place: 0,
            reach: 0,
        }
    }

    /// Takes a card.
    fn enter(&mut self, alloc: Global, text: &[u8]) -> Result<(), NoMemory>
        requires { self.old.place < 2 ^ 39 }
        ensures known { OnOk result (known_in self.new ≡ known_behind (known_in self.old) text.now) }
        ensures literals { OnOk result (self.new.literals
            ≡ with_literal self.old.literals (literal_by (operation_in text.now) text.now)) }
        ensures reach { OnOk result (self.new.reach ≡ reach_of self.old.reach self.old.place
            (size_by (operation_in text.now) (known_in self.old) text.now)) }
        ensures few { OnOk result (length self.new.literals ≤ length self.old.literals + 1) }
        ensures place_within { OnOk result (self.new.place ≤ max 65535 (self.old.place + 1)) }
        ensures reach_within { OnOk result (self.new.reach ≤ max self.old.reach (max 32768 (self.old.place + 1))) }
    {
        let op = operation_in(text);
        let card = measure(alloc, op, text, &self.symbols, self.place)?;
        enter_symbol(&mut self.symbols, definition(text), card.value)?;
        enter_literal(&mut self.literals, literal_by(op, text))?;
        self.reach = reach_of(self.reach, self.place, card.size);
        self.place = card.next;
        Ok(())
    }
}

/// What cards come to.
pub(crate) fn tables_of(alloc: Global, cards: &[Card]) -> Result<Tables, NoMemory>
    requires { length cards.now < 2 ^ 32 }
    ensures value { IfOk result (λ t. HasAll t (texts cards.now)) }
    ensures few { IfOk result (λ t. length t.literals < 2 ^ 33) }
    ensures place { IfOk result (λ t. t.place < 2 ^ 33) }
    ensures reach { IfOk result (λ t. t.reach < 2 ^ 33) }
{
    let mut tables = Tables::new(alloc);
    for card in cards {
        tables.enter(alloc, card.text.as_slice())?;
    }
    Ok(tables)
}
