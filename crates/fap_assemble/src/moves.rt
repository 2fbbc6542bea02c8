ghost use Rattle.std.specs.Prelude.{◌≡◌, ◌+◌, ◌^◌, ◌<◌, ◌≤◌, [], Some, IfOk, OnOk, length, max, nat_lt, take, if◌then◌else◌};
ghost use Rattle.fap_model.specs.Cards.{symbol_of};
ghost use Rattle.fap_model.specs.declared.types.Operation.TheVariants.{Equ as equ};
ghost use Rattle.fap_model.specs.Places.{max_place};
ghost use Rattle.fap_model.specs.Decks.{operation_in, literal_by, with_literal, literals_with};
ghost use Rattle.link_model.specs.Moves.{nothing_moved, without_org, module_operation, early_kind, equ_fault, count_in, moved_size, worth, is_equ_in, equs_with, moved_behind, moved_after};
ghost use Rattle.fap_assemble.specs.Steps.{texts};
ghost use Rattle.fap_assemble.specs.Passes.{symbol_entered};
ghost use Rattle.fap_assemble.specs.Moving.{moved_before, known_moves, moves_in, moved_by};

use crate::field::{read, read_with};
use crate::kind::{kind, value_kind};
use crate::literals::Literals;
use crate::names::Names;
use crate::place::{KnownAt, count, fault, operation_in, said_number};
use crate::roster::Roster;
use crate::symbols::Symbols;
use crate::tables::{enter_literal, literal_by};
use ctss_types::NoMemory;
use fap_model::Operation;
use fap_read::{Card, field, is_comment, symbol};
use std::alloc::Global;
use std::mem;
use word36::Word;

/// The number of places.
const MAX_PLACE: u64 = 32768;

/// What is known before a card of a module: its place, the first `visible` symbols, the weights of the first `weighed`, and
/// the externs of all cards.
#[derive(Clone, Copy)]
pub(crate) struct Before<'a> {
    pub(crate) externs: &'a Roster,
    pub(crate) symbols: &'a Symbols,
    pub(crate) weights: &'a Symbols,
    pub(crate) visible: usize,
    pub(crate) weighed: usize,
    pub(crate) place: u64,
}

/// A module has no ORG.
pub(crate) fn without_org(op: Option<Operation>) -> Option<Operation>
    ensures { result ≡ without_org op }
{
    match op {
        None => None,
        Some(Operation::Org) => None,
        Some(op) => Some(op),
    }
}

/// The operation of a module's card.
pub(crate) fn module_operation(text: &[u8]) -> Option<Operation>
    ensures { result ≡ module_operation text.now }
{
    without_org(operation_in(text))
}

/// The kind of a card's field, where it may use the symbols of earlier cards alone.
pub(crate) fn early_kind(op: Operation, text: &[u8], b: Before<'_>) -> Option<u64>
    ensures { result ≡ early_kind b.entry.externs.now (moved_before b.entry) op text.now }
{
    let weights = Names {
        externs: Some(b.externs),
        symbols: b.weights,
        visible: b.weighed,
    };
    kind(op, weights, text)
}

/// How much the symbol of an EQU weighs, if its field weighs what it may.
fn equ_weight(text: &[u8], b: Before<'_>) -> Option<u16>
    ensures { result ≡ early_kind b.entry.externs.now (moved_before b.entry) equ text.now }
{
    let weights = Names {
        externs: Some(b.externs),
        symbols: b.weights,
        visible: b.weighed,
    };
    value_kind(Operation::Equ, weights, field(text))
}

/// The least fault of an EQU; the last place of a module is 32766.
#[tactic(auto, using(crate::proofs::Moving::equ_fault_is))]
fn equ_fault(alloc: Global, text: &[u8], b: Before<'_>) -> Result<u8, NoMemory>
    ensures { IfOk result (λ f. f ≡ equ_fault b.entry.externs.now (moved_before b.entry) text.now) }
{
    let names = Names {
        externs: Some(b.externs),
        symbols: b.symbols,
        visible: b.visible,
    };
    let said = read_with(alloc, Operation::Equ, text, names, b.place)?;
    let wrong = equ_weight(text, b).is_none();
    let k = KnownAt {
        symbols: b.symbols,
        visible: b.visible,
        place: b.place,
    };
    Ok(fault(Operation::Equ, text, &said, k, 1, wrong))
}

/// How many words a field takes or reserves, none where it is at fault.
#[tactic(auto, using(crate::proofs::Moving::count_some, crate::proofs::Moving::count_none))]
fn count_in(alloc: Global, op: Operation, text: &[u8], b: Before<'_>) -> Result<usize, NoMemory>
    ensures { IfOk result (λ n. n ≡ count_in b.entry.externs.now (moved_before b.entry) op text.now) }
{
    if early_kind(op, text, b).is_none() {
        return Ok(0);
    }
    let said = read(alloc, op, text, b.symbols, b.visible, b.place)?;
    Ok(count(op, &said))
}

/// The words of a module up to its last place, or none.
fn fitting(place: u64, words: usize) -> u64
    requires { place < 2 ^ 40 }
    ensures value { result ≡ (if nat_lt (place + words) max_place then words else 0) }
    ensures within { place + result ≤ max 32768 place }
{
    let words = words as u64;
    if words < MAX_PLACE && place + words < MAX_PLACE {
        words
    } else {
        0
    }
}

/// How many words a card with an operation takes or reserves.
fn size_of(alloc: Global, op: Operation, text: &[u8], b: Before<'_>) -> Result<u64, NoMemory>
    requires { b.place < 2 ^ 40 }
    ensures value { IfOk result (λ n. n ≡ moved_size b.entry.externs.now (moved_before b.entry) (Some op) text.now) }
    ensures within { IfOk result (λ n. b.entry.place + n ≤ max 32768 (b.entry.place + 1)) }
{
    match op {
        Operation::Machine(_) | Operation::Pze => Ok(1),
        _ => Ok(fitting(b.place, count_in(alloc, op, text, b)?)),
    }
}

/// How many words a card takes or reserves.
pub(crate) fn moved_size(
    alloc: Global,
    op: Option<Operation>,
    text: &[u8],
    b: Before<'_>,
) -> Result<u64, NoMemory>
    requires { b.place < 2 ^ 40 }
    ensures value { IfOk result (λ n. n ≡ moved_size b.entry.externs.now (moved_before b.entry) op text.now) }
    ensures within { IfOk result (λ n. b.entry.place + n ≤ max 32768 (b.entry.place + 1)) }
{
    match op {
        Some(op) => size_of(alloc, op, text, b),
        None => Ok(0),
    }
}

/// The value of a card's symbol, and its weight.
#[derive(Clone, Copy)]
struct Worth {
    value: u16,
    weight: u16,
}

/// The value and the weight of an EQU's symbol.
fn equ_worth(alloc: Global, text: &[u8], b: Before<'_>) -> Result<Worth, NoMemory>
    ensures { IfOk result (λ w. (w.value, w.weight)
        ≡ worth b.entry.externs.now (moved_before b.entry) (Some equ) text.now) }
{
    if equ_fault(alloc, text, b)? != 0 {
        return Ok(Worth {
            value: 0,
            weight: 0,
        });
    }
    let value = said_number(alloc, Operation::Equ, text, b.symbols, b.visible, b.place)?;
    let weight = equ_weight(text, b).unwrap_or(0);
    Ok(Worth { value, weight })
}

/// Whether an operation is EQU.
fn is_equ_in(op: Option<Operation>) -> bool
    ensures { result ≡ is_equ_in op }
{
    match op {
        Some(Operation::Equ) => true,
        _ => false,
    }
}

/// The value and the weight of a card's symbol.
#[tactic(auto, using(crate::proofs::Moving::equ_here, crate::proofs::Moving::plain_worth))]
fn worth_of(
    alloc: Global,
    op: Option<Operation>,
    text: &[u8],
    b: Before<'_>,
) -> Result<Worth, NoMemory>
    ensures { IfOk result (λ w. (w.value, w.weight) ≡ worth b.entry.externs.now (moved_before b.entry) op text.now) }
{
    if is_equ_in(op) {
        equ_worth(alloc, text, b)
    } else {
        Ok(Worth {
            value: (b.place % MAX_PLACE) as u16,
            weight: 1,
        })
    }
}

/// The EQUs with one more, if no earlier card has its symbol.
fn equs_with(equs: Roster, symbols: &Symbols, text: &[u8]) -> Result<Roster, NoMemory>
    requires { length equs < 2 ^ 32 }
    ensures value { IfOk result (λ e. e
        ≡ equs_with (known_moves (take (length symbols.now) symbols.now) equs) (module_operation text.now)
        (symbol_of text.now)) }
    ensures few { IfOk result (λ e. length e ≤ length equs + 1) }
{
    let Some(name) = symbol(text) else {
        return Ok(equs);
    };
    if is_equ_in(module_operation(text)) && symbols.value(symbols.len(), name).is_none() {
        equs.with(name)
    } else {
        Ok(equs)
    }
}

/// Notes a card's symbol if it is an EQU's and no earlier card has it. Where memory lacks, all EQUs are given up.
fn enter_equ(
    equs: &mut Roster,
    alloc: Global,
    symbols: &Symbols,
    text: &[u8],
) -> Result<(), NoMemory>
    requires { length equs.old < 2 ^ 32 }
    ensures value { OnOk result (equs.new
        ≡ equs_with (known_moves (take (length symbols.now) symbols.now) equs.old) (module_operation text.now)
        (symbol_of text.now)) }
    ensures few { OnOk result (length equs.new ≤ length equs.old + 1) }
{
    let before = mem::replace(equs, Roster::new(alloc));
    let with = equs_with(before, symbols, text)?;
    *equs = with;
    Ok(())
}

/// Defines the symbol that a card has, and its weight.
fn enter_worth(
    symbols: &mut Symbols,
    weights: &mut Symbols,
    name: Option<Word>,
    worth: Worth,
) -> Result<(), NoMemory>
    ensures symbols { OnOk result (symbols.new ≡ symbol_entered symbols.old name worth.value) }
    ensures weights { OnOk result (weights.new ≡ symbol_entered weights.old name worth.weight) }
{
    let Some(name) = name else {
        return Ok(());
    };
    symbols.define(name, worth.value)?;
    weights.define(name, worth.weight)
}

/// What the cards of a module so far come to: their symbols, how much each weighs, and which are EQUs'; their literals; and the
/// place behind them.
#[derive(Drop)]
pub(crate) struct Moves {
    pub(crate) symbols: Symbols,
    pub(crate) weights: Symbols,
    pub(crate) equs: Roster,
    pub(crate) literals: Literals,
    pub(crate) place: u64,
}

/// What a card comes to: how many words it takes or reserves, the value of its symbol and its weight.
#[derive(Clone, Copy)]
struct Weighed {
    size: u64,
    worth: Worth,
}

impl Moves {
    /// No card.
    fn new(alloc: Global) -> Moves
        ensures moved { moves_in result ≡ nothing_moved }
        ensures literals { result.literals ≡ [] }
    {
        Moves {
            symbols: Symbols::new(alloc),
            weights: Symbols::new(alloc),
            equs: Roster::new(alloc),
            literals: Literals::new(alloc),
            place: 0,
        }
    }

    /// What a card that is no comment comes to.
    fn coming(&self, alloc: Global, externs: &Roster, text: &[u8]) -> Result<Weighed, NoMemory>
        requires { self.now.place < 2 ^ 39 }
        ensures size { IfOk result (λ w. w.size
            ≡ moved_size externs.now (moves_in self.now) (module_operation text.now) text.now) }
        ensures worth { IfOk result (λ w. (w.worth.value, w.worth.weight)
            ≡ worth externs.now (moves_in self.now) (module_operation text.now) text.now) }
        ensures within { IfOk result (λ w. self.now.place + w.size ≤ max 32768 (self.now.place + 1)) }
    {
        let visible = self.symbols.len();
        let weighed = self.weights.len();
        let b = Before {
            externs,
            symbols: &self.symbols,
            weights: &self.weights,
            visible,
            weighed,
            place: self.place,
        };
        let op = module_operation(text);
        let size = moved_size(alloc, op, text, b)?;
        let worth = worth_of(alloc, op, text, b)?;
        Ok(Weighed { size, worth })
    }

    /// Takes a card that is no comment.
    fn taking(&mut self, alloc: Global, text: &[u8], card: Weighed) -> Result<(), NoMemory>
        requires place { self.old.place + card.size < 2 ^ 40 }
        requires few { length self.old.equs < 2 ^ 32 }
        ensures moved { OnOk result (moves_in self.new
            ≡ moved_by (moves_in self.old) (module_operation text.now) (symbol_of text.now) card.size
            (card.worth.value, card.worth.weight)) }
        ensures literals { OnOk result (self.new.literals
            ≡ with_literal self.old.literals (literal_by (operation_in text.now) text.now)) }
        ensures place { OnOk result (self.new.place ≡ self.old.place + card.size) }
        ensures equs { OnOk result (length self.new.equs ≤ length self.old.equs + 1) }
        ensures few { OnOk result (length self.new.literals ≤ length self.old.literals + 1) }
    {
        enter_equ(&mut self.equs, alloc, &self.symbols, text)?;
        enter_worth(
            &mut self.symbols,
            &mut self.weights,
            symbol(text),
            card.worth,
        )?;
        enter_literal(&mut self.literals, literal_by(operation_in(text), text))?;
        self.place += card.size;
        Ok(())
    }

    /// Takes a card.
    #[tactic(auto, using(crate::proofs::Moving::comment_kept, crate::proofs::Moving::comment_literal))]
    fn enter(&mut self, alloc: Global, externs: &Roster, text: &[u8]) -> Result<(), NoMemory>
        requires place { self.old.place < 2 ^ 39 }
        requires few { length self.old.equs < 2 ^ 32 }
        ensures moved { OnOk result (moves_in self.new ≡ moved_behind externs.now (moves_in self.old) text.now) }
        ensures literals { OnOk result (self.new.literals
            ≡ with_literal self.old.literals (literal_by (operation_in text.now) text.now)) }
        ensures place { OnOk result (self.new.place ≤ max 32768 (self.old.place + 1)) }
        ensures equs { OnOk result (length self.new.equs ≤ length self.old.equs + 1) }
        ensures few { OnOk result (length self.new.literals ≤ length self.old.literals + 1) }
    {
        if is_comment(text) {
            return Ok(());
        }
        let card = self.coming(alloc, externs, text)?;
        self.taking(alloc, text, card)?;
        Ok(())
    }
}

/// What cards come to.
pub(crate) fn moves_of(alloc: Global, externs: &Roster, cards: &[Card]) -> Result<Moves, NoMemory>
    requires { length cards.now < 2 ^ 32 }
    ensures moved { IfOk result (λ t. moves_in t ≡ moved_after externs.now nothing_moved (texts cards.now)) }
    ensures literals { IfOk result (λ t. t.literals ≡ literals_with [] (texts cards.now)) }
    ensures place { IfOk result (λ t. t.place < 2 ^ 33) }
    ensures few { IfOk result (λ t. length t.literals < 2 ^ 33) }
{
    let mut moves = Moves::new(alloc);
    for card in cards {
        moves.enter(alloc, externs, card.text.as_slice())?;
    }
    Ok(moves)
}
