ghost use Rattle.std.specs.Prelude.{◌≡◌, ◌+◌, ◌^◌, ◌<◌, [], ◌∷◌, false, IfOk, IfSome, OnOk, length};
ghost use Rattle.opcode_table.specs.Words.{encoded};
ghost use Rattle.fap_model.specs.Places.{known_after, nothing_known};
ghost use Rattle.fap_model.specs.Decks.{instruction, operation_in, words_by, fault_of, faults_from};
ghost use Rattle.fap_assemble.specs.Fields.{known_at, HasShortAddress, HasShortValues, is_wrong, address_value, machine_word, plain_word, given_words};
ghost use Rattle.bss_loader.specs.Runs.{words_in, closed};
ghost use Rattle.fap_assemble.specs.Runs.{cards_in};
ghost use Rattle.fap_assemble.specs.Steps.{texts};
ghost use Rattle.fap_assemble.specs.Wholes.{whole_in};
ghost use Rattle.fap_assemble.specs.CardWords.{words_said};

use crate::field::{Address, Said, is_wrong, read};
use crate::place::{operation_in, place_behind, visible_behind};
use crate::whole::Whole;
use bss_loader::Segments;
use ctss_types::{NoMemory, WordList};
use fap_model::Operation;
use fap_read::{Card, flag};
use opcode_table::{Instr, Op, encode};
use std::alloc::Global;
use word36::Word;

/// The value of an address. A literal's is its place.
fn address_value(whole: &Whole, address: Address) -> u16
    requires short { HasShortAddress address }
    requires place { whole.now.end_place < 2 ^ 33 }
    requires few { length whole.now.literals < 2 ^ 33 }
    ensures value { result ≡ address_value (whole_in whole.now) address }
    ensures below { result < 2 ^ 15 }
{
    match address {
        Address::Plain(value) => value.unwrap_or(0),
        Address::Literal(word) => {
            let index = whole.literals.index(word) as u64;
            ((whole.end_place + index) % 32768) as u16
        }
    }
}

/// The word of an instruction.
fn instruction_word(op: Op, flag: bool, tag: u16, address: u16, decrement: u16) -> Word
    requires tag { tag < 8 }
    requires address { address < 2 ^ 15 }
    requires decrement { decrement < 2 ^ 15 }
    ensures { result ≡ encoded (instruction op flag tag address decrement) }
{
    encode(&Instr {
        op,
        flag,
        tag: tag as u8,
        address,
        decrement,
    })
}

/// The word of an instruction with a field.
pub(crate) fn machine_word(whole: &Whole, op: Op, flag: bool, said: &Option<Said>) -> Word
    requires right { is_wrong said.now ≡ false }
    requires short { IfSome said.now HasShortValues }
    requires place { whole.now.end_place < 2 ^ 33 }
    requires few { length whole.now.literals < 2 ^ 33 }
    ensures { result ≡ machine_word (whole_in whole.now) op flag said.now }
{
    match said {
        Some(
            Said::Placed {
                address,
                tag,
                decrement,
            },
        ) => {
            let address = address_value(whole, *address);
            instruction_word(op, flag, tag.unwrap_or(0), address, decrement.unwrap_or(0))
        }
        Some(Said::Half(half)) => {
            let (tag, address) = ((*half >> 15) as u16, (*half & 0o77777) as u16);
            instruction_word(op, flag, tag, address, 0)
        }
        _ => instruction_word(op, flag, 0, 0, 0),
    }
}

/// The word of a field with prefix zero.
pub(crate) fn plain_word(whole: &Whole, said: &Option<Said>) -> Word
    requires short { IfSome said.now HasShortValues }
    requires place { whole.now.end_place < 2 ^ 33 }
    requires few { length whole.now.literals < 2 ^ 33 }
    ensures { result ≡ plain_word (whole_in whole.now) said.now }
{
    match said {
        Some(
            Said::Placed {
                address,
                tag,
                decrement,
            },
        ) => {
            let address = u64::from(address_value(whole, *address));
            let tag = u64::from(tag.unwrap_or(0));
            let decrement = u64::from(decrement.unwrap_or(0));
            Word::of((decrement << 18) + (tag << 15) + address)
        }
        _ => Word::default(),
    }
}

/// Adds the words that a field gives.
fn add_given(
    segments: &mut Segments,
    alloc: Global,
    place: u64,
    said: &Option<Said>,
) -> Result<(), NoMemory>
    requires { place + length (given_words said.now) < 2 ^ 34 }
    ensures { OnOk result (segments.new ≡ words_in segments.old place (given_words said.now)) }
{
    match said {
        Some(Said::Words(words)) => segments.add_all(alloc, place, words.as_slice()),
        _ => Ok(()),
    }
}

/// What is read of a card: its operation, whether it has a flag, and what its field says.
#[derive(Clone, Copy)]
struct Reading<'a> {
    op: Operation,
    flag: bool,
    said: &'a Option<Said>,
}

/// Adds the words of a card with an operation.
fn add_said(
    segments: &mut Segments,
    alloc: Global,
    place: u64,
    whole: &Whole,
    r: Reading<'_>,
) -> Result<(), NoMemory>
    requires right { is_wrong r.said.now ≡ false }
    requires short { IfSome r.said.now HasShortValues }
    requires room { place + length (words_said (whole_in whole.now) r.op r.flag r.said.now) < 2 ^ 34 }
    requires place { whole.now.end_place < 2 ^ 33 }
    requires few { length whole.now.literals < 2 ^ 33 }
    ensures { OnOk result (segments.new
        ≡ words_in segments.old place (words_said (whole_in whole.now) r.entry.op r.entry.flag r.entry.said.now)) }
{
    match r.op {
        Operation::Machine(op) => {
            segments.add(alloc, place, machine_word(whole, op, r.flag, r.said))
        }
        Operation::Pze => segments.add(alloc, place, plain_word(whole, r.said)),
        Operation::Dec | Operation::Oct | Operation::Bci => {
            add_given(segments, alloc, place, r.said)
        }
        Operation::Org | Operation::Bss | Operation::Equ | Operation::End => Ok(()),
    }
}

/// Adds the words of a card without a fault.
fn add_card(
    segments: &mut Segments,
    alloc: Global,
    text: &[u8],
    whole: &Whole,
    visible: usize,
    place: u64,
) -> Result<(), NoMemory>
    requires sound { fault_of (whole_in whole.now) (known_at whole.now.symbols visible place) text.now ≡ 0 }
    requires at { place < 2 ^ 33 }
    requires place { whole.now.end_place < 2 ^ 33 }
    requires few { length whole.now.literals < 2 ^ 33 }
    ensures { OnOk result (segments.new
        ≡ words_in segments.old place (words_by (whole_in whole.now) (known_at whole.now.symbols visible place)
        (operation_in text.now) text.now)) }
{
    let Some(op) = operation_in(text) else {
        return Ok(());
    };
    let symbols = &whole.symbols;
    let said = read(alloc, op, text, symbols, symbols.len(), place)?;
    let r = Reading {
        op,
        flag: flag(text),
        said: &said,
    };
    add_said(segments, alloc, place, whole, r)
}

/// A deck's words, where its first word is given and no card is at fault.
pub(crate) fn words_of(
    alloc: Global,
    cards: &[Card],
    whole: &Whole,
    head: Word,
) -> Result<WordList, NoMemory>
    requires few { length cards.now < 2 ^ 32 }
    requires place { whole.now.end_place < 2 ^ 33 }
    requires literals { length whole.now.literals < 2 ^ 33 }
    requires symbols { (known_after nothing_known (texts cards.now)).symbols ≡ whole.now.symbols }
    requires sound { faults_from (whole_in whole.now) 1 nothing_known (texts cards.now) ≡ [] }
    ensures { IfOk result (λ ws. ws
        ≡ closed (words_in (cards_in (whole_in whole.now) (record { done = head ∷ []; first = 0; run = [] })
        nothing_known (texts cards.now))
        whole.now.end_place whole.now.literals)) }
{
    let symbols = &whole.symbols;
    let mut segments = Segments::new(alloc, head)?;
    let mut visible = 0;
    let mut place = 0;
    for card in cards {
        let text = card.text.as_slice();
        add_card(&mut segments, alloc, text, whole, visible, place)?;
        let next = place_behind(alloc, operation_in(text), text, symbols, visible, place)?;
        visible = visible_behind(text, symbols, visible);
        place = next;
    }
    segments.add_all(alloc, whole.end_place, whole.literals.as_slice())?;
    segments.close()
}
