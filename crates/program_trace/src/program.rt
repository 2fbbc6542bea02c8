//! The program that cards make.
ghost use Rattle.std.specs.Prelude.{◌≡◌, ◌≤◌, ◌<◌, ◌-◌, ◌^◌, IfOk, length};
ghost use Rattle.fap_model.specs.Listed.{listed as listed_of};
ghost use Rattle.fap_assemble.specs.Steps.{texts};
ghost use Rattle.program_trace.specs.Programs.{cards_behind, line_in, lines_from, most_lines, program_of, program_with};

use ctss_types::{LineList, LineText, NoMemory, Sequence, WordList};
use fap_assemble::{AsmFault, assemble};
use fap_model::Listed;
use fap_read::Card;
use std::alloc::Global;

/// How many lines a session takes behind LOADGO.
const MOST_LINES: u16 = 2047;

/// A program, and the lines that it may read.
#[derive(Debug, Drop)]
pub struct Program {
    /// The words of its deck.
    pub deck: WordList,
    pub lines: LineList,
}

/// Why cards make no program that can be run.
#[derive(Clone, Copy, Debug, PartialEq, Eq)]
pub enum ProgramFault {
    /// Cards are at fault.
    Cards,
    /// The card of this number, behind END, is no line, or one too many.
    Line(u64),
}

/// The cards behind the first END.
fn cards_behind<'a>(cards: &'a [Card], listed: &Listed) -> &'a [Card]
    requires { listed.now ≡ listed_of (texts cards.now) }
    ensures { texts result.now ≡ cards_behind (texts cards.now) }
{
    cards.split_at(listed.rows.len().min(cards.len())).1
}

/// The line of a text, if it is one.
fn line_of(text: &[u8]) -> Option<LineText>
    ensures { result ≡ line_in text.now }
{
    LineText::from_bytes(text).ok()
}

/// The lines of cards, the first of which has this number.
fn lines_of(
    alloc: Global,
    first: u64,
    cards: &[Card],
) -> Result<Result<LineList, ProgramFault>, NoMemory>
    requires { first < 2 ^ 33 }
    ensures { IfOk result (λ told. told ≡ lines_from most_lines first (texts cards.now)) }
{
    let mut lines = Sequence::new(alloc);
    let mut left = MOST_LINES;
    let mut number = first;
    for card in cards {
        if left == 0 {
            return Ok(Err(ProgramFault::Line(number)));
        }
        let Some(line) = line_of(card.text.as_slice()) else {
            return Ok(Err(ProgramFault::Line(number)));
        };
        lines.push(line)?;
        left -= 1;
        number += 1;
    }
    Ok(Ok(lines))
}

/// The program of a deck with lines, or the fault among these.
fn program_with(
    deck: WordList,
    told: Result<LineList, ProgramFault>,
) -> Result<Program, ProgramFault>
    ensures { result ≡ program_with deck told }
{
    match told {
        Ok(lines) => Ok(Program { deck, lines }),
        Err(fault) => Err(fault),
    }
}

/// The program of cards that come to this, or why there is none.
pub fn program_of(
    alloc: Global,
    cards: &[Card],
    listed: &Listed,
) -> Result<Result<Program, ProgramFault>, NoMemory>
    requires listed { listed.now ≡ listed_of (texts cards.now) }
    requires few { length cards.now < 2 ^ 32 - 1 }
    ensures value { IfOk result (λ told. told ≡ program_of (texts cards.now)) }
    ensures few { IfOk result (λ told. IfOk told (λ p. length p.lines ≤ 2047)) }
{
    let deck = match assemble(alloc, cards) {
        Ok(deck) => deck.words,
        Err(AsmFault::Faults(_)) => return Ok(Err(ProgramFault::Cards)),
        Err(AsmFault::NoMemory) => return Err(NoMemory),
    };
    let first = listed.rows.len() as u64 + 1;
    let told = lines_of(alloc, first, cards_behind(cards, listed))?;
    Ok(program_with(deck, told))
}
