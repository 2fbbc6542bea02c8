ghost use Rattle.std.specs.Prelude.{◌≡◌, ◌∷◌, [], length, nat_eq, MatchOption};
ghost use Rattle.ctss_types.specs.Words.{words_of};
ghost use Rattle.program_model.specs.DebugLines.{one_place, set_of, only, debug_by, debug_of};
ghost use Rattle.program_model.specs.Octals.{octal_in};

use crate::octals::octal_in;
use ctss_types::{LineText, first_word};
use program_model::DebugLine;
use word36::Word;

/// What a line asks of the debugger.
#[tactic(auto, unfolding(program_model::specs::DebugLines::debug_of))]
pub fn parse(line: &LineText) -> DebugLine
    ensures { result ≡ debug_of line.now }
{
    match next_word(line.as_slice()) {
        Some((name, rest)) => debug_by(name, rest),
        None => DebugLine::End,
    }
}

/// What the words behind the first ask for.
fn debug_by(name: &[u8], rest: &[u8]) -> DebugLine
    ensures { result ≡ debug_by name.now (words_of rest.now) }
{
    if name == b"BREAK".as_slice() {
        match one_place(rest) {
            Some(place) => DebugLine::Break(place),
            None => DebugLine::Bad,
        }
    } else if name == b"CLEAR".as_slice() {
        match one_place(rest) {
            Some(place) => DebugLine::Clear(place),
            None => DebugLine::Bad,
        }
    } else if name == b"GO".as_slice() {
        only(DebugLine::Go, rest)
    } else if name == b"LOOK".as_slice() {
        match one_place(rest) {
            Some(place) => DebugLine::Look(place),
            None => DebugLine::Bad,
        }
    } else if name == b"REGS".as_slice() {
        only(DebugLine::Regs, rest)
    } else if name == b"SET".as_slice() {
        set(rest)
    } else if name == b"END".as_slice() {
        only(DebugLine::End, rest)
    } else {
        DebugLine::Bad
    }
}

/// A line of one word.
fn only(line: DebugLine, rest: &[u8]) -> DebugLine
    ensures { result ≡ only line (words_of rest.now) }
{
    if is_over(rest) { line } else { DebugLine::Bad }
}

/// SET, with a place and a word behind it.
fn set(rest: &[u8]) -> DebugLine
    ensures { result ≡ set_of (words_of rest.now) }
{
    let Some((first, behind)) = next_word(rest) else {
        return DebugLine::Bad;
    };
    let Some((second, behind)) = next_word(behind) else {
        return DebugLine::Bad;
    };
    let (Some(place), Some(bits)) = (octal_in(first, 5), octal_in(second, 12)) else {
        return DebugLine::Bad;
    };
    if !is_over(behind) {
        return DebugLine::Bad;
    }
    match Word::from_bits(bits) {
        Ok(word) => DebugLine::Set(place as u16, word),
        Err(_) => unreachable!(),
    }
}

/// The only word of a text, as a place.
fn one_place(text: &[u8]) -> Option<u16>
    ensures { result ≡ one_place (words_of text.now) }
{
    let (word, behind) = next_word(text)?;
    let place = octal_in(word, 5)?;
    if is_over(behind) {
        Some(place as u16)
    } else {
        None
    }
}

/// The first word of a text, where it has one, and what stands behind it.
fn next_word(text: &[u8]) -> Option<(&[u8], &[u8])>
    ensures { MatchOption result (words_of text.now ≡ []) (λ p. words_of text.now ≡ p.0.now ∷ words_of p.1.now) }
{
    let (word, rest) = first_word(text);
    if word.is_empty() {
        None
    } else {
        Some((word, rest))
    }
}

/// Whether a text has no word.
fn is_over(text: &[u8]) -> bool
    ensures { result ≡ nat_eq (length (words_of text.now)) 0 }
{
    first_word(text).0.is_empty()
}
