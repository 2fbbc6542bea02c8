//! What is printed of a program that stopped.
ghost use Rattle.std.specs.Prelude.{◌≡◌, ◌≤◌, ◌<◌, ◌+◌, ◌^◌, ◌++◌, [], ◌∷◌, codes, length, true};
ghost use Rattle.std.specs.List.{flat_map, list_all};
ghost use Rattle.bcd48.specs.Characters.{is_character};
ghost use Rattle.word36.specs.Octal.{octal_digits};
ghost use Rattle.program_model.specs.Saved.{bit, register_lines as lines_of, sign_of, word_line as line_of_word};

use crate::part::put;
use crate::saved::indexes_of;
use arrayvec::ArrayVec;
use cpu_regs::{MemoryPort, Regs};
use ctss_types::LineText;

/// Adds the last octal digits of a number, so many.
#[tactic(auto, using(crate::proofs::Digits::digits))]
fn put_octal(text: &mut ArrayVec<u8, 84>, count: u8, number: u64)
    requires room { length text.old.items + count ≤ 84 }
    requires before { list_all is_character text.old.items ≡ true }
    ensures text { text.new.items ≡ text.old.items ++ octal_digits count number }
    ensures length { length text.new.items ≡ length text.old.items + count }
    ensures characters { list_all is_character text.new.items ≡ true }
{
    if count == 0 {
        return;
    }
    put_octal(text, count - 1, number / 8);
    put(text, &[b'0' + (number % 8) as u8]);
}

/// An indicator as a digit.
fn indicator(on: bool) -> u8
    ensures { result ≡ 48 + bit on }
{
    b'0' + u8::from(on)
}

/// The counter, the accumulator and MQ.
#[tactic(auto, using(crate::proofs::Digits::lines))]
fn arithmetic_line(regs: &Regs) -> LineText
    ensures { result ≡ codes "IC " ++ (octal_digits 5 regs.now.ic ++ (codes " AC " ++ (sign_of regs.now.ac.negative
        ∷ (octal_digits 13 regs.now.ac.magnitude ++ (codes " MQ " ++ octal_digits 12 regs.now.mq))))) }
{
    let mut text = ArrayVec::new();
    let sign = if regs.ac.negative() { b'-' } else { b'+' };
    put(&mut text, b"IC ");
    put_octal(&mut text, 5, u64::from(regs.ic));
    put(&mut text, b" AC ");
    put(&mut text, &[sign]);
    put_octal(&mut text, 13, regs.ac.magnitude());
    put(&mut text, b" MQ ");
    put_octal(&mut text, 12, regs.mq.bits());
    LineText::of(&text)
}

/// The sense indicators, and whether overflow and divide check are on.
#[tactic(auto, using(crate::proofs::Digits::lines))]
fn indicator_line(regs: &Regs) -> LineText
    ensures { result ≡ codes "SI " ++ (octal_digits 12 regs.now.si ++ (codes " OV "
        ++ ((48 + bit regs.now.overflow) ∷ (codes " DC " ++ ((48 + bit regs.now.divide_check) ∷ []))))) }
{
    let mut text = ArrayVec::new();
    put(&mut text, b"SI ");
    put_octal(&mut text, 12, regs.si.bits());
    put(&mut text, b" OV ");
    put(&mut text, &[indicator(regs.overflow)]);
    put(&mut text, b" DC ");
    put(&mut text, &[indicator(regs.divide_check)]);
    LineText::of(&text)
}

/// The index registers.
#[tactic(auto, using(crate::proofs::Digits::indexes))]
fn index_line(indexes: &[u16; 7]) -> LineText
    ensures { result ≡ codes "XR" ++ flat_map (λ x. 32 ∷ octal_digits 5 x) indexes.now }
{
    let mut text = ArrayVec::new();
    put(&mut text, b"XR");
    'indexes: for index in indexes {
        put(&mut text, b" ");
        put_octal(&mut text, 5, u64::from(*index));
    }
    LineText::of(&text)
}

/// The three lines of the registers.
pub fn register_lines(regs: &Regs) -> [LineText; 3]
    ensures { result ≡ lines_of regs.now }
{
    [
        arithmetic_line(regs),
        indicator_line(regs),
        index_line(&indexes_of(regs)),
    ]
}

/// The word at a place, or that it is outside.
#[tactic(auto, using(crate::proofs::Digits::lines))]
pub fn word_line<M: MemoryPort>(core: &M, place: u16) -> LineText
    ensures { result ≡ line_of_word (M.words core.now) place }
{
    let Ok(word) = core.load(place) else {
        return LineText::of(b"PROTECTION");
    };
    let mut text = ArrayVec::new();
    put_octal(&mut text, 5, u64::from(place));
    put(&mut text, b" ");
    put_octal(&mut text, 12, word.bits());
    LineText::of(&text)
}
