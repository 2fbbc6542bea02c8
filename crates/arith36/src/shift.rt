//! Shifts of the accumulator and the multiplier-quotient, as the machine's reference manual has them. Counts are 0 to
//! 255. Bits that leave the register are lost, and zeros come in.
ghost use Rattle.std.specs.Prelude.{◌≡◌, ◌+◌, ◌*◌, ◌/◌, ◌%◌, ◌^◌, ◌<◌, ◌≤◌};
ghost use Rattle.arith36.specs.Shift.{left, right, passes, registers_joined, parted, acc_left, acc_right, long_left, long_right, all_joined, all_parted, logical_left, logical_right, turned};

use crate::Sum;
use word36::{Acc, Word};

/// Positions 1 to 35.
const MAGNITUDE_MASK: u128 = 0o377777777777;

/// All 36 positions of a word.
const WORD_MASK: u64 = 0o777777777777;

/// What a shift of both registers gives, and whether the overflow indicator goes on.
#[derive(Clone, Copy, Debug, PartialEq, Eq)]
pub struct Shifted {
    pub acc: Acc,
    pub mq: Word,
    pub overflow: bool,
}

/// A number `n` places to the left in `width` places.
#[tactic(auto, using(crate::proofs::Shifts::gone, crate::proofs::Shifts::kept))]
fn shift_left(x: u128, width: u8, n: u8) -> u128
    requires { width ≤ 73 }
    ensures { result ≡ left width n x }
{
    if n >= width {
        0
    } else {
        (x & ((1 << (width - n)) - 1)) << n
    }
}

/// A number of at most 73 bits `n` places to the right.
#[tactic(auto, using(crate::proofs::Shifts::emptied))]
fn shift_right(x: u128, n: u8) -> u128
    requires { x < 2 ^ 73 }
    ensures { result ≡ right n x }
{
    if n >= 73 { 0 } else { x >> n }
}

/// Whether a one from below `place` enters or passes it in `n` places to the left.
#[tactic(auto, using(crate::proofs::Shifts::entered, crate::proofs::Shifts::all_entered))]
fn enters(x: u128, place: u8, n: u8) -> bool
    requires { place ≤ 71 }
    ensures { result ≡ passes place n x }
{
    let below = x & ((1 << place) - 1);
    if n >= place {
        below != 0
    } else {
        below >> (place - n) != 0
    }
}

/// The accumulator without its sign, joined with the multiplier-quotient without its sign.
fn join(a: Acc, q: Word) -> u128
    ensures value { result ≡ registers_joined a q }
    ensures below { result < 2 ^ 72 }
{
    u128::from(a.magnitude()) << 35 | u128::from(q.magnitude())
}

/// The two registers of 72 positions and one sign.
fn part(negative: bool, x: u128, overflow: bool) -> Shifted
    requires { x < 2 ^ 72 }
    ensures { result ≡ parted negative x overflow }
{
    Shifted {
        acc: Acc::new(negative, (x >> 35) as u64),
        mq: Word::signed(negative, (x & MAGNITUDE_MASK) as u64),
        overflow,
    }
}

/// The accumulator without its sign, joined with all of the multiplier-quotient.
fn join_all(a: Acc, q: Word) -> u128
    ensures value { result ≡ all_joined a q }
    ensures below { result < 2 ^ 73 }
{
    u128::from(a.magnitude()) << 36 | u128::from(q.bits())
}

/// The two registers of 73 positions and the accumulator's sign.
fn part_all(negative: bool, x: u128, overflow: bool) -> Shifted
    requires { x < 2 ^ 73 }
    ensures { result ≡ all_parted negative x overflow }
{
    Shifted {
        acc: Acc::new(negative, (x >> 36) as u64),
        mq: match Word::from_bits((x & u128::from(WORD_MASK)) as u64) {
            Ok(word) => word,
            Err(_) => unreachable!(),
        },
        overflow,
    }
}

/// ALS: the accumulator to the left. Its sign stays, and the overflow is a one that comes into P or passes it.
pub fn als(a: Acc, n: u8) -> Sum
    ensures { result ≡ acc_left a n }
{
    let magnitude = u128::from(a.magnitude());
    Sum {
        acc: Acc::new(a.negative(), shift_left(magnitude, 37, n) as u64),
        overflow: enters(magnitude, 35, n),
    }
}

/// ARS: the accumulator to the right. Its sign stays.
pub fn ars(a: Acc, n: u8) -> Acc
    ensures { result ≡ acc_right a n }
{
    Acc::new(
        a.negative(),
        shift_right(u128::from(a.magnitude()), n) as u64,
    )
}

/// LLS, the long left shift: the multiplier-quotient without its sign moves on into the accumulator.
///
/// Both get the multiplier-quotient's sign, also by 0 places. The overflow is a one that comes into P or passes it.
pub fn lls(a: Acc, q: Word, n: u8) -> Shifted
    ensures { result ≡ long_left a q n }
{
    let x = join(a, q);
    part(q.negative(), shift_left(x, 72, n), enters(x, 70, n))
}

/// LRS, the long right shift: the accumulator moves on into the multiplier-quotient, past its sign.
///
/// Both get the accumulator's sign, also by 0 places.
pub fn lrs(a: Acc, q: Word, n: u8) -> Shifted
    ensures { result ≡ long_right a q n }
{
    part(a.negative(), shift_right(join(a, q), n), false)
}

/// LGL, the logical left shift: all of the multiplier-quotient, S first, moves on into the accumulator, whose sign
/// stays.
///
/// The overflow is a one that comes into P or passes it.
pub fn lgl(a: Acc, q: Word, n: u8) -> Shifted
    ensures { result ≡ logical_left a q n }
{
    let x = join_all(a, q);
    part_all(a.negative(), shift_left(x, 73, n), enters(x, 71, n))
}

/// LGR, the logical right shift: the accumulator, whose sign stays, moves on into the multiplier-quotient, S first.
pub fn lgr(a: Acc, q: Word, n: u8) -> Shifted
    ensures { result ≡ logical_right a q n }
{
    part_all(a.negative(), shift_right(join_all(a, q), n), false)
}

/// RQL: the multiplier-quotient turned left. What leaves at S comes in at position 35.
#[tactic(auto, using(crate::proofs::Shifts::turned_bits, crate::proofs::Shifts::turned_below))]
pub fn rql(q: Word, n: u8) -> Word
    ensures { result ≡ turned q n }
{
    let k = n % 36;
    let bits = q.bits();
    match Word::from_bits((bits << k & WORD_MASK) | bits >> (36 - k)) {
        Ok(word) => word,
        Err(_) => unreachable!(),
    }
}
