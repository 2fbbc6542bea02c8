//! Arithmetic and shifts of the accumulator, as the machine's reference manual has it: exact in sign and magnitude, with plus
//! and minus zero, and with the overflow that an operation sets.
#![tactic(auto)]

pub mod shift;

ghost use Rattle.std.specs.Prelude.{◌≡◌, ◌+◌, ◌*◌, ◌/◌, ◌%◌, ◌^◌, ◌<◌, ◌≤◌, not, true, false};
ghost use Rattle.word36.specs.Bits.{is_minus, magnitude_of};
ghost use Rattle.arith36.specs.Arith.{sum_of, logical_sum, product_of, rounded, rounded_product, round_overflows, divided, side_of, compared, compared_logical};

use word36::{Acc, Word};

/// Positions 1 to 35.
const MAGNITUDE_MASK: u64 = 0o377777777777;

/// Positions P and 1 to 35.
const LOGICAL_MASK: u64 = 0o777777777777;

/// Positions Q, P and 1 to 35.
const ACC_MASK: u64 = 0o1777777777777;

/// What an addition or a left shift gives: the accumulator, and whether the overflow indicator goes on.
#[derive(Clone, Copy, Debug, PartialEq, Eq)]
pub struct Sum {
    pub acc: Acc,
    pub overflow: bool,
}

/// The accumulator and the multiplier-quotient.
#[derive(Clone, Copy, Debug, PartialEq, Eq)]
pub struct Pair {
    pub acc: Acc,
    pub mq: Word,
}

/// What a division gives: remainder and quotient, or a divide check.
#[derive(Clone, Copy, Debug, PartialEq, Eq)]
pub enum Divide {
    Divided(Pair),
    Check,
}

/// How the accumulator stands to a word.
#[derive(Clone, Copy, Debug, PartialEq, Eq)]
pub enum Side {
    Greater,
    Equal,
    Less,
}

/// The sum of the accumulator and a signed number.
#[inline(always)]
fn add_signed(a: Acc, negative: bool, magnitude: u64) -> Sum
    requires { magnitude < 2 ^ 35 }
    ensures { result ≡ sum_of a negative magnitude }
{
    let mine = a.magnitude();
    if a.negative() == negative {
        Sum {
            acc: Acc::new(negative, mine + magnitude & ACC_MASK),
            overflow: (mine & MAGNITUDE_MASK) + magnitude >> 35 != 0,
        }
    } else if mine >= magnitude {
        Sum {
            acc: Acc::new(a.negative(), mine - magnitude),
            overflow: false,
        }
    } else {
        Sum {
            acc: Acc::new(negative, magnitude - mine),
            overflow: false,
        }
    }
}

/// ADD: the sum. Unlike signs of equal magnitudes give a zero with the accumulator's sign.
///
/// The overflow is a carry from position 1 into P, which stays there. What stood in P and Q before is part of the sum
/// but gives no overflow, and a carry out of Q is lost.
#[inline(always)]
pub fn add(a: Acc, w: Word) -> Sum
    ensures { result ≡ sum_of a (is_minus w) (magnitude_of w) }
{
    add_signed(a, w.negative(), w.magnitude())
}

/// SUB: the sum with the word's sign turned round.
#[inline(always)]
pub fn sub(a: Acc, w: Word) -> Sum
    ensures { result ≡ sum_of a (not (is_minus w)) (magnitude_of w) }
{
    add_signed(a, !w.negative(), w.magnitude())
}

/// ADM: the sum with the word's sign taken as plus.
#[inline(always)]
pub fn add_magnitude(a: Acc, w: Word) -> Sum
    ensures { result ≡ sum_of a false (magnitude_of w) }
{
    add_signed(a, false, w.magnitude())
}

/// SBM: the sum with the word's sign taken as minus.
#[inline(always)]
pub fn sub_magnitude(a: Acc, w: Word) -> Sum
    ensures { result ≡ sum_of a true (magnitude_of w) }
{
    add_signed(a, true, w.magnitude())
}

/// ACL: the sum of positions P and 1 to 35 and the word's 36, both as numbers without signs. A carry out of P is added
/// at position 35. S and Q stay, and nothing overflows.
pub fn acl(a: Acc, w: Word) -> Acc
    ensures { result ≡ logical_sum a w }
{
    let sum = a.logical().bits() + w.bits();
    let carried = (sum & LOGICAL_MASK) + (sum >> 36);
    Acc::new(a.negative(), (a.magnitude() >> 36 << 36) + carried)
}

/// MPY: the product of the multiplier-quotient and a word, of 70 bits: the high 35 in the accumulator, where Q and P
/// are zero, and the low 35 in the multiplier-quotient. Both get the product's sign, also where they are zero.
pub fn mpy(q: Word, w: Word) -> Pair
    ensures { result ≡ product_of q w }
{
    let negative = q.negative() != w.negative();
    let product = u128::from(q.magnitude()) * u128::from(w.magnitude());
    Pair {
        acc: Acc::new(negative, (product >> 35) as u64),
        mq: Word::signed(negative, (product & u128::from(MAGNITUDE_MASK)) as u64),
    }
}

/// RND: the accumulator, by magnitude one greater where position 1 of the multiplier-quotient, which counts a half, is
/// one. The overflow is a carry from position 1 into P, as in a sum.
pub fn round(a: Acc, q: Word) -> Sum
    ensures { result ≡ record { acc = rounded a q; overflow = round_overflows a q } }
{
    let mine = a.magnitude();
    if q.magnitude() >> 34 == 0 {
        return Sum {
            acc: a,
            overflow: false,
        };
    }
    Sum {
        acc: Acc::new(a.negative(), mine + 1 & ACC_MASK),
        overflow: mine & MAGNITUDE_MASK == MAGNITUDE_MASK,
    }
}

/// MPR: the product of the multiplier-quotient and a word, with the accumulator rounded. The multiplier-quotient keeps
/// the low part. No product is large enough for an overflow.
pub fn mpr(q: Word, w: Word) -> Pair
    ensures product { result ≡ rounded_product q w }
    ensures never { round_overflows (product_of q w).acc (product_of q w).mq ≡ false }
{
    let product = mpy(q, w);
    Pair {
        acc: round(product.acc, product.mq).acc,
        mq: product.mq,
    }
}

/// DVP and DVH: the accumulator, Q and P with it, and the multiplier-quotient without its sign, as one number, by a
/// word. The quotient, by the signs of accumulator and word, goes to the multiplier-quotient. The remainder stays in the
/// accumulator with its sign, also where it is zero.
///
/// A magnitude of the word that is not greater than the accumulator's gives a divide check, so a zero always does.
pub fn dvp(a: Acc, q: Word, w: Word) -> Divide
    ensures { result ≡ divided a q w }
{
    let by = w.magnitude();
    if by <= a.magnitude() {
        return Divide::Check;
    }
    let whole = u128::from(a.magnitude()) << 35 | u128::from(q.magnitude());
    let by = u128::from(by);
    Divide::Divided(Pair {
        acc: Acc::new(a.negative(), (whole % by) as u64),
        mq: Word::signed(a.negative() != w.negative(), (whole / by) as u64),
    })
}

/// How a number stands to another.
fn side_of_number(x: u64, y: u64) -> Side
    ensures { result ≡ side_of x y }
{
    if x > y {
        Side::Greater
    } else if x == y {
        Side::Equal
    } else {
        Side::Less
    }
}

/// CAS: the accumulator, Q and P with it, against a word, by signs and magnitudes. Plus zero is greater than minus zero.
pub fn compare(a: Acc, w: Word) -> Side
    ensures { result ≡ compared a w }
{
    match (a.negative(), w.negative()) {
        (false, true) => Side::Greater,
        (true, false) => Side::Less,
        (false, false) => side_of_number(a.magnitude(), w.magnitude()),
        (true, true) => side_of_number(w.magnitude(), a.magnitude()),
    }
}

/// LAS: positions Q, P and 1 to 35 against all 36 of a word, both as numbers without signs.
pub fn compare_logical(a: Acc, w: Word) -> Side
    ensures { result ≡ compared_logical a w }
{
    side_of_number(a.magnitude(), w.bits())
}
