//! Logic, shifts and sense indicators: what each instruction does.
ghost use Rattle.std.specs.Prelude.{◌≡◌, ◌<◌, ◌*◌, ◌^◌, bit_and, bit_or, bit_xor, true};
ghost use Rattle.opcode_table.specs.Table.{kind_of};
ghost use Rattle.opcode_table.specs.Words.{HasFields};
ghost use Rattle.machine_model.specs.Logic.{logic_row};
ghost use Rattle.machine_model.specs.Results.{DoesNotHalt};
ghost use Rattle.arith36.specs.Shift.{acc_left, long_left, long_right, logical_left, logical_right};
ghost use Rattle.machine_model.specs.Logic.{count_of};
ghost use Rattle.machine_model.specs.Step.{past, with_sum, with_shifted, with_logic};
ghost use Rattle.machine_model.specs.Step.{without, has_ones, has_zeros, half_of};
ghost use Rattle.cpu_step.specs.LogicFamilies.{is_load_or_store, is_combination, is_shift, is_of_accumulator, is_of_word, is_of_half};
ghost use Rattle.cpu_step.specs.Does.{IsAtPlace, DoesRow};

use arith36::shift::{als, ars, lgl, lgr, lls, lrs, rql};
use arith36::{Side, acl, compare_logical};
use cpu_regs::{MemoryPort, OpEnd, Regs};
use opcode_table::{Instr, Kind, Op};
use word36::{Acc, Word};

/// Does an operation of this group at the place `y`.
#[inline(always)]
pub fn apply<M: MemoryPort>(regs: &mut Regs, core: &mut M, i: &Instr, y: u16) -> OpEnd
    requires kind { kind_of i.now.op ≡ Kind.Logic }
    requires place { IsAtPlace i.now y regs.old }
    ensures does { DoesRow logic_row i.now y result regs.old regs.new (M.words core.old) (M.words core.new) }
    ensures keeps { M.Keeps core.old core.new }
{
    match i.op {
        Op::Cal | Op::Ldi | Op::Slw | Op::Sti => load_or_store(regs, core, i, y),
        Op::Acl | Op::Ana | Op::Era | Op::Ora | Op::Ans | Op::Ors | Op::Las => combine(
            regs, core, i, y,
        ),
        Op::Xcl | Op::Als | Op::Ars | Op::Lls | Op::Lrs | Op::Lgl | Op::Lgr | Op::Rql => shift(
            regs, core, i, y,
        ),
        Op::Pai | Op::Pia | Op::Oai | Op::Iia | Op::Ria | Op::Tio | Op::Tif => indicate(
            regs, core, i, y,
        ),
        Op::Osi | Op::Iis | Op::Ris | Op::Ont | Op::Oft => indicate_by_word(regs, core, i, y),
        Op::Sir | Op::Sil | Op::Rir | Op::Ril | Op::Rnt | Op::Lnt | Op::Rft | Op::Lft =>
            indicate_by_half(regs, core, i, y),
        _ => unreachable!(),
    }
}

/// Loads the accumulator or the indicators from the word at `y`, or stores them there.
#[inline(always)]
pub fn load_or_store<M: MemoryPort>(regs: &mut Regs, core: &mut M, i: &Instr, y: u16) -> OpEnd
    requires family { is_load_or_store i.now.op ≡ true }
    requires place { IsAtPlace i.now y regs.old }
    ensures does { DoesRow logic_row i.now y result regs.old regs.new (M.words core.old) (M.words core.new) }
    ensures goes { DoesNotHalt result }
    ensures keeps { M.Keeps core.old core.new }
{
    match i.op {
        Op::Cal => {
            let Ok(w) = core.load(y) else {
                return OpEnd::Outside(y);
            };
            regs.ac.set(false, w.bits());
            regs.skip(1);
            OpEnd::Went
        }
        Op::Ldi => {
            let Ok(w) = core.load(y) else {
                return OpEnd::Outside(y);
            };
            regs.si = w;
            regs.skip(1);
            OpEnd::Went
        }
        Op::Slw => {
            let Ok(()) = core.store(y, regs.ac.logical()) else {
                return OpEnd::Outside(y);
            };
            regs.skip(1);
            OpEnd::Went
        }
        Op::Sti => {
            let Ok(()) = core.store(y, regs.si) else {
                return OpEnd::Outside(y);
            };
            regs.skip(1);
            OpEnd::Went
        }
        _ => unreachable!(),
    }
}

/// Combines the accumulator with the word at `y`.
#[inline(always)]
pub fn combine<M: MemoryPort>(regs: &mut Regs, core: &mut M, i: &Instr, y: u16) -> OpEnd
    requires family { is_combination i.now.op ≡ true }
    requires place { IsAtPlace i.now y regs.old }
    ensures does { DoesRow logic_row i.now y result regs.old regs.new (M.words core.old) (M.words core.new) }
    ensures goes { DoesNotHalt result }
    ensures keeps { M.Keeps core.old core.new }
{
    match i.op {
        Op::Acl => {
            let Ok(w) = core.load(y) else {
                return OpEnd::Outside(y);
            };
            regs.ac = acl(regs.ac, w);
            regs.skip(1);
            OpEnd::Went
        }
        Op::Ana => {
            let Ok(w) = core.load(y) else {
                return OpEnd::Outside(y);
            };
            let magnitude = and(regs.ac.logical(), w).bits();
            regs.ac.set(false, magnitude);
            regs.skip(1);
            OpEnd::Went
        }
        Op::Era => {
            let Ok(w) = core.load(y) else {
                return OpEnd::Outside(y);
            };
            let magnitude = xor(regs.ac.logical(), w).bits();
            regs.ac.set(false, magnitude);
            regs.skip(1);
            OpEnd::Went
        }
        Op::Ora => {
            let Ok(w) = core.load(y) else {
                return OpEnd::Outside(y);
            };
            regs.ac = with_logic(regs.ac, or(regs.ac.logical(), w));
            regs.skip(1);
            OpEnd::Went
        }
        Op::Ans => {
            let Ok(w) = core.load(y) else {
                return OpEnd::Outside(y);
            };
            let _ = core.store(y, and(w, regs.ac.logical()));
            regs.skip(1);
            OpEnd::Went
        }
        Op::Ors => {
            let Ok(w) = core.load(y) else {
                return OpEnd::Outside(y);
            };
            let _ = core.store(y, or(w, regs.ac.logical()));
            regs.skip(1);
            OpEnd::Went
        }
        Op::Las => {
            let Ok(w) = core.load(y) else {
                return OpEnd::Outside(y);
            };
            regs.skip(past(compare_logical(regs.ac, w)));
            OpEnd::Went
        }
        _ => unreachable!(),
    }
}

/// Shifts.
#[inline(always)]
pub fn shift<M: MemoryPort>(regs: &mut Regs, core: &mut M, i: &Instr, y: u16) -> OpEnd
    requires family { is_shift i.now.op ≡ true }
    requires place { IsAtPlace i.now y regs.old }
    ensures does { DoesRow logic_row i.now y result regs.old regs.new (M.words core.old) (M.words core.new) }
    ensures goes { DoesNotHalt result }
    ensures keeps { M.Keeps core.old core.new }
{
    match i.op {
        Op::Xcl => {
            let word = regs.ac.logical();
            let magnitude = regs.mq.bits();
            regs.ac.set(false, magnitude);
            regs.mq = word;
            regs.skip(1);
            OpEnd::Went
        }
        Op::Als => {
            shift_ac_left(regs, count(y));
            regs.skip(1);
            OpEnd::Went
        }
        Op::Ars => {
            regs.ac = ars(regs.ac, count(y));
            regs.skip(1);
            OpEnd::Went
        }
        Op::Lls => {
            shift_long_left(regs, count(y));
            regs.skip(1);
            OpEnd::Went
        }
        Op::Lrs => {
            shift_long_right(regs, count(y));
            regs.skip(1);
            OpEnd::Went
        }
        Op::Lgl => {
            shift_logical_left(regs, count(y));
            regs.skip(1);
            OpEnd::Went
        }
        Op::Lgr => {
            shift_logical_right(regs, count(y));
            regs.skip(1);
            OpEnd::Went
        }
        Op::Rql => {
            regs.mq = rql(regs.mq, count(y));
            regs.skip(1);
            OpEnd::Went
        }
        _ => unreachable!(),
    }
}

/// Does an operation of the indicators with the accumulator.
#[inline(always)]
pub fn indicate<M: MemoryPort>(regs: &mut Regs, core: &mut M, i: &Instr, y: u16) -> OpEnd
    requires family { is_of_accumulator i.now.op ≡ true }
    requires place { IsAtPlace i.now y regs.old }
    ensures does { DoesRow logic_row i.now y result regs.old regs.new (M.words core.old) (M.words core.new) }
    ensures goes { DoesNotHalt result }
    ensures keeps { M.Keeps core.old core.new }
{
    match i.op {
        Op::Pai => {
            regs.si = regs.ac.logical();
            regs.skip(1);
            OpEnd::Went
        }
        Op::Pia => {
            let magnitude = regs.si.bits();
            regs.ac.set(false, magnitude);
            regs.skip(1);
            OpEnd::Went
        }
        Op::Oai => {
            regs.si = or(regs.si, regs.ac.logical());
            regs.skip(1);
            OpEnd::Went
        }
        Op::Iia => {
            regs.si = xor(regs.si, regs.ac.logical());
            regs.skip(1);
            OpEnd::Went
        }
        Op::Ria => {
            regs.si = without(regs.si, regs.ac.logical());
            regs.skip(1);
            OpEnd::Went
        }
        Op::Tio => {
            regs.jump_if(has_ones(regs.si, regs.ac.logical()), y);
            OpEnd::Went
        }
        Op::Tif => {
            regs.jump_if(has_zeros(regs.si, regs.ac.logical()), y);
            OpEnd::Went
        }
        _ => unreachable!(),
    }
}

/// Does an operation of the indicators with the word at `y`.
#[inline(always)]
pub fn indicate_by_word<M: MemoryPort>(regs: &mut Regs, core: &mut M, i: &Instr, y: u16) -> OpEnd
    requires family { is_of_word i.now.op ≡ true }
    requires place { IsAtPlace i.now y regs.old }
    ensures does { DoesRow logic_row i.now y result regs.old regs.new (M.words core.old) (M.words core.new) }
    ensures goes { DoesNotHalt result }
    ensures keeps { M.Keeps core.old core.new }
{
    match i.op {
        Op::Osi => {
            let Ok(w) = core.load(y) else {
                return OpEnd::Outside(y);
            };
            regs.si = or(regs.si, w);
            regs.skip(1);
            OpEnd::Went
        }
        Op::Iis => {
            let Ok(w) = core.load(y) else {
                return OpEnd::Outside(y);
            };
            regs.si = xor(regs.si, w);
            regs.skip(1);
            OpEnd::Went
        }
        Op::Ris => {
            let Ok(w) = core.load(y) else {
                return OpEnd::Outside(y);
            };
            regs.si = without(regs.si, w);
            regs.skip(1);
            OpEnd::Went
        }
        Op::Ont => {
            let Ok(w) = core.load(y) else {
                return OpEnd::Outside(y);
            };
            regs.skip_if(has_ones(regs.si, w));
            OpEnd::Went
        }
        Op::Oft => {
            let Ok(w) = core.load(y) else {
                return OpEnd::Outside(y);
            };
            regs.skip_if(has_zeros(regs.si, w));
            OpEnd::Went
        }
        _ => unreachable!(),
    }
}

/// Does an operation of the indicators with half a word of the instruction.
#[inline(always)]
pub fn indicate_by_half<M: MemoryPort>(regs: &mut Regs, core: &mut M, i: &Instr, y: u16) -> OpEnd
    requires family { is_of_half i.now.op ≡ true }
    requires place { IsAtPlace i.now y regs.old }
    ensures does { DoesRow logic_row i.now y result regs.old regs.new (M.words core.old) (M.words core.new) }
    ensures goes { DoesNotHalt result }
    ensures keeps { M.Keeps core.old core.new }
{
    match i.op {
        Op::Sir => {
            regs.si = or(regs.si, right_half(i));
            regs.skip(1);
            OpEnd::Went
        }
        Op::Sil => {
            regs.si = or(regs.si, left_half(i));
            regs.skip(1);
            OpEnd::Went
        }
        Op::Rir => {
            regs.si = without(regs.si, right_half(i));
            regs.skip(1);
            OpEnd::Went
        }
        Op::Ril => {
            regs.si = without(regs.si, left_half(i));
            regs.skip(1);
            OpEnd::Went
        }
        Op::Rnt => {
            regs.skip_if(has_ones(regs.si, right_half(i)));
            OpEnd::Went
        }
        Op::Lnt => {
            regs.skip_if(has_ones(regs.si, left_half(i)));
            OpEnd::Went
        }
        Op::Rft => {
            regs.skip_if(has_zeros(regs.si, right_half(i)));
            OpEnd::Went
        }
        Op::Lft => {
            regs.skip_if(has_zeros(regs.si, left_half(i)));
            OpEnd::Went
        }
        _ => unreachable!(),
    }
}

/// Shifts the accumulator left.
fn shift_ac_left(regs: &mut Regs, n: u8)
    ensures { regs.new ≡ with_sum regs.old (acc_left regs.old.ac n) }
{
    let sum = als(regs.ac, n);
    regs.ac.set(sum.acc.negative(), sum.acc.magnitude());
    regs.overflow |= sum.overflow;
}

/// The long left shift.
fn shift_long_left(regs: &mut Regs, n: u8)
    ensures { regs.new ≡ with_shifted regs.old (long_left regs.old.ac regs.old.mq n) }
{
    let shifted = lls(regs.ac, regs.mq, n);
    regs.ac.set(shifted.acc.negative(), shifted.acc.magnitude());
    regs.mq = shifted.mq;
    regs.overflow |= shifted.overflow;
}

/// The long right shift.
fn shift_long_right(regs: &mut Regs, n: u8)
    ensures { regs.new ≡ with_shifted regs.old (long_right regs.old.ac regs.old.mq n) }
{
    let shifted = lrs(regs.ac, regs.mq, n);
    regs.ac.set(shifted.acc.negative(), shifted.acc.magnitude());
    regs.mq = shifted.mq;
    regs.overflow |= shifted.overflow;
}

/// The logical left shift.
fn shift_logical_left(regs: &mut Regs, n: u8)
    ensures { regs.new ≡ with_shifted regs.old (logical_left regs.old.ac regs.old.mq n) }
{
    let shifted = lgl(regs.ac, regs.mq, n);
    regs.ac.set(shifted.acc.negative(), shifted.acc.magnitude());
    regs.mq = shifted.mq;
    regs.overflow |= shifted.overflow;
}

/// The logical right shift.
fn shift_logical_right(regs: &mut Regs, n: u8)
    ensures { regs.new ≡ with_shifted regs.old (logical_right regs.old.ac regs.old.mq n) }
{
    let shifted = lgr(regs.ac, regs.mq, n);
    regs.ac.set(shifted.acc.negative(), shifted.acc.magnitude());
    regs.mq = shifted.mq;
    regs.overflow |= shifted.overflow;
}

/// A shift's count.
fn count(y: u16) -> u8
    ensures { result ≡ count_of y }
{
    (y & 0o377) as u8
}

/// How far a comparison goes on.
fn past(side: Side) -> u16
    ensures value { result ≡ past side }
    ensures few { result < 4 }
{
    match side {
        Side::Greater => 1,
        Side::Equal => 2,
        Side::Less => 3,
    }
}

/// The accumulator with other bits in P and 1 to 35.
fn with_logic(a: Acc, l: Word) -> Acc
    ensures { result ≡ with_logic a l }
{
    Acc::new(a.negative(), (a.magnitude() >> 36 << 36) + l.bits())
}

fn and(a: Word, b: Word) -> Word
    ensures { result ≡ bit_and a b }
{
    Word::of(a.bits() & b.bits())
}

#[tactic(auto, using(crate::proofs::Bits::or_below))]
fn or(a: Word, b: Word) -> Word
    ensures { result ≡ bit_or a b }
{
    Word::of(a.bits() | b.bits())
}

#[tactic(auto, using(crate::proofs::Bits::xor_below))]
fn xor(a: Word, b: Word) -> Word
    ensures { result ≡ bit_xor a b }
{
    Word::of(a.bits() ^ b.bits())
}

/// The first word without the ones of the second.
fn without(a: Word, b: Word) -> Word
    ensures { result ≡ without a b }
{
    Word::of(a.bits() & (0o777777777777 - b.bits()))
}

/// Whether all ones of the second word are ones of the first.
fn has_ones(a: Word, b: Word) -> bool
    ensures { result ≡ has_ones a b }
{
    a.bits() & b.bits() == b.bits()
}

/// Whether all ones of the second word are zeros of the first.
fn has_zeros(a: Word, b: Word) -> bool
    ensures { result ≡ has_zeros a b }
{
    a.bits() & b.bits() == 0
}

/// Positions 18 to 35 of an instruction, on the right of a word.
fn right_half(i: &Instr) -> Word
    requires { HasFields i.now }
    ensures { result ≡ half_of i.now }
{
    Word::of((u64::from(i.tag) << 15) + u64::from(i.address))
}

/// Positions 18 to 35 of an instruction, on the left of a word.
fn left_half(i: &Instr) -> Word
    requires { HasFields i.now }
    ensures { result ≡ half_of i.now * 2 ^ 18 }
{
    Word::of((u64::from(i.tag) << 15) + u64::from(i.address) << 18)
}
