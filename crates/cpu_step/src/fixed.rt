//! Loads, stores, fixed-point arithmetic and the signs of the accumulator: what each instruction does.
ghost use Rattle.std.specs.Prelude.{◌≡◌, ◌<◌, not, true, false};
ghost use Rattle.opcode_table.specs.Table.{kind_of};
ghost use Rattle.machine_model.specs.Fixed.{fixed_row};
ghost use Rattle.machine_model.specs.Results.{DoesNotHalt};
ghost use Rattle.word36.specs.Bits.{is_minus, magnitude_of};
ghost use Rattle.arith36.specs.Arith.{sum_of, product_of};
ghost use Rattle.machine_model.specs.Fixed.{round, with_left, with_tag, with_prefix};
ghost use Rattle.machine_model.specs.Step.{past, with_sum, with_pair};
ghost use Rattle.cpu_step.specs.Families.{is_load_or_store, is_part_store, is_sum, is_product, is_test, is_change};
ghost use Rattle.cpu_step.specs.Does.{IsAtPlace, DoesRow};

use arith36::{
    Divide, Side, add, add_magnitude, compare, dvp, mpr, mpy, round as rounded_sum, sub,
    sub_magnitude,
};
use cpu_regs::{MemoryPort, OpEnd, Regs};
use opcode_table::{Instr, Kind, Op};
use word36::Word;

/// Does an operation of this group at the place `y`.
#[inline(always)]
pub fn apply<M: MemoryPort>(regs: &mut Regs, core: &mut M, i: &Instr, y: u16) -> OpEnd
    requires kind { kind_of i.now.op ≡ Kind.Fixed }
    requires place { IsAtPlace i.now y regs.old }
    ensures does { DoesRow fixed_row i.now y result regs.old regs.new (M.words core.old) (M.words core.new) }
    ensures keeps { M.Keeps core.old core.new }
{
    match i.op {
        Op::Cla | Op::Cls | Op::Ldq | Op::Stz | Op::Sto | Op::Stq => load_or_store(
            regs, core, i, y,
        ),
        Op::Slq | Op::Sta | Op::Std | Op::Stt | Op::Stl | Op::Stp => store_part(regs, core, i, y),
        Op::Add | Op::Sub | Op::Adm | Op::Sbm => sum(regs, core, i, y),
        Op::Mpy | Op::Mpr | Op::Dvp => product(regs, core, i, y),
        Op::Dvh => divide_or_halt(regs, core, i, y),
        Op::Cas | Op::Zet | Op::Nzt | Op::Lbt | Op::Pbt | Op::Dct => test(regs, core, i, y),
        Op::Xca | Op::Clm | Op::Chs | Op::Ssp | Op::Ssm | Op::Com | Op::Rnd => change(
            regs, core, i, y,
        ),
        _ => unreachable!(),
    }
}

/// Loads a register from the word at `y`, or stores a register or zero there.
#[inline(always)]
pub fn load_or_store<M: MemoryPort>(regs: &mut Regs, core: &mut M, i: &Instr, y: u16) -> OpEnd
    requires family { is_load_or_store i.now.op ≡ true }
    requires place { IsAtPlace i.now y regs.old }
    ensures does { DoesRow fixed_row i.now y result regs.old regs.new (M.words core.old) (M.words core.new) }
    ensures goes { DoesNotHalt result }
    ensures keeps { M.Keeps core.old core.new }
{
    match i.op {
        Op::Cla => {
            let Ok(w) = core.load(y) else {
                return OpEnd::Outside(y);
            };
            regs.ac.set(w.negative(), w.magnitude());
            regs.skip(1);
            OpEnd::Went
        }
        Op::Cls => {
            let Ok(w) = core.load(y) else {
                return OpEnd::Outside(y);
            };
            regs.ac.set(!w.negative(), w.magnitude());
            regs.skip(1);
            OpEnd::Went
        }
        Op::Ldq => {
            let Ok(w) = core.load(y) else {
                return OpEnd::Outside(y);
            };
            regs.mq = w;
            regs.skip(1);
            OpEnd::Went
        }
        Op::Stz => {
            let Ok(()) = core.store(y, Word::default()) else {
                return OpEnd::Outside(y);
            };
            regs.skip(1);
            OpEnd::Went
        }
        Op::Sto => {
            let Ok(()) = core.store(y, regs.ac.word()) else {
                return OpEnd::Outside(y);
            };
            regs.skip(1);
            OpEnd::Went
        }
        Op::Stq => {
            let Ok(()) = core.store(y, regs.mq) else {
                return OpEnd::Outside(y);
            };
            regs.skip(1);
            OpEnd::Went
        }
        _ => unreachable!(),
    }
}

/// Stores a part of a register in the word at `y`.
#[inline(always)]
pub fn store_part<M: MemoryPort>(regs: &mut Regs, core: &mut M, i: &Instr, y: u16) -> OpEnd
    requires family { is_part_store i.now.op ≡ true }
    requires place { IsAtPlace i.now y regs.old }
    ensures does { DoesRow fixed_row i.now y result regs.old regs.new (M.words core.old) (M.words core.new) }
    ensures goes { DoesNotHalt result }
    ensures keeps { M.Keeps core.old core.new }
{
    match i.op {
        Op::Slq => {
            let Ok(w) = core.load(y) else {
                return OpEnd::Outside(y);
            };
            let _ = core.store(y, with_left(w, regs.mq));
            regs.skip(1);
            OpEnd::Went
        }
        Op::Sta => {
            let Ok(w) = core.load(y) else {
                return OpEnd::Outside(y);
            };
            let _ = core.store(y, w.with_address((regs.ac.magnitude() & 0o77777) as u16));
            regs.skip(1);
            OpEnd::Went
        }
        Op::Std => {
            let Ok(w) = core.load(y) else {
                return OpEnd::Outside(y);
            };
            let _ = core.store(
                y,
                w.with_decrement((regs.ac.magnitude() >> 18 & 0o77777) as u16),
            );
            regs.skip(1);
            OpEnd::Went
        }
        Op::Stt => {
            let Ok(w) = core.load(y) else {
                return OpEnd::Outside(y);
            };
            let _ = core.store(y, with_tag(w, (regs.ac.magnitude() >> 15 & 7) as u8));
            regs.skip(1);
            OpEnd::Went
        }
        Op::Stl => {
            let Ok(w) = core.load(y) else {
                return OpEnd::Outside(y);
            };
            let _ = core.store(y, w.with_address((regs.ic + 1) & 0o77777));
            regs.skip(1);
            OpEnd::Went
        }
        Op::Stp => {
            let Ok(w) = core.load(y) else {
                return OpEnd::Outside(y);
            };
            let _ = core.store(y, with_prefix(w, (regs.ac.magnitude() >> 33 & 7) as u8));
            regs.skip(1);
            OpEnd::Went
        }
        _ => unreachable!(),
    }
}

/// Adds or subtracts the word at `y`.
#[inline(always)]
pub fn sum<M: MemoryPort>(regs: &mut Regs, core: &mut M, i: &Instr, y: u16) -> OpEnd
    requires family { is_sum i.now.op ≡ true }
    requires place { IsAtPlace i.now y regs.old }
    ensures does { DoesRow fixed_row i.now y result regs.old regs.new (M.words core.old) (M.words core.new) }
    ensures goes { DoesNotHalt result }
    ensures keeps { M.Keeps core.old core.new }
{
    match i.op {
        Op::Add => {
            let Ok(w) = core.load(y) else {
                return OpEnd::Outside(y);
            };
            add_word(regs, w);
            regs.skip(1);
            OpEnd::Went
        }
        Op::Sub => {
            let Ok(w) = core.load(y) else {
                return OpEnd::Outside(y);
            };
            subtract_word(regs, w);
            regs.skip(1);
            OpEnd::Went
        }
        Op::Adm => {
            let Ok(w) = core.load(y) else {
                return OpEnd::Outside(y);
            };
            add_word_magnitude(regs, w);
            regs.skip(1);
            OpEnd::Went
        }
        Op::Sbm => {
            let Ok(w) = core.load(y) else {
                return OpEnd::Outside(y);
            };
            subtract_word_magnitude(regs, w);
            regs.skip(1);
            OpEnd::Went
        }
        _ => unreachable!(),
    }
}

/// Multiplies or divides by the word at `y`.
#[inline(always)]
pub fn product<M: MemoryPort>(regs: &mut Regs, core: &mut M, i: &Instr, y: u16) -> OpEnd
    requires family { is_product i.now.op ≡ true }
    requires place { IsAtPlace i.now y regs.old }
    ensures does { DoesRow fixed_row i.now y result regs.old regs.new (M.words core.old) (M.words core.new) }
    ensures goes { DoesNotHalt result }
    ensures keeps { M.Keeps core.old core.new }
{
    match i.op {
        Op::Mpy => {
            let Ok(w) = core.load(y) else {
                return OpEnd::Outside(y);
            };
            multiply(regs, w);
            regs.skip(1);
            OpEnd::Went
        }
        Op::Mpr => {
            let Ok(w) = core.load(y) else {
                return OpEnd::Outside(y);
            };
            multiply_rounded(regs, w);
            regs.skip(1);
            OpEnd::Went
        }
        Op::Dvp => {
            let Ok(w) = core.load(y) else {
                return OpEnd::Outside(y);
            };
            match dvp(regs.ac, regs.mq, w) {
                Divide::Divided(pair) => {
                    regs.ac.set(pair.acc.negative(), pair.acc.magnitude());
                    regs.mq = pair.mq;
                    regs.skip(1);
                    OpEnd::Went
                }
                Divide::Check => {
                    regs.divide_check = true;
                    regs.skip(1);
                    OpEnd::Went
                }
            }
        }
        _ => unreachable!(),
    }
}

/// Divides by the word at `y`, or halts.
#[inline(always)]
fn divide_or_halt<M: MemoryPort>(regs: &mut Regs, core: &mut M, i: &Instr, y: u16) -> OpEnd
    requires family { i.now.op ≡ Op.Dvh }
    requires place { IsAtPlace i.now y regs.old }
    ensures does { DoesRow fixed_row i.now y result regs.old regs.new (M.words core.old) (M.words core.new) }
    ensures keeps { M.Keeps core.old core.new }
{
    let Ok(w) = core.load(y) else {
        return OpEnd::Outside(y);
    };
    match dvp(regs.ac, regs.mq, w) {
        Divide::Divided(pair) => {
            regs.ac.set(pair.acc.negative(), pair.acc.magnitude());
            regs.mq = pair.mq;
            regs.skip(1);
            OpEnd::Went
        }
        Divide::Check => {
            regs.divide_check = true;
            regs.skip(1);
            OpEnd::Halt
        }
    }
}

/// Tests the word at `y` or the registers, and skips.
#[inline(always)]
pub fn test<M: MemoryPort>(regs: &mut Regs, core: &mut M, i: &Instr, y: u16) -> OpEnd
    requires family { is_test i.now.op ≡ true }
    requires place { IsAtPlace i.now y regs.old }
    ensures does { DoesRow fixed_row i.now y result regs.old regs.new (M.words core.old) (M.words core.new) }
    ensures goes { DoesNotHalt result }
    ensures keeps { M.Keeps core.old core.new }
{
    match i.op {
        Op::Cas => {
            let Ok(w) = core.load(y) else {
                return OpEnd::Outside(y);
            };
            regs.skip(past(compare(regs.ac, w)));
            OpEnd::Went
        }
        Op::Zet => {
            let Ok(w) = core.load(y) else {
                return OpEnd::Outside(y);
            };
            regs.skip_if(w.magnitude() == 0);
            OpEnd::Went
        }
        Op::Nzt => {
            let Ok(w) = core.load(y) else {
                return OpEnd::Outside(y);
            };
            regs.skip_if(w.magnitude() != 0);
            OpEnd::Went
        }
        Op::Lbt => {
            regs.skip_if(regs.ac.magnitude() & 1 == 1);
            OpEnd::Went
        }
        Op::Pbt => {
            regs.skip_if(regs.ac.magnitude() >> 35 & 1 == 1);
            OpEnd::Went
        }
        Op::Dct => {
            let on = regs.divide_check;
            regs.divide_check = false;
            regs.skip_if(!on);
            OpEnd::Went
        }
        _ => unreachable!(),
    }
}

/// Changes the accumulator by itself, or exchanges it.
#[inline(always)]
pub fn change<M: MemoryPort>(regs: &mut Regs, core: &mut M, i: &Instr, y: u16) -> OpEnd
    requires family { is_change i.now.op ≡ true }
    requires place { IsAtPlace i.now y regs.old }
    ensures does { DoesRow fixed_row i.now y result regs.old regs.new (M.words core.old) (M.words core.new) }
    ensures goes { DoesNotHalt result }
    ensures keeps { M.Keeps core.old core.new }
{
    match i.op {
        Op::Xca => {
            let word = regs.ac.word();
            let negative = regs.mq.negative();
            let magnitude = regs.mq.magnitude();
            regs.ac.set(negative, magnitude);
            regs.mq = word;
            regs.skip(1);
            OpEnd::Went
        }
        Op::Clm => {
            let negative = regs.ac.negative();
            regs.ac.set(negative, 0);
            regs.skip(1);
            OpEnd::Went
        }
        Op::Chs => {
            let negative = !regs.ac.negative();
            let magnitude = regs.ac.magnitude();
            regs.ac.set(negative, magnitude);
            regs.skip(1);
            OpEnd::Went
        }
        Op::Ssp => {
            let magnitude = regs.ac.magnitude();
            regs.ac.set(false, magnitude);
            regs.skip(1);
            OpEnd::Went
        }
        Op::Ssm => {
            let magnitude = regs.ac.magnitude();
            regs.ac.set(true, magnitude);
            regs.skip(1);
            OpEnd::Went
        }
        Op::Com => {
            let negative = regs.ac.negative();
            let magnitude = 0o1777777777777 - regs.ac.magnitude();
            regs.ac.set(negative, magnitude);
            regs.skip(1);
            OpEnd::Went
        }
        Op::Rnd => {
            round_ac(regs);
            regs.skip(1);
            OpEnd::Went
        }
        _ => unreachable!(),
    }
}

/// Adds a word to the accumulator.
#[inline(always)]
fn add_word(regs: &mut Regs, w: Word)
    ensures { regs.new ≡ with_sum regs.old (sum_of regs.old.ac (is_minus w) (magnitude_of w)) }
{
    let sum = add(regs.ac, w);
    regs.ac.set(sum.acc.negative(), sum.acc.magnitude());
    regs.overflow |= sum.overflow;
}

/// Subtracts a word from the accumulator.
#[inline(always)]
fn subtract_word(regs: &mut Regs, w: Word)
    ensures { regs.new ≡ with_sum regs.old (sum_of regs.old.ac (not (is_minus w)) (magnitude_of w)) }
{
    let sum = sub(regs.ac, w);
    regs.ac.set(sum.acc.negative(), sum.acc.magnitude());
    regs.overflow |= sum.overflow;
}

/// Adds a word's magnitude to the accumulator.
#[inline(always)]
fn add_word_magnitude(regs: &mut Regs, w: Word)
    ensures { regs.new ≡ with_sum regs.old (sum_of regs.old.ac false (magnitude_of w)) }
{
    let sum = add_magnitude(regs.ac, w);
    regs.ac.set(sum.acc.negative(), sum.acc.magnitude());
    regs.overflow |= sum.overflow;
}

/// Subtracts a word's magnitude from the accumulator.
#[inline(always)]
fn subtract_word_magnitude(regs: &mut Regs, w: Word)
    ensures { regs.new ≡ with_sum regs.old (sum_of regs.old.ac true (magnitude_of w)) }
{
    let sum = sub_magnitude(regs.ac, w);
    regs.ac.set(sum.acc.negative(), sum.acc.magnitude());
    regs.overflow |= sum.overflow;
}

/// Rounds the accumulator by the multiplier-quotient.
fn round_ac(regs: &mut Regs)
    ensures { regs.new ≡ round regs.old }
{
    let sum = rounded_sum(regs.ac, regs.mq);
    regs.ac.set(sum.acc.negative(), sum.acc.magnitude());
    regs.overflow |= sum.overflow;
}

/// Multiplies the multiplier-quotient by a word.
fn multiply(regs: &mut Regs, w: Word)
    ensures { regs.new ≡ with_pair regs.old (product_of regs.old.mq w) }
{
    let pair = mpy(regs.mq, w);
    regs.ac.set(pair.acc.negative(), pair.acc.magnitude());
    regs.mq = pair.mq;
}

/// Multiplies and rounds, which never overflows.
fn multiply_rounded(regs: &mut Regs, w: Word)
    ensures { regs.new ≡ round (with_pair regs.old (product_of regs.old.mq w)) }
{
    let pair = mpr(regs.mq, w);
    regs.ac.set(pair.acc.negative(), pair.acc.magnitude());
    regs.mq = pair.mq;
}

/// How far a comparison goes on.
fn past(side: Side) -> u16
    ensures value { result ≡ past side }
    ensures few { result < 4 }
{
    match side {
        Side::Greater => 1,
        Side::Equal => 2,
        Side::Less => 3,
    }
}

/// The word with positions S and 1 to 17 of another.
fn with_left(w: Word, other: Word) -> Word
    ensures { result ≡ with_left w other }
{
    Word::of((other.bits() >> 18 << 18) + (w.bits() & 0o777777))
}

fn with_tag(w: Word, tag: u8) -> Word
    requires { tag < 8 }
    ensures { result ≡ with_tag w tag }
{
    Word::of((w.bits() >> 18 << 18) + (u64::from(tag) << 15) + (w.bits() & 0o77777))
}

fn with_prefix(w: Word, prefix: u8) -> Word
    requires { prefix < 8 }
    ensures { result ≡ with_prefix w prefix }
{
    Word::of((u64::from(prefix) << 33) + (w.bits() & 0o77777777777))
}
