ghost use Rattle.std.specs.Prelude.{◌≡◌, ◌<◌, ◌^◌};
ghost use Rattle.cpu_regs.specs.Registers.{xr, set_xr, no_registers, skip, skip_if, jump, jump_if};

use crate::IndexRegisters;
use word36::{Acc, Word};

/// The registers and indicators of a program.
///
/// `ic`, the instruction counter, is the address of the next instruction and lies below 2^15; the calls of the machine
/// ask that and keep it so.
#[derive(Clone, Copy, Debug, PartialEq, Eq, Hash)]
pub struct Regs {
    /// The accumulator AC.
    pub ac: Acc,
    /// The multiplier-quotient MQ.
    pub mq: Word,
    /// The sense indicators SI.
    pub si: Word,
    pub ic: u16,
    /// The accumulator overflow indicator.
    pub overflow: bool,
    /// The divide check indicator.
    pub divide_check: bool,
    index: IndexRegisters,
}

impl Regs {
    /// All zero and off.
    pub fn new() -> Regs
        ensures { result ≡ no_registers }
    {
        Regs {
            ac: Acc::default(),
            mq: Word::default(),
            si: Word::default(),
            ic: 0,
            overflow: false,
            divide_check: false,
            index: IndexRegisters::new(),
        }
    }

    /// The index that a tag names. Tag 0 names none and reads as 0.
    #[inline]
    pub fn xr(&self, tag: u8) -> u16
        requires { tag < 8 }
        ensures value { result ≡ xr self.now tag }
        ensures below { result < 2 ^ 15 }
    {
        self.index.get(tag)
    }

    /// Sets the index register that a tag names. Tag 0 names none, and nothing is set.
    #[inline]
    pub fn set_xr(&mut self, tag: u8, index: u16)
        requires tag { tag < 8 }
        requires index { index < 2 ^ 15 }
        ensures { self.new ≡ set_xr self.old tag index }
    {
        self.index.set(tag, index);
    }

    /// Goes `n` places further on, round the end of core: 1 is the next instruction, 2 and 3 skip.
    #[inline]
    pub fn skip(&mut self, n: u16)
        requires ic { self.old.ic < 2 ^ 15 }
        requires n { n < 4 }
        ensures value { self.new ≡ skip n self.old }
        ensures ic { self.new.ic < 2 ^ 15 }
    {
        self.ic = (self.ic + n) & 0o77777;
    }

    /// Skips the next instruction where the condition holds.
    #[inline]
    pub fn skip_if(&mut self, condition: bool)
        requires { self.old.ic < 2 ^ 15 }
        ensures value { self.new ≡ skip_if condition self.old }
        ensures ic { self.new.ic < 2 ^ 15 }
    {
        self.skip(if condition { 2 } else { 1 });
    }

    /// Goes to an address.
    #[inline]
    pub fn jump(&mut self, y: u16)
        requires { y < 2 ^ 15 }
        ensures value { self.new ≡ jump y self.old }
        ensures ic { self.new.ic < 2 ^ 15 }
    {
        self.ic = y;
    }

    /// Goes to an address where the condition holds, and else to the next instruction.
    #[inline]
    pub fn jump_if(&mut self, condition: bool, y: u16)
        requires ic { self.old.ic < 2 ^ 15 }
        requires y { y < 2 ^ 15 }
        ensures value { self.new ≡ jump_if condition y self.old }
        ensures ic { self.new.ic < 2 ^ 15 }
    {
        if condition {
            self.ic = y;
        } else {
            self.skip(1);
        }
    }
}

/// How an operation ended. What is outside the core changes nothing.
#[derive(Clone, Copy, Debug, PartialEq, Eq)]
pub enum OpEnd {
    Went,
    Halt,
    /// The address that is outside.
    Outside(u16),
}
