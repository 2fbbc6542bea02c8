//! Cases and results as text.
ghost use Rattle.std.specs.Prelude.{◌≡◌, ◌*◌, ◌<◌, ◌≤◌, ◌^◌, length, map, IfOk, string_bytes};
ghost use Rattle.step_cases.specs.Fields.{ReadsBelow, AreRegisters, acc_of};
ghost use Rattle.step_cases.specs.Texts.{IsEndText};

use cpu_regs::plain::PlainCore;
use cpu_regs::{MemoryPort, Regs};
use cpu_step::Stepped;
use std::alloc::{AllocError, Global};
use std::fmt::Write;
use thiserror::Error;
use word36::{Acc, Word};

/// Why a line is no case.
#[derive(Debug, Drop, Error)]
pub enum BadCase {
    #[error("a case has at least 15 fields")]
    Fields,
    #[error("a number is no number or too great")]
    Number,
    #[error("out of memory")]
    NoMemory,
}

/// A state of the machine and how many steps to do, with the core as it is at first.
#[derive(Drop)]
pub struct Case {
    pub steps: u64,
    pub regs: Regs,
    pub core: PlainCore,
    pub first: PlainCore,
    ghost counter: { regs.ic < 2 ^ 15 },
}

/// An octal number below a limit.
fn octal(field: &str, limit: u64) -> Result<u64, BadCase>
    ensures value { ReadsBelow limit field.now result }
    ensures below { IfOk result (λ n. n < limit) }
{
    match u64::from_str_radix(field, 8) {
        Ok(number) => if number < limit {
            Ok(number)
        } else {
            Err(BadCase::Number)
        },
        Err(_) => Err(BadCase::Number),
    }
}

fn word(field: &str) -> Result<Word, BadCase>
    ensures { ReadsBelow (2 ^ 36) field.now result }
{
    match Word::from_bits(octal(field, 1 << 36)?) {
        Ok(word) => Ok(word),
        Err(_) => Err(BadCase::Number),
    }
}

fn index(field: &str) -> Result<u16, BadCase>
    ensures value { ReadsBelow (2 ^ 15) field.now result }
    ensures below { IfOk result (λ n. n < 2 ^ 15) }
{
    let number = octal(field, 1 << 15)?;
    Ok(number as u16)
}

/// A sign and 13 digits.
fn acc(field: &str) -> Result<Acc, BadCase>
    ensures { IfOk result (λ a. a ≡ acc_of field.now) }
{
    if let Some(digits) = field.strip_prefix("-") {
        return Ok(Acc::new(true, octal(digits, 1 << 37)?));
    }
    match field.strip_prefix("+") {
        Some(digits) => Ok(Acc::new(false, octal(digits, 1 << 37)?)),
        None => Err(BadCase::Number),
    }
}

/// A core of so many blocks with these words, each written `ADDRESS=WORD`. Words outside the core are passed over.
fn shelf(alloc: Global, blocks: u8, named: &[&str]) -> Result<PlainCore, BadCase>
    requires { blocks ≤ 128 }
    ensures { IfOk result (λ shelf. length shelf ≡ 256 * blocks) }
{
    let Ok(mut shelf) = PlainCore::new(alloc, blocks) else {
        return Err(BadCase::NoMemory);
    };
    for pair in named {
        let Some((address, word_text)) = pair.split_once("=") else {
            return Err(BadCase::Fields);
        };
        let _ = shelf.store(index(address)?, word(word_text)?);
    }
    Ok(shelf)
}

/// The registers that these fields say: AC, MQ, SI, seven index registers, IC, OV, DC.
fn registers(fields: &[&str]) -> Result<Regs, BadCase>
    requires { length fields.now ≡ 13 }
    ensures value { IfOk result (AreRegisters (map (λ field. field.now) fields.now)) }
    ensures ic { IfOk result (λ r. r.ic < 2 ^ 15) }
{
    let mut regs = Regs::new();
    regs.ac = acc(fields[0])?;
    regs.mq = word(fields[1])?;
    regs.si = word(fields[2])?;
    for tag in 1..8u8 {
        regs.set_xr(tag, index(fields[2 + tag as usize])?);
    }
    regs.ic = index(fields[10])?;
    regs.overflow = octal(fields[11], 2)? == 1;
    regs.divide_check = octal(fields[12], 2)? == 1;
    Ok(regs)
}

/// The case of a line.
pub fn read_case(alloc: Global, line: &str) -> Result<Case, BadCase>
    ensures { IfOk result (λ case. case.core ≡ case.first) }
{
    let Ok(fields) = line.split(' ').collect(alloc) else {
        return Err(BadCase::NoMemory);
    };
    let fields: Vec<&str> = fields;
    if fields.len() < 15 {
        return Err(BadCase::Fields);
    }
    let Ok(steps) = fields[0].parse::<u64>() else {
        return Err(BadCase::Number);
    };
    let Ok(blocks) = fields[1].parse::<u8>() else {
        return Err(BadCase::Number);
    };
    if blocks > 128 {
        return Err(BadCase::Number);
    }
    let regs = registers(&fields[2..15])?;
    let first = shelf(alloc, blocks, &fields[15..])?;
    let Ok(core) = first.copy(alloc) else {
        return Err(BadCase::NoMemory);
    };
    Ok(Case {
        steps,
        regs,
        core,
        first,
    })
}

fn end_text(alloc: Global, end: Stepped) -> Result<String, AllocError>
    ensures { IfOk result (λ text. IsEndText end (string_bytes text)) }
{
    match end {
        Stepped::Went => String::from_str(alloc, "Went"),
        Stepped::Halt => String::from_str(alloc, "Halt"),
        Stepped::Illegal => String::from_str(alloc, "Illegal"),
        Stepped::Entry(word) => {
            let text = format!(in alloc; "Entry:{word}")?;
            Ok(text)
        }
        Stepped::Outside(address) => {
            let text = format!(in alloc; "Outside:{address:05o}")?;
            Ok(text)
        }
    }
}

/// The result of a case: how the last step ended, the registers, and the words that differ.
pub fn result_text(
    alloc: Global,
    end: Stepped,
    regs: &Regs,
    core: &PlainCore,
    first: &PlainCore,
) -> Result<String, AllocError> {
    let mut text = end_text(alloc, end)?;
    let sign = if regs.ac.negative() { "-" } else { "+" };
    let (magnitude, mq, si) = (regs.ac.magnitude(), regs.mq, regs.si);
    write!(text, " {sign}{magnitude:013o} {mq} {si}")?;
    for tag in 1..8 {
        let x = regs.xr(tag);
        write!(text, " {x:05o}")?;
    }
    let (ic, overflow, divide_check) = (
        regs.ic,
        u8::from(regs.overflow),
        u8::from(regs.divide_check),
    );
    write!(text, " {ic:05o} {overflow} {divide_check}")?;
    for (address, (now, was)) in core.words().iter().zip(first.words()).enumerate() {
        if now != was {
            let now = *now;
            write!(text, " {address:05o}={now}")?;
        }
    }
    text.push_str("\n")?;
    Ok(text)
}
