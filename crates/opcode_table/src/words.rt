ghost use Rattle.std.specs.Prelude.{◌≡◌, ◌≢◌, ◌<◌, ◌^◌, ◌%◌, ◌+◌, Some, true, IfSome};
ghost use Rattle.word36.specs.Bits.{prefix_of};
ghost use Rattle.opcode_table.specs.Table.{class_of, kind_of, row_of, row_with_number};
ghost use Rattle.std.specs.Option.{option_map};
ghost use Rattle.opcode_table.specs.Words.{decoded, encoded, fields_for, IsClean, HasFields, word_for, number_fits};

use crate::index::row_coded;
use crate::rows::row;
use crate::{Class, Instr, Kind, Op, Row};
use word36::Word;

/// The instruction that a word is, and `None` where it names no operation of the table.
#[inline]
pub fn decode(w: Word) -> Option<Instr>
    ensures value { result ≡ decoded w }
    ensures fields { IfSome result HasFields }
{
    if w.prefix() & 3 != 0 {
        return decode_prefixed(w);
    }
    let row = row_coded(w)?;
    Some(instr_coded(row, w))
}

/// The instruction of a row of no prefix whose fields stand in a word.
#[inline(always)]
pub fn instr_coded(row: &Row, w: Word) -> Instr
    requires { row.now.3 ≢ Class.Prefixed }
    ensures value { result ≡ fields_for row.now.3 w row.now }
    ensures op { result.op ≡ row.now.0 }
    ensures fields { HasFields result }
{
    let flag = match row.3 {
        Class::Addressed => w.bits() >> 22 & 3 == 3,
        _ => false,
    };
    let address = match row.3 {
        Class::Group => 0,
        _ => w.address(),
    };
    Instr {
        op: row.0,
        flag,
        tag: w.tag(),
        address,
        decrement: 0,
    }
}

/// The instruction of a word that a prefix names, and `None` where none has that prefix.
#[inline(always)]
#[tactic(auto, using(crate::proofs::Codes::no_prefix_decoded))]
pub fn decode_prefixed(w: Word) -> Option<Instr>
    requires { prefix_of w % 4 ≢ 0 }
    ensures value { result ≡ decoded w }
    ensures fields { IfSome result HasFields }
    ensures class { IfSome result (λ i. class_of i.op ≡ Class.Prefixed) }
    ensures kind { IfSome result (λ i. kind_of i.op ≡ Kind.Index) }
{
    let op = prefixed(w.prefix())?;
    Some(Instr {
        op,
        flag: false,
        tag: w.tag(),
        address: w.address(),
        decrement: w.decrement(),
    })
}

/// The operation of a prefix, if there is one.
#[inline(always)]
#[tactic(auto, using(crate::proofs::Codes::no_prefix))]
fn prefixed(prefix: u8) -> Option<Op>
    requires { prefix < 8 }
    ensures row { option_map row_of result ≡ row_with_number (0o10000 + prefix) }
    ensures class { IfSome result (λ op. class_of op ≡ Class.Prefixed) }
    ensures kind { IfSome result (λ op. kind_of op ≡ Kind.Index) }
{
    // All eight are told, so that no test of the range stands before the jump.
    match prefix & 7 {
        0 => None,
        1 => Some(Op::Txi),
        2 => Some(Op::Tix),
        3 => Some(Op::Txh),
        4 => None,
        5 => None,
        6 => Some(Op::Tnx),
        7 => Some(Op::Txl),
        _ => None,
    }
}

/// The word of an instruction.
#[tactic(auto, using(crate::proofs::Codes::encoded_fits, crate::proofs::Codes::decoded_again))]
pub fn encode(i: &Instr) -> Word
    requires { HasFields i.now }
    ensures value { result ≡ encoded i.now }
    ensures again { IsClean i.now → decoded result ≡ Some i.now }
{
    Word::of(bits_of(row(i.op), i))
}

/// The bits of an instruction of a row.
fn bits_of(row: &Row, i: &Instr) -> u64
    requires fields { HasFields i.now }
    requires number { number_fits row.now.3 row.now.1 ≡ true }
    ensures { result ≡ word_for row.now.3 row.now.1 i.now }
{
    let number = u64::from(row.1);
    let low = (u64::from(i.tag) << 15) + u64::from(i.address);
    match row.3 {
        Class::Addressed => (number << 24) + (if i.flag { 3 << 22 } else { 0 }) + low,
        Class::Direct | Class::Tagged => (number << 24) + low,
        Class::Prefixed => ((number - 0o10000) << 33) + (u64::from(i.decrement) << 18) + low,
        Class::Group => ((number - 0o20000 >> 15) << 35)
            + (0o760 << 24)
            + (u64::from(i.tag) << 15)
            + (number - 0o20000 & 0o77777),
    }
}
