use crate::bits::bits_of;
use crate::rows::holds;
use opcode_table::{Class, Instr, Kind, Op, class, decode, encode, kind, op_named};
use std::test::Fail;
use word36::Word;

// `CLA 5,2`, `CLA* 5,2` and `TIX` to 11 with tag 1 and decrement 1
static INSTRUCTIONS: [(u64, Instr); 3] = [
    (
        0o050000200005,
        Instr {
            op: Op::Cla,
            flag: false,
            tag: 2,
            address: 5,
            decrement: 0,
        },
    ),
    (
        0o050060200005,
        Instr {
            op: Op::Cla,
            flag: true,
            tag: 2,
            address: 5,
            decrement: 0,
        },
    ),
    (
        0o200001100011,
        Instr {
            op: Op::Tix,
            flag: false,
            tag: 1,
            address: 0o11,
            decrement: 1,
        },
    ),
];

// Words, and the operations of those that are instructions.
static OPERATIONS: [(u64, Option<Op>); 12] = [
    // one of the two bits of the flag is no flag
    (0o050040000005, Some(Op::Cla)),
    (0o076000000001, Some(Op::Lbt)),
    (0o476000000001, Some(Op::Pbt)),
    (0o076000300012, Some(Op::Dct)),
    (0o000000000000, Some(Op::Htr)),
    (0o476300000043, Some(Op::Lgl)),
    (0o700000000000, Some(Op::Txl)),
    // 0760 with an address of no operation, STR, a code that is free, and minus HTR
    (0o076000000004, None),
    (0o076000000021, None),
    (0o500000000000, None),
    (0o050400000000, None),
    (0o400000000000, None),
];

/// Whether the word and the instruction are each other's.
fn is_coded(word: Word, want: &Instr) -> bool {
    match decode(word) {
        Some(instr) => instr == *want && encode(&instr) == word,
        None => false,
    }
}

#[test]
fn decodes_and_encodes(rt: HostRuntime) {
    for (row, (bits, instr)) in INSTRUCTIONS.iter().enumerate() {
        holds(&rt, row, is_coded(bits_of(&rt, *bits), instr));
    }
}

/// The operation of a word, if it is an instruction.
fn operation(word: Word) -> Option<Op> {
    match decode(word) {
        Some(instr) => Some(instr.op),
        None => None,
    }
}

#[test]
fn tells_what_is_an_operation(rt: HostRuntime) {
    for (row, (bits, op)) in OPERATIONS.iter().enumerate() {
        holds(&rt, row, operation(bits_of(&rt, *bits)) == *op);
    }
}

#[test]
fn half_a_flag_is_none(rt: HostRuntime) {
    match decode(Word::of(0o050040000005)) {
        Some(instr) => assert!(rt; !instr.flag),
        None => panic!(rt; "no instruction"),
    }
}

// Names, and the operations that have them.
static NAMES: [(&[u8; 6], Option<Op>); 4] = [
    (b"TIA   ", Some(Op::Tia)),
    (b"DCT   ", Some(Op::Dct)),
    (b"FOO   ", None),
    (b"TIA\0\0\0", None),
];

#[test]
fn knows_names(rt: HostRuntime) {
    for (row, (name, op)) in NAMES.iter().enumerate() {
        holds(&rt, row, op_named(name) == *op);
    }
}

#[test]
fn knows_kinds_and_classes(rt: HostRuntime) {
    assert!(rt; kind(Op::Xec) == Kind::Xec);
    assert!(rt; kind(Op::Tia) == Kind::Tia);
    assert!(rt; class(Op::Tix) == Class::Prefixed);
    assert!(rt; class(Op::Pbt) == Class::Group);
}

#[test]
fn prints_names(rt: HostRuntime) -> Result<(), Fail> {
    let text = format!(in rt.alloc(); "{} {}", Op::Cla, Op::Dct)?;
    assert!(rt; text.as_str() == "CLA DCT");
    Ok(())
}
