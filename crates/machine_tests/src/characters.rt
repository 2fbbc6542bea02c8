use crate::rows::holds;
use bcd48::{char_of, code_of, is_character, pack6, text6};

// Each character with its code.
static CODES: [(u8, u8); 48] = [
    (b'0', 0o00),
    (b'1', 0o01),
    (b'2', 0o02),
    (b'3', 0o03),
    (b'4', 0o04),
    (b'5', 0o05),
    (b'6', 0o06),
    (b'7', 0o07),
    (b'8', 0o10),
    (b'9', 0o11),
    (b'=', 0o13),
    (b'\'', 0o14),
    (b'+', 0o20),
    (b'A', 0o21),
    (b'B', 0o22),
    (b'C', 0o23),
    (b'D', 0o24),
    (b'E', 0o25),
    (b'F', 0o26),
    (b'G', 0o27),
    (b'H', 0o30),
    (b'I', 0o31),
    (b'.', 0o33),
    (b')', 0o34),
    (b'-', 0o40),
    (b'J', 0o41),
    (b'K', 0o42),
    (b'L', 0o43),
    (b'M', 0o44),
    (b'N', 0o45),
    (b'O', 0o46),
    (b'P', 0o47),
    (b'Q', 0o50),
    (b'R', 0o51),
    (b'$', 0o53),
    (b'*', 0o54),
    (b' ', 0o60),
    (b'/', 0o61),
    (b'S', 0o62),
    (b'T', 0o63),
    (b'U', 0o64),
    (b'V', 0o65),
    (b'W', 0o66),
    (b'X', 0o67),
    (b'Y', 0o70),
    (b'Z', 0o71),
    (b',', 0o73),
    (b'(', 0o74),
];

// What codes print as: those of characters, and those that no character has.
static PRINTED: [(u8, u8); 6] = [
    (0o00, b'0'),
    (0o14, b'\''),
    (0o60, b' '),
    (0o74, b'('),
    (0o12, b' '),
    (0o77, b' '),
];

// Words, and the characters that they print as.
static TEXTS: [(u64, [u8; 6]); 3] = [
    (0o302543434660, *b"HELLO "),
    (0o665126436760, *b"WRFLX "),
    (0o122147777777, *b" AP   "),
];

// Bytes that are no characters.
static OTHERS: [u8; 7] = [b'a', b'"', b'#', b'@', b'\n', 0, 255];

/// Whether a byte has this code, and is a character where it has one.
fn has_code(byte: u8, code: Option<u8>) -> bool {
    (is_character(byte), code_of(byte)) == (code.is_some(), code)
}

#[test]
fn characters_have_codes(rt: HostRuntime) {
    for (row, (byte, code)) in CODES.iter().enumerate() {
        holds(&rt, row, has_code(*byte, Some(*code)));
    }
    for (row, byte) in OTHERS.iter().enumerate() {
        holds(&rt, row, has_code(*byte, None));
    }
}

#[test]
fn codes_are_printed(rt: HostRuntime) {
    for (row, (code, byte)) in PRINTED.iter().enumerate() {
        assert!(rt; *code < 64);
        holds(&rt, row, char_of(*code) == *byte);
    }
}

#[test]
fn packs(rt: HostRuntime) {
    let hello = pack6(&[0o30, 0o25, 0o43, 0o43, 0o46, 0o60]);
    assert!(rt; hello == 0o302543434660);
}

#[test]
fn prints_words(rt: HostRuntime) {
    for (row, (word, text)) in TEXTS.iter().enumerate() {
        assert!(rt; *word < 1 << 36);
        holds(&rt, row, text6(*word) == *text);
    }
}
