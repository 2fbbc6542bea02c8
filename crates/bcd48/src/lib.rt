//! The 48 characters of the machine and their 6-bit codes, six to a word.
#![tactic(auto)]

ghost use Rattle.std.specs.Prelude.{◌≡◌, ◌/◌, ◌%◌, ◌^◌, ◌<◌, ◌↔◌, All, IsNone, IfSome, IsTrue, false};
ghost use Rattle.bcd48.specs.Characters.{is_character, code_of, char_of};
ghost use Rattle.bcd48.specs.Words.{packed, characters_of};

pub mod laws;

// What each of the 64 codes prints as.
static PRINTED: [u8; 64] = *b"0123456789 ='   +ABCDEFGHI .)   -JKLMNOPQR $*    /STUVWXYZ ,(   ";

/// Whether the byte is one of the 48 characters: the digits, the capital letters, the blank and `='+.)-$*/,(`.
pub fn is_character(byte: u8) -> bool
    ensures { result ≡ is_character byte }
{
    code_of(byte).is_some()
}

/// The 6-bit code of a character, as the machine's reference manual has it.
pub fn code_of(byte: u8) -> Option<u8>
    ensures value { result ≡ code_of byte }
    ensures outside { IsNone result ↔ (is_character byte ≡ false) }
    ensures below { IfSome result (λ code. code < 64) }
{
    match byte {
        b'0'..=b'9' => Some(byte - b'0'),
        b'=' => Some(0o13),
        b'\'' => Some(0o14),
        b'+' => Some(0o20),
        b'A'..=b'I' => Some(byte - b'A' + 0o21),
        b'.' => Some(0o33),
        b')' => Some(0o34),
        b'-' => Some(0o40),
        b'J'..=b'R' => Some(byte - b'J' + 0o41),
        b'$' => Some(0o53),
        b'*' => Some(0o54),
        b' ' => Some(0o60),
        b'/' => Some(0o61),
        b'S'..=b'Z' => Some(byte - b'S' + 0o62),
        b',' => Some(0o73),
        b'(' => Some(0o74),
        _ => None,
    }
}

/// The character that a code prints as. The codes that no character has print as a blank.
pub fn char_of(code: u8) -> u8
    requires { code < 64 }
    ensures value { result ≡ char_of code }
    ensures character { IsTrue (is_character result) }
{
    PRINTED[usize::from(code)]
}

/// The word of six codes, the first one in its highest six bits.
pub fn pack6(codes: &[u8; 6]) -> u64
    requires { All (λ code. code < 64) codes.now }
    ensures value { result ≡ packed codes.now }
    ensures below { result < 2 ^ 36 }
{
    let mut word = 0;
    for code in codes {
        word = word << 6 | u64::from(*code);
    }
    word
}

/// The six characters that a word prints as, that of its highest six bits first.
pub fn text6(word: u64) -> [u8; 6]
    requires { word < 2 ^ 36 }
    ensures { result ≡ characters_of word }
{
    [
        char_at(word, 30),
        char_at(word, 24),
        char_at(word, 18),
        char_at(word, 12),
        char_at(word, 6),
        char_at(word, 0),
    ]
}

// What the six bits above the lowest `place` bits print as.
fn char_at(word: u64, place: u32) -> u8
    requires { place < 64 }
    ensures { result ≡ char_of (word / 2 ^ place % 64) }
{
    char_of((word >> place & 0o77) as u8)
}
