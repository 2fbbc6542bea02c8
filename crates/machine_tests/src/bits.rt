//! Words of a table.
use std::process::Abort;
use word36::Word;

/// The word of these bits.
pub fn bits_of(rt: &impl Abort, bits: u64) -> Word {
    assert!(rt; bits < 1 << 36);
    Word::of(bits)
}
