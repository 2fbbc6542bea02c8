use crate::bits::bits_of;
use crate::rows::holds;
use std::alloc::Global;
use std::test::Fail;
use word36::{Acc, TooWide, Word};

#[test]
fn takes_a_word_apart(rt: HostRuntime) {
    // `TSX 3,4`: the prefix 0, the decrement 07400, the tag 4, the address 00003
    let call = Word::of(0o007400400003);
    assert!(rt; call.prefix() == 0 && call.decrement() == 0o07400);
    assert!(rt; call.tag() == 4 && call.address() == 3);
    assert!(rt; !call.negative() && call.magnitude() == 0o007400400003);
    assert!(rt; call.bits() == 0o007400400003);
}

#[test]
fn minus_zero_has_a_sign(rt: HostRuntime) {
    let minus_zero = Word::signed(true, 0);
    assert!(rt; minus_zero.bits() == 0o400000000000 && minus_zero.prefix() == 4);
    assert!(rt; minus_zero.negative() && minus_zero.magnitude() == 0);
    assert!(rt; minus_zero != Word::default());
}

#[test]
fn puts_a_word_together(rt: HostRuntime) {
    let ones = Word::signed(true, 0o377777777777);
    assert!(rt; Word::of(0o777777777777) == ones);
    assert!(rt; Word::try_from(0o777777777777) == Ok(ones));
    assert!(rt; Word::from_bits(0o777777712345) == Ok(ones.with_address(0o12345)));
    assert!(rt; Word::from_bits(0o712345777777) == Ok(ones.with_decrement(0o12345)));
    assert!(rt; Word::from_bits(0o1000000000000) == Err(TooWide));
}

#[test]
fn reads_the_accumulator(rt: HostRuntime) {
    // Q and P are one
    let plus = Acc::new(false, 0o1400000000005);
    assert!(rt; !plus.negative() && plus.magnitude() == 0o1400000000005);
    assert!(rt; plus.word() == Word::of(5));
    assert!(rt; plus.logical() == Word::of(0o400000000005));
}

#[test]
fn sets_the_accumulator(rt: HostRuntime) {
    let minus = Acc::new(true, 5);
    assert!(rt; minus.negative());
    assert!(rt; minus.word() == Word::of(0o400000000005));
    assert!(rt; minus.logical() == Word::of(5));
    let mut other = Acc::new(false, 0o1400000000005);
    other.set(true, 5);
    assert!(rt; other == minus);
}

// Bits, and the digits that they print as.
static DIGITS: [(u64, &str); 3] = [
    (0, "000000000000"),
    (0o7400400003, "007400400003"),
    (0o777777777777, "777777777777"),
];

/// Whether a word prints as these digits.
fn prints_as(alloc: Global, word: Word, digits: &str) -> Result<bool, Fail> {
    let text = format!(in alloc; "{word}")?;
    Ok(text.as_str() == digits)
}

#[test]
fn prints(rt: HostRuntime) -> Result<(), Fail> {
    for (row, (bits, digits)) in DIGITS.iter().enumerate() {
        holds(
            &rt,
            row,
            prints_as(rt.alloc(), bits_of(&rt, *bits), digits)?,
        );
    }
    let refusal = format!(in rt.alloc(); "{TooWide}")?;
    assert!(rt; refusal.as_str() == "more than 36 bits");
    Ok(())
}
