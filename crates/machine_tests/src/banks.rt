use core_bank::Bank;
use std::process::Abort;
use std::test::Fail;

/// Compares the words at these addresses.
fn holds(rt: &impl Abort, bank: &Bank, words: &[(u16, u64)]) {
    for (at, word) in words {
        assert!(rt; *at < 32768);
        assert!(rt; bank.load(*at) == *word, "at {at}");
    }
}

#[test]
fn begins_with_plus_zeros_and_stores_a_word(rt: HostRuntime) -> Result<(), Fail> {
    let mut bank = Bank::new(rt.alloc())?;
    holds(&rt, &bank, &[(0, 0), (32767, 0)]);
    bank.store(513, 0o777777777777);
    holds(&rt, &bank, &[(513, 0o777777777777), (512, 0)]);
    assert!(rt; bank.block(2)[1] == 0o777777777777);
    Ok(())
}

#[test]
fn copies_and_clears_blocks(rt: HostRuntime) -> Result<(), Fail> {
    let mut bank = Bank::new(rt.alloc())?;
    bank.copy_in(1, &[7; 256]);
    bank.copy_in(2, &[8; 256]);
    bank.copy_in(127, &[9; 256]);
    holds(
        &rt,
        &bank,
        &[(255, 0), (256, 7), (511, 7), (512, 8), (32767, 9)],
    );

    bank.clear_block(1);
    let mut words = [1; 256];
    bank.copy_out(1, &mut words);
    let cleared = words;
    bank.copy_out(2, &mut words);
    assert!(rt; cleared == [0; 256]);
    assert!(rt; words == [8; 256]);
    Ok(())
}

#[test]
fn lends_its_words(rt: HostRuntime) -> Result<(), Fail> {
    let mut bank = Bank::new(rt.alloc())?;
    bank.words_mut()[256..512].copy_from_slice(&[7; 256]);
    holds(&rt, &bank, &[(255, 0), (256, 7), (511, 7), (512, 0)]);
    Ok(())
}

#[test]
fn lends_a_window(rt: HostRuntime) -> Result<(), Fail> {
    let mut bank = Bank::new(rt.alloc())?;
    bank.copy_in(0, &[5; 256]);
    bank.copy_in(127, &[6; 256]);
    let window = bank.window(126, 2);
    assert!(rt; window[255] == 0);
    assert!(rt; window[256] == 6);
    window[511] = 7;
    window[0] = 8;
    holds(
        &rt,
        &bank,
        &[(255, 5), (126 * 256, 8), (32766, 6), (32767, 7)],
    );
    assert!(rt; bank.window(128, 0).is_empty());
    Ok(())
}
