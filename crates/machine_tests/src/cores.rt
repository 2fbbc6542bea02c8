use cpu_regs::plain::PlainCore;
use cpu_regs::{MemoryPort, Outside};
use std::process::Abort;
use std::test::Fail;
use word36::Word;

/// Stores words inside and outside the core.
fn stores(rt: &impl Abort, core: &mut PlainCore) {
    assert!(rt; core.store(255, Word::signed(true, 5)) == Ok(()));
    assert!(rt; core.store(256, Word::signed(false, 5)) == Err(Outside));
    assert!(rt; core.size() == 1);
}

/// Tries what a copy has.
fn has_copied(rt: &impl Abort, copy: &PlainCore) {
    assert!(rt; copy.words().len() == 256);
    assert!(rt; copy.load(255) == Ok(Word::signed(true, 5)));
    assert!(rt; copy.load(0) == Ok(Word::default()));
    assert!(rt; copy.load(256) == Err(Outside));
}

#[test]
fn words_are_stored_and_copied(rt: HostRuntime) -> Result<(), Fail> {
    let mut core = PlainCore::new(rt.alloc(), 1)?;
    stores(&rt, &mut core);
    let copy = core.copy(rt.alloc())?;
    assert!(rt; core.store(0, Word::signed(false, 7)) == Ok(()));
    has_copied(&rt, &copy);
    Ok(())
}
