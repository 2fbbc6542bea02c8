//! What no report shows of scripts. Others that are read or refused, and their canonical texts, are cases of run_cases.
use crate::rows::holds;
use crate::written::written;
use script_read::{ScriptFault, ScriptText, read_base, read_script};
use std::alloc::Global;
use std::test::Fail;
use text_model::{ScriptCause, ScriptRefusal};

/// A script with each kind of card and of event, as its canonical text.
const SCRIPT: &[u8] = b"PARAM 1024 100 10 8 20 5 50\n\
    USER 1 ALFA SESAME 8 10\n\
    FILE 1 A B 1\n\
    O 000000000007\n\
    AT 0 1 DIAL\n\
    AT 7 32 LINE\n\
    AT 7 32 LINE   A B\n\
    AT 8 1 QUIT\n\
    AT 8 1 HANG\n\
    END 100000000\n";

#[test]
fn a_canonical_text_is_written_as_it_was_read(rt: HostRuntime) -> Result<(), Fail> {
    let script = read_script(rt.alloc(), SCRIPT)?;
    let sink = written(&rt, rt.alloc(), &ScriptText { script: &script })?;
    assert!(rt; sink.bytes() == SCRIPT);
    Ok(())
}

/// A script without events, whose END counts for nothing where it is served.
const BASE: &[u8] = b"PARAM 1024 100 10 8 20 5\n\
    USER 1 ALFA SESAME 8 10\n\
    * AT 0 1 DIAL\n\
    FILE 1 AT TEXT 1\n\
    T AT 0 1 DIAL\n\
    END 7\n";

#[test]
fn a_base_is_the_script_that_it_spells(rt: HostRuntime) -> Result<(), Fail> {
    let script = read_base(rt.alloc(), BASE)?;
    assert!(rt; script.end == 7);
    assert!(rt; script == read_script(rt.alloc(), BASE)?);
    Ok(())
}

/// How many stars a script is, and the card and the cause of its refusal.
static STARS: [(usize, u32, ScriptCause); 2] = [
    (4_194_304, 2, ScriptCause::NoEnd),
    (4_194_305, 0, ScriptCause::TooLong),
];

/// Why a script of so many stars is refused.
fn fault_of_stars(alloc: Global, count: usize) -> Result<Option<ScriptFault>, Fail> {
    let bytes = vec![in alloc; b'*'; count]?;
    Ok(read_script(alloc, &bytes).err())
}

#[test]
fn a_script_has_4_mib_at_most(rt: HostRuntime) -> Result<(), Fail> {
    for (row, (count, card, cause)) in STARS.iter().enumerate() {
        let refusal = ScriptRefusal {
            card: *card,
            cause: *cause,
        };
        let fault = fault_of_stars(rt.alloc(), *count)?;
        holds(&rt, row, fault == Some(ScriptFault::Refused(refusal)));
    }
    Ok(())
}

// A script, a place in it, and how many bytes at this place leave a script.
static PLACES: [(&[u8], usize, usize); 3] = [
    // In a text each of the 48 characters, in a name each but the blank, and in front of END just its letter.
    (b"PARAM 1 1 0 1 1 0\nAT 0 1 LINE AXB\nEND 0\n", 31, 48),
    (b"PARAM 1 1 0 1 1 0\nUSER 1 AXB S 1 1\nEND 0\n", 26, 47),
    (b"PARAM 1 1 0 1 1 0\nEND 0\n", 18, 1),
];

/// How many bytes leave a script that is read, in place of one of its own; it is refused with each other byte.
fn bytes_that_are_read(alloc: Global, script: &[u8], place: usize) -> Result<usize, Fail> {
    let mut bytes = Vec::from_slice(alloc, script)?;
    let mut read: usize = 0;
    for byte in 0..=255u8 {
        if let Some(slot) = bytes.get_mut(place) {
            *slot = byte;
        }
        match read_script(alloc, &bytes) {
            Ok(_) => read = read.saturating_add(1),
            Err(ScriptFault::Refused(_)) => {}
            Err(fault) => return Err(fault.into()),
        }
    }
    Ok(read)
}

#[test]
fn each_byte_is_read_or_refused(rt: HostRuntime) -> Result<(), Fail> {
    for (row, (script, place, want)) in PLACES.iter().enumerate() {
        let count = bytes_that_are_read(rt.alloc(), script, *place)?;
        holds(&rt, row, count == *want);
    }
    Ok(())
}
