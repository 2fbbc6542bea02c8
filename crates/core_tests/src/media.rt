ghost use Rattle.std.specs.Prelude.{◌≡◌, ◌<◌, length};
ghost use Rattle.medium.specs.Medium.{AreWords};

use crate::rows::holds;
use faults::NoMemory;
use medium::{Damage, Failed, Medium, MemoryMedium};
use std::process::Abort;
use std::test::Fail;

/// What is asked of a medium.
#[derive(Clone, Copy)]
enum Ask {
    /// To write the words.
    Write,
    /// To read the words, over ones.
    Read,
    /// To copy the first record, over ones, to the last.
    CopyToLast,
}

use Ask::{CopyToLast, Read, Write};

/// A call: what is asked, the number of the record, the words that are there after it, and how it ends. Of a record of
/// one word the first of them counts, and the second is a one.
type Call = (Ask, u16, [u8; 2], Result<(), Failed>);

/// Copies the first record to the last, as a layer above does it.
fn copy_to_last<M: Medium>(medium: &mut M, words: &mut [u64]) -> Result<(), Failed>
    requires some { 0 < M.record_count medium.old }
    requires whole { length words.old ≡ M.words_each medium.old }
    requires words { AreWords words.old }
{
    medium.read(0, words)?;
    let last = medium.records() - 1;
    medium.write(last, words)
}

/// Makes a call, and says whether it ends as it must, with the words that must be there then.
fn goes<M: Medium>(rt: &impl Abort, medium: &mut M, call: Call) -> bool {
    let (ask, at, words, ended) = call;
    let count = medium.record_words() as usize;
    assert!(rt; at < medium.records() && count <= 2);
    let before = if matches!(ask, Write) { words } else { [1; 2] };
    let mut found = [u64::from(before[0]), u64::from(before[1])];
    let part = &mut found[..count];
    let outcome = match ask {
        Write => medium.write(at, part),
        Read => medium.read(at, part),
        CopyToLast => copy_to_last(medium, part),
    };
    let want = [u64::from(words[0]), u64::from(words[1])];
    (outcome, found) == (ended, want)
}

/// Makes these calls of a medium.
fn runs<M: Medium>(rt: &impl Abort, medium: &mut M, calls: &[Call]) {
    for (row, call) in calls.iter().enumerate() {
        holds(rt, row, goes(rt, medium, *call));
    }
}

static WRITTEN: [Call; 6] = [
    (Write, 1, [5, 6], Ok(())),
    (Read, 1, [5, 6], Ok(())),
    (Read, 2, [0, 0], Ok(())),
    (Write, 0, [7, 8], Ok(())),
    (CopyToLast, 0, [7, 8], Ok(())),
    (Read, 2, [7, 8], Ok(())),
];

#[test]
fn reads_what_was_written(rt: HostRuntime) -> Result<(), Fail> {
    let mut drum = MemoryMedium::new(rt.alloc(), 3, 2, &[], &[], 0)?;
    assert!(rt; drum.records() == 3 && drum.record_words() == 2);
    runs(&rt, &mut drum, &WRITTEN);
    Ok(())
}

// Records of one word: behind it stands a one.
static FAILING: [Call; 4] = [
    (Write, 0, [4, 1], Ok(())),
    (Write, 0, [5, 1], Err(Failed)),
    (Read, 0, [1, 1], Err(Failed)),
    (Read, 0, [4, 1], Ok(())),
];

#[test]
fn fails_by_the_number_of_the_call(rt: HostRuntime) -> Result<(), Fail> {
    let mut drum = MemoryMedium::new(rt.alloc(), 1, 1, &[2, 3], &[], 0)?;
    runs(&rt, &mut drum, &FAILING);
    Ok(())
}

static DAMAGED: [Call; 4] = [
    (Read, 0, [0, 7], Ok(())),
    (Write, 0, [1, 1], Ok(())),
    (Read, 0, [9, 7], Ok(())),
    (Read, 0, [1, 7], Ok(())),
];

#[test]
fn damages_by_the_number_of_the_read(rt: HostRuntime) -> Result<(), Fail> {
    let damages = [
        Damage {
            read: Some(2),
            place: 0,
            word: 9,
        },
        Damage {
            read: None,
            place: 1,
            word: 7,
        },
    ];
    let mut drum = MemoryMedium::new(rt.alloc(), 1, 2, &[], &damages, 0)?;
    runs(&rt, &mut drum, &DAMAGED);
    Ok(())
}

static PAST_ROOM: [Call; 3] = [
    (Write, 0, [1, 1], Ok(())),
    (Write, 0, [2, 1], Ok(())),
    (Read, 0, [2, 1], Ok(())),
];

#[test]
fn works_past_the_room_for_calls(rt: HostRuntime) -> Result<(), Fail> {
    let mut drum = MemoryMedium::new(rt.alloc(), 1, 1, &[], &[], 1)?;
    runs(&rt, &mut drum, &PAST_ROOM);
    Ok(())
}

#[test]
fn wants_memory_for_its_calls(rt: HostRuntime) {
    let drum = MemoryMedium::new(rt.alloc(), 1, 1, &[], &[], u64::MAX);
    assert!(rt; matches!(drum, Err(NoMemory)));
}
