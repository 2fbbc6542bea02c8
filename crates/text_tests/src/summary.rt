use crate::written::written;
use ctss_types::{Cause, Entry, EventKind, Item, Record, Sequence, Transcripts};
use script_read::read_script;
use std::alloc::Global;
use std::test::Fail;
use text_writer::report::Summary;

/// A script of two accounts.
const SCRIPT: &[u8] = b"PARAM 1024 100 10 16 40 5\n\
    USER 1 ALFA SESAME 8 10\n\
    USER 2 BETA SESAME 8 10\n\
    END 400\n";

/// Four services, two of which ended with a read that found no line, a load, and entries that no sum counts.
const ENTRIES: [Entry; 8] = [
    Entry::Taken {
        tick: 0,
        console: 1,
        kind: EventKind::Line,
        user: 1,
        own: 0,
    },
    Entry::Clock { answer: 0, user: 1 },
    Entry::Serve {
        tick: 10,
        user: 1,
        level: 2,
        ran: 4,
        cause: Cause::Wait,
    },
    Entry::Serve {
        tick: 10,
        user: 1,
        level: 2,
        ran: 10,
        cause: Cause::Stop,
    },
    Entry::Swap {
        tick: 20,
        user: 2,
        dumped: 5,
        read: 7,
        fresh: 9,
    },
    Entry::Serve {
        tick: 10,
        user: 1,
        level: 2,
        ran: 6,
        cause: Cause::Preempt,
    },
    Entry::Serve {
        tick: 10,
        user: 1,
        level: 2,
        ran: 1,
        cause: Cause::Wait,
    },
    Entry::Idle {
        from: 200,
        until: 300,
    },
];

/// Three items of two users.
fn transcripts(alloc: Global) -> Result<Transcripts, Fail> {
    let cut = Sequence::from_vec(vec![in alloc; Item::Quit, Item::Hang]?);
    let hung = Sequence::from_vec(vec![in alloc; Item::Hang]?);
    Ok(Sequence::from_vec(vec![in alloc; cut, hung]?))
}

/// The record of the entries and of the transcripts.
fn record(alloc: Global) -> Result<Record, Fail> {
    let transcripts = transcripts(alloc)?;
    Ok(Record {
        entries: Sequence::from_vec(Vec::from_array(alloc, ENTRIES)?),
        transcripts,
        files: Sequence::new(alloc),
        common: Sequence::new(alloc),
        clock: 300,
    })
}

const SUMMARY: &[u8] = b"LOAD 999999\n\
    USERS 2\n\
    ITEMS 3\n\
    SERVES 4\n\
    SWAPS 1\n\
    DUMPED 5\n\
    READ 7\n\
    STEPS 19\n\
    END 300\n";

#[test]
fn sums_up_a_short_run(rt: HostRuntime) -> Result<(), Fail> {
    let script = read_script(rt.alloc(), SCRIPT)?;
    let run = record(rt.alloc())?;
    let summary = Summary {
        n: 999_999,
        script: &script,
        run: &run,
    };
    let sink = written(&rt, rt.alloc(), &summary)?;
    assert!(rt; sink.bytes() == SUMMARY);
    Ok(())
}
