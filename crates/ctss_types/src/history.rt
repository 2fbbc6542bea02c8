//! What a run leaves: transcripts, entries, files.
ghost use Rattle.std.specs.Prelude.{◌≡◌};
ghost use Rattle.ctss_types.specs.Entries.{cause_text, kind_text};

use crate::{Apart, CommonOp, FileList, FileLists, LineText, Reply, Sequence};
use std::fmt;

/// One thing on a user's transcript.
#[derive(Clone, Copy, Debug, PartialEq, Eq)]
pub enum Item {
    In(LineText),
    Out(LineText),
    Quit,
    Hang,
}

/// A transcript.
pub type Items = Sequence<Item>;

/// One transcript for each account.
pub type Transcripts = Sequence<Items>;

/// Why a service ended.
#[derive(Clone, Copy, Debug, PartialEq, Eq)]
pub enum Cause {
    Time,
    Wait,
    Stop,
    Size,
    Preempt,
    End,
}

impl fmt::Display for Cause {
    ghost use Rattle.std.specs.Prelude.{Some};
    ghost use Rattle.ctss_types.specs.Entries.{cause_text};

    ghost output = { λ c. Some (cause_text c) };

    fn fmt<W: fmt::Write>(&self, f: &mut fmt::Formatter<W>) -> fmt::Result {
        f.write_str(self.word())
    }
}

impl Cause {
    /// The word that stands for it.
    pub fn word(self) -> &'static str
        ensures { result.now ≡ cause_text self }
    {
        match self {
            Cause::Time => "TIME",
            Cause::Wait => "WAIT",
            Cause::Stop => "STOP",
            Cause::Size => "SIZE",
            Cause::Preempt => "PREEMPT",
            Cause::End => "END",
        }
    }
}

/// As what an event was taken.
#[derive(Clone, Copy, Debug, PartialEq, Eq)]
pub enum EventKind {
    Dial,
    Line,
    Quit,
    Hang,
    Spent,
}

impl fmt::Display for EventKind {
    ghost use Rattle.std.specs.Prelude.{Some};
    ghost use Rattle.ctss_types.specs.Entries.{kind_text};

    ghost output = { λ k. Some (kind_text k) };

    fn fmt<W: fmt::Write>(&self, f: &mut fmt::Formatter<W>) -> fmt::Result {
        f.write_str(self.word())
    }
}

impl EventKind {
    /// The word that stands for it.
    pub fn word(self) -> &'static str
        ensures { result.now ≡ kind_text self }
    {
        match self {
            EventKind::Dial => "DIAL",
            EventKind::Line => "LINE",
            EventKind::Quit => "QUIT",
            EventKind::Hang => "HANG",
            EventKind::Spent => "SPENT",
        }
    }
}

/// An entry of the schedule. A variant's comment is what its line of the report has: the word, and the fields in order.
/// What definitions and code say of entries, they say of those that they name: any other is no load, no service and no
/// operation, and adds nothing. `user` and `own` (own steps) are 0 where the console had no session. The operation on
/// common files, which is large and rare, lies apart, so that each entry takes 48 bytes.
#[derive(Clone, Debug, PartialEq, Eq, Drop)]
pub enum Entry {
    /// `TAKEN`: tick, console, DIAL LINE QUIT HANG or SPENT, user, the user's steps so far.
    Taken {
        tick: u64,
        console: u8,
        kind: EventKind,
        user: u8,
        own: u64,
    },
    /// `LOGIN`: tick, console, user.
    Login {
        tick: u64,
        console: u8,
        user: u8,
    },
    /// `REFUSED`: tick, console, cause.
    Refused {
        tick: u64,
        console: u8,
        cause: u8,
    },
    /// `IDLE`: the ticks from and until which nobody had anything to do.
    Idle {
        from: u64,
        until: u64,
    },
    /// `SWAP`: tick at which it began, user, blocks dumped, read and cleared.
    Swap {
        tick: u64,
        user: u8,
        dumped: u8,
        read: u8,
        fresh: u8,
    },
    /// `RISE`: tick, user, the level that it has risen to.
    Rise {
        tick: u64,
        user: u8,
        level: u8,
    },
    /// `SERVE`: tick at which it began, user, level, ticks, why it ended.
    Serve {
        tick: u64,
        user: u8,
        level: u8,
        ran: u64,
        cause: Cause,
    },
    /// `CLOCK`: the tick that was told, user.
    Clock {
        answer: u64,
        user: u8,
    },
    /// `SHARED`: user, STAT READ WRITE DELETE PUT or GET, 0 or the refusal.
    Common {
        user: u8,
        op: Apart<CommonOp>,
        reply: Reply,
    },
}

/// The schedule.
pub type Entries = Sequence<Entry>;

/// What a run leaves: the schedule, a transcript and a list of files for each account, the common files, the clock.
#[derive(Clone, Debug, PartialEq, Eq, Drop)]
pub struct Record {
    pub entries: Entries,
    pub transcripts: Transcripts,
    pub files: FileLists,
    pub common: FileList,
    pub clock: u64,
}
