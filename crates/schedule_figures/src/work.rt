//! What the entries of a schedule add to one user's figures.
ghost use Rattle.std.specs.Prelude.{◌+◌, ◌^◌, ◌∷◌, ℕ};
ghost use Rattle.schedule_figures.specs.Work.{AreBelow, IsWork, TheEntries};

use ctss_types::{Entry, EventKind};

/// The lines that a user typed; its services, their ticks and their highest level; its loads, and the blocks that they
/// dumped and read.
#[derive(Clone, Copy)]
pub(crate) struct Work {
    pub lines: u128,
    pub services: u128,
    pub served: u128,
    pub level: u8,
    pub loads: u128,
    pub dumped: u128,
    pub read: u128,
}

/// With one entry more, in front of the others.
fn with_entry(work: Work, user: usize, entry: &Entry) -> Work
    requires { AreBelow (2 ^ 127) work }
    ensures work { (es : TheEntries) → IsWork user work es → IsWork user result (entry.now ∷ es) }
    ensures below { (n : ℕ) → AreBelow n work → AreBelow (n + 2 ^ 64) result }
{
    match entry {
        Entry::Taken {
            kind: EventKind::Line,
            user: of,
            ..
        } if usize::from(*of) == user => Work {
            lines: work.lines + 1,
            ..work
        },
        Entry::Serve {
            user: of,
            level,
            ran,
            ..
        } if usize::from(*of) == user => Work {
            services: work.services + 1,
            served: work.served + u128::from(*ran),
            level: work.level.max(*level),
            ..work
        },
        Entry::Swap {
            user: of,
            dumped,
            read,
            ..
        } if usize::from(*of) == user => Work {
            loads: work.loads + 1,
            dumped: work.dumped + u128::from(*dumped),
            read: work.read + u128::from(*read),
            ..work
        },
        _ => work,
    }
}

/// A user's work over a schedule, from its last entry on.
pub(crate) fn work_of(user: usize, entries: &[Entry]) -> Work
    ensures { IsWork user result entries.now }
{
    let mut work = Work {
        lines: 0,
        services: 0,
        served: 0,
        level: 0,
        loads: 0,
        dumped: 0,
        read: 0,
    };
    let mut at = entries.len();
    'entries: while at > 0 {
        at -= 1;
        work = with_entry(work, user, &entries[at]);
    }
    work
}
