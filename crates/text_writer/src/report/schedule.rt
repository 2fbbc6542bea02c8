ghost use Rattle.std.specs.Prelude.{◌≡◌, ◌+◌, ◌^◌, ◌∷◌, ℕ};
ghost use Rattle.time_sharing.specs.Sums.{service_steps};
ghost use Rattle.text_writer.specs.Sums.{AreSums, AreBelow, TheEntries};

use ctss_types::{Cause, Entry};

/// The sums over a schedule.
#[derive(Clone, Copy)]
pub struct Sums {
    pub serves: u128,
    pub swaps: u128,
    pub dumped: u128,
    pub read: u128,
    pub steps: u128,
}

/// The steps of a service of so many ticks.
fn steps_of(ran: u64, cause: Cause) -> u64
    ensures { result ≡ service_steps ran cause }
{
    match cause {
        Cause::Wait => ran.saturating_sub(1),
        Cause::Time | Cause::Stop | Cause::Size | Cause::Preempt | Cause::End => ran,
    }
}

/// The sums with one entry more, in front of the others.
fn with_entry(sums: Sums, entry: &Entry) -> Sums
    requires { AreBelow (2 ^ 127) sums }
    ensures sums { (es : TheEntries) → AreSums sums es → AreSums result (entry.now ∷ es) }
    ensures below { (n : ℕ) → AreBelow n sums → AreBelow (n + 2 ^ 64) result }
{
    match entry {
        Entry::Swap { dumped, read, .. } => Sums {
            swaps: sums.swaps + 1,
            dumped: sums.dumped + u128::from(*dumped),
            read: sums.read + u128::from(*read),
            ..sums
        },
        Entry::Serve { ran, cause, .. } => Sums {
            serves: sums.serves + 1,
            steps: sums.steps + u128::from(steps_of(*ran, *cause)),
            ..sums
        },
        _ => sums,
    }
}

/// The sums over a schedule, from its last entry on.
pub fn sums_over(entries: &[Entry]) -> Sums
    ensures { AreSums result entries.now }
{
    let mut sums = Sums {
        serves: 0,
        swaps: 0,
        dumped: 0,
        read: 0,
        steps: 0,
    };
    let mut at = entries.len();
    'entries: while at > 0 {
        at -= 1;
        sums = with_entry(sums, &entries[at]);
    }
    sums
}
