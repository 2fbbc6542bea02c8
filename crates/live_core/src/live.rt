//! What a server asks of a core.
ghost use Rattle.std.specs.Prelude.{◌≡◌, ◌≤◌, OnOk, OnErr, ℕ, List, [], ◌∷◌, ◌++◌, ◌-◌, ◌^◌, min, length, take, drop, get_or, false};
ghost use Rattle.live_core.specs.Core.{CoreSeen, CoreCall, Took, Went, WentTo, fault_of};

use ctss_types::{ConsoleNo, NoMemory, RunFault, Timed};

/// A run that is handed its events as they come, and goes on up to a limit at a time.
///
/// Its calls `take` and `advance` have one meaning together, `Goes`: the run after such calls. Reading what a console
/// has shown changes nothing. After a fault of `advance` neither may be called again.
pub trait LiveCore {
    /// Whether a fault ended it, what its consoles have shown, and how often its drum and disk failed.
    ghost seen: { Self → CoreSeen };

    /// What it needs to go on.
    ghost Sound: { Self → Type 0 };

    /// The second is the first after these calls, over the same drum and disk.
    ghost Goes: { Self → List CoreCall → Self → Type 0 };

    /// Takes an event, behind all others.
    fn take(&mut self, event: Timed) -> Result<(), NoMemory>
        requires ready { (seen self.old).is_ended ≡ false }
        requires sound { Sound self.old }
        ensures ok { OnOk result (Goes self.old (Took event ∷ []) self.new) }
        ensures err { OnErr result (Goes self.old [] self.new) }
        ensures same { seen self.new ≡ seen self.old }
        ensures sound { Sound self.new };

    /// Goes on up to the limit.
    fn advance(&mut self, limit: u64) -> Result<(), RunFault>
        requires ready { (seen self.old).is_ended ≡ false }
        requires sound { Sound self.old }
        requires most { limit ≤ 100000000 }
        ensures goes { Goes self.old (Went limit (fault_of result) ∷ []) self.new }
        ensures went { WentTo (fault_of result) (seen self.old) (seen self.new) }
        ensures sound { OnOk result (Sound self.new) };

    /// How many bytes a console has shown; at most what a `u64` can hold.
    fn out_len(&self, console: ConsoleNo) -> u64
        ensures { result ≡ min (length (get_or (seen self.now).texts (console - 1) [])) (2 ^ 64 - 1) };

    /// Copies what a console has shown from a place on, as much as fits, and answers how many bytes that were.
    fn out_since(&self, console: ConsoleNo, from: u64, into: &mut [u8]) -> usize
        ensures count { result
            ≡ min (length into.old) (length (get_or (seen self.now).texts (console - 1) []) - from) }
        ensures bytes { into.new
            ≡ take result (drop from (get_or (seen self.now).texts (console - 1) [])) ++ drop result into.old };

    /// No calls leave it as it is.
    ghost goes_nowhere: { (a : Self) → Goes a [] a };

    /// After some calls and then others it is behind all of them.
    ghost goes_on: { (a b c : Self) (first second : List CoreCall) → Goes a first b → Goes b second c
        → Goes a (first ++ second) c };
}
