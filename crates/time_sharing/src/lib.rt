//! Users of a time-sharing machine, each isolated from the others, over any private machine; and sums over its schedule.
#![tactic(auto)]

pub mod sums;

ghost use Rattle.time_sharing.specs.Claims.{AllIsolated, RowsIsolated, AllRunsEnd, CommonsAreOne, RunsInParts, FeedsDecide, EachMomentIsAlone, LateEventsWait, WatchingIsStill};

/// Each user is isolated, whatever the types of states, plans and files are.
#[tactic(auto, using(crate::proofs::ClaimsProved::all_isolated))]
pub fn users_are_isolated<S, P, F>()
    ensures { AllIsolated S P F }
{}

/// The same of a machine made of rows, of which nothing is asked.
pub fn users_by_rows_are_isolated<A, P, F>()
    ensures { RowsIsolated A P F }
{}

/// Each run ends.
#[tactic(auto, using(crate::proofs::ClaimsProved::all_runs_end))]
pub fn runs_end<S, P, F>()
    ensures { AllRunsEnd S P F }
{}

/// The replies in a record, and the common files at its end, are those of one list of files.
pub fn commons_are_one<S, P, F>()
    ensures { CommonsAreOne S P F }
{}

/// A run in parts is the whole run.
#[tactic(auto, using(crate::proofs::ClaimsProved::runs_in_parts))]
pub fn runs_in_parts<S, P, F>()
    ensures { RunsInParts S P F }
{}

/// A user's first state and feed decide the last state.
#[tactic(auto, using(crate::proofs::ClaimsProved::feeds_decide))]
pub fn feeds_decide<S, P, F, Q, G>()
    ensures { FeedsDecide S P F Q G }
{}

/// At each moment a user's state is that of the user's machine alone, over the feed so far.
pub fn each_moment_is_alone<S, P, F>()
    ensures { EachMomentIsAlone S P F }
{}

/// Events that come late change nothing before.
#[tactic(auto, using(crate::proofs::ClaimsProved::late_events_wait))]
pub fn late_events_wait<S, P, F>()
    ensures { LateEventsWait S P F }
{}

/// To watch what the consoles show changes nothing of the machine.
#[tactic(auto, using(crate::proofs::ClaimsProved::watching_is_still))]
pub fn watching_is_still<S, P, F>()
    ensures { WatchingIsStill S P F }
{}
