//! The machine of all users as this product has it: what is round the users, the run of a script and its record.
//!
//! The definitions stand in `specs/`: `Round` (queues, logins), `Run` (a step and a run, closed, as contracts cite
//! them), `Cases` (each case of a step field by field), `Sound` (what is true of each state), `Record` (the record of
//! a script, and each user alone), `Rows` (worked rows). The functions here do nothing: each carries a law.
#![tactic(auto)]

ghost use Rattle.system_model.specs.Claims.{UsersAreAlone, CommonsAreOne, EachMomentIsAlone, FeedsDecide, StepsEnd, RunsInParts, LateEventsWait};
ghost use Rattle.system_model.specs.Rows.{RowOfNobody, RowOfOneUser, RowOfLateUser, RowOfRises};

/// In the record of every script each user's transcript and files are those of the user's machine alone.
#[tactic(auto, using(crate::proofs::AloneLaws::users_are_alone))]
pub fn users_are_alone()
    ensures { UsersAreAlone }
{}

/// In the record of every script the replies of the common files are those of one list of files, in the record's order.
#[tactic(auto, using(crate::proofs::AloneLaws::commons_are_one))]
pub fn commons_are_one()
    ensures { CommonsAreOne }
{}

/// At each moment of a script's run each user's state is that of the user's machine alone, over the feed so far.
#[tactic(auto, using(crate::proofs::AloneLaws::each_moment))]
pub fn each_moment_is_alone()
    ensures { EachMomentIsAlone }
{}

/// A user's account, first files and feed decide the user's transcript and files, whatever the rest of the script says.
#[tactic(auto, using(crate::proofs::AloneLaws::feeds_decide))]
pub fn feeds_decide()
    ensures { FeedsDecide }
{}

/// Each step below a limit comes nearer to it, so each run ends.
#[tactic(auto, using(crate::proofs::PartLaws::steps_end))]
pub fn steps_end()
    ensures { StepsEnd }
{}

/// A run in parts is the whole run.
#[tactic(auto, using(crate::proofs::PartLaws::runs_in_parts))]
pub fn runs_in_parts()
    ensures { RunsInParts }
{}

/// Events that come late change nothing before them.
#[tactic(auto, using(crate::proofs::PartLaws::late_events_wait))]
pub fn late_events_wait()
    ensures { LateEventsWait }
{}

/// The record of a script without users.
#[tactic(auto, using(crate::proofs::RowsComputed::row_of_nobody))]
pub fn row_of_nobody()
    ensures { RowOfNobody }
{}

/// The record of a user that logs in, gives a password and logs out.
#[tactic(auto, using(crate::proofs::RowsComputed::row_of_one_user))]
pub fn row_of_one_user()
    ensures { RowOfOneUser }
{}

/// The record of a user that is refused three times, types a command with a word too much after a day, and hangs up.
#[tactic(auto, using(crate::proofs::RowsComputed::row_of_late_user))]
pub fn row_of_late_user()
    ensures { RowOfLateUser }
{}

/// What the schedule of two users says, of whom each rises after it has waited for 50 ticks.
#[tactic(auto, using(crate::proofs::RowsComputed::row_of_rises))]
pub fn row_of_rises()
    ensures { RowOfRises }
{}
