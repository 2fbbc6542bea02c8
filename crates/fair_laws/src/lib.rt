//! Laws of waiting: with an age nobody starves, and the first of the lowest level is served in its turn.
//!
//! The definitions are in `specs/`: `Bound` (the longest wait), `Served` (the ticks that a user was served), `Waits` (a user that
//! waits, and how its wait ends), `Laws` (the laws), `Unbounded` (without an age no wait has a bound, with a worked row), `Rows`
//! (a worked row: a user that waits, without an age and with one). The functions here do nothing: each carries a law or a row.
#![tactic(auto)]

ghost use Rattle.fair_laws.specs.Laws.{FirstComeFirstServed, LevelZeroIsServed, NobodyStarves, ReadScriptsAreUsual, ReadyAreServed, ReadyStand, TheFirstIsServed, WaitsAreBounded};
ghost use Rattle.fair_laws.specs.Rows.{RowOfWaits};
ghost use Rattle.fair_laws.specs.Unbounded.{NoBoundWithoutAge, RowOfHogging};

/// Every script that can be read is usual: a quantum is a tick at least, and no account has more blocks than core.
#[tactic(auto, using(crate::proofs::Reading::read_scripts_are_usual))]
pub fn read_scripts_are_usual()
    ensures { ReadScriptsAreUsual }
{}

/// With an age nobody starves: each wait ends within the longest wait at its level.
#[tactic(auto, using(crate::proofs::Whole::nobody_starves))]
pub fn nobody_starves()
    ensures { NobodyStarves }
{}

/// So every wait ends within the longest wait at level 8.
#[tactic(auto, using(crate::proofs::Whole::waits_are_bounded))]
pub fn waits_are_bounded()
    ensures { WaitsAreBounded }
{}

/// A user that is ready is at a level.
#[tactic(auto, using(crate::proofs::Whole::ready_stand))]
pub fn ready_stand()
    ensures { ReadyStand }
{}

/// So with an age every user that is ready is served within the longest wait at level 8.
#[tactic(auto, using(crate::proofs::Whole::ready_are_served))]
pub fn ready_are_served()
    ensures { ReadyAreServed }
{}

/// A user at level 0 is served within a quantum and a load for each user before it, with an age or without one.
#[tactic(auto, using(crate::proofs::Whole::level_zero_is_served))]
pub fn level_zero_is_served()
    ensures { LevelZeroIsServed }
{}

/// A tick is always that of the first user of the lowest level that has users.
#[tactic(auto, using(crate::proofs::FirstServed::the_first_is_served))]
pub fn the_first_is_served()
    ensures { TheFirstIsServed }
{}

/// First come, first served within a level: no step puts a user before another that waits on there.
#[tactic(auto, using(crate::proofs::FirstCome::first_come_first_served))]
pub fn first_come_first_served()
    ensures { FirstComeFirstServed }
{}

/// A user that waits, without an age and with one.
#[tactic(auto, using(crate::proofs::RowsComputed::row_of_waits))]
pub fn row_of_waits()
    ensures { RowOfWaits }
{}

/// Without an age no wait has a bound: a command file that runs itself keeps its user at level 0 for ever.
#[tactic(auto, using(crate::proofs::Unbounded::no_bound_without_age))]
pub fn no_bound_without_age()
    ensures { NoBoundWithoutAge }
{}

/// A command file that runs itself, and a program that waits.
#[tactic(auto, using(crate::proofs::HoggingComputed::row_of_hogging))]
pub fn row_of_hogging()
    ensures { RowOfHogging }
{}
