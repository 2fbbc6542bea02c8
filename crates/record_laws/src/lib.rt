//! Laws of every record. What its entries cover of its time: services, loads and idle times join end to end, and so add up
//! to its clock. What its directories keep to (`file_rules`): modes, names that differ, and the quota of tracks.
//!
//! The definitions stand in `specs/`: `Spans` (what entries cover, and how long), `Worlds` (what the law of every world
//! asks of one), `Laws` (both laws), `Rows` (a worked row), `Others` (another: two
//! scripts that differ in one user alone). The functions here do nothing: each carries a law or a row.
#![tactic(auto)]

pub mod file_rules;

ghost use Rattle.record_laws.specs.Laws.{AllTicksJoin, TicksJoin};
ghost use Rattle.record_laws.specs.Others.{RowOfOthers};
ghost use Rattle.record_laws.specs.Rows.{RowOfSpans};

/// The services, loads and idle times in the record of every script cover its time from 0 to its clock, without gap and
/// without overlap.
pub fn ticks_join()
    ensures { TicksJoin }
{}

/// The same of every machine and world in which a loaded user stays loaded while it is served.
pub fn all_ticks_join<S, P, F>()
    ensures { AllTicksJoin S P F }
{}

/// What eight entries cover, and how many ticks of each kind.
#[tactic(auto, using(crate::proofs::RowsComputed::row_of_spans))]
pub fn row_of_spans()
    ensures { RowOfSpans }
{}

/// Two scripts that differ in one user alone, and what the other sees.
#[tactic(auto, using(crate::proofs::OthersComputed::row_of_others))]
pub fn row_of_others()
    ensures { RowOfOthers }
{}
