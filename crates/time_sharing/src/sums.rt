//! Sums over a schedule: how often users were served, what loads moved, how many steps were done.
//!
//! The definitions stand in `specs/`: `Sums`, and worked rows in `SumsRows`. The function here does nothing: it carries the rows.
ghost use Rattle.time_sharing.specs.SumsRows.{RowOfSums};

/// The sums of a short schedule.
#[tactic(auto, using(crate::proofs::RowsComputed::row_of_sums))]
pub fn row_of_sums()
    ensures { RowOfSums }
{}
