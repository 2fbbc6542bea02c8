//! Whom to serve, and what has to be moved for it.
//!
//! The definitions stand in `specs/`: `Levels` (levels and queues), `Loads` (owners and bases of core, kept copies, loads), `Bases`
//! (where a load puts a user), `Rows` (worked rows). The functions here do nothing: each carries a law or a row.
#![tactic(auto)]

ghost use Rattle.plan_model.specs.Bases.{BaseIsLeast};
ghost use Rattle.plan_model.specs.Rows.{RowOfLevels, RowOfQueues, RowOfRises, RowOfLoads, RowOfMoves};

/// Levels of sizes.
#[tactic(auto, using(crate::proofs::RowsComputed::row_of_levels))]
pub fn row_of_levels()
    ensures { RowOfLevels }
{}

/// Two users in the queues.
#[tactic(auto, using(crate::proofs::RowsComputed::row_of_queues))]
pub fn row_of_queues()
    ensures { RowOfQueues }
{}

/// Two users, of which one rises.
#[tactic(auto, using(crate::proofs::RowsComputed::row_of_rises))]
pub fn row_of_rises()
    ensures { RowOfRises }
{}

/// Loads of three users.
#[tactic(auto, using(crate::proofs::RowsComputed::row_of_loads))]
pub fn row_of_loads()
    ensures { RowOfLoads }
{}

/// Loads at other places.
#[tactic(auto, using(crate::proofs::RowsComputed::row_of_moves))]
pub fn row_of_moves()
    ensures { RowOfMoves }
{}

/// Where a load puts a user that can't stay.
#[tactic(auto, using(crate::proofs::Least::base_is_least))]
pub fn base_is_least()
    ensures { BaseIsLeast }
{}
