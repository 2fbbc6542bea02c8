//! The picture of a run: who ran, at which level, what each user waited for, and the figures.
//!
//! The definitions stand in `specs/`: `Requests` (what a user asks and waits for), `Figures` with `Columns` and `FigureLines`, `Csv`,
//! `Folds` (where a tick stands in a picture), `Marks` and `Chart` (the picture in characters), `Picture` (the drawn one)
//! with `Drawing`, `Cores` with `CorePanel` and `CoreLines` (whose core it was), `Rows` (worked rows). The functions here do nothing: each carries a law or a row.
#![tactic(auto)]

mod request;

ghost use Rattle.picture_model.specs.Counted.{AsManyAsLoads};
ghost use Rattle.picture_model.specs.Folds.{PlacesJoin};
ghost use Rattle.picture_model.specs.Rows.{RowOfCells, RowOfCore, RowOfFigures, RowOfVisits};

pub use request::{Track, Visit};

/// The services, loads and idle times of every record take places that join, without gap and without overlap.
#[tactic(auto, using(crate::proofs::Places::places_join))]
pub fn places_join()
    ensures { PlacesJoin }
{}

/// There are owners of core for each load of the schedule, and no others.
#[tactic(auto, using(crate::proofs::Counted::as_many_as_loads))]
pub fn as_many_as_loads()
    ensures { AsManyAsLoads }
{}

/// What a user asked and waited for in a short schedule.
#[tactic(auto, using(crate::proofs::RowsComputed::row_of_visits))]
pub fn row_of_visits()
    ensures { RowOfVisits }
{}

/// Its figures.
#[tactic(auto, using(crate::proofs::RowsComputed::row_of_figures))]
pub fn row_of_figures()
    ensures { RowOfFigures }
{}

/// Its cells, where idle time is cut out.
#[tactic(auto, using(crate::proofs::RowsComputed::row_of_cells))]
pub fn row_of_cells()
    ensures { RowOfCells }
{}

/// Stretches of core, and where the next load stands.
#[tactic(auto, using(crate::proofs::RowsComputed::row_of_core))]
pub fn row_of_core()
    ensures { RowOfCore }
{}
