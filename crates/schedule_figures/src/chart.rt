//! The picture of a run in characters: who ran and at which level, in lines of 120 columns, and core after each load.
mod columns;
mod core_lines;
mod levels;
mod maps;
mod marks;
mod numbers;
mod owners;
mod paint;
mod place;
mod row;
mod rows;
mod ruler;
mod users;
mod whole;

pub use maps::{CoreMaps, CorePart};
pub use owners::{begins_at, owner_at, stretch_from};
pub use place::{cut_of, place_of, places_in, tick_at};
pub use whole::add_chart;
