//! The picture of a run, drawn: who ran, the levels, core, and the figures, as one SVG text.
#![tactic(auto)]

mod core_rows;
mod drawing;
mod label;
mod layer;
mod level;
mod ruler;
mod shape;
mod sheet;
mod stretch;
mod user;
mod wait;

pub use drawing::add_drawing;
