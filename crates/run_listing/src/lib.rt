//! What the program answers that lists the cards of a program, or traces its program: the cards come in, and the
//! listing or the trace goes out.
//!
//! The definition stands in `specs/Answer`, that of the listing in fap_listing, and that of the trace in program_trace.
#![tactic(auto)]

mod answer;
mod asked;
mod text;

pub use answer::{ListCards, write_listing};
pub use script_show::run;
