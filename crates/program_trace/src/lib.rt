//! A program run alone, and its trace: what each of its steps finds and leaves, and how it ends.
//!
//! The definitions stand in `specs/`: `Programs` (the program of cards, with the lines that it may read), `Lone` (the
//! user, its files and its steps), `Traces` (the trace), `Instructions` and `Registers` (what is shown of a step), `Texts`
//! (the whole text).
#![tactic(auto)]

mod alone;
mod changes;
mod instruction;
mod program;
mod run;
mod stepping;
mod text;
mod types;

ghost use Rattle.program_trace.specs.Traces.{ShowsStates};

pub use program::{Program, ProgramFault, program_of};
pub use run::trace;
pub use text::TraceText;
pub use types::{Trace, TraceEnd, TracedStep};

/// The k-th step of a trace is that from the k-th state of the run to the next one.
#[tactic(auto, using(crate::proofs::States::shows_states))]
pub fn shows_states()
    ensures { ShowsStates }
{}
