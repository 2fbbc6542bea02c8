//! The entries that a step adds to the schedule, and small parts of a run's state after it.
#![tactic(auto)]

mod notes;

pub use notes::{
    cause_of, end_note, idle_from, idle_note, leave_consoles, note, note_clock, note_some,
    note_step, service_left, stop_note,
};
