//! The script of live consoles reads as itself: what `serve` writes first, `replay` may be given, and what it writes then is what replay
//! makes of that. And a link that lists its calls lists all of a talk; what the core hears at a console is what its connections sent.
//!
//! The definitions stand in `specs/`: `Laws` (of what `serve` writes), `ConsoleLaws` and `VisitLaws` (of turns one after another).
//! The functions here do nothing: each carries a law.
#![tactic(auto)]

mod consoles;

ghost use Rattle.serve_laws.specs.Laws.{LiveScriptsAreRead, LiveRunsAreReplayed, LiveStoppedLoadsAreFew, CallsOfTalksAreTold, CallsOfCutTalksAreTold};

pub use consoles::{
    bytes_pass, calls_are_told, cut_events_are_visits, events_are_visits, few_calls, own_counts,
    reading_stops, writing_stops,
};

/// The text of a live script, if it isn't too long, reads as that script.
pub fn live_scripts_are_read()
    ensures { LiveScriptsAreRead }
{}

/// `serve` writes its script's text and then the report of its run. If that text isn't too long, it reads as that script, and
/// `replay` of it writes exactly that report.
pub fn live_runs_are_replayed()
    ensures { LiveRunsAreReplayed }
{}

/// If a load stopped a turn of live consoles, they ask no more of the drum than the run of their script so far.
pub fn live_stopped_loads_are_few()
    ensures { LiveStoppedLoadsAreFew }
{}

/// A link that lists its calls lists all that live consoles made, where it has room for 164,000 a turn and 100 more.
pub fn calls_of_talks_are_told()
    ensures done { CallsOfTalksAreTold }
    ensures cut { CallsOfCutTalksAreTold }
{}
