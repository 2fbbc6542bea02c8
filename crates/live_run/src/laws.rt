//! What a run has in common with the run of a script, where its events come while it goes on.
//!
//! The definitions stand in `specs/`. The functions here do nothing: each carries a law.
ghost use Rattle.live_run.specs.Beginnings.{StoppedRunsAreBeginnings, StoppedPartsAreBeginnings, StoppedLoadsAreFew, StoppedPartLoadsAreFew};
ghost use Rattle.live_run.specs.Parts.{LiveRunsAreReplays, CallsAreRuns};
ghost use Rattle.live_run.specs.Texts.{TextsInParts, LateEventsShowNothing, LiveTextsAreReplayed, CallsShowTexts};

/// The record of a run to which events are given in parts is that of the script with all of them.
#[tactic(auto, using(crate::proofs::InParts::live_runs_are_replays))]
pub fn live_runs_are_replays()
    ensures { LiveRunsAreReplays }
{}

/// A supervisor that takes events and goes to limits, over a drum and a disk that tell their records and don't fail, does just such a run.
#[tactic(auto, using(crate::proofs::Calls::calls_are_runs))]
pub fn calls_are_runs()
    ensures { CallsAreRuns }
{}

/// Schedule and transcripts of a script's run that stopped are beginnings of those of the script's record.
#[tactic(auto, using(crate::proofs::Beginnings::stopped_runs_are_beginnings))]
pub fn stopped_runs_are_beginnings()
    ensures { StoppedRunsAreBeginnings }
{}

/// Those of a run in parts that stopped are beginnings of those of the script with all events of these parts.
#[tactic(auto, using(crate::proofs::Beginnings::stopped_parts_are_beginnings))]
pub fn stopped_parts_are_beginnings()
    ensures { StoppedPartsAreBeginnings }
{}

/// A run that a load stopped asks no more of the drum than the whole run. This holds for a script that was read, and for a run in parts.
pub fn stopped_loads_are_few()
    ensures script { StoppedLoadsAreFew }
    ensures parts { StoppedPartLoadsAreFew }
{}

/// To go on in parts, with events that come meanwhile, shows what one long run shows.
#[tactic(auto, using(crate::proofs::TextsInParts::texts_in_parts))]
pub fn texts_in_parts()
    ensures { TextsInParts }
{}

/// Events that come late show nothing before.
#[tactic(auto, using(crate::proofs::TextsInParts::late_events_show_nothing))]
pub fn late_events_show_nothing()
    ensures { LateEventsShowNothing }
{}

/// What people saw at their consoles is what the script of it shows.
#[tactic(auto, using(crate::proofs::LiveTexts::live_texts_are_replayed))]
pub fn live_texts_are_replayed()
    ensures { LiveTextsAreReplayed }
{}

/// What a supervisor shows after its calls is what such a run shows, over a drum and a disk that tell their records and don't fail.
#[tactic(auto, using(crate::proofs::Calls::calls_show_texts))]
pub fn calls_show_texts()
    ensures { CallsShowTexts }
{}
