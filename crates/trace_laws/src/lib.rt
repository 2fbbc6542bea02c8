//! Laws that tie the trace of a program to the run of a script: what the trace shows is what the script's record shows.
//!
//! The definitions are in `specs/`: `Scripts` (the script of a user that runs a program alone), `Laws` (the laws). The
//! functions here do nothing: each carries a law.
#![tactic(auto)]

ghost use Rattle.trace_laws.specs.Laws.{TracesAreRuns, TracesAreTranscripts};

/// Each state of a program that is traced is that of a moment of the script's run.
#[tactic(auto, using(crate::proofs::Whole::traces_are_runs))]
pub fn traces_are_runs()
    ensures { TracesAreRuns }
{}

/// The trace of a program is the transcript of the record of the script that ends where the trace does.
#[tactic(auto, using(crate::proofs::Whole::traces_are_transcripts))]
pub fn traces_are_transcripts()
    ensures { TracesAreTranscripts }
{}
