//! What a run hands out.
ghost use Rattle.std.specs.Prelude.{◌≡◌, map, IfOk};
ghost use Rattle.plan_model.specs.Loads.{no_places};
ghost use Rattle.supervisor.specs.Seen.{record_so_far, run_seen};
ghost use Rattle.supervisor.specs.Closes.{record_with};

use crate::state::State;
use ctss_types::{FileList, Items, NoMemory, Record, Sequence};
use std::alloc::Global;
use user_session::Session;

/// What a run hands out at its end.
#[derive(Debug, Drop)]
pub enum Closed {
    /// The record.
    Complete(Record),
    /// The disk failed while files were read: the record without files.
    WithoutFiles(Record),
}

/// Each user's transcript.
fn transcripts_of(alloc: Global, sessions: Vec<Session>) -> Result<Vec<Items>, NoMemory>
    ensures { IfOk result (λ t. t.items ≡ map (λ u. u.transcript) sessions.items) }
{
    let mut transcripts = Vec::new(alloc);
    for session in sessions {
        transcripts.push(session.into_items())?;
    }
    Ok(transcripts)
}

/// The record so far, with these files.
pub(crate) fn record_of(
    alloc: Global,
    state: State,
    own: Vec<FileList>,
    common: FileList,
) -> Result<Record, NoMemory>
    ensures { IfOk result (λ rec. rec ≡ record_with own.items common (run_seen no_places state)) }
{
    let transcripts = transcripts_of(alloc, state.sessions)?;
    Ok(Record {
        entries: Sequence::from_vec(state.entries),
        transcripts: Sequence::from_vec(transcripts),
        files: Sequence::from_vec(own),
        common,
        clock: state.clock,
    })
}

/// The record so far, without files.
pub(crate) fn record_without_files(alloc: Global, state: State) -> Result<Record, NoMemory>
    ensures { IfOk result (λ rec. rec ≡ record_so_far (run_seen no_places state)) }
{
    record_of(alloc, state, Vec::new(alloc), Sequence::new(alloc))
}
