//! Texts: the script of bytes, a script's one canonical text, the report, the words of the command line.
//!
//! The definitions stand in `specs/`: `Fields`, `Cards` (the forms of cards), `Drafts` (what each card adds, or why it is
//! refused), `Reading` (the script of bytes), `Canonical`, `Lawful` (the rules of cards), `Made`, `Report`, `Summary`,
//! `Words`, and worked rows in `Rows`. The types of cards and causes are here, the reading of one field of a card
//! (`fields`), and functions that do nothing: each carries a law.
#![tactic(auto)]

ghost use Rattle.text_model.specs.Reading.{ScriptsAreInRange};
ghost use Rattle.text_model.specs.Lawful.{ScriptsAreLawful};
ghost use Rattle.text_model.specs.Rows.{RowOfScript, RowOfRefusals, RowOfFile, RowOfFileRefusals, RowOfTrack, RowOfModes, RowOfServing, RowOfReport, RowOfMade, RowOfSummary};

mod card;
mod cause;
pub mod fields;
mod mode;

pub use card::{CardEvent, CardText, EventCard, FileCard, UserCard};
pub use cause::{ScriptCause, ScriptRefusal};
pub use mode::Mode;

/// Every script that is read has its numbers in range, and its files fit their accounts.
pub fn scripts_are_in_range()
    ensures { ScriptsAreInRange }
{}

/// Every script that is read keeps the rules of cards.
pub fn scripts_are_lawful()
    ensures { ScriptsAreLawful }
{}

/// A script's cards, written and read.
#[tactic(auto, using(crate::proofs::RowsComputed::row_of_script))]
pub fn row_of_script()
    ensures { RowOfScript }
{}

/// Texts that are refused, each at its card and for its cause.
#[tactic(auto, using(crate::proofs::RowsComputed::row_of_refusals))]
pub fn row_of_refusals()
    ensures { RowOfRefusals }
{}

/// The cards of a file, written and read.
#[tactic(auto, using(crate::proofs::RowsComputed::row_of_file))]
pub fn row_of_file()
    ensures { RowOfFile }
{}

/// Files that their account doesn't take, and cards of words that are none.
#[tactic(auto, using(crate::proofs::RowsComputed::row_of_file_refusals))]
pub fn row_of_file_refusals()
    ensures { RowOfFileRefusals }
{}

/// The last word of a track.
#[tactic(auto, using(crate::proofs::RowsComputed::row_of_track))]
pub fn row_of_track()
    ensures { RowOfTrack }
{}

/// Words of the command line.
#[tactic(auto, using(crate::proofs::RowsComputed::row_of_modes))]
pub fn row_of_modes()
    ensures { RowOfModes }
{}

/// Words of the command line that ask for live consoles.
#[tactic(auto, using(crate::proofs::RowsComputed::row_of_serving))]
pub fn row_of_serving()
    ensures { RowOfServing }
{}

/// The report of a record.
#[tactic(auto, using(crate::proofs::RowsComputed::row_of_report))]
pub fn row_of_report()
    ensures { RowOfReport }
{}

/// Made scripts.
#[tactic(auto, using(crate::proofs::RowsComputed::row_of_made))]
pub fn row_of_made()
    ensures { RowOfMade }
{}

/// The summary of a record.
#[tactic(auto, using(crate::proofs::RowsComputed::row_of_summary))]
pub fn row_of_summary()
    ensures { RowOfSummary }
{}
