//! The types that the definitions and the code share: numbers, lines, names, scripts, records.
//!
//! In contracts a user or console number, a word and a file's names are numbers, a line is the list of its characters,
//! a `Sequence` is the list of its items, what lies `Apart` is the value, and every other type is the record or the enum
//! that stands here.
#![tactic(auto)]

mod apart;
mod fault;
mod file;
mod history;
mod line;
mod name;
mod number;
mod script;
mod sequence;
mod session;
mod words;

pub use apart::Apart;
pub use fault::{RunFault, StepFault};
pub use faults::NoMemory;
pub use file::{CommonOp, FileBody, FileList, FileLists, OwnedFile, OwnedFiles, Refusal, Reply};
pub use history::{Cause, Entries, Entry, EventKind, Item, Items, Record, Transcripts};
pub use line::{LineFault, LineText, MOST_CHARACTERS};
pub use name::FileName;
pub use number::{ConsoleNo, UserNo};
pub use script::{Account, AccountList, Event, Params, Script, Timed, TimedList};
pub use sequence::{Bytes, LineList, Sequence, WordList};
pub use session::{Console, CutKind, Ending, Service, Waiting};
pub use words::{first_word, name_text, name_word};
