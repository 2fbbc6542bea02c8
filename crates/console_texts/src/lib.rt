//! What each console has shown: the texts of logins, and what the users of its sessions wrote.
//!
//! A console's text is kept as parts: texts of logins, and stretches of users' transcripts, which are not copied. It
//! changes only at an event and at the end of a session.
#![tactic(auto)]

mod console;
mod copying;
mod counting;
mod row;
mod texts;

pub use copying::Transcripts;
pub use texts::ConsoleTexts;
