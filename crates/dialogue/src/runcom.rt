//! Command files: lines with arguments in them, which stand before those that were typed. The definitions are `CommandLines` of program_model.
mod lines;
mod made;

pub use lines::{CommandLines, MOST_LINES};
pub use made::{ComFault, substitute};
pub use program_model::ComRefusal;
