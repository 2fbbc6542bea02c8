//! Commands on files and programs: listings, files as lines, lines as words, and refusals as text; whether a file is a
//! deck, and its words in core; saved programs, and what is printed of one that stopped; and the linking of modules
//! that stand in files.
#![tactic(auto)]

mod deck;
mod directory;
mod lines;
mod link;
mod load;
mod part;
mod post_mortem;
mod refusal;
mod saved;

pub use deck::{deck_in, store_deck};
pub use directory::listing;
pub use lines::{line_words, printed};
pub use link::{LinkFilesFault, link_files};
pub use load::{PrepareFault, fill, prepare, prepare_saved};
pub use part::put;
pub use post_mortem::{register_lines, word_line};
pub use refusal::{mode_within, refusal_text};
pub use saved::{saved_in, saved_regs, saved_words};
