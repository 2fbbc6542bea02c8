//! Tests of texts, of what no case of run_cases shows: the shared types, scripts as they are read and made, summaries, the segments
//! of a deck, streams, and the words of the command line.
#![tactic(auto)]

#[cfg(test)]
mod assemble;
#[cfg(test)]
mod command;
#[cfg(test)]
mod made;
#[cfg(test)]
mod rows;
#[cfg(test)]
mod script;
#[cfg(test)]
mod streams;
#[cfg(test)]
mod summary;
#[cfg(test)]
mod types;
#[cfg(test)]
mod written;
