//! Tests of core and drum: who owns which block, records and the blocks kept there, and users' images over both.
#![tactic(auto)]

#[cfg(test)]
mod images;
#[cfg(test)]
mod media;
#[cfg(test)]
mod owners;
#[cfg(test)]
mod rows;
#[cfg(test)]
mod slots;
#[cfg(test)]
mod telling;
