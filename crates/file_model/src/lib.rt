//! Directories of files: what each operation answers and leaves, with its refusals in order.
//!
//! The definitions stand in `specs/`: `Files` (names, tracks, one definition an operation), `Texts` (what is printed of a
//! directory), `Commons` (the common directory's operations and replies), `Rows` (worked rows). The
//! functions `row_of_..` do nothing: each carries a row.
#![tactic(auto)]

ghost use Rattle.std.specs.Prelude.{◌≡◌, ◌≤◌};
ghost use Rattle.file_model.specs.Texts.{refusal_number};
ghost use Rattle.file_model.specs.Rows.{RowOfTracks, RowOfRefusals, RowOfCommons, RowOfTexts};

use ctss_types::Refusal;

/// What a file is: its number of words, and its mode from 0 to 3.
#[derive(Clone, Copy, Debug, PartialEq, Eq)]
pub struct Stat {
    pub words: u64,
    pub mode: u8,
}

/// Writes at the edge of a quota.
#[tactic(auto, using(crate::proofs::RowsComputed::row_of_tracks))]
pub fn row_of_tracks()
    ensures { RowOfTracks }
{}

/// Refusals, and what is done in their place.
#[tactic(auto, using(crate::proofs::RowsComputed::row_of_refusals))]
pub fn row_of_refusals()
    ensures { RowOfRefusals }
{}

/// Two users at the common directory.
#[tactic(auto, using(crate::proofs::RowsComputed::row_of_commons))]
pub fn row_of_commons()
    ensures { RowOfCommons }
{}

/// Listings and refusals as they are printed.
#[tactic(auto, using(crate::proofs::RowsComputed::row_of_texts))]
pub fn row_of_texts()
    ensures { RowOfTexts }
{}

/// The number of a refusal, which programs get.
pub fn refusal_number(refusal: Refusal) -> u8
    ensures value { result ≡ refusal_number refusal }
    ensures few { result ≤ 7 }
{
    refusal as u8
}
